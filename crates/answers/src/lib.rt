// The text of an answer, and of a line with its answer.
#![tactic(auto)]

pub mod answer;
pub mod report;
