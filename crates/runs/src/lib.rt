// Lists of calls on a job, and what every walk in them finds.
#![tactic(auto)]

pub mod answer;
pub mod call;
mod carrying;
mod lists;
pub mod perform;
mod rows;
