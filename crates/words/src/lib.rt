// The words of a text, and the numbers and rows of numbers that words write.
#![tactic(auto)]

pub mod numbers;
pub mod rows;
pub mod spacing;
pub mod splitting;
pub mod values;
