// Bounds: floors under the charge of every setup that starts with a beginning.
#![tactic(auto)]

pub mod asking;
pub mod bound;
pub mod rows;
pub mod setting;
