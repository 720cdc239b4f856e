// The calls that a line of a script can say, and the arguments of open.
#![tactic(auto)]

pub mod call;
mod names;
pub mod opening;
