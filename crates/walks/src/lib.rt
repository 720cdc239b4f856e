// The walks, one step at a time.
#![tactic(auto)]

pub mod closing;
mod moving;
pub mod outcome;
pub mod sitting;
pub mod starting;
pub mod state;
pub mod stepping;
mod striking;
pub mod trail;
pub mod ways;
