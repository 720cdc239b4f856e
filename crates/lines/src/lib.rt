// Reads one line of a script of calls.
#![tactic(auto)]

pub mod line;
