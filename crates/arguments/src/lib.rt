// The arguments of each call but open: the words after the first.
#![tactic(auto)]

pub mod building;
pub mod floors;
pub mod walking;
pub mod weighing;
