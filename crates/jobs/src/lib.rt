// Jobs: modules with their settings, and the calls on them.
#![tactic(auto)]

pub mod building;
pub mod floors;
mod guard;
pub mod job;
pub mod looking;
pub mod opening;
pub mod refusal;
pub mod sat;
pub mod ticket;
pub mod walking;
pub mod weighing;
