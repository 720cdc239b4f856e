// Carrying out the lines of a script of calls.
#![tactic(auto)]

pub mod calling;
pub mod figured;
pub mod opened;
pub mod printed;
pub mod program;
mod rooms;
pub mod script;
pub mod scripted;
pub mod session;
pub mod walked;
pub mod walking;
