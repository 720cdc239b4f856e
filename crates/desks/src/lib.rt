// Jobs with the tickets of their walks.
#![tactic(auto)]

pub mod building;
pub mod calls;
pub mod desk;
pub mod leaving;
mod lent;
pub mod looking;
