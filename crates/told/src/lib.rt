// What weighing and walking come to, as text: charges, setups, and how a walk ended.
#![tactic(auto)]

pub mod closing;
pub mod figure;
