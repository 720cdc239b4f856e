// The modules of a job, the sheet, and what a setup is charged.
#![tactic(auto)]

pub mod module_record;
pub mod modules;
pub mod settings;
pub mod sheet;
pub mod weighing;
