//! The command line of the program: what its words ask for.
#![tactic(auto)]

mod commands;
mod faults;
mod job;
mod values;
mod words;

pub use job::{Ask, Job, LineFault, Mode, Request, UnitForm};
pub use loop_core_model::Test;
pub use loop_core_split::{Plan, Policy};
pub use words::{read_command_line, read_words};
