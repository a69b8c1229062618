//! The relay's command line and its command `replay`, over a reader and two writers.
#![tactic(auto)]

mod command_line;
mod replay_command;

pub use crate::command_line::{Outcome, VERSION, run};
pub use crate::replay_command::replay;
