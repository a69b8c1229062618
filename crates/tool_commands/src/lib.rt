//! The commands that replay no script: `check`, `sign` and `vegas`, over a reader and two writers.
#![tactic(auto)]

mod check_command;
mod sign_command;
mod vegas_command;

pub use crate::check_command::check_file;
pub use crate::sign_command::sign;
pub use crate::vegas_command::vegas;
