//! The lines of a script: the calls of the core and the stop, how each is read, and how its reply
//! is printed.
#![tactic(auto)]

mod call;
mod reply;
mod script;
mod seqs;

pub use crate::call::{Call, Line};
pub use crate::reply::{Fault, Reply, Told};
pub use crate::script::{one_line_at_most, read_call, read_line};
pub use crate::seqs::Seqs;
