//! What a command shows to its shell, its exit status and the line of its fault, and the words of
//! `serve`.
#![tactic(auto)]

mod exit_status;
mod serve_words;

pub use crate::exit_status::{
    CommandFault, DONE, FAILED, FileFault, StoreFault, UNFIT, USAGE, end, tell_fault,
};
pub use crate::serve_words::{ServeWords, Settings, read_serve, serve_syntax};
