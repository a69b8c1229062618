//! The lines and words that commands read and write: a reader's lines within bounds, the words of a
//! line and what they stand for, and lines that are written.
#![tactic(auto)]

mod answering;
mod fault;
mod limits;
mod lines;
mod output;
mod words;

pub use crate::answering::{Answerer, LineFault, answer_lines};
pub use crate::fault::StreamFault;
pub use crate::limits::{MAX_LINE_BYTES, MAX_LINES, MAX_READS, MAX_WRITES};
pub use crate::lines::{Lines, extend_within, read_into};
pub use crate::output::{write_bytes, write_line};
pub use crate::words::{
    WordFault, count_words, is_secrets_word, is_word, read_body, read_max, read_moment,
    read_number, read_secrets, secrets_of, split,
};
