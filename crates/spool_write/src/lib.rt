//! The rows of records, written inside a transaction exactly where the longer history is legal.
#![tactic(auto)]

mod accept;
mod enabled;
mod outcome;
mod purge;
mod put;
mod records;
mod secrets;
mod subscribed;

pub use crate::records::write_records;
