//! The tables of a store that anyone may have written, read row by row: what the rows show, where
//! their values keep their rules.
#![tactic(auto)]

mod attempt;
mod check;
mod delivery;
mod endpoint;
mod fault;
mod judge;
mod keys;
mod meta;
mod order;
mod places;
mod reading;
mod records;
mod secret;
mod stored;
mod tables;
mod topic;
mod unsound;
mod value;
mod version;

pub use crate::check::{check_first_tables, check_tables};
pub use crate::fault::TableFault;
pub use crate::unsound::judge_unsound;
