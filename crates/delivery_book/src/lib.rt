//! The book of deliveries: what the relay keeps in memory of every event that it took in, and of what came of it.
#![tactic(auto)]

mod book;
mod entry;
mod events;
mod index;
mod keys;
mod progress;
mod purge;
mod row;
mod search;
mod small;
mod tally;
mod theorems;

pub use crate::book::DeliveryBook;
pub use crate::row::{Counts, Row};
pub use crate::theorems::{endpoint_records_leave, restored_books_stand};
