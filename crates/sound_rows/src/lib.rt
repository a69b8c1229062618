//! Whether the rows of the tables are such as a legal history has. Only the numbers in the rows are kept and compared:
//! the texts, the bodies and the moments in a row keep their rules by their types.
#![tactic(auto)]

mod apart;
mod below;
mod numbers;
mod order;
mod places;
mod search;
mod sound;
mod turns;

pub use crate::numbers::{Attempt, Delivery, Endpoint, RowNumbers, Topic};
