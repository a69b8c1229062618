//! The book of endpoints: what the relay keeps in memory of every endpoint, as the whole history has it and as the
//! settled records have it.
#![tactic(auto)]

mod book;
mod changes;
mod entries;
mod entry;
mod key;
mod limits;
mod subscribers;
mod theorems;
mod topics;
mod view;

pub use crate::book::EndpointBook;
pub use crate::limits::MAX_FLAGS;
pub use crate::subscribers::Subscribers;
pub use crate::theorems::{idle_records_leave, other_records_leave, restored_books_stand};
pub use crate::view::EndpointView;
