//! The request of an attempt as Standard Webhooks 1.0.0 has it, and who posts it.
#![tactic(auto)]

mod header;
mod outgoing;
mod poster;

pub use crate::header::{Header, HeaderName};
pub use crate::outgoing::Outgoing;
pub use crate::poster::Poster;
