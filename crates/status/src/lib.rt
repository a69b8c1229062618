//! The pages of the desk as JSON: what the relay tells of all events, of an endpoint and of an event.
#![tactic(auto)]

mod pages;
mod words;

pub use crate::pages::{endpoint_text, event_text, totals_text};
pub use crate::words::id_text;
