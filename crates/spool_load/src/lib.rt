//! The books of what the tables hold, read a page at a time: the endpoints with their topics, then the events, then
//! what came of these.
#![tactic(auto)]

mod attempts;
mod deliveries;
mod endpoints;
mod events;
mod topics;

pub use crate::attempts::load_attempts;
pub use crate::deliveries::Deliveries;
pub use crate::endpoints::{Endpoints, NamedPut, load_endpoints};
pub use crate::events::load_deliveries;
pub use crate::topics::load_topics;
