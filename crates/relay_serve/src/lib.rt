//! `relayd serve`: the threads of a relay, from the opening of its file to its end.
#![tactic(auto)]

mod accept;
mod fault;
mod host;
mod opening;
mod operator_log;
mod relay;
mod served;
mod serving;
mod threads;
mod work;

pub use crate::fault::{ServeFault, end_serving};
pub use crate::host::Host;
pub use crate::operator_log::halt_text;
pub use crate::served::Served;
pub use crate::serving::{serve, serve_opened};
