//! The desk: the order of all changes. It takes submissions and commands, seals what waits, settles
//! what was committed, chooses what is posted next, learns how it went, and tells what is settled.
#![tactic(auto)]

mod batches;
mod claims;
mod command;
mod commands;
mod comparing;
mod desk;
mod job;
mod limiter;
mod limits;
mod opening;
mod pages;
mod publish;
mod queries;
mod queue_sync;
mod refusal;
mod spent;
mod ticket;

pub use crate::command::Command;
pub use crate::desk::Desk;
pub use crate::job::{Job, Post};
pub use crate::limits::{MAX_PENDING, MAX_PENDING_ALL};
pub use crate::pages::{EndpointPage, Totals};
pub use crate::refusal::{Fault, Refusal};
pub use crate::spent::{Limits, Spent};
pub use crate::ticket::{CommandTicket, Ticket, Told};
