//! Group commit: the steps that wait after the settled ones, the batch that is sealed of the first of them, and what
//! becomes of it.
#![tactic(auto)]

mod fault;
mod held;
mod limits;
mod out;
mod queue;
mod waiting;

pub use crate::fault::{SealFault, WaitingFull, WrongTurn};
pub use crate::held::{Held, Settled};
pub use crate::limits::{MAX_WAITING_OUTCOMES, MAX_WAITING_REQUESTS};
pub use crate::waiting::Waiting;
