//! The deliveries that wait for their next attempt, and which of them is next. Which endpoint has
//! room for one more attempt the queue is told.
#![tactic(auto)]

mod firsts;
mod lane_state;
mod lanes;
mod pairs;
mod queue;

pub use crate::queue::ClaimQueue;
