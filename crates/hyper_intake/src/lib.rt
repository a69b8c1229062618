//! Requests over HTTP, as `hyper` takes them.
#![tactic(auto)]

mod asking;
mod responding;
mod service;

pub use crate::service::{Answering, Intake, Unanswered};
