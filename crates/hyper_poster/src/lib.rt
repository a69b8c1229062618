//! Posts to subscribers over sockets: a connection of its own for each request.
#![tactic(auto)]

mod exchange;
mod failure;
mod look_up;
mod poster;
mod request;

pub use crate::poster::HyperPoster;
