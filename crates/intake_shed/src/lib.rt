//! What a request over HTTP asks for, why it is refused, and the replies, without a socket; and the
//! answer to it at a desk that threads share. The calls that wait are `submit_and_wait`,
//! `publish_and_wait`, `command_and_wait` and `answer`.
#![tactic(auto)]

mod ack;
mod answered;
mod answering;
mod ask;
mod changes;
mod confirmed;
mod done;
mod fault;
mod latest;
mod members;
mod pages;
mod publish_ack;
mod reading;
mod refusals;
mod reply;
mod routes;
mod waits;

pub use crate::ack::{Ack, Acknowledged};
pub use crate::answered::Answered;
pub use crate::answering::answer;
pub use crate::ask::{Ask, AskBody, Asked};
pub use crate::confirmed::Confirmed;
pub use crate::done::{accepted_reply, change_reply, change_status, published_reply};
pub use crate::fault::RequestError;
pub use crate::latest::LatestAck;
pub use crate::pages::page_reply;
pub use crate::publish_ack::PublishAck;
pub use crate::reading::read_ask;
pub use crate::refusals::{SubmitError, refusal_reply};
pub use crate::reply::{Reply, ReplyText};
pub use crate::waits::{command_and_wait, publish_and_wait, submit_and_wait};
