//! The answer to a request.
use crate::ack::Ack;
use crate::confirmed::Confirmed;
use crate::publish_ack::PublishAck;
use crate::reply::Reply;
use run_log::LogId;

/// A reply, and what it reports: the acknowledgement of an event that is settled, or settled at
/// each subscriber of its topic, or the confirmation of a change that is. If an allocation for the
/// reply's text fails, the reply is a 503, and these come with it all the same.
#[derive(Drop)]
pub struct Answered<I: LogId> {
    pub reply: Reply,
    pub ack: Option<Ack<I>>,
    pub published: Option<PublishAck<I>>,
    pub confirmed: Option<Confirmed<I>>,
}
