//! Requests, and what they ask for.
ghost use Rattle.std.specs.Prelude.{◌≡◌};
ghost use Rattle.intake_shed.specs.Pages.{asks_for_page};

use desk::Command;
use relay_types::{Body, MsgId, Name};

/// The body of a request.
#[derive(Clone, Copy)]
pub enum AskBody<'a> {
    /// All of its bytes.
    Whole(&'a [u8]),
    /// It was longer than 65,536 bytes, and its bytes weren't kept.
    TooLong,
}

/// A request over HTTP.
#[derive(Clone, Copy)]
pub struct Ask<'a> {
    /// The method as it was sent, in its own letter case (RFC 9110, section 9.1).
    pub method: &'a [u8],
    /// The path with its query, as it was sent.
    pub path: &'a [u8],
    /// The values of all headers `webhook-id`.
    pub ids: &'a [&'a [u8]],
    /// The body.
    pub body: AskBody<'a>,
}

/// What a request asks for.
#[derive(Drop)]
pub enum Asked {
    /// A change of an endpoint, or a purge.
    Change(Command),
    /// An event for an endpoint.
    Post { name: Name, id: MsgId, body: Body },
    /// An event for the subscribers of a topic.
    Publish { topic: Name, id: MsgId, body: Body },
    /// The page of all endpoints and events.
    Totals,
    /// The page of an endpoint.
    Endpoint(Name),
    /// The page of an endpoint's event.
    Event(Name, MsgId),
}

impl Asked {
    /// Whether a page is asked for, and no change.
    pub fn asks_for_page(&self) -> bool
        ensures { result ≡ asks_for_page self.now }
    {
        match self {
            Asked::Change(_) | Asked::Post { .. } | Asked::Publish { .. } => false,
            Asked::Totals | Asked::Endpoint(_) | Asked::Event(_, _) => true,
        }
    }
}
