//! Requests, and their replies.

use crate::given::{id, now};
use crate::steps::Place;
use delivery::Pass;
use intake_shed::{Answered, Ask, AskBody, answer};
use run_log::LogId;
use std::process::Abort;
use std::sync::Wait;
use std::sync::ledger::Ledger;
use std::time::Clock;

/// A request: the path, the ids of the event and the body.
pub(crate) enum Request {
    Put(&'static [u8], &'static [u8]),
    Post(&'static [u8], &'static [&'static [u8]], &'static [u8]),
    Get(&'static [u8]),
}

fn ask_of(request: &Request) -> Ask<'static> {
    let (method, path, ids, body): (&[u8], &[u8], &[&[u8]], &[u8]) = match *request {
        Request::Put(path, body) => (b"PUT", path, &[], body),
        Request::Post(path, ids, body) => (b"POST", path, ids, body),
        Request::Get(path) => (b"GET", path, &[], b""),
    };
    Ask {
        method,
        path,
        ids,
        body: AskBody::Whole(body),
    }
}

impl<L: Ledger, I: LogId, R: Wait + Clock + Abort> Place<'_, L, I, R> {
    /// The answer to a request, whose event gets the id `fresh` if it has none.
    pub(crate) fn answer_to(&self, request: &Request, pass: &mut Pass) -> Answered<I> {
        let (fresh, now) = (id(self.rt, b"fresh"), now(self.rt));
        let ask = ask_of(request);
        answer(self.rt, self.alloc, self.shared, &ask, fresh, now, pass)
    }
}

/// Whether the reply has this status, `Retry-After: 1` or not, and this text. An acknowledgement
/// comes with a 202 alone.
pub(crate) fn is_answered<I: LogId>(
    answered: &Answered<I>,
    status: u16,
    retry: bool,
    text: &str,
) -> bool {
    let reply = &answered.reply;
    reply.status == status
        && reply.retry == retry
        && reply.body.as_str() == text
        && (answered.ack.is_some() || answered.published.is_some()) == (status == 202)
}
