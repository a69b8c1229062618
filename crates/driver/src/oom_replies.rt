//! Calls that read a request, or make a reply.
use crate::given::FixedValues;
use crate::oom::{CallError, RepeatableCall, try_twice};
use desk::Ticket;
use intake_shed::{
    Ask, AskBody, Asked, Reply, accepted_reply, change_reply, published_reply, read_ask,
};
use relay_types::MsgId;
use std::alloc::Global;
use std::{io, slice};

const PUT_BODY: &[u8] =
    b"{\"url\":\"http://127.0.0.1:9000/hook\",\"max\":100,\"secrets\":[\"whsec_MDEyMzQ1Njc4OTAxMjM0NTY3ODkwMTIz\"]}";

#[derive(Clone, Copy)]
pub(crate) enum ReplyCall {
    Accepted,
    AskPost,
    AskPut,
    Change,
    Published,
}

/// A call, and what it is handed.
#[derive(Clone, Copy)]
struct Replies {
    call: ReplyCall,
    given: FixedValues,
}

impl RepeatableCall for Replies {
    fn attempt(&mut self, rt: &HostRuntime) -> Result<u64, CallError> {
        let alloc = rt.alloc();
        let id = self.given.id;
        match self.call {
            ReplyCall::Accepted => reply_told(&accepted_reply(alloc, &id, 1)),
            ReplyCall::AskPost => ask_told(alloc, b"POST", b"/v1/endpoints/a/events", b"{}", id),
            ReplyCall::AskPut => ask_told(alloc, b"PUT", b"/v1/endpoints/a", PUT_BODY, id),
            ReplyCall::Change => reply_told(&change_reply(alloc, 201, 0)),
            ReplyCall::Published => {
                let name = self.given.name;
                let ticket = Ticket { seq: 1, name, id };
                reply_told(&published_reply(alloc, &id, slice::from_ref(&ticket)))
            }
        }
    }
}

/// The status of a reply other than that of a failed allocation.
pub(crate) fn reply_told(reply: &Reply) -> Result<u64, CallError> {
    if reply.status != 503 {
        return Ok(u64::from(reply.status));
    }
    if reply.retry && reply.body.as_str() == "{\"error\":\"OutOfMemory\"}" {
        return Err(CallError::NoMemory);
    }
    Err(CallError::Other)
}

fn ask_told<'x>(
    alloc: Global,
    method: &'x [u8],
    path: &'x [u8],
    body: &'x [u8],
    id: MsgId,
) -> Result<u64, CallError> {
    let ask = Ask {
        method,
        path,
        ids: &[],
        body: AskBody::Whole(body),
    };
    match read_ask(alloc, &ask, id) {
        Ok(Asked::Change(_)) => Ok(1),
        Ok(Asked::Post { .. }) => Ok(2),
        Ok(_) => Err(CallError::Other),
        Err(reply) => reply_told(&reply),
    }
}

/// Makes the call. Whether it was made.
pub(crate) fn try_reply(rt: &HostRuntime, call: ReplyCall, given: FixedValues) -> io::Result<bool> {
    try_twice(rt, &mut Replies { call, given })
}
