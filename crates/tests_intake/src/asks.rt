//! Requests, and how each is answered.

use desk::Command;
use intake_shed::{Ask, AskBody, Asked, Reply, read_ask};
use relay_types::{Body, MaxLimit, Moment, MsgId, Name, Secrets, Target};
use std::alloc::{AllocError, Global};
use std::process::Abort;
use std::test::Fail;

/// A path or a body.
#[derive(Clone, Copy)]
pub(crate) enum Text {
    Is(&'static [u8]),
    /// These bytes, and after them so many of this one.
    Long(&'static [u8], u8, usize),
    /// The body of a new endpoint at `http://h/` with this maximum and a secret of 32 bytes.
    Max(&'static [u8]),
    /// The body of a flag, which has another member of so many arrays in one another.
    Nested(usize),
}

/// What is asked for, or the reply.
#[derive(Clone, Copy)]
pub(crate) enum Answer {
    /// A reply of this status and text: the same request will be refused again.
    Refused(u16, &'static [u8]),
    Totals,
    /// The page of the endpoint of this name.
    Endpoint(&'static [u8]),
    /// The page of the event of this endpoint and id.
    Event(&'static [u8], &'static [u8]),
    /// An event for this endpoint, of this id, with the body that was sent.
    Post(&'static [u8], &'static [u8]),
    /// An event for this topic, of this id, with the body that was sent.
    Publish(&'static [u8], &'static [u8]),
    /// A new endpoint of this name, URL and maximum, with so many secrets.
    Put(&'static [u8], &'static [u8], u32, usize),
    /// So many other secrets of this endpoint.
    Secrets(&'static [u8], usize),
    /// Whether this endpoint is posted to.
    Flag(&'static [u8], bool),
    /// Whether this endpoint is subscribed to this topic.
    Subscribed(&'static [u8], &'static [u8], bool),
    /// What is done with before this moment is removed.
    Purge(u64),
}

/// Requests that are answered alike: each of these paths, with each of these bodies.
#[derive(Clone, Copy)]
pub(crate) struct Case {
    pub(crate) method: &'static [u8],
    pub(crate) paths: &'static [Text],
    pub(crate) ids: &'static [&'static [u8]],
    pub(crate) bodies: &'static [Text],
    pub(crate) answer: Answer,
}

/// What is asked for, or the reply. The fresh id is `fresh`.
pub(crate) fn ask(
    alloc: Global,
    method: &[u8],
    path: &[u8],
    ids: &[&[u8]],
    body: &[u8],
) -> Result<Result<Asked, Reply>, Fail> {
    let fresh = MsgId::read(b"fresh")?;
    let ask = Ask {
        method,
        path,
        ids,
        body: AskBody::Whole(body),
    };
    Ok(read_ask(alloc, &ask, fresh))
}

/// The status of the reply that refuses a request, or 0 where it is read.
pub(crate) fn refused_with(alloc: Global, ask: &Ask<'static>) -> Result<u16, Fail> {
    Ok(match read_ask(alloc, ask, MsgId::read(b"fresh")?) {
        Ok(_) => 0,
        Err(reply) => reply.status,
    })
}

/// Whether the reply has this status and text, and says by `retry` whether the request may be made again.
pub(crate) fn is_reply(reply: &Reply, status: u16, retry: bool, text: &[u8]) -> bool {
    reply.status == status && reply.retry == retry && reply.body.as_str().as_bytes() == text
}

fn with_max(alloc: Global, max: &[u8]) -> Result<Vec<u8>, AllocError> {
    let mut body = Vec::from_slice(alloc, b"{\"url\":\"http://h/\",\"max\":")?;
    body.extend_from_slice(max)?;
    body.extend_from_slice(
        b",\"secrets\":[\"whsec_MDAwMDAwMDAwMDAwMDAwMDAwMDAwMDAwMDAwMDAwMDA=\"]}",
    )?;
    Ok(body)
}

fn nested(alloc: Global, arrays: usize) -> Result<Vec<u8>, AllocError> {
    let mut body = Vec::from_slice(alloc, b"{\"enabled\":true,\"x\":")?;
    body.extend_from_slice(vec![in alloc; b'['; arrays]?.as_slice())?;
    body.extend_from_slice(vec![in alloc; b']'; arrays]?.as_slice())?;
    body.push(b'}')?;
    Ok(body)
}

fn lengthened(alloc: Global, front: &[u8], byte: u8, count: usize) -> Result<Vec<u8>, AllocError> {
    let mut text = Vec::from_slice(alloc, front)?;
    text.extend_from_slice(vec![in alloc; byte; count]?.as_slice())?;
    Ok(text)
}

fn bytes_of(alloc: Global, text: Text) -> Result<Vec<u8>, AllocError> {
    match text {
        Text::Is(bytes) => Vec::from_slice(alloc, bytes),
        Text::Long(front, byte, count) => lengthened(alloc, front, byte, count),
        Text::Max(max) => with_max(alloc, max),
        Text::Nested(arrays) => nested(alloc, arrays),
    }
}

fn is_endpoint(found: Name, answer: Answer) -> bool {
    match answer {
        Answer::Endpoint(name) => found.as_bytes() == name,
        _ => false,
    }
}

fn is_event(found: Name, id: &MsgId, answer: Answer) -> bool {
    match answer {
        Answer::Event(name, wanted) => found.as_bytes() == name && id.as_bytes() == wanted,
        _ => false,
    }
}

fn is_post(found: Name, id: &MsgId, body: &Body, sent: &[u8], answer: Answer) -> bool {
    match answer {
        Answer::Post(name, wanted) => {
            found.as_bytes() == name && id.as_bytes() == wanted && body.as_bytes() == sent
        }
        _ => false,
    }
}

fn is_publish(found: Name, id: &MsgId, body: &Body, sent: &[u8], answer: Answer) -> bool {
    match answer {
        Answer::Publish(topic, wanted) => {
            found.as_bytes() == topic && id.as_bytes() == wanted && body.as_bytes() == sent
        }
        _ => false,
    }
}

fn is_put(found: Name, target: &Target, max: MaxLimit, secrets: &Secrets, answer: Answer) -> bool {
    match answer {
        Answer::Put(name, url, most, count) => {
            found.as_bytes() == name
                && target.as_bytes() == url
                && max.get() == most
                && secrets.count() == count
        }
        _ => false,
    }
}

fn are_secrets(found: Name, secrets: &Secrets, answer: Answer) -> bool {
    match answer {
        Answer::Secrets(name, count) => found.as_bytes() == name && secrets.count() == count,
        _ => false,
    }
}

fn is_flag(found: Name, flag: bool, answer: Answer) -> bool {
    match answer {
        Answer::Flag(name, wanted) => found.as_bytes() == name && flag == wanted,
        _ => false,
    }
}

fn is_subscribed(found: Name, topic: Name, flag: bool, answer: Answer) -> bool {
    match answer {
        Answer::Subscribed(name, wanted, subscribed) => {
            found.as_bytes() == name && topic.as_bytes() == wanted && flag == subscribed
        }
        _ => false,
    }
}

fn is_purge(before: Moment, answer: Answer) -> bool {
    match answer {
        Answer::Purge(seconds) => before.seconds() == seconds,
        _ => false,
    }
}

fn is_change(command: &Command, answer: Answer) -> bool {
    match command {
        Command::PutEndpoint {
            name,
            target,
            max,
            secrets,
        } => is_put(*name, target, *max, secrets, answer),
        Command::SetSecrets { name, secrets } => are_secrets(*name, secrets, answer),
        Command::SetEnabled { name, flag } => is_flag(*name, *flag, answer),
        Command::SetSubscribed { topic, name, flag } => {
            is_subscribed(*name, *topic, *flag, answer)
        }
        Command::Purge { before } => is_purge(*before, answer),
    }
}

/// Whether this is asked for by a request with this body.
fn is_asked(asked: &Asked, sent: &[u8], answer: Answer) -> bool {
    match asked {
        Asked::Change(command) => is_change(command, answer),
        Asked::Post { name, id, body } => is_post(*name, id, body, sent, answer),
        Asked::Publish { topic, id, body } => is_publish(*topic, id, body, sent, answer),
        Asked::Totals => matches!(answer, Answer::Totals),
        Asked::Endpoint(name) => is_endpoint(*name, answer),
        Asked::Event(name, id) => is_event(*name, id, answer),
    }
}

fn is_refused(reply: &Reply, answer: Answer) -> bool {
    match answer {
        Answer::Refused(status, text) => is_reply(reply, status, false, text),
        _ => false,
    }
}

/// Whether the request of this path and body is answered as it should be.
fn is_answered(alloc: Global, case: &Case, path: &[u8], body: &[u8]) -> Result<bool, Fail> {
    match &ask(alloc, case.method, path, case.ids, body)? {
        Ok(asked) => Ok(is_asked(asked, body, case.answer)),
        Err(reply) => Ok(is_refused(reply, case.answer)),
    }
}

fn holds(rt: &impl Abort, is: bool, case: usize, path: usize, body: usize) {
    assert!(rt; is, "case {case}, path {path}, body {body}");
}

/// Makes the requests of a path, which stand at these places.
fn send(
    rt: &impl Abort,
    alloc: Global,
    case: &Case,
    path: &[u8],
    places: (usize, usize),
) -> Result<(), Fail> {
    for (place, body) in case.bodies.iter().enumerate() {
        let body = bytes_of(alloc, *body)?;
        let is = is_answered(alloc, case, path, body.as_slice())?;
        holds(rt, is, places.0, places.1, place);
    }
    Ok(())
}

fn send_all(rt: &impl Abort, alloc: Global, case: &Case, place: usize) -> Result<(), Fail> {
    for (path_place, path) in case.paths.iter().enumerate() {
        let path = bytes_of(alloc, *path)?;
        send(rt, alloc, case, path.as_slice(), (place, path_place))?;
    }
    Ok(())
}

/// Makes the requests of each case, and compares how they are answered.
pub(crate) fn walk(rt: &impl Abort, alloc: Global, cases: &[Case]) -> Result<(), Fail> {
    for (place, case) in cases.iter().enumerate() {
        send_all(rt, alloc, case, place)?;
    }
    Ok(())
}
