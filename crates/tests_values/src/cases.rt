//! What the tables of several crates need: values of the base crate, which end the test where there is none.

use relay_types::{Body, MaxLimit, Moment, MsgId, Name, ReadFault, Secret, Secrets, Target};
use std::alloc::{AllocError, Global};
use std::process::Abort;
use std::sync::Arc;

/// Ends the test where a step or a case of a table isn't as it should be.
pub(crate) fn holds(rt: &impl Abort, is: bool, place: usize) {
    assert!(rt; is, "place {place} of the table");
}

/// Ends the test where memory was refused.
pub(crate) fn done(rt: &impl Abort, answer: Result<(), AllocError>) {
    match answer {
        Ok(()) => {}
        Err(AllocError) => panic!(rt; "no memory"),
    }
}

pub(crate) fn name(rt: &impl Abort, text: &[u8]) -> Name {
    Name::read(text).expect(rt, "a name")
}

pub(crate) fn msg_id(rt: &impl Abort, text: &[u8]) -> MsgId {
    MsgId::read(text).expect(rt, "an id")
}

pub(crate) fn moment(rt: &impl Abort, seconds: u64) -> Moment {
    Moment::of(seconds).expect(rt, "a moment")
}

pub(crate) fn max_limit(rt: &impl Abort, limit: u64) -> MaxLimit {
    MaxLimit::of(limit).expect(rt, "a maximum")
}

pub(crate) fn secret(rt: &impl Abort, text: &[u8]) -> Secret {
    Secret::read(text).expect(rt, "a secret")
}

pub(crate) fn secrets(rt: &impl Abort, list: &[Secret]) -> Secrets {
    Secrets::of(list).expect(rt, "secrets")
}

pub(crate) fn target(rt: &impl Abort, alloc: Global, url: &[u8]) -> Target {
    Target::read(alloc, url).expect(rt, "a target")
}

/// The body of these bytes, or why there is none.
pub(crate) fn body_of(rt: &impl Abort, alloc: Global, bytes: Vec<u8>) -> Result<Body, ReadFault> {
    match Arc::new(alloc, bytes) {
        Ok(shared) => Body::of(shared),
        Err(_) => panic!(rt; "no memory"),
    }
}

pub(crate) fn body(rt: &impl Abort, alloc: Global, text: &[u8]) -> Body {
    let bytes = Vec::from_slice(alloc, text).expect(rt, "memory");
    body_of(rt, alloc, bytes).expect(rt, "a body")
}
