//! The endpoints and the events of a run.
use crate::failed::Failed;
use desk::Command;
use relay_types::{Body, MaxLimit, MsgId, Name, Secret, Secrets, Target};
use std::alloc::{AllocError, Global};
use std::sync::Arc;

/// How many endpoints a run of bare statements has.
pub(crate) const ENDPOINTS: u32 = 100;

/// The bytes of a body.
pub(crate) const BODY: usize = 1024;

pub(crate) fn name_of(alloc: Global, number: u32) -> Result<Name, Failed> {
    let text = format!(in alloc; "e{number}")?;
    Ok(Name::read(text.as_bytes())?)
}

/// The number in an event's id: ids come in no order, as made ones do, and none comes twice, as the factor is odd.
pub(crate) fn scattered(number: u32) -> u64 {
    u64::from(number.wrapping_mul(2_654_435_761))
}

/// The text of an event's id.
pub(crate) fn id_text(alloc: Global, number: u64) -> Result<String, AllocError> {
    format!(in alloc; "msg_{number}")
}

pub(crate) fn id_of(alloc: Global, number: u64) -> Result<MsgId, Failed> {
    let text = id_text(alloc, number)?;
    Ok(MsgId::read(text.as_bytes())?)
}

pub(crate) fn bytes_of_body(alloc: Global) -> Result<Vec<u8>, AllocError> {
    let mut bytes = Vec::with_capacity(alloc, BODY)?;
    bytes.resize(BODY, b'{')?;
    Ok(bytes)
}

/// A body of these bytes.
pub(crate) fn body_with(alloc: Global, bytes: Vec<u8>) -> Result<Body, Failed> {
    let shared = Arc::new(alloc, bytes).map_err(AllocError::from)?;
    Ok(Body::of(shared)?)
}

pub(crate) fn body_of(alloc: Global) -> Result<Body, Failed> {
    body_with(alloc, bytes_of_body(alloc)?)
}

/// Puts an endpoint.
pub(crate) fn put_of(alloc: Global, number: u32) -> Result<Command, Failed> {
    let secret = Secret::read(b"whsec_MDEyMzQ1Njc4OTAxMjM0NTY3ODkwMTIz")?;
    let secrets = Secrets::of(&[secret])?;
    let max = MaxLimit::of(100)?;
    let name = name_of(alloc, number)?;
    let target = Target::read(alloc, b"http://127.0.0.1:9000/hook")?;
    Ok(Command::PutEndpoint {
        name,
        target,
        max,
        secrets,
    })
}

/// Disables an endpoint.
pub(crate) fn disable_of(alloc: Global, number: u32) -> Result<Command, Failed> {
    let name = name_of(alloc, number)?;
    Ok(Command::SetEnabled { name, flag: false })
}
