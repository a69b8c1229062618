//! The values that calls are handed.
use crate::failed::Failed;
use relay_types::{Body, MaxLimit, Moment, MsgId, Name, Secret, Secrets, Target};
use std::alloc::{AllocError, Global};
use std::sync::Arc;

pub(crate) const URL: &[u8] = b"http://127.0.0.1:9000/hook";

pub(crate) const SECRET: &[u8] = b"whsec_MDEyMzQ1Njc4OTAxMjM0NTY3ODkwMTIz";

/// What is of a fixed size.
#[derive(Clone, Copy)]
pub(crate) struct FixedValues {
    pub(crate) name: Name,
    pub(crate) other: Name,
    pub(crate) id: MsgId,
    pub(crate) at: Moment,
    pub(crate) max: MaxLimit,
    pub(crate) secret: Secret,
    pub(crate) secrets: Secrets,
}

pub(crate) fn values() -> Result<FixedValues, Failed> {
    let secret = Secret::read(SECRET)?;
    Ok(FixedValues {
        name: Name::read(b"a")?,
        other: Name::read(b"b")?,
        id: MsgId::read(b"msg_1")?,
        at: Moment::of(1000)?,
        max: MaxLimit::of(100)?,
        secret,
        secrets: Secrets::of(&[secret])?,
    })
}

/// The body `{}`.
pub(crate) fn body_of(alloc: Global) -> Result<Body, Failed> {
    let bytes = Vec::from_slice(alloc, b"{}")?;
    let shared = Arc::new(alloc, bytes).map_err(AllocError::from)?;
    Ok(Body::of(shared)?)
}

pub(crate) fn target_of(alloc: Global) -> Result<Target, Failed> {
    Ok(Target::read(alloc, URL)?)
}
