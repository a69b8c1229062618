//! Values of steps, as the desk takes them.

use crate::steps::{Endpoint, Went};
use desk::Command;
use relay_types::{Body, MaxLimit, Name, Secret, Secrets, Target};
use retry_table::{PostResult, Status};
use spool::Vault;
use sqlite::{Alter, Connection};
use std::alloc::Global;
use std::sync::Arc;
use std::test::Fail;

pub(crate) const MARK: u64 = 7;

/// A vault over a store without tables.
pub(crate) fn created<S: Alter + Drop>(conn: Connection<S>) -> Result<Vault<S>, Fail> {
    if !conn.is_autocommit() {
        return Err(Fail::from("a transaction is open"));
    }
    match Vault::create(conn, MARK) {
        Ok(vault) => Ok(vault),
        Err((_, _)) => Err(Fail::from("create was refused")),
    }
}

pub(crate) fn secrets(alloc: Global, texts: &[&[u8]]) -> Result<Secrets, Fail> {
    let mut list = Vec::new(alloc);
    for text in texts {
        list.push(Secret::read(text)?)?;
    }
    Ok(Secrets::of(list.as_slice())?)
}

pub(crate) fn body(alloc: Global, text: &[u8]) -> Result<Body, Fail> {
    let bytes = Vec::from_slice(alloc, text)?;
    Ok(Body::of(Arc::new(alloc, bytes)?)?)
}

pub(crate) fn put_command(
    alloc: Global,
    name: &[u8],
    endpoint: &Endpoint,
) -> Result<Command, Fail> {
    let name = Name::read(name)?;
    let max = MaxLimit::of(endpoint.max)?;
    let secrets = secrets(alloc, endpoint.secrets)?;
    Ok(Command::PutEndpoint {
        name,
        target: Target::read(alloc, endpoint.target)?,
        max,
        secrets,
    })
}

pub(crate) fn post_of(went: Went) -> Result<PostResult, Fail> {
    match went {
        Went::Answered(number) => answered(number),
        Went::Unreached => Ok(PostResult::Unreached),
        Went::Unsent => Ok(PostResult::Unsent),
    }
}

fn answered(number: u16) -> Result<PostResult, Fail> {
    let Some(status) = Status::of(number) else {
        return Err(Fail::from("it is no status"));
    };
    Ok(PostResult::Answered {
        status,
        rtt: 100_000,
    })
}
