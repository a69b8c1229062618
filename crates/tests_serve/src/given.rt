//! A desk with an event for a subscriber, and the vault that its batch is committed to.

use desk::{Command, Desk};
use group_commit::WrongTurn;
use relay_types::{Body, MaxLimit, Moment, MsgId, Name, Secret, Secrets, Target};
use spool::{Batch, CommitEnd, Receipt, Vault};
use sqlite::Alter;
use std::alloc::{AllocGlobal, Global};
use std::net::{Net, TcpListener, TcpStream};
use std::process::Abort;
use std::random::RandomSource;
use std::sync::ledger::Ledger;
use std::sync::{Arc, Wait};
use std::test::Fail;
use std::thread::Threads;
use std::time::Clock;

pub(crate) const MARK: u64 = 7;

pub(crate) const SECRET: &str = "whsec_MDEyMzQ1Njc4OTAxMjM0NTY3ODkwMTIz";

/// What runs relays, subscribers and posters.
pub(crate) trait Host: Wait
    + Threads
    + Clock
    + Net<Listener = TcpListener, Stream = TcpStream>
    + RandomSource
    + AllocGlobal
    + Abort
    + Copy
    + Send
    + Sync
    + 'static {}

impl<R> Host for R
where
    R: Wait
        + Threads
        + Clock
        + Net<Listener = TcpListener, Stream = TcpStream>
        + RandomSource
        + AllocGlobal
        + Abort
        + Copy
        + Send
        + Sync
        + 'static,
{}

pub(crate) fn holds(rt: &impl Abort, is: bool, what: &str) {
    assert!(rt; is, "{what}");
}

pub(crate) fn moment() -> Result<Moment, Fail> {
    Ok(Moment::of(1000)?)
}

/// The name of the endpoint.
pub(crate) fn name() -> Result<Name, Fail> {
    Ok(Name::read(b"a")?)
}

/// The id of the event.
pub(crate) fn id() -> Result<MsgId, Fail> {
    Ok(MsgId::read(b"msg_1")?)
}

/// The body of the event.
pub(crate) fn body(alloc: Global) -> Result<Body, Fail> {
    let bytes = Vec::from_slice(alloc, b"{}")?;
    Ok(Body::of(Arc::new(alloc, bytes)?)?)
}

/// Puts the endpoint at this URL.
pub(crate) fn put(alloc: Global, url: &str) -> Result<Command, Fail> {
    Ok(Command::PutEndpoint {
        name: name()?,
        target: Target::read(alloc, url.as_bytes())?,
        max: MaxLimit::of(100)?,
        secrets: Secrets::of(&[Secret::read(SECRET.as_bytes())?])?,
    })
}

// Puts the endpoint at this URL, and takes an event for it.
fn stage<L: Ledger>(desk: &mut Desk<L>, alloc: Global, url: &str) -> Result<(), Fail> {
    match (
        desk.command(put(alloc, url)?),
        desk.submit(moment()?, name()?, id()?, body(alloc)?),
    ) {
        (Ok(_), Ok(_)) => Ok(()),
        _ => Err(Fail::from("the endpoint or its event was refused")),
    }
}

// The receipt of the batch, if the store takes it.
fn written<S: Alter>(vault: &mut Vault<S>, batch: Batch) -> Option<Receipt> {
    match vault.commit(batch) {
        Ok(receipt) => Some(receipt),
        Err(CommitEnd::Unchanged(batch, _)) => {
            drop(batch.into_steps());
            None
        }
        Err(CommitEnd::Doubtful(doubt, _)) => {
            doubt.end();
            None
        }
    }
}

/// The endpoint at this URL and an event for it, settled.
pub(crate) fn begin<L: Ledger, S: Alter>(
    rt: &impl Abort,
    alloc: Global,
    desk: &mut Desk<L>,
    vault: &mut Vault<S>,
    url: &str,
) -> Result<(), Fail> {
    stage(desk, alloc, url)?;
    let Ok(Some(batch)) = desk.seal() else {
        return Err(Fail::from("nothing was sealed"));
    };
    let Some(receipt) = written(vault, batch) else {
        return Err(Fail::from("nothing was written"));
    };
    match desk.settle(receipt) {
        Ok(_) => Ok(()),
        Err((_receipt, WrongTurn)) => panic!(rt; "the receipt was refused"),
    }
}
