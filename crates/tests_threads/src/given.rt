//! Names and events, and what is done with a desk and a vault before threads share the desk.

use desk::{Command, Desk};
use group_commit::{Held, WrongTurn};
use permits::{Foreign, Permit};
use relay_types::{Body, MaxLimit, Moment, MsgId, Name, Secret, Secrets, Target};
use retry_table::{PostResult, Status};
use spool::{Batch, CommitEnd, Receipt, Vault};
use sqlite::Alter;
use std::alloc::Global;
use std::process::Abort;
use std::sync::Arc;
use std::sync::ledger::Ledger;

pub(crate) const MARK: u64 = 7;

/// What is done before threads share the desk.
pub(crate) enum Before {
    /// The endpoint of this name is put.
    Put(&'static [u8]),
    /// An event of endpoint `a` is taken, with this id.
    Submit(&'static [u8]),
    /// Endpoint `a` is disabled.
    Disable,
    /// Endpoint `a` is enabled.
    Enable,
    /// The endpoint of this name is subscribed to topic `t`.
    Subscribe(&'static [u8]),
    /// An event is published to topic `t`, with this id.
    Publish(&'static [u8]),
    /// The next event is posted, and answered 200 at 1000.
    Deliver,
    /// A Purge before 1001 is taken.
    Purge,
    /// So many events of endpoint `a` are taken, from `msg_1` on.
    Stage(u32),
    /// So many events of endpoint `a` are taken and settled, from `msg_1` on.
    Fill(u32),
    /// What waits is settled.
    Turn,
    /// The desk is halted.
    Halt,
}

pub(crate) fn holds(rt: &impl Abort, is: bool, what: &str) {
    assert!(rt; is, "{what}");
}

pub(crate) fn name(rt: &impl Abort, text: &[u8]) -> Name {
    Name::read(text).expect(rt, "a name")
}

pub(crate) fn id(rt: &impl Abort, text: &[u8]) -> MsgId {
    MsgId::read(text).expect(rt, "an id")
}

pub(crate) fn moment(rt: &impl Abort, seconds: u64) -> Moment {
    Moment::of(seconds).expect(rt, "a moment")
}

/// The moment of the events.
pub(crate) fn now(rt: &impl Abort) -> Moment {
    moment(rt, 1000)
}

pub(crate) fn body(rt: &impl Abort, alloc: Global) -> Body {
    let bytes = Vec::from_slice(alloc, b"{}").expect(rt, "memory");
    let bytes = Arc::new(alloc, bytes).expect(rt, "memory");
    Body::of(bytes).expect(rt, "a body")
}

fn put(rt: &impl Abort, alloc: Global, text: &[u8]) -> Command {
    let secret = Secret::read(b"whsec_MDEyMzQ1Njc4OTAxMjM0NTY3ODkwMTIz").expect(rt, "a secret");
    Command::PutEndpoint {
        name: name(rt, text),
        target: Target::read(alloc, b"http://127.0.0.1:9000/hook").expect(rt, "a target"),
        max: MaxLimit::of(100).expect(rt, "a limit"),
        secrets: Secrets::of(&[secret]).expect(rt, "secrets"),
    }
}

fn set_enabled(rt: &impl Abort, flag: bool) -> Command {
    Command::SetEnabled {
        name: name(rt, b"a"),
        flag,
    }
}

/// The command that disables endpoint `a`.
pub(crate) fn disable(rt: &impl Abort) -> Command {
    set_enabled(rt, false)
}

fn subscribe(rt: &impl Abort, text: &[u8]) -> Command {
    Command::SetSubscribed {
        topic: name(rt, b"t"),
        name: name(rt, text),
        flag: true,
    }
}

/// The command that removes what is done with before 1001.
pub(crate) fn purge(rt: &impl Abort) -> Command {
    Command::Purge {
        before: moment(rt, 1001),
    }
}

fn ok(rt: &impl Abort) -> PostResult {
    match Status::of(200) {
        Some(status) => PostResult::Answered {
            status,
            rtt: 100_000,
        },
        None => panic!(rt; "200 is no status"),
    }
}

fn spend<L: Ledger>(rt: &impl Abort, desk: &mut Desk<L>, permit: Permit<L>) {
    match desk.spend(permit, ok(rt), now(rt)) {
        Ok(_) => {}
        Err((permit, Foreign)) => panic!(rt; "{} is foreign", permit.delivery()),
    }
}

fn deliver<L: Ledger>(rt: &impl Abort, desk: &mut Desk<L>) {
    match desk.claim(now(rt)) {
        Ok(Some(job)) => spend(rt, desk, job.into_permit()),
        Ok(None) => panic!(rt; "no event is due"),
        Err(_) => panic!(rt; "a claim was refused"),
    }
}

fn publish<L: Ledger>(rt: &impl Abort, alloc: Global, desk: &mut Desk<L>, text: &[u8]) {
    let staged = desk.publish(now(rt), name(rt, b"t"), id(rt, text), body(rt, alloc));
    holds(rt, staged.is_ok(), "the event is taken");
}

fn command<L: Ledger>(rt: &impl Abort, desk: &mut Desk<L>, command: Command) {
    holds(rt, desk.command(command).is_ok(), "the command is taken");
}

fn submit<L: Ledger>(rt: &impl Abort, alloc: Global, desk: &mut Desk<L>, text: &[u8]) {
    let staged = desk.submit(now(rt), name(rt, b"a"), id(rt, text), body(rt, alloc));
    holds(rt, staged.is_ok(), "the event is taken");
}

// The receipt of the batch, if the store takes it.
fn written<S: Alter>(vault: &mut Vault<S>, batch: Batch) -> Option<Receipt> {
    match vault.commit(batch) {
        Ok(receipt) => Some(receipt),
        Err(CommitEnd::Unchanged(batch, _)) => {
            drop(batch.into_steps());
            None
        }
        Err(CommitEnd::Doubtful(doubt, _)) => {
            doubt.end();
            None
        }
    }
}

// Seals what waits, commits it and settles it, if the store takes it.
fn turn<L: Ledger, S: Alter>(rt: &impl Abort, desk: &mut Desk<L>, vault: &mut Vault<S>) -> bool {
    let Ok(Some(batch)) = desk.seal() else {
        panic!(rt; "nothing was sealed");
    };
    let Some(receipt) = written(vault, batch) else {
        return false;
    };
    match desk.settle(receipt) {
        Ok(_) => true,
        Err((_receipt, WrongTurn)) => panic!(rt; "the receipt was refused"),
    }
}

fn halt<L: Ledger>(rt: &impl Abort, desk: &mut Desk<L>) {
    match desk.halt(Held::Nothing) {
        Ok(()) => {}
        Err((_held, WrongTurn)) => panic!(rt; "the halt was refused"),
    }
}

fn submit_numbered<L: Ledger>(rt: &impl Abort, alloc: Global, desk: &mut Desk<L>, number: u32) {
    let text = format!(in alloc; "msg_{number}").expect(rt, "memory");
    submit(rt, alloc, desk, text.as_bytes());
}

fn stage<L: Ledger>(rt: &impl Abort, alloc: Global, desk: &mut Desk<L>, count: u32) {
    for number in 1..=count {
        submit_numbered(rt, alloc, desk, number);
    }
}

fn fill<L: Ledger, S: Alter>(
    rt: &impl Abort,
    alloc: Global,
    desk: &mut Desk<L>,
    vault: &mut Vault<S>,
    count: u32,
) {
    for number in 1..=count {
        submit_numbered(rt, alloc, desk, number);
        if number % 256 == 0 || number == count {
            holds(rt, turn(rt, desk, vault), "the events are settled");
        }
    }
}

// Whether the store took what is to be settled.
fn is_done<L: Ledger, S: Alter>(
    rt: &impl Abort,
    alloc: Global,
    desk: &mut Desk<L>,
    vault: &mut Vault<S>,
    step: &Before,
) -> bool {
    match step {
        Before::Put(text) => command(rt, desk, put(rt, alloc, text)),
        Before::Submit(text) => submit(rt, alloc, desk, text),
        Before::Disable => command(rt, desk, disable(rt)),
        Before::Enable => command(rt, desk, set_enabled(rt, true)),
        Before::Subscribe(text) => command(rt, desk, subscribe(rt, text)),
        Before::Deliver => deliver(rt, desk),
        Before::Purge => command(rt, desk, purge(rt)),
        Before::Publish(text) => publish(rt, alloc, desk, text),
        Before::Stage(count) => stage(rt, alloc, desk, *count),
        Before::Fill(count) => fill(rt, alloc, desk, vault, *count),
        Before::Turn => return turn(rt, desk, vault),
        Before::Halt => halt(rt, desk),
    }
    true
}

/// Takes the steps one after another, up to one that the store doesn't take. Whether it took all.
pub(crate) fn are_done<L: Ledger, S: Alter>(
    rt: &impl Abort,
    alloc: Global,
    desk: &mut Desk<L>,
    vault: &mut Vault<S>,
    steps: &[Before],
) -> bool {
    for step in steps {
        if !is_done(rt, alloc, desk, vault, step) {
            return false;
        }
    }
    true
}
