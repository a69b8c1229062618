//! What an audit finds of a desk and a store.
ghost use Rattle.std.specs.Prelude.{◌≡◌};
ghost use Rattle.desk.specs.Desks.{HasNothingOut};

use crate::calls::{Call, Path, check_replies, events_of};
use crate::files::{fused, opened};
use crate::paths::PUT;
use crate::runs::{MARK, begun, in_memory, later_batch};
use desk::Desk;
use drill::{Event, Reply, World, run};
use permits::PARTS;
use recovery::{AuditFault, audit, create};
use spool::{CommitEnd, Vault};
use sqlite::{Alter, Connection, FileStore, MemStore};
use sqlite_disk::{Fuse, Memory};
use std::alloc::Global;
use std::marker::Brand;
use std::process::Abort;
use std::sync::ledger::{Blank, Ledger};

/// An endpoint and two events, settled.
const SETTLED: [Call; 6] = [
    Call::Line(PUT, "staged 0"),
    Call::Line("submit 1000 a msg_1 7b7d", "staged 1"),
    Call::Line("submit 1000 a msg_2 -", "staged 2"),
    Call::Line("seal", "sealed 0..3"),
    Call::Line("commit", "committed 3"),
    Call::Line("settle", "settled 3"),
];

/// One event is delivered and the other failed, settled.
const ATTEMPTED: [Call; 7] = [
    Call::Line(
        "claim 1000",
        "permit 1 a msg_1 attempt 1 at 1000 inflight 1",
    ),
    Call::Line(
        "spend 1 1001 200 100000",
        "success limit 20 inflight 0 staged 3",
    ),
    Call::Line(
        "claim 1001",
        "permit 2 a msg_2 attempt 1 at 1001 inflight 1",
    ),
    Call::Line(
        "spend 2 1002 500 100000",
        "success limit 20 inflight 0 staged 4",
    ),
    Call::Line("seal", "sealed 3..5"),
    Call::Line("commit", "committed 5"),
    Call::Line("settle", "settled 5"),
];

/// What waits isn't told by the rows, nor by the desk.
const WAITING: [Call; 3] = [
    Call::Line("disable a", "staged 3"),
    Call::Line("submit 1000 a msg_3 -", "staged 4"),
    Call::Line("seal", "sealed 3..5"),
];

/// The delivered event is taken, settled.
const PURGED: [Call; 5] = [
    Call::Line("purge 1002", "staged 5"),
    Call::Line("seal", "sealed 5..6"),
    Call::Line("commit", "committed 6"),
    Call::Line("settle", "settled 6"),
    Call::Line("show a msg_1", "absent"),
];

/// The same, and the id again, which wait.
const PURGE_WAITING: [Call; 4] = [
    Call::Line("purge 1002", "staged 5"),
    Call::Line("submit 1002 a msg_1 -", "staged 6"),
    Call::Line("seal", "sealed 5..7"),
    Call::Line("show a msg_1", "delivered attempts 1"),
];

const PURGE_COMMITTED: [Call; 1] = [Call::Line("commit", "committed 7")];

const COMMITTED: [Call; 1] = [Call::Line("commit", "committed 5")];

/// The same totals as of `SETTLED`: of another endpoint, with another id, with another moment, and with another target.
const OF_ANOTHER_ENDPOINT: [Call; 6] = [
    Call::Line(
        "put b http://127.0.0.1:9000/hook 100 whsec_MDEyMzQ1Njc4OTAxMjM0NTY3ODkwMTIz",
        "staged 0",
    ),
    Call::Line("submit 1000 b msg_1 7b7d", "staged 1"),
    Call::Line("submit 1000 b msg_2 -", "staged 2"),
    Call::Line("seal", "sealed 0..3"),
    Call::Line("commit", "committed 3"),
    Call::Line("settle", "settled 3"),
];

const WITH_ANOTHER_ID: [Call; 6] = [
    Call::Line(PUT, "staged 0"),
    Call::Line("submit 1000 a msg_1 7b7d", "staged 1"),
    Call::Line("submit 1000 a msg_3 -", "staged 2"),
    Call::Line("seal", "sealed 0..3"),
    Call::Line("commit", "committed 3"),
    Call::Line("settle", "settled 3"),
];

const WITH_ANOTHER_MOMENT: [Call; 6] = [
    Call::Line(PUT, "staged 0"),
    Call::Line("submit 1000 a msg_1 7b7d", "staged 1"),
    Call::Line("submit 1001 a msg_2 -", "staged 2"),
    Call::Line("seal", "sealed 0..3"),
    Call::Line("commit", "committed 3"),
    Call::Line("settle", "settled 3"),
];

const WITH_ANOTHER_TARGET: [Call; 6] = [
    Call::Line(
        "put a http://127.0.0.1:9000/hooks 100 whsec_MDEyMzQ1Njc4OTAxMjM0NTY3ODkwMTIz",
        "staged 0",
    ),
    Call::Line("submit 1000 a msg_1 7b7d", "staged 1"),
    Call::Line("submit 1000 a msg_2 -", "staged 2"),
    Call::Line("seal", "sealed 0..3"),
    Call::Line("commit", "committed 3"),
    Call::Line("settle", "settled 3"),
];

/// The store that a desk is held against.
#[derive(Clone, Copy)]
enum Store {
    Own,
    /// Its own, in which one more record is committed without the desk.
    OneMore,
    /// That of another run.
    Of(Path),
}

/// A run, the store against which its desk is held, and what the audit finds.
#[derive(Clone, Copy)]
struct Case(&'static [Path], Store, Option<AuditFault>);

const MISMATCH: Option<AuditFault> = Some(AuditFault::Mismatch);

static CASES: [Case; 15] = [
    Case(&[], Store::Own, None),
    Case(&[&SETTLED], Store::Own, None),
    Case(&[&SETTLED, &ATTEMPTED], Store::Own, None),
    Case(&[&SETTLED, &ATTEMPTED, &PURGED], Store::Own, None),
    Case(&[&SETTLED, &ATTEMPTED, &PURGE_WAITING], Store::Own, None),
    Case(
        &[&SETTLED, &ATTEMPTED, &PURGE_WAITING, &PURGE_COMMITTED],
        Store::Own,
        MISMATCH,
    ),
    Case(&[&SETTLED, &WAITING], Store::Own, None),
    Case(&[&SETTLED, &WAITING, &COMMITTED], Store::Own, MISMATCH),
    Case(&[&SETTLED], Store::OneMore, MISMATCH),
    Case(&[&SETTLED], Store::Of(&SETTLED), None),
    Case(&[&SETTLED], Store::Of(&OF_ANOTHER_ENDPOINT), MISMATCH),
    Case(&[&SETTLED], Store::Of(&WITH_ANOTHER_ID), MISMATCH),
    Case(&[&SETTLED], Store::Of(&WITH_ANOTHER_MOMENT), MISMATCH),
    Case(&[&SETTLED], Store::Of(&WITH_ANOTHER_TARGET), MISMATCH),
    Case(&[], Store::Of(&SETTLED), MISMATCH),
];

/// Commits a record that disables endpoint `a`.
fn commit_one_more<S: Alter>(rt: &impl Abort, alloc: Global, vault: &mut Vault<S>) {
    match vault.commit(later_batch(rt, alloc)) {
        Ok(receipt) => drop(receipt.into_steps()),
        Err(CommitEnd::Unchanged(_batch, _)) => panic!(rt; "nothing was committed"),
        Err(CommitEnd::Doubtful(_doubt, _)) => panic!(rt; "the commit is in doubt"),
    }
}

/// The store that the calls leave.
fn left<L: Ledger, S: Alter + Drop>(
    rt: &impl Abort,
    alloc: Global,
    blank: Blank,
    conn: Connection<S>,
    events: &[Event],
) -> Vault<S>
    requires name { blank.name ≡ L.name }
    requires parts { blank.parts ≡ L.parts }
    requires enough { blank.parts ≡ PARTS }
{
    match begun::<L, S>(rt, alloc, blank, conn, events) {
        Some((_pool, vault, _)) => vault,
        None => panic!(rt; "create was refused"),
    }
}

fn left_by<S: Alter + Drop>(
    rt: &impl Abort,
    alloc: Global,
    conn: Connection<S>,
    path: Path,
) -> Vault<S> {
    let events = events_of(rt, alloc, &[path]);
    left::<Brand, S>(rt, alloc, Blank::new(PARTS), conn, &events)
}

/// What the audit finds of the desk and the store that another run leaves.
fn found_of_other<L: Ledger, S: Alter + Drop>(
    rt: &impl Abort,
    alloc: Global,
    desk: &Desk<L>,
    conn: Connection<S>,
    path: Path,
) -> Option<AuditFault> {
    let mut other = left_by(rt, alloc, conn, path);
    audit(alloc, &mut other, desk).err()
}

/// What the audit finds of the desk, whose own store this is.
fn found<L: Ledger, S: Alter>(
    rt: &impl Abort,
    alloc: Global,
    desk: &Desk<L>,
    own: &mut Vault<S>,
    store: Store,
) -> Option<AuditFault> {
    match store {
        Store::Own => audit(alloc, own, desk).err(),
        Store::OneMore => {
            commit_one_more(rt, alloc, own);
            audit(alloc, own, desk).err()
        }
        Store::Of(path) => found_of_other(rt, alloc, desk, in_memory(rt, alloc), path),
    }
}

/// What an audit finds after a run, whether the vault is closed then, and what the run was told.
#[derive(Drop)]
struct Outcome {
    fault: Option<AuditFault>,
    is_closed: bool,
    replies: Vec<Reply>,
}

fn found_after<L: Ledger, S: Alter + Drop>(
    rt: &impl Abort,
    alloc: Global,
    desk: Desk<L>,
    vault: Vault<S>,
    events: &[Event],
    store: Store,
) -> Outcome
    requires out { HasNothingOut desk }
    requires mark { desk.waiting.mark ≡ vault.mark }
{
    match run(alloc, desk, vault, events) {
        Ok(world) => {
            let World {
                desk,
                mut vault,
                permits,
                receipt,
                held,
                replies,
            } = world;
            let is_closed = vault.is_closed();
            let fault = found(rt, alloc, &desk, &mut vault, store);
            drop(desk.close(permits, receipt, held));
            Outcome {
                fault,
                is_closed,
                replies,
            }
        }
        Err((_, _, _)) => panic!(rt; "no memory"),
    }
}

/// The same on a new desk over a store without tables, unless the store refuses them.
fn found_on<L: Ledger, S: Alter + Drop>(
    rt: &impl Abort,
    alloc: Global,
    blank: Blank,
    conn: Connection<S>,
    events: &[Event],
    store: Store,
) -> Option<Outcome>
    requires name { blank.name ≡ L.name }
    requires parts { blank.parts ≡ L.parts }
    requires enough { blank.parts ≡ PARTS }
{
    assert!(rt; conn.is_autocommit());
    match create::<L, S>(alloc, blank, conn, MARK) {
        Ok((desk, vault)) => Some(found_after(rt, alloc, desk, vault, events, store)),
        Err((_, _)) => None,
    }
}

fn found_in_memory(
    rt: &impl Abort,
    alloc: Global,
    events: &[Event],
    store: Store,
) -> Option<Outcome> {
    let conn = in_memory(rt, alloc);
    found_on::<Brand, MemStore>(rt, alloc, Blank::new(PARTS), conn, events, store)
}

fn check_case(rt: &impl Abort, alloc: Global, place: usize, case: Case) {
    let Case(paths, store, wanted) = case;
    match found_in_memory(rt, alloc, &events_of(rt, alloc, paths), store) {
        Some(found) => {
            check_replies(rt, alloc, &found.replies, paths);
            assert!(rt; found.fault == wanted, "case {place}");
        }
        None => panic!(rt; "create was refused"),
    }
}

#[test]
fn finds_what_differs(rt: HostRuntime) {
    for (place, case) in CASES.iter().enumerate() {
        check_case(&rt, rt.alloc(), place, *case);
    }
}

/// Whether the run closes its vault. Then the audit is refused as the store's.
fn closes<L: Ledger, S: Alter + Drop>(
    rt: &impl Abort,
    alloc: Global,
    blank: Blank,
    conn: Connection<S>,
    events: &[Event],
) -> bool
    requires name { blank.name ≡ L.name }
    requires parts { blank.parts ≡ L.parts }
    requires enough { blank.parts ≡ PARTS }
{
    match found_on::<L, S>(rt, alloc, blank, conn, events, Store::Own) {
        Some(found) => {
            assert!(rt; !found.is_closed || found.fault == Some(AuditFault::Store));
            found.is_closed
        }
        None => false,
    }
}

fn closes_after(rt: &impl Abort, alloc: Global, events: &[Event], calls: u64) -> bool {
    match opened(alloc, fused(alloc, calls, u64::MAX)) {
        Some(conn) => {
            closes::<Brand, FileStore<Fuse<Memory>>>(rt, alloc, Blank::new(PARTS), conn, events)
        }
        None => false,
    }
}

static SETTLED_ALONE: [Path; 1] = [&SETTLED];

#[test]
fn a_closed_vault_is_a_fault_of_the_store(rt: HostRuntime) {
    let events = events_of(&rt, rt.alloc(), &SETTLED_ALONE);
    let mut has_closed = false;
    for calls in 0..100 {
        has_closed |= closes_after(&rt, rt.alloc(), &events, calls);
    }
    assert!(rt; has_closed);
}
