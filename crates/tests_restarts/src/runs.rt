//! Runs over a new store, and over what they leave once it is opened again.
ghost use Rattle.std.specs.Prelude.{◌≡◌, [], IfSome};
ghost use Rattle.desk.specs.Desks.{HasNothingOut};

use crate::calls::{Path, check_replies, events_of};
use desk::Desk;
use drill::{Event, Reply, World, run};
use permits::{PARTS, Pool};
use recovery::{create, reopen};
use relay_types::{Name, Record, Step};
use spool::{Batch, Vault};
use sqlite::{Alter, Connection, MemStore};
use std::alloc::Global;
use std::marker::Brand;
use std::process::Abort;
use std::sync::ledger::{Blank, Ledger};

pub(crate) const MARK: u64 = 7;

/// A batch that goes on after three records of a run: endpoint `a` is disabled.
pub(crate) fn later_batch(rt: &impl Abort, alloc: Global) -> Batch {
    let name = Name::read(b"a").expect(rt, "a name");
    let mut steps = Vec::new(alloc);
    steps
        .push(Step::of(Record::Enabled { name, flag: false }))
        .expect(rt, "memory");
    Batch::of(MARK, 3, steps)
}

pub(crate) fn in_memory(rt: &impl Abort, alloc: Global) -> Connection<MemStore> {
    match Connection::open_in_memory(alloc) {
        Ok(conn) => conn,
        Err(_) => panic!(rt; "no store"),
    }
}

/// The store of the connection, opened over again.
fn again(rt: &impl Abort, alloc: Global, conn: Connection<MemStore>) -> Connection<MemStore> {
    match Connection::over(alloc, conn.into_store()) {
        Ok(conn) => conn,
        Err((_, _)) => panic!(rt; "the store was not opened over again"),
    }
}

/// What a run leaves once its desk is closed with all that is out.
pub(crate) type Left<L, S> = (Pool<L>, Vault<S>, Vec<Reply>);

/// Makes the calls, and closes the desk: its pool is empty.
fn closed<L: Ledger, S: Alter>(
    rt: &impl Abort,
    alloc: Global,
    desk: Desk<L>,
    vault: Vault<S>,
    events: &[Event],
) -> Left<L, S>
    requires out { HasNothingOut desk }
    requires mark { desk.waiting.mark ≡ vault.mark }
    ensures empty { result.0 ≡ [] }
{
    match run(alloc, desk, vault, events) {
        Ok(world) => {
            let World {
                desk,
                vault,
                permits,
                receipt,
                held,
                replies,
            } = world;
            (desk.close(permits, receipt, held), vault, replies)
        }
        Err((_, _, _)) => panic!(rt; "no memory"),
    }
}

/// Makes the calls on a new desk over a store without tables. Nothing is left where the store refuses them.
pub(crate) fn begun<L: Ledger, S: Alter + Drop>(
    rt: &impl Abort,
    alloc: Global,
    blank: Blank,
    conn: Connection<S>,
    events: &[Event],
) -> Option<Left<L, S>>
    requires name { blank.name ≡ L.name }
    requires parts { blank.parts ≡ L.parts }
    requires enough { blank.parts ≡ PARTS }
    ensures empty { IfSome result (λ left. left.0 ≡ []) }
{
    assert!(rt; conn.is_autocommit());
    match create::<L, S>(alloc, blank, conn, MARK) {
        Ok((desk, vault)) => Some(closed(rt, alloc, desk, vault, events)),
        Err((_, _)) => None,
    }
}

/// Makes the calls on what a run left, opened again.
pub(crate) fn gone_on<L: Ledger, S: Alter + Drop>(
    rt: &impl Abort,
    alloc: Global,
    pool: Pool<L>,
    conn: Connection<S>,
    events: &[Event],
) -> Left<L, S>
    requires { pool ≡ [] }
{
    assert!(rt; conn.is_autocommit());
    match reopen(alloc, pool, conn, MARK + 1) {
        Ok((desk, vault)) => closed(rt, alloc, desk, vault, events),
        Err((_, _)) => panic!(rt; "the opening was refused"),
    }
}

/// The replies to the calls of a new store, and to those of what they leave once it is opened again.
fn told<L: Ledger>(
    rt: &impl Abort,
    alloc: Global,
    blank: Blank,
    first: &[Event],
    then: &[Event],
) -> (Vec<Reply>, Vec<Reply>)
    requires name { blank.name ≡ L.name }
    requires parts { blank.parts ≡ L.parts }
    requires enough { blank.parts ≡ PARTS }
{
    let conn = in_memory(rt, alloc);
    match begun::<L, MemStore>(rt, alloc, blank, conn, first) {
        Some((pool, vault, before)) => {
            let conn = again(rt, alloc, vault.release());
            (before, gone_on(rt, alloc, pool, conn, then).2)
        }
        None => panic!(rt; "create was refused"),
    }
}

/// Makes the first calls on a new store, and the others on what they leave, opened again.
pub(crate) fn check(rt: &impl Abort, alloc: Global, first: &[Path], then: &[Path]) {
    let (events, later) = (events_of(rt, alloc, first), events_of(rt, alloc, then));
    let (before, after) = told::<Brand>(rt, alloc, Blank::new(PARTS), &events, &later);
    check_replies(rt, alloc, &before, first);
    check_replies(rt, alloc, &after, then);
}
