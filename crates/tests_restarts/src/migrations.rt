//! A machine crashes while a store of version 1 is opened: at a call of the store's log, each call
//! in turn. The same records and pages are there when it comes back. A migration makes no call of
//! the database file.
ghost use Rattle.std.specs.Prelude.{◌≡◌, IsTrue};

use crate::calls::{Call, Path, check_replies, events_of};
use crate::files::{come_back, crashed, opened};
use crate::runs::{MARK, gone_on};
use permits::{PARTS, Pool};
use recovery::reopen;
use spool::OpenFault;
use sqlite::{Alter, Connection, FileStore, Files};
use sqlite_disk::{Crash, Disk, Fuse, Memory};
use std::alloc::Global;
use std::marker::Brand;
use std::process::Abort;
use std::sync::ledger::{Blank, Ledger};

/// What a relay executed that made tables of version 1, and the rows of an endpoint and an event.
const FIRST: &str = "BEGIN; \
     CREATE TABLE meta(k INTEGER PRIMARY KEY CHECK(k = 1), app TEXT NOT NULL, \
     version INTEGER NOT NULL, records INTEGER NOT NULL) STRICT; \
     CREATE TABLE endpoints(put INTEGER PRIMARY KEY, name TEXT NOT NULL UNIQUE, \
     url TEXT NOT NULL, max INTEGER NOT NULL, enabled INTEGER NOT NULL, \
     enabled_by INTEGER NOT NULL, secrets_by INTEGER NOT NULL) STRICT; \
     CREATE TABLE secrets(endpoint INTEGER NOT NULL REFERENCES endpoints(put), \
     place INTEGER NOT NULL, secret BLOB NOT NULL, PRIMARY KEY(endpoint, place)) STRICT; \
     CREATE TABLE deliveries(seq INTEGER PRIMARY KEY, \
     endpoint INTEGER NOT NULL REFERENCES endpoints(put), id TEXT NOT NULL, \
     at INTEGER NOT NULL, body BLOB NOT NULL, UNIQUE(endpoint, id)) STRICT; \
     CREATE TABLE attempts(seq INTEGER PRIMARY KEY, \
     delivery INTEGER NOT NULL REFERENCES deliveries(seq), number INTEGER NOT NULL, \
     status INTEGER NOT NULL, at INTEGER NOT NULL, UNIQUE(delivery, number)) STRICT; \
     INSERT INTO meta VALUES(1, 'webhook-relay', 1, 2); \
     INSERT INTO endpoints VALUES(0, 'a', 'http://127.0.0.1:9000/hook', 100, 1, 0, 0); \
     INSERT INTO secrets VALUES(0, 0, x'303132333435363738393031323334353637383930313233'); \
     INSERT INTO deliveries VALUES(1, 0, 'msg_1', 1000, x'7b7d'); \
     COMMIT";

/// What is shown of these records.
static PAGES: [Path; 1] = [&[
    Call::Records(2),
    Call::SettledRecords(2),
    Call::Totals(1, 1, 2),
    Call::Line("show a", "enabled pending 1 delivered 0 exhausted 0"),
    Call::Line("show a msg_1", "pending due 1000 attempts 0"),
    Call::Told(1, b"msg_1", "settled"),
    Call::HasBody(1, b"msg_1", true),
    Call::Line(
        "claim 1000",
        "permit 1 a msg_1 attempt 1 at 1000 inflight 1",
    ),
]];

/// The store, with the tables of version 1.
fn filled<S: Alter>(rt: &impl Abort, conn: Connection<S>) -> Connection<S> {
    let mut conn = conn;
    conn.execute_batch(FIRST).expect(rt, "tables of version 1");
    conn
}

/// The files of a store of version 1 after a crash, made in these.
fn first_files<D: Crash + Drop>(rt: &impl Abort, alloc: Global, files: Files<D>) -> Files<D>
    requires log { IsTrue (D.Disk.is_usable files.log) }
    requires db { IsTrue (D.Disk.is_usable files.db) }
    ensures log { IsTrue (D.Disk.is_usable result.log) }
    ensures db { IsTrue (D.Disk.is_usable result.db) }
{
    match opened(alloc, files) {
        Some(conn) => crashed(filled(rt, conn)),
        None => panic!(rt; "no store"),
    }
}

/// The same, of which the log takes so many calls.
fn fused_files(rt: &impl Abort, alloc: Global, calls: u64) -> Files<Fuse<Memory>>
    ensures log { IsTrue (⟦<Fuse<Memory> as Disk>⟧.is_usable result.log) }
    ensures db { IsTrue (⟦<Fuse<Memory> as Disk>⟧.is_usable result.db) }
{
    let files = Files {
        log: Memory::new(alloc),
        db: Memory::new(alloc),
    };
    let Files { log, db } = first_files(rt, alloc, files);
    Files {
        log: Fuse::new(log, calls),
        db: Fuse::new(db, u64::MAX),
    }
}

/// The version of a store's tables.
fn version<S: Alter>(rt: &impl Abort, conn: &mut Connection<S>) -> i64 {
    let row = conn
        .query_row("SELECT version FROM meta", &[])
        .expect(rt, "a row");
    row.get(0).expect(rt, "a number")
}

/// Only the store refuses an opening.
fn check_fault(rt: &impl Abort, fault: OpenFault) {
    assert!(rt; matches!(fault, OpenFault::Store(_)), "{fault}");
}

/// The connection after an opening, and whether it succeeded.
fn tried<L: Ledger, S: Alter + Drop>(
    rt: &impl Abort,
    alloc: Global,
    blank: Blank,
    conn: Connection<S>,
) -> (Connection<S>, bool)
    requires name { blank.name ≡ L.name }
    requires parts { blank.parts ≡ L.parts }
    requires enough { blank.parts ≡ PARTS }
{
    assert!(rt; conn.is_autocommit());
    let pool = Pool::<L>::new(alloc, blank).expect(rt, "memory");
    match reopen(alloc, pool, conn, MARK) {
        Ok((_desk, vault)) => (vault.release(), true),
        Err((conn, fault)) => {
            check_fault(rt, fault);
            (conn, false)
        }
    }
}

/// Checks what the store's opening shows. Its connection.
fn checked<L: Ledger, S: Alter + Drop>(
    rt: &impl Abort,
    alloc: Global,
    blank: Blank,
    conn: Connection<S>,
) -> Connection<S>
    requires name { blank.name ≡ L.name }
    requires parts { blank.parts ≡ L.parts }
    requires enough { blank.parts ≡ PARTS }
{
    let pool = Pool::<L>::new(alloc, blank).expect(rt, "memory");
    let events = events_of(rt, alloc, &PAGES);
    let (_pool, vault, replies) = gone_on(rt, alloc, pool, conn, &events);
    check_replies(rt, alloc, &replies, &PAGES);
    vault.release()
}

/// Checks what is in the store when the machine comes back. The version of its tables.
fn check_left<S: Alter + Drop>(rt: &impl Abort, alloc: Global, conn: Connection<S>) -> i64 {
    let mut conn = conn;
    let left = version(rt, &mut conn);
    assert!(rt; left == 1 || left == 2, "version {left}");
    let mut conn = checked::<Brand, S>(rt, alloc, Blank::new(PARTS), conn);
    assert!(rt; version(rt, &mut conn) == 2);
    left
}

/// How an opening ends.
#[derive(Clone, Copy)]
enum End {
    /// Before the tables are looked at.
    Unopened,
    /// While the tables were read, or within the migration.
    Stopped,
    Opened,
}

fn end_in<D: Crash + Drop>(rt: &impl Abort, alloc: Global, files: Files<D>) -> End
    requires log { IsTrue (D.Disk.is_usable files.log) }
    requires db { IsTrue (D.Disk.is_usable files.db) }
{
    let Some(conn) = opened(alloc, files) else {
        return End::Unopened;
    };
    let (conn, is_opened) = tried::<Brand, FileStore<D>>(rt, alloc, Blank::new(PARTS), conn);
    let left = check_left(rt, alloc, come_back(rt, alloc, conn));
    if is_opened {
        assert!(rt; left == 2, "version {left}");
        return End::Opened;
    }
    End::Stopped
}

/// How many calls of the log a migration has. At each the machine crashes once.
fn stop_each(rt: &impl Abort, alloc: Global) -> u64 {
    let mut count = 0u64;
    for calls in 0..10_000 {
        match end_in(rt, alloc, fused_files(rt, alloc, calls)) {
            End::Unopened => {}
            End::Stopped => count = count.saturating_add(1),
            End::Opened => return count,
        }
    }
    panic!(rt; "the store was never opened")
}

// The commit writes and syncs the log.
#[test]
fn a_crash_within_a_migration_leaves_the_same_history(rt: HostRuntime) {
    let count = stop_each(&rt, rt.alloc());
    assert!(rt; 2 <= count, "{count}");
}
