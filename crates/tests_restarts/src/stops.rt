//! A machine that stops at a call of one of the store's two files, each call in turn: what is there when it comes back.
ghost use Rattle.std.specs.Prelude.{◌≡◌, [], IfSome, IsTrue};

use crate::calls::{Call, Path, events_of, is_line_at};
use crate::files::{come_back, fused, opened};
use crate::paths::{PUT, PUT_OTHER};
use crate::runs::{begun, gone_on};
use drill::{Event, Reply};
use permits::{PARTS, Pool};
use sqlite::{Alter, Connection, FileStore, Files};
use sqlite_disk::{Crash, Disk, Fuse, Memory};
use std::alloc::Global;
use std::marker::Brand;
use std::process::Abort;
use std::sync::ledger::{Blank, Ledger};

/// Two endpoints, subscribed to a topic; an event of one of them and one for both; an attempt; one that delivers; and a
/// Purge with an event under the id that it takes, each settled before the next. The replies are those of a run that
/// nothing stops.
const RUN: [Call; 28] = [
    Call::Line(PUT, "staged 0"),
    Call::Line(PUT_OTHER, "staged 1"),
    Call::Line("subscribe t b", "staged 2"),
    Call::Line("subscribe t a", "staged 3"),
    Call::Line("seal", "sealed 0..4"),
    Call::Line("commit", "committed 4"),
    Call::Line("settle", "settled 4"),
    Call::Line("submit 1000 a msg_1 7b7d", "staged 4"),
    Call::Line("publish 1000 t msg_2 7b7d", "staged 5,6"),
    Call::Line("seal", "sealed 4..7"),
    Call::Line("commit", "committed 7"),
    Call::Line("settle", "settled 7"),
    Call::Line(
        "claim 1000",
        "permit 4 a msg_1 attempt 1 at 1000 inflight 1",
    ),
    Call::Line(
        "spend 4 1000 500 100000",
        "success limit 20 inflight 0 staged 7",
    ),
    Call::Line("seal", "sealed 7..8"),
    Call::Line("commit", "committed 8"),
    Call::Line("settle", "settled 8"),
    Call::Line(
        "claim 1000",
        "permit 5 a msg_2 attempt 1 at 1000 inflight 1",
    ),
    Call::Line(
        "spend 5 1000 200 100000",
        "success limit 20 inflight 0 staged 8",
    ),
    Call::Line("seal", "sealed 8..9"),
    Call::Line("commit", "committed 9"),
    Call::Line("settle", "settled 9"),
    Call::Line("purge 1001", "staged 9"),
    Call::Line("submit 1002 a msg_2 7b7c", "staged 10"),
    Call::Line("seal", "sealed 9..11"),
    Call::Line("commit", "committed 11"),
    Call::Line("settle", "settled 11"),
    Call::SettledRecords(11),
];

static PATHS: [Path; 1] = [&RUN];

/// A batch of the run: at which places it is sealed and settled, what is printed there, and how
/// many records there are after it.
struct Step {
    sealed: (usize, &'static str),
    settled: (usize, &'static str),
    records: u64,
}

static STEPS: [Step; 5] = [
    Step {
        sealed: (4, "sealed 0..4"),
        settled: (6, "settled 4"),
        records: 4,
    },
    Step {
        sealed: (9, "sealed 4..7"),
        settled: (11, "settled 7"),
        records: 7,
    },
    Step {
        sealed: (14, "sealed 7..8"),
        settled: (16, "settled 8"),
        records: 8,
    },
    Step {
        sealed: (19, "sealed 8..9"),
        settled: (21, "settled 9"),
        records: 9,
    },
    Step {
        sealed: (24, "sealed 9..11"),
        settled: (26, "settled 11"),
        records: 11,
    },
];

/// What is looked at once the machine came back, in front of what is left then.
static LOOK: [Path; 1] = [&[
    Call::Records(0),
    Call::Line("show a msg_2", ""),
    Call::Line("show a", ""),
]];

/// So many records, and what is shown then of the event that is delivered and taken, and of its endpoint.
struct Shown(u64, &'static str, &'static str);

static SHOWN: [Shown; 6] = [
    Shown(0, "absent", "absent"),
    Shown(4, "absent", "enabled pending 0 delivered 0 exhausted 0"),
    Shown(
        7,
        "pending due 1000 attempts 0",
        "enabled pending 2 delivered 0 exhausted 0",
    ),
    Shown(
        8,
        "pending due 1000 attempts 0",
        "enabled pending 2 delivered 0 exhausted 0",
    ),
    Shown(
        9,
        "delivered attempts 1",
        "enabled pending 1 delivered 1 exhausted 0",
    ),
    Shown(
        11,
        "pending due 1002 attempts 0",
        "enabled pending 2 delivered 0 exhausted 0",
    ),
];

/// Which of the two files stops.
#[derive(Clone, Copy)]
enum Stopping {
    Log,
    Database,
}

/// New files, of which this one takes so many calls.
fn stopping_files(alloc: Global, stopping: Stopping, calls: u64) -> Files<Fuse<Memory>>
    ensures log { IsTrue (⟦<Fuse<Memory> as Disk>⟧.is_usable result.log) }
    ensures db { IsTrue (⟦<Fuse<Memory> as Disk>⟧.is_usable result.db) }
{
    match stopping {
        Stopping::Log => fused(alloc, calls, u64::MAX),
        Stopping::Database => fused(alloc, u64::MAX, calls),
    }
}

/// How many records were settled, and how many were sealed, by what a run was told.
fn bounds(alloc: Global, replies: &[Reply]) -> (u64, u64) {
    let (mut settled, mut sealed) = (0, 0);
    for step in &STEPS {
        if is_line_at(alloc, replies, step.sealed.0, step.sealed.1) {
            sealed = step.records;
        }
        if is_line_at(alloc, replies, step.settled.0, step.settled.1) {
            settled = step.records;
        }
    }
    (settled, sealed)
}

/// Whether so many records are shown with these lines.
fn is_shown(alloc: Global, replies: &[Reply], records: u64) -> bool {
    for shown in &SHOWN {
        if shown.0 == records {
            return is_line_at(alloc, replies, 1, shown.1) && is_line_at(alloc, replies, 2, shown.2);
        }
    }
    false
}

/// How many records were counted. What is shown of them is checked.
fn counted(rt: &impl Abort, alloc: Global, replies: &[Reply]) -> u64 {
    match replies.get(0) {
        Some(Reply::Count(count)) => {
            assert!(rt; is_shown(alloc, replies, *count), "{count} records");
            *count
        }
        _ => panic!(rt; "no count"),
    }
}

/// How many records the opening of a store has. What is shown of them is checked.
fn records_of<L: Ledger, S: Alter + Drop>(
    rt: &impl Abort,
    alloc: Global,
    pool: Pool<L>,
    conn: Connection<S>,
) -> u64
    requires { pool ≡ [] }
{
    let look = events_of(rt, alloc, &LOOK);
    counted(rt, alloc, &gone_on(rt, alloc, pool, conn, &look).2)
}

/// What a run leaves: a pool, its store, and how many records it was told to be settled, and to be sealed.
fn left<L: Ledger, S: Alter + Drop>(
    rt: &impl Abort,
    alloc: Global,
    blank: Blank,
    conn: Connection<S>,
    events: &[Event],
) -> Option<(Pool<L>, Connection<S>, (u64, u64))>
    requires name { blank.name ≡ L.name }
    requires parts { blank.parts ≡ L.parts }
    requires enough { blank.parts ≡ PARTS }
    ensures empty { IfSome result (λ left. left.0 ≡ []) }
{
    match begun::<L, S>(rt, alloc, blank, conn, events) {
        Some((pool, vault, replies)) => Some((pool, vault.release(), bounds(alloc, &replies))),
        None => None,
    }
}

/// After a run the records of whole batches are there, so the event for both is there twice or not at all, and what was
/// taken is there with its attempt or not at all: all that were settled, and none that wasn't sealed.
fn check_records(rt: &impl Abort, records: u64, (settled, sealed): (u64, u64)) {
    assert!(rt;
        settled <= records && records <= sealed,
        "{settled} {records} {sealed}"
    );
}

/// Whether the machine stopped before the end of the run.
fn stops<L: Ledger, D: Crash + Drop>(
    rt: &impl Abort,
    alloc: Global,
    blank: Blank,
    files: Files<D>,
    events: &[Event],
) -> bool
    requires name { blank.name ≡ L.name }
    requires parts { blank.parts ≡ L.parts }
    requires enough { blank.parts ≡ PARTS }
    requires log { IsTrue (D.Disk.is_usable files.log) }
    requires db { IsTrue (D.Disk.is_usable files.db) }
{
    let Some(conn) = opened(alloc, files) else {
        return true;
    };
    match left::<L, FileStore<D>>(rt, alloc, blank, conn, events) {
        Some((pool, conn, told)) => {
            let records = records_of(rt, alloc, pool, come_back(rt, alloc, conn));
            check_records(rt, records, told);
            told.0 < 11
        }
        None => true,
    }
}

fn stops_at(
    rt: &impl Abort,
    alloc: Global,
    events: &[Event],
    (stopping, calls): (Stopping, u64),
) -> bool {
    let files = stopping_files(alloc, stopping, calls);
    stops::<Brand, Fuse<Memory>>(rt, alloc, Blank::new(PARTS), files, events)
}

/// How many calls of the file a run has, up to which one of them fails in turn.
fn stop_each(rt: &impl Abort, alloc: Global, stopping: Stopping) -> u64 {
    let events = events_of(rt, alloc, &PATHS);
    let mut count = 0;
    for calls in 0..10_000 {
        if !stops_at(rt, alloc, &events, (stopping, calls)) {
            break;
        }
        count = calls;
    }
    count
}

// Each of the six commits writes and syncs the log.
#[test]
fn what_was_settled_is_there_after_a_stop_of_the_log(rt: HostRuntime) {
    let count = stop_each(&rt, rt.alloc(), Stopping::Log);
    assert!(rt; 12 <= count && count < 9_000, "{count}");
}

#[test]
fn what_was_settled_is_there_after_a_stop_of_the_database(rt: HostRuntime) {
    let count = stop_each(&rt, rt.alloc(), Stopping::Database);
    assert!(rt; 3 < count && count < 9_000, "{count}");
}
