//! A store that stops taking writes: which call of its log fails first is tried in turn, up to the last one of a
//! commit.
ghost use Rattle.std.specs.Prelude.{◌≡◌};

use crate::calls::{Call, Path, check_replies, events_of, is_line_at};
use crate::files::{fused, opened};
use crate::paths::{MEANWHILE, SEALED};
use crate::runs::{begun, later_batch};
use drill::{Event, Reply};
use permits::PARTS;
use spool::{CommitEnd, Unchanged, Vault};
use sqlite::{Alter, Connection, FileStore};
use sqlite_disk::{Fuse, Memory};
use std::alloc::Global;
use std::marker::Brand;
use std::process::Abort;
use std::sync::ledger::{Blank, Ledger};

const DOUBTFUL: [Call; 1] = [Call::Line("commit", "refused 5 Store")];

/// A doubt can be given up, and nothing else. Then the permit that is out comes back, and nothing is staged.
const DOUBT: [Call; 16] = [
    Call::Line("commit", "no-batch"),
    Call::Line("settle", "no-receipt"),
    Call::Line("unseal", "no-batch"),
    Call::Line("told 3", "waiting"),
    Call::Line("halt", "halted"),
    Call::Line("told 3", "unknown"),
    Call::Line("told 2", "settled"),
    Call::Line("commit", "no-batch"),
    Call::Line("seal", "refused 1 Halted"),
    Call::Line("submit 1003 a msg_5 -", "refused 1 Halted"),
    Call::Line("claim 1003", "refused 1 Halted"),
    Call::Line(
        "spend 2 1003 200 100000",
        "success limit 20 inflight 0 nothing",
    ),
    Call::Line("spend 2 1003 200 100000", "no-permit"),
    Call::Records(10),
    Call::SettledRecords(3),
    Call::Line("halt", "halted"),
];

static PATHS: [Path; 4] = [&SEALED, &DOUBTFUL, &MEANWHILE, &DOUBT];

/// Whether the vault hands back a batch that goes on with its records, as Closed.
fn is_closed_to<S: Alter>(rt: &impl Abort, alloc: Global, vault: &mut Vault<S>) -> bool {
    match vault.commit(later_batch(rt, alloc)) {
        Ok(receipt) => {
            drop(receipt.into_steps());
            false
        }
        Err(CommitEnd::Unchanged(batch, why)) => {
            drop(batch.into_steps());
            matches!(why, Unchanged::Closed)
        }
        Err(CommitEnd::Doubtful(doubt, _)) => {
            doubt.end();
            false
        }
    }
}

/// How a run ends by how many calls the log takes.
#[derive(Clone, Copy)]
enum End {
    /// Before its second commit.
    Early,
    InDoubt,
    Committed,
}

/// How the run ended that was told this. Its replies are those of a doubt, where the second commit failed.
fn told_end(rt: &impl Abort, alloc: Global, replies: &[Reply]) -> End {
    if !is_line_at(alloc, replies, 4, "committed 3") {
        assert!(rt; is_line_at(alloc, replies, 4, "refused 5 Store"));
        return End::Early;
    }
    if is_line_at(alloc, replies, 8, "committed 4") {
        return End::Committed;
    }
    check_replies(rt, alloc, replies, &PATHS);
    End::InDoubt
}

/// How the run ended that left this vault. It is closed after a doubt.
fn check_end<S: Alter>(
    rt: &impl Abort,
    alloc: Global,
    vault: &mut Vault<S>,
    replies: &[Reply],
) -> End {
    let end = told_end(rt, alloc, replies);
    if matches!(end, End::InDoubt) {
        assert!(rt; is_closed_to(rt, alloc, vault));
    }
    end
}

fn end_of<L: Ledger, S: Alter + Drop>(
    rt: &impl Abort,
    alloc: Global,
    blank: Blank,
    conn: Connection<S>,
    events: &[Event],
) -> End
    requires name { blank.name ≡ L.name }
    requires parts { blank.parts ≡ L.parts }
    requires enough { blank.parts ≡ PARTS }
{
    match begun::<L, S>(rt, alloc, blank, conn, events) {
        Some((_pool, vault, replies)) => {
            let mut vault = vault;
            check_end(rt, alloc, &mut vault, &replies)
        }
        None => End::Early,
    }
}

fn end_after(rt: &impl Abort, alloc: Global, events: &[Event], calls: u64) -> End {
    match opened(alloc, fused(alloc, calls, u64::MAX)) {
        Some(conn) => {
            end_of::<Brand, FileStore<Fuse<Memory>>>(rt, alloc, Blank::new(PARTS), conn, events)
        }
        None => End::Early,
    }
}

#[test]
fn a_commit_that_fails_is_in_doubt(rt: HostRuntime) {
    let events = events_of(&rt, rt.alloc(), &PATHS);
    let mut last = End::Early;
    for calls in 0..200 {
        let end = end_after(&rt, rt.alloc(), &events, calls);
        if matches!(end, End::Committed) {
            break;
        }
        last = end;
    }
    assert!(rt; matches!(last, End::InDoubt));
}
