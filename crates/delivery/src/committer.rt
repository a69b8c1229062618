//! The committer, who alone has the keeper, and moves batches between the lock and the keeper.
ghost use Rattle.std.specs.Prelude.{◌≡◌, IsTrue};
ghost use Rattle.delivery.specs.Logs.{receipt_of};
ghost use Rattle.delivery.specs.Keepers.{AddsRecords, AppendsBatches, EndsAfterCommit, IsOfKeeper, KeepsLog, cause_of};

use crate::keeper::Keeper;
use crate::locked::Ended;
use crate::logged_keeper::{Committed, LoggedKeeper};
use crate::shared::Shared;
use group_commit::Held;
use run_log::LogId;
use spool::{Batch, CommitEnd, Unchanged};
use sqlite::Error;
use std::sync::Wait;
use std::sync::ledger::Ledger;
use std::thread;
use std::time::{Clock, Duration};

/// So many refusals for memory, one after another, end a committer.
pub const MAX_REFUSALS: u32 = 9;

/// The pause after such a refusal, in milliseconds.
pub const PAUSE_MILLIS: u64 = 10;

/// Why a committer gave up.
#[derive(Clone, Copy)]
pub enum HaltCause {
    /// The desk was halted before.
    Halted,
    /// Memory was refused nine times in a row.
    OutOfMemory,
    /// An earlier commit was doubtful.
    Closed,
    /// The keeper is of another opening, or doesn't come next.
    OutOfTurn,
    /// A record isn't legal after the rows.
    Illegal,
    /// The store was at fault. The old or the new rows stand.
    Store(Error),
}

/// How a committer ends.
#[derive(Clone, Copy)]
pub enum CommitterEnd {
    /// The end was asked for, and nothing waits.
    Finished,
    Halted(HaltCause),
}

// What the committer does next.
pub(crate) enum Next {
    Commit(Batch),
    /// Memory was refused.
    Refused,
    End(Ended),
}

/// Commits what waits, with the lock free during each commit, until the end was asked for and nothing waits, or until a
/// commit fails. After a failed allocation it tries again; the ninth in a row ends it. It gives the keeper back.
pub fn committer_run<L: Ledger, I: LogId, K: Keeper + Drop, R: Wait + Clock>(
    rt: &R,
    shared: &Shared<L, I>,
    logged: LoggedKeeper<I, K>,
) -> (LoggedKeeper<I, K>, Ended)
    ensures rows { K.is_clean result.0.keeper → AddsRecords K.holds K.in_doubt logged.keeper result.0.keeper result.1 }
    ensures logged { K.is_clean result.0.keeper
        → KeepsLog K.holds K.in_doubt logged.keeper logged.writer result.0.keeper result.0.writer result.1 }
    ensures appended { AppendsBatches logged.writer result.0.writer }
    ensures clean { K.is_clean result.0.keeper → K.is_clean logged.keeper }
    ensures closed { IsOfKeeper result.1 → IsTrue (K.closed result.0.keeper) }
{
    let mut logged = logged;
    let mut refusals = 0;
    for _ in rt.forever() {
        match shared.next_batch(rt) {
            Next::Commit(batch) => {
                let ended = logged.commit(shared.log(), batch);
                if let Some(end) = hand_in(rt, shared, ended, &mut refusals) {
                    return (logged, end);
                }
            }
            Next::Refused => {
                if count_refusal(&mut refusals) {
                    let ended = shared.halt(rt, Held::Nothing, HaltCause::OutOfMemory);
                    return (logged, ended);
                }
                pause(rt);
            }
            Next::End(ended) => return (logged, ended),
        }
    }
    unreachable!()
}

// Counts one more refusal for memory, and returns whether it is the last that is borne.
fn count_refusal(refusals: &mut u32) -> bool {
    *refusals = refusals.saturating_add(1);
    *refusals >= MAX_REFUSALS
}

// Memory may be free again after a moment, or another committer's batch be back.
pub(crate) fn pause<R: Clock>(rt: &R) {
    thread::sleep(rt, Duration::from_millis(PAUSE_MILLIS));
}

// Hands in what came of a commit. `None` where the committer goes on.
#[tactic(auto, using(crate::proofs::KeeperLaws::ends_unchanged))]
fn hand_in<L: Ledger, I: LogId, R: Wait + Clock>(
    rt: &R,
    shared: &Shared<L, I>,
    ended: Result<Committed<I>, CommitEnd>,
    refusals: &mut u32,
) -> Option<Ended>
    ensures { EndsAfterCommit (receipt_of ended) result }
{
    match ended {
        Ok(committed) => {
            shared.settle(rt, committed);
            *refusals = 0;
            None
        }
        Err(CommitEnd::Unchanged(batch, Unchanged::OutOfMemory)) if !count_refusal(refusals) => {
            shared.unseal(rt, batch);
            pause(rt);
            None
        }
        Err(CommitEnd::Unchanged(batch, why)) => {
            Some(shared.halt(rt, Held::Batch(batch), cause_of(why)))
        }
        Err(CommitEnd::Doubtful(doubt, error)) => {
            Some(shared.halt(rt, Held::Doubt(doubt), HaltCause::Store(error)))
        }
    }
}

// As what a commit that changed nothing ends the committer.
fn cause_of(why: Unchanged) -> HaltCause
    ensures { result ≡ cause_of why }
{
    match why {
        Unchanged::Closed => HaltCause::Closed,
        Unchanged::OutOfTurn => HaltCause::OutOfTurn,
        Unchanged::Illegal => HaltCause::Illegal,
        Unchanged::OutOfMemory => HaltCause::OutOfMemory,
    }
}
