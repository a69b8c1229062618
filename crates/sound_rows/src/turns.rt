//! Whether the attempts at each event are numbered in turn, and none follows the last one.
ghost use Rattle.std.specs.Prelude.{◌≡◌, true, unwrap_or, IfOk};
ghost use Rattle.std.specs.BTreeMap as tree;
ghost use Rattle.std.specs.Ordering.{nat_cmp};
ghost use Rattle.std.specs.List.{list_all};
ghost use Rattle.sound_rows.specs.RowNumbers.{IsAscending};
ghost use Rattle.sound_rows.specs.Checks.{after_status, is_turn, may_come, no_progress};

use crate::numbers::Attempt;
use relay_types::MAX_FAILURES;
use retry_table::{is_delivered, is_failed, is_status};
use std::alloc::{AllocError, Global};
use std::collections::BTreeMap;

// What came of an event: its attempts, how many failed, and whether one delivered it.
#[derive(Clone, Copy)]
pub struct Progress {
    attempts: u64,
    failures: u64,
    is_delivered: bool,
}

impl Progress {
    fn none() -> Progress
        ensures { result ≡ no_progress }
    {
        Progress {
            attempts: 0,
            failures: 0,
            is_delivered: false,
        }
    }

    // Whether the attempt may come next.
    fn takes(self, attempt: &Attempt) -> bool
        ensures { result ≡ may_come self attempt.now }
    {
        attempt.delivery < attempt.seq
            && attempt.number > 0
            && attempt.number - 1 == self.attempts
            && is_status(attempt.status)
            && !self.is_delivered
            && self.failures < MAX_FAILURES
    }

    // What it is after the attempt, which may come next.
    fn after(self, attempt: &Attempt) -> Progress
        requires { may_come self attempt.now ≡ true }
        ensures { result ≡ after_status self attempt.now.status }
    {
        let failed = if is_failed(attempt.status) { 1 } else { 0 };
        Progress {
            attempts: attempt.number,
            failures: self.failures + failed,
            is_delivered: is_delivered(attempt.status),
        }
    }
}

// Whether each attempt stands behind its event and has the next number, and the attempts before it left the event
// pending. An error means that an allocation failed.
pub(crate) fn are_in_turn(attempts: &[Attempt], alloc: Global) -> Result<bool, AllocError>
    requires { IsAscending (λ t. t.seq) attempts.now }
    ensures { IfOk result (λ answer. answer ≡ list_all (is_turn attempts.now) attempts.now) }
{
    let mut so_far: BTreeMap<u64, Progress> = BTreeMap::new(alloc);
    for attempt in attempts {
        let before = progress_at(&so_far, attempt.delivery);
        if !before.takes(attempt) {
            return Ok(false);
        }
        so_far.insert(attempt.delivery, before.after(attempt))?;
    }
    Ok(true)
}

// What came of the event with this number so far.
fn progress_at(so_far: &BTreeMap<u64, Progress>, delivery: u64) -> Progress
    ensures { result ≡ unwrap_or (tree.get nat_cmp so_far.now delivery) no_progress }
{
    match so_far.get(&delivery) {
        Some(progress) => *progress,
        None => Progress::none(),
    }
}
