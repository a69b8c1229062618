//! Keepers, subscribers and clocks that stand in.
ghost use Rattle.std.specs.Prelude.{◌≡◌, ⊤};

use crate::seen::{Seen, count, have_come, pause};
use delivery::{Clock, Keeper, Shared};
use relay_host::{FileCheck, Place};
use relay_types::Moment;
use retry_table::{PostResult, Status};
use run_log::LogId;
use spool::{Batch, CommitEnd, Receipt, Unchanged};
use std::sync::ledger::Ledger;
use std::sync::{Arc, Wait};
use std::time::Clock as SystemClock;
use webhook_request::{Outgoing, Poster};

/// Stands before another keeper: refuses so many commits as out of memory, then commits and
/// counts. After a commit it may refuse as many again. It may hold its first commit until an event
/// is taken meanwhile, and a while longer.
#[derive(Drop)]
pub(crate) struct Watched<K: Keeper + Drop, R> {
    pub(crate) keeper: K,
    pub(crate) refusals: u32,
    pub(crate) again: u32,
    pub(crate) holds_first: bool,
    pub(crate) seen: Arc<Seen>,
    pub(crate) rt: R,
}

impl<K: Keeper + Drop, R: SystemClock> Watched<K, R> {
    // Counts a commit. If it is held, it waits until an event was taken, and that is counted too.
    // Then it pauses, and who waits for it falls asleep.
    fn begin(&self) {
        if count(&self.seen.commits) == 0
            && self.holds_first
            && have_come(&self.rt, &self.seen.staged, 1)
        {
            count(&self.seen.meetings);
            pause(&self.rt);
        }
    }
}

impl<K: Keeper + Drop, R: SystemClock> Keeper for Watched<K, R> {
    ghost is_clean = { λ k. K.is_clean k.keeper };

    ghost holds = { λ k records. K.holds k.keeper records };

    ghost in_doubt = { λ k records more. K.in_doubt k.keeper records more };

    ghost closed = { λ k. K.closed k.keeper };

    ghost next = { λ k. K.next k.keeper };

    fn commit(&mut self, batch: Batch) -> Result<Receipt, CommitEnd> {
        if self.refusals > 0 && !self.keeper.is_closed() {
            self.refusals -= 1;
            return Err(CommitEnd::Unchanged(batch, Unchanged::OutOfMemory));
        }
        self.begin();
        self.refusals = self.again;
        self.keeper.commit(batch)
    }

    fn is_closed(&self) -> bool {
        self.keeper.is_closed()
    }
}

/// Where a store stands, or stood.
#[derive(Drop)]
pub(crate) struct Spot {
    pub(crate) is_gone: bool,
}

impl Place for Spot {
    fn look(&mut self) -> FileCheck {
        if self.is_gone {
            FileCheck::Gone
        } else {
            FileCheck::Stands
        }
    }
}

/// A clock that stands.
#[derive(Clone, Copy)]
pub(crate) struct Standing(pub(crate) Moment);

impl Clock for Standing {
    fn now(&self) -> Moment {
        self.0
    }
}

/// How a subscriber answers.
pub(crate) enum Way {
    /// With this status, after a tenth of a second by its own word.
    Answer(u16),
    /// It isn't reached.
    Away,
    /// With 200 once two posts have begun, and else it isn't reached.
    Meet,
    /// With 200 once the end was asked for meanwhile and the committer has ended, and else it isn't reached.
    End,
}

#[derive(Drop)]
pub(crate) struct Subscriber<'a, L: Ledger, I: LogId, R> {
    pub(crate) way: &'a Way,
    pub(crate) shared: &'a Shared<L, I>,
    pub(crate) seen: &'a Seen,
    pub(crate) rt: &'a R,
}

fn answered(number: u16) -> PostResult {
    match Status::of(number) {
        Some(status) => PostResult::Answered {
            status,
            rtt: 100_000,
        },
        None => PostResult::Unsent,
    }
}

// With 200 if it has come, and else it isn't reached.
fn answered_if(has_come: bool) -> PostResult {
    if has_come {
        answered(200)
    } else {
        PostResult::Unreached
    }
}

impl<L: Ledger, I: LogId, R: Wait + SystemClock> Subscriber<'_, L, I, R> {
    fn meet(&self) -> PostResult {
        count(&self.seen.begun);
        answered_if(have_come(self.rt, &self.seen.begun, 2))
    }

    fn end(&self) -> PostResult {
        self.shared.finish(self.rt);
        answered_if(have_come(self.rt, &self.seen.ended, 1))
    }
}

impl<L: Ledger, I: LogId, R: Wait + SystemClock> Poster for Subscriber<'_, L, I, R> {
    ghost may_answer = { λ _ _ _. ⊤ };

    fn post(&self, _: &Outgoing) -> PostResult {
        count(&self.seen.posts);
        match self.way {
            Way::Answer(number) => answered(*number),
            Way::Away => PostResult::Unreached,
            Way::Meet => self.meet(),
            Way::End => self.end(),
        }
    }
}
