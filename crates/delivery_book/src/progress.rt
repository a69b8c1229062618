//! How far a delivery has come.
ghost use Rattle.std.specs.Prelude.{◌≡◌, ◌+◌, ◌<◌, ◌^◌, []};
ghost use Rattle.relay_types.specs.declared.state.State.TheVariants.{Pending};
ghost use Rattle.delivery_book.specs.Entries.{progress_of, state_in, is_done_before, progress_after};

use relay_types::{MAX_FAILURES, Moment, State};
use retry_table::{delay_after, is_delivered, is_failed, is_gone};
use std::marker::Model;

/// What the attempts at an event came to. It stands twice in each entry, so it keeps only what the
/// rest follows from.
#[derive(Clone, Copy)]
pub struct Progress {
    attempts: u64,
    /// When the last attempt ended; before any, when the event was taken in.
    since: Moment,
    failures: u32,
    /// That of the last attempt; 0 before any.
    last_status: u16,
    is_delivered: bool,
}

impl Model for Progress {
    ghost use Rattle.std.specs.Prelude.{unwrap_or};
    ghost use Rattle.delivery_book.specs.Progress.{Progress};

    ghost Value = { Progress };

    ghost use Rattle.delivery_book.specs.CompactProgress.{progress_by, since_in, AreCounts, since_back, status_back};

    ghost view = { λ p. progress_by p.attempts p.since p.failures p.last_status p.is_delivered };

    ghost invariant = { λ p. AreCounts p.attempts p.failures p.last_status p.is_delivered };

    ghost inverse = { λ v. record {
      attempts = v.attempts;
      since = since_in v;
      failures = v.failures;
      last_status = unwrap_or v.last_status 0;
      is_delivered = v.is_delivered;
    } };

    ghost inverse_ok = { λ p h i. record {
      attempts = p.attempts;
      since = since_back p.attempts p.since p.failures p.last_status p.is_delivered h i;
      failures = p.failures;
      last_status = status_back p.attempts p.since p.failures p.last_status p.is_delivered h i;
      is_delivered = p.is_delivered;
    } };
}

impl Progress {
    /// That of an event of this moment before any attempt.
    pub(crate) fn fresh(at: Moment) -> Progress
        ensures { result ≡ progress_of at [] }
    {
        Progress {
            attempts: 0,
            since: at,
            failures: 0,
            last_status: 0,
            is_delivered: false,
        }
    }

    /// How many attempts ended.
    pub(crate) fn attempts(self) -> u64
        ensures { result ≡ self.attempts }
    {
        self.attempts
    }

    pub(crate) fn state(self) -> State
        ensures { result ≡ state_in self }
    {
        if self.is_delivered {
            State::Delivered
        } else if u64::from(self.failures) >= MAX_FAILURES {
            State::Exhausted
        } else {
            State::Pending
        }
    }

    /// When the next attempt is due, in seconds, while one is to come.
    pub(crate) fn due(self) -> Option<u64>
        ensures { result ≡ self.due }
    {
        if !matches!(self.state(), State::Pending) {
            return None;
        }
        let since = self.since.seconds();
        if self.attempts == 0 || is_gone(self.last_status) {
            Some(since)
        } else {
            Some(since + u64::from(delay_after(self.failures)))
        }
    }

    /// The status of the last attempt, if there was one.
    pub(crate) fn last_status(self) -> Option<u16>
        ensures { result ≡ self.last_status }
    {
        if self.attempts == 0 {
            None
        } else {
            Some(self.last_status)
        }
    }

    /// Whether the delivery has ended, by an attempt before this moment.
    pub(crate) fn is_done_before(self, moment: Moment) -> bool
        ensures { result ≡ is_done_before moment self }
    {
        self.attempts > 0
            && self.since.seconds() < moment.seconds()
            && !matches!(self.state(), State::Pending)
    }

    /// After one more attempt, which ended with this status.
    pub(crate) fn after(self, status: u16, at: Moment) -> Progress
        requires pending { state_in self ≡ Pending }
        requires room { self.attempts + 1 < 2 ^ 64 }
        ensures { result ≡ progress_after status at self }
    {
        let failures = self.failures + u32::from(is_failed(status));
        Progress {
            attempts: self.attempts + 1,
            since: at,
            failures,
            last_status: status,
            is_delivered: self.is_delivered || is_delivered(status),
        }
    }
}
