//! Whether no number is that of two kinds of records.
ghost use Rattle.std.specs.Prelude.{◌≡◌, ◌||◌, not};
ghost use Rattle.sound_rows.specs.RowNumbers.{AreAscending, kept};
ghost use Rattle.sound_rows.specs.Checks.{are_apart, are_attempts_apart, are_deliveries_apart, are_puts_apart};
ghost use Rattle.sound_rows.specs.Checks.{is_attempt, is_delivery, is_put, is_taken, is_topic};

use crate::numbers::RowNumbers;
use crate::search::{has_attempt, has_delivery, has_topic};

impl RowNumbers {
    // Whether an endpoint was put at this number.
    fn is_put(&self, number: u64) -> bool
        ensures { result ≡ is_put (kept self.now) number }
    {
        self.endpoints.iter().any(|e| e.put == number)
    }

    // Whether a row's record stands at this number.
    pub(crate) fn is_taken(&self, number: u64) -> bool
        requires { AreAscending (kept self.now) }
        ensures { result ≡ is_taken (kept self.now) number }
    {
        self.is_put(number)
            || has_delivery(&self.deliveries, number)
            || has_attempt(&self.attempts, number)
            || has_topic(&self.topics, number)
    }

    // Whether no number is that of two kinds of records.
    pub(crate) fn are_apart(&self) -> bool
        requires { AreAscending (kept self.now) }
        ensures { result ≡ are_apart (kept self.now) }
    {
        self.are_puts_apart() && self.are_deliveries_apart() && self.are_attempts_apart()
    }

    // Whether no event, no attempt and no topic's record stands where an endpoint was put.
    fn are_puts_apart(&self) -> bool
        requires { AreAscending (kept self.now) }
        ensures { result ≡ are_puts_apart (kept self.now) }
    {
        self.endpoints.iter().all(|e| self.is_free_put(e.put))
    }

    // Whether no event, no attempt and no topic's record stands at this number.
    fn is_free_put(&self, put: u64) -> bool
        requires { AreAscending (kept self.now) }
        ensures { result ≡ not (is_delivery (kept self.now) put
            || (is_attempt (kept self.now) put || is_topic (kept self.now) put)) }
    {
        !(has_delivery(&self.deliveries, put) || self.is_attempt_or_topic(put))
    }

    // Whether an attempt or a topic's record stands at this number.
    fn is_attempt_or_topic(&self, number: u64) -> bool
        requires { AreAscending (kept self.now) }
        ensures { result ≡ (is_attempt (kept self.now) number || is_topic (kept self.now) number) }
    {
        has_attempt(&self.attempts, number) || has_topic(&self.topics, number)
    }

    // Whether no attempt and no topic's record stands where an event was taken in.
    fn are_deliveries_apart(&self) -> bool
        requires { AreAscending (kept self.now) }
        ensures { result ≡ are_deliveries_apart (kept self.now) }
    {
        self.deliveries
            .iter()
            .all(|d| !self.is_attempt_or_topic(d.seq))
    }

    // Whether no topic's record stands where an attempt does.
    fn are_attempts_apart(&self) -> bool
        requires { AreAscending (kept self.now) }
        ensures { result ≡ are_attempts_apart (kept self.now) }
    {
        self.attempts
            .iter()
            .all(|t| !has_topic(&self.topics, t.seq))
    }
}
