//! Whether rows stand in the order of their numbers.
ghost use Rattle.std.specs.Prelude.{◌↔◌, IsTrue};
ghost use Rattle.sound_rows.specs.RowNumbers.{AreAscending, IsAscending, kept};

use crate::numbers::{Attempt, Delivery, RowNumbers, Topic};

impl RowNumbers {
    // Whether the events, the attempts and the topics stand in the order of their numbers.
    pub(crate) fn are_ascending(&self) -> bool
        ensures { IsTrue result ↔ AreAscending (kept self.now) }
    {
        do_deliveries_ascend(&self.deliveries)
            && do_attempts_ascend(&self.attempts)
            && do_topics_ascend(&self.topics)
    }
}

fn do_deliveries_ascend(deliveries: &[Delivery]) -> bool
    ensures { IsTrue result ↔ IsAscending (λ d. d.seq) deliveries.now }
{
    let mut index = 1;
    while index < deliveries.len() {
        if deliveries[index].seq <= deliveries[index - 1].seq {
            return false;
        }
        index += 1;
    }
    true
}

fn do_attempts_ascend(attempts: &[Attempt]) -> bool
    ensures { IsTrue result ↔ IsAscending (λ t. t.seq) attempts.now }
{
    let mut index = 1;
    while index < attempts.len() {
        if attempts[index].seq <= attempts[index - 1].seq {
            return false;
        }
        index += 1;
    }
    true
}

fn do_topics_ascend(topics: &[Topic]) -> bool
    ensures { IsTrue result ↔ IsAscending (λ t. t.set_by) topics.now }
{
    let mut index = 1;
    while index < topics.len() {
        if topics[index].set_by <= topics[index - 1].set_by {
            return false;
        }
        index += 1;
    }
    true
}
