//! Whether rows stand in the order of their keys, as the statements ask for them.
ghost use Rattle.std.specs.Prelude.{◌≡◌, ◌↔◌, true, int_lt, IsTrue};
ghost use Rattle.sqlite_trees.specs.Tree.{IsAscending};
ghost use Rattle.relay_types.specs.Sound.{IsRisingFrom};
ghost use Rattle.sound_tables.specs.Checks.{AreInOrder};

use crate::secret::Secret;
use crate::stored::StoredRows;
use crate::topic::Topic;
use sound_rows::{Attempt, Delivery, Endpoint};

impl StoredRows {
    /// Whether the keys of each table rise.
    pub(crate) fn are_in_order(&self) -> bool
        ensures { IsTrue result ↔ AreInOrder self.now }
    {
        do_puts_rise(&self.endpoints)
            && do_rowids_rise(&self.secrets)
            && do_deliveries_rise(&self.deliveries)
            && do_attempts_rise(&self.attempts)
            && do_topics_rise(&self.topics)
    }
}

fn do_puts_rise(endpoints: &[Endpoint]) -> bool
    ensures { IsTrue result ↔ IsRisingFrom (λ (e : Endpoint). e.put) 0 endpoints.now }
{
    endpoints.is_sorted_by(|e, next| e.put < next.put)
}

fn do_rowids_rise(secrets: &[Secret]) -> bool
    ensures { IsTrue result ↔ IsAscending (λ (s t : Secret). int_lt s.rowid t.rowid ≡ true) secrets.now }
{
    secrets.is_sorted_by(|s, next| s.rowid < next.rowid)
}

fn do_deliveries_rise(deliveries: &[Delivery]) -> bool
    ensures { IsTrue result ↔ IsRisingFrom (λ (d : Delivery). d.seq) 0 deliveries.now }
{
    deliveries.is_sorted_by(|d, next| d.seq < next.seq)
}

fn do_attempts_rise(attempts: &[Attempt]) -> bool
    ensures { IsTrue result ↔ IsRisingFrom (λ (t : Attempt). t.seq) 0 attempts.now }
{
    attempts.is_sorted_by(|t, next| t.seq < next.seq)
}

fn do_topics_rise(topics: &[Topic]) -> bool
    ensures { IsTrue result ↔ IsAscending (λ (s t : Topic). int_lt s.rowid t.rowid ≡ true) topics.now }
{
    topics.is_sorted_by(|t, next| t.rowid < next.rowid)
}
