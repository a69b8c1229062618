//! The records of steps, one after another inside a transaction, and then how many there are.
ghost use Rattle.std.specs.Prelude.{◌<◌, ◌≤◌, ◌+◌, [], ◌∷◌, length};
ghost use Rattle.relay_types.specs.declared.limits.TheConstants.{MAX_RECORDS};
ghost use Rattle.relay_types.specs.Records.{records_of};
ghost use Rattle.spool_sql.specs.Steps.{Answers, IsOfSame, SparesCommit};
ghost use Rattle.spool_write.specs.Entering.{Enters, EntersWhole};

use crate::accept::write_accept;
use crate::enabled::write_enabled;
use crate::outcome::write_outcome;
use crate::purge::write_purge;
use crate::put::write_put;
use crate::secrets::write_secrets;
use crate::subscribed::write_subscribed;
use relay_types::{Record, Step};
use spool_sql::{Seq, update_records};
use sqlite::{Alter, Error, Transaction};

// Writes the record with this number, if it may follow the rows.
fn write_record<S: Alter>(
    tx: &mut Transaction<'_, S>,
    seq: Seq,
    entry: &Record,
) -> Result<bool, Error>
    ensures same_reference { IsOfSame tx.old.conn tx.new.conn }
    ensures done { Answers S.Store tx.old.conn.now tx.new.conn.now result
        (λ a b. Enters a b seq (entry.now ∷ [])) }
    ensures spares { SparesCommit S.Store tx.old.conn.now tx.new.conn.now }
{
    match entry {
        Record::Put {
            name,
            target,
            max,
            secrets,
        } => write_put(tx, seq, name, target, *max, secrets),
        Record::Secrets { name, secrets } => write_secrets(tx, seq, name, secrets),
        Record::Enabled { name, flag } => write_enabled(tx, seq, name, *flag),
        Record::Subscribed { topic, name, flag } => write_subscribed(tx, seq, topic, name, *flag),
        Record::Accept { name, id, body, at } => write_accept(tx, seq, name, id, body, *at),
        Record::Outcome {
            delivery,
            attempt,
            status,
            at,
        } => write_outcome(tx, seq, *delivery, *attempt, *status, *at),
        Record::Purge { before } => write_purge(tx, seq, *before),
    }
}

// Writes the records of a step from this number on, if each may follow those before it.
fn write_step<S: Alter>(
    tx: &mut Transaction<'_, S>,
    next: u64,
    records: &[Record],
) -> Result<bool, Error>
    requires some { 0 < length records.now }
    requires room { next + length records.now ≤ MAX_RECORDS }
    ensures same_reference { IsOfSame tx.old.conn tx.new.conn }
    ensures done { Answers S.Store tx.old.conn.now tx.new.conn.now result (λ a b. Enters a b next records.now) }
    ensures spares { SparesCommit S.Store tx.old.conn.now tx.new.conn.now }
{
    let mut place = next;
    for entry in records {
        if !write_record(tx, Seq::of(place), entry)? {
            return Ok(false);
        }
        place += 1;
    }
    Ok(true)
}

/// Writes the records of the steps, numbered from `next` on, and then how many records there are. The answer is false
/// if one of them may not follow those before it.
pub fn write_records<S: Alter>(
    tx: &mut Transaction<'_, S>,
    next: u64,
    steps: &[Step],
) -> Result<bool, Error>
    requires room { next + length (records_of steps.now) ≤ MAX_RECORDS }
    ensures same_reference { IsOfSame tx.old.conn tx.new.conn }
    ensures done { Answers S.Store tx.old.conn.now tx.new.conn.now result
        (λ a b. EntersWhole a b next (records_of steps.now)) }
    ensures spares { SparesCommit S.Store tx.old.conn.now tx.new.conn.now }
{
    let mut place = next;
    for step in steps {
        let records = step.records();
        if !write_step(tx, place, records)? {
            return Ok(false);
        }
        place += records.len() as u64;
    }
    update_records(tx, place)?;
    Ok(true)
}
