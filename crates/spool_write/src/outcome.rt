//! An Outcome inside the transaction that writes it: whether it may follow the rows, its row, and
//! what it changes of its endpoint.
ghost use Rattle.std.specs.Prelude.{◌≡◌, ◌<◌, ◌^◌, [], ◌∷◌, count_by, IfOk, IfErr, IfSome, IsTrue};
ghost use Rattle.std.specs.List.{list_any};
ghost use Rattle.relay_types.specs.declared.record.Record.TheVariants as on;
ghost use Rattle.relay_types.specs.Judging.{is_delivered_status, is_failed_status};
ghost use Rattle.spool_sql.specs.Steps.{Alters, Answers, Achieves, IfClean, IsOfSame, LeavesAll, SparesCommit};
ghost use Rattle.spool_write.specs.Entering.{Enters, IsLookRefusal, LooksAt, are_pending, may_be_next, attempting};
ghost use Rattle.spool_write.specs.Entering.{disabled_if_gone};

use relay_types::{MAX_FAILURES, Moment};
use retry_table::{is_delivered, is_failed, is_gone, is_status};
use spool_sql::{Seq, insert_attempt, select_endpoint, select_statuses, update_enabled};
use sqlite::{Alter, Error, Transaction};

// Writes the Outcome with this number, if it may follow the rows. A number from its own on names no
// event yet, as its own names none.
pub(crate) fn write_outcome<S: Alter>(
    tx: &mut Transaction<'_, S>,
    seq: Seq,
    delivery: u64,
    attempt: u64,
    status: u16,
    at: Moment,
) -> Result<bool, Error>
    ensures same_reference { IsOfSame tx.old.conn tx.new.conn }
    ensures done { Answers S.Store tx.old.conn.now tx.new.conn.now result
        (λ a b. Enters a b seq (on.Outcome delivery attempt status at ∷ [])) }
    ensures spares { SparesCommit S.Store tx.old.conn.now tx.new.conn.now }
{
    let named = Seq::of(delivery.min(seq.get()));
    let Some(put) = find_attempted(tx, named, attempt, status)? else {
        return Ok(false);
    };
    insert_attempt(tx, seq, named, attempt, status, at)?;
    disable_if_gone(tx, put, status, seq)?;
    Ok(true)
}

// The number of the Put of the event's endpoint, if an attempt of this number and status may be recorded.
fn find_attempted<S: Alter>(
    tx: &mut Transaction<'_, S>,
    delivery: Seq,
    attempt: u64,
    status: u16,
) -> Result<Option<Seq>, Error>
    ensures same_reference { IsOfSame tx.old.conn tx.new.conn }
    ensures unchanged { LeavesAll S.Store tx.old.conn.now tx.new.conn.now result }
    ensures found { LooksAt S.Store tx.old.conn.now tx.new.conn.now result
        (λ found records. found ≡ attempting records delivery attempt status) }
    ensures number { IfOk result (λ found. IfSome found (λ _. attempt < 2 ^ 63)) }
    ensures refused { IfClean S.Store tx.old.conn.now tx.new.conn.now (λ a b. IfErr result (IsLookRefusal a b)) }
    ensures spares { SparesCommit S.Store tx.old.conn.now tx.new.conn.now }
{
    let Some(put) = select_endpoint(tx, delivery)? else {
        return Ok(None);
    };
    let statuses = select_statuses(tx, delivery)?;
    Ok(may_be_next(&statuses, attempt, status).then_some(put))
}

// Whether an attempt of this number and status may be the next one after those of these statuses.
fn may_be_next(statuses: &[u16], attempt: u64, status: u16) -> bool
    ensures next { result ≡ may_be_next statuses.now attempt status }
    ensures number { IsTrue result → attempt < 2 ^ 63 }
{
    are_pending(statuses) && attempt == statuses.len() as u64 + 1 && is_status(status)
}

// Whether an event is pending whose attempts had these statuses.
fn are_pending(statuses: &[u16]) -> bool
    ensures { result ≡ are_pending statuses.now }
{
    !is_any_delivered(statuses) && (count_failed(statuses) as u64) < MAX_FAILURES
}

fn is_any_delivered(statuses: &[u16]) -> bool
    ensures { result ≡ list_any is_delivered_status statuses.now }
{
    statuses.iter().any(|status| is_delivered(*status))
}

fn count_failed(statuses: &[u16]) -> usize
    ensures { result ≡ count_by is_failed_status statuses.now }
{
    statuses.iter().filter(|status| is_failed(**status)).count()
}

// Disables the endpoint that the record with number `put` made, where the status is that of a gone
// one. The record with number `by` decides it.
fn disable_if_gone<S: Alter>(
    tx: &mut Transaction<'_, S>,
    put: Seq,
    status: u16,
    by: Seq,
) -> Result<(), Error>
    ensures same_reference { IsOfSame tx.old.conn tx.new.conn }
    ensures done { Achieves S.Store tx.old.conn.now tx.new.conn.now result
        (λ a b. IsTrue a.is_open → Alters a b (disabled_if_gone put status by)) }
    ensures spares { SparesCommit S.Store tx.old.conn.now tx.new.conn.now }
{
    if is_gone(status) {
        update_enabled(tx, put, false, by)
    } else {
        Ok(())
    }
}
