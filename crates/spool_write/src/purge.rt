//! A Purge inside the transaction that writes it: it takes out events that ended, and the attempts at them.
ghost use Rattle.std.specs.Prelude.{◌≡◌, ◌==◌, ◌<◌, ◌≤◌, ◌+◌, ◌&&◌, [], ◌∷◌, count_by, filter, false, nat_lt, IsTrue};
ghost use Rattle.std.specs.Prelude.{IfOk};
ghost use Rattle.std.specs.List.{list_any};
ghost use Rattle.std.specs.List.Sorted.{IsNonDecreasingBy};
ghost use Rattle.std.specs.Option.{option_map_or};
ghost use Rattle.relay_types.specs.declared.limits.TheConstants.{MAX_RECORDS};
ghost use Rattle.relay_types.specs.declared.record.Record.TheVariants as on;
ghost use Rattle.relay_types.specs.Judging.{is_delivered_status, is_failed_status};
ghost use Rattle.relay_types.specs.Lists.{last_of};
ghost use Rattle.relay_types.specs.Sound.{IsRisingFrom};
ghost use Rattle.spool_sql.specs.Stored.{HaveOwnNumbers};
ghost use Rattle.spool_sql.specs.Steps.{Achieves, AltersWhere, Answers, IsOfSame, SparesCommit};
ghost use Rattle.spool_write.specs.Entering.{AreInTurn, Enters, are_past, is_past_by, without_events, without_past};

use relay_types::{MAX_FAILURES, Moment};
use retry_table::{is_delivered, is_failed};
use spool_sql::{
    Seq, Tried, delete_attempts, delete_delivery, error_of, next_page, select_events, select_tries,
};
use sqlite::{Alter, Error, Transaction};

// Writes the Purge with this number, which may always follow the rows. Events of a page may be removed,
// so the next page starts after its last number.
pub(crate) fn write_purge<S: Alter>(
    tx: &mut Transaction<'_, S>,
    seq: Seq,
    before: Moment,
) -> Result<bool, Error>
    ensures same_reference { IsOfSame tx.old.conn tx.new.conn }
    ensures done { Answers S.Store tx.old.conn.now tx.new.conn.now result
        (λ a b. Enters a b seq (on.Purge before ∷ [])) }
    ensures spares { SparesCommit S.Store tx.old.conn.now tx.new.conn.now }
{
    let moment = before.seconds();
    let end = seq.get();
    let mut from = 0;
    while from <= end {
        let page = select_events(tx, Seq::of(from))?;
        from = behind_page(&page, from, end)?;
        purge_page(tx, &page, moment)?;
    }
    Ok(true)
}

// The number after the last of a page that was read from this number on, or after the end if the page is empty.
fn behind_page(page: &[Seq], from: u64, end: u64) -> Result<u64, Error>
    requires open { from ≤ end }
    requires room { end < MAX_RECORDS }
    ensures number { IfOk result (λ next. next ≡ option_map_or (λ last. last + 1) (last_of page.now) (end + 1)) }
    ensures above { IfOk result (λ next. from < next) }
{
    next_page(page.last().copied(), from, end + 1).map_err(|fault| error_of(fault))
}

// Takes out the events of this page that ended, the last attempt at each before this moment. Its numbers must rise.
fn purge_page<S: Alter>(tx: &mut Transaction<'_, S>, page: &[Seq], before: u64) -> Result<(), Error>
    ensures same_reference { IsOfSame tx.old.conn tx.new.conn }
    ensures done { Achieves S.Store tx.old.conn.now tx.new.conn.now result
        (λ a b. IsTrue a.is_open
        → AltersWhere a b (λ rows. AreInTurn rows × IsRisingFrom (λ n. n) 0 page.now)
        (without_past before (λ d. list_any (λ n. n == d) page.now))) }
    ensures spares { SparesCommit S.Store tx.old.conn.now tx.new.conn.now }
{
    let (Some(first), Some(last)) = (page.first(), page.last()) else {
        return Ok(());
    };
    let tries = select_tries(tx, *first, *last)?;
    purge_events(tx, page, &tries, before)
}

// Takes out the events of this page that these attempts ended, the last at each before this moment. The attempts must
// be in the order of their events.
fn purge_events<S: Alter>(
    tx: &mut Transaction<'_, S>,
    page: &[Seq],
    tries: &[Tried],
    before: u64,
) -> Result<(), Error>
    ensures same_reference { IsOfSame tx.old.conn tx.new.conn }
    ensures done { Achieves S.Store tx.old.conn.now tx.new.conn.now result
        (λ a b. IsTrue a.is_open
        → AltersWhere a b (λ rows. AreInTurn rows × IsNonDecreasingBy (λ t. t.delivery) tries.now)
        (without_events (λ d. list_any (λ n. n == d) page.now && is_past_by before tries.now d))) }
    ensures spares { SparesCommit S.Store tx.old.conn.now tx.new.conn.now }
{
    for delivery in page {
        purge_event(tx, *delivery, tries, before)?;
    }
    Ok(())
}

// Takes out this event if these attempts ended it, the last at it before this moment.
fn purge_event<S: Alter>(
    tx: &mut Transaction<'_, S>,
    delivery: Seq,
    tries: &[Tried],
    before: u64,
) -> Result<(), Error>
    ensures same_reference { IsOfSame tx.old.conn tx.new.conn }
    ensures done { Achieves S.Store tx.old.conn.now tx.new.conn.now result
        (λ a b. IsTrue a.is_open
        → AltersWhere a b (λ rows. HaveOwnNumbers rows.attempts × IsNonDecreasingBy (λ t. t.delivery) tries.now)
        (without_events (λ d. (delivery == d) && is_past_by before tries.now d))) }
    ensures spares { SparesCommit S.Store tx.old.conn.now tx.new.conn.now }
{
    if !are_past(tries_at(tries, delivery), before) {
        return Ok(());
    }
    delete_attempts(tx, delivery)?;
    delete_delivery(tx, delivery)
}

// Those of these attempts that are at this event.
fn tries_at(tries: &[Tried], delivery: Seq) -> &[Tried]
    ensures { IsNonDecreasingBy (λ t. t.delivery) tries.now
        → result.now ≡ filter (λ t. t.delivery == delivery) tries.now }
{
    let number = delivery.get();
    let from = tries.partition_point(|tried| tried.delivery.get() < number);
    let (_, rest) = tries.split_at(from);
    let count = rest.partition_point(|tried| tried.delivery.get() <= number);
    let (these, _) = rest.split_at(count);
    these
}

// Whether these attempts ended an event, the last of them before this moment.
fn are_past(tries: &[Tried], before: u64) -> bool
    ensures { result ≡ are_past before tries.now }
{
    (is_any_delivered(tries) || count_failed(tries) as u64 >= MAX_FAILURES)
        && is_last_before(tries, before)
}

fn is_any_delivered(tries: &[Tried]) -> bool
    ensures { result ≡ list_any (λ t. is_delivered_status t.status) tries.now }
{
    tries.iter().any(|tried| is_delivered(tried.status))
}

fn count_failed(tries: &[Tried]) -> usize
    ensures { result ≡ count_by (λ t. is_failed_status t.status) tries.now }
{
    tries.iter().filter(|tried| is_failed(tried.status)).count()
}

fn is_last_before(tries: &[Tried], before: u64) -> bool
    ensures { result ≡ option_map_or (λ last. nat_lt last.at before) (last_of tries.now) false }
{
    match tries.last() {
        Some(last) => last.at.seconds() < before,
        None => false,
    }
}
