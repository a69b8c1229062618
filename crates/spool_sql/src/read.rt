//! The rows of a table, page by page.
ghost use Rattle.std.specs.Prelude.{◌≡◌, ℕ, pos, [], ◌∷◌, map, option_map, slice_get, Some, IfOk, IfErr};
ghost use Rattle.std.specs.List.{AllByRecursion};
ghost use Rattle.sqlite.specs.declared.types.Value.TheVariants.{Int};
ghost use Rattle.spool_sql.specs.Readable.{AreRowsRefusedFor, IsMemory, IsMemoryFault, IsRefusedFor};
ghost use Rattle.spool_sql.specs.Stored.{IsPage, AreSecretsOf, number_of, endpoint_of, delivery_of, attempt_of};
ghost use Rattle.spool_sql.specs.Stored.{topic_of};
ghost use Rattle.spool_sql.specs.Steps.{LeavesAll, LooksUp, IsOfSame, SparesCommit};

use crate::from_row::FromRow;
use crate::query::query;
use crate::row::{AttemptRow, DeliveryRow, EndpointRow, RowFault, TopicRow};
use crate::seq::Seq;
use relay_types::Secret;
use sqlite::{Alter, Error, Row, Transaction};
use std::alloc::Global;

/// How many records the tables hold.
pub fn select_records<S: Alter>(tx: &mut Transaction<'_, S>) -> Result<u64, Error>
    ensures same_reference { IsOfSame tx.old.conn tx.new.conn }
    ensures unchanged { LeavesAll S.Store tx.old.conn.now tx.new.conn.now result }
    ensures found { LooksUp S.Store tx.old.conn.now tx.new.conn.now result (λ count rows. count ≡ rows.records) }
    ensures refused { IsRefusedFor S.Store tx.old.conn.now tx.new.conn.now result }
    ensures spares { SparesCommit S.Store tx.old.conn.now tx.new.conn.now }
{
    let rows = query(tx, "SELECT records FROM meta", &[])?;
    first_number(&rows)
}

// The number that the first row shows.
fn first_number(rows: &[Row]) -> Result<u64, Error>
    ensures value { IfOk result (λ number. option_map number_of (slice_get rows.now 0) ≡ Some number) }
    ensures refused { IfErr result (λ error. (n : ℕ) → rows.now ≡ (Int (pos n) ∷ []) ∷ [] → IsMemory error) }
{
    match rows.first() {
        Some(row) => row.get(0),
        None => Err(Error::QueryReturnedNoRows),
    }
}

/// The first 256 endpoints with numbers from `from` on, in the order of their numbers.
pub fn select_endpoints<S: Alter>(
    tx: &mut Transaction<'_, S>,
    from: Seq,
    alloc: Global,
) -> Result<Vec<EndpointRow>, RowFault>
    ensures same_reference { IsOfSame tx.old.conn tx.new.conn }
    ensures unchanged { LeavesAll S.Store tx.old.conn.now tx.new.conn.now result }
    ensures found { LooksUp S.Store tx.old.conn.now tx.new.conn.now result
        (λ page rows. IsPage (λ e. e.put) from rows.endpoints (map endpoint_of page.items)) }
    ensures refused { AreRowsRefusedFor S.Store tx.old.conn.now tx.new.conn.now result }
    ensures spares { SparesCommit S.Store tx.old.conn.now tx.new.conn.now }
{
    let rows = query(
        tx,
        "SELECT put, name, url, max, enabled, enabled_by, secrets_by FROM endpoints \
         WHERE put >= ?1 ORDER BY put LIMIT 256",
        &[from.value()],
    )?;
    read_rows(&rows, alloc)
}

/// The secrets of the endpoint that the record with number `endpoint` made, the newest first.
pub fn select_secrets<S: Alter>(
    tx: &mut Transaction<'_, S>,
    endpoint: Seq,
    alloc: Global,
) -> Result<Vec<Secret>, RowFault>
    ensures same_reference { IsOfSame tx.old.conn tx.new.conn }
    ensures unchanged { LeavesAll S.Store tx.old.conn.now tx.new.conn.now result }
    ensures found { LooksUp S.Store tx.old.conn.now tx.new.conn.now result
        (λ found rows. AreSecretsOf endpoint rows found.items) }
    ensures refused { AreRowsRefusedFor S.Store tx.old.conn.now tx.new.conn.now result }
    ensures spares { SparesCommit S.Store tx.old.conn.now tx.new.conn.now }
{
    let rows = query(
        tx,
        "SELECT secret FROM secrets WHERE endpoint = ?1 ORDER BY place",
        &[endpoint.value()],
    )?;
    read_rows(&rows, alloc)
}

/// The first 256 events with numbers from `from` on, in the order of their numbers.
pub fn select_deliveries<S: Alter>(
    tx: &mut Transaction<'_, S>,
    from: Seq,
    alloc: Global,
) -> Result<Vec<DeliveryRow>, RowFault>
    ensures same_reference { IsOfSame tx.old.conn tx.new.conn }
    ensures unchanged { LeavesAll S.Store tx.old.conn.now tx.new.conn.now result }
    ensures found { LooksUp S.Store tx.old.conn.now tx.new.conn.now result
        (λ page rows. IsPage (λ d. d.seq) from rows.deliveries (map delivery_of page.items)) }
    ensures refused { AreRowsRefusedFor S.Store tx.old.conn.now tx.new.conn.now result }
    ensures spares { SparesCommit S.Store tx.old.conn.now tx.new.conn.now }
{
    let rows = query(
        tx,
        "SELECT seq, endpoint, id, at, body FROM deliveries WHERE seq >= ?1 ORDER BY seq LIMIT 256",
        &[from.value()],
    )?;
    read_rows(&rows, alloc)
}

/// The first 256 attempts with numbers from `from` on, in the order of their numbers.
pub fn select_attempts<S: Alter>(
    tx: &mut Transaction<'_, S>,
    from: Seq,
    alloc: Global,
) -> Result<Vec<AttemptRow>, RowFault>
    ensures same_reference { IsOfSame tx.old.conn tx.new.conn }
    ensures unchanged { LeavesAll S.Store tx.old.conn.now tx.new.conn.now result }
    ensures found { LooksUp S.Store tx.old.conn.now tx.new.conn.now result
        (λ page rows. IsPage (λ a. a.seq) from rows.attempts (map attempt_of page.items)) }
    ensures refused { AreRowsRefusedFor S.Store tx.old.conn.now tx.new.conn.now result }
    ensures spares { SparesCommit S.Store tx.old.conn.now tx.new.conn.now }
{
    let rows = query(
        tx,
        "SELECT seq, delivery, number, status, at FROM attempts WHERE seq >= ?1 ORDER BY seq LIMIT 256",
        &[from.value()],
    )?;
    read_rows(&rows, alloc)
}

/// The first 256 topics of endpoints that records with numbers from `from` on decided, in the order of these numbers.
pub fn select_topics<S: Alter>(
    tx: &mut Transaction<'_, S>,
    from: Seq,
    alloc: Global,
) -> Result<Vec<TopicRow>, RowFault>
    ensures same_reference { IsOfSame tx.old.conn tx.new.conn }
    ensures unchanged { LeavesAll S.Store tx.old.conn.now tx.new.conn.now result }
    ensures found { LooksUp S.Store tx.old.conn.now tx.new.conn.now result
        (λ page rows. IsPage (λ t. t.set_by) from rows.topics (map topic_of page.items)) }
    ensures refused { AreRowsRefusedFor S.Store tx.old.conn.now tx.new.conn.now result }
    ensures spares { SparesCommit S.Store tx.old.conn.now tx.new.conn.now }
{
    let rows = query(
        tx,
        "SELECT topic, endpoint, subscribed, set_by FROM topics WHERE set_by >= ?1 ORDER BY set_by LIMIT 256",
        &[from.value()],
    )?;
    read_rows(&rows, alloc)
}

// What the rows show, one value for each.
fn read_rows<T: FromRow>(rows: &[Row], alloc: Global) -> Result<Vec<T>, RowFault>
    ensures value { IfOk result (λ found. map T.of found.items ≡ map T.in_row rows.now) }
    ensures refused { IfErr result (λ fault. AllByRecursion T.Shows rows.now → IsMemoryFault fault) }
{
    let mut found = Vec::with_capacity(alloc, rows.len()).map_err(Error::from)?;
    for row in rows {
        found.push(T::read(row, alloc)?).map_err(Error::from)?;
    }
    Ok(found)
}
