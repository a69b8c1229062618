//! What is looked up of one event.
ghost use Rattle.std.specs.Prelude.{◌≡◌, ◌^◌, map, IfOk, IfErr};
ghost use Rattle.std.specs.List.{AllByRecursion};
ghost use Rattle.spool_sql.specs.Readable.{IsMemory, IsRefusedFor, ShowsBelow};
ghost use Rattle.spool_sql.specs.Stored.{IsEndpointOf, AreStatusesOf, number_of};
ghost use Rattle.spool_sql.specs.Steps.{LeavesAll, LooksUp, IsOfSame, SparesCommit};

use crate::find::first_seq;
use crate::query::query;
use crate::seq::Seq;
use sqlite::{Alter, Error, Row, Transaction};
use std::alloc::Global;

/// The number of the record that made the endpoint of this event, if the record with number `delivery` took one in.
pub fn select_endpoint<S: Alter>(
    tx: &mut Transaction<'_, S>,
    delivery: Seq,
) -> Result<Option<Seq>, Error>
    ensures same_reference { IsOfSame tx.old.conn tx.new.conn }
    ensures unchanged { LeavesAll S.Store tx.old.conn.now tx.new.conn.now result }
    ensures found { LooksUp S.Store tx.old.conn.now tx.new.conn.now result
        (λ found rows. IsEndpointOf delivery rows found) }
    ensures refused { IsRefusedFor S.Store tx.old.conn.now tx.new.conn.now result }
    ensures spares { SparesCommit S.Store tx.old.conn.now tx.new.conn.now }
{
    let rows = query(
        tx,
        "SELECT endpoint FROM deliveries WHERE seq = ?1",
        &[delivery.value()],
    )?;
    first_seq(&rows)
}

/// The status of each attempt at this event, in any order: 0 where none came.
pub fn select_statuses<S: Alter>(
    tx: &mut Transaction<'_, S>,
    delivery: Seq,
) -> Result<Vec<u16>, Error>
    ensures same_reference { IsOfSame tx.old.conn tx.new.conn }
    ensures unchanged { LeavesAll S.Store tx.old.conn.now tx.new.conn.now result }
    ensures found { LooksUp S.Store tx.old.conn.now tx.new.conn.now result
        (λ found rows. AreStatusesOf delivery rows found.items) }
    ensures refused { IsRefusedFor S.Store tx.old.conn.now tx.new.conn.now result }
    ensures spares { SparesCommit S.Store tx.old.conn.now tx.new.conn.now }
{
    let rows = query(
        tx,
        "SELECT status FROM attempts WHERE delivery = ?1",
        &[delivery.value()],
    )?;
    read_statuses(&rows, *rows.allocator())
}

// The status that each row shows.
fn read_statuses(rows: &[Row], alloc: Global) -> Result<Vec<u16>, Error>
    ensures value { IfOk result (λ found. found.items ≡ map number_of rows.now) }
    ensures refused { IfErr result (λ error. AllByRecursion (ShowsBelow (2 ^ 16)) rows.now → IsMemory error) }
{
    let mut found = Vec::with_capacity(alloc, rows.len())?;
    for row in rows {
        found.push(read_status(row)?)?;
    }
    Ok(found)
}

// The status that the row shows.
fn read_status(row: &Row) -> Result<u16, Error>
    ensures value { IfOk result (λ status. status ≡ number_of row.now) }
    ensures refused { IfErr result (λ error. ShowsBelow (2 ^ 16) row.now → IsMemory error) }
{
    let number: u64 = row.get(0)?;
    u16::try_from(number).map_err(|_| Error::IntegralValueOutOfRange(0))
}
