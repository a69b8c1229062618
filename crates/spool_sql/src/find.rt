//! What is looked up in the tables.
ghost use Rattle.std.specs.Prelude.{◌≡◌, length, option_map, slice_get, IsTrue, IfOk, IfErr};
ghost use Rattle.std.specs.List.{AllByRecursion};
ghost use Rattle.relay_types.specs.Values.{is_name};
ghost use Rattle.relay_types.specs.declared.limits.TheConstants.{MAX_RECORDS};
ghost use Rattle.spool_sql.specs.Readable.{IsMemory, IsRefusedFor, ShowsBelow};
ghost use Rattle.spool_sql.specs.Stored.{IsPutOf, has_pair, number_of};
ghost use Rattle.spool_sql.specs.Steps.{LeavesAll, LooksUp, IsOfSame, SparesCommit};

use crate::query::query;
use crate::seq::Seq;
use relay_types::{MAX_RECORDS, Name};
use sqlite::{Alter, Error, Row, Transaction};
use sqlite_value::value::ValueRef;

/// The number of the record that made the endpoint of this name, if the table has one.
pub fn select_put<S: Alter>(tx: &mut Transaction<'_, S>, name: &Name) -> Result<Option<Seq>, Error>
    ensures same_reference { IsOfSame tx.old.conn tx.new.conn }
    ensures unchanged { LeavesAll S.Store tx.old.conn.now tx.new.conn.now result }
    ensures found { LooksUp S.Store tx.old.conn.now tx.new.conn.now result (λ found rows. IsPutOf name.now rows found) }
    ensures named { IsTrue (is_name name.now) }
    ensures refused { IsRefusedFor S.Store tx.old.conn.now tx.new.conn.now result }
    ensures spares { SparesCommit S.Store tx.old.conn.now tx.new.conn.now }
{
    let rows = query(
        tx,
        "SELECT put FROM endpoints WHERE name = ?1",
        &[ValueRef::Text(name.as_bytes())],
    )?;
    first_seq(&rows)
}

// The number that the first row shows.
pub(crate) fn first_seq(rows: &[Row]) -> Result<Option<Seq>, Error>
    ensures value { IfOk result (λ found. found ≡ option_map number_of (slice_get rows.now 0)) }
    ensures refused { IfErr result (λ error. AllByRecursion (ShowsBelow MAX_RECORDS) rows.now → IsMemory error) }
{
    let Some(row) = rows.first() else {
        return Ok(None);
    };
    Ok(Some(seq_of(row)?))
}

// The number that the row shows.
pub(crate) fn seq_of(row: &Row) -> Result<Seq, Error>
    ensures value { IfOk result (λ seq. seq ≡ number_of row.now) }
    ensures refused { IfErr result (λ error. ShowsBelow MAX_RECORDS row.now → IsMemory error) }
{
    let number: u64 = row.get(0)?;
    if number >= MAX_RECORDS {
        return Err(Error::IntegralValueOutOfRange(0));
    }
    Ok(Seq::of(number))
}

/// How many endpoints there are.
pub fn count_endpoints<S: Alter>(tx: &mut Transaction<'_, S>) -> Result<usize, Error>
    ensures same_reference { IsOfSame tx.old.conn tx.new.conn }
    ensures unchanged { LeavesAll S.Store tx.old.conn.now tx.new.conn.now result }
    ensures counted { LooksUp S.Store tx.old.conn.now tx.new.conn.now result
        (λ count rows. count ≡ length rows.endpoints) }
    ensures refused { IsRefusedFor S.Store tx.old.conn.now tx.new.conn.now result }
    ensures spares { SparesCommit S.Store tx.old.conn.now tx.new.conn.now }
{
    let rows = query(tx, "SELECT put FROM endpoints", &[])?;
    Ok(rows.len())
}

/// Whether there is a row of this topic and the endpoint that the record with number `endpoint` made.
pub fn has_topic<S: Alter>(
    tx: &mut Transaction<'_, S>,
    topic: &Name,
    endpoint: Seq,
) -> Result<bool, Error>
    ensures same_reference { IsOfSame tx.old.conn tx.new.conn }
    ensures unchanged { LeavesAll S.Store tx.old.conn.now tx.new.conn.now result }
    ensures found { LooksUp S.Store tx.old.conn.now tx.new.conn.now result
        (λ found rows. found ≡ has_pair rows topic.now endpoint) }
    ensures refused { IsRefusedFor S.Store tx.old.conn.now tx.new.conn.now result }
    ensures spares { SparesCommit S.Store tx.old.conn.now tx.new.conn.now }
{
    let rows = query(
        tx,
        "SELECT endpoint FROM topics WHERE topic = ?1 AND endpoint = ?2",
        &[ValueRef::Text(topic.as_bytes()), endpoint.value()],
    )?;
    Ok(!rows.is_empty())
}

/// How many rows there are of a topic and an endpoint.
pub fn count_topics<S: Alter>(tx: &mut Transaction<'_, S>) -> Result<usize, Error>
    ensures same_reference { IsOfSame tx.old.conn tx.new.conn }
    ensures unchanged { LeavesAll S.Store tx.old.conn.now tx.new.conn.now result }
    ensures counted { LooksUp S.Store tx.old.conn.now tx.new.conn.now result
        (λ count rows. count ≡ length rows.topics) }
    ensures refused { IsRefusedFor S.Store tx.old.conn.now tx.new.conn.now result }
    ensures spares { SparesCommit S.Store tx.old.conn.now tx.new.conn.now }
{
    let rows = query(tx, "SELECT endpoint FROM topics", &[])?;
    Ok(rows.len())
}
