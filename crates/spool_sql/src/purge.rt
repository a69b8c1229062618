//! What a purge looks up and takes out.
ghost use Rattle.std.specs.Prelude.{◌≡◌, pos, [], ◌∷◌, codes, map, IfOk, IfErr};
ghost use Rattle.std.specs.List.{AllByRecursion};
ghost use Rattle.sqlite.specs.declared.types.Value.TheVariants.{Int};
ghost use Rattle.relay_types.specs.declared.limits.TheConstants.{MAX_RECORDS};
ghost use Rattle.spool_sql.specs.Readable.{IsMemory, IsRefusedFor, ShowsBelow, ShowsTried};
ghost use Rattle.spool_sql.specs.Stored.{AreTriesBetween, HaveOwnNumbers, IsPage, number_of, tried_in};
ghost use Rattle.spool_sql.specs.Stored.{without_attempts, without_delivery};
ghost use Rattle.spool_sql.specs.Steps.{Changes, ChangesWhere, IsOfSame, IsRefusedOf, LeavesAll, LooksUp, SparesCommit};

use crate::find::seq_of;
use crate::query::query;
use crate::row::Tried;
use crate::seq::Seq;
use relay_types::{MAX_RECORDS, Moment};
use sqlite::{Alter, Error, Row, Transaction};
use std::alloc::Global;

/// The numbers of the first 256 events with numbers from `from` on, in order.
pub fn select_events<S: Alter>(tx: &mut Transaction<'_, S>, from: Seq) -> Result<Vec<Seq>, Error>
    ensures same_reference { IsOfSame tx.old.conn tx.new.conn }
    ensures unchanged { LeavesAll S.Store tx.old.conn.now tx.new.conn.now result }
    ensures found { LooksUp S.Store tx.old.conn.now tx.new.conn.now result
        (λ page rows. IsPage (λ n. n) from (map (λ d. d.seq) rows.deliveries) page.items) }
    ensures refused { IsRefusedFor S.Store tx.old.conn.now tx.new.conn.now result }
    ensures spares { SparesCommit S.Store tx.old.conn.now tx.new.conn.now }
{
    let rows = query(
        tx,
        "SELECT seq FROM deliveries WHERE seq >= ?1 ORDER BY seq LIMIT 256",
        &[from.value()],
    )?;
    read_seqs(&rows, *rows.allocator())
}

// The number that each row shows.
fn read_seqs(rows: &[Row], alloc: Global) -> Result<Vec<Seq>, Error>
    ensures value { IfOk result (λ found. found.items ≡ map number_of rows.now) }
    ensures refused { IfErr result (λ error. AllByRecursion (ShowsBelow MAX_RECORDS) rows.now → IsMemory error) }
{
    let mut found = Vec::with_capacity(alloc, rows.len())?;
    for row in rows {
        found.push(seq_of(row)?)?;
    }
    Ok(found)
}

/// What came of each attempt at the events with numbers from `first` to `last`: in the order of the events, and at each
/// in the order of the attempts.
pub fn select_tries<S: Alter>(
    tx: &mut Transaction<'_, S>,
    first: Seq,
    last: Seq,
) -> Result<Vec<Tried>, Error>
    ensures same_reference { IsOfSame tx.old.conn tx.new.conn }
    ensures unchanged { LeavesAll S.Store tx.old.conn.now tx.new.conn.now result }
    ensures found { LooksUp S.Store tx.old.conn.now tx.new.conn.now result
        (λ found rows. AreTriesBetween first last rows found.items) }
    ensures refused { IsRefusedFor S.Store tx.old.conn.now tx.new.conn.now result }
    ensures spares { SparesCommit S.Store tx.old.conn.now tx.new.conn.now }
{
    let rows = query(
        tx,
        "SELECT delivery, status, at FROM attempts WHERE delivery >= ?1 AND delivery <= ?2 \
         ORDER BY delivery, number",
        &[first.value(), last.value()],
    )?;
    read_tries(&rows, *rows.allocator())
}

// What each row shows of an attempt.
fn read_tries(rows: &[Row], alloc: Global) -> Result<Vec<Tried>, Error>
    ensures value { IfOk result (λ found. found.items ≡ map tried_in rows.now) }
    ensures refused { IfErr result (λ error. AllByRecursion ShowsTried rows.now → IsMemory error) }
{
    let mut found = Vec::with_capacity(alloc, rows.len())?;
    for row in rows {
        found.push(read_tried(row)?)?;
    }
    Ok(found)
}

// What the row shows of an attempt.
fn read_tried(row: &Row) -> Result<Tried, Error>
    ensures value { IfOk result (λ tried. tried ≡ tried_in row.now) }
    ensures refused { IfErr result (λ error. ShowsTried row.now → IsMemory error) }
{
    let number: u64 = row.get(0)?;
    if number >= MAX_RECORDS {
        return Err(Error::IntegralValueOutOfRange(0));
    }
    let status: u32 = row.get(1)?;
    let Ok(status) = u16::try_from(status) else {
        return Err(Error::IntegralValueOutOfRange(1));
    };
    let seconds: u64 = row.get(2)?;
    match Moment::of(seconds) {
        Ok(at) => Ok(Tried {
            delivery: Seq::of(number),
            status,
            at,
        }),
        Err(_) => Err(Error::IntegralValueOutOfRange(2)),
    }
}

/// Takes out the attempts at this event. Their own numbers must differ.
pub fn delete_attempts<S: Alter>(tx: &mut Transaction<'_, S>, delivery: Seq) -> Result<(), Error>
    ensures same_reference { IsOfSame tx.old.conn tx.new.conn }
    ensures done { ChangesWhere S.Store tx.old.conn.now tx.new.conn.now result
        (λ rows. HaveOwnNumbers rows.attempts) (without_attempts delivery) }
    ensures refused { IsRefusedOf S.Store tx.old.conn.now tx.new.conn.now result
        (codes "DELETE FROM attempts WHERE delivery = ?1")
        (Int (pos delivery) ∷ []) }
    ensures spares { SparesCommit S.Store tx.old.conn.now tx.new.conn.now }
{
    tx.execute(
        "DELETE FROM attempts WHERE delivery = ?1",
        &[delivery.value()],
    )?;
    Ok(())
}

/// Takes out this event, whose attempts are gone.
pub fn delete_delivery<S: Alter>(tx: &mut Transaction<'_, S>, seq: Seq) -> Result<(), Error>
    ensures same_reference { IsOfSame tx.old.conn tx.new.conn }
    ensures done { Changes S.Store tx.old.conn.now tx.new.conn.now result (without_delivery seq) }
    ensures refused { IsRefusedOf S.Store tx.old.conn.now tx.new.conn.now result
        (codes "DELETE FROM deliveries WHERE seq = ?1")
        (Int (pos seq) ∷ []) }
    ensures spares { SparesCommit S.Store tx.old.conn.now tx.new.conn.now }
{
    tx.execute("DELETE FROM deliveries WHERE seq = ?1", &[seq.value()])?;
    Ok(())
}
