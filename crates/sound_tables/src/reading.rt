//! A table that is read row by row.
ghost use Rattle.std.specs.Prelude.{◌≡◌, List, ℕ, IfOk, IfErr};
ghost use Rattle.sqlite.specs.Held.{state};
ghost use Rattle.sqlite.specs.State.{HasCleanDisk};
ghost use Rattle.spool_sql.specs.Steps.{IfClean};
ghost use Rattle.sound_tables.specs.Reading.{IsPlainText, Shows, IsReadAs, Fits, Finds, IsFault, HasTaken, Looks};

use sqlite::{Alter, Connection, Error, ErrorCode, Row, Rows};
use std::alloc::{AllocError, Global};

/// What a row of some table may show.
pub(crate) trait Reading: Drop {
    // The row shows this one.
    ghost is_shown: { Shows Self };

    /// The one that the row shows, if its values keep their rules.
    fn read(row: &Row, alloc: Global) -> Result<Option<Self>, AllocError>
        ensures { IfOk result (IsReadAs is_shown row.now) };
}

/// What the rows show that the query answers, one for each, or nothing where a row shows none. It
/// holds a few rows at a time beside what they show, and stops at the first that shows nothing.
/// Memory has no room for what a `u64` doesn't count.
pub(crate) fn read_table<S: Alter, T: Reading>(
    conn: &mut Connection<S>,
    sql: &str,
    alloc: Global,
) -> Result<Option<Vec<T>>, Error>
    requires plain { IsPlainText sql.now }
    ensures looks { Looks S.Store conn.old conn.new }
    ensures taken { IfClean S.Store conn.old conn.new
        (λ a b. IfOk result (Finds T.is_shown sql.now a b)) }
    ensures fault { IfClean S.Store conn.old conn.new (λ a b. IfErr result (IsFault sql.now a b)) }
{
    let mut found = Vec::new(alloc);
    let mut rows = conn.query(sql, &[])?;
    if collect(&mut rows, &mut found, alloc)? {
        Ok(Some(found))
    } else {
        Ok(None)
    }
}

// Takes in what the rows show, to the last of them or to one that shows nothing.
fn collect<S: Alter, T: Reading>(
    rows: &mut Rows<'_, S>,
    found: &mut Vec<T>,
    alloc: Global,
) -> Result<bool, Error>
    ensures same_reference { rows.new.conn.ghost_name ≡ rows.old.conn.ghost_name }
    ensures looks { Looks S.Store rows.old.conn.now rows.new.conn.now }
    ensures taken { IfClean S.Store rows.old.conn.now rows.new.conn.now (λ a b. IfOk result (λ all. (sql : List ℕ)
        → HasTaken S.Store T.is_shown sql rows.old.conn.now found.old.items
        → Fits T.is_shown sql a b found.new.items all)) }
    ensures fault { IfClean S.Store rows.old.conn.now rows.new.conn.now (λ a b. IfErr result (λ e. (sql : List ℕ)
        → HasTaken S.Store T.is_shown sql rows.old.conn.now found.old.items → IsFault sql a b e)) }
{
    'each: for _ in 0..u64::MAX {
        rows.advance()?;
        let Some(row) = rows.get() else {
            return Ok(true);
        };
        let Some(shown) = T::read(row, alloc)? else {
            return Ok(false);
        };
        found.push(shown)?;
    }
    Err(Error::SqliteFailure(ErrorCode::OutOfMemory))
}
