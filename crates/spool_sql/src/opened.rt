//! What a connection tells of its store.
ghost use Rattle.std.specs.Prelude.{◌≡◌, ◌↔◌, false, IsTrue};
ghost use Rattle.sqlite.specs.Held.{state};
ghost use Rattle.spool_sql.specs.Steps.{FailsAsStore, LeavesAll, Reopens, IsOfSame, SparesCommit, SurvivesAs};
ghost use Rattle.spool_sql.specs.Tables.{no_schema};

use sqlite::{Alter, Connection, Error, Transaction};

/// Whether the store has no table, no index and no view yet.
///
/// A store that is opened over what a stop left of the relay's tables has these tables.
pub fn is_empty<S: Alter>(conn: &Connection<S>) -> bool
    ensures value { IsTrue result ↔ ((state S.Store conn.now).now.schema ≡ no_schema) }
    ensures reopened { Reopens (state S.Store conn.now) }
{
    let schema = conn.schema();
    schema.tables.is_empty() && schema.indexes.is_empty() && schema.views.is_empty()
}

/// Answers `Ok` only where the store is still open, and changes nothing; an error says why it can't tell.
///
/// It takes no memory once the connection has compiled its statement, as behind `prepare_probe`, and the schema stayed.
pub fn probe<S: Alter>(conn: &mut Connection<S>) -> Result<(), Error>
    requires settled { conn.old.in_transaction ≡ false }
    ensures same { LeavesAll S.Store conn.old conn.new result }
    ensures failed { FailsAsStore S.Store conn.old conn.new result }
    ensures mode { conn.new.in_transaction ≡ false }
    ensures survives { SurvivesAs S.Store conn.old conn.new (λ _ _. ⊥) }
{
    // It has no rows, and an open store refuses it for that before it does anything.
    let Err(error) = conn.query_all("ROLLBACK", &[]) else {
        return Ok(());
    };
    match error {
        Error::InvalidQuery => Ok(()),
        _ => Err(error),
    }
}

/// Has the connection compile the statement of `probe`, which it keeps until the schema changes.
pub fn prepare_probe<S: Alter>(tx: &mut Transaction<'_, S>) -> Result<(), Error>
    ensures same_reference { IsOfSame tx.old.conn tx.new.conn }
    ensures same { LeavesAll S.Store tx.old.conn.now tx.new.conn.now result }
    ensures spares { SparesCommit S.Store tx.old.conn.now tx.new.conn.now }
{
    tx.prepare("ROLLBACK")?;
    Ok(())
}
