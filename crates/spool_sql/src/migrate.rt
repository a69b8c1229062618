//! What tables of version 1 lack: the table of topics, and version 2 in `meta`.
ghost use Rattle.std.specs.Prelude.{pos, [], ◌∷◌, codes};
ghost use Rattle.sqlite.specs.declared.types.Value.TheVariants.{Int};
ghost use Rattle.spool_sql.specs.Tables.{first_schema, relay_schema, topics_text};
ghost use Rattle.spool_sql.specs.Steps.{Achieves, AddsTopics, Grows, SetsVersion, IsOfSame, IsRefusedOf, SparesCommit};

use crate::value::int;
use sqlite::{Alter, Error, Transaction};

/// Makes the table of topics, without a row, beside the five tables of version 1.
///
/// If a table, an index or a view has its name already, it is refused as `NameTaken`.
pub fn create_topics<S: Alter>(tx: &mut Transaction<'_, S>) -> Result<(), Error>
    ensures same_reference { IsOfSame tx.old.conn tx.new.conn }
    ensures grows { Achieves S.Store tx.old.conn.now tx.new.conn.now result (Grows first_schema relay_schema) }
    ensures done { Achieves S.Store tx.old.conn.now tx.new.conn.now result AddsTopics }
    ensures refused { IsRefusedOf S.Store tx.old.conn.now tx.new.conn.now result topics_text [] }
    ensures spares { SparesCommit S.Store tx.old.conn.now tx.new.conn.now }
{
    tx.execute(
        "CREATE TABLE topics(topic TEXT NOT NULL, \
         endpoint INTEGER NOT NULL REFERENCES endpoints(put), \
         subscribed INTEGER NOT NULL, set_by INTEGER NOT NULL, \
         PRIMARY KEY(topic, endpoint)) STRICT",
        &[],
    )?;
    Ok(())
}

/// Sets the version of the tables to 2.
pub fn update_version<S: Alter>(tx: &mut Transaction<'_, S>) -> Result<(), Error>
    ensures same_reference { IsOfSame tx.old.conn tx.new.conn }
    ensures done { Achieves S.Store tx.old.conn.now tx.new.conn.now result SetsVersion }
    ensures refused { IsRefusedOf S.Store tx.old.conn.now tx.new.conn.now result
        (codes "UPDATE meta SET version = ?1")
        (Int (pos 2) ∷ []) }
    ensures spares { SparesCommit S.Store tx.old.conn.now tx.new.conn.now }
{
    tx.execute("UPDATE meta SET version = ?1", &[int(2)])?;
    Ok(())
}
