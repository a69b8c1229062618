//! The migration from version 1 to version 2.
ghost use Rattle.std.specs.Prelude.{◌≡◌, false, Err, IfErr, IfOk, IsTrue, MatchResult, OnErr, OnOk};
ghost use Rattle.sqlite.specs.Held.{state};
ghost use Rattle.sqlite.specs.State.{HasCleanDisk};
ghost use Rattle.relay_types.specs.Rows.{Rows};
ghost use Rattle.spool_sql.specs.Steps.{Achieves, IfClean, IsOfSame, Migrates, SparesCommit, Stands, SurvivesAs};
ghost use Rattle.spool_sql.specs.Stored.{IsFirstTables};
ghost use Rattle.spool_sql.specs.Tables.{IsOwn, first_schema};
ghost use Rattle.sound_tables.specs.Checks.{AreSoundFirstTables, HasSound};
ghost use Rattle.sound_tables.specs.Keys.{has_first_tables, has_meta};
ghost use Rattle.spool.specs.Adopting.{FailsIfOfStore, HaveFirstHistory, HaveHistory, IsForeign, IsOfStore};
ghost use Rattle.spool.specs.Writing.{IsCause};
ghost use Rattle.spool.specs.Migrating.{AreMigrated, IsFirstUnmigrated, IsMigratedTo, IsUnmade, IsUnmadeFor};
ghost use Rattle.spool.specs.Migrating.{IsUnmigrated, LeavesMigrated, MayCommit, MayMigrate, Migrated, has_topics};
ghost use Rattle.spool.specs.Opening.{IsBack};

use crate::adopt::{adopt_first_tables, adopt_tables};
use crate::create::fault_of;
use crate::faults::OpenFault;
use spool_sql::{create_topics, prepare_probe, update_version};
use sqlite::{Alter, Connection, Error, Transaction};
use sqlite_catalog::layout::is_used;
use sqlite_schema::schema::Schema;
use std::alloc::Global;

/// Checks the tables in the store, migrates them if they are of version 1, and returns the number of their records.
pub(crate) fn migrate_tables<S: Alter>(
    conn: &mut Connection<S>,
    alloc: Global,
) -> Result<u64, OpenFault>
    requires { conn.old.in_transaction ≡ false }
    ensures ours { has_meta (state S.Store conn.old).now.schema ≡ false → MatchResult result (λ _. ⊥) IsForeign }
    ensures foreign { has_meta (state S.Store conn.old).now.schema ≡ false
        → IfClean S.Store conn.old conn.new (λ _ b. IfErr result (FailsIfOfStore b)) }
    ensures whole { IfClean S.Store conn.old conn.new
        (λ a _. OnOk result (IsTrue (has_first_tables a.now.schema))) }
    ensures migrated { IfClean S.Store conn.old conn.new
        (λ a b. IsOwn a.now.schema → IfOk result (AreMigrated a b)) }
    ensures refused { IfClean S.Store conn.old conn.new
        (λ a b. IsOwn a.now.schema → IfErr result (IsUnmigrated a b)) }
    ensures sound { IfClean S.Store conn.old conn.new (λ a b. HaveHistory a.now → IfErr result (IsOfStore a b)) }
    ensures first { IfClean S.Store conn.old conn.new (λ a b. HaveFirstHistory a.now → IfErr result (IsUnmade a b)) }
    ensures left { IfClean S.Store conn.old conn.new
        (λ a b. MatchResult result (λ _. MayMigrate a b) (LeavesMigrated a b)) }
    ensures back { IfClean S.Store conn.old conn.new (λ a b. OnErr result (IsTrue b.is_open → IsBack a b)) }
    ensures clean { IfClean S.Store conn.old conn.new (λ a _. HasCleanDisk a) }
    ensures mode { conn.new.in_transaction ≡ false }
    ensures survives { SurvivesAs S.Store conn.old conn.new Migrated }
{
    match adopt_tables(conn, alloc) {
        Ok(records) => Ok(records),
        Err(fault) => {
            if fault.is_old() {
                return migrate_first_tables(conn, alloc);
            }
            Err(fault)
        }
    }
}

// The same for tables of version 1.
fn migrate_first_tables<S: Alter>(conn: &mut Connection<S>, alloc: Global) -> Result<u64, OpenFault>
    requires { conn.old.in_transaction ≡ false }
    ensures ours { has_meta (state S.Store conn.old).now.schema ≡ false → MatchResult result (λ _. ⊥) IsForeign }
    ensures foreign { has_meta (state S.Store conn.old).now.schema ≡ false
        → IfClean S.Store conn.old conn.new (λ _ b. IfErr result (FailsIfOfStore b)) }
    ensures whole { IfClean S.Store conn.old conn.new
        (λ a _. OnOk result (IsTrue (has_first_tables a.now.schema))) }
    ensures found { IfClean S.Store conn.old conn.new
        (λ a _. a.now.schema ≡ first_schema → IfOk result (HasSound AreSoundFirstTables a.now)) }
    ensures made { IfClean S.Store conn.old conn.new (λ a b. OnOk result (IsMigratedTo a b)) }
    ensures free { IfClean S.Store conn.old conn.new
        (λ a _. OnOk result (has_topics a.now.schema ≡ false)) }
    ensures refused { IfClean S.Store conn.old conn.new
        (λ a b. IsOwn a.now.schema → IfErr result (IsFirstUnmigrated a b)) }
    ensures first { IfClean S.Store conn.old conn.new (λ a b. HaveFirstHistory a.now → IfErr result (IsUnmade a b)) }
    ensures left { IfClean S.Store conn.old conn.new
        (λ a b. MatchResult result (λ _. MayMigrate a b) (LeavesMigrated a b)) }
    ensures back { IfClean S.Store conn.old conn.new (λ a b. OnErr result (IsTrue b.is_open → IsBack a b)) }
    ensures clean { IfClean S.Store conn.old conn.new (λ a _. HasCleanDisk a) }
    ensures mode { conn.new.in_transaction ≡ false }
    ensures survives { SurvivesAs S.Store conn.old conn.new Migrated }
{
    let records = adopt_first_tables(conn, alloc)?;
    add_topics(conn)?;
    Ok(records)
}

// Makes the table of topics and sets the version, or reports why it couldn't.
fn add_topics<S: Alter>(conn: &mut Connection<S>) -> Result<(), OpenFault>
    requires { conn.old.in_transaction ≡ false }
    ensures made { IfClean S.Store conn.old conn.new (λ a b. OnOk result (IsMigratedTo a b)) }
    ensures free { OnOk result (has_topics (state S.Store conn.old).now.schema ≡ false) }
    ensures cause { IfClean S.Store conn.old conn.new (λ a b. IfErr result (IsUnmadeFor a b)) }
    ensures left { IfClean S.Store conn.old conn.new MayCommit }
    ensures untouched { result ≡ Err OpenFault.NotOurs → conn.new ≡ conn.old }
    ensures undone { IfClean S.Store conn.old conn.new
        (λ a b. OnErr result (IsTrue b.is_open → a.now ≡ a.committed → IsBack a b)) }
    ensures clean { IfClean S.Store conn.old conn.new (λ a _. HasCleanDisk a) }
    ensures mode { conn.new.in_transaction ≡ false }
    ensures survives { SurvivesAs S.Store conn.old conn.new Migrated }
{
    if has_topics(conn.schema()) {
        return Err(OpenFault::NotOurs);
    }
    match add_in_transaction(conn) {
        Ok(()) => Ok(()),
        Err(error) => Err(fault_of(conn, error)),
    }
}

// Whether something has the name of the table of topics, or of its index.
fn has_topics(schema: &Schema) -> bool
    ensures { result ≡ has_topics schema.now }
{
    is_used(schema, b"topics") || is_used(schema, b"sqlite_autoindex_topics_1")
}

// Makes the table and sets the version, in one transaction.
fn add_in_transaction<S: Alter>(conn: &mut Connection<S>) -> Result<(), Error>
    requires { conn.old.in_transaction ≡ false }
    ensures done { IfClean S.Store conn.old conn.new
        (λ a b. OnOk result ((rows : Rows) → IsFirstTables a.now rows → Stands b rows)) }
    ensures undone { IfClean S.Store conn.old conn.new (λ a b. OnErr result (IsTrue b.is_open → IsBack a b)) }
    ensures was_open { IfClean S.Store conn.old conn.new (λ a b. IsTrue b.is_open → IsTrue a.is_open) }
    ensures cause { IfClean S.Store conn.old conn.new (λ a b. IfErr result (IsCause a b)) }
    ensures mode { conn.new.in_transaction ≡ false }
    ensures survives { SurvivesAs S.Store conn.old conn.new Migrated }
{
    let mut tx = conn.transaction();
    write_topics(&mut tx)?;
    tx.commit()
}

// The statements of a migration. It also compiles the statement of `probe`.
fn write_topics<S: Alter>(tx: &mut Transaction<'_, S>) -> Result<(), Error>
    ensures same_reference { IsOfSame tx.old.conn tx.new.conn }
    ensures done { Achieves S.Store tx.old.conn.now tx.new.conn.now result Migrates }
    ensures spares { SparesCommit S.Store tx.old.conn.now tx.new.conn.now }
{
    create_topics(tx)?;
    update_version(tx)?;
    prepare_probe(tx)
}
