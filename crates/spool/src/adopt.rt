//! The check of tables that are in the store already.
ghost use Rattle.std.specs.Prelude.{◌≡◌, ◌⊎◌, false, Err, IfOk, IfErr, IsErr, IsTrue, MatchResult, OnOk};
ghost use Rattle.sqlite.specs.Held.{state};
ghost use Rattle.sqlite.specs.State.{HasCleanDisk, IsRolledBack, IsUnchanged};
ghost use Rattle.spool_sql.specs.Steps.{IfClean, SurvivesAs};
ghost use Rattle.spool_sql.specs.Tables.{IsOwn, first_schema, relay_schema};
ghost use Rattle.sound_tables.specs.Checks.{AreSoundFirstTables, HasSound};
ghost use Rattle.sound_tables.specs.Keys.{has_first_tables, has_meta, has_tables};
ghost use Rattle.spool.specs.Adopting.{AreAdopted, FailsIfOfStore, HaveFirstHistory, HaveHistory, IsForeign};
ghost use Rattle.spool.specs.Adopting.{IsOfStore, IsOldOrOfStore, IsOnlyRead, IsUnadopted, LeavesRead, TellsCheck};
ghost use Rattle.spool.specs.Migrating.{IsFirstUnadopted};
ghost use Rattle.spool.specs.Opening.{IsBack};

use crate::faults::OpenFault;
use sound_tables::{TableFault, check_first_tables, check_tables};
use spool_sql::probe;
use sqlite::{Alter, Connection};
use std::alloc::Global;

/// Checks the tables in the store, and returns the number of their records.
pub(crate) fn adopt_tables<S: Alter>(
    conn: &mut Connection<S>,
    alloc: Global,
) -> Result<u64, OpenFault>
    requires { conn.old.in_transaction ≡ false }
    ensures ours { has_meta (state S.Store conn.old).now.schema ≡ false → MatchResult result (λ _. ⊥) IsForeign }
    ensures foreign { has_meta (state S.Store conn.old).now.schema ≡ false
        → IfClean S.Store conn.old conn.new (λ _ b. IfErr result (FailsIfOfStore b)) }
    ensures whole { has_tables (state S.Store conn.old).now.schema ≡ false → IsErr result }
    ensures adopted { IfClean S.Store conn.old conn.new
        (λ a b. a.now.schema ≡ relay_schema → IfOk result (AreAdopted a b)) }
    ensures refused { IfClean S.Store conn.old conn.new
        (λ a b. IsOwn a.now.schema → IfErr result (IsUnadopted a b)) }
    ensures sound { IfClean S.Store conn.old conn.new (λ a b. HaveHistory a.now → IfErr result (IsOfStore a b)) }
    ensures first { IfClean S.Store conn.old conn.new
        (λ a b. HaveFirstHistory a.now → IfErr result (IsOldOrOfStore a b)) }
    ensures old { IfClean S.Store conn.old conn.new
        (λ a b. result ≡ Err OpenFault.OldVersion → IsUnchanged a b) }
    ensures read { IfClean S.Store conn.old conn.new
        (λ a b. MatchResult result (λ _. IsOnlyRead a b) (LeavesRead a b)) }
    ensures back { IfClean S.Store conn.old conn.new (λ a b. IsTrue b.is_open → IsBack a b) }
    ensures clean { IfClean S.Store conn.old conn.new (λ a _. HasCleanDisk a) }
    ensures mode { conn.new.in_transaction ≡ false }
    ensures survives { SurvivesAs S.Store conn.old conn.new (λ _ _. ⊥) }
{
    // So what is seen is what the last commit left.
    prove!(conn.is_autocommit());
    let checked = check_tables(conn, alloc);
    end_check(conn, checked)
}

/// Checks the five tables of version 1 in the store, and returns the number of their records.
pub(crate) fn adopt_first_tables<S: Alter>(
    conn: &mut Connection<S>,
    alloc: Global,
) -> Result<u64, OpenFault>
    requires { conn.old.in_transaction ≡ false }
    ensures ours { has_meta (state S.Store conn.old).now.schema ≡ false → MatchResult result (λ _. ⊥) IsForeign }
    ensures foreign { has_meta (state S.Store conn.old).now.schema ≡ false
        → IfClean S.Store conn.old conn.new (λ _ b. IfErr result (FailsIfOfStore b)) }
    ensures whole { has_first_tables (state S.Store conn.old).now.schema ≡ false → IsErr result }
    ensures found { IfClean S.Store conn.old conn.new
        (λ a _. a.now.schema ≡ first_schema → IfOk result (HasSound AreSoundFirstTables a.now)) }
    ensures refused { IfClean S.Store conn.old conn.new
        (λ a b. IsOwn a.now.schema → IfErr result (IsFirstUnadopted a b)) }
    ensures first { IfClean S.Store conn.old conn.new
        (λ a b. HaveFirstHistory a.now → IfErr result (IsOfStore a b)) }
    ensures same { IfClean S.Store conn.old conn.new (λ a b. OnOk result (IsUnchanged a b)) }
    ensures read { IfClean S.Store conn.old conn.new
        (λ a b. MatchResult result (λ _. IsOnlyRead a b) (LeavesRead a b)) }
    ensures back { IfClean S.Store conn.old conn.new (λ a b. IsTrue b.is_open → IsBack a b) }
    ensures clean { IfClean S.Store conn.old conn.new (λ a _. HasCleanDisk a) }
    ensures mode { conn.new.in_transaction ≡ false }
    ensures survives { SurvivesAs S.Store conn.old conn.new (λ _ _. ⊥) }
{
    prove!(conn.is_autocommit());
    let five = check_first_tables(conn, alloc);
    end_check(conn, five)
}

// What is reported of a check with this answer. If it isn't a fault of the store, the store is probed first.
fn end_check<S: Alter>(
    conn: &mut Connection<S>,
    checked: Result<u64, TableFault>,
) -> Result<u64, OpenFault>
    requires { conn.old.in_transaction ≡ false }
    ensures ours { checked ≡ Err TableFault.NotOurs → MatchResult result (λ _. ⊥) IsForeign }
    ensures refused { IsErr checked → IsErr result }
    ensures foreign { checked ≡ Err TableFault.NotOurs
        → IfClean S.Store conn.old conn.new (λ _ b. IfErr result (FailsIfOfStore b)) }
    ensures told { IfClean S.Store conn.old conn.new (λ a b. TellsCheck a b checked result) }
    ensures ended { IfClean S.Store conn.old conn.new
        (λ a b. IsTrue b.is_open → IsUnchanged a b ⊎ IsRolledBack a b) }
    ensures mode { conn.new.in_transaction ≡ false }
    ensures survives { SurvivesAs S.Store conn.old conn.new (λ _ _. ⊥) }
{
    let end = match checked {
        Ok(records) => Ok(records),
        Err(fault) => match OpenFault::from(fault) {
            OpenFault::Store(error) => return Err(OpenFault::Store(error)),
            fault => Err(fault),
        },
    };
    match probe(conn) {
        Ok(()) => end,
        Err(error) => Err(OpenFault::from(TableFault::Failed(error))),
    }
}
