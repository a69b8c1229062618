//! The tables of a new store.
ghost use Rattle.std.specs.Prelude.{◌≡◌, ◌⊎◌, false, IsTrue, OnOk, OnErr, IfErr, MatchResult, Err};
ghost use Rattle.sqlite.specs.State.{HasCleanDisk, IsRolledBack, IsUnchanged};
ghost use Rattle.sqlite.specs.Held.{state};
ghost use Rattle.spool_sql.specs.Steps.{IfClean, IsBegun, Stands, SurvivesAs};
ghost use Rattle.spool_sql.specs.Tables.{no_schema};
ghost use Rattle.spool_sql.specs.Stored.{first_rows};
ghost use Rattle.spool.specs.Writing.{IsCause};
ghost use Rattle.spool.specs.Opening.{has_ours, IsRefusedFor, TellsFault, IsBack, Founded, IsFounded, LeavesAt};

use crate::faults::OpenFault;
use spool_sql::{Cause, cause_of, create_tables, probe};
use sqlite::{Alter, Connection, Error};
use sqlite_catalog::layout::is_used;
use sqlite_schema::schema::Schema;

// Makes the tables where none of ours is there, with what is known of the store where they aren't made.
pub(crate) fn create_store<S: Alter>(conn: &mut Connection<S>) -> Result<(), OpenFault>
    requires { conn.old.in_transaction ≡ false }
    ensures ends { IfClean S.Store conn.old conn.new
        (λ a b. MatchResult result (λ _. IsFounded a b) (LeavesAt a b)) }
    ensures free { OnOk result (has_ours (state S.Store conn.old).now.schema ≡ false) }
    ensures cause { IfErr result (IsRefusedFor (state S.Store conn.old).now.schema) }
    ensures untouched { result ≡ Err OpenFault.NotOurs → conn.new ≡ conn.old }
    ensures clean { IfClean S.Store conn.old conn.new (λ a _. HasCleanDisk a) }
    ensures mode { conn.new.in_transaction ≡ false }
{
    if has_ours(conn.schema()) {
        return Err(OpenFault::NotOurs);
    }
    match create_in_transaction(conn) {
        Ok(()) => Ok(()),
        Err(error) => Err(fault_of(conn, error)),
    }
}

// Makes the tables and the row of `meta`, in one transaction.
fn create_in_transaction<S: Alter>(conn: &mut Connection<S>) -> Result<(), Error>
    requires { conn.old.in_transaction ≡ false }
    ensures done { IfClean S.Store conn.old conn.new
        (λ a b. OnOk result (IsBegun no_schema a.now → Stands b first_rows)) }
    ensures undone { IfClean S.Store conn.old conn.new (λ a b. OnErr result (IsTrue b.is_open → IsBack a b)) }
    ensures cause { IfClean S.Store conn.old conn.new (λ a b. IfErr result (IsCause a b)) }
    ensures mode { conn.new.in_transaction ≡ false }
    ensures survives { SurvivesAs S.Store conn.old conn.new Founded }
{
    let mut tx = conn.transaction();
    create_tables(&mut tx)?;
    tx.commit()
}

// Whether the schema has a name of ours.
fn has_ours(schema: &Schema) -> bool
    ensures { result ≡ has_ours schema.now }
{
    is_used(schema, b"meta")
        || is_used(schema, b"endpoints")
        || is_used(schema, b"secrets")
        || is_used(schema, b"deliveries")
        || is_used(schema, b"attempts")
        || is_used(schema, b"topics")
}

/// What is reported of a store in which this error kept the tables from being made, after a probe of it.
pub(crate) fn fault_of<S: Alter>(conn: &mut Connection<S>, error: Error) -> OpenFault
    requires { conn.old.in_transaction ≡ false }
    ensures told { TellsFault (state S.Store conn.old) (state S.Store conn.new) error result }
    ensures same { IfClean S.Store conn.old conn.new (λ a b. result ≡ OpenFault.OutOfMemory → IsUnchanged a b) }
    ensures ended { IfClean S.Store conn.old conn.new
        (λ a b. IsTrue b.is_open → IsUnchanged a b ⊎ IsRolledBack a b) }
    ensures mode { conn.new.in_transaction ≡ false }
    ensures survives { SurvivesAs S.Store conn.old conn.new (λ _ _. ⊥) }
{
    match cause_of(error) {
        Cause::Memory => match probe(conn) {
            Ok(()) => OpenFault::OutOfMemory,
            Err(later) => OpenFault::Store(later),
        },
        Cause::Store | Cause::Other => OpenFault::Store(error),
    }
}
