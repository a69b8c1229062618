//! The check of the tables.
ghost use Rattle.std.specs.Prelude.{◌≡◌, false, Err, IfOk, IfErr, IsErr, OnOk};
ghost use Rattle.sqlite.specs.Held.{state};
ghost use Rattle.sqlite.specs.State.{IsLive, IsUnchanged};
ghost use Rattle.relay_types.specs.Rows.{Rows};
ghost use Rattle.spool_sql.specs.Steps.{IfClean};
ghost use Rattle.spool_sql.specs.Tables.{IsOwn, first_schema, relay_schema};
ghost use Rattle.sound_tables.specs.Checks.{AreSoundAt, AreSoundFirstTables, AreSoundTables, HasSound};
ghost use Rattle.sound_tables.specs.Checks.{IsFirstRefusedAt, IsRefusedAt, Refuses};
ghost use Rattle.sound_tables.specs.Checks.{RefusesAt, RefusesFirst, RefusesOld, RefusesSound};
ghost use Rattle.sound_tables.specs.Keys.{has_first_tables, has_meta, has_tables};
ghost use Rattle.sound_tables.specs.Reading.{Looks};
ghost use Rattle.sound_tables.specs.Versions.{has_names_of, has_tables_of, schema_of};

use crate::fault::TableFault;
use crate::judge::judge;
use crate::keys::{has_names, has_tables};
use crate::records::read_records;
use crate::stored::read_stored;
use crate::version::Version;
use sqlite::{Alter, Connection};
use std::alloc::Global;

/// Checks that the rows are those of a legal history, and returns its number of records. It reads
/// each table once, row by row, whoever wrote it, and writes nothing. It reads `meta` first, so
/// tables of another version are reported as such whatever is in them. A store that lacks one of
/// the six tables is `NotOurs`, and one whose tables lack a key or a reference is `Damaged`. It
/// passes over other tables. It takes memory for the numbers in the rows, and time in proportion to
/// `n log n`.
pub fn check_tables<S: Alter>(conn: &mut Connection<S>, alloc: Global) -> Result<u64, TableFault>
    ensures looks { Looks S.Store conn.old conn.new }
    ensures ours { has_meta (state S.Store conn.old).now.schema ≡ false → result ≡ Err TableFault.NotOurs }
    ensures whole { has_tables (state S.Store conn.old).now.schema ≡ false → IsErr result }
    ensures found { IfClean S.Store conn.old conn.new (λ a _. a.now.schema ≡ relay_schema
        → IfOk result (λ records. (rows : Rows) × AreSoundTables a.now rows × (rows.records ≡ records))) }
    ensures refused { IfClean S.Store conn.old conn.new (λ a _. IsOwn a.now.schema
        → IfErr result (IsRefusedAt a.now)) }
    ensures sound { IfClean S.Store conn.old conn.new (λ a b. IfErr result (RefusesSound a b)) }
    ensures first { IfClean S.Store conn.old conn.new (λ a b. IfErr result (RefusesOld a b)) }
    ensures same { IfClean S.Store conn.old conn.new (λ a b. OnOk result (IsUnchanged a b)) }
    ensures old { IfClean S.Store conn.old conn.new
        (λ a b. result ≡ Err TableFault.OldVersion → IsUnchanged a b) }
{
    check_version(conn, Version::Second, alloc)
}

/// The same of the five tables of version 1.
pub fn check_first_tables<S: Alter>(
    conn: &mut Connection<S>,
    alloc: Global,
) -> Result<u64, TableFault>
    ensures looks { Looks S.Store conn.old conn.new }
    ensures ours { has_meta (state S.Store conn.old).now.schema ≡ false → result ≡ Err TableFault.NotOurs }
    ensures whole { has_first_tables (state S.Store conn.old).now.schema ≡ false → IsErr result }
    ensures found { IfClean S.Store conn.old conn.new (λ a _. a.now.schema ≡ first_schema
        → IfOk result (λ records. (rows : Rows) × AreSoundFirstTables a.now rows × (rows.records ≡ records))) }
    ensures refused { IfClean S.Store conn.old conn.new (λ a _. IsOwn a.now.schema
        → IfErr result (IsFirstRefusedAt a.now)) }
    ensures sound { IfClean S.Store conn.old conn.new (λ a b. IfErr result (RefusesFirst a b)) }
    ensures same { IfClean S.Store conn.old conn.new (λ a b. OnOk result (IsUnchanged a b)) }
{
    check_version(conn, Version::First, alloc)
}

// Checks that the tables are those of this version and that their rows are those of a legal history.
fn check_version<S: Alter>(
    conn: &mut Connection<S>,
    version: Version,
    alloc: Global,
) -> Result<u64, TableFault>
    ensures looks { Looks S.Store conn.old conn.new }
    ensures ours { has_meta (state S.Store conn.old).now.schema ≡ false → result ≡ Err TableFault.NotOurs }
    ensures whole { has_tables_of version (state S.Store conn.old).now.schema ≡ false → IsErr result }
    ensures found { IfClean S.Store conn.old conn.new (λ a _. a.now.schema ≡ schema_of version
        → IfOk result (HasSound (AreSoundAt version) a.now)) }
    ensures refused { IfClean S.Store conn.old conn.new (λ a _. IsOwn a.now.schema
        → IfErr result (Refuses version (AreSoundAt version) a.now)) }
    ensures sound { IfClean S.Store conn.old conn.new (λ a b. IfErr result (RefusesAt version a b)) }
    ensures first { IfClean S.Store conn.old conn.new (λ a b. IfErr result (RefusesOld a b)) }
    ensures same { IfClean S.Store conn.old conn.new (λ a b. OnOk result (IsUnchanged a b)) }
    ensures old { IfClean S.Store conn.old conn.new
        (λ a b. result ≡ Err TableFault.OldVersion → IsUnchanged a b) }
{
    if !has_meta(conn) {
        return Err(TableFault::NotOurs);
    }
    let (is_whole, is_keyed) = look_at_schema(conn, version);
    let records = read_records(conn, version, alloc)?;
    if !is_whole {
        return Err(TableFault::NotOurs);
    }
    if !is_keyed {
        return Err(TableFault::Damaged);
    }
    match read_stored(conn, version, alloc) {
        Ok(Some(rows)) => judge(records, rows, alloc),
        Ok(None) => Err(TableFault::Damaged),
        Err(error) => Err(TableFault::Failed(error)),
    }
}

// Whether a table has the name of the one that tells whose the tables are.
fn has_meta<S: Alter>(conn: &Connection<S>) -> bool
    ensures meta { result ≡ has_meta (state S.Store conn.now).now.schema }
    ensures live { IsLive (state S.Store conn.now) }
{
    conn.schema().table_named(b"meta").is_some()
}

// Whether each table of this version is there, and whether they have their keys.
fn look_at_schema<S: Alter>(conn: &Connection<S>, version: Version) -> (bool, bool)
    ensures names { result.0 ≡ has_names_of version (state S.Store conn.now).now.schema }
    ensures keys { result.1 ≡ has_tables_of version (state S.Store conn.now).now.schema }
{
    let schema = conn.schema();
    (has_names(schema, version), has_tables(schema, version))
}
