//! What `meta` tells: whose the tables are, of which version, and how many records they tell of.
ghost use Rattle.std.specs.Prelude.{◌≡◌, ◌≢◌, Err, IfOk, IfErr, OnOk, MatchResult};
ghost use Rattle.sqlite.specs.Effect.{Database};
ghost use Rattle.sqlite.specs.State.{IsUnchanged};
ghost use Rattle.sqlite.specs.declared.error.Error.{Error};
ghost use Rattle.spool_sql.specs.Steps.{IfClean};
ghost use Rattle.spool_sql.specs.Tables.{IsOwn};
ghost use Rattle.sound_tables.specs.Checks.{AreSoundAt, HasMeta, HasRecords, IsRefusedMeta, RefusesAt, RefusesOld};
ghost use Rattle.sound_tables.specs.Reading.{Looks};
ghost use Rattle.sound_tables.specs.Shown.{ShowsMeta};
ghost use Rattle.sound_tables.specs.Tables.{Yields, meta_columns};
ghost use Rattle.sound_tables.specs.Versions.{number_of};

use crate::fault::TableFault;
use crate::meta::Meta;
use crate::tables::read_meta;
use crate::version::Version;
use sqlite::{Alter, Connection};
use std::alloc::Global;

/// How many records `meta` tells of, where it is the relay's, of this version.
pub(crate) fn read_records<S: Alter>(
    conn: &mut Connection<S>,
    version: Version,
    alloc: Global,
) -> Result<u64, TableFault>
    ensures looks { Looks S.Store conn.old conn.new }
    ensures found { IfClean S.Store conn.old conn.new (λ a _. IsOwn a.now.schema
        → IfOk result (HasRecords (number_of version) a.now)) }
    ensures refused { IfClean S.Store conn.old conn.new (λ a _. IsOwn a.now.schema
        → IfErr result (IsRefusedMeta version (AreSoundAt version) a.now)) }
    ensures sound { IfClean S.Store conn.old conn.new (λ a b. IfErr result (RefusesAt version a b)) }
    ensures first { IfClean S.Store conn.old conn.new (λ a b. IfErr result (RefusesOld a b)) }
    ensures same { IfClean S.Store conn.old conn.new (λ a b. OnOk result (IsUnchanged a b)) }
    ensures old { IfClean S.Store conn.old conn.new
        (λ a b. result ≡ Err TableFault.OldVersion → IsUnchanged a b) }
{
    match read_meta(conn, alloc) {
        Ok(rows) => records_in(rows, version),
        Err(error) => Err(TableFault::Failed(error)),
    }
}

fn records_in(rows: Option<Vec<Meta>>, version: Version) -> Result<u64, TableFault>
    ensures judged { (db : Database) → Yields ShowsMeta meta_columns (db.trees 0) rows
        → MatchResult result (HasRecords (number_of version) db) (IsRefusedMeta version (AreSoundAt version) db) }
    ensures told { IfErr result (λ why. (error : Error) → why ≢ TableFault.Failed error) }
{
    let Some(rows) = rows else {
        return Err(TableFault::NotOurs);
    };
    if rows.len() != 1 {
        return Err(TableFault::NotOurs);
    }
    records_of(rows[0], version)
}

fn records_of(meta: Meta, version: Version) -> Result<u64, TableFault>
    ensures judged { (db : Database) → HasMeta db meta
        → MatchResult result (HasRecords (number_of version) db) (IsRefusedMeta version (AreSoundAt version) db) }
    ensures told { IfErr result (λ why. (error : Error) → why ≢ TableFault.Failed error) }
{
    if meta.version > version.number() {
        return Err(TableFault::NewerVersion);
    }
    if 1 <= meta.version && meta.version < version.number() {
        return Err(TableFault::OldVersion);
    }
    if meta.version < 1 || meta.key != 1 || meta.records < 0 {
        return Err(TableFault::Damaged);
    }
    Ok(meta.records as u64)
}
