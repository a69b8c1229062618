//! Whether the rows that were read are such as a legal history has.
ghost use Rattle.std.specs.Prelude.{◌≡◌, ◌⊎◌, IfOk, IfErr, MatchBool, MatchResult};
ghost use Rattle.sqlite.specs.Effect.{Database};
ghost use Rattle.relay_types.specs.Rows.{Rows};
ghost use Rattle.sound_tables.specs.Checks.{AreInOrder, AreRead, AreSoundAt, HasSound, IsJudgedAt, IsJudgement};
ghost use Rattle.sound_tables.specs.Versions.{schema_of};

use crate::fault::TableFault;
use crate::places::are_in_places;
use crate::stored::StoredRows;
use crate::topic::numbers_in_turn;
use crate::version::Version;
use sound_rows::RowNumbers;
use sqlite::{Error, ErrorCode};
use std::alloc::{AllocError, Global};

/// How many records the rows tell of, where they are such as a legal history has.
pub(crate) fn judge(records: u64, rows: StoredRows, alloc: Global) -> Result<u64, TableFault>
    ensures judged { (v : Version) (db : Database) → db.schema ≡ schema_of v → AreRead v db records rows
        → MatchResult result (HasSound (AreSoundAt v) db) (IsJudgedAt v db) }
    ensures refused { IfErr result IsJudgement }
    ensures told { AreInOrder rows → IfErr result (λ why. (why ≡ TableFault.Damaged)
        ⊎ (why ≡ TableFault.Failed (Error.SqliteFailure ErrorCode.OutOfMemory))) }
{
    // The statements ask for this order.
    if !rows.are_in_order() {
        return Err(TableFault::Failed(Error::SqliteFailure(ErrorCode::DatabaseCorrupt)));
    }
    match are_sound(records, rows, alloc) {
        Ok(true) => Ok(records),
        Ok(false) => Err(TableFault::Damaged),
        Err(_) => Err(TableFault::Failed(Error::SqliteFailure(ErrorCode::OutOfMemory))),
    }
}

fn are_sound(records: u64, rows: StoredRows, alloc: Global) -> Result<bool, AllocError>
    requires { AreInOrder rows }
    ensures { IfOk result (λ sound. (v : Version) (db : Database) → db.schema ≡ schema_of v
        → AreRead v db records rows
        → MatchBool sound (HasSound (AreSoundAt v) db records) ((all : Rows) → ¬ AreSoundAt v db all)) }
{
    let StoredRows {
        endpoints,
        mut secrets,
        deliveries,
        attempts,
        topics,
    } = rows;
    let numbers = RowNumbers {
        records,
        endpoints,
        deliveries,
        attempts,
        topics: numbers_in_turn(&topics, alloc)?,
    };
    Ok(numbers.are_sound(alloc)? && are_in_places(&numbers.endpoints, &mut secrets))
}
