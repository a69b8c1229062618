//! The numbers at which the pages of a table begin, and faults of rows as errors of the store.
ghost use Rattle.std.specs.Prelude.{◌≡◌, ◌<◌, ◌≤◌, ◌+◌, ◌↔◌, false, nat_lt, IfErr, IfOk, IsErr, IsTrue};
ghost use Rattle.std.specs.Option.{option_map_or};
ghost use Rattle.relay_types.specs.declared.limits.TheConstants.{MAX_RECORDS};
ghost use Rattle.spool_sql.specs.Reading.{error_of};
ghost use Rattle.spool_sql.specs.declared.row.RowFault.TheVariants.{Unreadable};

use crate::row::RowFault;
use crate::seq::Seq;
use sqlite::{Error, ErrorCode};

/// Where the next page begins after one that was read from this number on: after the number of its last row, or at the
/// end if it is empty. A last row below that number is unreadable.
pub fn next_page(last: Option<Seq>, from: u64, end: u64) -> Result<u64, RowFault>
    ensures number { IfOk result (λ next. next ≡ option_map_or (λ last. last + 1) last end) }
    ensures above { from < end → IfOk result (λ next. from < next) }
    ensures room { end ≤ MAX_RECORDS → IfOk result (λ next. next ≤ MAX_RECORDS) }
    ensures fallen { IsErr result ↔ IsTrue (option_map_or (λ last. nat_lt last from) last false) }
    ensures fault { IfErr result (λ fault. fault ≡ Unreadable) }
{
    let Some(last) = last else {
        return Ok(end);
    };
    if last.get() < from {
        return Err(RowFault::Unreadable);
    }
    Ok(last.get() + 1)
}

/// The error of the store as which a fault is told.
pub fn error_of(fault: RowFault) -> Error
    ensures { result ≡ error_of fault }
{
    match fault {
        RowFault::Failed(error) => error,
        RowFault::Unreadable => Error::SqliteFailure(ErrorCode::DatabaseCorrupt),
    }
}
