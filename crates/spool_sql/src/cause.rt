//! Why a statement of the relay failed.
ghost use Rattle.std.specs.Prelude.{◌≡◌};
ghost use Rattle.spool_sql.specs.Causes.{cause};

use sqlite::{Error, ErrorCode};

/// What a failed statement tells of the store.
#[derive(Clone, Copy, PartialEq, Eq, Debug)]
pub enum Cause {
    /// Memory was refused.
    Memory,
    /// The disk, the size of a value, the limit on steps or the state of the connection.
    Store,
    /// All else: the tables are not ours, or their rows not what was put.
    Other,
}

/// The cause of an error.
pub fn cause_of(error: Error) -> Cause
    ensures { result ≡ cause error }
{
    match error {
        Error::SqliteFailure(ErrorCode::OutOfMemory) => Cause::Memory,
        Error::SqliteFailure(
            ErrorCode::SystemIoFailure
            | ErrorCode::DatabaseCorrupt
            | ErrorCode::DiskFull
            | ErrorCode::Closed
            | ErrorCode::TooBig
            | ErrorCode::OperationInterrupted
            | ErrorCode::TransactionState,
        ) => Cause::Store,
        _ => Cause::Other,
    }
}
