//! What a row of a query shows.
ghost use Rattle.std.specs.Prelude.{◌≡◌, IfOk, IfErr};
ghost use Rattle.sqlite_value.specs.Order.{Row};
ghost use Rattle.spool_sql.specs.Readable.{IsMemoryFault};

use crate::row::RowFault;
use sqlite::Row;
use std::alloc::Global;

/// What is read from a row of a query.
pub(crate) trait FromRow: Drop {
    // Its type in the definitions.
    ghost Value: { Type 0 };

    // Its value there.
    ghost of: { Self → Value };

    // The value that the row shows.
    ghost in_row: { Row → Value };

    // The row shows one that can be read back.
    ghost Shows: { Row → Type 0 };

    fn read(row: &Row, alloc: Global) -> Result<Self, RowFault>
        ensures value { IfOk result (λ shown. of shown ≡ in_row row.now) }
        ensures refused { IfErr result (λ fault. Shows row.now → IsMemoryFault fault) };
}
