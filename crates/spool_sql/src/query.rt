//! A look into the tables.
ghost use Rattle.std.specs.Prelude.{◌⊎◌, IfOk, IfErr};
ghost use Rattle.sqlite.specs.State.{Shown, FailsToQuery, IsTooLate};
ghost use Rattle.sqlite.specs.Values.{bound};
ghost use Rattle.spool_sql.specs.Queries.{IsBare};
ghost use Rattle.spool_sql.specs.Steps.{IfClean, LeavesAll, IsOfSame, SparesCommit};

use sqlite::{Alter, Error, Row, Transaction};
use sqlite_value::value::ValueRef;

// The rows that the text shows with these values. The text has no RETURNING, so it writes nothing.
pub(crate) fn query<S: Alter>(
    tx: &mut Transaction<'_, S>,
    sql: &str,
    params: &[ValueRef<'_>],
) -> Result<Vec<Row>, Error>
    requires { IsBare sql.now }
    ensures same_reference { IsOfSame tx.old.conn tx.new.conn }
    ensures unchanged { LeavesAll S.Store tx.old.conn.now tx.new.conn.now result }
    ensures shown { IfClean S.Store tx.old.conn.now tx.new.conn.now
        (λ a b. IfOk result (λ rows. Shown sql.now (bound params.now) a b rows.items)) }
    ensures failed { IfClean S.Store tx.old.conn.now tx.new.conn.now (λ a b. IfErr result
        (λ e. FailsToQuery sql.now (bound params.now) a b e ⊎ IsTooLate sql.now (bound params.now) a b e)) }
    ensures spares { SparesCommit S.Store tx.old.conn.now tx.new.conn.now }
{
    tx.query_all(sql, params)
}
