//! An Enabled inside the transaction that writes it: whether it may follow the rows, and the endpoint's flag.
ghost use Rattle.std.specs.Prelude.{[], ◌∷◌};
ghost use Rattle.relay_types.specs.declared.record.Record.TheVariants as on;
ghost use Rattle.spool_sql.specs.Steps.{Answers, IsOfSame, SparesCommit};
ghost use Rattle.spool_write.specs.Entering.{Enters};

use relay_types::Name;
use spool_sql::{Seq, select_put, update_enabled};
use sqlite::{Alter, Error, Transaction};

// Writes the Enabled with this number, if it may follow the rows.
pub(crate) fn write_enabled<S: Alter>(
    tx: &mut Transaction<'_, S>,
    seq: Seq,
    name: &Name,
    flag: bool,
) -> Result<bool, Error>
    ensures same_reference { IsOfSame tx.old.conn tx.new.conn }
    ensures done { Answers S.Store tx.old.conn.now tx.new.conn.now result
        (λ a b. Enters a b seq (on.Enabled name.now flag ∷ [])) }
    ensures spares { SparesCommit S.Store tx.old.conn.now tx.new.conn.now }
{
    let Some(put) = select_put(tx, name)? else {
        return Ok(false);
    };
    update_enabled(tx, put, flag, seq)?;
    Ok(true)
}
