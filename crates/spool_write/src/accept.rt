//! An Accept inside the transaction that writes it: the endpoint that it is for, and its row.
ghost use Rattle.std.specs.Prelude.{[], ◌∷◌};
ghost use Rattle.relay_types.specs.declared.record.Record.TheVariants as on;
ghost use Rattle.spool_sql.specs.Steps.{Answers, IsOfSame, SparesCommit};
ghost use Rattle.spool_write.specs.Entering.{Enters};

use relay_types::{Body, Moment, MsgId, Name};
use spool_sql::{Seq, insert_delivery, select_put};
use sqlite::{Alter, Error, Transaction};

// Writes the Accept with this number, if it may follow the rows.
pub(crate) fn write_accept<S: Alter>(
    tx: &mut Transaction<'_, S>,
    seq: Seq,
    name: &Name,
    id: &MsgId,
    body: &Body,
    at: Moment,
) -> Result<bool, Error>
    ensures same_reference { IsOfSame tx.old.conn tx.new.conn }
    ensures done { Answers S.Store tx.old.conn.now tx.new.conn.now result
        (λ a b. Enters a b seq (on.Accept name.now id.now body.now at ∷ [])) }
    ensures spares { SparesCommit S.Store tx.old.conn.now tx.new.conn.now }
{
    let Some(endpoint) = select_put(tx, name)? else {
        return Ok(false);
    };
    insert_delivery(tx, seq, endpoint, id, at, body)
}
