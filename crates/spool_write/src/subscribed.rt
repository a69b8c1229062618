//! A Subscribed inside the transaction that writes it: whether it may follow the rows, and the row of its topic.
ghost use Rattle.std.specs.Prelude.{◌≡◌, [], ◌∷◌, IsTrue, IfOk};
ghost use Rattle.relay_types.specs.declared.record.Record.TheVariants as on;
ghost use Rattle.relay_types.specs.Values.{is_name};
ghost use Rattle.spool_sql.specs.Steps.{Answers, IsOfSame, LeavesAll, SparesCommit};
ghost use Rattle.spool_write.specs.Entering.{Enters, LooksAt, subscribing};

use relay_types::{MAX_SUBSCRIPTIONS, Name};
use spool_sql::{Seq, count_topics, delete_topic, has_topic, insert_topic, select_put};
use sqlite::{Alter, Error, Transaction};

// Writes the Subscribed with this number, if it may follow the rows.
pub(crate) fn write_subscribed<S: Alter>(
    tx: &mut Transaction<'_, S>,
    seq: Seq,
    topic: &Name,
    name: &Name,
    flag: bool,
) -> Result<bool, Error>
    ensures same_reference { IsOfSame tx.old.conn tx.new.conn }
    ensures done { Answers S.Store tx.old.conn.now tx.new.conn.now result
        (λ a b. Enters a b seq (on.Subscribed topic.now name.now flag ∷ [])) }
    ensures spares { SparesCommit S.Store tx.old.conn.now tx.new.conn.now }
{
    let Some(endpoint) = find_subscribing(tx, topic, name)? else {
        return Ok(false);
    };
    delete_topic(tx, topic, endpoint)?;
    insert_topic(tx, topic, endpoint, flag, seq)?;
    Ok(true)
}

// The number of the Put of the endpoint of this name, if it may be subscribed to the topic.
fn find_subscribing<S: Alter>(
    tx: &mut Transaction<'_, S>,
    topic: &Name,
    name: &Name,
) -> Result<Option<Seq>, Error>
    ensures same_reference { IsOfSame tx.old.conn tx.new.conn }
    ensures unchanged { LeavesAll S.Store tx.old.conn.now tx.new.conn.now result }
    ensures found { LooksAt S.Store tx.old.conn.now tx.new.conn.now result
        (λ found records. found ≡ subscribing records topic.now name.now) }
    ensures named { IsTrue (is_name name.now) }
    ensures spares { SparesCommit S.Store tx.old.conn.now tx.new.conn.now }
{
    let Some(put) = select_put(tx, name)? else {
        return Ok(None);
    };
    if has_topic(tx, topic, put)? {
        return Ok(Some(put));
    }
    let count = count_topics(tx)?;
    Ok((count < MAX_SUBSCRIPTIONS).then_some(put))
}
