//! A Secrets inside the transaction that writes it: whether it may follow the rows, and the endpoint's new secrets.
ghost use Rattle.std.specs.Prelude.{◌<◌, [], ◌∷◌, IsTrue, OnOk};
ghost use Rattle.relay_types.specs.declared.limits.TheConstants.{MAX_RECORDS};
ghost use Rattle.relay_types.specs.declared.record.Record.TheVariants as on;
ghost use Rattle.relay_types.specs.Values.{are_secrets};
ghost use Rattle.spool_sql.specs.Steps.{Alters, Answers, Achieves, Changes, IsOfSame, SparesCommit};
ghost use Rattle.spool_write.specs.Entering.{Enters, with_secrets, with_secrets_replaced};

use relay_types::{Name, Secrets};
use spool_sql::{Seq, delete_secrets, insert_secret, select_put, update_secrets_by};
use sqlite::{Alter, Error, Transaction};

// Writes the Secrets with this number, if it may follow the rows.
pub(crate) fn write_secrets<S: Alter>(
    tx: &mut Transaction<'_, S>,
    seq: Seq,
    name: &Name,
    secrets: &Secrets,
) -> Result<bool, Error>
    ensures same_reference { IsOfSame tx.old.conn tx.new.conn }
    ensures done { Answers S.Store tx.old.conn.now tx.new.conn.now result
        (λ a b. Enters a b seq (on.Secrets name.now secrets.now ∷ [])) }
    ensures spares { SparesCommit S.Store tx.old.conn.now tx.new.conn.now }
{
    let Some(put) = select_put(tx, name)? else {
        return Ok(false);
    };
    replace_secrets(tx, put, seq, secrets)?;
    Ok(true)
}

// Replaces the secrets of the endpoint that the record with number `put` made by those of the record with number `by`.
fn replace_secrets<S: Alter>(
    tx: &mut Transaction<'_, S>,
    put: Seq,
    by: Seq,
    secrets: &Secrets,
) -> Result<(), Error>
    ensures same_reference { IsOfSame tx.old.conn tx.new.conn }
    ensures done { Changes S.Store tx.old.conn.now tx.new.conn.now result
        (with_secrets_replaced put by secrets.now) }
    ensures room { OnOk result (by < MAX_RECORDS) }
    ensures limits { OnOk result (IsTrue (are_secrets secrets.now)) }
    ensures spares { SparesCommit S.Store tx.old.conn.now tx.new.conn.now }
{
    delete_secrets(tx, put)?;
    insert_secrets(tx, put, secrets)?;
    update_secrets_by(tx, put, by)
}

// The secrets of the endpoint that the record with number `put` made.
pub(crate) fn insert_secrets<S: Alter>(
    tx: &mut Transaction<'_, S>,
    put: Seq,
    secrets: &Secrets,
) -> Result<(), Error>
    ensures same_reference { IsOfSame tx.old.conn tx.new.conn }
    ensures done { Achieves S.Store tx.old.conn.now tx.new.conn.now result
        (λ a b. IsTrue a.is_open → Alters a b (with_secrets put secrets.now)) }
    ensures limits { OnOk result (IsTrue (are_secrets secrets.now)) }
    ensures spares { SparesCommit S.Store tx.old.conn.now tx.new.conn.now }
{
    for place in 0..secrets.count() {
        match secrets.get(place) {
            Some(secret) => insert_secret(tx, put, place as u64, &secret)?,
            None => {}
        }
    }
    Ok(())
}
