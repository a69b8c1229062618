//! A Put inside the transaction that writes it: whether it may follow the rows, and its rows.
ghost use Rattle.std.specs.Prelude.{◌≡◌, ◌<◌, ◌&&◌, [], ◌∷◌, IsTrue, OnOk};
ghost use Rattle.relay_types.specs.declared.limits.TheConstants.{MAX_RECORDS};
ghost use Rattle.relay_types.specs.declared.record.Record.TheVariants as on;
ghost use Rattle.relay_types.specs.Values.{are_secrets, is_name, is_target, is_max_limit};
ghost use Rattle.spool_sql.specs.Steps.{Answers, Changes, IsOfSame, LeavesAll, SparesCommit};
ghost use Rattle.spool_write.specs.Entering.{Enters, LooksAt, may_put, with_put};

use crate::secrets::insert_secrets;
use relay_types::{MAX_ENDPOINTS, MaxLimit, Name, Secrets, Target};
use spool_sql::{Seq, count_endpoints, insert_endpoint, select_put};
use sqlite::{Alter, Error, Transaction};

// Writes the Put with this number, if it may follow the rows.
pub(crate) fn write_put<S: Alter>(
    tx: &mut Transaction<'_, S>,
    seq: Seq,
    name: &Name,
    target: &Target,
    max: MaxLimit,
    secrets: &Secrets,
) -> Result<bool, Error>
    ensures same_reference { IsOfSame tx.old.conn tx.new.conn }
    ensures done { Answers S.Store tx.old.conn.now tx.new.conn.now result
        (λ a b. Enters a b seq (on.Put name.now target.now max secrets.now ∷ [])) }
    ensures spares { SparesCommit S.Store tx.old.conn.now tx.new.conn.now }
{
    if !may_put(tx, name)? {
        return Ok(false);
    }
    insert_put(tx, seq, name, target, max, secrets)?;
    Ok(true)
}

// Whether an endpoint of this name may be put.
fn may_put<S: Alter>(tx: &mut Transaction<'_, S>, name: &Name) -> Result<bool, Error>
    ensures same_reference { IsOfSame tx.old.conn tx.new.conn }
    ensures unchanged { LeavesAll S.Store tx.old.conn.now tx.new.conn.now result }
    ensures legal { LooksAt S.Store tx.old.conn.now tx.new.conn.now result
        (λ legal records. legal ≡ may_put records name.now) }
    ensures spares { SparesCommit S.Store tx.old.conn.now tx.new.conn.now }
{
    if select_put(tx, name)?.is_some() {
        return Ok(false);
    }
    let count = count_endpoints(tx)?;
    Ok(count < MAX_ENDPOINTS)
}

// The rows of a Put.
fn insert_put<S: Alter>(
    tx: &mut Transaction<'_, S>,
    seq: Seq,
    name: &Name,
    target: &Target,
    max: MaxLimit,
    secrets: &Secrets,
) -> Result<(), Error>
    ensures same_reference { IsOfSame tx.old.conn tx.new.conn }
    ensures done { Changes S.Store tx.old.conn.now tx.new.conn.now result
        (with_put seq name.now target.now max secrets.now) }
    ensures room { OnOk result (seq < MAX_RECORDS) }
    ensures limits { OnOk result
        (IsTrue (is_name name.now && (is_target target.now && (is_max_limit max && are_secrets secrets.now)))) }
    ensures spares { SparesCommit S.Store tx.old.conn.now tx.new.conn.now }
{
    insert_endpoint(tx, seq, name, target, max)?;
    insert_secrets(tx, seq, secrets)
}
