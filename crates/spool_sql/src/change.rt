//! The rows that are changed or taken out.
ghost use Rattle.std.specs.Prelude.{◌<◌, pos, [], ◌∷◌, codes};
ghost use Rattle.sqlite.specs.declared.types.Value.TheVariants.{Int, Text};
ghost use Rattle.relay_types.specs.declared.limits.TheConstants.{MAX_RECORDS};
ghost use Rattle.spool_sql.specs.Stored.{flag_number, with_enabled, with_secrets_by, without_secrets, without_topic};
ghost use Rattle.spool_sql.specs.Steps.{Changes, IsOfSame, IsRefusedOf, SparesCommit};

use crate::seq::Seq;
use crate::value::int;
use relay_types::Name;
use sqlite::{Alter, Error, Transaction};
use sqlite_value::value::ValueRef;

/// Sets whether the endpoint that the record with number `put` made is enabled, which the record
/// with number `by` decides.
pub fn update_enabled<S: Alter>(
    tx: &mut Transaction<'_, S>,
    put: Seq,
    flag: bool,
    by: Seq,
) -> Result<(), Error>
    ensures same_reference { IsOfSame tx.old.conn tx.new.conn }
    ensures done { Changes S.Store tx.old.conn.now tx.new.conn.now result (with_enabled put flag by) }
    ensures room { by < MAX_RECORDS }
    ensures refused { IsRefusedOf S.Store tx.old.conn.now tx.new.conn.now result
        (codes "UPDATE endpoints SET enabled = ?1, enabled_by = ?2 WHERE put = ?3")
        (Int (pos (flag_number flag)) ∷ Int (pos by) ∷ Int (pos put) ∷ []) }
    ensures spares { SparesCommit S.Store tx.old.conn.now tx.new.conn.now }
{
    tx.execute(
        "UPDATE endpoints SET enabled = ?1, enabled_by = ?2 WHERE put = ?3",
        &[int(u64::from(flag)), by.value(), put.value()],
    )?;
    Ok(())
}

/// Sets which record gave the secrets of the endpoint that the record with number `put` made.
pub fn update_secrets_by<S: Alter>(
    tx: &mut Transaction<'_, S>,
    put: Seq,
    by: Seq,
) -> Result<(), Error>
    ensures same_reference { IsOfSame tx.old.conn tx.new.conn }
    ensures done { Changes S.Store tx.old.conn.now tx.new.conn.now result (with_secrets_by put by) }
    ensures room { by < MAX_RECORDS }
    ensures refused { IsRefusedOf S.Store tx.old.conn.now tx.new.conn.now result
        (codes "UPDATE endpoints SET secrets_by = ?1 WHERE put = ?2")
        (Int (pos by) ∷ Int (pos put) ∷ []) }
    ensures spares { SparesCommit S.Store tx.old.conn.now tx.new.conn.now }
{
    tx.execute(
        "UPDATE endpoints SET secrets_by = ?1 WHERE put = ?2",
        &[by.value(), put.value()],
    )?;
    Ok(())
}

/// Takes out the secrets of the endpoint that the record with number `endpoint` made.
pub fn delete_secrets<S: Alter>(tx: &mut Transaction<'_, S>, endpoint: Seq) -> Result<(), Error>
    ensures same_reference { IsOfSame tx.old.conn tx.new.conn }
    ensures done { Changes S.Store tx.old.conn.now tx.new.conn.now result (without_secrets endpoint) }
    ensures refused { IsRefusedOf S.Store tx.old.conn.now tx.new.conn.now result
        (codes "DELETE FROM secrets WHERE endpoint = ?1")
        (Int (pos endpoint) ∷ []) }
    ensures spares { SparesCommit S.Store tx.old.conn.now tx.new.conn.now }
{
    tx.execute(
        "DELETE FROM secrets WHERE endpoint = ?1",
        &[endpoint.value()],
    )?;
    Ok(())
}

/// Takes out whether the endpoint that the record with number `endpoint` made is subscribed to this topic.
pub fn delete_topic<S: Alter>(
    tx: &mut Transaction<'_, S>,
    topic: &Name,
    endpoint: Seq,
) -> Result<(), Error>
    ensures same_reference { IsOfSame tx.old.conn tx.new.conn }
    ensures done { Changes S.Store tx.old.conn.now tx.new.conn.now result (without_topic topic.now endpoint) }
    ensures refused { IsRefusedOf S.Store tx.old.conn.now tx.new.conn.now result
        (codes "DELETE FROM topics WHERE topic = ?1 AND endpoint = ?2")
        (Text topic.now ∷ Int (pos endpoint) ∷ []) }
    ensures spares { SparesCommit S.Store tx.old.conn.now tx.new.conn.now }
{
    tx.execute(
        "DELETE FROM topics WHERE topic = ?1 AND endpoint = ?2",
        &[ValueRef::Text(topic.as_bytes()), endpoint.value()],
    )?;
    Ok(())
}
