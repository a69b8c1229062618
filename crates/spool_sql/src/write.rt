//! The rows that are added or changed.
ghost use Rattle.std.specs.Prelude.{◌≡◌, ◌≢◌, ◌<◌, ◌≤◌, ◌^◌, ◌&&◌, IsTrue, IfErr, pos, [], ◌∷◌, codes};
ghost use Rattle.sqlite.specs.declared.types.Value.TheVariants.{Int, Text, Blob};
ghost use Rattle.relay_types.specs.declared.limits.TheConstants.{MAX_RECORDS};
ghost use Rattle.relay_types.specs.Values.{is_name, is_target, is_max_limit, is_secret, is_msg_id, is_body, is_moment};
ghost use Rattle.spool_sql.specs.Stored.{new_endpoint, with_endpoint, with_secret, with_attempt};
ghost use Rattle.spool_sql.specs.Stored.{flag_number, with_records, with_topic};
ghost use Rattle.spool_sql.specs.Causes.{is_added, key_taken};
ghost use Rattle.spool_sql.specs.Steps.{AddsUnlessKnown, Answers, Changes, IsOfSame, IsRefusedOf, SparesCommit};

use crate::seq::Seq;
use crate::value::int;
use relay_types::{Body, MaxLimit, Moment, MsgId, Name, Secret, Target};
use sqlite::{Alter, Constraint, Error, ErrorCode, Transaction};
use sqlite_value::value::ValueRef;

/// Adds an enabled endpoint that the record with number `put` made.
pub fn insert_endpoint<S: Alter>(
    tx: &mut Transaction<'_, S>,
    put: Seq,
    name: &Name,
    target: &Target,
    max: MaxLimit,
) -> Result<(), Error>
    ensures same_reference { IsOfSame tx.old.conn tx.new.conn }
    ensures done { Changes S.Store tx.old.conn.now tx.new.conn.now result
        (with_endpoint (new_endpoint put name.now target.now max)) }
    ensures room { put < MAX_RECORDS }
    ensures limits { IsTrue (is_name name.now && (is_target target.now && is_max_limit max)) }
    ensures refused { IsRefusedOf S.Store tx.old.conn.now tx.new.conn.now result
        (codes "INSERT INTO endpoints VALUES(?1, ?2, ?3, ?4, 1, ?1, ?1)")
        (Int (pos put) ∷ Text name.now ∷ Text target.now ∷ Int (pos max) ∷ []) }
    ensures spares { SparesCommit S.Store tx.old.conn.now tx.new.conn.now }
{
    tx.execute(
        "INSERT INTO endpoints VALUES(?1, ?2, ?3, ?4, 1, ?1, ?1)",
        &[
            put.value(),
            ValueRef::Text(name.as_bytes()),
            ValueRef::Text(target.as_bytes()),
            int(u64::from(max.get())),
        ],
    )?;
    Ok(())
}

/// Adds a secret of the endpoint that the record with number `endpoint` made.
pub fn insert_secret<S: Alter>(
    tx: &mut Transaction<'_, S>,
    endpoint: Seq,
    place: u64,
    secret: &Secret,
) -> Result<(), Error>
    requires place { place < 2 ^ 63 }
    ensures same_reference { IsOfSame tx.old.conn tx.new.conn }
    ensures done { Changes S.Store tx.old.conn.now tx.new.conn.now result
        (with_secret (record { endpoint = endpoint; place = place; secret = secret.now })) }
    ensures limits { IsTrue (is_secret secret.now) }
    ensures refused { IsRefusedOf S.Store tx.old.conn.now tx.new.conn.now result
        (codes "INSERT INTO secrets VALUES(?1, ?2, ?3)")
        (Int (pos endpoint) ∷ Int (pos place) ∷ Blob secret.now ∷ []) }
    ensures spares { SparesCommit S.Store tx.old.conn.now tx.new.conn.now }
{
    tx.execute(
        "INSERT INTO secrets VALUES(?1, ?2, ?3)",
        &[
            endpoint.value(),
            int(place),
            ValueRef::Blob(secret.as_bytes()),
        ],
    )?;
    Ok(())
}

/// Adds an event that the record with number `seq` took in, for the endpoint that the record with number `endpoint`
/// made. Answers false, and changes nothing, if the endpoint has an event of this id.
pub fn insert_delivery<S: Alter>(
    tx: &mut Transaction<'_, S>,
    seq: Seq,
    endpoint: Seq,
    id: &MsgId,
    at: Moment,
    body: &Body,
) -> Result<bool, Error>
    ensures same_reference { IsOfSame tx.old.conn tx.new.conn }
    ensures done { Answers S.Store tx.old.conn.now tx.new.conn.now result
        (AddsUnlessKnown (record { seq = seq; endpoint = endpoint; id = id.now; at = at; body = body.now })) }
    ensures room { seq < MAX_RECORDS }
    ensures limits { IsTrue (is_msg_id id.now && (is_body body.now && is_moment at)) }
    ensures refused { IsRefusedOf S.Store tx.old.conn.now tx.new.conn.now result
        (codes "INSERT INTO deliveries VALUES(?1, ?2, ?3, ?4, ?5)")
        (Int (pos seq) ∷ Int (pos endpoint) ∷ Text id.now ∷ Int (pos at) ∷ Blob body.now ∷ []) }
    ensures answered { IfErr result (λ error. error ≢ key_taken) }
    ensures spares { SparesCommit S.Store tx.old.conn.now tx.new.conn.now }
{
    let inserted = tx.execute(
        "INSERT INTO deliveries VALUES(?1, ?2, ?3, ?4, ?5)",
        &[
            seq.value(),
            endpoint.value(),
            ValueRef::Text(id.as_bytes()),
            int(at.seconds()),
            ValueRef::Blob(body.as_bytes()),
        ],
    );
    was_added(inserted)
}

// Whether an INSERT added its row. A row that has the same key under a UNIQUE keeps it out.
fn was_added(inserted: Result<usize, Error>) -> Result<bool, Error>
    ensures value { result ≡ is_added inserted }
{
    match inserted {
        Ok(_) => Ok(true),
        Err(Error::SqliteFailure(ErrorCode::ConstraintViolation(Constraint::Unique))) => Ok(false),
        Err(error) => Err(error),
    }
}

/// Adds an attempt, which the record with number `seq` tells of, at the event that the record with number `delivery`
/// took in. `status` is that of the answer, or 0 where none came.
pub fn insert_attempt<S: Alter>(
    tx: &mut Transaction<'_, S>,
    seq: Seq,
    delivery: Seq,
    number: u64,
    status: u16,
    at: Moment,
) -> Result<(), Error>
    requires number { number < 2 ^ 63 }
    ensures same_reference { IsOfSame tx.old.conn tx.new.conn }
    ensures done { Changes S.Store tx.old.conn.now tx.new.conn.now result
        (with_attempt (record { seq = seq; delivery = delivery; number = number; status = status; at = at })) }
    ensures room { seq < MAX_RECORDS }
    ensures limits { IsTrue (is_moment at) }
    ensures refused { IsRefusedOf S.Store tx.old.conn.now tx.new.conn.now result
        (codes "INSERT INTO attempts VALUES(?1, ?2, ?3, ?4, ?5)")
        (Int (pos seq) ∷ Int (pos delivery) ∷ Int (pos number) ∷ Int (pos status) ∷ Int (pos at) ∷ []) }
    ensures spares { SparesCommit S.Store tx.old.conn.now tx.new.conn.now }
{
    tx.execute(
        "INSERT INTO attempts VALUES(?1, ?2, ?3, ?4, ?5)",
        &[
            seq.value(),
            delivery.value(),
            int(number),
            int(u64::from(status)),
            int(at.seconds()),
        ],
    )?;
    Ok(())
}

/// Adds whether the endpoint that the record with number `endpoint` made is subscribed to a topic, which the record
/// with number `set_by` decides.
pub fn insert_topic<S: Alter>(
    tx: &mut Transaction<'_, S>,
    topic: &Name,
    endpoint: Seq,
    subscribed: bool,
    set_by: Seq,
) -> Result<(), Error>
    ensures same_reference { IsOfSame tx.old.conn tx.new.conn }
    ensures done { Changes S.Store tx.old.conn.now tx.new.conn.now result
        (with_topic (record { topic = topic.now; endpoint = endpoint; subscribed = subscribed; set_by = set_by })) }
    ensures room { set_by < MAX_RECORDS }
    ensures limits { IsTrue (is_name topic.now) }
    ensures refused { IsRefusedOf S.Store tx.old.conn.now tx.new.conn.now result
        (codes "INSERT INTO topics VALUES(?1, ?2, ?3, ?4)")
        (Text topic.now ∷ Int (pos endpoint) ∷ Int (pos (flag_number subscribed)) ∷ Int (pos set_by) ∷ []) }
    ensures spares { SparesCommit S.Store tx.old.conn.now tx.new.conn.now }
{
    tx.execute(
        "INSERT INTO topics VALUES(?1, ?2, ?3, ?4)",
        &[
            ValueRef::Text(topic.as_bytes()),
            endpoint.value(),
            int(u64::from(subscribed)),
            set_by.value(),
        ],
    )?;
    Ok(())
}

/// Sets how many records the tables hold.
pub fn update_records<S: Alter>(tx: &mut Transaction<'_, S>, records: u64) -> Result<(), Error>
    requires records { records ≤ MAX_RECORDS }
    ensures same_reference { IsOfSame tx.old.conn tx.new.conn }
    ensures done { Changes S.Store tx.old.conn.now tx.new.conn.now result (with_records records) }
    ensures refused { IsRefusedOf S.Store tx.old.conn.now tx.new.conn.now result
        (codes "UPDATE meta SET records = ?1")
        (Int (pos records) ∷ []) }
    ensures spares { SparesCommit S.Store tx.old.conn.now tx.new.conn.now }
{
    tx.execute("UPDATE meta SET records = ?1", &[int(records)])?;
    Ok(())
}
