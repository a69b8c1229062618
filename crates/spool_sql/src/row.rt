//! The rows of the tables, as they are read.
ghost use Rattle.std.specs.Prelude.{◌≡◌, ◌≢◌, ◌==◌, ◌<◌, ℕ, Bool, List, pos, not, IfOk, IfErr, IsTrue};
ghost use Rattle.sqlite.specs.declared.types.Value.TheVariants.{Int, Text, Blob};
ghost use Rattle.sqlite_value.specs.Order.{column, bytes};
ghost use Rattle.sqlite_trees.specs.Objects.{number_in};
ghost use Rattle.relay_types.specs.Rows as Rows;
ghost use Rattle.relay_types.specs.Values.{is_body, is_max_limit, is_moment, is_msg_id, is_name, is_secret, is_target};
ghost use Rattle.spool_sql.specs.Readable.{IsAt, IsMemoryFault, IsSeq, ShowsAttempt, ShowsDelivery, ShowsEndpoint};
ghost use Rattle.spool_sql.specs.Readable.{ShowsSecret, ShowsTopic};
ghost use Rattle.spool_sql.specs.Stored.{endpoint_in, endpoint_of, delivery_in, delivery_of, attempt_in, attempt_of};
ghost use Rattle.spool_sql.specs.Stored.{flag_number, topic_in, topic_of};

use crate::from_row::FromRow;
use crate::seq::Seq;
use relay_types::{Body, MAX_RECORDS, MaxLimit, Moment, MsgId, Name, ReadFault, Secret, Target};
use sqlite::{Error, ErrorCode, Row};
use sqlite_value::value::ValueRef;
use std::alloc::Global;
use std::sync::Arc;

/// Why the rows of a table were not read.
#[derive(Debug, Drop)]
pub enum RowFault {
    /// The statement failed, or a column has a value of another kind.
    Failed(Error),
    /// A column has a value that no record gives it.
    Unreadable,
}

impl From<Error> for RowFault {
    ghost use Rattle.std.specs.Prelude.{◌≡◌};
    ghost use Rattle.spool_sql.specs.declared.row.RowFault.TheVariants.{Failed};

    ghost from_gives = { λ error fault. fault ≡ Failed error };

    fn from(error: Error) -> RowFault {
        RowFault::Failed(error)
    }
}

/// An endpoint, which the record with number `put` made. The record with number `enabled_by`
/// decides whether it is enabled, and that with number `secrets_by` gave its secrets.
#[derive(Drop)]
pub struct EndpointRow {
    pub put: Seq,
    pub name: Name,
    pub target: Target,
    pub max: MaxLimit,
    pub enabled: bool,
    pub enabled_by: Seq,
    pub secrets_by: Seq,
}

/// An event: the record with number `seq` took it in, for the endpoint that the record with number `endpoint` made.
#[derive(Drop)]
pub struct DeliveryRow {
    pub seq: Seq,
    pub endpoint: Seq,
    pub id: MsgId,
    pub at: Moment,
    pub body: Body,
}

/// An attempt at an event, which the record with number `seq` tells of. `status` is that of the answer, or 0 where none
/// came.
#[derive(Drop)]
pub struct AttemptRow {
    pub seq: Seq,
    pub delivery: Seq,
    pub number: u64,
    pub status: u16,
    pub at: Moment,
}

/// What came of an attempt at the event that the record with number `delivery` took in: `status` is that of the answer,
/// or 0 where none came.
#[derive(Clone, Copy)]
pub struct Tried {
    pub delivery: Seq,
    pub status: u16,
    pub at: Moment,
}

/// Whether the endpoint that the record with number `endpoint` made is subscribed to a topic, as the record with number
/// `set_by` decides.
#[derive(Drop)]
pub struct TopicRow {
    pub topic: Name,
    pub endpoint: Seq,
    pub subscribed: bool,
    pub set_by: Seq,
}

fn read_seq(row: &Row, at: usize) -> Result<Seq, RowFault>
    ensures value { IfOk result (λ seq. seq ≡ number_in (column row.now at)) }
    ensures refused { IfErr result (λ fault. (n : ℕ) → IsAt row.now at (Int (pos n)) → IsSeq n → IsMemoryFault fault) }
{
    let number: u64 = row.get(at)?;
    if number >= MAX_RECORDS {
        return Err(RowFault::Unreadable);
    }
    Ok(Seq::of(number))
}

fn read_moment(row: &Row, at: usize) -> Result<Moment, RowFault>
    ensures value { IfOk result (λ moment. moment ≡ number_in (column row.now at)) }
    ensures refused { IfErr result (λ fault. (n : ℕ) → IsAt row.now at (Int (pos n)) → IsTrue (is_moment n)
        → IsMemoryFault fault) }
{
    let seconds: u64 = row.get(at)?;
    match Moment::of(seconds) {
        Ok(moment) => Ok(moment),
        Err(_) => Err(RowFault::Unreadable),
    }
}

// The bytes of a text or a blob.
fn read_bytes(row: &Row, at: usize) -> Result<&[u8], RowFault>
    ensures value { IfOk result (λ text. text.now ≡ bytes (column row.now at)) }
    ensures of_text { IfErr result (λ fault. (text : List ℕ) → IsAt row.now at (Text text) → IsMemoryFault fault) }
    ensures of_blob { IfErr result (λ fault. (blob : List ℕ) → IsAt row.now at (Blob blob) → IsMemoryFault fault) }
{
    match row.get_ref(at)? {
        ValueRef::Text(text) | ValueRef::Blob(text) => Ok(text),
        _ => Err(RowFault::Unreadable),
    }
}

fn read_id(row: &Row, at: usize) -> Result<MsgId, RowFault>
    ensures value { IfOk result (λ id. id ≡ bytes (column row.now at)) }
    ensures refused { IfErr result (λ fault. (text : List ℕ) → IsAt row.now at (Text text) → IsTrue (is_msg_id text)
        → IsMemoryFault fault) }
{
    match MsgId::read(read_bytes(row, at)?) {
        Ok(id) => Ok(id),
        Err(_) => Err(RowFault::Unreadable),
    }
}

fn read_body(row: &Row, at: usize, alloc: Global) -> Result<Body, RowFault>
    ensures value { IfOk result (λ body. body ≡ bytes (column row.now at)) }
    ensures refused { IfErr result (λ fault. (blob : List ℕ) → IsAt row.now at (Blob blob) → IsTrue (is_body blob)
        → IsMemoryFault fault) }
{
    let bytes = Vec::from_slice(alloc, read_bytes(row, at)?).map_err(Error::from)?;
    let shared = Arc::new(alloc, bytes).map_err(Error::from)?;
    match Body::of(shared) {
        Ok(body) => Ok(body),
        Err(_) => Err(RowFault::Unreadable),
    }
}

fn read_name(row: &Row, at: usize) -> Result<Name, RowFault>
    ensures value { IfOk result (λ name. name ≡ bytes (column row.now at)) }
    ensures refused { IfErr result (λ fault. (text : List ℕ) → IsAt row.now at (Text text) → IsTrue (is_name text)
        → IsMemoryFault fault) }
{
    match Name::read(read_bytes(row, at)?) {
        Ok(name) => Ok(name),
        Err(_) => Err(RowFault::Unreadable),
    }
}

fn read_target(row: &Row, at: usize, alloc: Global) -> Result<Target, RowFault>
    ensures value { IfOk result (λ target. target ≡ bytes (column row.now at)) }
    ensures refused { IfErr result (λ fault. (text : List ℕ) → IsAt row.now at (Text text) → IsTrue (is_target text)
        → IsMemoryFault fault) }
{
    match Target::read(alloc, read_bytes(row, at)?) {
        Ok(target) => Ok(target),
        Err(ReadFault::OutOfMemory) => Err(RowFault::Failed(Error::SqliteFailure(
            ErrorCode::OutOfMemory,
        ))),
        Err(_) => Err(RowFault::Unreadable),
    }
}

fn read_max(row: &Row, at: usize) -> Result<MaxLimit, RowFault>
    ensures value { IfOk result (λ max. max ≡ number_in (column row.now at)) }
    ensures refused { IfErr result (λ fault. (n : ℕ) → IsAt row.now at (Int (pos n)) → IsTrue (is_max_limit n)
        → IsMemoryFault fault) }
{
    let limit: u64 = row.get(at)?;
    match MaxLimit::of(limit) {
        Ok(max) => Ok(max),
        Err(_) => Err(RowFault::Unreadable),
    }
}

fn read_flag(row: &Row, at: usize) -> Result<bool, RowFault>
    ensures value { IfOk result (λ flag. flag ≡ not (number_in (column row.now at) == 0)) }
    ensures refused { IfErr result (λ fault. (flag : Bool) → IsAt row.now at (Int (pos (flag_number flag)))
        → IsMemoryFault fault) }
{
    let number: u64 = row.get(at)?;
    match number {
        0 => Ok(false),
        1 => Ok(true),
        _ => Err(RowFault::Unreadable),
    }
}

impl FromRow for Secret {
    ghost Value = { List ℕ };

    ghost of = { λ secret. secret };

    ghost in_row = { λ row. bytes (column row 0) };

    ghost Shows = { ShowsSecret };

    fn read(row: &Row, _: Global) -> Result<Secret, RowFault> {
        match Secret::of(read_bytes(row, 0)?) {
            Ok(secret) => Ok(secret),
            Err(_) => Err(RowFault::Unreadable),
        }
    }
}

impl FromRow for EndpointRow {
    ghost Value = { Rows.EndpointRow };

    ghost of = { endpoint_of };

    ghost in_row = { endpoint_in };

    ghost Shows = { ShowsEndpoint };

    fn read(row: &Row, alloc: Global) -> Result<EndpointRow, RowFault> {
        Ok(EndpointRow {
            put: read_seq(row, 0)?,
            name: read_name(row, 1)?,
            target: read_target(row, 2, alloc)?,
            max: read_max(row, 3)?,
            enabled: read_flag(row, 4)?,
            enabled_by: read_seq(row, 5)?,
            secrets_by: read_seq(row, 6)?,
        })
    }
}

impl FromRow for DeliveryRow {
    ghost Value = { Rows.DeliveryRow };

    ghost of = { delivery_of };

    ghost in_row = { delivery_in };

    ghost Shows = { ShowsDelivery };

    fn read(row: &Row, alloc: Global) -> Result<DeliveryRow, RowFault> {
        Ok(DeliveryRow {
            seq: read_seq(row, 0)?,
            endpoint: read_seq(row, 1)?,
            id: read_id(row, 2)?,
            at: read_moment(row, 3)?,
            body: read_body(row, 4, alloc)?,
        })
    }
}

impl FromRow for AttemptRow {
    ghost Value = { Rows.AttemptRow };

    ghost of = { attempt_of };

    ghost in_row = { attempt_in };

    ghost Shows = { ShowsAttempt };

    fn read(row: &Row, _: Global) -> Result<AttemptRow, RowFault> {
        let status: u32 = row.get(3)?;
        let Ok(status) = u16::try_from(status) else {
            return Err(RowFault::Unreadable);
        };
        Ok(AttemptRow {
            seq: read_seq(row, 0)?,
            delivery: read_seq(row, 1)?,
            number: row.get(2)?,
            status,
            at: read_moment(row, 4)?,
        })
    }
}

impl FromRow for TopicRow {
    ghost Value = { Rows.TopicRow };

    ghost of = { topic_of };

    ghost in_row = { topic_in };

    ghost Shows = { ShowsTopic };

    fn read(row: &Row, _: Global) -> Result<TopicRow, RowFault> {
        Ok(TopicRow {
            topic: read_name(row, 0)?,
            endpoint: read_seq(row, 1)?,
            subscribed: read_flag(row, 2)?,
            set_by: read_seq(row, 3)?,
        })
    }
}
