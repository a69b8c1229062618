//! The rows of the tables beside `meta`.
ghost use Rattle.std.specs.Prelude.{IfOk, IfErr, IsTrue, OnOk};
ghost use Rattle.sqlite.specs.Effect.{Database};
ghost use Rattle.sqlite.specs.State.{IsUnchanged};
ghost use Rattle.spool_sql.specs.Readable.{IsRefusal};
ghost use Rattle.spool_sql.specs.Steps.{IfClean};
ghost use Rattle.spool_sql.specs.Tables.{IsOwn};
ghost use Rattle.sound_tables.specs.Checks.{TellsStored, TellsEndpoints, TellsEvents, TellsTopics};
ghost use Rattle.sound_tables.specs.Reading.{Looks, Reads};
ghost use Rattle.sound_tables.specs.Versions.{IsReadable};

use crate::secret::Secret;
use crate::tables::{read_attempts, read_deliveries, read_endpoints, read_secrets, read_topics};
use crate::topic::Topic;
use crate::version::Version;
use sound_rows::{Attempt, Delivery, Endpoint};
use sqlite::{Alter, Connection, Error};
use std::alloc::Global;

/// What the rows of the tables show, in the order in which the store gave them.
#[derive(Drop)]
pub(crate) struct StoredRows {
    pub endpoints: Vec<Endpoint>,
    pub secrets: Vec<Secret>,
    pub deliveries: Vec<Delivery>,
    pub attempts: Vec<Attempt>,
    pub topics: Vec<Topic>,
}

/// The rows of the tables that this version has, or nothing where a row is none of theirs.
pub(crate) fn read_stored<S: Alter>(
    conn: &mut Connection<S>,
    version: Version,
    alloc: Global,
) -> Result<Option<StoredRows>, Error>
    ensures { Reads S.Store (IsReadable version) (TellsStored version) conn.old conn.new result }
{
    let (endpoints, secrets) = read_endpoint_tables(conn, alloc)?;
    let (deliveries, attempts, topics) = read_record_tables(conn, version, alloc)?;
    Ok(all_of(endpoints, secrets, deliveries, attempts, topics))
}

// The rows of the tables that refer to endpoints and events.
fn read_record_tables<S: Alter>(
    conn: &mut Connection<S>,
    version: Version,
    alloc: Global,
) -> Result<
    (
        Option<Vec<Delivery>>,
        Option<Vec<Attempt>>,
        Option<Vec<Topic>>,
    ),
    Error,
>
    ensures { Reads S.Store (IsReadable version)
        (λ db told. TellsEvents db told.0 told.1 × TellsTopics version db told.2) conn.old conn.new result }
{
    let (deliveries, attempts) = read_event_tables(conn, alloc)?;
    let topics = topics_of(conn, version, alloc)?;
    Ok((deliveries, attempts, topics))
}

// The topics of this version, of which the first has no table.
fn topics_of<S: Alter>(
    conn: &mut Connection<S>,
    version: Version,
    alloc: Global,
) -> Result<Option<Vec<Topic>>, Error>
    ensures looks { Looks S.Store conn.old conn.new }
    ensures found { IfClean S.Store conn.old conn.new (λ a _. IsReadable version a.now.schema
        → IfOk result (TellsTopics version a.now)) }
    ensures same { IfClean S.Store conn.old conn.new (λ a b. IsTrue a.is_open → OnOk result (IsUnchanged a b)) }
    ensures fault { IfClean S.Store conn.old conn.new (λ a b. IsReadable version a.now.schema
        → IfErr result (IsRefusal a b)) }
{
    match version {
        Version::First => Ok(Some(Vec::new(alloc))),
        Version::Second => read_topics(conn, alloc),
    }
}

fn read_endpoint_tables<S: Alter>(
    conn: &mut Connection<S>,
    alloc: Global,
) -> Result<(Option<Vec<Endpoint>>, Option<Vec<Secret>>), Error>
    ensures { Reads S.Store IsOwn (λ db told. TellsEndpoints db told.0 told.1) conn.old conn.new result }
{
    let endpoints = read_endpoints(conn, alloc)?;
    let secrets = read_secrets(conn, alloc)?;
    Ok((endpoints, secrets))
}

fn read_event_tables<S: Alter>(
    conn: &mut Connection<S>,
    alloc: Global,
) -> Result<(Option<Vec<Delivery>>, Option<Vec<Attempt>>), Error>
    ensures { Reads S.Store IsOwn (λ db told. TellsEvents db told.0 told.1) conn.old conn.new result }
{
    let deliveries = read_deliveries(conn, alloc)?;
    let attempts = read_attempts(conn, alloc)?;
    Ok((deliveries, attempts))
}

// All of them, where each was read.
fn all_of(
    endpoints: Option<Vec<Endpoint>>,
    secrets: Option<Vec<Secret>>,
    deliveries: Option<Vec<Delivery>>,
    attempts: Option<Vec<Attempt>>,
    topics: Option<Vec<Topic>>,
) -> Option<StoredRows>
    ensures { (v : Version) (db : Database) → TellsEndpoints db endpoints secrets → TellsEvents db deliveries attempts
        → TellsTopics v db topics → TellsStored v db result }
{
    Some(StoredRows {
        endpoints: endpoints?,
        secrets: secrets?,
        deliveries: deliveries?,
        attempts: attempts?,
        topics: topics?,
    })
}
