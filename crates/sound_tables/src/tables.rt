//! The tables, each read whole by one statement.
ghost use Rattle.std.specs.Prelude.{◌≡◌};
ghost use Rattle.spool_sql.specs.Tables.{IsOwn, relay_schema};
ghost use Rattle.sound_tables.specs.Reading.{Reads};
ghost use Rattle.sound_tables.specs.Shown.{ShowsMeta, ShowsEndpoint, ShowsSecret, ShowsDelivery, ShowsAttempt};
ghost use Rattle.sound_tables.specs.Shown.{ShowsTopic};
ghost use Rattle.sound_tables.specs.Tables.{Yields, meta_columns, endpoint_columns, secret_columns};
ghost use Rattle.sound_tables.specs.Tables.{delivery_columns, attempt_columns, topic_columns};

use crate::meta::Meta;
use crate::reading::read_table;
use crate::secret::Secret;
use crate::topic::Topic;
use sound_rows::{Attempt, Delivery, Endpoint};
use sqlite::{Alter, Connection, Error};
use std::alloc::Global;

/// The rows of `meta` that name the relay, or nothing where a row is none.
pub(crate) fn read_meta<S: Alter>(
    conn: &mut Connection<S>,
    alloc: Global,
) -> Result<Option<Vec<Meta>>, Error>
    ensures { Reads S.Store IsOwn (λ db. Yields ShowsMeta meta_columns (db.trees 0)) conn.old conn.new result }
{
    read_table(
        conn,
        "SELECT k, app, version, records FROM meta ORDER BY k",
        alloc,
    )
}

/// The numbers in the rows of `endpoints`, or nothing where a row is none.
pub(crate) fn read_endpoints<S: Alter>(
    conn: &mut Connection<S>,
    alloc: Global,
) -> Result<Option<Vec<Endpoint>>, Error>
    ensures { Reads S.Store IsOwn (λ db. Yields ShowsEndpoint endpoint_columns (db.trees 1)) conn.old conn.new result }
{
    read_table(
        conn,
        "SELECT put, name, url, max, enabled, enabled_by, secrets_by FROM endpoints ORDER BY put",
        alloc,
    )
}

/// Where the secrets of `secrets` stand, or nothing where a row is none.
pub(crate) fn read_secrets<S: Alter>(
    conn: &mut Connection<S>,
    alloc: Global,
) -> Result<Option<Vec<Secret>>, Error>
    ensures { Reads S.Store IsOwn (λ db. Yields ShowsSecret secret_columns (db.trees 3)) conn.old conn.new result }
{
    read_table(
        conn,
        "SELECT rowid, endpoint, place, secret FROM secrets ORDER BY rowid",
        alloc,
    )
}

/// The numbers in the rows of `deliveries`, or nothing where a row is none.
pub(crate) fn read_deliveries<S: Alter>(
    conn: &mut Connection<S>,
    alloc: Global,
) -> Result<Option<Vec<Delivery>>, Error>
    ensures { Reads S.Store IsOwn (λ db. Yields ShowsDelivery delivery_columns (db.trees 5)) conn.old conn.new result }
{
    read_table(
        conn,
        "SELECT seq, endpoint, id, at, body FROM deliveries ORDER BY seq",
        alloc,
    )
}

/// The numbers in the rows of `attempts`, or nothing where a row is none.
pub(crate) fn read_attempts<S: Alter>(
    conn: &mut Connection<S>,
    alloc: Global,
) -> Result<Option<Vec<Attempt>>, Error>
    ensures { Reads S.Store IsOwn (λ db. Yields ShowsAttempt attempt_columns (db.trees 7)) conn.old conn.new result }
{
    read_table(
        conn,
        "SELECT seq, delivery, number, status, at FROM attempts ORDER BY seq",
        alloc,
    )
}

/// The rows of `topics`, or nothing if one of them isn't a row of ours.
pub(crate) fn read_topics<S: Alter>(
    conn: &mut Connection<S>,
    alloc: Global,
) -> Result<Option<Vec<Topic>>, Error>
    ensures { Reads S.Store (λ schema. schema ≡ relay_schema) (λ db. Yields ShowsTopic topic_columns (db.trees 9))
        conn.old conn.new result }
{
    read_table(
        conn,
        "SELECT rowid, topic, endpoint, subscribed, set_by FROM topics ORDER BY rowid",
        alloc,
    )
}
