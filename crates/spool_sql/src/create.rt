//! The making of the tables.
ghost use Rattle.sqlite.specs.Schema.{Schema};
ghost use Rattle.sqlite.specs.Table.{Table};
ghost use Rattle.spool_sql.specs.Tables.{Defines, first_schema, no_schema, relay_schema};
ghost use Rattle.spool_sql.specs.Steps.{Achieves, Adds, Grows, Founds, IsOfSame, SparesCommit};

use crate::migrate::create_topics;
use crate::opened::prepare_probe;
use sqlite::{Alter, Error, Transaction};

const META: &str = "CREATE TABLE meta(k INTEGER PRIMARY KEY CHECK(k = 1), app TEXT NOT NULL, \
    version INTEGER NOT NULL, records INTEGER NOT NULL) STRICT";

const ENDPOINTS: &str =
    "CREATE TABLE endpoints(put INTEGER PRIMARY KEY, name TEXT NOT NULL UNIQUE, \
    url TEXT NOT NULL, max INTEGER NOT NULL, enabled INTEGER NOT NULL, \
    enabled_by INTEGER NOT NULL, secrets_by INTEGER NOT NULL) STRICT";

const SECRETS: &str = "CREATE TABLE secrets(endpoint INTEGER NOT NULL REFERENCES endpoints(put), \
    place INTEGER NOT NULL, secret BLOB NOT NULL, \
    PRIMARY KEY(endpoint, place)) STRICT";

const DELIVERIES: &str = "CREATE TABLE deliveries(seq INTEGER PRIMARY KEY, \
    endpoint INTEGER NOT NULL REFERENCES endpoints(put), id TEXT NOT NULL, \
    at INTEGER NOT NULL, body BLOB NOT NULL, UNIQUE(endpoint, id)) STRICT";

const ATTEMPTS: &str = "CREATE TABLE attempts(seq INTEGER PRIMARY KEY, \
    delivery INTEGER NOT NULL REFERENCES deliveries(seq), \
    number INTEGER NOT NULL, status INTEGER NOT NULL, at INTEGER NOT NULL, \
    UNIQUE(delivery, number)) STRICT";

/// Makes the six tables and the row of `meta`, in a store without tables: the rows of the history with no record. The
/// connection then has the statement of `probe` compiled.
///
/// A table that is there already is refused as `NameTaken`.
pub fn create_tables<S: Alter>(tx: &mut Transaction<'_, S>) -> Result<(), Error>
    ensures same_reference { IsOfSame tx.old.conn tx.new.conn }
    ensures done { Achieves S.Store tx.old.conn.now tx.new.conn.now result (Founds no_schema) }
    ensures spares { SparesCommit S.Store tx.old.conn.now tx.new.conn.now }
{
    create_first_schema(tx)?;
    create_topics(tx)?;
    insert_first_meta(tx)?;
    prepare_probe(tx)
}

// The five tables of version 1.
fn create_first_schema<S: Alter>(tx: &mut Transaction<'_, S>) -> Result<(), Error>
    ensures same_reference { IsOfSame tx.old.conn tx.new.conn }
    ensures done { Achieves S.Store tx.old.conn.now tx.new.conn.now result (Grows no_schema first_schema) }
    ensures spares { SparesCommit S.Store tx.old.conn.now tx.new.conn.now }
{
    create(tx, META)?;
    create(tx, ENDPOINTS)?;
    create(tx, SECRETS)?;
    create(tx, DELIVERIES)?;
    create(tx, ATTEMPTS)
}

// The table that the text defines.
fn create<S: Alter>(tx: &mut Transaction<'_, S>, sql: &str) -> Result<(), Error>
    ensures same_reference { IsOfSame tx.old.conn tx.new.conn }
    ensures done { (schema : Schema) (table : Table) → Defines schema sql.now table
        → Achieves S.Store tx.old.conn.now tx.new.conn.now result (Adds schema table) }
    ensures spares { SparesCommit S.Store tx.old.conn.now tx.new.conn.now }
{
    tx.execute(sql, &[])?;
    Ok(())
}

fn insert_first_meta<S: Alter>(tx: &mut Transaction<'_, S>) -> Result<(), Error>
    ensures same_reference { IsOfSame tx.old.conn tx.new.conn }
    ensures done { Achieves S.Store tx.old.conn.now tx.new.conn.now result (Founds relay_schema) }
    ensures spares { SparesCommit S.Store tx.old.conn.now tx.new.conn.now }
{
    tx.execute("INSERT INTO meta VALUES(1, 'webhook-relay', 2, 0)", &[])?;
    Ok(())
}
