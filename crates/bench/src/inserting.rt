//! The rows of a run by bare statements, 256 in one transaction.
use crate::batches::BATCH;
use crate::events::{ENDPOINTS, bytes_of_body, id_text, scattered};
use crate::failed::Failed;
use sqlite::{Alter, Connection, Transaction};
use sqlite_value::value::ValueRef;
use std::alloc::Global;

const ENDPOINTS_TABLE: &str =
    "CREATE TABLE endpoints(put INTEGER PRIMARY KEY, name TEXT NOT NULL UNIQUE, url TEXT NOT NULL) STRICT";

const DELIVERIES_TABLE: &str =
    "CREATE TABLE deliveries(seq INTEGER PRIMARY KEY, endpoint INTEGER NOT NULL REFERENCES endpoints(put), \
     id TEXT NOT NULL, at INTEGER NOT NULL, body BLOB NOT NULL, UNIQUE(endpoint, id)) STRICT";

/// Inserts the rows of 100 endpoints and of as many events of 1 KiB.
pub(crate) fn insert_rows<S: Alter>(
    alloc: Global,
    conn: &mut Connection<S>,
    count: u32,
) -> Result<(), Failed> {
    execute(conn, ENDPOINTS_TABLE, &[])?;
    execute(conn, DELIVERIES_TABLE, &[])?;
    for number in 0..ENDPOINTS {
        insert_endpoint(alloc, conn, number)?;
    }
    let body = bytes_of_body(alloc)?;
    for batch in 0..count.div_ceil(BATCH) {
        insert_batch(alloc, conn, batch.saturating_mul(BATCH), count, &body)?;
    }
    Ok(())
}

fn execute<S: Alter>(
    conn: &mut Connection<S>,
    sql: &str,
    values: &[ValueRef<'_>],
) -> Result<(), Failed> {
    conn.execute(sql, values)?;
    Ok(())
}

fn insert_endpoint<S: Alter>(
    alloc: Global,
    conn: &mut Connection<S>,
    number: u32,
) -> Result<(), Failed> {
    let name = format!(in alloc; "e{number}")?;
    execute(
        conn,
        "INSERT INTO endpoints VALUES(?1, ?2, 'http://127.0.0.1:9000/hook')",
        &[
            ValueRef::Int(i64::from(number)),
            ValueRef::Text(name.as_bytes()),
        ],
    )
}

/// Inserts the events from this one on, 256 of them at most, in one transaction.
fn insert_batch<S: Alter>(
    alloc: Global,
    conn: &mut Connection<S>,
    from: u32,
    count: u32,
    body: &[u8],
) -> Result<(), Failed> {
    if !conn.is_autocommit() {
        return Err(Failed);
    }
    let upto = count.min(from.saturating_add(BATCH));
    let mut tx = conn.transaction();
    match insert_events(alloc, &mut tx, (from, upto), body) {
        Ok(()) => Ok(tx.commit()?),
        Err(Failed) => Err(Failed),
    }
}

fn insert_events<S: Alter>(
    alloc: Global,
    tx: &mut Transaction<'_, S>,
    (from, upto): (u32, u32),
    body: &[u8],
) -> Result<(), Failed> {
    for number in from..upto {
        let id = id_text(alloc, scattered(number))?;
        insert_row(tx, &row_of(number, id.as_bytes(), body))?;
    }
    Ok(())
}

fn row_of<'a>(number: u32, id: &'a [u8], body: &'a [u8]) -> [ValueRef<'a>; 5] {
    [
        ValueRef::Int(i64::from(number)),
        ValueRef::Int(i64::from(number % ENDPOINTS)),
        ValueRef::Text(id),
        ValueRef::Int(1000),
        ValueRef::Blob(body),
    ]
}

fn insert_row<S: Alter>(tx: &mut Transaction<'_, S>, row: &[ValueRef<'_>]) -> Result<(), Failed> {
    tx.execute("INSERT INTO deliveries VALUES(?1, ?2, ?3, ?4, ?5)", row)?;
    Ok(())
}
