//! Stores, in memory.

use sqlite::{Alter, Connection, MemStore, Row};
use std::alloc::Global;
use std::process::Abort;

pub(crate) const MARK: u64 = 7;

/// A query of one number, and that number.
pub(crate) type Count = (&'static str, i64);

pub(crate) fn in_memory(rt: &impl Abort, alloc: Global) -> Connection<MemStore> {
    match Connection::open_in_memory(alloc) {
        Ok(conn) => conn,
        Err(_) => panic!(rt; "no store"),
    }
}

/// The store of the connection, opened over again.
pub(crate) fn again(
    rt: &impl Abort,
    alloc: Global,
    conn: Connection<MemStore>,
) -> Connection<MemStore> {
    match Connection::over(alloc, conn.into_store()) {
        Ok(conn) => conn,
        Err((_, _)) => panic!(rt; "the store was not opened over again"),
    }
}

pub(crate) fn answer<S: Alter>(rt: &impl Abort, conn: &mut Connection<S>, sql: &str) -> Vec<Row> {
    conn.query_all(sql, &[]).expect(rt, "rows")
}

/// The only number that this asks for.
pub(crate) fn number<S: Alter>(rt: &impl Abort, conn: &mut Connection<S>, sql: &str) -> i64 {
    let row = conn.query_row(sql, &[]).expect(rt, "a row");
    row.get(0).expect(rt, "a number")
}

/// How many this counts.
pub(crate) fn count<S: Alter>(rt: &impl Abort, conn: &mut Connection<S>, sql: &str) -> u64 {
    u64::try_from(number(rt, conn, sql)).expect(rt, "a count")
}

fn same_number(rt: &impl Abort, found: i64, wanted: i64, sql: &str) {
    assert!(rt; found == wanted, "{found} at {sql}");
}

/// Each query gives its number.
pub(crate) fn count_all<S: Alter>(rt: &impl Abort, conn: &mut Connection<S>, counts: &[Count]) {
    for (sql, wanted) in counts {
        same_number(rt, number(rt, conn, sql), *wanted, sql);
    }
}

pub(crate) static TABLES: &[&str] = &[
    "SELECT rowid, * FROM meta",
    "SELECT rowid, * FROM endpoints",
    "SELECT rowid, * FROM secrets",
    "SELECT rowid, * FROM deliveries",
    "SELECT rowid, * FROM attempts",
    "SELECT rowid, * FROM topics",
];

fn add_rows<S: Alter>(rt: &impl Abort, conn: &mut Connection<S>, sql: &str, text: &mut String) {
    let rows = answer(rt, conn, sql);
    write!(text, "{rows:?}").expect(rt, "memory");
}

/// The rows that the queries give.
pub(crate) fn rows_of<S: Alter>(
    rt: &impl Abort,
    alloc: Global,
    conn: &mut Connection<S>,
    queries: &[&str],
) -> String {
    let mut text = String::new(alloc);
    for sql in queries {
        add_rows(rt, conn, sql, &mut text);
    }
    text
}

/// All rows, table by table.
pub(crate) fn all_rows<S: Alter>(
    rt: &impl Abort,
    alloc: Global,
    conn: &mut Connection<S>,
) -> String {
    rows_of(rt, alloc, conn, TABLES)
}
