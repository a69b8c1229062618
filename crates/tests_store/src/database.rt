//! Databases in memory, and what is asked of them.

use sqlite::{Alter, Connection, Error, MemStore, Row};
use sqlite_value::value::ValueRef;
use std::alloc::Global;
use std::process::Abort;
use std::test::Fail;

/// A query of one number, and that number.
pub(crate) type Count = (&'static str, i64);

pub(crate) fn holds(rt: &impl Abort, is: bool, place: usize) {
    assert!(rt; is, "step {place}");
}

fn first_of(row: &Row) -> Option<i64> {
    match row.get_ref(0) {
        Ok(ValueRef::Int(number)) => Some(number),
        _ => None,
    }
}

/// The number that the query gives, if it gives one.
fn number<S: Alter>(conn: &mut Connection<S>, sql: &str) -> Result<Option<i64>, Error> {
    let row = conn.query_row(sql, &[])?;
    Ok(first_of(&row))
}

fn is_counted<S: Alter>(
    rt: &impl Abort,
    conn: &mut Connection<S>,
    sql: &str,
    wanted: i64,
) -> Result<(), Error> {
    match number(conn, sql)? {
        Some(found) => assert!(rt; found == wanted, "{found} at {sql}"),
        None => panic!(rt; "no number at {sql}"),
    }
    Ok(())
}

/// Runs the statements.
pub(crate) fn run<S: Alter>(conn: &mut Connection<S>, sql: &str) -> Result<(), Error> {
    conn.execute_batch(sql)
}

/// Whether each query gives its number.
pub(crate) fn count_all<S: Alter>(
    rt: &impl Abort,
    conn: &mut Connection<S>,
    counts: &[Count],
) -> Result<(), Fail> {
    for (sql, wanted) in counts {
        is_counted(rt, conn, sql, *wanted)?;
    }
    Ok(())
}

/// The store, opened over again.
pub(crate) fn again(
    rt: &impl Abort,
    alloc: Global,
    conn: Connection<MemStore>,
) -> Connection<MemStore> {
    match Connection::over(alloc, conn.into_store()) {
        Ok(conn) => conn,
        Err((_, _)) => panic!(rt; "the store was not opened again"),
    }
}
