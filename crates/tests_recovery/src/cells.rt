//! Stores of random histories, of which one cell was changed.
ghost use Rattle.std.specs.Prelude.{◌<◌};

use crate::draws::Numbers;
use crate::histories::{Way, history, unchanged};
use crate::sound::refusal_of;
use crate::stores::count;
use sqlite::{Alter, Connection, MemStore, Row};
use std::alloc::Global;
use std::process::Abort;

/// A table, and a column of it.
#[derive(Clone, Copy)]
struct Column(&'static str, &'static str);

static COLUMNS: [Column; 28] = [
    Column("meta", "k"),
    Column("meta", "app"),
    Column("meta", "version"),
    Column("meta", "records"),
    Column("endpoints", "put"),
    Column("endpoints", "name"),
    Column("endpoints", "url"),
    Column("endpoints", "max"),
    Column("endpoints", "enabled"),
    Column("endpoints", "enabled_by"),
    Column("endpoints", "secrets_by"),
    Column("secrets", "endpoint"),
    Column("secrets", "place"),
    Column("secrets", "secret"),
    Column("deliveries", "seq"),
    Column("deliveries", "endpoint"),
    Column("deliveries", "id"),
    Column("deliveries", "at"),
    Column("deliveries", "body"),
    Column("attempts", "seq"),
    Column("attempts", "delivery"),
    Column("attempts", "number"),
    Column("attempts", "status"),
    Column("attempts", "at"),
    Column("topics", "topic"),
    Column("topics", "endpoint"),
    Column("topics", "subscribed"),
    Column("topics", "set_by"),
];

/// What is put after the column of another row, or of the same one.
static NEAR: [&str; 4] = ["", "", " + 1", " - 1"];

/// Values of their own.
static FAR: [&str; 20] = [
    "0",
    "1",
    "-1",
    "100",
    "204",
    "410",
    "1000",
    "1001",
    "1099511627776",
    "1099511627777",
    "4611686018427387904",
    "9223372036854775807",
    "'x'",
    "'A'",
    "'a b'",
    "''",
    "'http://x'",
    "x''",
    "x'303132333435363738396162636465663031323334353637'",
    "NULL",
];

/// A cell of the row with this rowid.
#[derive(Clone, Copy)]
struct Cell {
    column: Column,
    rowid: i64,
}

/// A cell, what it held and what it is to hold.
#[derive(Drop)]
struct Change {
    cell: Cell,
    old: Row,
    new: Row,
}

/// What is asked of the row at this place of the table, and its rowid.
fn row_at<S: Alter>(
    rt: &impl Abort,
    alloc: Global,
    conn: &mut Connection<S>,
    (table, what, place): (&str, &str, u64),
) -> Row {
    let sql = format!(in alloc;
        "SELECT {what}, rowid FROM {table} ORDER BY rowid LIMIT 1 OFFSET {place}"
    ).expect(rt, "memory");
    conn.query_row(&sql, &[]).expect(rt, "a row")
}

/// How many rows the table has.
fn rows<S: Alter>(rt: &impl Abort, alloc: Global, conn: &mut Connection<S>, table: &str) -> u64 {
    let sql = format!(in alloc; "SELECT count(*) FROM {table}").expect(rt, "memory");
    count(rt, conn, &sql)
}

/// Whether the cell has this value now. The schema may refuse it.
fn set<S: Alter>(
    rt: &impl Abort,
    alloc: Global,
    conn: &mut Connection<S>,
    cell: Cell,
    value: &Row,
) -> bool {
    let (Column(table, column), rowid) = (cell.column, cell.rowid);
    let sql = format!(in alloc; "UPDATE {table} SET {column} = ?1 WHERE rowid = {rowid}").expect(
        rt, "memory",
    );
    let value = value.get_ref(0).expect(rt, "a value");
    conn.execute(&sql, &[value]).is_ok()
}

/// What a cell of this column is to be, by the column of another row.
fn draw_value(rt: &impl Abort, alloc: Global, numbers: &mut Numbers, column: &str) -> String {
    let (value, more) = if numbers.below(2) == 0 {
        (FAR[numbers.below(20) as usize], "")
    } else {
        (column, NEAR[numbers.below(4) as usize])
    };
    format!(in alloc; "{value}{more}").expect(rt, "memory")
}

/// A change of a cell of this column, whose table has so many rows.
fn draw_cell<S: Alter>(
    rt: &impl Abort,
    alloc: Global,
    conn: &mut Connection<S>,
    numbers: &mut Numbers,
    column: Column,
    rows: u64,
) -> Change
    requires { 0 < rows }
{
    let Column(table, name) = column;
    let (place, other) = (numbers.below(rows), numbers.below(rows));
    let old = row_at(rt, alloc, conn, (table, name, place));
    let rowid = old.get(1).expect(rt, "a rowid");
    let value = draw_value(rt, alloc, numbers, name);
    let new = row_at(rt, alloc, conn, (table, &value, other));
    let cell = Cell { column, rowid };
    Change { cell, old, new }
}

/// A change that is drawn. None where its table is empty.
fn draw_change<S: Alter>(
    rt: &impl Abort,
    alloc: Global,
    conn: &mut Connection<S>,
    numbers: &mut Numbers,
) -> Option<Change> {
    let column = COLUMNS[numbers.below(28) as usize];
    let rows = rows(rt, alloc, conn, column.0);
    if rows == 0 {
        return None;
    }
    Some(draw_cell(rt, alloc, conn, numbers, column, rows))
}

/// A change that was made. None where its table is empty, or the schema refuses it.
fn changed<S: Alter>(
    rt: &impl Abort,
    alloc: Global,
    conn: &mut Connection<S>,
    numbers: &mut Numbers,
) -> Option<Change> {
    let change = draw_change(rt, alloc, conn, numbers)?;
    set(rt, alloc, conn, change.cell, &change.new).then_some(change)
}

/// The cell that was changed, which may have another rowid now.
fn moved(rt: &impl Abort, change: &Change) -> Cell {
    let Cell { column, rowid } = change.cell;
    let rowid = match column.1 {
        "k" | "put" | "seq" => change.new.get(0).expect(rt, "a rowid"),
        _ => rowid,
    };
    Cell { column, rowid }
}

fn give_back<S: Alter>(rt: &impl Abort, alloc: Global, conn: &mut Connection<S>, change: &Change) {
    let cell = moved(rt, change);
    assert!(rt; set(rt, alloc, conn, cell, &change.old));
}

/// How often a store was opened after a change, and how often it wasn't.
#[derive(Clone, Copy)]
struct Told {
    opened: u64,
    refused: u64,
}

impl Told {
    fn add(&mut self, is_opened: bool) {
        if is_opened {
            self.opened = self.opened.saturating_add(1);
        } else {
            self.refused = self.refused.saturating_add(1);
        }
    }
}

/// Checks that the opening of the changed store answers what its rows call for, and leaves them as they were. Whether
/// it is opened is counted.
fn check_answer(
    rt: &impl Abort,
    alloc: Global,
    conn: Connection<MemStore>,
    numbers: &mut Numbers,
    told: &mut Told,
) -> Connection<MemStore> {
    let mut conn = conn;
    let refusal = refusal_of(rt, &mut conn);
    let conn = unchanged(rt, alloc, Way::Tried, conn, numbers, refusal);
    told.add(refusal.is_empty());
    conn
}

/// Changes a cell of the store that is drawn, and gives it its value again.
fn check_change(
    rt: &impl Abort,
    alloc: Global,
    conn: Connection<MemStore>,
    numbers: &mut Numbers,
    told: &mut Told,
) -> Connection<MemStore> {
    let mut conn = conn;
    let Some(change) = changed(rt, alloc, &mut conn, numbers) else {
        return conn;
    };
    let mut conn = check_answer(rt, alloc, conn, numbers, told);
    give_back(rt, alloc, &mut conn, &change);
    conn
}

/// How many cells of a history are changed, one at a time.
const CHANGES: u32 = 6;

fn check_history(rt: &impl Abort, alloc: Global, first: u64, told: &mut Told) {
    let mut conn = history(rt, alloc, first);
    let mut numbers = Numbers::from(first);
    for _ in 0..CHANGES {
        conn = check_change(rt, alloc, conn, &mut numbers, told);
    }
}

#[test]
fn a_cell_that_is_changed_is_refused_or_read(rt: HostRuntime) {
    let mut told = Told {
        opened: 0,
        refused: 0,
    };
    for first in 250..500 {
        check_history(&rt, rt.alloc(), first, &mut told);
    }
    let (opened, refused) = (told.opened, told.refused);
    assert!(rt;
        opened > 200 && refused > 200,
        "opened {opened} times, refused {refused}"
    );
}
