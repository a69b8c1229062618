//! Stores whose rows anyone may have written, and what their opening answers.
ghost use Rattle.std.specs.Prelude.{◌≡◌, []};

use crate::stores::{Count, MARK, TABLES, again, count_all, in_memory, rows_of};
use delivery_book::Row;
use desk::{Command, Desk, Fault, Refusal};
use permits::{PARTS, Pool};
use recovery::reopen;
use relay_types::{Body, MAX_RECORDS, Moment, MsgId, Name, State};
use spool::{Books, OpenFault, Vault};
use sqlite::{Alter, Connection, MemStore};
use sqlite_value::value::ValueRef;
use std::alloc::Global;
use std::marker::Brand;
use std::process::Abort;
use std::sync::Arc;
use std::sync::ledger::{Blank, Ledger};
use std::test::Fail;

/// What stands in a store before its texts are executed.
#[derive(Clone, Copy)]
pub(crate) enum Start {
    /// No table.
    Nothing,
    /// The rows of the empty history.
    Ours,
    /// The same in the five tables of version 1.
    First,
    /// Those of an endpoint, an event with so many bytes and an attempt at it.
    Body(usize),
}

/// The queries that tell all of a store.
#[derive(Clone, Copy)]
pub(crate) enum Queries {
    /// All rows, table by table. Not written out in each file: the proof of a test reads all of its files.
    Rows,
    These(&'static [&'static str]),
}

/// What is in a store, the queries that tell all of it, what its opening answers, and numbers that
/// it has before and after it.
pub(crate) struct File(
    pub Start,
    pub &'static [&'static str],
    pub Queries,
    pub &'static str,
    pub &'static [Count],
);

pub(crate) const ROWS: Queries = Queries::Rows;

/// What a relay executed that made tables of version 1.
const FIRST: &str = "CREATE TABLE meta(k INTEGER PRIMARY KEY CHECK(k = 1), app TEXT NOT NULL, \
     version INTEGER NOT NULL, records INTEGER NOT NULL) STRICT; \
     CREATE TABLE endpoints(put INTEGER PRIMARY KEY, name TEXT NOT NULL UNIQUE, \
     url TEXT NOT NULL, max INTEGER NOT NULL, enabled INTEGER NOT NULL, \
     enabled_by INTEGER NOT NULL, secrets_by INTEGER NOT NULL) STRICT; \
     CREATE TABLE secrets(endpoint INTEGER NOT NULL REFERENCES endpoints(put), \
     place INTEGER NOT NULL, secret BLOB NOT NULL, PRIMARY KEY(endpoint, place)) STRICT; \
     CREATE TABLE deliveries(seq INTEGER PRIMARY KEY, \
     endpoint INTEGER NOT NULL REFERENCES endpoints(put), id TEXT NOT NULL, \
     at INTEGER NOT NULL, body BLOB NOT NULL, UNIQUE(endpoint, id)) STRICT; \
     CREATE TABLE attempts(seq INTEGER PRIMARY KEY, \
     delivery INTEGER NOT NULL REFERENCES deliveries(seq), number INTEGER NOT NULL, \
     status INTEGER NOT NULL, at INTEGER NOT NULL, UNIQUE(delivery, number)) STRICT; \
     INSERT INTO meta VALUES(1, 'webhook-relay', 1, 0)";

pub(crate) const ATTEMPTED: &str =
    "INSERT INTO endpoints VALUES(0, 'a', 'http://h/', 100, 1, 0, 0); \
     INSERT INTO secrets VALUES(0, 0, x'303132333435363738396162636465663031323334353637'); \
     INSERT INTO deliveries VALUES(1, 0, 'msg_1', 1000, x'7b7d'); \
     INSERT INTO attempts VALUES(2, 1, 1, 500, 1001); \
     UPDATE meta SET records = 3";

/// The store in which the texts were executed.
fn filled<S: Alter>(rt: &impl Abort, conn: Connection<S>, texts: &[&str]) -> Connection<S> {
    let mut conn = conn;
    for text in texts {
        conn.execute_batch(text).expect(rt, "a text");
    }
    conn
}

/// The store of a new vault.
fn created<S: Alter>(rt: &impl Abort, conn: Connection<S>) -> Connection<S> {
    assert!(rt; conn.is_autocommit());
    match Vault::create(conn, MARK) {
        Ok(vault) => vault.release(),
        Err((_, _)) => panic!(rt; "create was refused"),
    }
}

/// The store with an attempt at an event of so many bytes.
fn with_body<S: Alter>(
    rt: &impl Abort,
    alloc: Global,
    conn: Connection<S>,
    len: usize,
) -> Connection<S> {
    let mut conn = filled(rt, conn, &[ATTEMPTED]);
    let mut bytes = Vec::new(alloc);
    bytes.resize(len, b'a').expect(rt, "memory");
    let value = ValueRef::Blob(bytes.as_slice());
    conn.execute("UPDATE deliveries SET body = ?1", &[value])
        .expect(rt, "a body");
    conn
}

fn begun<S: Alter>(
    rt: &impl Abort,
    alloc: Global,
    conn: Connection<S>,
    start: Start,
) -> Connection<S> {
    match start {
        Start::Nothing => conn,
        Start::Ours => created(rt, conn),
        Start::First => filled(rt, conn, &[FIRST]),
        Start::Body(len) => with_body(rt, alloc, created(rt, conn), len),
    }
}

/// The rows that the queries give. Each of the others gives its number.
pub(crate) fn look<S: Alter>(
    rt: &impl Abort,
    alloc: Global,
    conn: &mut Connection<S>,
    queries: &[&str],
    counts: &[Count],
) -> String {
    count_all(rt, conn, counts);
    rows_of(rt, alloc, conn, queries)
}

pub(crate) fn same_text(rt: &impl Abort, found: &str, wanted: &str, place: usize) {
    assert!(rt; found == wanted, "{found} at {place}");
}

fn name_of(rt: &impl Abort, letter: u8) -> Name {
    Name::read(&[letter]).expect(rt, "a name")
}

fn id_of(rt: &impl Abort, text: &str) -> MsgId {
    MsgId::read(text.as_bytes()).expect(rt, "an id")
}

fn body_of(alloc: Global, bytes: &[u8]) -> Result<Body, Fail> {
    let bytes = Vec::from_slice(alloc, bytes)?;
    Ok(Body::of(Arc::new(alloc, bytes)?)?)
}

fn add_event(rt: &impl Abort, text: &mut String, event: Row) {
    let state = match event.state {
        State::Pending => "pending",
        State::Delivered => "delivered",
        State::Exhausted => "exhausted",
    };
    let (due, attempts) = (event.due.unwrap_or(0), event.attempts);
    write!(text, " {state} due {due} attempts {attempts}").expect(rt, "memory");
}

/// How many records there are, whether endpoint `a` is enabled, and its event `msg_1`.
fn text_of(
    rt: &impl Abort,
    alloc: Global,
    records: u64,
    enabled: Option<bool>,
    event: Option<Row>,
) -> String {
    let endpoint = match enabled {
        Some(true) => " enabled",
        Some(false) => " disabled",
        None => "",
    };
    let mut text = format!(in alloc; "records {records}{endpoint}").expect(rt, "memory");
    if let Some(event) = event {
        add_event(rt, &mut text, event);
    }
    text
}

/// What the desk shows of what is settled.
fn shown<L: Ledger>(rt: &impl Abort, alloc: Global, desk: &Desk<L>) -> String {
    let a = name_of(rt, b'a');
    let enabled = match desk.endpoint_page(a) {
        Some(page) => Some(page.enabled),
        None => None,
    };
    let event = desk.event_page(a, &id_of(rt, "msg_1"));
    text_of(rt, alloc, desk.settled_records(), enabled, event)
}

fn event_in(books: &Books, name: Name, id: &MsgId) -> Option<Row> {
    match books.deliveries.find(name, id) {
        Some(delivery) => books.deliveries.settled(delivery),
        None => None,
    }
}

fn listed(rt: &impl Abort, alloc: Global, books: &Books) -> String {
    let a = name_of(rt, b'a');
    let enabled = match books.endpoints.settled(a) {
        Some(view) => Some(view.enabled),
        None => None,
    };
    let event = event_in(books, a, &id_of(rt, "msg_1"));
    text_of(rt, alloc, books.records, enabled, event)
}

fn loaded<S: Alter>(rt: &impl Abort, alloc: Global, vault: &mut Vault<S>) -> String {
    match vault.load(alloc) {
        Ok(books) => listed(rt, alloc, &books),
        Err(_) => panic!(rt; "the load was refused"),
    }
}

fn check_fault(rt: &impl Abort, alloc: Global, fault: OpenFault, wanted: &str, place: usize) {
    let text = format!(in alloc; "{fault}").expect(rt, "memory");
    same_text(rt, &text, wanted, place);
}

/// Whether the vault lists this, or there is none for this fault.
fn check_opening<S: Alter>(
    rt: &impl Abort,
    alloc: Global,
    opening: Result<Vault<S>, (Connection<S>, OpenFault)>,
    wanted: &str,
    place: usize,
) -> Connection<S> {
    match opening {
        Ok(vault) => {
            let mut vault = vault;
            same_text(rt, &loaded(rt, alloc, &mut vault), wanted, place);
            vault.release()
        }
        Err((conn, fault)) => {
            check_fault(rt, alloc, fault, wanted, place);
            conn
        }
    }
}

/// Whether the vault of the store lists this, or there is none for this fault.
pub(crate) fn check_adopt<S: Alter>(
    rt: &impl Abort,
    alloc: Global,
    conn: Connection<S>,
    wanted: &str,
    place: usize,
) -> Connection<S> {
    assert!(rt; conn.is_autocommit());
    let opening = Vault::adopt(conn, MARK, alloc);
    check_opening(rt, alloc, opening, wanted, place)
}

/// The same once its tables are of version 2.
pub(crate) fn check_migrate<S: Alter>(
    rt: &impl Abort,
    alloc: Global,
    conn: Connection<S>,
    wanted: &str,
    place: usize,
) -> Connection<S> {
    assert!(rt; conn.is_autocommit());
    let opening = Vault::migrate(conn, MARK, alloc);
    check_opening(rt, alloc, opening, wanted, place)
}

fn submitted<L: Ledger>(rt: &impl Abort, alloc: Global, desk: &mut Desk<L>) -> Option<Refusal> {
    let at = Moment::of(1000).expect(rt, "a moment");
    let (name, id) = (name_of(rt, b'a'), id_of(rt, "msg_1"));
    match body_of(alloc, b"{}") {
        Ok(body) => desk.submit(at, name, id, body).err(),
        Err(_) => panic!(rt; "no body"),
    }
}

fn commanded<L: Ledger>(rt: &impl Abort, desk: &mut Desk<L>) -> Option<Refusal> {
    let name = name_of(rt, b'a');
    desk.command(Command::SetEnabled { name, flag: true }).err()
}

fn purged<L: Ledger>(rt: &impl Abort, desk: &mut Desk<L>) -> Option<Refusal> {
    let before = Moment::of(0).expect(rt, "a moment");
    desk.command(Command::Purge { before }).err()
}

fn is_exhausted(refusal: Option<Refusal>, number: u8) -> bool {
    match refusal {
        Some(refusal) => refusal.number == number && refusal.fault == Fault::SeqExhausted,
        None => false,
    }
}

/// Whether the desk refuses an event and two commands as it has no number left.
fn is_full<L: Ledger>(rt: &impl Abort, alloc: Global, desk: &mut Desk<L>) -> bool {
    let event = submitted(rt, alloc, desk);
    let command = commanded(rt, desk);
    let purge = purged(rt, desk);
    is_exhausted(event, 7) && is_exhausted(command, 6) && is_exhausted(purge, 6)
}

/// What the desk shows. One that is full takes nothing more.
fn tried<L: Ledger>(rt: &impl Abort, alloc: Global, desk: &mut Desk<L>) -> String {
    if desk.settled_records() == MAX_RECORDS {
        assert!(rt; is_full(rt, alloc, desk), "a full desk takes more");
    }
    shown(rt, alloc, desk)
}

/// Dropped here alone: the proof of each function that drops a desk is long.
pub(crate) fn let_go<L: Ledger>(_desk: Desk<L>) {}

/// Whether the desk of the store shows this, or there is none for this fault.
pub(crate) fn check_reopen<L: Ledger, S: Alter>(
    rt: &impl Abort,
    alloc: Global,
    pool: Pool<L>,
    conn: Connection<S>,
    wanted: &str,
    place: usize,
) -> Connection<S>
    requires { pool ≡ [] }
{
    assert!(rt; conn.is_autocommit());
    match reopen(alloc, pool, conn, MARK) {
        Ok((desk, vault)) => {
            let mut desk = desk;
            same_text(rt, &tried(rt, alloc, &mut desk), wanted, place);
            let_go(desk);
            vault.release()
        }
        Err((conn, fault)) => {
            check_fault(rt, alloc, fault, wanted, place);
            conn
        }
    }
}

pub(crate) fn pool_of<L: Ledger>(rt: &impl Abort, alloc: Global, blank: Blank) -> Pool<L>
    requires name { blank.name ≡ L.name }
    requires parts { blank.parts ≡ L.parts }
    requires enough { blank.parts ≡ PARTS }
    ensures { result ≡ [] }
{
    match Pool::<L>::new(alloc, blank) {
        Ok(pool) => pool,
        Err(_) => panic!(rt; "no memory"),
    }
}

fn listed_by(queries: Queries) -> &'static [&'static str] {
    match queries {
        Queries::Rows => TABLES,
        Queries::These(queries) => queries,
    }
}

/// The desk is that of the last opening: whether the vault and the desk of the store answer so.
fn check_in<L: Ledger, S: Alter + Drop>(
    rt: &impl Abort,
    alloc: Global,
    blank: Blank,
    conn: Connection<S>,
    file: &File,
    place: usize,
)
    requires name { blank.name ≡ L.name }
    requires parts { blank.parts ≡ L.parts }
    requires enough { blank.parts ≡ PARTS }
{
    let pool = pool_of::<L>(rt, alloc, blank);
    let queries = listed_by(file.2);
    let mut conn = conn;
    let before = look(rt, alloc, &mut conn, queries, file.4);
    let conn = check_adopt(rt, alloc, conn, file.3, place);
    let mut conn = check_reopen(rt, alloc, pool, conn, file.3, place);
    let after = look(rt, alloc, &mut conn, queries, file.4);
    same_text(rt, &after, &before, place);
}

/// The store in which the texts were executed, opened over again.
pub(crate) fn made(
    rt: &impl Abort,
    alloc: Global,
    start: Start,
    texts: &[&str],
) -> Connection<MemStore> {
    let conn = begun(rt, alloc, in_memory(rt, alloc), start);
    again(rt, alloc, filled(rt, conn, texts))
}

fn check(rt: &impl Abort, alloc: Global, file: &File, place: usize) {
    let conn = made(rt, alloc, file.0, file.1);
    check_in::<Brand, MemStore>(rt, alloc, Blank::new(PARTS), conn, file, place);
}

/// Whether the files are answered so, and then have the rows that they had.
pub(crate) fn check_all(rt: &impl Abort, alloc: Global, files: &[File]) {
    for (place, file) in files.iter().enumerate() {
        check(rt, alloc, file, place);
    }
}
