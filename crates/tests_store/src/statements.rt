//! The statements of `spool_sql`: rows that are written, found and refused.

use crate::database::{Count, count_all, holds};
use crate::entries::body_of;
use relay_types::{MaxLimit, Moment, MsgId, Name, Secret, Target};
use spool_sql::{
    Cause, Seq, Tried, cause_of, count_endpoints, count_topics, create_tables, create_topics,
    delete_attempts, delete_delivery, delete_topic, has_topic, insert_attempt, insert_delivery,
    insert_endpoint, insert_secret, insert_topic, is_empty, probe, select_events, select_put,
    select_tries, update_records, update_version,
};
use sqlite::{Alter, Connection, Error, ErrorCode, Transaction};
use std::alloc::Global;
use std::process::Abort;
use std::test::Fail;

/// A call that writes.
#[derive(Clone, Copy)]
enum Call {
    Tables,
    /// The table of topics.
    Topics,
    /// Version 2.
    Version,
    /// The number, the name and the greatest limit. The URL is `http://h/`.
    Endpoint(u32, &'static [u8], u64),
    /// The endpoint, the place and the bytes.
    Secret(u32, u32, &'static [u8]),
    /// The number, the endpoint, the id and the moment. The body is `hello`.
    Delivery(u32, u32, &'static [u8], u64),
    /// The number, the delivery, the attempt's number, the status and the moment.
    Attempt(u32, u32, u32, u16, u64),
    /// The topic, the endpoint, whether it is subscribed, and the number of the record.
    Topic(&'static [u8], u32, bool, u32),
    /// The topic and the endpoint, whose row is taken out if there is one.
    NoTopic(&'static [u8], u32),
    /// The attempts at this delivery are taken out, and the delivery.
    NoAttempts(u32),
    NoDelivery(u32),
    Records(u32),
}

/// A call, and its answer.
#[derive(Clone, Copy)]
enum Step {
    Done(Call),
    /// The endpoint has an event of this id, and nothing is changed.
    Known(Call),
    /// The rows or the tables that stand refuse it.
    Refused(Call),
    /// The number of the endpoint of this name.
    Put(&'static [u8], Option<u32>),
    Endpoints(usize),
    /// Whether there is a row of the topic and the endpoint.
    HasTopic(&'static [u8], u32, bool),
    TopicCount(usize),
    /// The events with numbers from this on.
    Events(u32, &'static [u64]),
    /// The deliveries, statuses and moments of the attempts at the deliveries with numbers from the first to the last.
    Tries(u32, u32, &'static [(u64, u16, u64)]),
    /// Events of the endpoint with numbers from the first up to the end, of which each has its number in its id.
    Add(u32, u32, u32),
    /// How many numbers a page has that begins with this one, and which are its first and its last.
    Page(u32, usize, u64, u64),
}

fn seq(number: u32) -> Seq {
    Seq::of(u64::from(number))
}

/// Whether a call added or changed what it says.
type Made = Result<bool, Error>;

fn done(answer: Result<(), Error>) -> Made {
    answer?;
    Ok(true)
}

fn add_endpoint<S: Alter>(
    alloc: Global,
    tx: &mut Transaction<'_, S>,
    put: u32,
    name: &[u8],
    max: u64,
) -> Result<Made, Fail> {
    let name = Name::read(name)?;
    let max = MaxLimit::of(max)?;
    let target = Target::read(alloc, b"http://h/")?;
    Ok(done(insert_endpoint(tx, seq(put), &name, &target, max)))
}

fn add_secret<S: Alter>(
    tx: &mut Transaction<'_, S>,
    endpoint: u32,
    place: u32,
    bytes: &[u8],
) -> Result<Made, Fail> {
    let secret = Secret::of(bytes)?;
    Ok(done(insert_secret(tx, seq(endpoint), u64::from(place), &secret)))
}

fn add_delivery<S: Alter>(
    alloc: Global,
    tx: &mut Transaction<'_, S>,
    number: u32,
    endpoint: u32,
    id: &[u8],
    at: u64,
) -> Result<Made, Fail> {
    let id = MsgId::read(id)?;
    let at = Moment::of(at)?;
    let body = body_of(alloc, b"hello")?;
    Ok(insert_delivery(tx, seq(number), seq(endpoint), &id, at, &body))
}

fn add_attempt<S: Alter>(
    tx: &mut Transaction<'_, S>,
    number: u32,
    delivery: u32,
    attempt: u32,
    status: u16,
    at: u64,
) -> Result<Made, Fail> {
    let at = Moment::of(at)?;
    Ok(done(insert_attempt(
        tx,
        seq(number),
        seq(delivery),
        u64::from(attempt),
        status,
        at,
    )))
}

fn add_topic<S: Alter>(
    tx: &mut Transaction<'_, S>,
    topic: &[u8],
    endpoint: u32,
    flag: bool,
    set_by: u32,
) -> Result<Made, Fail> {
    let topic = Name::read(topic)?;
    Ok(done(insert_topic(tx, &topic, seq(endpoint), flag, seq(set_by))))
}

fn remove_topic<S: Alter>(
    tx: &mut Transaction<'_, S>,
    topic: &[u8],
    endpoint: u32,
) -> Result<Made, Fail> {
    let topic = Name::read(topic)?;
    Ok(done(delete_topic(tx, &topic, seq(endpoint))))
}

fn make<S: Alter>(alloc: Global, tx: &mut Transaction<'_, S>, call: Call) -> Result<Made, Fail> {
    match call {
        Call::Tables => Ok(done(create_tables(tx))),
        Call::Topics => Ok(done(create_topics(tx))),
        Call::Version => Ok(done(update_version(tx))),
        Call::Endpoint(put, name, max) => add_endpoint(alloc, tx, put, name, max),
        Call::Secret(endpoint, place, bytes) => add_secret(tx, endpoint, place, bytes),
        Call::Delivery(number, endpoint, id, at) => {
            add_delivery(alloc, tx, number, endpoint, id, at)
        }
        Call::Attempt(number, delivery, attempt, status, at) => {
            add_attempt(tx, number, delivery, attempt, status, at)
        }
        Call::Topic(topic, endpoint, flag, set_by) => add_topic(tx, topic, endpoint, flag, set_by),
        Call::NoTopic(topic, endpoint) => remove_topic(tx, topic, endpoint),
        Call::NoAttempts(delivery) => Ok(done(delete_attempts(tx, seq(delivery)))),
        Call::NoDelivery(delivery) => Ok(done(delete_delivery(tx, seq(delivery)))),
        Call::Records(count) => Ok(done(update_records(tx, u64::from(count)))),
    }
}

/// Whether the call is made, and answers this.
fn answers<S: Alter>(
    alloc: Global,
    tx: &mut Transaction<'_, S>,
    call: Call,
    wanted: bool,
) -> Result<bool, Fail> {
    match make(alloc, tx, call)? {
        Ok(answer) => Ok(answer == wanted),
        Err(_) => Ok(false),
    }
}

fn is_refused<S: Alter>(
    alloc: Global,
    tx: &mut Transaction<'_, S>,
    call: Call,
) -> Result<bool, Fail> {
    match make(alloc, tx, call)? {
        Err(error) => Ok(cause_of(error) == Cause::Other),
        Ok(_) => Ok(false),
    }
}

fn same_put(found: Option<Seq>, wanted: Option<u32>) -> bool {
    match (found, wanted) {
        (Some(found), Some(put)) => found.get() == u64::from(put),
        (None, None) => true,
        _ => false,
    }
}

fn is_put<S: Alter>(
    tx: &mut Transaction<'_, S>,
    name: &[u8],
    wanted: Option<u32>,
) -> Result<bool, Fail> {
    let name = Name::read(name)?;
    Ok(same_put(select_put(tx, &name)?, wanted))
}

fn is_there<S: Alter>(
    tx: &mut Transaction<'_, S>,
    topic: &[u8],
    endpoint: u32,
    wanted: bool,
) -> Result<bool, Fail> {
    let topic = Name::read(topic)?;
    Ok(has_topic(tx, &topic, seq(endpoint))? == wanted)
}

fn same_seqs(found: &[Seq], wanted: &[u64]) -> bool {
    let mut is_same = found.len() == wanted.len();
    for (seq, number) in found.iter().zip(wanted) {
        is_same = is_same && seq.get() == *number;
    }
    is_same
}

/// Whether these are the first events with numbers from this on.
fn are_events<S: Alter>(
    tx: &mut Transaction<'_, S>,
    from: u32,
    wanted: &[u64],
) -> Result<bool, Fail> {
    Ok(same_seqs(&select_events(tx, seq(from))?, wanted))
}

fn is_tried(tried: &Tried, delivery: u64, status: u16, at: u64) -> bool {
    tried.delivery.get() == delivery && tried.status == status && tried.at.seconds() == at
}

fn same_tries(found: &[Tried], wanted: &[(u64, u16, u64)]) -> bool {
    let mut is_same = found.len() == wanted.len();
    for (tried, (delivery, status, at)) in found.iter().zip(wanted) {
        is_same = is_same && is_tried(tried, *delivery, *status, *at);
    }
    is_same
}

fn are_tries<S: Alter>(
    tx: &mut Transaction<'_, S>,
    first: u32,
    last: u32,
    wanted: &[(u64, u16, u64)],
) -> Result<bool, Fail> {
    Ok(same_tries(&select_tries(tx, seq(first), seq(last))?, wanted))
}

fn add_all<S: Alter>(
    alloc: Global,
    tx: &mut Transaction<'_, S>,
    endpoint: u32,
    first: u32,
    end: u32,
) -> Result<bool, Fail> {
    let mut is_done = true;
    for number in first..end {
        let id = format!(in alloc; "x{number}")?;
        let added = add_delivery(alloc, tx, number, endpoint, id.as_bytes(), 1000)?;
        is_done = is_done && added == Ok(true);
    }
    Ok(is_done)
}

fn has_ends(found: &[Seq], count: usize, first: u64, last: u64) -> bool {
    match (found.first(), found.last()) {
        (Some(one), Some(end)) => found.len() == count && one.get() == first && end.get() == last,
        _ => count == 0,
    }
}

fn is_page<S: Alter>(
    tx: &mut Transaction<'_, S>,
    from: u32,
    count: usize,
    first: u64,
    last: u64,
) -> Result<bool, Fail> {
    Ok(has_ends(&select_events(tx, seq(from))?, count, first, last))
}

fn is_so<S: Alter>(alloc: Global, tx: &mut Transaction<'_, S>, step: Step) -> Result<bool, Fail> {
    match step {
        Step::Done(call) => answers(alloc, tx, call, true),
        Step::Known(call) => answers(alloc, tx, call, false),
        Step::Refused(call) => is_refused(alloc, tx, call),
        Step::Put(name, wanted) => is_put(tx, name, wanted),
        Step::Endpoints(count) => Ok(count_endpoints(tx)? == count),
        Step::HasTopic(topic, endpoint, wanted) => is_there(tx, topic, endpoint, wanted),
        Step::TopicCount(count) => Ok(count_topics(tx)? == count),
        Step::Events(from, wanted) => are_events(tx, from, wanted),
        Step::Tries(first, last, wanted) => are_tries(tx, first, last, wanted),
        Step::Add(endpoint, first, end) => add_all(alloc, tx, endpoint, first, end),
        Step::Page(from, count, first, last) => is_page(tx, from, count, first, last),
    }
}

fn take<S: Alter>(
    rt: &impl Abort,
    alloc: Global,
    tx: &mut Transaction<'_, S>,
    steps: &[Step],
) -> Result<(), Fail> {
    for (place, step) in steps.iter().enumerate() {
        holds(rt, is_so(alloc, tx, *step)?, place);
    }
    Ok(())
}

/// Takes the steps in one transaction, which is kept or undone.
fn take_within<S: Alter>(
    rt: &impl Abort,
    alloc: Global,
    conn: &mut Connection<S>,
    steps: &[Step],
    is_kept: bool,
) -> Result<(), Fail> {
    if !conn.is_autocommit() {
        return Err(Fail::from("a transaction is open"));
    }
    let mut tx = conn.transaction();
    let told = take(rt, alloc, &mut tx, steps);
    match told {
        Ok(()) if is_kept => Ok(tx.commit()?),
        told => told,
    }
}

fn is_probed<S: Alter>(conn: &mut Connection<S>) -> bool {
    conn.is_autocommit() && probe(conn).is_ok()
}

fn look<S: Alter>(
    rt: &impl Abort,
    alloc: Global,
    conn: &mut Connection<S>,
    steps: &[Step],
    counts: &[Count],
) -> Result<(), Fail> {
    holds(rt, is_empty(conn), 0);
    take_within(rt, alloc, conn, &FILLED, true)?;
    holds(rt, !is_empty(conn), 1);
    take_within(rt, alloc, conn, steps, false)?;
    holds(rt, is_probed(conn), 2);
    holds(rt, is_probed(conn), 3);
    count_all(rt, conn, counts)
}

/// Fills a new store, takes the steps in a transaction that is undone, and counts.
fn walk(rt: &impl Abort, alloc: Global, steps: &[Step], counts: &[Count]) -> Result<(), Fail> {
    let mut conn = Connection::open_in_memory(alloc)?;
    look(rt, alloc, &mut conn, steps, counts)
}

/// An endpoint, two secrets of it, one event, one attempt at it, and two topics.
static FILLED: [Step; 9] = [
    Step::Done(Call::Tables),
    Step::Done(Call::Endpoint(3, b"alpha", 10)),
    Step::Done(Call::Secret(3, 0, b"0123456789abcdef01234567")),
    Step::Done(Call::Secret(3, 1, b"89abcdef0123456789abcdef")),
    Step::Done(Call::Delivery(4, 3, b"msg_1", 1000)),
    Step::Done(Call::Attempt(5, 4, 1, 503, 1002)),
    Step::Done(Call::Topic(b"t", 3, true, 7)),
    Step::Done(Call::Topic(b"orders", 3, false, 6)),
    Step::Done(Call::Records(8)),
];

static NO_STEP: [Step; 0] = [];

static ROWS: [Count; 15] = [
    ("SELECT count(*) FROM meta", 1),
    (
        "SELECT count(*) FROM meta WHERE k = 1 AND app = 'webhook-relay' AND version = 2 AND records = 8",
        1,
    ),
    ("SELECT count(*) FROM endpoints", 1),
    (
        "SELECT count(*) FROM endpoints WHERE put = 3 AND name = 'alpha' AND url = 'http://h/' AND max = 10",
        1,
    ),
    (
        "SELECT count(*) FROM endpoints WHERE enabled = 1 AND enabled_by = 3 AND secrets_by = 3",
        1,
    ),
    ("SELECT count(*) FROM secrets", 2),
    (
        "SELECT count(*) FROM secrets WHERE endpoint = 3 AND place = 0 AND secret = x'303132333435363738396162636465663031323334353637'",
        1,
    ),
    (
        "SELECT count(*) FROM secrets WHERE endpoint = 3 AND place = 1 AND secret = x'383961626364656630313233343536373839616263646566'",
        1,
    ),
    ("SELECT count(*) FROM deliveries", 1),
    (
        "SELECT count(*) FROM deliveries WHERE seq = 4 AND endpoint = 3 AND id = 'msg_1' AND at = 1000 AND body = x'68656c6c6f'",
        1,
    ),
    ("SELECT count(*) FROM attempts", 1),
    (
        "SELECT count(*) FROM attempts WHERE seq = 5 AND delivery = 4 AND number = 1 AND status = 503 AND at = 1002",
        1,
    ),
    ("SELECT count(*) FROM topics", 2),
    (
        "SELECT count(*) FROM topics WHERE topic = 't' AND endpoint = 3 AND subscribed = 1 AND set_by = 7",
        1,
    ),
    (
        "SELECT count(*) FROM topics WHERE topic = 'orders' AND endpoint = 3 AND subscribed = 0 AND set_by = 6",
        1,
    ),
];

#[test]
fn rows_are_written(rt: HostRuntime) -> Result<(), Fail> {
    walk(&rt, rt.alloc(), &NO_STEP, &ROWS)
}

static FOUND: [Step; 9] = [
    Step::Put(b"alpha", Some(3)),
    Step::Put(b"alph", None),
    Step::Endpoints(1),
    Step::Known(Call::Delivery(6, 3, b"msg_1", 1000)),
    Step::Done(Call::Delivery(6, 3, b"msg_2", 1000)),
    Step::Known(Call::Delivery(7, 3, b"msg_2", 2000)),
    Step::Events(0, &[4, 6]),
    Step::Done(Call::Endpoint(8, b"beta", 10)),
    Step::Done(Call::Delivery(9, 8, b"msg_1", 1000)),
];

#[test]
fn endpoints_and_events_are_found(rt: HostRuntime) -> Result<(), Fail> {
    walk(&rt, rt.alloc(), &FOUND, &ROWS)
}

static TOPICS: [Step; 19] = [
    Step::TopicCount(2),
    Step::HasTopic(b"t", 3, true),
    Step::HasTopic(b"orders", 3, true),
    Step::HasTopic(b"order", 3, false),
    Step::HasTopic(b"t", 4, false),
    Step::Done(Call::Endpoint(8, b"beta", 10)),
    Step::Done(Call::Topic(b"t", 8, true, 9)),
    Step::TopicCount(3),
    Step::Done(Call::NoTopic(b"t", 3)),
    Step::HasTopic(b"t", 3, false),
    Step::HasTopic(b"t", 8, true),
    Step::HasTopic(b"orders", 3, true),
    Step::TopicCount(2),
    Step::Done(Call::Topic(b"t", 3, false, 10)),
    Step::HasTopic(b"t", 3, true),
    Step::Done(Call::NoTopic(b"u", 3)),
    Step::Done(Call::NoTopic(b"t", 3)),
    Step::Done(Call::NoTopic(b"t", 3)),
    Step::TopicCount(2),
];

#[test]
fn topics_are_found_and_replaced(rt: HostRuntime) -> Result<(), Fail> {
    walk(&rt, rt.alloc(), &TOPICS, &ROWS)
}

/// Deliveries 4, 8 and 10, of which the first has three attempts and the second has one, before the third of these.
static REMOVED: [Step; 32] = [
    Step::Done(Call::Attempt(6, 4, 2, 0, 1001)),
    Step::Done(Call::Delivery(8, 3, b"msg_2", 1000)),
    Step::Done(Call::Attempt(7, 8, 1, 200, 1000)),
    Step::Done(Call::Attempt(9, 4, 3, 410, 1003)),
    Step::Done(Call::Delivery(10, 3, b"msg_3", 1000)),
    Step::Events(0, &[4, 8, 10]),
    Step::Events(4, &[4, 8, 10]),
    Step::Events(5, &[8, 10]),
    Step::Events(10, &[10]),
    Step::Events(11, &[]),
    Step::Tries(4, 4, &[(4, 503, 1002), (4, 0, 1001), (4, 410, 1003)]),
    Step::Tries(8, 8, &[(8, 200, 1000)]),
    Step::Tries(10, 10, &[]),
    Step::Tries(5, 5, &[]),
    Step::Tries(
        4,
        8,
        &[(4, 503, 1002), (4, 0, 1001), (4, 410, 1003), (8, 200, 1000)],
    ),
    Step::Tries(5, 10, &[(8, 200, 1000)]),
    Step::Tries(0, 7, &[(4, 503, 1002), (4, 0, 1001), (4, 410, 1003)]),
    Step::Tries(8, 4, &[]),
    Step::Refused(Call::NoDelivery(4)),
    Step::Events(0, &[4, 8, 10]),
    Step::Done(Call::NoAttempts(4)),
    Step::Tries(4, 4, &[]),
    Step::Tries(0, 10, &[(8, 200, 1000)]),
    Step::Events(0, &[4, 8, 10]),
    Step::Done(Call::NoDelivery(4)),
    Step::Events(0, &[8, 10]),
    Step::Known(Call::Delivery(12, 3, b"msg_2", 1000)),
    Step::Done(Call::NoAttempts(10)),
    Step::Done(Call::NoDelivery(10)),
    Step::Done(Call::NoDelivery(10)),
    Step::Events(0, &[8]),
    Step::Done(Call::Delivery(11, 3, b"msg_1", 1000)),
];

#[test]
fn events_and_attempts_are_removed(rt: HostRuntime) -> Result<(), Fail> {
    walk(&rt, rt.alloc(), &REMOVED, &ROWS)
}

/// Events 100 to 399 stand after 4. A page has 256.
static PAGES: [Step; 7] = [
    Step::Add(3, 100, 400),
    Step::Page(0, 256, 4, 354),
    Step::Page(5, 256, 100, 355),
    Step::Page(355, 45, 355, 399),
    Step::Page(399, 1, 399, 399),
    Step::Page(400, 0, 0, 0),
    Step::Known(Call::Delivery(400, 3, b"x399", 1000)),
];

#[test]
fn events_are_read_in_pages(rt: HostRuntime) -> Result<(), Fail> {
    walk(&rt, rt.alloc(), &PAGES, &ROWS)
}

static REPEATED: [Step; 11] = [
    Step::Refused(Call::Tables),
    Step::Refused(Call::Topics),
    Step::Done(Call::Version),
    Step::Refused(Call::Endpoint(6, b"alpha", 10)),
    Step::Refused(Call::Secret(3, 1, b"fedcba98fedcba98fedcba98")),
    Step::Known(Call::Delivery(6, 3, b"msg_1", 1000)),
    Step::Refused(Call::Delivery(4, 3, b"msg_2", 1000)),
    Step::Refused(Call::Delivery(6, 7, b"msg_2", 1000)),
    Step::Refused(Call::Attempt(6, 4, 1, 200, 1000)),
    Step::Refused(Call::Topic(b"t", 3, false, 9)),
    Step::Refused(Call::Topic(b"t", 4, true, 9)),
];

#[test]
fn endpoints_and_events_that_repeat_are_refused(rt: HostRuntime) -> Result<(), Fail> {
    walk(&rt, rt.alloc(), &REPEATED, &ROWS)
}

static TABLES: [Count; 7] = [
    (
        "SELECT count(*) FROM sqlite_schema WHERE sql = \
         'CREATE TABLE meta(k INTEGER PRIMARY KEY CHECK(k = 1), app TEXT NOT NULL, \
         version INTEGER NOT NULL, records INTEGER NOT NULL) STRICT'",
        1,
    ),
    (
        "SELECT count(*) FROM sqlite_schema WHERE sql = \
         'CREATE TABLE endpoints(put INTEGER PRIMARY KEY, name TEXT NOT NULL UNIQUE, \
         url TEXT NOT NULL, max INTEGER NOT NULL, enabled INTEGER NOT NULL, \
         enabled_by INTEGER NOT NULL, secrets_by INTEGER NOT NULL) STRICT'",
        1,
    ),
    (
        "SELECT count(*) FROM sqlite_schema WHERE sql = \
         'CREATE TABLE secrets(endpoint INTEGER NOT NULL REFERENCES endpoints(put), \
         place INTEGER NOT NULL, secret BLOB NOT NULL, PRIMARY KEY(endpoint, place)) STRICT'",
        1,
    ),
    (
        "SELECT count(*) FROM sqlite_schema WHERE sql = \
         'CREATE TABLE deliveries(seq INTEGER PRIMARY KEY, \
         endpoint INTEGER NOT NULL REFERENCES endpoints(put), id TEXT NOT NULL, \
         at INTEGER NOT NULL, body BLOB NOT NULL, UNIQUE(endpoint, id)) STRICT'",
        1,
    ),
    (
        "SELECT count(*) FROM sqlite_schema WHERE sql = \
         'CREATE TABLE attempts(seq INTEGER PRIMARY KEY, \
         delivery INTEGER NOT NULL REFERENCES deliveries(seq), number INTEGER NOT NULL, \
         status INTEGER NOT NULL, at INTEGER NOT NULL, UNIQUE(delivery, number)) STRICT'",
        1,
    ),
    (
        "SELECT count(*) FROM sqlite_schema WHERE sql = \
         'CREATE TABLE topics(topic TEXT NOT NULL, \
         endpoint INTEGER NOT NULL REFERENCES endpoints(put), \
         subscribed INTEGER NOT NULL, set_by INTEGER NOT NULL, \
         PRIMARY KEY(topic, endpoint)) STRICT'",
        1,
    ),
    (
        "SELECT count(*) FROM sqlite_schema WHERE sql IS NOT NULL",
        6,
    ),
];

#[test]
fn tables_are_kept_as_written(rt: HostRuntime) -> Result<(), Fail> {
    walk(&rt, rt.alloc(), &NO_STEP, &TABLES)
}

static CAUSES: [(Error, Cause); 11] = [
    (Error::SqliteFailure(ErrorCode::OutOfMemory), Cause::Memory),
    (
        Error::SqliteFailure(ErrorCode::SystemIoFailure),
        Cause::Store,
    ),
    (
        Error::SqliteFailure(ErrorCode::DatabaseCorrupt),
        Cause::Store,
    ),
    (Error::SqliteFailure(ErrorCode::DiskFull), Cause::Store),
    (Error::SqliteFailure(ErrorCode::Closed), Cause::Store),
    (Error::SqliteFailure(ErrorCode::TooBig), Cause::Store),
    (
        Error::SqliteFailure(ErrorCode::OperationInterrupted),
        Cause::Store,
    ),
    (
        Error::SqliteFailure(ErrorCode::TransactionState),
        Cause::Store,
    ),
    (Error::SqliteFailure(ErrorCode::NameTaken), Cause::Other),
    (Error::SqliteFailure(ErrorCode::NoRowid), Cause::Other),
    (Error::MultipleStatement, Cause::Other),
];

#[test]
fn causes(rt: HostRuntime) {
    for (place, (error, cause)) in CAUSES.iter().enumerate() {
        holds(&rt, cause_of(*error) == *cause, place);
    }
}
