//! What is committed to a vault and refused, and what its tables then hold.
//!
//! The rows themselves are read by `scripts/store tables`.

use crate::database::{Count, again, count_all, run};
use crate::entries::{Entry, Keys};
use crate::stories::{Look, Step, Story, walk, walk_on, walk_through};
use crate::vaults::{MARK, Spool, Told, create, opened};
use spool::{OpenFault, Unchanged, Vault};
use sqlite::{Alter, Connection, Error, MemStore};
use std::alloc::Global;
use std::process::Abort;
use std::test::Fail;

pub(crate) const KEYS: Keys = Keys::Two(
    b"whsec_MDEyMzQ1Njc4OWFiY2RlZjAxMjM0NTY3",
    b"whsec_ODlhYmNkZWYwMTIzNDU2Nzg5YWJjZGVm",
);

pub(crate) const PUT_A: Entry = Entry::Put(b'a', 100, KEYS);

const PUT_B: Entry = Entry::Put(b'b', 100, KEYS);

pub(crate) const EVENT_A: Entry = Entry::Accept(b'a', b"msg_1", b"{}", 1000);

const EVENT_B: Entry = Entry::Accept(b'b', b"msg_1", b"{}", 1000);

const OUT_OF_TURN: Told = Told::Refused(Unchanged::OutOfTurn);

const ILLEGAL: Told = Told::Refused(Unchanged::Illegal);

static ROWS_ARE_COUNTED: Story = Story {
    limit: None,
    steps: &[
        Step::Turn(MARK, 0, PUT_A, Told::Written),
        Step::Turn(MARK, 1, EVENT_A, Told::Written),
        Step::Next(2),
        Step::IsClosed(false),
    ],
    counts: &[
        ("SELECT count(*) FROM meta", 1),
        ("SELECT version FROM meta", 2),
        ("SELECT records FROM meta", 2),
        ("SELECT count(*) FROM endpoints", 1),
        ("SELECT count(*) FROM secrets", 2),
        ("SELECT count(*) FROM deliveries", 1),
        ("SELECT count(*) FROM attempts", 0),
        ("SELECT count(*) FROM topics", 0),
    ],
};

#[test]
fn rows_are_counted(rt: HostRuntime) -> Result<(), Fail> {
    walk(&rt, rt.alloc(), &ROWS_ARE_COUNTED)
}

/// The store in which nothing is made, as its tables are not ours.
fn refused<S: Alter + Drop>(rt: &impl Abort, conn: Connection<S>) -> Connection<S> {
    match create(rt, conn, 8) {
        Ok(_) => panic!(rt; "create was not refused"),
        Err((conn, fault)) => {
            assert!(rt; matches!(fault, OpenFault::NotOurs));
            conn
        }
    }
}

/// Whether nothing is made beside a table of topics.
fn refuses_topics<S: Alter + Drop>(rt: &impl Abort, conn: Connection<S>) -> Result<(), Error> {
    let mut conn = conn;
    let told = run(&mut conn, "CREATE TABLE topics(a)");
    drop(refused(rt, conn));
    told
}

#[test]
fn a_store_with_a_table_of_topics_is_not_ours(rt: HostRuntime) -> Result<(), Fail> {
    Ok(refuses_topics(&rt, Connection::open_in_memory(rt.alloc())?)?)
}

/// Whether nothing is made in the store of this vault.
fn refuses_ours<S: Alter + Drop>(rt: &impl Abort, vault: Vault<S>) -> Result<(), Fail> {
    let mut conn = refused(rt, vault.release());
    count_all(rt, &mut conn, &NO_RECORD)
}

static NO_RECORD: [Count; 1] = [("SELECT records FROM meta", 0)];

#[test]
fn a_store_with_our_tables_is_not_ours(rt: HostRuntime) -> Result<(), Fail> {
    refuses_ours(&rt, opened(&rt, rt.alloc(), None)?)
}

static REFUSALS_CHANGE_NOTHING: Story = Story {
    limit: None,
    steps: &[
        Step::Turn(8, 0, PUT_A, OUT_OF_TURN),
        Step::Turn(MARK, 1, PUT_A, OUT_OF_TURN),
        Step::Turn(MARK, 0, EVENT_A, ILLEGAL),
        Step::Turn(MARK, 0, PUT_A, Told::Written),
        Step::Turn(MARK, 1, PUT_A, ILLEGAL),
        Step::Turn(MARK, 1, EVENT_A, Told::Written),
        Step::Turn(MARK, 2, EVENT_A, ILLEGAL),
        Step::Turn(MARK, 2, PUT_B, Told::Written),
        Step::Turn(MARK, 3, EVENT_B, Told::Written),
    ],
    counts: &[
        ("SELECT records FROM meta", 4),
        ("SELECT count(*) FROM deliveries", 2),
    ],
};

#[test]
fn refusals_change_nothing(rt: HostRuntime) -> Result<(), Fail> {
    walk(&rt, rt.alloc(), &REFUSALS_CHANGE_NOTHING)
}

static AT_MOST_256_ENDPOINTS: Story = Story {
    limit: None,
    steps: &[
        Step::Puts(256, KEYS, Told::Written),
        Step::Next(256),
        Step::Turn(MARK, 256, Entry::Put(b'f', 100, KEYS), ILLEGAL),
    ],
    counts: &[],
};

#[test]
fn at_most_256_endpoints(rt: HostRuntime) -> Result<(), Fail> {
    walk(&rt, rt.alloc(), &AT_MOST_256_ENDPOINTS)
}

static A_GONE_ENDPOINT_IS_DISABLED: Story = Story {
    limit: None,
    steps: &[
        Step::Enter(PUT_A, Told::Written),
        Step::Enter(EVENT_A, Told::Written),
        Step::Enter(Entry::Outcome(1, 1, 500, 1001), Told::Written),
        Step::Enter(Entry::Outcome(1, 2, 410, 1006), Told::Written),
    ],
    counts: &[
        ("SELECT records FROM meta", 4),
        (
            "SELECT count(*) FROM endpoints WHERE enabled = 0 AND enabled_by = 3 AND secrets_by = 0",
            1,
        ),
        ("SELECT count(*) FROM attempts", 2),
        (
            "SELECT count(*) FROM attempts WHERE seq = 3 AND delivery = 1 AND number = 2 AND status = 410 AND at = 1006",
            1,
        ),
    ],
};

#[test]
fn a_gone_endpoint_is_disabled(rt: HostRuntime) -> Result<(), Fail> {
    walk(&rt, rt.alloc(), &A_GONE_ENDPOINT_IS_DISABLED)
}

static EVERY_RECORD_IS_WRITTEN: Story = Story {
    limit: None,
    steps: &[
        Step::Enter(PUT_A, Told::Written),
        Step::Enter(EVENT_A, Told::Written),
        Step::Enter(Entry::Outcome(1, 1, 500, 1001), Told::Written),
        Step::Enter(Entry::Outcome(1, 2, 410, 1006), Told::Written),
        Step::Enter(Entry::Enable(b'a', true), Told::Written),
        Step::Enter(Entry::Outcome(1, 3, 500, 1007), Told::Written),
        Step::Enter(Entry::Outcome(1, 3, 500, 1007), ILLEGAL),
        Step::Enter(Entry::Outcome(1, 5, 500, 1007), ILLEGAL),
        Step::Enter(Entry::Outcome(1, 4, 99, 1007), ILLEGAL),
        Step::Enter(Entry::Outcome(0, 1, 500, 1007), ILLEGAL),
        Step::Enter(Entry::Outcome(6, 1, 500, 1007), ILLEGAL),
        Step::Enter(Entry::Outcome(u64::MAX, 1, 500, 1007), ILLEGAL),
    ],
    counts: &[
        ("SELECT records FROM meta", 6),
        (
            "SELECT count(*) FROM endpoints WHERE put = 0 AND name = 'a' AND max = 100",
            1,
        ),
        (
            "SELECT count(*) FROM endpoints WHERE enabled = 1 AND enabled_by = 4 AND secrets_by = 0",
            1,
        ),
        ("SELECT count(*) FROM secrets", 2),
        (
            "SELECT count(*) FROM deliveries WHERE seq = 1 AND endpoint = 0 AND id = 'msg_1' AND at = 1000 AND body = x'7b7d'",
            1,
        ),
        ("SELECT count(*) FROM attempts", 3),
        (
            "SELECT count(*) FROM attempts WHERE seq = 2 AND delivery = 1 AND number = 1 AND status = 500 AND at = 1001",
            1,
        ),
        (
            "SELECT count(*) FROM attempts WHERE seq = 3 AND delivery = 1 AND number = 2 AND status = 410 AND at = 1006",
            1,
        ),
        (
            "SELECT count(*) FROM attempts WHERE seq = 5 AND delivery = 1 AND number = 3 AND status = 500 AND at = 1007",
            1,
        ),
    ],
};

#[test]
fn every_record_is_written(rt: HostRuntime) -> Result<(), Fail> {
    walk(&rt, rt.alloc(), &EVERY_RECORD_IS_WRITTEN)
}

const FEWER: Keys = Keys::One(b"whsec_YWFhYWFhYWFhYWFhYWFhYWFhYWFhYWFh");

static SECRETS_ARE_REPLACED_BY_FEWER: Story = Story {
    limit: None,
    steps: &[
        Step::Enter(PUT_A, Told::Written),
        Step::Enter(EVENT_A, Told::Written),
        Step::Enter(PUT_B, Told::Written),
        Step::Enter(Entry::Give(b'a', FEWER), Told::Written),
        Step::Enter(Entry::Give(b'c', FEWER), ILLEGAL),
    ],
    counts: &[
        (
            "SELECT count(*) FROM endpoints WHERE name = 'a' AND secrets_by = 3 AND enabled_by = 0",
            1,
        ),
        (
            "SELECT count(*) FROM endpoints WHERE name = 'b' AND secrets_by = 2",
            1,
        ),
        ("SELECT count(*) FROM secrets WHERE endpoint = 0", 1),
        ("SELECT count(*) FROM secrets WHERE endpoint = 2", 2),
        (
            "SELECT count(*) FROM secrets WHERE endpoint = 0 AND place = 0 AND secret = x'616161616161616161616161616161616161616161616161'",
            1,
        ),
    ],
};

#[test]
fn secrets_are_replaced_by_fewer(rt: HostRuntime) -> Result<(), Fail> {
    walk(&rt, rt.alloc(), &SECRETS_ARE_REPLACED_BY_FEWER)
}

static TOPICS_ARE_REPLACED: Story = Story {
    limit: None,
    steps: &[
        Step::Enter(PUT_A, Told::Written),
        Step::Enter(Entry::Subscribe(b"t", b'b', true), ILLEGAL),
        Step::Enter(PUT_B, Told::Written),
        Step::Enter(Entry::Subscribe(b"t", b'b', true), Told::Written),
        Step::Enter(Entry::Subscribe(b"t", b'a', true), Told::Written),
        Step::Enter(Entry::Subscribe(b"orders", b'a', false), Told::Written),
        Step::Enter(Entry::Subscribe(b"t", b'b', false), Told::Written),
        Step::Enter(Entry::Subscribe(b"t", b'a', true), Told::Written),
        Step::Enter(Entry::Subscribe(b"t", b'c', true), ILLEGAL),
        Step::Next(7),
    ],
    counts: &[
        ("SELECT records FROM meta", 7),
        ("SELECT count(*) FROM topics", 3),
        (
            "SELECT count(*) FROM topics WHERE topic = 't' AND endpoint = 0 AND subscribed = 1 AND set_by = 6",
            1,
        ),
        (
            "SELECT count(*) FROM topics WHERE topic = 't' AND endpoint = 1 AND subscribed = 0 AND set_by = 5",
            1,
        ),
        (
            "SELECT count(*) FROM topics WHERE topic = 'orders' AND endpoint = 0 AND subscribed = 0 AND set_by = 4",
            1,
        ),
    ],
};

#[test]
fn topics_are_replaced(rt: HostRuntime) -> Result<(), Fail> {
    walk(&rt, rt.alloc(), &TOPICS_ARE_REPLACED)
}

/// Of an endpoint `a` that has topics `t0` to `t4094`.
static AT_MOST_4096_TOPICS: Story = Story {
    limit: None,
    steps: &[
        Step::Shows(&[Look::FreeTopics(1), Look::Subscribed(4095)]),
        Step::Enter(Entry::Subscribe(b"t", b'a', false), Told::Written),
        Step::Enter(Entry::Subscribe(b"u", b'a', true), ILLEGAL),
        Step::Enter(Entry::Subscribe(b"u", b'b', true), ILLEGAL),
        Step::Enter(Entry::Subscribe(b"t7", b'a', false), Told::Written),
        Step::Enter(PUT_B, Told::Written),
        Step::Enter(Entry::Subscribe(b"t", b'b', true), ILLEGAL),
        Step::Enter(Entry::Subscribe(b"t", b'a', true), Told::Written),
        Step::Shows(&[
            Look::FreeTopics(0),
            Look::HasTopic(b"t7", b'a', Some(false)),
            Look::HasTopic(b"t", b'a', Some(true)),
            Look::HasTopic(b"u", b'a', None),
            Look::HasTopic(b"t", b'b', None),
            Look::Subscribers(b"t4094", b"a"),
        ]),
    ],
    counts: &[
        ("SELECT records FROM meta", 4100),
        ("SELECT count(*) FROM topics", 4096),
    ],
};

fn adopted<S: Alter + Drop>(rt: &impl Abort, alloc: Global, conn: Connection<S>) -> Vault<S> {
    assert!(rt; conn.is_autocommit());
    match Vault::adopt(conn, MARK, alloc) {
        Ok(vault) => vault,
        Err((_, _)) => panic!(rt; "adopt was refused"),
    }
}

/// Takes the steps in turn on the vault that adopts the store.
pub(crate) fn walk_adopted<S: Alter + Drop>(
    rt: &impl Abort,
    alloc: Global,
    conn: Connection<S>,
    story: &Story,
) -> Result<(), Fail> {
    walk_on(
        rt,
        alloc,
        Spool::of(alloc, adopted(rt, alloc, conn))?,
        story,
    )
}

/// The store of a vault that takes the steps, opened over again.
pub(crate) fn left_after(
    rt: &impl Abort,
    alloc: Global,
    steps: &[Step],
) -> Result<Connection<MemStore>, Fail> {
    let (told, conn) = walk_through(rt, alloc, Spool::new(rt, alloc, None)?, steps);
    match told {
        Ok(()) => Ok(again(rt, alloc, conn)),
        Err(fail) => Err(fail),
    }
}

static ENDPOINT_A: &[Step] = &[Step::Enter(PUT_A, Told::Written)];

fn add_topic<S: Alter>(alloc: Global, conn: &mut Connection<S>, number: u32) -> Result<(), Fail> {
    let sql = format!(in alloc; "INSERT INTO topics VALUES('t{number}', 0, 1, {number} + 1)")?;
    Ok(run(conn, &sql)?)
}

/// The tables have an endpoint and so many topics.
fn count_topics<S: Alter>(alloc: Global, conn: &mut Connection<S>, count: u32) -> Result<(), Fail> {
    let sql = format!(in alloc; "UPDATE meta SET records = {count} + 1; COMMIT")?;
    Ok(run(conn, &sql)?)
}

/// Subscribes endpoint `a` to so many topics, beside the vault.
fn add_topics<S: Alter>(alloc: Global, conn: &mut Connection<S>, count: u32) -> Result<(), Fail> {
    run(conn, "BEGIN")?;
    for number in 0..count {
        add_topic(alloc, conn, number)?;
    }
    count_topics(alloc, conn, count)
}

fn walk_with_topics<S: Alter + Drop>(
    rt: &impl Abort,
    alloc: Global,
    conn: Connection<S>,
    story: &Story,
) -> Result<(), Fail> {
    let mut conn = conn;
    match add_topics(alloc, &mut conn, 4095) {
        Ok(()) => walk_adopted(rt, alloc, conn, story),
        told => told,
    }
}

#[test]
fn at_most_4096_topics(rt: HostRuntime) -> Result<(), Fail> {
    let conn = left_after(&rt, rt.alloc(), ENDPOINT_A)?;
    walk_with_topics(&rt, rt.alloc(), conn, &AT_MOST_4096_TOPICS)
}

/// Nine failures and a gone, and then the tenth failure.
static TEN_FAILURES_EXHAUST: Story = Story {
    limit: None,
    steps: &[
        Step::Enter(PUT_A, Told::Written),
        Step::Enter(EVENT_A, Told::Written),
        Step::Enter(Entry::Outcome(1, 1, 500, 1001), Told::Written),
        Step::Enter(Entry::Outcome(1, 2, 0, 1001), Told::Written),
        Step::Enter(Entry::Outcome(1, 3, 404, 1001), Told::Written),
        Step::Enter(Entry::Outcome(1, 4, 302, 1001), Told::Written),
        Step::Enter(Entry::Outcome(1, 5, 503, 1001), Told::Written),
        Step::Enter(Entry::Outcome(1, 6, 410, 1001), Told::Written),
        Step::Enter(Entry::Outcome(1, 7, 500, 1001), Told::Written),
        Step::Enter(Entry::Outcome(1, 8, 600, 1001), Told::Written),
        Step::Enter(Entry::Outcome(1, 9, 100, 1001), Told::Written),
        Step::Enter(Entry::Outcome(1, 10, 500, 1001), Told::Written),
        Step::Enter(Entry::Outcome(1, 11, 500, 1001), Told::Written),
        Step::Enter(Entry::Outcome(1, 12, 500, 1001), ILLEGAL),
        Step::Next(13),
    ],
    counts: &[],
};

#[test]
fn ten_failures_exhaust(rt: HostRuntime) -> Result<(), Fail> {
    walk(&rt, rt.alloc(), &TEN_FAILURES_EXHAUST)
}

static A_DELIVERED_EVENT_TAKES_NO_OUTCOME: Story = Story {
    limit: None,
    steps: &[
        Step::Enter(PUT_A, Told::Written),
        Step::Enter(EVENT_A, Told::Written),
        Step::Enter(Entry::Outcome(1, 1, 500, 1001), Told::Written),
        Step::Enter(Entry::Outcome(1, 2, 204, 1001), Told::Written),
        Step::Enter(Entry::Outcome(1, 3, 500, 1001), ILLEGAL),
        Step::Next(4),
    ],
    counts: &[],
};

#[test]
fn a_delivered_event_takes_no_outcome(rt: HostRuntime) -> Result<(), Fail> {
    walk(&rt, rt.alloc(), &A_DELIVERED_EVENT_TAKES_NO_OUTCOME)
}
