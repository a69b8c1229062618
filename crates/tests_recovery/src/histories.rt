//! Random legal histories: a desk of the rows that they left shows and does what the desk does that made them.
ghost use Rattle.std.specs.Prelude.{◌≡◌, ◌<◌};

use crate::draws::{Numbers, draw};
use crate::given::{Text, add_given, spend};
use crate::openings::let_go;
use crate::pages::{check_limits, check_pages, latest};
use crate::stores::{MARK, again, all_rows, count, in_memory};
use desk::Desk;
use permits::{PARTS, Pool};
use recovery::{create, reopen};
use relay_types::Moment;
use retry_table::PostResult;
use spool::{OpenFault, Vault};
use sqlite::{Alter, Connection, MemStore};
use std::alloc::Global;
use std::marker::Brand;
use std::process::Abort;
use std::sync::ledger::{Blank, Ledger};

/// What is done with a store.
#[derive(Clone, Copy)]
pub(crate) enum Way {
    /// It is new. Random calls are made.
    Begun,
    /// It is opened, and random calls are made.
    GoneOn,
    /// It is opened.
    Opened,
    /// It is opened, or the opening is refused.
    Tried,
}

/// Whether the clock stands at the latest moment in the rows, where an attempt is due then. It isn't sent.
fn check_clock<L: Ledger>(rt: &impl Abort, desk: &mut Desk<L>, latest: u64) {
    let start = Moment::of(0).expect(rt, "a moment");
    if let Some(job) = desk.claim(start).expect(rt, "a claim") {
        let at = job.moment().seconds();
        spend(rt, desk, job.into_permit(), PostResult::Unsent, start);
        assert!(rt; at == latest, "at {at}");
    }
}

/// Whether the desk shows what plain SQL tells of the rows. Adds what it gives, of which nothing is asked where the
/// opening might be refused.
fn check_desk<L: Ledger, S: Alter>(
    rt: &impl Abort,
    alloc: Global,
    way: Way,
    desk: &mut Desk<L>,
    conn: &mut Connection<S>,
    text: &mut Text,
) {
    check_pages(rt, alloc, conn, desk);
    match way {
        Way::Begun | Way::GoneOn => add_given(rt, desk, text),
        Way::Opened => {
            check_limits(rt, alloc, conn, desk);
            check_clock(rt, desk, latest(rt, conn));
            add_given(rt, desk, text);
        }
        Way::Tried => check_limits(rt, alloc, conn, desk),
    }
}

fn draw_where_asked<L: Ledger, S: Alter>(
    rt: &impl Abort,
    alloc: Global,
    way: Way,
    desk: &mut Desk<L>,
    vault: &mut Vault<S>,
    numbers: &mut Numbers,
) {
    match way {
        Way::Begun | Way::GoneOn => draw(rt, alloc, desk, vault, numbers),
        Way::Opened | Way::Tried => {}
    }
}

fn add_refusal(rt: &impl Abort, way: Way, fault: OpenFault, text: &mut Text) {
    assert!(rt; matches!(way, Way::Tried), "the opening was refused");
    text.add_fault(rt, fault);
}

/// A desk of the store, and its vault.
fn opened<L: Ledger, S: Alter>(
    rt: &impl Abort,
    alloc: Global,
    blank: Blank,
    way: Way,
    conn: Connection<S>,
) -> Result<(Desk<L>, Vault<S>), (Connection<S>, OpenFault)>
    requires name { blank.name ≡ L.name }
    requires parts { blank.parts ≡ L.parts }
    requires enough { blank.parts ≡ PARTS }
{
    assert!(rt; conn.is_autocommit());
    if matches!(way, Way::Begun) {
        return create::<L, S>(alloc, blank, conn, MARK);
    }
    let pool = Pool::<L>::new(alloc, blank).expect(rt, "memory");
    reopen(alloc, pool, conn, MARK)
}

/// Opens the store, and checks and does what the way asks for. The store, and what the desk gave, or the refusal.
fn visit<L: Ledger, S: Alter>(
    rt: &impl Abort,
    alloc: Global,
    blank: Blank,
    way: Way,
    conn: Connection<S>,
    numbers: &mut Numbers,
    text: &mut Text,
) -> Connection<S>
    requires name { blank.name ≡ L.name }
    requires parts { blank.parts ≡ L.parts }
    requires enough { blank.parts ≡ PARTS }
{
    match opened::<L, S>(rt, alloc, blank, way, conn) {
        Ok((desk, vault)) => {
            let (mut desk, mut vault) = (desk, vault);
            draw_where_asked(rt, alloc, way, &mut desk, &mut vault, numbers);
            let mut conn = vault.release();
            check_desk(rt, alloc, way, &mut desk, &mut conn, text);
            let_go(desk);
            conn
        }
        Err((conn, fault)) => {
            add_refusal(rt, way, fault, text);
            conn
        }
    }
}

/// What comes of the store, opened over again, on this way: the store, and what the desk gave, or the refusal.
fn after(
    rt: &impl Abort,
    alloc: Global,
    way: Way,
    conn: Connection<MemStore>,
    numbers: &mut Numbers,
    text: &mut Text,
) -> Connection<MemStore> {
    let conn = again(rt, alloc, conn);
    let conn = visit::<Brand, MemStore>(rt, alloc, Blank::new(PARTS), way, conn, numbers, text);
    again(rt, alloc, conn)
}

/// The store after it was opened on this way, which gives this text and leaves the rows as they were.
pub(crate) fn unchanged(
    rt: &impl Abort,
    alloc: Global,
    way: Way,
    conn: Connection<MemStore>,
    numbers: &mut Numbers,
    wanted: &str,
) -> Connection<MemStore> {
    let mut conn = conn;
    let before = all_rows(rt, alloc, &mut conn);
    let mut text = Text::new(alloc);
    let mut conn = after(rt, alloc, way, conn, numbers, &mut text);
    let rows = all_rows(rt, alloc, &mut conn);
    let first = numbers.first;
    assert!(rt; text.is(wanted), "from {first}");
    assert!(rt; rows.as_str() == before.as_str(), "from {first}");
    conn
}

/// The store after random calls. A desk of its rows gives what the one gave that made them, and leaves the rows as they
/// were.
fn drawn(
    rt: &impl Abort,
    alloc: Global,
    way: Way,
    conn: Connection<MemStore>,
    numbers: &mut Numbers,
) -> Connection<MemStore> {
    let mut given = Text::new(alloc);
    let conn = after(rt, alloc, way, conn, numbers, &mut given);
    unchanged(rt, alloc, Way::Opened, conn, numbers, &given.told)
}

/// Adds a topic of one of the endpoints by SQL, after up to two records that no row names.
fn add_topic<S: Alter>(
    rt: &impl Abort,
    alloc: Global,
    conn: &mut Connection<S>,
    numbers: &mut Numbers,
    endpoints: u64,
    topic: u64,
)
    requires { 0 < endpoints }
{
    let place = numbers.below(endpoints);
    let (flag, others) = (numbers.below(2), numbers.below(3));
    let sql = format!(in alloc;
        "INSERT INTO topics SELECT 't{topic}', put, {flag}, records + {others} FROM endpoints, meta \
         ORDER BY put LIMIT 1 OFFSET {place}; \
         UPDATE meta SET records = records + {others} + 1"
    )
    .expect(rt, "memory");
    conn.execute_batch(&sql).expect(rt, "a topic");
}

/// Adds up to three topics, if there are endpoints.
fn add_topics<S: Alter>(
    rt: &impl Abort,
    alloc: Global,
    conn: &mut Connection<S>,
    numbers: &mut Numbers,
) {
    let endpoints = count(rt, conn, "SELECT count(*) FROM endpoints");
    if endpoints == 0 {
        return;
    }
    for topic in 0..numbers.below(4) {
        add_topic(rt, alloc, conn, numbers, endpoints, topic);
    }
}

/// The store of a history that is drawn from this number. Its desk was opened again half way, where topics were added.
pub(crate) fn history(rt: &impl Abort, alloc: Global, first: u64) -> Connection<MemStore> {
    let mut numbers = Numbers::from(first);
    let mut conn = drawn(rt, alloc, Way::Begun, in_memory(rt, alloc), &mut numbers);
    add_topics(rt, alloc, &mut conn, &mut numbers);
    drawn(rt, alloc, Way::GoneOn, conn, &mut numbers)
}

#[test]
fn five_hundred_histories_are_opened_as_they_were_left(rt: HostRuntime) {
    for first in 0..250 {
        history(&rt, rt.alloc(), first);
    }
}
