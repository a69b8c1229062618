//! What a desk shows, beside what plain SQL tells of the rows.

use crate::stores::{answer, count};
use delivery_book::Row as Shown;
use desk::{Desk, EndpointPage, Limits, Ticket, Told, Totals};
use relay_types::{MsgId, Name, State};
use sqlite::{Alter, Connection, Row};
use sqlite_value::value::ValueRef;
use std::alloc::Global;
use std::process::Abort;
use std::sync::ledger::Ledger;

/// How the attempts at each event went: how many delivered it, how many failed, and the number of the last one.
const JUDGED: &str =
    "WITH judged AS (SELECT d.seq AS seq, d.endpoint AS put, d.id AS id, d.at AS at, d.body AS body, \
     (SELECT count(*) FROM attempts t WHERE t.delivery = d.seq) AS attempts, \
     (SELECT count(*) FROM attempts t WHERE t.delivery = d.seq AND t.status BETWEEN 200 AND 299) AS good, \
     (SELECT count(*) FROM attempts t WHERE t.delivery = d.seq AND t.status <> 410 \
      AND NOT t.status BETWEEN 200 AND 299) AS failed, \
     (SELECT max(t.seq) FROM attempts t WHERE t.delivery = d.seq) AS latest \
     FROM deliveries d)";

/// The records, the endpoints, and the events in each state.
const ALL: &str = ", pending AS (SELECT count(*) AS n FROM judged WHERE good = 0 AND failed < 10), \
     delivered AS (SELECT count(*) AS n FROM judged WHERE good > 0), \
     exhausted AS (SELECT count(*) AS n FROM judged WHERE good = 0 AND failed > 9), \
     ends AS (SELECT count(*) AS n FROM endpoints) \
     SELECT m.records, ends.n, pending.n, delivered.n, exhausted.n \
     FROM meta m, ends, pending, delivered, exhausted";

/// Each endpoint's name and page, and its limit before any attempt.
const ENDPOINTS: &str = " SELECT e.name, e.url, e.max, e.enabled, \
     (SELECT count(*) FROM secrets s WHERE s.endpoint = e.put), \
     (SELECT count(*) FROM judged j WHERE j.put = e.put AND j.good = 0 AND j.failed < 10), \
     (SELECT count(*) FROM judged j WHERE j.put = e.put AND j.good > 0), \
     (SELECT count(*) FROM judged j WHERE j.put = e.put AND j.good = 0 AND j.failed > 9), \
     CASE WHEN e.max < 20 THEN e.max ELSE 20 END \
     FROM endpoints e ORDER BY e.put";

/// Each event's endpoint, id, number, body and page. The delays are those after a failed attempt, by how many failed.
const EVENTS: &str = " SELECT e.name, j.id, j.seq, j.body, j.at, j.attempts, l.status, \
     CASE WHEN j.good > 0 THEN 'delivered' WHEN j.failed > 9 THEN 'exhausted' ELSE 'pending' END, \
     CASE WHEN j.good > 0 OR j.failed > 9 THEN NULL WHEN l.seq IS NULL THEN j.at WHEN l.status = 410 THEN l.at \
     ELSE l.at + CASE j.failed WHEN 1 THEN 5 WHEN 2 THEN 300 WHEN 3 THEN 1800 WHEN 4 THEN 7200 WHEN 5 THEN 18000 \
     WHEN 6 THEN 36000 WHEN 7 THEN 50400 WHEN 8 THEN 72000 ELSE 86400 END END \
     FROM judged j JOIN endpoints e ON e.put = j.put LEFT JOIN attempts l ON l.seq = j.latest ORDER BY j.seq";

/// The greatest moment in the rows.
const LATEST: &str = "SELECT coalesce(max(at), 0) FROM \
     (SELECT at FROM deliveries UNION ALL SELECT at FROM attempts)";

/// What this query answers, which reads of how the attempts went.
fn judged<S: Alter>(
    rt: &impl Abort,
    alloc: Global,
    conn: &mut Connection<S>,
    query: &str,
) -> Vec<Row> {
    let sql = format!(in alloc; "{JUDGED}{query}").expect(rt, "memory");
    answer(rt, conn, &sql)
}

fn is_number(row: &Row, column: usize, number: u64) -> bool {
    match row.get::<u64>(column) {
        Ok(told) => told == number,
        Err(_) => false,
    }
}

fn is_null(row: &Row, column: usize) -> bool {
    match row.get_ref(column) {
        Ok(ValueRef::Null) => true,
        _ => false,
    }
}

fn is_text(row: &Row, column: usize, text: &[u8]) -> bool {
    match row.get_ref(column) {
        Ok(ValueRef::Text(told)) => told == text,
        _ => false,
    }
}

fn is_blob(row: &Row, column: usize, bytes: &[u8]) -> bool {
    match row.get_ref(column) {
        Ok(ValueRef::Blob(told)) => told == bytes,
        _ => false,
    }
}

fn is_number_or_null(row: &Row, column: usize, number: Option<u64>) -> bool {
    match number {
        Some(number) => is_number(row, column, number),
        None => is_null(row, column),
    }
}

fn are_totals(row: &Row, all: Totals) -> bool {
    is_number(row, 0, all.records)
        && is_number(row, 1, all.endpoints as u64)
        && is_number(row, 2, all.pending)
        && is_number(row, 3, all.delivered)
        && is_number(row, 4, all.exhausted)
}

fn is_endpoint(row: &Row, page: &EndpointPage<'_>) -> bool {
    is_text(row, 1, page.url.as_bytes())
        && is_number(row, 2, u64::from(page.max.get()))
        && is_number(row, 3, u64::from(page.enabled))
        && is_number(row, 4, page.secrets as u64)
        && is_number(row, 5, page.pending)
        && is_number(row, 6, page.delivered)
        && is_number(row, 7, page.exhausted)
}

fn are_limits(row: &Row, told: Limits) -> bool {
    is_number(row, 8, u64::from(told.limit)) && told.in_flight == 0 && told.noload == 0
}

fn state_word(state: State) -> &'static [u8] {
    match state {
        State::Pending => b"pending",
        State::Delivered => b"delivered",
        State::Exhausted => b"exhausted",
    }
}

fn status_of(page: &Shown) -> Option<u64> {
    match page.last_status {
        Some(status) => Some(u64::from(status)),
        None => None,
    }
}

fn is_event(row: &Row, page: &Shown) -> bool {
    is_number(row, 4, page.at.seconds())
        && is_number(row, 5, page.attempts)
        && is_number_or_null(row, 6, status_of(page))
        && is_text(row, 7, state_word(page.state))
        && is_number_or_null(row, 8, page.due)
}

fn name_of(rt: &impl Abort, row: &Row) -> Name {
    match row.get_ref(0) {
        Ok(ValueRef::Text(text)) => Name::read(text).expect(rt, "a name"),
        _ => panic!(rt; "no name"),
    }
}

fn id_of(rt: &impl Abort, row: &Row) -> MsgId {
    match row.get_ref(1) {
        Ok(ValueRef::Text(text)) => MsgId::read(text).expect(rt, "an id"),
        _ => panic!(rt; "no id"),
    }
}

/// Whether the desk has the endpoint's page that the row tells.
fn has_endpoint<L: Ledger>(desk: &Desk<L>, name: Name, row: &Row) -> bool {
    match desk.endpoint_page(name) {
        Some(page) => is_endpoint(row, &page),
        None => false,
    }
}

/// Whether the desk has the endpoint's limits that the row tells.
fn has_limits<L: Ledger>(desk: &Desk<L>, name: Name, row: &Row) -> bool {
    match desk.limits(name) {
        Some(told) => are_limits(row, told),
        None => false,
    }
}

/// What the desk would have given for the event of the row.
fn ticket_of(rt: &impl Abort, row: &Row) -> Ticket {
    Ticket {
        seq: row.get(2).expect(rt, "a number"),
        name: name_of(rt, row),
        id: id_of(rt, row),
    }
}

/// Whether the desk has the event's page that the row tells.
fn has_page<L: Ledger>(desk: &Desk<L>, ticket: &Ticket, row: &Row) -> bool {
    match desk.event_page(ticket.name, &ticket.id) {
        Some(page) => is_event(row, &page),
        None => false,
    }
}

/// Whether the desk has the body of the ticket's event that the row tells.
fn has_body<L: Ledger>(desk: &Desk<L>, ticket: &Ticket, row: &Row) -> bool {
    match desk.settled_body(ticket) {
        Some(body) => is_blob(row, 3, body.as_bytes()),
        None => false,
    }
}

/// Whether the desk has the event's page and its body that the row tells.
fn has_event<L: Ledger>(desk: &Desk<L>, ticket: &Ticket, row: &Row) -> bool {
    has_page(desk, ticket, row)
        && matches!(desk.told(ticket), Told::Settled)
        && has_body(desk, ticket, row)
}

/// Whether the desk has the totals that plain SQL tells of the rows, and all records are settled.
fn check_totals<L: Ledger>(rt: &impl Abort, desk: &Desk<L>, rows: &[Row]) {
    match rows.first() {
        Some(row) => assert!(rt; are_totals(row, desk.totals())),
        None => panic!(rt; "there are no totals"),
    }
    assert!(rt; desk.records() == desk.settled_records());
    assert!(rt; !desk.is_halted());
}

fn holds(rt: &impl Abort, is: bool, what: &str, place: usize) {
    assert!(rt; is, "{what} {place}");
}

fn check_endpoints<L: Ledger>(rt: &impl Abort, desk: &Desk<L>, rows: &[Row]) {
    for (place, row) in rows.iter().enumerate() {
        holds(
            rt,
            has_endpoint(desk, name_of(rt, row), row),
            "endpoint",
            place,
        );
    }
}

fn check_events<L: Ledger>(rt: &impl Abort, desk: &Desk<L>, rows: &[Row]) {
    for (place, row) in rows.iter().enumerate() {
        holds(
            rt,
            has_event(desk, &ticket_of(rt, row), row),
            "event",
            place,
        );
    }
}

fn check_each_limit<L: Ledger>(rt: &impl Abort, desk: &Desk<L>, rows: &[Row]) {
    for (place, row) in rows.iter().enumerate() {
        holds(rt, has_limits(desk, name_of(rt, row), row), "limits", place);
    }
}

/// Whether the desk shows what plain SQL tells of the rows.
pub(crate) fn check_pages<L: Ledger, S: Alter>(
    rt: &impl Abort,
    alloc: Global,
    conn: &mut Connection<S>,
    desk: &Desk<L>,
) {
    check_totals(rt, desk, &judged(rt, alloc, conn, ALL));
    check_endpoints(rt, desk, &judged(rt, alloc, conn, ENDPOINTS));
    check_events(rt, desk, &judged(rt, alloc, conn, EVENTS));
}

/// Whether each endpoint of the desk, which was opened from these rows, has its first limit, and nothing is under way.
pub(crate) fn check_limits<L: Ledger, S: Alter>(
    rt: &impl Abort,
    alloc: Global,
    conn: &mut Connection<S>,
    desk: &Desk<L>,
) {
    check_each_limit(rt, desk, &judged(rt, alloc, conn, ENDPOINTS));
}

/// The greatest moment in the rows, by plain SQL.
pub(crate) fn latest<S: Alter>(rt: &impl Abort, conn: &mut Connection<S>) -> u64 {
    count(rt, conn, LATEST)
}
