//! What is told of a delivery book, step for step.

use crate::deliveries::{Step, Told, walk};
use relay_types::State;

const FIRST: Told = Told {
    endpoint: b"a",
    id: b"msg_1",
    at: 1000,
    attempts: 0,
    state: State::Pending,
    due: Some(1000),
    last: None,
};

const SECOND: Told = Told {
    endpoint: b"b",
    id: b"msg_1",
    at: 1001,
    attempts: 0,
    state: State::Pending,
    due: Some(1001),
    last: None,
};

const THIRD: Told = Told {
    endpoint: b"a",
    id: b"msg_2",
    at: 1002,
    attempts: 0,
    state: State::Pending,
    due: Some(1002),
    last: None,
};

const FOURTH: Told = Told {
    endpoint: b"c",
    id: b"msg_1",
    at: 1003,
    attempts: 0,
    state: State::Pending,
    due: Some(1003),
    last: None,
};

// Records 0 and 1 put the endpoints, 2, 3 and 5 take in events, and 4 gives new secrets.
const ACCEPT_FIRST: Step = Step::Accept(2, b"a", b"msg_1", b"{}", 1000);

const ACCEPT_SECOND: Step = Step::Accept(3, b"b", b"msg_1", b"[]", 1001);

const ACCEPT_THIRD: Step = Step::Accept(5, b"a", b"msg_2", b"", 1002);

static EVENTS_ARE_KNOWN: [Step; 9] = [
    ACCEPT_FIRST,
    ACCEPT_SECOND,
    ACCEPT_THIRD,
    Step::Find(b"a", b"msg_1", Some(2)),
    Step::Find(b"b", b"msg_1", Some(3)),
    Step::Find(b"a", b"msg_2", Some(5)),
    Step::Find(b"b", b"msg_2", None),
    Step::Find(b"a", b"msg_3", None),
    Step::Find(b"c", b"msg_1", None),
];

#[test]
fn events_are_known_by_endpoint_and_id(rt: HostRuntime) {
    walk(&rt, rt.alloc(), &EVENTS_ARE_KNOWN);
}

// Records 0 to 2 put the endpoints, and 3 to 5 take in one event at `b`, `a` and `c`.
static ONE_EVENT_AT_THREE: [Step; 21] = [
    Step::AcceptAtThree(3, b"msg_1", b"{}", 1000),
    Step::Next(6),
    Step::Find(b"b", b"msg_1", Some(3)),
    Step::Find(b"a", b"msg_1", Some(4)),
    Step::Find(b"c", b"msg_1", Some(5)),
    Step::Find(b"d", b"msg_1", None),
    Step::Find(b"a", b"msg_2", None),
    Step::Row(2, None),
    Step::Row(4, Some(FIRST)),
    Step::Row(6, None),
    Step::Body(3, Some(b"{}")),
    Step::Body(5, Some(b"{}")),
    Step::Pending(b"c", 1),
    Step::PendingAll(3),
    Step::CountsAll(0, 0, 0),
    Step::Outcome(6, 4, 204, 1001),
    Step::Settle(5),
    Step::CountsAll(2, 0, 0),
    Step::Settled(5, None),
    Step::Settle(7),
    Step::CountsAll(2, 1, 0),
];

#[test]
fn an_event_is_taken_in_at_three_endpoints(rt: HostRuntime) {
    walk(&rt, rt.alloc(), &ONE_EVENT_AT_THREE);
}

static ROWS_AND_BODIES: [Step; 16] = [
    ACCEPT_FIRST,
    ACCEPT_SECOND,
    ACCEPT_THIRD,
    Step::Row(2, Some(FIRST)),
    Step::Row(3, Some(SECOND)),
    Step::Row(5, Some(THIRD)),
    Step::Row(0, None),
    Step::Body(0, None),
    Step::Row(1, None),
    Step::Body(1, None),
    Step::Row(4, None),
    Step::Body(4, None),
    Step::Row(6, None),
    Step::Body(6, None),
    Step::Body(3, Some(b"[]")),
    Step::Next(6),
];

#[test]
fn rows_and_bodies_are_those_of_the_events(rt: HostRuntime) {
    walk(&rt, rt.alloc(), &ROWS_AND_BODIES);
}

static RECORDS_SETTLE_IN_TWO_STEPS: [Step; 43] = [
    ACCEPT_FIRST,
    ACCEPT_SECOND,
    ACCEPT_THIRD,
    Step::Settle(0),
    Step::Counts(b"a", 0, 0, 0),
    Step::Counts(b"b", 0, 0, 0),
    Step::CountsAll(0, 0, 0),
    Step::Pending(b"a", 2),
    Step::Pending(b"b", 1),
    Step::PendingAll(3),
    Step::Settled(2, None),
    Step::Settled(3, None),
    Step::Settled(5, None),
    Step::Settle(3),
    Step::Counts(b"a", 1, 0, 0),
    Step::Counts(b"b", 0, 0, 0),
    Step::CountsAll(1, 0, 0),
    Step::Pending(b"a", 2),
    Step::Pending(b"b", 1),
    Step::PendingAll(3),
    Step::Settled(2, Some(FIRST)),
    Step::Settled(3, None),
    Step::Settled(5, None),
    Step::Settle(3),
    Step::Counts(b"a", 1, 0, 0),
    Step::Counts(b"b", 0, 0, 0),
    Step::CountsAll(1, 0, 0),
    Step::Pending(b"a", 2),
    Step::Pending(b"b", 1),
    Step::PendingAll(3),
    Step::Settled(2, Some(FIRST)),
    Step::Settled(3, None),
    Step::Settled(5, None),
    Step::Settle(6),
    Step::Counts(b"a", 2, 0, 0),
    Step::Counts(b"b", 1, 0, 0),
    Step::CountsAll(3, 0, 0),
    Step::Pending(b"a", 2),
    Step::Pending(b"b", 1),
    Step::PendingAll(3),
    Step::Settled(2, Some(FIRST)),
    Step::Settled(3, Some(SECOND)),
    Step::Settled(5, Some(THIRD)),
];

#[test]
fn records_settle_in_two_steps(rt: HostRuntime) {
    walk(&rt, rt.alloc(), &RECORDS_SETTLE_IN_TWO_STEPS);
}

static A_WAITING_EVENT: [Step; 12] = [
    ACCEPT_FIRST,
    ACCEPT_SECOND,
    ACCEPT_THIRD,
    Step::Settle(6),
    Step::Accept(6, b"c", b"msg_1", b"{}", 1003),
    Step::Find(b"c", b"msg_1", Some(6)),
    Step::Row(6, Some(FOURTH)),
    Step::Settled(6, None),
    Step::Pending(b"c", 1),
    Step::PendingAll(4),
    Step::Counts(b"c", 0, 0, 0),
    Step::CountsAll(3, 0, 0),
];

#[test]
fn a_waiting_event_is_pending_and_not_settled(rt: HostRuntime) {
    walk(&rt, rt.alloc(), &A_WAITING_EVENT);
}

// Whoever chooses the ids can't make the book slow: a search that went through the ids of the endpoint would take
// minutes here.
// (`rt try` does, since it tests what a call requires by the definitions: this test needs the proved build.)
static IDS_THAT_ARE_ALIKE: [Step; 2] = [
    Step::AcceptAlike(b"a", 50_000),
    Step::FindAlike(b"a", 50_000),
];

#[test]
fn ids_that_are_alike_are_found_fast(rt: HostRuntime) {
    walk(&rt, rt.alloc(), &IDS_THAT_ARE_ALIKE);
}

// The event of a history in which record 0 puts `a`, and record 1 takes in an event at 1000.
const ACCEPT_ONE: Step = Step::Accept(1, b"a", b"msg_1", b"{}", 1000);

// Record 4 enables the endpoint again, and the book is not told of it.
static A_GONE_ATTEMPT: [Step; 19] = [
    ACCEPT_ONE,
    Step::Settle(2),
    Step::Outcome(2, 1, 500, 1001),
    Step::Came(1, 1, State::Pending, Some(1006), Some(500)),
    Step::SettledCame(1, 0, State::Pending, Some(1000), None),
    Step::TakesOutcome(1, false),
    Step::Settle(3),
    Step::Outcome(3, 1, 410, 1006),
    Step::Came(1, 2, State::Pending, Some(1006), Some(410)),
    Step::SettledCame(1, 1, State::Pending, Some(1006), Some(500)),
    Step::TakesOutcome(1, false),
    Step::Settle(5),
    Step::Outcome(5, 1, 500, 1007),
    Step::Came(1, 3, State::Pending, Some(1307), Some(500)),
    Step::SettledCame(1, 2, State::Pending, Some(1006), Some(410)),
    Step::TakesOutcome(1, false),
    Step::Settle(6),
    Step::SettledCame(1, 3, State::Pending, Some(1307), Some(500)),
    Step::TakesOutcome(1, true),
];

#[test]
fn a_gone_attempt_adds_no_failure(rt: HostRuntime) {
    walk(&rt, rt.alloc(), &A_GONE_ATTEMPT);
}

static TEN_FAILURES: [Step; 34] = [
    ACCEPT_ONE,
    Step::Settle(2),
    Step::Outcome(2, 1, 503, 1000),
    Step::Came(1, 1, State::Pending, Some(1005), Some(503)),
    Step::Settle(3),
    Step::Outcome(3, 1, 503, 1005),
    Step::Came(1, 2, State::Pending, Some(1305), Some(503)),
    Step::Settle(4),
    Step::Outcome(4, 1, 503, 1305),
    Step::Came(1, 3, State::Pending, Some(3105), Some(503)),
    Step::Settle(5),
    Step::Outcome(5, 1, 503, 3105),
    Step::Came(1, 4, State::Pending, Some(10305), Some(503)),
    Step::Settle(6),
    Step::Outcome(6, 1, 503, 10305),
    Step::Came(1, 5, State::Pending, Some(28305), Some(503)),
    Step::Settle(7),
    Step::Outcome(7, 1, 503, 28305),
    Step::Came(1, 6, State::Pending, Some(64305), Some(503)),
    Step::Settle(8),
    Step::Outcome(8, 1, 503, 64305),
    Step::Came(1, 7, State::Pending, Some(114705), Some(503)),
    Step::Settle(9),
    Step::Outcome(9, 1, 503, 114705),
    Step::Came(1, 8, State::Pending, Some(186705), Some(503)),
    Step::Settle(10),
    Step::Outcome(10, 1, 503, 186705),
    Step::Came(1, 9, State::Pending, Some(273105), Some(503)),
    Step::Settle(11),
    Step::Outcome(11, 1, 0, 273105),
    Step::Came(1, 10, State::Exhausted, None, Some(0)),
    Step::SettledCame(1, 9, State::Pending, Some(273105), Some(503)),
    Step::Settle(12),
    Step::TakesOutcome(1, false),
];

#[test]
fn ten_failures_exhaust(rt: HostRuntime) {
    walk(&rt, rt.alloc(), &TEN_FAILURES);
}

// The attempts end 50,000 seconds after each other, and each is settled.
static GONE_ATTEMPTS_BETWEEN: [Step; 33] = [
    ACCEPT_ONE,
    Step::Outcome(2, 1, 500, 1000),
    Step::Settle(3),
    Step::Outcome(3, 1, 0, 51000),
    Step::Settle(4),
    Step::Outcome(4, 1, 410, 101000),
    Step::Settle(5),
    Step::Outcome(5, 1, 404, 151000),
    Step::Settle(6),
    Step::Outcome(6, 1, 302, 201000),
    Step::Settle(7),
    Step::Outcome(7, 1, 503, 251000),
    Step::Settle(8),
    Step::Outcome(8, 1, 410, 301000),
    Step::Settle(9),
    Step::Outcome(9, 1, 500, 351000),
    Step::Settle(10),
    Step::Outcome(10, 1, 600, 401000),
    Step::Settle(11),
    Step::Outcome(11, 1, 100, 451000),
    Step::Settle(12),
    Step::Outcome(12, 1, 429, 501000),
    Step::Settle(13),
    Step::Stands(1, 11, State::Pending),
    Step::TakesOutcome(1, true),
    Step::Outcome(13, 1, 410, 551000),
    Step::Settle(14),
    Step::Stands(1, 12, State::Pending),
    Step::TakesOutcome(1, true),
    Step::Outcome(14, 1, 500, 601000),
    Step::Settle(15),
    Step::Stands(1, 13, State::Exhausted),
    Step::TakesOutcome(1, false),
];

#[test]
fn gone_attempts_between_ten_failures_add_none(rt: HostRuntime) {
    walk(&rt, rt.alloc(), &GONE_ATTEMPTS_BETWEEN);
}

static AN_OUTCOME_THAT_WAITS: [Step; 20] = [
    ACCEPT_ONE,
    Step::Settle(2),
    Step::Outcome(2, 1, 204, 1001),
    Step::Settle(2),
    Step::Pending(b"a", 0),
    Step::PendingAll(0),
    Step::Counts(b"a", 1, 0, 0),
    Step::CountsAll(1, 0, 0),
    Step::Came(1, 1, State::Delivered, None, Some(204)),
    Step::SettledCame(1, 0, State::Pending, Some(1000), None),
    Step::TakesOutcome(1, false),
    Step::Settle(3),
    Step::Pending(b"a", 0),
    Step::PendingAll(0),
    Step::Counts(b"a", 0, 1, 0),
    Step::CountsAll(0, 1, 0),
    Step::Came(1, 1, State::Delivered, None, Some(204)),
    Step::SettledCame(1, 1, State::Delivered, None, Some(204)),
    Step::TakesOutcome(1, false),
    Step::TakesOutcome(2, false),
];

#[test]
fn an_outcome_that_waits_is_not_settled(rt: HostRuntime) {
    walk(&rt, rt.alloc(), &AN_OUTCOME_THAT_WAITS);
}
