//! What Purges take from a delivery book, step for step.

use crate::deliveries::{Step, Told, walk};
use relay_types::State;

/// The greatest moment.
const LAST: u64 = 1_099_511_627_776;

// Record 0 puts `a`, and record 1 takes in an event at 1000.
const ACCEPT: Step = Step::Accept(1, b"a", b"msg_1", b"{}", 1000);

const AGAIN: Told = Told {
    endpoint: b"a",
    id: b"msg_1",
    at: 1002,
    attempts: 0,
    state: State::Pending,
    due: Some(1002),
    last: None,
};

// The event ended at 1000. Purge 3 is of that moment, Purge 4 of the next, and record 5 takes in the id again.
static A_DELIVERED_EVENT_IS_TAKEN: [Step; 65] = [
    ACCEPT,
    Step::Settle(2),
    Step::Outcome(2, 1, 200, 1000),
    Step::Settle(3),
    Step::Purge(3, 1000),
    Step::Next(4),
    Step::Find(b"a", b"msg_1", Some(1)),
    Step::Settle(4),
    Step::Find(b"a", b"msg_1", Some(1)),
    Step::FindSettled(b"a", b"msg_1", Some(1)),
    Step::Came(1, 1, State::Delivered, None, Some(200)),
    Step::SettledCame(1, 1, State::Delivered, None, Some(200)),
    Step::Counts(b"a", 0, 1, 0),
    Step::CountsAll(0, 1, 0),
    Step::Body(1, Some(b"{}")),
    Step::Len(1),
    Step::Purge(4, 1001),
    Step::Next(5),
    Step::Find(b"a", b"msg_1", None),
    Step::FindSettled(b"a", b"msg_1", Some(1)),
    Step::Row(1, None),
    Step::SettledCame(1, 1, State::Delivered, None, Some(200)),
    Step::Body(1, Some(b"{}")),
    Step::TakesOutcome(1, false),
    Step::Pending(b"a", 0),
    Step::PendingAll(0),
    Step::Counts(b"a", 0, 1, 0),
    Step::CountsAll(0, 1, 0),
    Step::Len(1),
    Step::Accept(5, b"a", b"msg_1", b"{|", 1002),
    Step::Find(b"a", b"msg_1", Some(5)),
    Step::FindSettled(b"a", b"msg_1", Some(1)),
    Step::Row(1, None),
    Step::Row(5, Some(AGAIN)),
    Step::Settled(5, None),
    Step::Body(1, Some(b"{}")),
    Step::Body(5, Some(b"{|")),
    Step::Pending(b"a", 1),
    Step::PendingAll(1),
    Step::Counts(b"a", 0, 1, 0),
    Step::Len(2),
    Step::At(0, Some(1)),
    Step::At(1, Some(5)),
    Step::Settle(5),
    Step::Find(b"a", b"msg_1", Some(5)),
    Step::FindSettled(b"a", b"msg_1", None),
    Step::Row(1, None),
    Step::Settled(1, None),
    Step::Body(1, None),
    Step::Body(5, Some(b"{|")),
    Step::Pending(b"a", 1),
    Step::Counts(b"a", 0, 0, 0),
    Step::CountsAll(0, 0, 0),
    Step::Len(1),
    Step::At(0, Some(5)),
    Step::At(1, None),
    Step::Settle(6),
    Step::Find(b"a", b"msg_1", Some(5)),
    Step::FindSettled(b"a", b"msg_1", Some(5)),
    Step::Settled(5, Some(AGAIN)),
    Step::PendingAll(1),
    Step::Counts(b"a", 1, 0, 0),
    Step::CountsAll(1, 0, 0),
    Step::TakesOutcome(5, true),
    Step::Next(6),
];

#[test]
fn a_delivered_event_is_taken(rt: HostRuntime) {
    walk(&rt, rt.alloc(), &A_DELIVERED_EVENT_IS_TAKEN);
}

// Nine attempts failed and two were answered gone. Then the tenth failure comes.
static A_PENDING_EVENT_IS_KEPT: [Step; 44] = [
    ACCEPT,
    Step::Settle(2),
    Step::Purge(2, LAST),
    Step::Find(b"a", b"msg_1", Some(1)),
    Step::Pending(b"a", 1),
    Step::Outcome(3, 1, 500, 1001),
    Step::Settle(4),
    Step::Outcome(4, 1, 0, 1001),
    Step::Settle(5),
    Step::Outcome(5, 1, 410, 1001),
    Step::Settle(6),
    Step::Outcome(6, 1, 404, 1001),
    Step::Settle(7),
    Step::Outcome(7, 1, 302, 1001),
    Step::Settle(8),
    Step::Outcome(8, 1, 503, 1001),
    Step::Settle(9),
    Step::Outcome(9, 1, 410, 1001),
    Step::Settle(10),
    Step::Outcome(10, 1, 500, 1001),
    Step::Settle(11),
    Step::Outcome(11, 1, 600, 1001),
    Step::Settle(12),
    Step::Outcome(12, 1, 100, 1001),
    Step::Settle(13),
    Step::Outcome(13, 1, 429, 1001),
    Step::Settle(14),
    Step::Stands(1, 11, State::Pending),
    Step::Purge(14, LAST),
    Step::Find(b"a", b"msg_1", Some(1)),
    Step::Settle(15),
    Step::Stands(1, 11, State::Pending),
    Step::FindSettled(b"a", b"msg_1", Some(1)),
    Step::Counts(b"a", 1, 0, 0),
    Step::Outcome(15, 1, 500, 1001),
    Step::Settle(16),
    Step::Stands(1, 12, State::Exhausted),
    Step::Counts(b"a", 0, 0, 1),
    Step::Purge(16, 1002),
    Step::Find(b"a", b"msg_1", None),
    Step::Counts(b"a", 0, 0, 1),
    Step::Settle(17),
    Step::CountsAll(0, 0, 0),
    Step::Len(0),
];

#[test]
fn a_pending_event_is_kept(rt: HostRuntime) {
    walk(&rt, rt.alloc(), &A_PENDING_EVENT_IS_KEPT);
}

// The first nine attempts ended at 5000, and the tenth at 1000.
static THE_LAST_ATTEMPT_DECIDES: [Step; 34] = [
    ACCEPT,
    Step::Settle(2),
    Step::Outcome(2, 1, 500, 5000),
    Step::Settle(3),
    Step::Outcome(3, 1, 500, 5000),
    Step::Settle(4),
    Step::Outcome(4, 1, 500, 5000),
    Step::Settle(5),
    Step::Outcome(5, 1, 500, 5000),
    Step::Settle(6),
    Step::Outcome(6, 1, 500, 5000),
    Step::Settle(7),
    Step::Outcome(7, 1, 500, 5000),
    Step::Settle(8),
    Step::Outcome(8, 1, 500, 5000),
    Step::Settle(9),
    Step::Outcome(9, 1, 500, 5000),
    Step::Settle(10),
    Step::Outcome(10, 1, 500, 5000),
    Step::Settle(11),
    Step::Outcome(11, 1, 500, 1000),
    Step::Settle(12),
    Step::Purge(12, 1000),
    Step::Find(b"a", b"msg_1", Some(1)),
    Step::Settle(13),
    Step::Stands(1, 10, State::Exhausted),
    Step::CountsAll(0, 0, 1),
    Step::Purge(13, 1001),
    Step::Find(b"a", b"msg_1", None),
    Step::Stands(1, 10, State::Exhausted),
    Step::Settle(14),
    Step::Settled(1, None),
    Step::FindSettled(b"a", b"msg_1", None),
    Step::CountsAll(0, 0, 0),
];

#[test]
fn the_last_attempt_decides(rt: HostRuntime) {
    walk(&rt, rt.alloc(), &THE_LAST_ATTEMPT_DECIDES);
}

// The event is of 2000, and its attempt ended at 1000: its own moment decides nothing.
static THE_MOMENT_OF_THE_EVENT_DECIDES_NOTHING: [Step; 8] = [
    Step::Accept(1, b"a", b"msg_1", b"{}", 2000),
    Step::Outcome(2, 1, 200, 1000),
    Step::Purge(3, 1000),
    Step::Find(b"a", b"msg_1", Some(1)),
    Step::Purge(4, 1001),
    Step::Find(b"a", b"msg_1", None),
    Step::Settle(5),
    Step::Len(0),
];

#[test]
fn the_moment_of_the_event_decides_nothing(rt: HostRuntime) {
    walk(&rt, rt.alloc(), &THE_MOMENT_OF_THE_EVENT_DECIDES_NOTHING);
}

// The outcome waits, and the Purge behind it takes the event. The settled records have it as pending till then.
static A_WAITING_OUTCOME_COUNTS: [Step; 36] = [
    ACCEPT,
    Step::Settle(2),
    Step::Outcome(2, 1, 200, 1000),
    Step::Purge(3, 1001),
    Step::Find(b"a", b"msg_1", None),
    Step::FindSettled(b"a", b"msg_1", Some(1)),
    Step::Row(1, None),
    Step::SettledCame(1, 0, State::Pending, Some(1000), None),
    Step::TakesOutcome(1, false),
    Step::Pending(b"a", 0),
    Step::Counts(b"a", 1, 0, 0),
    Step::Accept(4, b"a", b"msg_1", b"{|", 1002),
    Step::Find(b"a", b"msg_1", Some(4)),
    Step::FindSettled(b"a", b"msg_1", Some(1)),
    Step::Pending(b"a", 1),
    Step::Settle(3),
    Step::FindSettled(b"a", b"msg_1", Some(1)),
    Step::SettledCame(1, 1, State::Delivered, None, Some(200)),
    Step::Counts(b"a", 0, 1, 0),
    Step::Body(1, Some(b"{}")),
    Step::Settle(4),
    Step::FindSettled(b"a", b"msg_1", None),
    Step::Settled(1, None),
    Step::Counts(b"a", 0, 0, 0),
    Step::Body(1, None),
    Step::Settle(5),
    Step::FindSettled(b"a", b"msg_1", Some(4)),
    Step::Settled(4, Some(AGAIN)),
    Step::Counts(b"a", 1, 0, 0),
    Step::Len(1),
    Step::Outcome(5, 4, 200, 1002),
    Step::Settle(6),
    Step::Stands(4, 1, State::Delivered),
    Step::Counts(b"a", 0, 1, 0),
    Step::CountsAll(0, 1, 0),
    Step::PendingAll(0),
];

#[test]
fn a_waiting_outcome_counts(rt: HostRuntime) {
    walk(&rt, rt.alloc(), &A_WAITING_OUTCOME_COUNTS);
}

// The same, settled at once.
static ALL_IS_SETTLED_AT_ONCE: [Step; 12] = [
    ACCEPT,
    Step::Outcome(2, 1, 200, 1000),
    Step::Purge(3, 1001),
    Step::Accept(4, b"a", b"msg_1", b"{|", 1002),
    Step::Settle(5),
    Step::Find(b"a", b"msg_1", Some(4)),
    Step::FindSettled(b"a", b"msg_1", Some(4)),
    Step::Settled(1, None),
    Step::Settled(4, Some(AGAIN)),
    Step::CountsAll(1, 0, 0),
    Step::PendingAll(1),
    Step::Len(1),
];

#[test]
fn all_is_settled_at_once(rt: HostRuntime) {
    walk(&rt, rt.alloc(), &ALL_IS_SETTLED_AT_ONCE);
}

// The event is pending when the Purge comes, and its outcome waits behind the Purge.
static A_PURGE_BEFORE_THE_OUTCOME: [Step; 10] = [
    ACCEPT,
    Step::Settle(2),
    Step::Purge(2, 1001),
    Step::Outcome(3, 1, 200, 1000),
    Step::Find(b"a", b"msg_1", Some(1)),
    Step::Settle(4),
    Step::Find(b"a", b"msg_1", Some(1)),
    Step::FindSettled(b"a", b"msg_1", Some(1)),
    Step::Stands(1, 1, State::Delivered),
    Step::CountsAll(0, 1, 0),
];

#[test]
fn a_purge_before_the_outcome_takes_nothing(rt: HostRuntime) {
    walk(&rt, rt.alloc(), &A_PURGE_BEFORE_THE_OUTCOME);
}

// Three events under one id, and two Purges, all of which wait.
static AN_ID_IS_TAKEN_TWICE: [Step; 43] = [
    ACCEPT,
    Step::Settle(2),
    Step::Outcome(2, 1, 200, 1000),
    Step::Settle(3),
    Step::Purge(3, 1001),
    Step::Accept(4, b"a", b"msg_1", b"[]", 1001),
    Step::Outcome(5, 4, 200, 1001),
    Step::Purge(6, 1002),
    Step::Find(b"a", b"msg_1", None),
    Step::Accept(7, b"a", b"msg_1", b"{|", 1002),
    Step::Find(b"a", b"msg_1", Some(7)),
    Step::FindSettled(b"a", b"msg_1", Some(1)),
    Step::Row(1, None),
    Step::Row(4, None),
    Step::Row(7, Some(AGAIN)),
    Step::Body(4, Some(b"[]")),
    Step::Len(3),
    Step::PendingAll(1),
    Step::CountsAll(0, 1, 0),
    Step::Settle(4),
    Step::FindSettled(b"a", b"msg_1", None),
    Step::Settled(1, None),
    Step::Body(1, None),
    Step::Body(4, Some(b"[]")),
    Step::Len(2),
    Step::CountsAll(0, 0, 0),
    Step::Settle(5),
    Step::FindSettled(b"a", b"msg_1", Some(4)),
    Step::Find(b"a", b"msg_1", Some(7)),
    Step::Stands(4, 0, State::Pending),
    Step::CountsAll(1, 0, 0),
    Step::Settle(6),
    Step::Stands(4, 1, State::Delivered),
    Step::CountsAll(0, 1, 0),
    Step::Settle(7),
    Step::FindSettled(b"a", b"msg_1", None),
    Step::Settled(4, None),
    Step::Body(4, None),
    Step::CountsAll(0, 0, 0),
    Step::Settle(8),
    Step::FindSettled(b"a", b"msg_1", Some(7)),
    Step::CountsAll(1, 0, 0),
    Step::Len(1),
];

#[test]
fn an_id_is_taken_twice(rt: HostRuntime) {
    walk(&rt, rt.alloc(), &AN_ID_IS_TAKEN_TWICE);
}

// Records 0 to 2 put the endpoints. The event at `b` is pending, at `a` it ended at 1001 and at `c` at 1003. `a` has
// another that ended at 1003.
static EACH_EVENT_BY_ITS_OWN: [Step; 47] = [
    Step::AcceptAtThree(3, b"msg_1", b"{}", 1000),
    Step::Accept(6, b"a", b"msg_2", b"[]", 1000),
    Step::Settle(7),
    Step::Outcome(7, 4, 200, 1001),
    Step::Outcome(8, 5, 204, 1003),
    Step::Outcome(9, 6, 200, 1003),
    Step::Outcome(10, 3, 500, 1001),
    Step::Settle(11),
    Step::CountsAll(1, 3, 0),
    Step::Purge(11, 1002),
    Step::Find(b"b", b"msg_1", Some(3)),
    Step::Find(b"a", b"msg_1", None),
    Step::Find(b"c", b"msg_1", Some(5)),
    Step::Find(b"a", b"msg_2", Some(6)),
    Step::FindSettled(b"a", b"msg_1", Some(4)),
    Step::FindSettled(b"b", b"msg_1", Some(3)),
    Step::FindSettled(b"c", b"msg_2", None),
    Step::Purge(12, 1000),
    Step::Purge(13, LAST),
    Step::Find(b"b", b"msg_1", Some(3)),
    Step::Find(b"c", b"msg_1", None),
    Step::Find(b"a", b"msg_2", None),
    Step::Pending(b"b", 1),
    Step::PendingAll(1),
    Step::CountsAll(1, 3, 0),
    Step::Len(4),
    Step::Settle(12),
    Step::FindSettled(b"a", b"msg_1", None),
    Step::FindSettled(b"a", b"msg_2", Some(6)),
    Step::FindSettled(b"c", b"msg_1", Some(5)),
    Step::Counts(b"a", 0, 1, 0),
    Step::CountsAll(1, 2, 0),
    Step::Len(3),
    Step::Settle(13),
    Step::FindSettled(b"a", b"msg_2", Some(6)),
    Step::Len(3),
    Step::Settle(14),
    Step::FindSettled(b"a", b"msg_2", None),
    Step::FindSettled(b"c", b"msg_1", None),
    Step::FindSettled(b"b", b"msg_1", Some(3)),
    Step::Counts(b"a", 0, 0, 0),
    Step::Counts(b"b", 1, 0, 0),
    Step::CountsAll(1, 0, 0),
    Step::Len(1),
    Step::At(0, Some(3)),
    Step::Purge(14, LAST),
    Step::Find(b"b", b"msg_1", Some(3)),
];

#[test]
fn each_event_is_taken_by_its_own_outcomes(rt: HostRuntime) {
    walk(&rt, rt.alloc(), &EACH_EVENT_BY_ITS_OWN);
}

static NOTHING_IS_TAKEN: [Step; 8] = [
    Step::Purge(0, LAST),
    Step::Next(1),
    Step::Settle(1),
    Step::Len(0),
    Step::CountsAll(0, 0, 0),
    Step::Purge(1, 0),
    Step::Settle(2),
    Step::Next(2),
];

#[test]
fn nothing_is_taken_from_an_empty_book(rt: HostRuntime) {
    walk(&rt, rt.alloc(), &NOTHING_IS_TAKEN);
}
