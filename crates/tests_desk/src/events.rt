//! What a desk tells before and after a settling.

use crate::steps::{Answer, Endpoint, Event, Page, Step};
use crate::walk::{Start, take, take_and_reopen};
use desk::{Fault, Told, Totals};
use relay_types::State;
use std::test::Fail;

/// The endpoint of the tables.
pub(crate) const HOOK: Endpoint = Endpoint {
    target: b"http://127.0.0.1:9000/hook",
    max: 100,
    secrets: &[b"whsec_MDEyMzQ1Njc4OTAxMjM0NTY3ODkwMTIz"],
};

const EMPTY: Totals = Totals {
    delivered: 0,
    endpoints: 0,
    exhausted: 0,
    pending: 0,
    records: 0,
};

/// One endpoint with a pending event.
const BEGUN: Totals = Totals {
    endpoints: 1,
    pending: 1,
    records: 2,
    ..EMPTY
};

/// The event of 1000, to which nothing was posted yet.
pub(crate) const NEW: Event = Event {
    state: State::Pending,
    due: Some(1000),
    attempts: 0,
    last_status: None,
};

/// The endpoint with that event.
const PAGE: Page = Page {
    max: 100,
    enabled: true,
    secrets: 1,
    pending: 1,
    delivered: 0,
    exhausted: 0,
};

static WHAT_IS_KNOWN_ANSWERS_THE_FIRST_TICKET: [Step; 6] = [
    Step::Submit(
        1000,
        b"a",
        b"msg_1",
        b"{}",
        Answer::Refused(2, Fault::UnknownEndpoint),
    ),
    Step::Put(b"a", HOOK, Answer::Record(0)),
    Step::Submit(1000, b"a", b"msg_1", b"{}", Answer::Record(1)),
    Step::Submit(1000, b"a", b"msg_1", b"{}", Answer::Record(1)),
    Step::Submit(
        1000,
        b"a",
        b"msg_1",
        b"[]",
        Answer::Refused(3, Fault::Conflict),
    ),
    Step::Records(2, 0),
];

#[test]
fn what_is_known_answers_the_first_ticket(rt: HostRuntime) -> Result<(), Fail> {
    take(
        &rt,
        rt.alloc(),
        Start::Empty,
        &WHAT_IS_KNOWN_ANSWERS_THE_FIRST_TICKET,
    )
}

static A_HALTED_DESK_TAKES_NOTHING: [Step; 7] = [
    Step::Put(b"a", HOOK, Answer::Record(0)),
    Step::Seal(Some((0, 1, 1))),
    Step::HaltByNothing(false),
    Step::HaltByBatch(true),
    Step::IsHalted(true),
    Step::ToldCommand(0, Told::Unknown),
    Step::Submit(
        1000,
        b"a",
        b"msg_1",
        b"{}",
        Answer::Refused(1, Fault::Halted),
    ),
];

#[test]
fn a_halted_desk_takes_nothing(rt: HostRuntime) -> Result<(), Fail> {
    take(&rt, rt.alloc(), Start::Empty, &A_HALTED_DESK_TAKES_NOTHING)
}

static NOTHING_THAT_WAITS_IS_SHOWN: [Step; 8] = [
    Step::Put(b"a", HOOK, Answer::Record(0)),
    Step::Submit(1000, b"a", b"msg_1", b"{}", Answer::Record(1)),
    Step::Totals(EMPTY),
    Step::EndpointPage(b"a", None),
    Step::EventPage(b"a", b"msg_1", None),
    Step::Told(1, b"a", b"msg_1", Told::Waiting),
    Step::SettledBody(1, b"a", b"msg_1", None),
    Step::Records(2, 0),
];

#[test]
fn nothing_that_waits_is_shown(rt: HostRuntime) -> Result<(), Fail> {
    take(&rt, rt.alloc(), Start::Empty, &NOTHING_THAT_WAITS_IS_SHOWN)
}

static WHAT_IS_SETTLED_IS_SHOWN: [Step; 7] = [
    Step::Put(b"a", HOOK, Answer::Record(0)),
    Step::Submit(1000, b"a", b"msg_1", b"{}", Answer::Record(1)),
    Step::Turn(2),
    Step::Totals(BEGUN),
    Step::Told(1, b"a", b"msg_1", Told::Settled),
    Step::SettledBody(1, b"a", b"msg_1", Some(b"{}")),
    Step::Told(0, b"a", b"msg_1", Told::Unknown),
];

#[test]
fn what_is_settled_is_shown(rt: HostRuntime) -> Result<(), Fail> {
    take(&rt, rt.alloc(), Start::Empty, &WHAT_IS_SETTLED_IS_SHOWN)
}

static PAGES_HAVE_WHAT_IS_SETTLED: [Step; 5] = [
    Step::Put(b"a", HOOK, Answer::Record(0)),
    Step::Submit(1000, b"a", b"msg_1", b"{}", Answer::Record(1)),
    Step::Turn(2),
    Step::EventPage(b"a", b"msg_1", Some(NEW)),
    Step::EndpointPage(b"a", Some(PAGE)),
];

#[test]
fn pages_have_what_is_settled(rt: HostRuntime) -> Result<(), Fail> {
    take(&rt, rt.alloc(), Start::Empty, &PAGES_HAVE_WHAT_IS_SETTLED)
}

static FILLED: [Step; 3] = [
    Step::Put(b"a", HOOK, Answer::Record(0)),
    Step::Submit(1000, b"a", b"msg_1", b"{}", Answer::Record(1)),
    Step::Turn(2),
];

static OPENED_AGAIN: [Step; 2] = [
    Step::Totals(BEGUN),
    Step::EventPage(b"a", b"msg_1", Some(NEW)),
];

#[test]
fn a_desk_of_a_vault_knows_what_it_holds(rt: HostRuntime) -> Result<(), Fail> {
    take_and_reopen(&rt, rt.alloc(), &FILLED, &OPENED_AGAIN)
}
