//! Purges, at the desk: what they take at once, and what is shown until they are settled.

use crate::events::{HOOK, NEW};
use crate::steps::Went::Answered;
use crate::steps::{Answer, Event, Given, Page, Published, Step};
use crate::walk::{Start, take, take_and_reopen};
use desk::{Fault, Told, Totals};
use relay_types::State;
use retry_table::Spend;
use std::test::Fail;

const CONFLICT: Answer = Answer::Refused(3, Fault::Conflict);

/// The greatest moment.
const LAST: u64 = 1_099_511_627_776;

/// The event of 1000, delivered by the first attempt.
const DELIVERED: Event = Event {
    state: State::Delivered,
    due: None,
    attempts: 1,
    last_status: Some(200),
};

/// The event of 1002, to which nothing was posted yet.
const AGAIN: Event = Event {
    due: Some(1002),
    ..NEW
};

const PENDING: Page = Page {
    max: 100,
    enabled: true,
    secrets: 1,
    pending: 1,
    delivered: 0,
    exhausted: 0,
};

const ONE_DELIVERED: Page = Page {
    pending: 0,
    delivered: 1,
    ..PENDING
};

const NO_EVENT: Page = Page {
    pending: 0,
    ..PENDING
};

const PUT: Step = Step::Put(b"a", HOOK, Answer::Record(0));

const SUBMIT: Step = Step::Submit(1000, b"a", b"msg_1", b"{}", Answer::Record(1));

const CLAIM: Step = Step::Claim(1000, Given::Job(1, 1, 1000, 1));

const DELIVER: Step = Step::Spend(0, Answered(200), 1000, Spend::Success, Some(2), 20, 0);

/// What is delivered at 1000 stays before 1000, and goes before 1001.
static THE_ID_IS_FREE_AT_ONCE: [Step; 33] = [
    PUT,
    SUBMIT,
    Step::Turn(2),
    CLAIM,
    Step::Look(1000, Given::Nothing),
    DELIVER,
    Step::EventPage(b"a", b"msg_1", Some(NEW)),
    Step::Turn(3),
    Step::EventPage(b"a", b"msg_1", Some(DELIVERED)),
    Step::Purge(1000, Answer::Record(3)),
    Step::Submit(1000, b"a", b"msg_1", b"{|", CONFLICT),
    Step::Submit(1000, b"a", b"msg_1", b"{}", Answer::Record(1)),
    Step::Turn(4),
    Step::EventPage(b"a", b"msg_1", Some(DELIVERED)),
    Step::Purge(1001, Answer::Record(4)),
    Step::ToldCommand(4, Told::Waiting),
    Step::Submit(1002, b"a", b"msg_1", b"{|", Answer::Record(5)),
    Step::Submit(1002, b"a", b"msg_1", b"{}", CONFLICT),
    Step::EventPage(b"a", b"msg_1", Some(DELIVERED)),
    Step::EndpointPage(b"a", Some(ONE_DELIVERED)),
    Step::Told(1, b"a", b"msg_1", Told::Settled),
    Step::SettledBody(1, b"a", b"msg_1", Some(b"{}")),
    Step::Told(5, b"a", b"msg_1", Told::Waiting),
    Step::SettledBody(5, b"a", b"msg_1", None),
    Step::Turn(6),
    Step::EventPage(b"a", b"msg_1", Some(AGAIN)),
    Step::Told(1, b"a", b"msg_1", Told::Unknown),
    Step::SettledBody(1, b"a", b"msg_1", None),
    Step::Told(5, b"a", b"msg_1", Told::Settled),
    Step::SettledBody(5, b"a", b"msg_1", Some(b"{|")),
    Step::ToldCommand(4, Told::Settled),
    Step::EndpointPage(b"a", Some(PENDING)),
    Step::Records(6, 6),
];

static AND_AFTER_AN_OPENING: [Step; 6] = [
    Step::EndpointPage(b"a", Some(PENDING)),
    Step::EventPage(b"a", b"msg_1", Some(AGAIN)),
    Step::Told(1, b"a", b"msg_1", Told::Unknown),
    Step::Told(5, b"a", b"msg_1", Told::Settled),
    Step::Submit(1002, b"a", b"msg_1", b"{}", CONFLICT),
    Step::Claim(1002, Given::Job(5, 1, 1002, 1)),
];

#[test]
fn the_id_is_free_at_once(rt: HostRuntime) -> Result<(), Fail> {
    take_and_reopen(
        &rt,
        rt.alloc(),
        &THE_ID_IS_FREE_AT_ONCE,
        &AND_AFTER_AN_OPENING,
    )
}

/// The outcome waits when the Purge comes: the pages show a pending event, and nothing claims it.
static A_WAITING_OUTCOME_COUNTS: [Step; 17] = [
    PUT,
    SUBMIT,
    Step::Turn(2),
    CLAIM,
    DELIVER,
    Step::Purge(1001, Answer::Record(3)),
    Step::EventPage(b"a", b"msg_1", Some(NEW)),
    Step::Look(1000, Given::Nothing),
    Step::Told(1, b"a", b"msg_1", Told::Settled),
    Step::Submit(1000, b"a", b"msg_1", b"\x00", Answer::Record(4)),
    Step::Look(1000, Given::Nothing),
    Step::EndpointPage(b"a", Some(PENDING)),
    Step::Turn(5),
    Step::EventPage(b"a", b"msg_1", Some(NEW)),
    Step::Told(1, b"a", b"msg_1", Told::Unknown),
    Step::Told(4, b"a", b"msg_1", Told::Settled),
    Step::Look(1000, Given::Job(4, 1, 1000, 1)),
];

#[test]
fn a_waiting_outcome_counts(rt: HostRuntime) -> Result<(), Fail> {
    take(&rt, rt.alloc(), Start::Empty, &A_WAITING_OUTCOME_COUNTS)
}

/// The post is under way when the Purge comes.
static A_POST_UNDER_WAY_KEEPS_ITS_EVENT: [Step; 9] = [
    PUT,
    SUBMIT,
    Step::Turn(2),
    CLAIM,
    Step::Purge(1001, Answer::Record(2)),
    Step::Spend(0, Answered(200), 1000, Spend::Success, Some(3), 20, 0),
    Step::Turn(4),
    Step::EventPage(b"a", b"msg_1", Some(DELIVERED)),
    Step::Submit(1000, b"a", b"msg_1", b"\x00", CONFLICT),
];

#[test]
fn a_post_under_way_keeps_its_event(rt: HostRuntime) -> Result<(), Fail> {
    take(
        &rt,
        rt.alloc(),
        Start::Empty,
        &A_POST_UNDER_WAY_KEEPS_ITS_EVENT,
    )
}

/// The event that failed once, at 1000.
const FAILED: Event = Event {
    state: State::Pending,
    due: Some(1005),
    attempts: 1,
    last_status: Some(500),
};

/// One of three events failed, one is delivered, and one was never posted.
static WHAT_IS_PENDING_IS_KEPT: [Step; 22] = [
    PUT,
    SUBMIT,
    Step::Submit(1000, b"a", b"msg_2", b"", Answer::Record(2)),
    Step::Submit(1000, b"a", b"msg_3", b"", Answer::Record(3)),
    Step::Turn(4),
    CLAIM,
    Step::Claim(1000, Given::Job(2, 1, 1000, 2)),
    Step::Spend(0, Answered(500), 1000, Spend::Success, Some(4), 20, 1),
    Step::Purge(LAST, Answer::Record(5)),
    Step::Turn(6),
    Step::EventPage(b"a", b"msg_1", Some(FAILED)),
    Step::EventPage(b"a", b"msg_2", Some(NEW)),
    Step::EventPage(b"a", b"msg_3", Some(NEW)),
    Step::Spend(0, Answered(200), 1000, Spend::Success, Some(6), 20, 0),
    Step::Purge(1001, Answer::Record(7)),
    Step::Turn(8),
    Step::EventPage(b"a", b"msg_2", None),
    Step::EventPage(b"a", b"msg_3", Some(NEW)),
    Step::EndpointPage(
        b"a",
        Some(Page {
            pending: 2,
            ..PENDING
        }),
    ),
    Step::Totals(Totals {
        delivered: 0,
        endpoints: 1,
        exhausted: 0,
        pending: 2,
        records: 8,
    }),
    Step::Look(1000, Given::Job(3, 1, 1000, 1)),
    Step::Look(1005, Given::Job(3, 1, 1005, 1)),
];

#[test]
fn what_is_pending_is_kept(rt: HostRuntime) -> Result<(), Fail> {
    take(&rt, rt.alloc(), Start::Empty, &WHAT_IS_PENDING_IS_KEPT)
}

/// Three events under one id, one after the other.
static AN_ID_IS_TAKEN_TWICE: [Step; 16] = [
    PUT,
    SUBMIT,
    Step::Turn(2),
    CLAIM,
    DELIVER,
    Step::Turn(3),
    Step::Purge(1001, Answer::Record(3)),
    Step::Submit(1001, b"a", b"msg_1", b"\x00", Answer::Record(4)),
    Step::Turn(5),
    Step::Claim(1001, Given::Job(4, 1, 1001, 1)),
    Step::Spend(0, Answered(200), 1001, Spend::Success, Some(5), 20, 0),
    Step::Purge(1002, Answer::Record(6)),
    Step::Submit(1002, b"a", b"msg_1", b"{}", Answer::Record(7)),
    Step::Turn(8),
    Step::Told(4, b"a", b"msg_1", Told::Unknown),
    Step::EventPage(b"a", b"msg_1", Some(AGAIN)),
];

static THE_LAST_OF_THEM_IS_KNOWN: [Step; 3] = [
    Step::Told(7, b"a", b"msg_1", Told::Settled),
    Step::Submit(1002, b"a", b"msg_1", b"\x00", CONFLICT),
    Step::Submit(1002, b"a", b"msg_1", b"{}", Answer::Record(7)),
];

#[test]
fn an_id_is_taken_twice(rt: HostRuntime) -> Result<(), Fail> {
    take_and_reopen(
        &rt,
        rt.alloc(),
        &AN_ID_IS_TAKEN_TWICE,
        &THE_LAST_OF_THEM_IS_KNOWN,
    )
}

/// A batch of 256 ends with the Purge. Till the next is settled no event has the id.
static A_CUT_AFTER_THE_PURGE: [Step; 17] = [
    PUT,
    SUBMIT,
    Step::Turn(2),
    CLAIM,
    DELIVER,
    Step::Turn(3),
    Step::Subscribes(0, 255, 3),
    Step::Purge(1001, Answer::Record(258)),
    Step::Submit(1001, b"a", b"msg_1", b"{|", Answer::Record(259)),
    Step::Turn(259),
    Step::EventPage(b"a", b"msg_1", None),
    Step::EndpointPage(b"a", Some(NO_EVENT)),
    Step::Told(1, b"a", b"msg_1", Told::Unknown),
    Step::Told(259, b"a", b"msg_1", Told::Waiting),
    Step::Submit(1001, b"a", b"msg_1", b"{|", Answer::Record(259)),
    Step::Turn(260),
    Step::EndpointPage(b"a", Some(PENDING)),
];

#[test]
fn a_batch_may_end_with_the_purge(rt: HostRuntime) -> Result<(), Fail> {
    take(&rt, rt.alloc(), Start::Empty, &A_CUT_AFTER_THE_PURGE)
}

/// The event is delivered at `a` and pending at `b`.
static A_PUBLISH_AFTER_A_PURGE: [Step; 22] = [
    PUT,
    Step::Put(b"b", HOOK, Answer::Record(1)),
    Step::Subscribe(b"t", b"a", true, Answer::Record(2)),
    Step::Subscribe(b"t", b"b", true, Answer::Record(3)),
    Step::Publish(
        1000,
        b"t",
        b"m",
        b"{}",
        Published::Tickets(&[(b"a", 4), (b"b", 5)]),
    ),
    Step::Turn(6),
    Step::Claim(1000, Given::Job(4, 1, 1000, 1)),
    Step::Spend(0, Answered(200), 1000, Spend::Success, Some(6), 20, 0),
    Step::Publish(
        1001,
        b"t",
        b"m",
        b"\x00",
        Published::Refused(3, Fault::Conflict),
    ),
    Step::Purge(1001, Answer::Record(7)),
    Step::Publish(
        1001,
        b"t",
        b"m",
        b"\x00",
        Published::Refused(3, Fault::Conflict),
    ),
    Step::Publish(
        1001,
        b"t",
        b"m",
        b"{}",
        Published::Tickets(&[(b"a", 8), (b"b", 5)]),
    ),
    Step::Submit(1001, b"a", b"m", b"\x00", CONFLICT),
    Step::Told(4, b"a", b"m", Told::Settled),
    Step::Turn(9),
    Step::Told(4, b"a", b"m", Told::Unknown),
    Step::Told(5, b"b", b"m", Told::Settled),
    Step::Told(8, b"a", b"m", Told::Settled),
    Step::EventPage(b"a", b"m", Some(LATER)),
    Step::EventPage(b"b", b"m", Some(NEW)),
    Step::Look(1001, Given::Job(5, 1, 1001, 1)),
    Step::Records(9, 9),
];

/// The event of 1001, to which nothing was posted yet.
const LATER: Event = Event {
    due: Some(1001),
    ..NEW
};

#[test]
fn a_publish_after_a_purge(rt: HostRuntime) -> Result<(), Fail> {
    take(&rt, rt.alloc(), Start::Empty, &A_PUBLISH_AFTER_A_PURGE)
}

/// The clock doesn't go back while a desk is open. What opens it again begins at the greatest moment that is left.
static THE_CLOCK_STAYS: [Step; 10] = [
    PUT,
    SUBMIT,
    Step::Turn(2),
    CLAIM,
    DELIVER,
    Step::Purge(1001, Answer::Record(3)),
    Step::Turn(4),
    Step::Submit(5, b"a", b"x", b"", Answer::Record(4)),
    Step::Look(4, Given::Nothing),
    Step::EventPage(b"a", b"x", None),
];

static THE_CLOCK_GOES_BACK: [Step; 4] = [
    Step::Submit(5, b"a", b"y", b"", Answer::Record(4)),
    Step::Turn(5),
    Step::EventPage(b"a", b"y", Some(EARLY)),
    Step::Claim(4, Given::Job(4, 1, 5, 1)),
];

/// The event of 5, to which nothing was posted yet.
const EARLY: Event = Event {
    due: Some(5),
    ..NEW
};

#[test]
fn the_clock_is_that_of_what_is_left(rt: HostRuntime) -> Result<(), Fail> {
    take_and_reopen(&rt, rt.alloc(), &THE_CLOCK_STAYS, &THE_CLOCK_GOES_BACK)
}

/// Within the opening the event of 5 is one of 1000.
static THE_CLOCK_OF_AN_OPENING: [Step; 10] = [
    PUT,
    SUBMIT,
    Step::Turn(2),
    CLAIM,
    DELIVER,
    Step::Purge(1001, Answer::Record(3)),
    Step::Turn(4),
    Step::Submit(5, b"a", b"x", b"", Answer::Record(4)),
    Step::Turn(5),
    Step::EventPage(b"a", b"x", Some(NEW)),
];

static IT_IS_LEFT: [Step; 3] = [
    Step::Submit(5, b"a", b"y", b"", Answer::Record(5)),
    Step::Turn(6),
    Step::EventPage(b"a", b"y", Some(NEW)),
];

#[test]
fn the_clock_does_not_go_back(rt: HostRuntime) -> Result<(), Fail> {
    take_and_reopen(&rt, rt.alloc(), &THE_CLOCK_OF_AN_OPENING, &IT_IS_LEFT)
}

/// A Purge needs no endpoint. It takes a place among the requests.
static PURGES_ARE_REFUSED: [Step; 9] = [
    Step::Purge(0, Answer::Record(0)),
    Step::Purge(LAST, Answer::Record(1)),
    Step::ToldCommand(0, Told::Waiting),
    Step::Turn(2),
    Step::ToldCommand(1, Told::Settled),
    Step::Purges(768, 2),
    Step::Purge(5, Answer::Refused(5, Fault::WaitingFull)),
    Step::HaltByNothing(true),
    Step::Purge(5, Answer::Refused(1, Fault::Halted)),
];

#[test]
fn purges_are_refused(rt: HostRuntime) -> Result<(), Fail> {
    take(&rt, rt.alloc(), Start::Empty, &PURGES_ARE_REFUSED)
}

/// At the desk of as many records as there may be.
static NO_NUMBER_IS_LEFT: [Step; 4] = [
    Step::Purge(LAST, Answer::Refused(6, Fault::SeqExhausted)),
    Step::Submit(1000, b"a", b"msg_1", b"{}", Answer::Record(1)),
    Step::HaltByNothing(true),
    Step::Purge(LAST, Answer::Refused(1, Fault::Halted)),
];

#[test]
fn no_number_is_left(rt: HostRuntime) -> Result<(), Fail> {
    take(&rt, rt.alloc(), Start::Spent, &NO_NUMBER_IS_LEFT)
}
