//! What a desk hands out to be posted, and what it makes of how it went.

use crate::events::HOOK;
use crate::steps::Went::Answered;
use crate::steps::{Answer, Endpoint, Event, Given, Post, Step, Went};
use crate::walk::{Start, take};
use desk::{Fault, Limits};
use relay_types::State;
use retry_table::Spend;
use std::test::Fail;

const PUT: Step = Step::Put(b"a", HOOK, Answer::Record(0));

const SUBMIT: Step = Step::Submit(1000, b"a", b"msg_1", b"{}", Answer::Record(1));

/// The secrets that replace the one of the endpoint.
const SECRETS: &[&[u8]] = &[
    b"whsec_ODlhYmNkZWYwMTIzNDU2Nzg5YWJjZGVm",
    b"whsec_MDEyMzQ1Njc4OTAxMjM0NTY3ODkwMTIz",
];

/// The event with those secrets.
const POST: Post = Post {
    endpoint: b"a",
    id: b"msg_1",
    target: b"http://127.0.0.1:9000/hook",
    secrets: SECRETS,
    body: b"{}",
};

static A_JOB_SHOWS_WHAT_IS_POSTED: [Step; 9] = [
    PUT,
    SUBMIT,
    Step::Turn(2),
    Step::SetSecrets(b"a", SECRETS, Answer::Record(2)),
    Step::Claim(1000, Given::Job(1, 1, 1000, 1)),
    Step::Shows(0, POST),
    Step::Look(1000, Given::Nothing),
    Step::Spend(0, Went::Unsent, 1000, Spend::Ignored, None, 20, 0),
    Step::Look(1000, Given::Job(1, 1, 1000, 1)),
];

#[test]
fn a_job_shows_what_is_posted(rt: HostRuntime) -> Result<(), Fail> {
    take(&rt, rt.alloc(), Start::Empty, &A_JOB_SHOWS_WHAT_IS_POSTED)
}

/// The event that failed once, at 1001.
const FAILED: Event = Event {
    state: State::Pending,
    due: Some(1006),
    attempts: 1,
    last_status: Some(500),
};

const DELIVERED: Event = Event {
    state: State::Delivered,
    due: None,
    attempts: 2,
    last_status: Some(200),
};

static A_FAILURE_IS_DUE_FIVE_SECONDS_LATER: [Step; 15] = [
    PUT,
    SUBMIT,
    Step::Turn(2),
    Step::Claim(1001, Given::Job(1, 1, 1001, 1)),
    Step::Spend(0, Answered(500), 1001, Spend::Success, Some(2), 20, 0),
    Step::Look(1006, Given::Nothing),
    Step::Turn(3),
    Step::EventPage(b"a", b"msg_1", Some(FAILED)),
    Step::Look(1006, Given::Job(1, 2, 1006, 1)),
    Step::Claim(900, Given::Job(1, 2, 1006, 1)),
    Step::Spend(0, Answered(200), 900, Spend::Success, Some(3), 20, 0),
    Step::EventPage(b"a", b"msg_1", Some(FAILED)),
    Step::Turn(4),
    Step::EventPage(b"a", b"msg_1", Some(DELIVERED)),
    Step::Look(1_000_000, Given::Nothing),
];

#[test]
fn a_failure_is_due_five_seconds_later(rt: HostRuntime) -> Result<(), Fail> {
    take(
        &rt,
        rt.alloc(),
        Start::Empty,
        &A_FAILURE_IS_DUE_FIVE_SECONDS_LATER,
    )
}

const EXHAUSTED: Event = Event {
    state: State::Exhausted,
    due: None,
    attempts: 10,
    last_status: Some(500),
};

const EXHAUSTED_BY_THE_ELEVENTH: Event = Event {
    attempts: 11,
    ..EXHAUSTED
};

static TEN_FAILURES_EXHAUST_AN_EVENT: [Step; 82] = [
    PUT,
    SUBMIT,
    Step::Turn(2),
    Step::Claim(1000, Given::Job(1, 1, 1000, 1)),
    Step::Spend(0, Answered(500), 1000, Spend::Success, Some(2), 20, 0),
    Step::Turn(3),
    Step::Look(1004, Given::Nothing),
    Step::Claim(1005, Given::Job(1, 2, 1005, 1)),
    Step::Spend(0, Answered(500), 1005, Spend::Success, Some(3), 20, 0),
    Step::Turn(4),
    Step::Look(1304, Given::Nothing),
    Step::Claim(1305, Given::Job(1, 3, 1305, 1)),
    Step::Spend(0, Answered(500), 1305, Spend::Success, Some(4), 20, 0),
    Step::Turn(5),
    Step::Look(3104, Given::Nothing),
    Step::Claim(3105, Given::Job(1, 4, 3105, 1)),
    Step::Spend(0, Answered(500), 3105, Spend::Success, Some(5), 20, 0),
    Step::Turn(6),
    Step::Look(10_304, Given::Nothing),
    Step::Claim(10_305, Given::Job(1, 5, 10_305, 1)),
    Step::Spend(0, Answered(500), 10_305, Spend::Success, Some(6), 20, 0),
    Step::Turn(7),
    Step::Look(28_304, Given::Nothing),
    Step::Claim(28_305, Given::Job(1, 6, 28_305, 1)),
    Step::Spend(0, Answered(500), 28_305, Spend::Success, Some(7), 20, 0),
    Step::Turn(8),
    Step::Look(64_304, Given::Nothing),
    Step::Claim(64_305, Given::Job(1, 7, 64_305, 1)),
    Step::Spend(0, Answered(500), 64_305, Spend::Success, Some(8), 20, 0),
    Step::Turn(9),
    Step::Look(114_704, Given::Nothing),
    Step::Claim(114_705, Given::Job(1, 8, 114_705, 1)),
    Step::Spend(0, Answered(500), 114_705, Spend::Success, Some(9), 20, 0),
    Step::Turn(10),
    Step::Look(186_704, Given::Nothing),
    Step::Claim(186_705, Given::Job(1, 9, 186_705, 1)),
    Step::Spend(0, Answered(500), 186_705, Spend::Success, Some(10), 20, 0),
    Step::Turn(11),
    Step::Look(273_104, Given::Nothing),
    Step::Claim(273_105, Given::Job(1, 10, 273_105, 1)),
    Step::Exhaust(0, Answered(500), 273_105, 11, 20),
    Step::Turn(12),
    Step::EventPage(b"a", b"msg_1", Some(EXHAUSTED)),
    Step::Look(1_000_000, Given::Nothing),
    // An attempt that was answered 410 is none of the ten failures.
    Step::Submit(1_000_000, b"a", b"msg_2", b"{}", Answer::Record(12)),
    Step::Turn(13),
    Step::Claim(1_000_000, Given::Job(12, 1, 1_000_000, 1)),
    Step::Spend(0, Answered(410), 1_000_000, Spend::Success, Some(13), 20, 0),
    Step::Enable(b"a", true, Answer::Record(14)),
    Step::Turn(15),
    Step::Claim(1_000_000, Given::Job(12, 2, 1_000_000, 1)),
    Step::Spend(0, Answered(500), 1_000_000, Spend::Success, Some(15), 20, 0),
    Step::Turn(16),
    Step::Claim(1_000_005, Given::Job(12, 3, 1_000_005, 1)),
    Step::Spend(0, Answered(500), 1_000_005, Spend::Success, Some(16), 20, 0),
    Step::Turn(17),
    Step::Claim(1_000_305, Given::Job(12, 4, 1_000_305, 1)),
    Step::Spend(0, Answered(500), 1_000_305, Spend::Success, Some(17), 20, 0),
    Step::Turn(18),
    Step::Claim(1_002_105, Given::Job(12, 5, 1_002_105, 1)),
    Step::Spend(0, Answered(500), 1_002_105, Spend::Success, Some(18), 20, 0),
    Step::Turn(19),
    Step::Claim(1_009_305, Given::Job(12, 6, 1_009_305, 1)),
    Step::Spend(0, Answered(500), 1_009_305, Spend::Success, Some(19), 20, 0),
    Step::Turn(20),
    Step::Claim(1_027_305, Given::Job(12, 7, 1_027_305, 1)),
    Step::Spend(0, Answered(500), 1_027_305, Spend::Success, Some(20), 20, 0),
    Step::Turn(21),
    Step::Claim(1_063_305, Given::Job(12, 8, 1_063_305, 1)),
    Step::Spend(0, Answered(500), 1_063_305, Spend::Success, Some(21), 20, 0),
    Step::Turn(22),
    Step::Claim(1_113_705, Given::Job(12, 9, 1_113_705, 1)),
    Step::Spend(0, Answered(500), 1_113_705, Spend::Success, Some(22), 20, 0),
    Step::Turn(23),
    Step::Claim(1_185_705, Given::Job(12, 10, 1_185_705, 1)),
    Step::Spend(0, Answered(500), 1_185_705, Spend::Success, Some(23), 20, 0),
    Step::Turn(24),
    Step::Claim(1_272_105, Given::Job(12, 11, 1_272_105, 1)),
    Step::Exhaust(0, Answered(500), 1_272_105, 24, 20),
    Step::Turn(25),
    Step::EventPage(b"a", b"msg_2", Some(EXHAUSTED_BY_THE_ELEVENTH)),
    Step::Look(2_000_000, Given::Nothing),
];

#[test]
fn ten_failures_exhaust_an_event(rt: HostRuntime) -> Result<(), Fail> {
    take(
        &rt,
        rt.alloc(),
        Start::Empty,
        &TEN_FAILURES_EXHAUST_AN_EVENT,
    )
}

static NOTHING_IS_POSTED_TO_AN_ENDPOINT_THAT_IS_GONE: [Step; 15] = [
    PUT,
    SUBMIT,
    Step::Submit(1000, b"a", b"msg_2", b"{}", Answer::Record(2)),
    Step::Submit(1000, b"a", b"msg_3", b"{}", Answer::Record(3)),
    Step::Turn(4),
    Step::Claim(1000, Given::Job(1, 1, 1000, 1)),
    Step::Claim(1000, Given::Job(2, 1, 1000, 2)),
    Step::Spend(0, Answered(410), 1000, Spend::Success, Some(4), 20, 1),
    Step::Look(1000, Given::Nothing),
    Step::Spend(0, Answered(200), 1000, Spend::Success, Some(5), 20, 0),
    Step::Look(1000, Given::Nothing),
    Step::Enable(b"a", true, Answer::Record(6)),
    Step::Look(1000, Given::Job(3, 1, 1000, 1)),
    Step::Turn(7),
    Step::Look(1000, Given::Job(1, 2, 1000, 1)),
];

#[test]
fn nothing_is_posted_to_an_endpoint_that_is_gone(rt: HostRuntime) -> Result<(), Fail> {
    take(
        &rt,
        rt.alloc(),
        Start::Empty,
        &NOTHING_IS_POSTED_TO_AN_ENDPOINT_THAT_IS_GONE,
    )
}

/// The limits of the endpoint before its first sample.
const UNKNOWN: Limits = Limits {
    limit: 20,
    in_flight: 0,
    noload: 0,
};

/// The endpoint with a maximum of one.
const OF_ONE: Endpoint = Endpoint { max: 1, ..HOOK };

static NO_MORE_ARE_UNDER_WAY_THAN_THE_LIMIT: [Step; 10] = [
    Step::Put(b"a", OF_ONE, Answer::Record(0)),
    SUBMIT,
    Step::Submit(1000, b"a", b"msg_2", b"{}", Answer::Record(2)),
    Step::Turn(3),
    Step::Limits(
        b"a",
        Some(Limits {
            limit: 1,
            ..UNKNOWN
        }),
    ),
    Step::Claim(1000, Given::Job(1, 1, 1000, 1)),
    Step::Limits(
        b"a",
        Some(Limits {
            limit: 1,
            in_flight: 1,
            ..UNKNOWN
        }),
    ),
    Step::Look(1000, Given::Nothing),
    Step::Spend(0, Went::Unreached, 1000, Spend::Ignored, Some(3), 1, 0),
    Step::Look(1000, Given::Job(2, 1, 1000, 1)),
];

#[test]
fn no_more_are_under_way_than_the_limit(rt: HostRuntime) -> Result<(), Fail> {
    take(
        &rt,
        rt.alloc(),
        Start::Empty,
        &NO_MORE_ARE_UNDER_WAY_THAN_THE_LIMIT,
    )
}

/// Thirteen endpoints, each with twenty events of 1000, which are settled.
static AT_MOST_256_ARE_UNDER_WAY: [Step; 32] = [
    Step::Put(b"a", HOOK, Answer::Record(0)),
    Step::Submits(b"a", 1),
    Step::Put(b"b", HOOK, Answer::Record(21)),
    Step::Submits(b"b", 22),
    Step::Put(b"c", HOOK, Answer::Record(42)),
    Step::Submits(b"c", 43),
    Step::Put(b"d", HOOK, Answer::Record(63)),
    Step::Submits(b"d", 64),
    Step::Put(b"e", HOOK, Answer::Record(84)),
    Step::Submits(b"e", 85),
    Step::Put(b"f", HOOK, Answer::Record(105)),
    Step::Submits(b"f", 106),
    Step::Put(b"g", HOOK, Answer::Record(126)),
    Step::Submits(b"g", 127),
    Step::Put(b"h", HOOK, Answer::Record(147)),
    Step::Submits(b"h", 148),
    Step::Put(b"i", HOOK, Answer::Record(168)),
    Step::Submits(b"i", 169),
    Step::Put(b"j", HOOK, Answer::Record(189)),
    Step::Submits(b"j", 190),
    Step::Put(b"k", HOOK, Answer::Record(210)),
    Step::Submits(b"k", 211),
    Step::Put(b"l", HOOK, Answer::Record(231)),
    Step::Submits(b"l", 232),
    Step::Put(b"m", HOOK, Answer::Record(252)),
    Step::Submits(b"m", 253),
    Step::Turn(256),
    Step::Turn(273),
    Step::Claims(1000, 256),
    Step::Look(1000, Given::Nothing),
    Step::SpendAll(1000),
    Step::Look(1000, Given::Job(1, 1, 1000, 1)),
];

#[test]
fn at_most_256_are_under_way(rt: HostRuntime) -> Result<(), Fail> {
    take(&rt, rt.alloc(), Start::Empty, &AT_MOST_256_ARE_UNDER_WAY)
}

static A_SPEND_AFTER_A_HALT_STAGES_NOTHING: [Step; 9] = [
    PUT,
    SUBMIT,
    Step::Turn(2),
    Step::Claim(1000, Given::Job(1, 1, 1000, 1)),
    Step::HaltByNothing(true),
    Step::Claim(1000, Given::Refused(1, Fault::Halted)),
    Step::Spend(0, Answered(200), 1000, Spend::Success, None, 20, 0),
    Step::Records(2, 2),
    Step::Limits(b"a", Some(UNKNOWN)),
];

#[test]
fn a_spend_after_a_halt_stages_nothing(rt: HostRuntime) -> Result<(), Fail> {
    take(
        &rt,
        rt.alloc(),
        Start::Empty,
        &A_SPEND_AFTER_A_HALT_STAGES_NOTHING,
    )
}

/// At the desk of as many records as there may be.
static REFUSALS_COME_IN_THEIR_ORDER: [Step; 8] = [
    Step::Claim(999, Given::Nothing),
    Step::Claim(1000, Given::Refused(2, Fault::SeqExhausted)),
    Step::Submit(
        1000,
        b"a",
        b"msg_2",
        b"{}",
        Answer::Refused(7, Fault::SeqExhausted),
    ),
    Step::Enable(b"a", true, Answer::Refused(6, Fault::SeqExhausted)),
    Step::Subscribe(b"t", b"a", true, Answer::Refused(6, Fault::SeqExhausted)),
    Step::Subscribe(b"t", b"b", true, Answer::Refused(2, Fault::UnknownEndpoint)),
    Step::HaltByNothing(true),
    Step::Claim(1000, Given::Refused(1, Fault::Halted)),
];

#[test]
fn refusals_come_in_their_order(rt: HostRuntime) -> Result<(), Fail> {
    take(&rt, rt.alloc(), Start::Spent, &REFUSALS_COME_IN_THEIR_ORDER)
}
