//! Subscriptions to topics, at the desk.

use crate::events::{HOOK, NEW};
use crate::steps::{Answer, Event, Page, Published, Step};
use crate::walk::{Start, take, take_and_reopen};
use desk::{Fault, Told};
use std::test::Fail;

const UNKNOWN: Answer = Answer::Refused(2, Fault::UnknownEndpoint);

const PAIRS_SPENT: Answer = Answer::Refused(8, Fault::TooManySubscriptions);

const CONFLICT: Published = Published::Refused(3, Fault::Conflict);

const NO_SUBSCRIBER: Published = Published::Refused(2, Fault::UnknownTopic);

/// The event of 1001.
const LATER: Event = Event {
    due: Some(1001),
    ..NEW
};

/// The page of an endpoint tells of no topic.
const PAGE: Page = Page {
    max: 100,
    enabled: true,
    secrets: 1,
    pending: 0,
    delivered: 0,
    exhausted: 0,
};

static EACH_SUBSCRIPTION_IS_A_RECORD: [Step; 10] = [
    Step::Subscribe(b"t", b"a", true, UNKNOWN),
    Step::Put(b"a", HOOK, Answer::Record(0)),
    Step::Subscribe(b"t", b"a", true, Answer::Record(1)),
    Step::Subscribe(b"t", b"a", true, Answer::Record(2)),
    Step::Subscribe(b"t", b"a", false, Answer::Record(3)),
    Step::Subscribe(b"u", b"a", false, Answer::Record(4)),
    Step::ToldCommand(4, Told::Waiting),
    Step::Turn(5),
    Step::ToldCommand(4, Told::Settled),
    Step::EndpointPage(b"a", Some(PAGE)),
];

static IT_GOES_ON_AFTER_AN_OPENING: [Step; 4] = [
    Step::EndpointPage(b"a", Some(PAGE)),
    Step::Subscribe(b"t", b"b", true, UNKNOWN),
    Step::Subscribe(b"t", b"a", true, Answer::Record(5)),
    Step::Records(6, 5),
];

#[test]
fn each_subscription_is_a_record(rt: HostRuntime) -> Result<(), Fail> {
    take_and_reopen(
        &rt,
        rt.alloc(),
        &EACH_SUBSCRIPTION_IS_A_RECORD,
        &IT_GOES_ON_AFTER_AN_OPENING,
    )
}

/// A pair is counted where a record named it, whatever the flag, and a known one may still be set.
static AT_MOST_4096_PAIRS_ARE_NAMED: [Step; 46] = [
    Step::Put(b"a", HOOK, Answer::Record(0)),
    Step::Subscribes(0, 255, 1),
    Step::Turn(256),
    Step::Subscribes(255, 256, 256),
    Step::Turn(512),
    Step::Subscribes(511, 256, 512),
    Step::Turn(768),
    Step::Subscribes(767, 256, 768),
    Step::Turn(1024),
    Step::Subscribes(1023, 256, 1024),
    Step::Turn(1280),
    Step::Subscribes(1279, 256, 1280),
    Step::Turn(1536),
    Step::Subscribes(1535, 256, 1536),
    Step::Turn(1792),
    Step::Subscribes(1791, 256, 1792),
    Step::Turn(2048),
    Step::Subscribes(2047, 256, 2048),
    Step::Turn(2304),
    Step::Subscribes(2303, 256, 2304),
    Step::Turn(2560),
    Step::Subscribes(2559, 256, 2560),
    Step::Turn(2816),
    Step::Subscribes(2815, 256, 2816),
    Step::Turn(3072),
    Step::Subscribes(3071, 256, 3072),
    Step::Turn(3328),
    Step::Subscribes(3327, 256, 3328),
    Step::Turn(3584),
    Step::Subscribes(3583, 256, 3584),
    Step::Turn(3840),
    Step::Subscribes(3839, 256, 3840),
    Step::Turn(4096),
    Step::Subscribes(4095, 1, 4096),
    Step::Subscribe(b"more", b"a", true, PAIRS_SPENT),
    Step::Subscribe(b"more", b"a", false, PAIRS_SPENT),
    Step::Subscribe(b"more", b"b", true, UNKNOWN),
    Step::Subscribe(b"t7", b"a", false, Answer::Record(4097)),
    Step::Turn(4098),
    Step::Subscribes(0, 768, 4098),
    Step::Subscribe(b"t7", b"a", true, Answer::Refused(5, Fault::WaitingFull)),
    Step::Subscribe(b"more", b"a", true, PAIRS_SPENT),
    Step::Subscribe(b"more", b"b", true, UNKNOWN),
    Step::HaltByNothing(true),
    Step::Subscribe(b"more", b"b", true, Answer::Refused(1, Fault::Halted)),
    Step::Records(4866, 4098),
];

#[test]
fn at_most_4096_pairs_are_named(rt: HostRuntime) -> Result<(), Fail> {
    take(&rt, rt.alloc(), Start::Empty, &AT_MOST_4096_PAIRS_ARE_NAMED)
}

/// A subscriber that knows the id keeps its event. The tickets stand in the order of the Puts, whatever the names are
/// and whoever subscribed first. A repeated publish moves the clock, and a disabled endpoint is a subscriber.
static AN_EVENT_GOES_TO_EACH_SUBSCRIBER: [Step; 23] = [
    Step::Put(b"z", HOOK, Answer::Record(0)),
    Step::Put(b"a", HOOK, Answer::Record(1)),
    Step::Subscribe(b"t", b"a", true, Answer::Record(2)),
    Step::Subscribe(b"t", b"z", true, Answer::Record(3)),
    Step::Enable(b"a", false, Answer::Record(4)),
    Step::Submit(1000, b"a", b"msg_1", b"{}", Answer::Record(5)),
    Step::Publish(1000, b"t", b"msg_1", b"{|", CONFLICT),
    Step::Publish(
        1000,
        b"t",
        b"msg_1",
        b"{}",
        Published::Tickets(&[(b"z", 6), (b"a", 5)]),
    ),
    Step::Publish(
        1000,
        b"t",
        b"msg_2",
        b"{}",
        Published::Tickets(&[(b"z", 7), (b"a", 8)]),
    ),
    Step::Publish(1000, b"t", b"msg_1", b"{|", CONFLICT),
    Step::Publish(1000, b"u", b"msg_1", b"{}", NO_SUBSCRIBER),
    Step::Subscribe(b"t", b"z", false, Answer::Record(9)),
    Step::Publish(
        1001,
        b"t",
        b"msg_2",
        b"{}",
        Published::Tickets(&[(b"a", 8)]),
    ),
    Step::Publish(
        1000,
        b"t",
        b"msg_3",
        b"{}",
        Published::Tickets(&[(b"a", 10)]),
    ),
    Step::Told(7, b"z", b"msg_2", Told::Waiting),
    Step::Turn(11),
    Step::Told(7, b"z", b"msg_2", Told::Settled),
    Step::SettledBody(8, b"a", b"msg_2", Some(b"{}")),
    Step::EventPage(b"a", b"msg_2", Some(NEW)),
    Step::EventPage(b"a", b"msg_3", Some(LATER)),
    Step::Subscribe(b"t", b"a", false, Answer::Record(11)),
    Step::Publish(1001, b"t", b"msg_2", b"{}", NO_SUBSCRIBER),
    Step::Records(12, 11),
];

#[test]
fn an_event_goes_to_each_subscriber(rt: HostRuntime) -> Result<(), Fail> {
    take(
        &rt,
        rt.alloc(),
        Start::Empty,
        &AN_EVENT_GOES_TO_EACH_SUBSCRIBER,
    )
}

/// Each event takes a place.
static THE_LAST_PLACES_ARE_TAKEN: [Step; 7] = [
    Step::Put(b"a", HOOK, Answer::Record(0)),
    Step::Put(b"b", HOOK, Answer::Record(1)),
    Step::Subscribe(b"t", b"a", true, Answer::Record(2)),
    Step::Subscribe(b"t", b"b", true, Answer::Record(3)),
    Step::Subscribes(0, 762, 4),
    Step::Publish(
        1000,
        b"t",
        b"msg_1",
        b"{}",
        Published::Tickets(&[(b"a", 766), (b"b", 767)]),
    ),
    Step::Publish(
        1000,
        b"t",
        b"msg_2",
        b"{}",
        Published::Refused(6, Fault::WaitingFull),
    ),
];

#[test]
fn the_last_places_are_taken(rt: HostRuntime) -> Result<(), Fail> {
    take(&rt, rt.alloc(), Start::Empty, &THE_LAST_PLACES_ARE_TAKEN)
}

/// A publish that is refused takes no place.
static A_PUBLISH_THAT_IS_REFUSED_TAKES_NO_PLACE: [Step; 12] = [
    Step::Put(b"a", HOOK, Answer::Record(0)),
    Step::Put(b"b", HOOK, Answer::Record(1)),
    Step::Subscribe(b"t", b"a", true, Answer::Record(2)),
    Step::Subscribe(b"t", b"b", true, Answer::Record(3)),
    Step::Subscribes(0, 763, 4),
    Step::Publish(
        1000,
        b"t",
        b"msg_1",
        b"{}",
        Published::Refused(6, Fault::WaitingFull),
    ),
    Step::Submit(1000, b"a", b"msg_1", b"{}", Answer::Record(767)),
    Step::Publish(
        1000,
        b"t",
        b"msg_1",
        b"{}",
        Published::Refused(6, Fault::WaitingFull),
    ),
    Step::Records(768, 0),
    Step::HaltByNothing(true),
    Step::Publish(
        1000,
        b"u",
        b"msg_1",
        b"{}",
        Published::Refused(1, Fault::Halted),
    ),
    Step::IsHalted(true),
];

#[test]
fn a_publish_that_is_refused_takes_no_place(rt: HostRuntime) -> Result<(), Fail> {
    take(
        &rt,
        rt.alloc(),
        Start::Empty,
        &A_PUBLISH_THAT_IS_REFUSED_TAKES_NO_PLACE,
    )
}
