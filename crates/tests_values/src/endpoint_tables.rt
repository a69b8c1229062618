//! What is told of an endpoint book, step for step.

use crate::endpoints::{Put, Step, walk};
use endpoint_book::MAX_FLAGS;
use relay_types::MAX_SUBSCRIPTIONS;

const HOOK: &[u8] = b"http://127.0.0.1:9000/hook";

const HOOK_PUT: Put = Put {
    url: HOOK,
    max: 100,
    secrets: &[1],
};

const SHORT_PUT: Put = Put {
    url: b"http://h/",
    max: 7,
    secrets: &[1],
};

static AN_EMPTY_BOOK_HAS_NO_ENDPOINT: [Step; 14] = [
    Step::Len(0, 0),
    Step::Names(&[]),
    Step::Next(0),
    Step::SettledSeq(0),
    Step::Free(MAX_FLAGS),
    Step::Contains(b"a", false),
    Step::HasSecrets(b"a", None),
    Step::HasTarget(b"a", None),
    Step::HasMax(b"a", None),
    Step::Shows(b"a", None),
    Step::IsEnabled(b"a", true),
    Step::HasTopic(b"t", b"a", None),
    Step::Subscribers(b"t", b""),
    Step::FreeTopics(MAX_SUBSCRIPTIONS),
];

#[test]
fn an_empty_book_has_no_endpoint(rt: HostRuntime) {
    walk(&rt, rt.alloc(), &AN_EMPTY_BOOK_HAS_NO_ENDPOINT);
}

static A_PUT_WAITS_UNTIL_IT_IS_SETTLED: [Step; 11] = [
    Step::Put(3, b"a", HOOK_PUT),
    Step::Next(4),
    Step::Contains(b"a", true),
    Step::Len(1, 0),
    Step::Shows(b"a", None),
    Step::Settle(3),
    Step::Len(1, 0),
    Step::Shows(b"a", None),
    Step::Settle(4),
    Step::Len(1, 1),
    Step::Shows(b"a", Some((true, 1))),
];

#[test]
fn a_put_waits_until_it_is_settled(rt: HostRuntime) {
    walk(&rt, rt.alloc(), &A_PUT_WAITS_UNTIL_IT_IS_SETTLED);
}

static AN_ENDPOINT_IS_TOLD_AS_IT_WAS_PUT: [Step; 5] = [
    Step::Put(0, b"a", HOOK_PUT),
    Step::Settle(1),
    Step::HasMax(b"a", Some(100)),
    Step::HasTarget(b"a", Some(HOOK)),
    Step::IsPutAs(b"a", HOOK, 100),
];

#[test]
fn an_endpoint_is_told_as_it_was_put(rt: HostRuntime) {
    walk(&rt, rt.alloc(), &AN_ENDPOINT_IS_TOLD_AS_IT_WAS_PUT);
}

static SECRETS_ARE_REPLACED: [Step; 11] = [
    Step::Put(0, b"a", SHORT_PUT),
    Step::Settle(1),
    Step::Give(1, b"a", &[2, 3]),
    Step::Give(2, b"a", &[4, 5, 6]),
    Step::HasSecrets(b"a", Some(&[4, 5, 6])),
    Step::HasMax(b"a", Some(7)),
    Step::Shows(b"a", Some((true, 1))),
    Step::Settle(2),
    Step::Shows(b"a", Some((true, 2))),
    Step::Settle(3),
    Step::Shows(b"a", Some((true, 3))),
];

#[test]
fn secrets_are_replaced(rt: HostRuntime) {
    walk(&rt, rt.alloc(), &SECRETS_ARE_REPLACED);
}

const RESTORED: Put = Put {
    url: HOOK,
    max: 100,
    secrets: &[2, 3],
};

static A_RESTORED_ENDPOINT_IS_SETTLED_AS_IT_WAS_LEFT: [Step; 7] = [
    Step::Restore(3, b"a", RESTORED, false),
    Step::Len(1, 1),
    Step::IsEnabled(b"a", false),
    Step::HasSecrets(b"a", Some(&[2, 3])),
    Step::Shows(b"a", Some((false, 2))),
    Step::IsPutAs(b"a", HOOK, 100),
    Step::Next(4),
];

#[test]
fn a_restored_endpoint_is_settled_as_it_was_left(rt: HostRuntime) {
    walk(
        &rt,
        rt.alloc(),
        &A_RESTORED_ENDPOINT_IS_SETTLED_AS_IT_WAS_LEFT,
    );
}

static THE_LAST_FLAG_DECIDES: [Step; 9] = [
    Step::Put(0, b"a", SHORT_PUT),
    Step::Enable(1, b"a", true),
    Step::Gone(2, b"a"),
    Step::IsEnabled(b"a", false),
    Step::Enable(3, b"a", true),
    Step::IsEnabled(b"a", true),
    Step::Enable(4, b"a", false),
    Step::IsEnabled(b"a", false),
    Step::HasSecrets(b"a", Some(&[1])),
];

#[test]
fn the_last_flag_decides(rt: HostRuntime) {
    walk(&rt, rt.alloc(), &THE_LAST_FLAG_DECIDES);
}

static A_FLAG_IS_SHOWN_ONCE_IT_IS_SETTLED: [Step; 11] = [
    Step::Put(0, b"a", SHORT_PUT),
    Step::Settle(1),
    Step::Gone(1, b"a"),
    Step::IsEnabled(b"a", false),
    Step::Shows(b"a", Some((true, 1))),
    Step::Enable(2, b"a", true),
    Step::Settle(2),
    Step::IsEnabled(b"a", true),
    Step::Shows(b"a", Some((false, 1))),
    Step::Settle(3),
    Step::Shows(b"a", Some((true, 1))),
];

#[test]
fn a_flag_is_shown_once_it_is_settled(rt: HostRuntime) {
    walk(&rt, rt.alloc(), &A_FLAG_IS_SHOWN_ONCE_IT_IS_SETTLED);
}

static AS_MANY_FLAGS_WAIT_AS_THERE_IS_ROOM_FOR: [Step; 15] = [
    Step::Put(0, b"a", SHORT_PUT),
    Step::Flags(1, 1025, b"a"),
    Step::Free(0),
    Step::IsEnabled(b"a", true),
    Step::Settle(2),
    Step::Free(1),
    Step::Shows(b"a", Some((false, 1))),
    Step::Gone(1025, b"a"),
    Step::Free(0),
    Step::Settle(1025),
    Step::Free(MAX_FLAGS - 1),
    Step::Shows(b"a", Some((true, 1))),
    Step::Settle(1026),
    Step::Free(MAX_FLAGS),
    Step::Shows(b"a", Some((false, 1))),
];

#[test]
fn as_many_flags_wait_as_there_is_room_for(rt: HostRuntime) {
    walk(&rt, rt.alloc(), &AS_MANY_FLAGS_WAIT_AS_THERE_IS_ROOM_FOR);
}

// A history over three endpoints: what is told of each behind all records, and behind each settled one. Record 3 is an
// Accept.
const PUT_B: Step = Step::Put(
    0,
    b"b",
    Put {
        url: b"http://b/",
        max: 2,
        secrets: &[1],
    },
);

const PUT_A: Step = Step::Put(
    1,
    b"a",
    Put {
        url: b"http://a/",
        max: 1,
        secrets: &[2, 3],
    },
);

const PUT_C: Step = Step::Put(
    4,
    b"c",
    Put {
        url: b"http://c/",
        max: 3,
        secrets: &[7],
    },
);

static ALL_RECORDS_ARE_TOLD: [Step; 22] = [
    PUT_B,
    PUT_A,
    Step::Enable(2, b"a", false),
    PUT_C,
    Step::Gone(5, b"b"),
    Step::Give(6, b"c", &[4, 5, 6]),
    Step::Enable(7, b"a", true),
    Step::Give(8, b"b", &[2, 3]),
    Step::Gone(9, b"c"),
    Step::Enable(10, b"b", true),
    Step::IsEnabled(b"a", true),
    Step::HasSecrets(b"a", Some(&[2, 3])),
    Step::HasMax(b"a", Some(1)),
    Step::Shows(b"a", None),
    Step::IsEnabled(b"b", true),
    Step::HasSecrets(b"b", Some(&[2, 3])),
    Step::HasMax(b"b", Some(2)),
    Step::Shows(b"b", None),
    Step::IsEnabled(b"c", false),
    Step::HasSecrets(b"c", Some(&[4, 5, 6])),
    Step::HasMax(b"c", Some(3)),
    Step::Shows(b"c", None),
];

#[test]
fn all_records_are_told(rt: HostRuntime) {
    walk(&rt, rt.alloc(), &ALL_RECORDS_ARE_TOLD);
}

static NAMES_STAND_IN_THE_ORDER_OF_THEIR_PUTS: [Step; 12] = [
    PUT_B,
    PUT_A,
    Step::Enable(2, b"a", false),
    PUT_C,
    Step::Gone(5, b"b"),
    Step::Give(6, b"c", &[4, 5, 6]),
    Step::Enable(7, b"a", true),
    Step::Give(8, b"b", &[2, 3]),
    Step::Gone(9, b"c"),
    Step::Enable(10, b"b", true),
    Step::Len(3, 0),
    Step::Names(b"bac"),
];

#[test]
fn names_stand_in_the_order_of_their_puts(rt: HostRuntime) {
    walk(&rt, rt.alloc(), &NAMES_STAND_IN_THE_ORDER_OF_THEIR_PUTS);
}

static EACH_SETTLED_RECORD_IS_SHOWN: [Step; 70] = [
    PUT_B,
    PUT_A,
    Step::Enable(2, b"a", false),
    PUT_C,
    Step::Gone(5, b"b"),
    Step::Give(6, b"c", &[4, 5, 6]),
    Step::Enable(7, b"a", true),
    Step::Give(8, b"b", &[2, 3]),
    Step::Gone(9, b"c"),
    Step::Enable(10, b"b", true),
    Step::Settle(0),
    Step::Len(3, 0),
    Step::Shows(b"a", None),
    Step::Shows(b"b", None),
    Step::Shows(b"c", None),
    Step::Settle(1),
    Step::Len(3, 1),
    Step::Shows(b"a", None),
    Step::Shows(b"b", Some((true, 1))),
    Step::Shows(b"c", None),
    Step::Settle(2),
    Step::Len(3, 2),
    Step::Shows(b"a", Some((true, 2))),
    Step::Shows(b"b", Some((true, 1))),
    Step::Shows(b"c", None),
    Step::Settle(3),
    Step::Len(3, 2),
    Step::Shows(b"a", Some((false, 2))),
    Step::Shows(b"b", Some((true, 1))),
    Step::Shows(b"c", None),
    Step::Settle(4),
    Step::Len(3, 2),
    Step::Shows(b"a", Some((false, 2))),
    Step::Shows(b"b", Some((true, 1))),
    Step::Shows(b"c", None),
    Step::Settle(5),
    Step::Len(3, 3),
    Step::Shows(b"a", Some((false, 2))),
    Step::Shows(b"b", Some((true, 1))),
    Step::Shows(b"c", Some((true, 1))),
    Step::Settle(6),
    Step::Len(3, 3),
    Step::Shows(b"a", Some((false, 2))),
    Step::Shows(b"b", Some((false, 1))),
    Step::Shows(b"c", Some((true, 1))),
    Step::Settle(7),
    Step::Len(3, 3),
    Step::Shows(b"a", Some((false, 2))),
    Step::Shows(b"b", Some((false, 1))),
    Step::Shows(b"c", Some((true, 3))),
    Step::Settle(8),
    Step::Len(3, 3),
    Step::Shows(b"a", Some((true, 2))),
    Step::Shows(b"b", Some((false, 1))),
    Step::Shows(b"c", Some((true, 3))),
    Step::Settle(9),
    Step::Len(3, 3),
    Step::Shows(b"a", Some((true, 2))),
    Step::Shows(b"b", Some((false, 2))),
    Step::Shows(b"c", Some((true, 3))),
    Step::Settle(10),
    Step::Len(3, 3),
    Step::Shows(b"a", Some((true, 2))),
    Step::Shows(b"b", Some((false, 2))),
    Step::Shows(b"c", Some((false, 3))),
    Step::Settle(11),
    Step::Len(3, 3),
    Step::Shows(b"a", Some((true, 2))),
    Step::Shows(b"b", Some((true, 2))),
    Step::Shows(b"c", Some((false, 3))),
];

#[test]
fn each_settled_record_is_shown(rt: HostRuntime) {
    walk(&rt, rt.alloc(), &EACH_SETTLED_RECORD_IS_SHOWN);
}

// Topics of endpoints: `b` is put before `a`, and subscribed after it.
static SUBSCRIBERS_STAND_IN_THE_ORDER_OF_THEIR_PUTS: [Step; 17] = [
    PUT_B,
    PUT_A,
    Step::Subscribe(2, b"t", b"a", true),
    Step::Subscribers(b"t", b"a"),
    Step::Subscribe(3, b"t", b"b", true),
    Step::Subscribers(b"t", b"ba"),
    PUT_C,
    Step::Subscribe(5, b"t", b"c", true),
    Step::Subscribers(b"t", b"bac"),
    Step::Subscribe(6, b"t", b"a", false),
    Step::Subscribers(b"t", b"bc"),
    Step::Enable(7, b"c", false),
    Step::Gone(8, b"b"),
    Step::Subscribers(b"t", b"bc"),
    Step::Subscribe(9, b"t", b"a", true),
    Step::Subscribers(b"t", b"bac"),
    Step::Subscribers(b"u", b""),
];

#[test]
fn subscribers_stand_in_the_order_of_their_puts(rt: HostRuntime) {
    walk(
        &rt,
        rt.alloc(),
        &SUBSCRIBERS_STAND_IN_THE_ORDER_OF_THEIR_PUTS,
    );
}

static THE_LAST_RECORD_OF_A_TOPIC_DECIDES: [Step; 21] = [
    PUT_B,
    PUT_A,
    Step::Subscribe(2, b"t", b"a", true),
    Step::HasTopic(b"t", b"a", Some(true)),
    Step::HasTopic(b"t", b"b", None),
    Step::HasTopic(b"u", b"a", None),
    Step::HasTopic(b"a", b"t", None),
    Step::Next(3),
    Step::FreeTopics(MAX_SUBSCRIPTIONS - 1),
    Step::Subscribe(3, b"t", b"a", false),
    Step::HasTopic(b"t", b"a", Some(false)),
    Step::FreeTopics(MAX_SUBSCRIPTIONS - 1),
    Step::Subscribe(4, b"u", b"b", false),
    Step::HasTopic(b"u", b"b", Some(false)),
    Step::Subscribers(b"u", b""),
    Step::FreeTopics(MAX_SUBSCRIPTIONS - 2),
    Step::Subscribe(7, b"t", b"a", true),
    Step::HasTopic(b"t", b"a", Some(true)),
    Step::HasTopic(b"u", b"b", Some(false)),
    Step::Next(8),
    Step::FreeTopics(MAX_SUBSCRIPTIONS - 2),
];

#[test]
fn the_last_record_of_a_topic_decides(rt: HostRuntime) {
    walk(&rt, rt.alloc(), &THE_LAST_RECORD_OF_A_TOPIC_DECIDES);
}

static A_TOPIC_IS_NO_PART_OF_WHAT_IS_SHOWN: [Step; 12] = [
    Step::Put(0, b"a", SHORT_PUT),
    Step::Settle(1),
    Step::Subscribe(1, b"t", b"a", true),
    Step::HasTopic(b"t", b"a", Some(true)),
    Step::SettledSeq(1),
    Step::Free(MAX_FLAGS),
    Step::Shows(b"a", Some((true, 1))),
    Step::Settle(2),
    Step::SettledSeq(2),
    Step::HasTopic(b"t", b"a", Some(true)),
    Step::Shows(b"a", Some((true, 1))),
    Step::IsPutAs(b"a", b"http://h/", 7),
];

#[test]
fn a_topic_is_no_part_of_what_is_shown(rt: HostRuntime) {
    walk(&rt, rt.alloc(), &A_TOPIC_IS_NO_PART_OF_WHAT_IS_SHOWN);
}

static RESTORED_TOPICS_ARE_AS_THEY_WERE_LEFT: [Step; 10] = [
    Step::Restore(3, b"a", RESTORED, false),
    Step::RestoreTopic(b"t", b"a", true),
    Step::RestoreTopic(b"u", b"a", false),
    Step::HasTopic(b"t", b"a", Some(true)),
    Step::HasTopic(b"u", b"a", Some(false)),
    Step::Subscribers(b"t", b"a"),
    Step::Subscribers(b"u", b""),
    Step::FreeTopics(MAX_SUBSCRIPTIONS - 2),
    Step::Next(4),
    Step::SettledSeq(4),
];

#[test]
fn restored_topics_are_as_they_were_left(rt: HostRuntime) {
    walk(&rt, rt.alloc(), &RESTORED_TOPICS_ARE_AS_THEY_WERE_LEFT);
}

// The topic of record 1 is `aab`.
static AS_MANY_TOPICS_ARE_NAMED_AS_THERE_IS_ROOM_FOR: [Step; 9] = [
    Step::Put(0, b"a", SHORT_PUT),
    Step::Topics(1, 4096, b"a"),
    Step::FreeTopics(1),
    Step::Subscribe(4096, b"t", b"a", true),
    Step::FreeTopics(0),
    Step::Subscribe(4097, b"aab", b"a", false),
    Step::HasTopic(b"aab", b"a", Some(false)),
    Step::HasTopic(b"ppp", b"a", Some(true)),
    Step::FreeTopics(0),
];

#[test]
fn as_many_topics_are_named_as_there_is_room_for(rt: HostRuntime) {
    walk(
        &rt,
        rt.alloc(),
        &AS_MANY_TOPICS_ARE_NAMED_AS_THERE_IS_ROOM_FOR,
    );
}
