//! Which method and path stand on which line, and the checks of a name, a size and an id.

use crate::asks::{Answer, Case, Text, walk};
use std::test::Fail;

const NOT_FOUND: Answer = Answer::Refused(404, b"{\"error\":\"NotFound\"}");

const BAD_NAME: Answer = Answer::Refused(400, b"{\"error\":\"BadName\"}");

const BAD_ID: Answer = Answer::Refused(400, b"{\"error\":\"BadId\"}");

const TOO_LONG: Answer = Answer::Refused(413, b"{\"error\":\"TooLong\"}");

const NO_ID: &[&[u8]] = &[];

const TWO_IDS: &[&[u8]] = &[b"a", b"b"];

const EMPTY: &[Text] = &[Text::Is(b"")];

const OBJECT: &[Text] = &[Text::Is(b"{}")];

const EVENTS: &[Text] = &[
    Text::Is(b"/v1/endpoints/a/events"),
    Text::Is(b"/v1/topics/t/events"),
];

const TO_AN_ENDPOINT: &[Text] = &[Text::Is(b"/v1/endpoints/a/events")];

const TO_A_TOPIC: &[Text] = &[Text::Is(b"/v1/topics/t/events?x")];

// The table has no such line: a method in other letters, a slash more, a part more or less, an escape in a fixed part.
static NOT_IN_THE_TABLE: [Case; 8] = [
    Case {
        method: b"DELETE",
        paths: &[Text::Is(b"/v1/status")],
        ids: NO_ID,
        bodies: EMPTY,
        answer: NOT_FOUND,
    },
    Case {
        method: b"DELETE",
        paths: &[
            Text::Is(b"/v1/status"),
            Text::Is(b"/v1/endpoints/a/topics/t"),
            Text::Is(b"/v1/retention"),
        ],
        ids: TWO_IDS,
        bodies: OBJECT,
        answer: NOT_FOUND,
    },
    Case {
        method: b"HEAD",
        paths: &[Text::Is(b"/v1/status")],
        ids: TWO_IDS,
        bodies: OBJECT,
        answer: NOT_FOUND,
    },
    Case {
        method: b"get",
        paths: &[Text::Is(b"/v1/status")],
        ids: TWO_IDS,
        bodies: OBJECT,
        answer: NOT_FOUND,
    },
    Case {
        method: b"GET",
        paths: &[
            Text::Is(b"/v1/status/"),
            Text::Is(b"/v1//status"),
            Text::Is(b"/V1/status"),
            Text::Is(b"/v1/st%61tus"),
            Text::Is(b"v1/status"),
            Text::Is(b"http://h/v1/status"),
            Text::Is(b""),
            Text::Is(b"/?/v1/status"),
            Text::Is(b"/v1/endpoints"),
            Text::Is(b"/v1/endpoints/a/"),
            Text::Is(b"/v1/endpoints/a/secrets"),
            Text::Is(b"/v1/endpoints/a/topics/t"),
            Text::Is(b"/v1/endpoints/a/events"),
            Text::Is(b"/v1/endpoints/a/events/msg_1/"),
            Text::Is(b"/v1/endpoints/a/b/events/msg_1"),
            Text::Is(b"/v1/topics/t/events"),
            Text::Is(b"/v1/retention"),
        ],
        ids: TWO_IDS,
        bodies: OBJECT,
        answer: NOT_FOUND,
    },
    Case {
        method: b"POST",
        paths: &[
            Text::Is(b"/v1/endpoints/a"),
            Text::Is(b"/v1/endpoints/A/events/"),
            Text::Is(b"/v1/endpoints/a/topics/t"),
            Text::Is(b"/v1/topics/t"),
            Text::Is(b"/v1/topics/events"),
            Text::Is(b"/v1/topics/t/events/"),
            Text::Is(b"/v1/topics/t/u/events"),
            Text::Is(b"/v1/retention"),
        ],
        ids: TWO_IDS,
        bodies: OBJECT,
        answer: NOT_FOUND,
    },
    Case {
        method: b"PUT",
        paths: &[
            Text::Is(b"/v1/endpoints/A/events"),
            Text::Is(b"/v1/endpoints/a/enabled/"),
            Text::Is(b"/v1/endpoints/a/topics"),
            Text::Is(b"/v1/endpoints/a/topics/t/"),
            Text::Is(b"/v1/endpoints/a/topics/t/u"),
            Text::Is(b"/v1/endpoints/a/topic/t"),
            Text::Is(b"/v1/endpoints/topics/t"),
            Text::Is(b"/v1/topics/t/events"),
            Text::Is(b"/v1/retention/"),
            Text::Is(b"/v1/retention/a"),
            Text::Is(b"/v1/Retention"),
            Text::Is(b"/v1/retentio%6e"),
            Text::Is(b"/v1/status"),
        ],
        ids: TWO_IDS,
        bodies: OBJECT,
        answer: NOT_FOUND,
    },
    Case {
        method: b"",
        paths: &[Text::Is(b"/v1/endpoints/a")],
        ids: TWO_IDS,
        bodies: OBJECT,
        answer: NOT_FOUND,
    },
];

#[test]
fn what_is_not_in_the_table_is_not_found(rt: HostRuntime) -> Result<(), Fail> {
    walk(&rt, rt.alloc(), &NOT_IN_THE_TABLE)
}

// A name is what stands between two slashes, before a query, and nothing in it is decoded. It may be empty. A topic's
// is what stands after the last slash.
static BAD_NAMES: [Case; 3] = [
    Case {
        method: b"PUT",
        paths: &[
            Text::Is(b"/v1/endpoints/A"),
            Text::Is(b"/v1/endpoints/"),
            Text::Is(b"/v1/endpoints/%61"),
            Text::Is(b"/v1/endpoints//secrets"),
            Text::Is(b"/v1/endpoints/A/enabled?x"),
            Text::Is(b"/v1/endpoints/A/topics/t"),
            Text::Is(b"/v1/endpoints//topics/t"),
            Text::Is(b"/v1/endpoints/a/topics/T"),
            Text::Is(b"/v1/endpoints/a/topics/"),
            Text::Is(b"/v1/endpoints/a/topics/%74?x"),
        ],
        ids: TWO_IDS,
        bodies: EMPTY,
        answer: BAD_NAME,
    },
    Case {
        method: b"GET",
        paths: &[
            Text::Is(b"/v1/endpoints/"),
            Text::Is(b"/v1/endpoints/?a"),
            Text::Is(b"/v1/endpoints//events/."),
        ],
        ids: TWO_IDS,
        bodies: EMPTY,
        answer: BAD_NAME,
    },
    Case {
        method: b"POST",
        paths: &[
            Text::Is(b"/v1/endpoints/a b/events"),
            Text::Is(b"/v1/topics/T/events"),
            Text::Is(b"/v1/topics//events"),
        ],
        ids: TWO_IDS,
        bodies: EMPTY,
        answer: BAD_NAME,
    },
];

#[test]
fn a_bad_name_is_told(rt: HostRuntime) -> Result<(), Fail> {
    walk(&rt, rt.alloc(), &BAD_NAMES)
}

// An event is sent with at most one id, and that is one.
static BAD_IDS: [Case; 5] = [
    Case {
        method: b"POST",
        paths: EVENTS,
        ids: TWO_IDS,
        bodies: EMPTY,
        answer: BAD_ID,
    },
    Case {
        method: b"POST",
        paths: EVENTS,
        ids: &[b"msg_1", b"msg_1"],
        bodies: OBJECT,
        answer: BAD_ID,
    },
    Case {
        method: b"POST",
        paths: EVENTS,
        ids: &[b""],
        bodies: OBJECT,
        answer: BAD_ID,
    },
    Case {
        method: b"POST",
        paths: EVENTS,
        ids: &[b"msg 1"],
        bodies: OBJECT,
        answer: BAD_ID,
    },
    Case {
        method: b"GET",
        paths: &[
            Text::Is(b"/v1/endpoints/a/events/"),
            Text::Is(b"/v1/endpoints/a/events/a.b"),
            Text::Is(b"/v1/endpoints/a/events/%61"),
            Text::Is(b"/v1/endpoints/a/events/msg_1%"),
        ],
        ids: TWO_IDS,
        bodies: EMPTY,
        answer: BAD_ID,
    },
];

#[test]
fn a_bad_id_is_told(rt: HostRuntime) -> Result<(), Fail> {
    walk(&rt, rt.alloc(), &BAD_IDS)
}

// A request for a page has no use for ids or a body, and a query is cut off.
static PAGES: [Case; 6] = [
    Case {
        method: b"GET",
        paths: &[
            Text::Is(b"/v1/endpoints/a"),
            Text::Is(b"/v1/endpoints/a?"),
            Text::Is(b"/v1/endpoints/a?b/c?d"),
        ],
        ids: TWO_IDS,
        bodies: EMPTY,
        answer: Answer::Endpoint(b"a"),
    },
    Case {
        method: b"GET",
        paths: &[Text::Is(b"/v1/status?x=/v2")],
        ids: TWO_IDS,
        bodies: EMPTY,
        answer: Answer::Totals,
    },
    Case {
        method: b"GET",
        paths: &[Text::Is(b"/v1/endpoints/a/events/msg_1?x")],
        ids: TWO_IDS,
        bodies: EMPTY,
        answer: Answer::Event(b"a", b"msg_1"),
    },
    Case {
        method: b"GET",
        paths: &[Text::Is(b"/v1/status")],
        ids: NO_ID,
        bodies: &[Text::Is(b"x")],
        answer: Answer::Totals,
    },
    Case {
        method: b"GET",
        paths: &[Text::Is(b"/v1/endpoints/a")],
        ids: NO_ID,
        bodies: EMPTY,
        answer: Answer::Endpoint(b"a"),
    },
    Case {
        method: b"GET",
        paths: &[Text::Is(b"/v1/endpoints/a/events/msg_1")],
        ids: NO_ID,
        bodies: EMPTY,
        answer: Answer::Event(b"a", b"msg_1"),
    },
];

#[test]
fn pages_are_asked_for(rt: HostRuntime) -> Result<(), Fail> {
    walk(&rt, rt.alloc(), &PAGES)
}

static LONG_PATHS: [Case; 2] = [
    Case {
        method: b"GET",
        paths: &[Text::Long(b"", b'/', 10_000_000)],
        ids: NO_ID,
        bodies: EMPTY,
        answer: NOT_FOUND,
    },
    Case {
        method: b"GET",
        paths: &[Text::Long(b"/v1/endpoints/", b'a', 10_000_000)],
        ids: NO_ID,
        bodies: EMPTY,
        answer: BAD_NAME,
    },
];

#[test]
fn a_path_of_10_mb_is_refused(rt: HostRuntime) -> Result<(), Fail> {
    walk(&rt, rt.alloc(), &LONG_PATHS)
}

const TOO_MUCH: &[Text] = &[Text::Long(b"", b'x', 65_537)];

// The size is checked after the name and before the ids, of each method.
static LONG_BODIES: [Case; 5] = [
    Case {
        method: b"DELETE",
        paths: &[Text::Is(b"/v1/status")],
        ids: TWO_IDS,
        bodies: TOO_MUCH,
        answer: NOT_FOUND,
    },
    Case {
        method: b"PUT",
        paths: &[
            Text::Is(b"/v1/endpoints/A"),
            Text::Is(b"/v1/endpoints/a/topics/T"),
        ],
        ids: TWO_IDS,
        bodies: TOO_MUCH,
        answer: BAD_NAME,
    },
    Case {
        method: b"PUT",
        paths: &[
            Text::Is(b"/v1/endpoints/a"),
            Text::Is(b"/v1/endpoints/a/topics/t"),
            Text::Is(b"/v1/retention"),
        ],
        ids: TWO_IDS,
        bodies: TOO_MUCH,
        answer: TOO_LONG,
    },
    Case {
        method: b"POST",
        paths: EVENTS,
        ids: TWO_IDS,
        bodies: TOO_MUCH,
        answer: TOO_LONG,
    },
    Case {
        method: b"GET",
        paths: &[
            Text::Is(b"/v1/status"),
            Text::Is(b"/v1/endpoints/a/events/a.b"),
        ],
        ids: TWO_IDS,
        bodies: TOO_MUCH,
        answer: TOO_LONG,
    },
];

#[test]
fn a_body_of_65_537_bytes_is_too_long(rt: HostRuntime) -> Result<(), Fail> {
    walk(&rt, rt.alloc(), &LONG_BODIES)
}

// An event has the id that is given, or a fresh one, and its body is any 65,536 bytes or fewer.
static SENT: [Case; 4] = [
    Case {
        method: b"POST",
        paths: TO_AN_ENDPOINT,
        ids: &[b"msg_1"],
        bodies: EMPTY,
        answer: Answer::Post(b"a", b"msg_1"),
    },
    Case {
        method: b"POST",
        paths: TO_AN_ENDPOINT,
        ids: NO_ID,
        bodies: &[
            Text::Is(b""),
            Text::Is(b"\xff not JSON"),
            Text::Long(b"", b'x', 65_536),
        ],
        answer: Answer::Post(b"a", b"fresh"),
    },
    Case {
        method: b"POST",
        paths: TO_A_TOPIC,
        ids: &[b"msg_1"],
        bodies: EMPTY,
        answer: Answer::Publish(b"t", b"msg_1"),
    },
    Case {
        method: b"POST",
        paths: TO_A_TOPIC,
        ids: NO_ID,
        bodies: &[
            Text::Is(b""),
            Text::Is(b"\xff not JSON"),
            Text::Long(b"", b'x', 65_536),
        ],
        answer: Answer::Publish(b"t", b"fresh"),
    },
];

#[test]
fn an_event_has_its_id_and_its_body(rt: HostRuntime) -> Result<(), Fail> {
    walk(&rt, rt.alloc(), &SENT)
}
