//! The bodies of changes.

use crate::asks::{Answer, Case, Text, walk};
use std::test::Fail;

const BAD_BODY: Answer = Answer::Refused(400, b"{\"error\":\"BadBody\"}");

const BAD_URL: Answer = Answer::Refused(400, b"{\"error\":\"BadUrl\"}");

const BAD_MAX: Answer = Answer::Refused(400, b"{\"error\":\"BadMax\"}");

const BAD_SECRET: Answer = Answer::Refused(400, b"{\"error\":\"BadSecret\"}");

const BAD_MOMENT: Answer = Answer::Refused(400, b"{\"error\":\"BadMoment\"}");

const ENDPOINT: &[Text] = &[Text::Is(b"/v1/endpoints/a")];

const SECRETS: &[Text] = &[Text::Is(b"/v1/endpoints/a/secrets")];

const ENABLED: &[Text] = &[Text::Is(b"/v1/endpoints/a/enabled")];

const TOPIC: &[Text] = &[Text::Is(b"/v1/endpoints/a/topics/t")];

const RETENTION: &[Text] = &[Text::Is(b"/v1/retention")];

const TRUE: Answer = Answer::Flag(b"a", true);

const FALSE: Answer = Answer::Flag(b"a", false);

// The kinds of all members come before what each of them says.
static OTHER_MEMBERS: [Case; 1] = [Case {
    method: b"PUT",
    paths: ENDPOINT,
    ids: &[],
    bodies: &[
        Text::Is(br#"{"url":"http://h/","max":"1","secrets":[]}"#),
        Text::Is(br#"{"url":"https://h/","max":0,"secrets":[1]}"#),
        Text::Is(br#"{"url":"https://h/","max":0,"secrets":"a"}"#),
        Text::Is(br#"{"url":"https://h/","max":null,"secrets":[]}"#),
        Text::Is(br#"{"url":"https://h/","max":true,"secrets":[]}"#),
        Text::Is(br#"{"url":7,"max":1,"secrets":[]}"#),
        Text::Is(br#"{"max":1,"secrets":[]}"#),
        Text::Is(br#"{"url":"http://h/","secrets":[]}"#),
        Text::Is(br#"{"url":"http://h/","max":1}"#),
        Text::Is(br#"{"URL":"http://h/","max":1,"secrets":[]}"#),
        Text::Is(br#"{"url":"http://h/","max":1,"secrets":[]} x"#),
        Text::Is(br#"["http://h/",1,[]]"#),
        Text::Is(b"{}"),
        Text::Is(b"null"),
        Text::Is(b""),
    ],
    answer: BAD_BODY,
}];

#[test]
fn a_body_has_the_members_of_its_line(rt: HostRuntime) -> Result<(), Fail> {
    walk(&rt, rt.alloc(), &OTHER_MEMBERS)
}

// The url is checked before the max, and the max before the secrets.
static FIRST_BAD_MEMBERS: [Case; 3] = [
    Case {
        method: b"PUT",
        paths: ENDPOINT,
        ids: &[],
        bodies: &[
            Text::Is(br#"{"url":"https://h/","max":0,"secrets":[]}"#),
            Text::Is(br#"{"secrets":[],"max":0,"url":"http://h\n/"}"#),
        ],
        answer: BAD_URL,
    },
    Case {
        method: b"PUT",
        paths: ENDPOINT,
        ids: &[],
        bodies: &[
            Text::Is(br#"{"url":"http://h/","max":0,"secrets":[]}"#),
            Text::Is(br#"{"url":"http://h/","max":1.5,"secrets":[]}"#),
        ],
        answer: BAD_MAX,
    },
    Case {
        method: b"PUT",
        paths: ENDPOINT,
        ids: &[],
        bodies: &[
            Text::Is(br#"{"url":"http://h/","max":1,"secrets":[]}"#),
            Text::Is(br#"{"url":"http://h/","max":1,"secrets":["a"]}"#),
        ],
        answer: BAD_SECRET,
    },
];

#[test]
fn the_first_bad_member_is_told(rt: HostRuntime) -> Result<(), Fail> {
    walk(&rt, rt.alloc(), &FIRST_BAD_MEMBERS)
}

// A number with a point or an exponent is no whole one, nor is -0. One beyond all floats is no JSON that is read.
static LIMITS: [Case; 5] = [
    Case {
        method: b"PUT",
        paths: ENDPOINT,
        ids: &[],
        bodies: &[Text::Max(b"1")],
        answer: Answer::Put(b"a", b"http://h/", 1, 1),
    },
    Case {
        method: b"PUT",
        paths: ENDPOINT,
        ids: &[],
        bodies: &[Text::Max(b"7")],
        answer: Answer::Put(b"a", b"http://h/", 7, 1),
    },
    Case {
        method: b"PUT",
        paths: ENDPOINT,
        ids: &[],
        bodies: &[Text::Max(b"1000")],
        answer: Answer::Put(b"a", b"http://h/", 1000, 1),
    },
    Case {
        method: b"PUT",
        paths: ENDPOINT,
        ids: &[],
        bodies: &[
            Text::Max(b"0"),
            Text::Max(b"1001"),
            Text::Max(b"1e2"),
            Text::Max(b"7.0"),
            Text::Max(b"-0"),
            Text::Max(b"-1"),
            Text::Max(b"18446744073709551615"),
            Text::Max(b"18446744073709551616"),
        ],
        answer: BAD_MAX,
    },
    Case {
        method: b"PUT",
        paths: ENDPOINT,
        ids: &[],
        bodies: &[
            Text::Max(b"1e999"),
            Text::Max(b"01"),
            Text::Max(b"+1"),
            Text::Max(b".5"),
            Text::Max(b"true"),
            Text::Max(b"\"7\""),
        ],
        answer: BAD_BODY,
    },
];

#[test]
fn a_max_is_a_whole_number_from_1_to_1000(rt: HostRuntime) -> Result<(), Fail> {
    walk(&rt, rt.alloc(), &LIMITS)
}

// The last of two members counts. Others are ignored, but have to be JSON.
static FLAGS: [Case; 3] = [
    Case {
        method: b"PUT",
        paths: ENABLED,
        ids: &[],
        bodies: &[
            Text::Is(br#"{"enabled":true}"#),
            Text::Is(br#"{"enabled":1,"enabled":true}"#),
            Text::Is(br#"{"\u0065nabled":true}"#),
        ],
        answer: TRUE,
    },
    Case {
        method: b"PUT",
        paths: ENABLED,
        ids: &[],
        bodies: &[
            Text::Is(br#"{"enabled":false}"#),
            Text::Is(b" {\"x\":[1e2,{}],\"enabled\":\tfalse}\n"),
            Text::Is(br#"{"enabled":true,"enabled":false}"#),
        ],
        answer: FALSE,
    },
    Case {
        method: b"PUT",
        paths: ENABLED,
        ids: &[],
        bodies: &[
            Text::Is(br#"{"enabled":true,"enabled":1}"#),
            Text::Is(br#"{"enabled":"true"}"#),
            Text::Is(br#"{"enabled":null}"#),
            Text::Is(b"{}"),
            Text::Is(br#"{"enabled":true,"x":1e999}"#),
            Text::Is(br#"{"enabled":true,"x":"\ud800"}"#),
            Text::Is(b"\xef\xbb\xbf{\"enabled\":true}"),
            Text::Is(br#"{"enabled":true,}"#),
            Text::Is(b"{\"enabled\":true,\"x\":\"\xff\"}"),
        ],
        answer: BAD_BODY,
    },
];

#[test]
fn a_flag_is_a_bool(rt: HostRuntime) -> Result<(), Fail> {
    walk(&rt, rt.alloc(), &FLAGS)
}

// The path has the topic after the endpoint, whose names may be alike.
static SUBSCRIPTIONS: [Case; 4] = [
    Case {
        method: b"PUT",
        paths: &[
            Text::Is(b"/v1/endpoints/a/topics/t"),
            Text::Is(b"/v1/endpoints/a/topics/t?x/y"),
        ],
        ids: &[b"a", b"b"],
        bodies: &[
            Text::Is(br#"{"subscribed":true}"#),
            Text::Is(br#"{"subscribed":false,"more":[],"subscribed":true}"#),
        ],
        answer: Answer::Subscribed(b"a", b"t", true),
    },
    Case {
        method: b"PUT",
        paths: TOPIC,
        ids: &[],
        bodies: &[Text::Is(br#"{"enabled":true,"subscribed":false}"#)],
        answer: Answer::Subscribed(b"a", b"t", false),
    },
    Case {
        method: b"PUT",
        paths: &[Text::Is(b"/v1/endpoints/topics/topics/topics")],
        ids: &[],
        bodies: &[Text::Is(br#"{"subscribed":true}"#)],
        answer: Answer::Subscribed(b"topics", b"topics", true),
    },
    Case {
        method: b"PUT",
        paths: TOPIC,
        ids: &[],
        bodies: &[
            Text::Is(br#"{"subscribed":1}"#),
            Text::Is(br#"{"subscribed":"true"}"#),
            Text::Is(br#"{"enabled":true}"#),
            Text::Is(b"[true]"),
            Text::Is(b""),
        ],
        answer: BAD_BODY,
    },
];

#[test]
fn a_subscription_has_a_topic_and_a_bool(rt: HostRuntime) -> Result<(), Fail> {
    walk(&rt, rt.alloc(), &SUBSCRIPTIONS)
}

// A moment is a whole number from 0 to 2^40, written without a point or an exponent, and -0 is none. A number beyond
// all floats is no JSON that is read.
static MOMENTS: [Case; 6] = [
    Case {
        method: b"PUT",
        paths: &[
            Text::Is(b"/v1/retention"),
            Text::Is(b"/v1/retention?"),
            Text::Is(b"/v1/retention?x/y"),
        ],
        ids: &[b"a", b"b"],
        bodies: &[
            Text::Is(br#"{"before":0}"#),
            Text::Is(br#"{"before":"x","more":[],"before":0}"#),
        ],
        answer: Answer::Purge(0),
    },
    Case {
        method: b"PUT",
        paths: RETENTION,
        ids: &[],
        bodies: &[
            Text::Is(br#"{"before":1099511627776}"#),
            Text::Is(br#"{"before":1099511627776,"x":1}"#),
            Text::Is(b" {\"x\":[1e2,{}],\"before\":\t1099511627776}\n"),
        ],
        answer: Answer::Purge(1_099_511_627_776),
    },
    Case {
        method: b"PUT",
        paths: RETENTION,
        ids: &[],
        bodies: &[Text::Is(br#"{"before":1767225600}"#)],
        answer: Answer::Purge(1_767_225_600),
    },
    Case {
        method: b"PUT",
        paths: RETENTION,
        ids: &[],
        bodies: &[
            Text::Is(br#"{"before":1099511627777}"#),
            Text::Is(br#"{"before":-1}"#),
            Text::Is(br#"{"before":-0}"#),
            Text::Is(br#"{"before":1.0}"#),
            Text::Is(br#"{"before":1e3}"#),
            Text::Is(br#"{"before":0.5}"#),
            Text::Is(br#"{"before":18446744073709551615}"#),
            Text::Is(br#"{"before":18446744073709551616}"#),
            Text::Is(br#"{"before":0,"before":-1}"#),
        ],
        answer: BAD_MOMENT,
    },
    Case {
        method: b"PUT",
        paths: RETENTION,
        ids: &[],
        bodies: &[
            Text::Is(br#"{"before":"7"}"#),
            Text::Is(br#"{"before":null}"#),
            Text::Is(br#"{"before":true}"#),
            Text::Is(br#"{"before":[7]}"#),
            Text::Is(br#"{"before":1e999}"#),
            Text::Is(br#"{"before":01}"#),
            Text::Is(br#"{"before":7,"before":"7"}"#),
            Text::Is(br#"{"Before":7}"#),
            Text::Is(b"{}"),
            Text::Is(b"7"),
            Text::Is(b"[7]"),
            Text::Is(b"null"),
            Text::Is(b""),
        ],
        answer: BAD_BODY,
    },
    Case {
        method: b"PUT",
        paths: RETENTION,
        ids: &[],
        bodies: &[Text::Long(br#"{"before":7}"#, b' ', 65_524)],
        answer: Answer::Purge(7),
    },
];

#[test]
fn a_purge_has_a_moment(rt: HostRuntime) -> Result<(), Fail> {
    walk(&rt, rt.alloc(), &MOMENTS)
}

// The body's own object is counted.
static NESTED: [Case; 2] = [
    Case {
        method: b"PUT",
        paths: ENABLED,
        ids: &[],
        bodies: &[Text::Nested(126)],
        answer: TRUE,
    },
    Case {
        method: b"PUT",
        paths: ENABLED,
        ids: &[],
        bodies: &[Text::Nested(127), Text::Nested(30_000)],
        answer: BAD_BODY,
    },
];

#[test]
fn a_body_nests_at_most_127_deep(rt: HostRuntime) -> Result<(), Fail> {
    walk(&rt, rt.alloc(), &NESTED)
}

const TWO_SECRETS: &[u8] = b"{\"url\":\"http://h/\",\"max\":7,\"secrets\":[\
    \"whsec_MDAwMDAwMDAwMDAwMDAwMDAwMDAwMDAwMDAwMDAwMDA=\",\
    \"whsec_MDAwMDAwMDAwMDAwMDAwMDAwMDAwMDAwMDAwMDAwMDA=\"]}";

const FIVE_SECRETS: &[u8] = b"{\"secrets\":[\
    \"whsec_MDAwMDAwMDAwMDAwMDAwMDAwMDAwMDAwMDAwMDAwMDA=\",\
    \"whsec_MDAwMDAwMDAwMDAwMDAwMDAwMDAwMDAwMDAwMDAwMDA=\",\
    \"whsec_MDAwMDAwMDAwMDAwMDAwMDAwMDAwMDAwMDAwMDAwMDA=\",\
    \"whsec_MDAwMDAwMDAwMDAwMDAwMDAwMDAwMDAwMDAwMDAwMDA=\",\
    \"whsec_MDAwMDAwMDAwMDAwMDAwMDAwMDAwMDAwMDAwMDAwMDA=\"]}";

// The secrets are 1 to 4.
static LISTS: [Case; 4] = [
    Case {
        method: b"PUT",
        paths: &[Text::Is(b"/v1/endpoints/a?x")],
        ids: &[],
        bodies: &[Text::Is(TWO_SECRETS)],
        answer: Answer::Put(b"a", b"http://h/", 7, 2),
    },
    Case {
        method: b"PUT",
        paths: SECRETS,
        ids: &[],
        bodies: &[Text::Is(
            b"{\"secrets\":[\"whsec_MDAwMDAwMDAwMDAwMDAwMDAwMDAwMDAwMDAwMDAwMDA=\"]}",
        )],
        answer: Answer::Secrets(b"a", 1),
    },
    Case {
        method: b"PUT",
        paths: SECRETS,
        ids: &[],
        bodies: &[Text::Is(b"{\"secrets\":[]}"), Text::Is(FIVE_SECRETS)],
        answer: BAD_SECRET,
    },
    Case {
        method: b"PUT",
        paths: SECRETS,
        ids: &[],
        bodies: &[Text::Is(b"{\"secrets\":{}}")],
        answer: BAD_BODY,
    },
];

#[test]
fn a_list_of_1_to_4_secrets_is_asked_for(rt: HostRuntime) -> Result<(), Fail> {
    walk(&rt, rt.alloc(), &LISTS)
}
