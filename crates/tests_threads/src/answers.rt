//! Requests that are answered over a desk with a committer.

use crate::asked::Request;
use crate::cases::{Committer, Course, Ending};
use crate::courses::{End, check};
use crate::given::Before;
use crate::steps::Step;

const ENDPOINT: &[u8] =
    b"{\"max\":100,\"secrets\":[\"whsec_MDAwMDAwMDAwMDAwMDAwMDAwMDAwMDAwMDAwMDAwMDA=\"],\
        \"url\":\"http://127.0.0.1:9000/hook\"}";

const SECRETS: &[u8] = b"{\"secrets\":[\"whsec_MDEyMzQ1Njc4OTAxMjM0NTY3ODkwMTIz\",\
        \"whsec_MDAwMDAwMDAwMDAwMDAwMDAwMDAwMDAwMDAwMDAwMDA=\"]}";

const UNKNOWN_ENDPOINT: &str = "{\"error\":\"UnknownEndpoint\"}";

const REQUESTS: [Step; 29] = [
    Step::Ask(
        Request::Post(b"/v1/endpoints/a/events", &[b"msg_1"], b"{}"),
        404,
        false,
        UNKNOWN_ENDPOINT,
    ),
    Step::Ask(
        Request::Put(b"/v1/endpoints/a", ENDPOINT),
        201,
        false,
        "{\"seq\":0}",
    ),
    Step::Ask(
        Request::Put(b"/v1/endpoints/a", ENDPOINT),
        409,
        false,
        "{\"error\":\"Exists\"}",
    ),
    Step::Ask(
        Request::Post(b"/v1/endpoints/a/events", &[b"msg_1"], b"{}"),
        202,
        false,
        "{\"id\":\"msg_1\",\"seq\":1}",
    ),
    Step::Ask(
        Request::Get(b"/v1/endpoints/a/events/msg_1"),
        200,
        false,
        "{\"at\":1000,\"attempts\":0,\"due\":1000,\"endpoint\":\"a\",\"id\":\"msg_1\",\
            \"last_status\":null,\"state\":\"pending\"}",
    ),
    Step::Ask(
        Request::Post(b"/v1/endpoints/a/events", &[b"msg_1"], b"{}"),
        202,
        false,
        "{\"id\":\"msg_1\",\"seq\":1}",
    ),
    Step::Ask(
        Request::Post(b"/v1/endpoints/a/events", &[b"msg_1"], b"[]"),
        409,
        false,
        "{\"error\":\"Conflict\"}",
    ),
    Step::Ask(
        Request::Post(b"/v1/endpoints/a/events", &[], b"[]"),
        202,
        false,
        "{\"id\":\"fresh\",\"seq\":2}",
    ),
    Step::Ask(
        Request::Put(b"/v1/endpoints/a/secrets", SECRETS),
        200,
        false,
        "{\"seq\":3}",
    ),
    Step::Ask(
        Request::Put(b"/v1/endpoints/a/enabled", b"{\"enabled\":false}"),
        200,
        false,
        "{\"seq\":4}",
    ),
    Step::Ask(
        Request::Put(b"/v1/endpoints/b/enabled", b"{\"enabled\":false}"),
        404,
        false,
        UNKNOWN_ENDPOINT,
    ),
    Step::Ask(
        Request::Put(b"/v1/endpoints/a/topics/t", b"{\"subscribed\":true}"),
        200,
        false,
        "{\"seq\":5}",
    ),
    Step::Ask(
        Request::Post(b"/v1/topics/t/events", &[b"msg_1"], b"{}"),
        202,
        false,
        "{\"id\":\"msg_1\",\"seqs\":[1]}",
    ),
    Step::Ask(
        Request::Post(b"/v1/topics/t/events", &[b"msg_3"], b"[]"),
        202,
        false,
        "{\"id\":\"msg_3\",\"seqs\":[6]}",
    ),
    Step::Ask(
        Request::Post(b"/v1/topics/t/events", &[b"msg_1"], b"[]"),
        409,
        false,
        "{\"error\":\"Conflict\"}",
    ),
    Step::Ask(
        Request::Put(b"/v1/endpoints/a/topics/t", b"{\"subscribed\":false}"),
        200,
        false,
        "{\"seq\":7}",
    ),
    Step::Ask(
        Request::Post(b"/v1/topics/t/events", &[b"msg_1"], b"{}"),
        404,
        false,
        "{\"error\":\"UnknownTopic\"}",
    ),
    Step::Ask(
        Request::Put(b"/v1/endpoints/b/topics/t", b"{\"subscribed\":true}"),
        404,
        false,
        UNKNOWN_ENDPOINT,
    ),
    Step::Ask(
        Request::Get(b"/v1/endpoints/a/topics/t"),
        404,
        false,
        "{\"error\":\"NotFound\"}",
    ),
    Step::Ask(
        Request::Put(b"/v1/retention", b"{\"before\":1099511627776}"),
        200,
        false,
        "{\"seq\":8}",
    ),
    Step::Ask(
        Request::Put(b"/v1/retention", b"{\"before\":1099511627777}"),
        400,
        false,
        "{\"error\":\"BadMoment\"}",
    ),
    Step::Ask(
        Request::Get(b"/v1/retention"),
        404,
        false,
        "{\"error\":\"NotFound\"}",
    ),
    Step::Ask(
        Request::Get(b"/v1/endpoints/a"),
        200,
        false,
        "{\"delivered\":0,\"enabled\":false,\"exhausted\":0,\"max\":100,\"name\":\"a\",\
            \"pending\":3,\"secrets\":2,\"url\":\"http://127.0.0.1:9000/hook\"}",
    ),
    Step::Ask(
        Request::Get(b"/v1/endpoints/b"),
        404,
        false,
        UNKNOWN_ENDPOINT,
    ),
    Step::Ask(
        Request::Get(b"/v1/endpoints/a/events/msg_2"),
        404,
        false,
        "{\"error\":\"UnknownEvent\"}",
    ),
    Step::Ask(
        Request::Get(b"/v1/status"),
        200,
        false,
        "{\"delivered\":0,\"endpoints\":1,\"exhausted\":0,\"pending\":3,\"records\":9}",
    ),
    Step::Ask(
        Request::Get(b"/v1/statuses"),
        404,
        false,
        "{\"error\":\"NotFound\"}",
    ),
    Step::Ask(
        Request::Post(b"/v1/endpoints/a/events", &[b"msg_1", b"msg_2"], b"{}"),
        400,
        false,
        "{\"error\":\"BadId\"}",
    ),
    Step::Finish,
];

/// An event that is delivered is removed, and its id is free.
const RETENTION: [Step; 11] = [
    Step::Ask(
        Request::Put(b"/v1/retention", b"{\"before\":1000}"),
        200,
        false,
        "{\"seq\":3}",
    ),
    Step::Ask(
        Request::Get(b"/v1/endpoints/a/events/msg_1"),
        200,
        false,
        "{\"at\":1000,\"attempts\":1,\"due\":null,\"endpoint\":\"a\",\"id\":\"msg_1\",\
            \"last_status\":200,\"state\":\"delivered\"}",
    ),
    Step::Ask(
        Request::Post(b"/v1/endpoints/a/events", &[b"msg_1"], b"[]"),
        409,
        false,
        "{\"error\":\"Conflict\"}",
    ),
    Step::Ask(
        Request::Put(b"/v1/retention", b"{\"before\":1001}"),
        200,
        false,
        "{\"seq\":4}",
    ),
    Step::Ask(
        Request::Get(b"/v1/endpoints/a/events/msg_1"),
        404,
        false,
        "{\"error\":\"UnknownEvent\"}",
    ),
    Step::Ask(
        Request::Get(b"/v1/endpoints/a"),
        200,
        false,
        "{\"delivered\":0,\"enabled\":true,\"exhausted\":0,\"max\":100,\"name\":\"a\",\
            \"pending\":0,\"secrets\":1,\"url\":\"http://127.0.0.1:9000/hook\"}",
    ),
    Step::Ask(
        Request::Post(b"/v1/endpoints/a/events", &[b"msg_1"], b"[]"),
        202,
        false,
        "{\"id\":\"msg_1\",\"seq\":5}",
    ),
    Step::Ask(
        Request::Get(b"/v1/endpoints/a/events/msg_1"),
        200,
        false,
        "{\"at\":1000,\"attempts\":0,\"due\":1000,\"endpoint\":\"a\",\"id\":\"msg_1\",\
            \"last_status\":null,\"state\":\"pending\"}",
    ),
    Step::Ask(
        Request::Post(b"/v1/endpoints/a/events", &[b"msg_1"], b"{}"),
        409,
        false,
        "{\"error\":\"Conflict\"}",
    ),
    Step::Ask(
        Request::Get(b"/v1/status"),
        200,
        false,
        "{\"delivered\":0,\"endpoints\":1,\"exhausted\":0,\"pending\":1,\"records\":6}",
    ),
    Step::Finish,
];

/// The event is known at `a`, where it is delivered. It waits to be settled at `b`.
const IN_VAIN: [Step; 3] = [
    Step::Ask(
        Request::Post(b"/v1/topics/t/events", &[b"msg_1"], b"{}"),
        503,
        true,
        "{\"error\":\"Unknown\"}",
    ),
    Step::Ask(
        Request::Post(b"/v1/topics/t/events", &[b"msg_1"], b"{}"),
        202,
        false,
        "{\"id\":\"msg_1\",\"seqs\":[8,6]}",
    ),
    Step::Finish,
];

/// So many pending events of an endpoint are the most.
const MOST_PENDING: u32 = 10_000;

const BACKLOG: [Step; 5] = [
    Step::Ask(
        Request::Post(b"/v1/endpoints/a/events", &[b"another"], b"{}"),
        503,
        true,
        "{\"error\":\"EndpointBacklog\"}",
    ),
    Step::Ask(
        Request::Put(b"/v1/endpoints/b", ENDPOINT),
        201,
        false,
        "{\"seq\":10001}",
    ),
    Step::Ask(
        Request::Post(b"/v1/endpoints/b/events", &[b"another"], b"{}"),
        202,
        false,
        "{\"id\":\"another\",\"seq\":10002}",
    ),
    Step::Ask(
        Request::Post(b"/v1/endpoints/a/events", &[b"msg_1"], b"{}"),
        202,
        false,
        "{\"id\":\"msg_1\",\"seq\":1}",
    ),
    Step::Finish,
];

static ANSWERED: Course = Course {
    before: &[],
    committer: Committer::Runs,
    threads: &[&REQUESTS, &[Step::Ended(28)]],
};

#[test]
fn requests_are_answered(rt: HostRuntime) {
    check(
        &rt,
        rt.alloc(),
        &ANSWERED,
        &End(Ending::Finished, 9, 9, false),
    );
}

static REMOVED: Course = Course {
    before: &[
        Before::Put(b"a"),
        Before::Submit(b"msg_1"),
        Before::Turn,
        Before::Deliver,
        Before::Turn,
    ],
    committer: Committer::Runs,
    threads: &[&RETENTION, &[Step::Ended(10)]],
};

#[test]
fn an_event_that_is_removed_frees_its_id(rt: HostRuntime) {
    check(
        &rt,
        rt.alloc(),
        &REMOVED,
        &End(Ending::Finished, 6, 6, false),
    );
}

/// A Purge takes the event at `a` once the publish waits. The committer begins after it, so one batch has both.
static REMOVED_MEANWHILE: Course = Course {
    before: &[
        Before::Put(b"a"),
        Before::Put(b"b"),
        Before::Subscribe(b"a"),
        Before::Submit(b"msg_1"),
        Before::Turn,
        Before::Deliver,
        Before::Subscribe(b"b"),
        Before::Turn,
    ],
    committer: Committer::After(8),
    threads: &[&IN_VAIN, &[Step::Staged(7), Step::Purge(7), Step::Ended(2)]],
};

#[test]
fn an_event_that_is_removed_while_it_is_published_is_unknown(rt: HostRuntime) {
    check(
        &rt,
        rt.alloc(),
        &REMOVED_MEANWHILE,
        &End(Ending::Finished, 9, 9, false),
    );
}

static BACKLOG_REFUSED: Course = Course {
    before: &[Before::Put(b"a"), Before::Turn, Before::Fill(MOST_PENDING)],
    committer: Committer::Runs,
    threads: &[&BACKLOG, &[Step::Ended(4)]],
};

#[test]
fn a_backlog_of_an_endpoint_is_refused(rt: HostRuntime) {
    check(
        &rt,
        rt.alloc(),
        &BACKLOG_REFUSED,
        &End(Ending::Finished, 10_003, 10_003, false),
    );
}
