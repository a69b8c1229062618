//! Requests, whole: values of signatures are those of Python's `hmac`.

use crate::events::HOOK;
use crate::steps::{Answer, Endpoint, Given, Request, Step};
use crate::walk::{Start, take};
use std::test::Fail;

static THE_EVENT_OF_THE_PAGES: [Step; 5] = [
    Step::Put(b"a", HOOK, Answer::Record(0)),
    Step::Submit(1000, b"a", b"msg_1", b"{}", Answer::Record(1)),
    Step::Turn(2),
    Step::Claim(1000, Given::Job(1, 1, 1000, 1)),
    Step::Asks(
        0,
        Request {
            lines: b"\
POST /hook
host: 127.0.0.1:9000
user-agent: relayd/1
content-type: application/json
content-length: 2
connection: close
webhook-id: msg_1
webhook-timestamp: 1000
webhook-signature: v1,GKF3aN8xMQSpghefDbSmk9+eCdpTNFic/YVa+x7zfqI=
{}",
            host: b"127.0.0.1",
            port: 9000,
        },
    ),
];

#[test]
fn the_event_of_the_pages(rt: HostRuntime) -> Result<(), Fail> {
    take(&rt, rt.alloc(), Start::Empty, &THE_EVENT_OF_THE_PAGES)
}

const AN_ENDPOINT_WITH_A_QUERY_AND_A_PORT: Endpoint = Endpoint {
    target: b"HTTP://Sub.example_1:8080/a/b?c=d&e=%2F",
    ..HOOK
};

static A_TARGET_WITH_A_QUERY_AND_A_PORT: [Step; 5] = [
    Step::Put(b"a", AN_ENDPOINT_WITH_A_QUERY_AND_A_PORT, Answer::Record(0)),
    Step::Submit(
        1000,
        b"a",
        b"msg_1",
        b"{\"test\": 2432232314}",
        Answer::Record(1),
    ),
    Step::Turn(2),
    Step::Claim(1_614_265_330, Given::Job(1, 1, 1_614_265_330, 1)),
    Step::Asks(
        0,
        Request {
            lines: b"\
POST /a/b?c=d&e=%2F
host: Sub.example_1:8080
user-agent: relayd/1
content-type: application/json
content-length: 20
connection: close
webhook-id: msg_1
webhook-timestamp: 1614265330
webhook-signature: v1,f/J7O8ICcd/iY2ceHKTL6w2MiwBP/6VgJPOCWkWfnRk=
{\"test\": 2432232314}",
            host: b"Sub.example_1",
            port: 8080,
        },
    ),
];

#[test]
fn a_target_with_a_query_and_a_port(rt: HostRuntime) -> Result<(), Fail> {
    take(
        &rt,
        rt.alloc(),
        Start::Empty,
        &A_TARGET_WITH_A_QUERY_AND_A_PORT,
    )
}

/// Secrets of 24 bytes A, B, C and D.
const AN_ENDPOINT_WITH_FOUR_SECRETS: Endpoint = Endpoint {
    secrets: &[
        b"whsec_QUFBQUFBQUFBQUFBQUFBQUFBQUFBQUFB",
        b"whsec_QkJCQkJCQkJCQkJCQkJCQkJCQkJCQkJC",
        b"whsec_Q0NDQ0NDQ0NDQ0NDQ0NDQ0NDQ0NDQ0ND",
        b"whsec_RERERERERERERERERERERERERERERERE",
    ],
    ..HOOK
};

static EACH_OF_FOUR_SECRETS_SIGNS: [Step; 5] = [
    Step::Put(b"a", AN_ENDPOINT_WITH_FOUR_SECRETS, Answer::Record(0)),
    Step::Submit(1000, b"a", b"msg_1", b"{}", Answer::Record(1)),
    Step::Turn(2),
    Step::Claim(1000, Given::Job(1, 1, 1000, 1)),
    Step::Asks(
        0,
        Request {
            lines: b"\
POST /hook
host: 127.0.0.1:9000
user-agent: relayd/1
content-type: application/json
content-length: 2
connection: close
webhook-id: msg_1
webhook-timestamp: 1000
webhook-signature: v1,3nBnivwjxvdt47QZhkoT4ZH9ZjEvu/uTe8Wim0VFtJw= \
v1,eDXxoU/WrXsGDB6IC8bd+Or4ziX+NRwkoXd5b1UcDMU= \
v1,5WtBXt4Bkra2mFcSKm4adqAr72H/ABbLb794esx8SYI= \
v1,iAxRG7y2X9s5w7I8aBOoFay6b5MhWeMxcNyvfpYaeMk=
{}",
            host: b"127.0.0.1",
            port: 9000,
        },
    ),
];

#[test]
fn each_of_four_secrets_signs(rt: HostRuntime) -> Result<(), Fail> {
    take(&rt, rt.alloc(), Start::Empty, &EACH_OF_FOUR_SECRETS_SIGNS)
}

const AN_ENDPOINT_WITH_NO_PATH: Endpoint = Endpoint {
    target: b"http://h",
    ..HOOK
};

static NO_BODY_AND_NO_PATH: [Step; 5] = [
    Step::Put(b"a", AN_ENDPOINT_WITH_NO_PATH, Answer::Record(0)),
    Step::Submit(1000, b"a", b"msg_1", b"", Answer::Record(1)),
    Step::Turn(2),
    Step::Claim(1000, Given::Job(1, 1, 1000, 1)),
    Step::Asks(
        0,
        Request {
            lines: b"\
POST /
host: h
user-agent: relayd/1
content-type: application/json
content-length: 0
connection: close
webhook-id: msg_1
webhook-timestamp: 1000
webhook-signature: v1,SWmnEwHTCxM5LOV+bjJ4VJ8UF8MOq1/kZ1YxmYp0p4g=
",
            host: b"h",
            port: 80,
        },
    ),
];

#[test]
fn no_body_and_no_path(rt: HostRuntime) -> Result<(), Fail> {
    take(&rt, rt.alloc(), Start::Empty, &NO_BODY_AND_NO_PATH)
}
