//! The reply to each refusal of the desk.

use crate::asks::{is_reply, refused_with};
use desk::{Command, Fault, Refusal};
use intake_shed::{
    Ask, AskBody, ReplyText, SubmitError, accepted_reply, change_reply, change_status,
    refusal_reply,
};
use relay_types::{Moment, MsgId, Name};
use std::borrow::CowStr;
use std::process::Abort;
use std::test::Fail;

/// A refusal, the status and the text of its reply, and whether the request may be made again.
#[derive(Clone, Copy)]
struct Case {
    fault: Fault,
    status: u16,
    text: &'static [u8],
    retry: bool,
}

// A refused request may be made again later only where the relay is at fault.
static REFUSALS: [Case; 13] = [
    Case {
        fault: Fault::UnknownEndpoint,
        status: 404,
        text: b"{\"error\":\"UnknownEndpoint\"}",
        retry: false,
    },
    Case {
        fault: Fault::UnknownTopic,
        status: 404,
        text: b"{\"error\":\"UnknownTopic\"}",
        retry: false,
    },
    Case {
        fault: Fault::Conflict,
        status: 409,
        text: b"{\"error\":\"Conflict\"}",
        retry: false,
    },
    Case {
        fault: Fault::Exists,
        status: 409,
        text: b"{\"error\":\"Exists\"}",
        retry: false,
    },
    Case {
        fault: Fault::TooManyEndpoints,
        status: 409,
        text: b"{\"error\":\"TooManyEndpoints\"}",
        retry: false,
    },
    Case {
        fault: Fault::TooManySubscriptions,
        status: 409,
        text: b"{\"error\":\"TooManySubscriptions\"}",
        retry: false,
    },
    Case {
        fault: Fault::Halted,
        status: 503,
        text: b"{\"error\":\"Halted\"}",
        retry: true,
    },
    Case {
        fault: Fault::EndpointBacklog,
        status: 503,
        text: b"{\"error\":\"EndpointBacklog\"}",
        retry: true,
    },
    Case {
        fault: Fault::Backlog,
        status: 503,
        text: b"{\"error\":\"Backlog\"}",
        retry: true,
    },
    Case {
        fault: Fault::WaitingFull,
        status: 503,
        text: b"{\"error\":\"WaitingFull\"}",
        retry: true,
    },
    Case {
        fault: Fault::SeqExhausted,
        status: 503,
        text: b"{\"error\":\"SeqExhausted\"}",
        retry: true,
    },
    Case {
        fault: Fault::BatchOut,
        status: 503,
        text: b"{\"error\":\"BatchOut\"}",
        retry: true,
    },
    Case {
        fault: Fault::OutOfMemory,
        status: 503,
        text: b"{\"error\":\"OutOfMemory\"}",
        retry: true,
    },
];

fn is_told(case: &Case) -> bool {
    let reply = refusal_reply(&SubmitError::Refused(Refusal {
        number: 1,
        fault: case.fault,
    }));
    is_reply(&reply, case.status, case.retry, case.text)
}

fn walk(rt: &impl Abort, cases: &[Case]) {
    for (place, case) in cases.iter().enumerate() {
        assert!(rt; is_told(case), "case {place}");
    }
}

#[test]
fn each_refusal_of_the_desk_has_its_reply(rt: HostRuntime) {
    walk(&rt, &REFUSALS);
}

#[test]
fn what_was_waited_for_in_vain_has_its_reply(rt: HostRuntime) {
    let unknown = refusal_reply(&SubmitError::Unknown);
    assert!(rt; is_reply(&unknown, 503, true, b"{\"error\":\"Unknown\"}"));
    let went_back = refusal_reply(&SubmitError::WentBack);
    assert!(rt; is_reply(&went_back, 503, true, b"{\"error\":\"WentBack\"}"));
}

#[test]
fn what_is_done_is_told_by_its_number(rt: HostRuntime) -> Result<(), Fail> {
    let accepted = accepted_reply(rt.alloc(), &MsgId::read(b"msg_1")?, 1);
    assert!(rt; is_reply(&accepted, 202, false, b"{\"id\":\"msg_1\",\"seq\":1}"));
    let changed = change_reply(rt.alloc(), 201, 7);
    assert!(rt; is_reply(&changed, 201, false, b"{\"seq\":7}"));
    let name = Name::read(b"a")?;
    assert!(rt; change_status(&Command::SetEnabled { name, flag: true }) == 200);
    let topic = name;
    assert!(rt;
        change_status(&Command::SetSubscribed {
            topic,
            name,
            flag: true
        }) == 200
    );
    let before = Moment::of(7)?;
    assert!(rt; change_status(&Command::Purge { before }) == 200);
    Ok(())
}

static NOT_KEPT: Ask<'static> = Ask {
    method: b"POST",
    path: b"/v1/endpoints/a/events",
    ids: &[],
    body: AskBody::TooLong,
};

static NOT_KEPT_OF_NOTHING: Ask<'static> = Ask {
    method: b"POST",
    path: b"/v1/nothing",
    ids: &[],
    body: AskBody::TooLong,
};

#[test]
fn a_body_that_was_not_kept_is_too_long(rt: HostRuntime) -> Result<(), Fail> {
    assert!(rt; refused_with(rt.alloc(), &NOT_KEPT)? == 413);
    assert!(rt; refused_with(rt.alloc(), &NOT_KEPT_OF_NOTHING)? == 404);
    Ok(())
}

#[test]
fn a_text_is_kept_without_a_copy(rt: HostRuntime) -> Result<(), Fail> {
    let fixed = ReplyText::fixed("{}");
    assert!(rt; fixed.as_str() == "{}");
    let fixed = fixed.into_cow();
    assert!(rt; matches!(fixed, CowStr::Borrowed(_)));
    let made = ReplyText::made(String::from_str(rt.alloc(), "[1]")?);
    assert!(rt; made.as_str() == "[1]");
    let made = made.into_cow();
    assert!(rt; matches!(made, CowStr::Owned(_)));
    Ok(())
}

#[test]
fn the_text_of_a_refusal_stands_in_the_program(rt: HostRuntime) {
    let text = refusal_reply(&SubmitError::Unknown).body.into_cow();
    assert!(rt; matches!(text, CowStr::Borrowed(_)));
}
