//! The pages as JSON.

use delivery_book::Row;
use desk::{EndpointPage, Totals};
use relay_types::{MaxLimit, Moment, MsgId, Name, State, Target};
use status::{endpoint_text, event_text, totals_text};
use std::alloc::Global;
use std::process::Abort;
use std::test::Fail;

/// An event, and its page.
#[derive(Clone, Copy)]
struct Event {
    endpoint: &'static [u8],
    id: &'static [u8],
    at: u64,
    attempts: u64,
    state: State,
    due: Option<u64>,
    last_status: Option<u16>,
    text: &'static str,
}

static EVENTS: [Event; 5] = [
    // As it was taken in.
    Event {
        endpoint: b"a",
        id: b"msg_1",
        at: 1000,
        attempts: 0,
        state: State::Pending,
        due: Some(1000),
        last_status: None,
        text: r#"{"at":1000,"attempts":0,"due":1000,"endpoint":"a","id":"msg_1","last_status":null,"state":"pending"}"#,
    },
    // After a failed attempt.
    Event {
        endpoint: b"a",
        id: b"msg_1",
        at: 1000,
        attempts: 1,
        state: State::Pending,
        due: Some(1006),
        last_status: Some(500),
        text: r#"{"at":1000,"attempts":1,"due":1006,"endpoint":"a","id":"msg_1","last_status":500,"state":"pending"}"#,
    },
    // The last attempt had no answer.
    Event {
        endpoint: b"a",
        id: b"msg_1",
        at: 1000,
        attempts: 10,
        state: State::Exhausted,
        due: None,
        last_status: Some(0),
        text: r#"{"at":1000,"attempts":10,"due":null,"endpoint":"a","id":"msg_1","last_status":0,"state":"exhausted"}"#,
    },
    // An event that is not pending is never due.
    Event {
        endpoint: b"a",
        id: b"msg_1",
        at: 1000,
        attempts: 1,
        state: State::Delivered,
        due: Some(1000),
        last_status: Some(200),
        text: "{\"at\":1000,\"attempts\":1,\"due\":null,\"endpoint\":\"a\",\"id\":\"msg_1\",\
            \"last_status\":200,\"state\":\"delivered\"}",
    },
    // The greatest moments, and each kind of character.
    Event {
        endpoint: b"z-9",
        id: b"-_AZaz09",
        at: 1_099_511_627_776,
        attempts: 0,
        state: State::Pending,
        due: Some(u64::MAX),
        last_status: None,
        text: "{\"at\":1099511627776,\"attempts\":0,\"due\":18446744073709551615,\"endpoint\":\"z-9\",\
            \"id\":\"-_AZaz09\",\"last_status\":null,\"state\":\"pending\"}",
    },
];

fn is_event(alloc: Global, event: &Event) -> Result<bool, Fail> {
    let row = Row {
        endpoint: Name::read(event.endpoint)?,
        id: MsgId::read(event.id)?,
        at: Moment::of(event.at)?,
        attempts: event.attempts,
        state: event.state,
        due: event.due,
        last_status: event.last_status,
    };
    Ok(event_text(alloc, &row)?.as_str() == event.text)
}

fn walk_events(rt: &impl Abort, alloc: Global, events: &[Event]) -> Result<(), Fail> {
    for (place, event) in events.iter().enumerate() {
        let is = is_event(alloc, event)?;
        assert!(rt; is, "event {place}");
    }
    Ok(())
}

#[test]
fn an_event_has_its_page(rt: HostRuntime) -> Result<(), Fail> {
    walk_events(&rt, rt.alloc(), &EVENTS)
}

/// An endpoint, and its page.
#[derive(Clone, Copy)]
struct Endpoint {
    delivered: u64,
    enabled: bool,
    exhausted: u64,
    max: u64,
    name: &'static [u8],
    pending: u64,
    secrets: usize,
    url: &'static [u8],
    text: &'static str,
}

// Each character that a URL may hold stands in its page as it was given.
static ENDPOINTS: [Endpoint; 2] = [
    Endpoint {
        delivered: 0,
        enabled: true,
        exhausted: 0,
        max: 100,
        name: b"a",
        pending: 1,
        secrets: 1,
        url: b"http://127.0.0.1:9000/hook",
        text: "{\"delivered\":0,\"enabled\":true,\"exhausted\":0,\"max\":100,\"name\":\"a\",\
            \"pending\":1,\"secrets\":1,\"url\":\"http://127.0.0.1:9000/hook\"}",
    },
    Endpoint {
        delivered: 1,
        enabled: false,
        exhausted: 5,
        max: 1,
        name: b"b-2",
        pending: 7,
        secrets: 4,
        url: b"HTTP://Az._09-:1/-._~!$&'()*+,;=:@/%?",
        text: "{\"delivered\":1,\"enabled\":false,\"exhausted\":5,\"max\":1,\"name\":\"b-2\",\
            \"pending\":7,\"secrets\":4,\"url\":\"HTTP://Az._09-:1/-._~!$&'()*+,;=:@/%?\"}",
    },
];

fn is_endpoint(alloc: Global, endpoint: &Endpoint) -> Result<bool, Fail> {
    let url = Target::read(alloc, endpoint.url)?;
    let page = EndpointPage {
        delivered: endpoint.delivered,
        enabled: endpoint.enabled,
        exhausted: endpoint.exhausted,
        max: MaxLimit::of(endpoint.max)?,
        name: Name::read(endpoint.name)?,
        pending: endpoint.pending,
        secrets: endpoint.secrets,
        url: &url,
    };
    Ok(endpoint_text(alloc, &page)?.as_str() == endpoint.text)
}

fn walk_endpoints(rt: &impl Abort, alloc: Global, endpoints: &[Endpoint]) -> Result<(), Fail> {
    for (place, endpoint) in endpoints.iter().enumerate() {
        let is = is_endpoint(alloc, endpoint)?;
        assert!(rt; is, "endpoint {place}");
    }
    Ok(())
}

#[test]
fn an_endpoint_has_its_page(rt: HostRuntime) -> Result<(), Fail> {
    walk_endpoints(&rt, rt.alloc(), &ENDPOINTS)
}

// Before any record, and after many.
static TOTALS: [(Totals, &str); 2] = [
    (
        Totals {
            delivered: 0,
            endpoints: 0,
            exhausted: 0,
            pending: 0,
            records: 0,
        },
        r#"{"delivered":0,"endpoints":0,"exhausted":0,"pending":0,"records":0}"#,
    ),
    (
        Totals {
            delivered: 40,
            endpoints: 256,
            exhausted: 3,
            pending: 50_000,
            records: 4_611_686_018_427_387_904,
        },
        r#"{"delivered":40,"endpoints":256,"exhausted":3,"pending":50000,"records":4611686018427387904}"#,
    ),
];

fn walk_totals(rt: &impl Abort, alloc: Global, pages: &[(Totals, &str)]) -> Result<(), Fail> {
    for (place, (totals, text)) in pages.iter().enumerate() {
        let found = totals_text(alloc, totals)?;
        assert!(rt; found.as_str() == *text, "totals {place}");
    }
    Ok(())
}

#[test]
fn totals_have_their_page(rt: HostRuntime) -> Result<(), Fail> {
    walk_totals(&rt, rt.alloc(), &TOTALS)
}
