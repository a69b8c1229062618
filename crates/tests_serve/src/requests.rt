//! Worked requests one after another, and the post of an event, over loopback.
ghost use Rattle.std.specs.Prelude.{◌≡◌};
ghost use Rattle.permits.specs.declared.pool.TheConstants.{PARTS};

use crate::given::{Host, MARK, SECRET, holds};
use crate::wires::{exchange, take_post};
use command_interface::Settings;
use intake_shed::Acknowledged;
use permits::PARTS;
use recovery::create;
use relay_host::{FileCheck, Place};
use relay_serve::serve_opened;
use relay_types::Name;
use sqlite::{Alter, Connection, MemStore};
use std::alloc::Global;
use std::io::{self, Eprint, Write};
use std::marker::Brand;
use std::net::{Ipv4Addr, Net, SocketAddr, TcpListener, TcpStream};
use std::process::Abort;
use std::sync::ledger::{Blank, Ledger};
use std::test::Fail;
use std::thread;
use std::time::{Clock, Duration};

/// A store in memory, which nobody removes.
#[derive(Drop)]
pub(crate) struct InMemory;

impl Place for InMemory {
    fn look(&mut self) -> FileCheck {
        FileCheck::Stands
    }
}

/// The body of a request.
#[derive(Clone, Copy)]
enum Sent {
    /// These bytes.
    Bytes(&'static str),
    /// The endpoint's url at the subscriber's port, and this maximum.
    Put(u64),
    /// As many bytes.
    Long(usize),
    /// Four bytes fewer than the head says.
    Cut,
}

/// A request, and how its answer begins and ends.
#[derive(Clone, Copy)]
struct Step {
    line: &'static str,
    body: Sent,
    begins: &'static str,
    ends: &'static str,
}

// All of these except one are answered, and so are the pages after them.
static STEPS: [Step; 13] = [
    Step {
        line: "PUT /v1/endpoints/a HTTP/1.1",
        body: Sent::Put(100),
        begins: "HTTP/1.1 201 Created\r\ncontent-type: application/json\r\ndate: ",
        ends: " GMT\r\nconnection: close\r\ncontent-length: 9\r\n\r\n{\"seq\":0}",
    },
    Step {
        line: "POST /v1/endpoints/a/events HTTP/1.1\r\nwebhook-id: msg_1",
        body: Sent::Bytes("{}"),
        begins: "HTTP/1.1 202 ",
        ends: "\r\n\r\n{\"id\":\"msg_1\",\"seq\":1}",
    },
    Step {
        line: "POST /v1/endpoints/a/events HTTP/1.1\r\nwebhook-id: msg_1",
        body: Sent::Bytes("[]"),
        begins: "HTTP/1.1 409 ",
        ends: "\r\n\r\n{\"error\":\"Conflict\"}",
    },
    Step {
        line: "POST /v1/endpoints/a/events HTTP/1.1",
        body: Sent::Long(65_537),
        begins: "HTTP/1.1 413 ",
        ends: "\r\n\r\n{\"error\":\"TooLong\"}",
    },
    Step {
        line: "POST /v1/endpoints/a/events HTTP/1.1\r\nwebhook-id: msg_3",
        body: Sent::Long(65_536),
        begins: "HTTP/1.1 202 ",
        ends: "}",
    },
    Step {
        line: "POST /v1/endpoints/a/events HTTP/1.1\r\nwebhook-id: a.b",
        body: Sent::Bytes("{}"),
        begins: "HTTP/1.1 400 ",
        ends: "\r\n\r\n{\"error\":\"BadId\"}",
    },
    Step {
        line: "POST /v1/endpoints/a/events HTTP/1.1\r\nwebhook-id: msg_2",
        body: Sent::Cut,
        begins: "",
        ends: "",
    },
    Step {
        line: "PUT /v1/endpoints/a HTTP/1.1",
        body: Sent::Put(100),
        begins: "HTTP/1.1 409 ",
        ends: "\r\n\r\n{\"error\":\"Exists\"}",
    },
    Step {
        line: "PUT /v1/endpoints/b HTTP/1.1",
        body: Sent::Bytes(
            "{\"url\":\"http://127.0.0.1:9000/hook\",\"max\":7,\"secrets\":[\"whsec_MDEyMzQ1Njc4OTAxMjM0NTY3ODkwMTIz\"]}",
        ),
        begins: "HTTP/1.1 201 ",
        ends: "}",
    },
    Step {
        line: "GET /v1/endpoints/b HTTP/1.1",
        body: Sent::Bytes(""),
        begins: "HTTP/1.1 200 ",
        ends: "\r\n\r\n{\"delivered\":0,\"enabled\":true,\"exhausted\":0,\"max\":7,\"name\":\"b\",\"pending\":0,\
            \"secrets\":1,\"url\":\"http://127.0.0.1:9000/hook\"}",
    },
    // Events without ids are given different ones. Nobody listens where they are posted to.
    Step {
        line: "POST /v1/endpoints/b/events HTTP/1.1",
        body: Sent::Bytes("[1]"),
        begins: "HTTP/1.1 202 ",
        ends: "}",
    },
    Step {
        line: "POST /v1/endpoints/b/events HTTP/1.1",
        body: Sent::Bytes("[2]"),
        begins: "HTTP/1.1 202 ",
        ends: "}",
    },
    Step {
        line: "GET /v1/endpoints/a/events/msg_2 HTTP/1.1",
        body: Sent::Bytes(""),
        begins: "HTTP/1.1 404 ",
        ends: "\r\n\r\n{\"error\":\"UnknownEvent\"}",
    },
];

/// So many pages are asked for after the steps.
const PAGES: u64 = 100;

const PAGE: &str =
    "GET /v1/endpoints/a/events/msg_1 HTTP/1.1\r\nhost: relay\r\ncontent-length: 0\r\n\r\n";

static SETTINGS: Settings = Settings {
    workers: 2,
    intake: 2,
    timeout: 5,
    requests: 12 + PAGES,
};

fn body_of(alloc: Global, body: Sent, port: u16) -> io::Result<Vec<u8>> {
    match body {
        Sent::Bytes(text) => Ok(text.as_bytes().to_vec(alloc)?),
        Sent::Put(max) => {
            let url = format!(in alloc; "http://127.0.0.1:{port}/hook")?;
            let text = format!(in alloc;
                "{{\"url\":\"{url}\",\"max\":{max},\"secrets\":[\"{SECRET}\"]}}"
            )?;
            Ok(text.into_bytes())
        }
        Sent::Long(count) => Ok(vec![in alloc; b'x'; count]?),
        Sent::Cut => Ok(b"abcd".to_vec(alloc)?),
    }
}

fn request(alloc: Global, step: &Step, port: u16) -> io::Result<Vec<u8>> {
    let body = body_of(alloc, step.body, port)?;
    let length = match step.body {
        Sent::Cut => 8,
        _ => body.len(),
    };
    let line = step.line;
    let head = format!(in alloc; "{line}\r\nhost: relay\r\ncontent-length: {length}\r\n\r\n")?;
    let mut bytes = head.into_bytes();
    bytes.extend_from_slice(body.as_slice())?;
    Ok(bytes)
}

fn take<R: Net<Stream = TcpStream> + Abort>(
    rt: &R,
    alloc: Global,
    relay: SocketAddr,
    port: u16,
    step: &Step,
) -> io::Result<()> {
    let sent = request(alloc, step, port)?;
    let is_cut = matches!(step.body, Sent::Cut);
    let came = exchange(rt, alloc, relay, sent.as_slice(), is_cut)?;
    let came = came.as_slice();
    holds(rt, came.starts_with(step.begins.as_bytes()), step.line);
    holds(rt, came.ends_with(step.ends.as_bytes()), step.line);
    holds(rt, came.is_empty() == is_cut, step.line);
    Ok(())
}

// Takes all steps, and asks for the event's page until all pages were given: whether one said that it is delivered.
fn submit<R: Net<Stream = TcpStream> + Clock + Abort>(
    rt: &R,
    alloc: Global,
    relay: SocketAddr,
    port: u16,
) -> io::Result<bool> {
    for step in &STEPS {
        take(rt, alloc, relay, port, step)?;
    }
    let mut is_delivered = false;
    for _ in 0..PAGES {
        let page = exchange(rt, alloc, relay, PAGE.as_bytes(), false)?;
        if page.as_slice().ends_with(b"\"state\":\"delivered\"}") {
            is_delivered = true;
        }
        if !is_delivered {
            thread::sleep(rt, Duration::from_millis(20));
        }
    }
    Ok(is_delivered)
}

// Answers two posts with 200: the first is that of the first event.
fn subscribe(alloc: Global, listener: &TcpListener, port: u16) -> io::Result<bool> {
    let (mut first, came) = take_post(alloc, listener, 2)?;
    first.write_all(b"HTTP/1.1 200 OK\r\ncontent-length: 0\r\n\r\n")?;
    let (mut second, _) = take_post(alloc, listener, 65_536)?;
    second.write_all(b"HTTP/1.1 200 OK\r\ncontent-length: 0\r\n\r\n")?;
    let wanted = format!(in alloc;
        "POST /hook HTTP/1.1\r\nhost: 127.0.0.1:{port}\r\nuser-agent: relayd/1\r\ncontent-type: application/json\r\n\
            content-length: 2\r\nconnection: close\r\nwebhook-id: msg_1\r\nwebhook-timestamp: "
    )?;
    Ok(came.as_slice().starts_with(wanted.as_bytes()))
}

// Whether it is the last event of the steps.
fn is_last_event(event: &Acknowledged) -> bool {
    let wanted: &[u8] = b"[2]";
    match Name::read(b"b") {
        Ok(name) => event.name() == name && event.body().as_bytes() == wanted,
        Err(_) => false,
    }
}

// A relay over this store, those who submit to it and their subscriber, each in a thread of its own.
fn over<L, S, R>(
    rt: &R,
    alloc: Global,
    blank: Blank,
    conn: Connection<S>,
    listener: &TcpListener,
    far: &TcpListener,
) -> Result<(), Fail>
where
    L: Ledger + Send + Sync,
    S: Alter + Drop + Send,
    R: Host + Eprint,
    requires name { blank.name ≡ L.name }
    requires parts { blank.parts ≡ L.parts }
    requires enough { blank.parts ≡ PARTS }
{
    let (relay, port) = (listener.local_addr()?, far.local_addr()?.port());
    if !conn.is_autocommit() {
        return Err(Fail::from("the store is in a transaction"));
    }
    let Ok((desk, vault)) = create::<L, S>(alloc, blank, conn, MARK) else {
        return Err(Fail::from("the store wasn't made"));
    };
    let ((served, acknowledged), (told, posted)) = thread::join(
        rt,
        move || {
            let (_vault, ended, acknowledged) = serve_opened(
                rt, listener, relay, desk, vault, InMemory, SETTINGS,
            );
            (
                ended.is_ok(),
                acknowledged.is_some_and(|event| is_last_event(&event)),
            )
        },
        move || {
            thread::join(
                rt,
                move || submit(rt, alloc, relay, port),
                move || subscribe(alloc, far, port),
            )
        },
    );
    holds(rt, served, "the relay ends by itself");
    holds(
        rt,
        acknowledged,
        "the last event is the one acknowledged last",
    );
    holds(rt, told?, "the event's page says that it is delivered");
    holds(rt, posted?, "the event is posted");
    Ok(())
}

#[test]
fn worked_requests_are_answered_and_the_event_is_posted(rt: HostRuntime) -> Result<(), Fail> {
    let listener = TcpListener::bind(&rt, (Ipv4Addr::LOCALHOST, 0))?;
    let far = TcpListener::bind(&rt, (Ipv4Addr::LOCALHOST, 0))?;
    let conn = Connection::open_in_memory(rt.alloc())?;
    over::<Brand, MemStore, HostRuntime>(&rt, rt.alloc(), Blank::new(PARTS), conn, &listener, &far)
}
