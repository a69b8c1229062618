//! Posts to subscribers, of which some misbehave.
use crate::given::{Host, holds};
use crate::outgoing::request_to;
use crate::wires::take_post;
use hyper_poster::HyperPoster;
use retry_table::PostResult;
use std::alloc::Global;
use std::io::{self, Write};
use std::net::{Ipv4Addr, TcpListener, TcpStream};
use std::process::Abort;
use std::test::Fail;
use std::thread;
use std::time::{Clock, Duration};
use webhook_request::{Outgoing, Poster};

/// What a subscriber does after it has sent its answer.
#[derive(Clone, Copy, PartialEq, Eq)]
enum Then {
    Closes,
    /// It keeps the connection open past the poster's time.
    Stays,
    /// It closes with the request unread, which resets the connection.
    Resets,
    /// It closes, and waits 300 milliseconds before it sends.
    SendsLate,
}

/// What comes of a post, except how long it took.
#[derive(Clone, Copy, PartialEq, Eq)]
enum Wanted {
    Status(u16),
    /// A status, after 300 milliseconds by its own word.
    LateStatus(u16),
    /// After a second, by its own word.
    TimedOut,
    Unreached,
}

/// A subscriber: what it sends once it has the request, and as many times ten letters, and what it does then.
#[derive(Clone, Copy)]
struct Case {
    sends: &'static str,
    tens: usize,
    then: Then,
    wanted: Wanted,
}

static CASES: [Case; 18] = [
    Case {
        sends: "HTTP/1.1 200 OK\r\ncontent-length: 0\r\n\r\n",
        tens: 0,
        then: Then::Closes,
        wanted: Wanted::Status(200),
    },
    Case {
        sends: "HTTP/1.1 410 Gone\r\n\r\n",
        tens: 0,
        then: Then::Closes,
        wanted: Wanted::Status(410),
    },
    Case {
        sends: "HTTP/1.1 999 X\r\n\r\n",
        tens: 0,
        then: Then::Closes,
        wanted: Wanted::Status(999),
    },
    Case {
        sends: "HTTP/1.0 500 X\r\n\r\n",
        tens: 0,
        then: Then::Closes,
        wanted: Wanted::Status(500),
    },
    Case {
        sends: "HTTP/1.1 103 X\r\n\r\nHTTP/1.1 201 X\r\n\r\n",
        tens: 0,
        then: Then::Closes,
        wanted: Wanted::Status(201),
    },
    Case {
        sends: "HTTP/1.1 202 X\r\n\r\n",
        tens: 0,
        then: Then::SendsLate,
        wanted: Wanted::LateStatus(202),
    },
    // A head is an answer, whatever follows it.
    Case {
        sends: "HTTP/1.1 200 OK\r\ncontent-length: 100\r\n\r\nabc",
        tens: 0,
        then: Then::Closes,
        wanted: Wanted::Status(200),
    },
    Case {
        sends: "",
        tens: 0,
        then: Then::Closes,
        wanted: Wanted::Unreached,
    },
    Case {
        sends: "",
        tens: 0,
        then: Then::Resets,
        wanted: Wanted::Unreached,
    },
    Case {
        sends: "abc",
        tens: 0,
        then: Then::Closes,
        wanted: Wanted::Unreached,
    },
    Case {
        sends: "HTTP/1.1 200 OK\r\ncontent-le",
        tens: 0,
        then: Then::Closes,
        wanted: Wanted::Unreached,
    },
    Case {
        sends: "HTTP/1.1 099 X\r\n\r\n",
        tens: 0,
        then: Then::Closes,
        wanted: Wanted::Unreached,
    },
    Case {
        sends: "HTTP/1.1 100 Continue\r\n\r\n",
        tens: 0,
        then: Then::Closes,
        wanted: Wanted::Unreached,
    },
    Case {
        sends: "HTTP/1.1 200 OK\r\ncontent-length: 1\r\ncontent-length: 2\r\n\r\n",
        tens: 0,
        then: Then::Closes,
        wanted: Wanted::Unreached,
    },
    Case {
        sends: "HTTP/1.1 200 OK\r\nx: ",
        tens: 7000,
        then: Then::Closes,
        wanted: Wanted::Unreached,
    },
    // While it stays it takes no other, so the next ones aren't answered in time either.
    Case {
        sends: "HTTP/1.1 204 X\r\ncontent-length: 100\r\n\r\n",
        tens: 0,
        then: Then::Stays,
        wanted: Wanted::Status(204),
    },
    Case {
        sends: "",
        tens: 0,
        then: Then::Stays,
        wanted: Wanted::TimedOut,
    },
    Case {
        sends: "HTTP/1.1 200 OK\r\n",
        tens: 0,
        then: Then::Stays,
        wanted: Wanted::TimedOut,
    },
];

const SECOND: u64 = 1_000_000;

/// In milliseconds.
const LATE: u64 = 300;

// The status that is wanted after so many microseconds.
fn status_after(rtt: u64, status: u16) -> Wanted {
    if rtt < LATE * 1000 {
        Wanted::Status(status)
    } else {
        Wanted::LateStatus(status)
    }
}

fn is_wanted(post: PostResult, wanted: Wanted) -> bool {
    match post {
        PostResult::Answered { status, rtt } => {
            wanted == status_after(rtt, status.get()) && rtt < SECOND
        }
        PostResult::TimedOut { rtt } => wanted == Wanted::TimedOut && rtt == SECOND,
        PostResult::Unreached => wanted == Wanted::Unreached,
        PostResult::Unsent => false,
    }
}

// The subscriber may be told that nobody reads any more.
fn send(socket: &mut TcpStream, case: &Case) -> io::Result<()> {
    socket.write_all(case.sends.as_bytes())?;
    for _ in 0..case.tens {
        if socket.write_all(b"xxxxxxxxxx").is_err() {
            return Ok(());
        }
    }
    Ok(())
}

// Closes a connection whose request came and wasn't read.
fn reset<R: Clock>(rt: &R, listener: &TcpListener) -> io::Result<()> {
    let (_socket, _peer) = listener.accept()?;
    thread::sleep(rt, Duration::from_millis(100));
    Ok(())
}

fn answer<R: Clock>(rt: &R, alloc: Global, listener: &TcpListener, case: &Case) -> io::Result<()> {
    let (mut socket, _) = take_post(alloc, listener, 2)?;
    if case.then == Then::SendsLate {
        thread::sleep(rt, Duration::from_millis(LATE));
    }
    send(&mut socket, case)?;
    if case.then == Then::Stays {
        thread::sleep(rt, Duration::from_millis(1200));
    }
    Ok(())
}

// Serves all cases, each over a connection of its own. Nobody listens after that.
fn subscribe<R: Clock>(rt: &R, alloc: Global, listener: TcpListener) -> io::Result<()> {
    for case in &CASES {
        match case.then {
            Then::Resets => reset(rt, &listener)?,
            Then::Closes | Then::Stays | Then::SendsLate => answer(rt, alloc, &listener, case)?,
        }
    }
    Ok(())
}

// Posts the request to each case in turn.
fn post_all<P: Poster, R: Abort>(rt: &R, poster: &P, request: &Outgoing) {
    for case in &CASES {
        holds(rt, is_wanted(poster.post(request), case.wanted), case.sends);
    }
}

// The subscriber and its poster, each in a thread of its own.
fn meet<R: Host>(
    rt: &R,
    alloc: Global,
    listener: TcpListener,
    request: &Outgoing,
) -> io::Result<()> {
    let poster = HyperPoster::new(*rt, Duration::from_secs(1))?;
    let (served, ()) = thread::join(
        rt,
        move || subscribe(rt, alloc, listener),
        || post_all(rt, &poster, request),
    );
    let unheard = poster.post(request);
    holds(rt, is_wanted(unheard, Wanted::Unreached), "nobody listens");
    served
}

#[test]
fn a_subscriber_may_do_what_it_likes(rt: HostRuntime) -> Result<(), Fail> {
    let listener = TcpListener::bind(&rt, (Ipv4Addr::LOCALHOST, 0))?;
    let port = listener.local_addr()?.port();
    let request = request_to(&rt, rt.alloc(), "127.0.0.1", port)?;
    Ok(meet(&rt, rt.alloc(), listener, &request)?)
}
