//! Hosts by their names: look-ups that are slow or refused, and a host with two addresses.

use crate::given::{Host, holds};
use crate::outgoing::request_to;
use crate::wires::take_post;
use hyper_poster::HyperPoster;
use retry_table::PostResult;
use std::alloc::{Alloc, AllocError, AllocGlobal, Global};
use std::fs::{self, Files};
use std::io::{self, ErrorKind, Write};
use std::net::{Ipv4Addr, Net, SocketAddr, TcpListener, TcpStream};
use std::process::Abort;
use std::random::RandomSource;
use std::sync::Wait;
use std::test::Fail;
use std::thread;
use std::thread::Threads;
use std::time::{Clock, Duration};
use webhook_request::{Outgoing, Poster};

/// What comes of a look-up.
#[derive(Clone, Copy)]
enum LookUp {
    /// Nothing for four seconds.
    Silent,
    /// The system refuses it with this number (errno of Linux).
    Refused(i32),
    /// It fails without a number. A socket is refused with this one, or isn't refused.
    Unknown(Option<i32>),
    /// Two addresses, after so many milliseconds. Nobody listens at the first, and who listens at
    /// the second takes as long to answer.
    Two(u64),
}

/// A runtime with a resolver of its own.
#[derive(Clone, Copy)]
struct Resolving<R> {
    rt: R,
    look_up: LookUp,
}

impl<R: Wait> Wait for Resolving<R> {}

impl<R: Threads> Threads for Resolving<R> {}

impl<R: Alloc> Alloc for Resolving<R> {
    type A = R::A;

    fn alloc(&self) -> R::A {
        self.rt.alloc()
    }
}

impl<R: RandomSource> RandomSource for Resolving<R> {
    fn fill_bytes(&self, buf: &mut [u8]) -> io::Result<()> {
        self.rt.fill_bytes(buf)
    }
}

impl<R: Clock> Clock for Resolving<R> {
    fn monotonic(&self) -> io::Result<Duration> {
        self.rt.monotonic()
    }

    fn since_1970(&self) -> io::Result<Duration> {
        self.rt.since_1970()
    }

    fn sleep(&self, duration: Duration) {
        self.rt.sleep(duration)
    }
}

impl<R: Net<Listener = TcpListener, Stream = TcpStream> + Clock> Net for Resolving<R> {
    type Stream = TcpStream;

    type Listener = TcpListener;

    fn bind(&self, addr: SocketAddr) -> io::Result<TcpListener> {
        match self.look_up {
            LookUp::Unknown(Some(number)) => Err(io::Error::from_raw_os_error(number)),
            _ => self.rt.bind(addr),
        }
    }

    fn connect(&self, addr: SocketAddr) -> io::Result<TcpStream> {
        self.rt.connect(addr)
    }

    fn lookup_host(&self, _host: &str, port: u16, found: &mut [SocketAddr]) -> io::Result<usize> {
        match self.look_up {
            LookUp::Silent => {
                self.rt.sleep(Duration::from_secs(4));
                Ok(0)
            }
            LookUp::Refused(number) => Err(io::Error::from_raw_os_error(number)),
            LookUp::Unknown(_) => Err(ErrorKind::NotFound.into()),
            LookUp::Two(millis) => {
                self.rt.sleep(Duration::from_millis(millis));
                let [first, second, ..] = found else {
                    return Ok(0);
                };
                *first = SocketAddr::from((Ipv4Addr::new(127, 0, 0, 2), port));
                *second = SocketAddr::from((Ipv4Addr::LOCALHOST, port));
                Ok(2)
            }
        }
    }
}

/// What comes of a post: its status, by its own word how long it took in microseconds, or that it wasn't answered.
#[derive(Clone, Copy, PartialEq, Eq)]
enum Wanted {
    Status(u16),
    TimedOut(u64),
    Unreached,
    Unsent,
}

struct Case {
    name: &'static str,
    look_up: LookUp,
    wanted: Wanted,
}

/// How long a post of a case may take, and one of a crowd.
const SECOND: u64 = 1_000_000;

const MOMENT: u64 = 20_000;

static CASES: [Case; 11] = [
    Case {
        name: "a host with two addresses",
        look_up: LookUp::Two(0),
        wanted: Wanted::Status(200),
    },
    Case {
        name: "a look-up and an answer that are late together",
        look_up: LookUp::Two(600),
        wanted: Wanted::TimedOut(SECOND),
    },
    Case {
        name: "a look-up that doesn't end",
        look_up: LookUp::Silent,
        wanted: Wanted::TimedOut(SECOND),
    },
    Case {
        name: "no descriptor for the process",
        look_up: LookUp::Refused(24),
        wanted: Wanted::Unsent,
    },
    Case {
        name: "no descriptor for the system",
        look_up: LookUp::Refused(23),
        wanted: Wanted::Unsent,
    },
    Case {
        name: "no room for a socket",
        look_up: LookUp::Refused(105),
        wanted: Wanted::Unsent,
    },
    Case {
        name: "no memory",
        look_up: LookUp::Refused(12),
        wanted: Wanted::Unsent,
    },
    Case {
        name: "no route to a resolver",
        look_up: LookUp::Refused(113),
        wanted: Wanted::Unreached,
    },
    Case {
        name: "an unknown name",
        look_up: LookUp::Unknown(None),
        wanted: Wanted::Unreached,
    },
    Case {
        name: "an unknown name, and no descriptor for a socket",
        look_up: LookUp::Unknown(Some(24)),
        wanted: Wanted::Unsent,
    },
    Case {
        name: "an unknown name, and no address for a socket",
        look_up: LookUp::Unknown(Some(99)),
        wanted: Wanted::Unreached,
    },
];

fn is_wanted(post: PostResult, wanted: Wanted) -> bool {
    match post {
        PostResult::Answered { status, .. } => wanted == Wanted::Status(status.get()),
        PostResult::TimedOut { rtt } => wanted == Wanted::TimedOut(rtt),
        PostResult::Unreached => wanted == Wanted::Unreached,
        PostResult::Unsent => wanted == Wanted::Unsent,
    }
}

fn poster<R: Host>(
    rt: R,
    look_up: LookUp,
    micros: u64,
) -> Result<HyperPoster<Resolving<R>>, AllocError> {
    HyperPoster::new(Resolving { rt, look_up }, Duration::from_micros(micros))
}

// Answers one post, after so many milliseconds. Nobody may read it any more.
fn answer<R: Clock>(rt: &R, alloc: Global, listener: &TcpListener, millis: u64) -> io::Result<()> {
    let (mut socket, _) = take_post(alloc, listener, 2)?;
    thread::sleep(rt, Duration::from_millis(millis));
    let _sent = socket.write_all(b"HTTP/1.1 200 OK\r\n\r\n");
    Ok(())
}

// Answers the post of each case whose look-up finds the subscriber.
fn answer_all<R: Clock>(rt: &R, alloc: Global, listener: &TcpListener) -> io::Result<()> {
    for case in &CASES {
        if let LookUp::Two(millis) = case.look_up {
            answer(rt, alloc, listener, millis)?;
        }
    }
    Ok(())
}

fn post_all<R: Host>(rt: &R, request: &Outgoing) -> Result<(), AllocError> {
    for case in &CASES {
        let result = poster(*rt, case.look_up, SECOND)?.post(request);
        holds(rt, is_wanted(result, case.wanted), case.name);
    }
    Ok(())
}

/// So many look-ups of one poster may be under way.
const MOST: u32 = 32;

// Posts until too many look-ups are under way, none of which ends in time.
fn crowd<R: Abort, P: Poster>(rt: &R, poster: &P, request: &Outgoing) {
    for _ in 0..MOST {
        let late = poster.post(request);
        holds(
            rt,
            is_wanted(late, Wanted::TimedOut(MOMENT)),
            "it is given up",
        );
    }
    let refused = poster.post(request);
    holds(
        rt,
        is_wanted(refused, Wanted::Unsent),
        "too many are under way",
    );
}

// Once they have ended, as many more may be.
fn two_crowds<R: Host>(rt: &R, request: &Outgoing) -> Result<(), AllocError> {
    let poster = poster(*rt, LookUp::Silent, MOMENT)?;
    crowd(rt, &poster, request);
    thread::sleep(rt, Duration::from_millis(4500));
    crowd(rt, &poster, request);
    Ok(())
}

fn meet<R: Host>(
    rt: &R,
    alloc: Global,
    listener: TcpListener,
    request: &Outgoing,
) -> io::Result<()> {
    let (answered, posted) = thread::join(
        rt,
        move || answer_all(rt, alloc, &listener),
        || post_all(rt, request),
    );
    answered?;
    posted?;
    Ok(two_crowds(rt, request)?)
}

#[test]
fn a_look_up_takes_no_longer_than_a_post(rt: HostRuntime) -> Result<(), Fail> {
    let listener = TcpListener::bind(&rt, (Ipv4Addr::LOCALHOST, 0))?;
    let port = listener.local_addr()?.port();
    let request = request_to(&rt, rt.alloc(), "subscriber.test", port)?;
    Ok(meet(&rt, rt.alloc(), listener, &request)?)
}

/// So many posters are made, each of which is dropped at once.
const POSTERS: u64 = 200;

fn make_and_drop<R>(rt: &R) -> Result<(), AllocError>
where
    R: Wait
        + Threads
        + Net<Listener = TcpListener, Stream = TcpStream>
        + AllocGlobal
        + Copy
        + Send
        + 'static,
{
    for _ in 0..POSTERS {
        let _poster = HyperPoster::new(*rt, Duration::from_secs(1))?;
    }
    Ok(())
}

// How many threads the process has (proc(5)).
fn threads<R: Files + AllocGlobal>(rt: &R) -> io::Result<u64> {
    let status = fs::read_to_string(rt, "/proc/self/status")?;
    for line in status.as_str().lines() {
        if let Some(count) = line.strip_prefix("Threads:") {
            return match count.trim().parse::<u64>() {
                Ok(count) => Ok(count),
                Err(_) => Err(ErrorKind::InvalidData.into()),
            };
        }
    }
    Err(ErrorKind::InvalidData.into())
}

// Whether the process has fewer threads than so many, after ten seconds at most.
fn are_fewer<R: Files + AllocGlobal + Clock>(rt: &R, most: u64) -> io::Result<bool> {
    for _ in 0..1000 {
        if threads(rt)? < most {
            return Ok(true);
        }
        thread::sleep(rt, Duration::from_millis(10));
    }
    Ok(false)
}

#[test]
fn the_thread_of_a_poster_ends_with_it(rt: HostRuntime) -> Result<(), Fail> {
    let before = threads(&rt)?;
    make_and_drop(&rt)?;
    let most = before.saturating_add(POSTERS / 2);
    holds(&rt, are_fewer(&rt, most)?, "the threads end");
    Ok(())
}
