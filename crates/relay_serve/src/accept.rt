//! The loop of a thread that takes requests.
use crate::relay::Relay;
use hyper::rt::TokioTimer;
use hyper::server::conn::http1;
use hyper_intake::Intake;
use intake_shed::LatestAck;
use run_log::LogId;
use std::alloc::AllocGlobal;
use std::hash::RandomState;
use std::io::Read;
use std::net::{Net, Shutdown, SocketAddr, TcpListener, TcpStream};
use std::random::RandomSource;
use std::sync::ledger::Ledger;
use std::sync::{Arc, Mutex, Wait};
use std::time::{Clock, Duration, Instant};
use std::{io, thread};
use tokio::runtime::LocalRuntime;

/// A request's head is whole so many seconds after the connection, or the connection is closed.
const HEAD_SECONDS: u64 = 10;

/// A request is answered so many seconds after the connection, or the connection is closed.
const REQUEST_SECONDS: u64 = 30;

/// What a client still sends after its answer is read for so many seconds at most.
const DRAIN_SECONDS: u64 = 5;

/// How many bytes are read at once then.
const DRAINED: usize = 4096;

const PAUSE_MILLIS: u64 = 10;

/// Takes one connection after another, until the end was asked for. Where the system refuses one it
/// goes on after a moment.
pub(crate) fn take_requests<R, L, I>(
    rt: &R,
    listener: &TcpListener,
    relay: &Relay<L, I>,
    latest: &Arc<Mutex<LatestAck<I>>>,
    requests: u64,
) -> io::Result<()>
where
    R: Wait + Clock + Net + RandomSource + AllocGlobal + Copy,
    L: Ledger,
    I: LogId,
{
    let mut runtime = LocalRuntime::new(rt)?;
    let http = http_builder(rt, &runtime)?;
    for _ in rt.forever() {
        if relay.is_closing(rt) {
            return Ok(());
        }
        match listener.accept() {
            Ok((socket, _peer)) => {
                if relay.is_closing(rt) {
                    return Ok(());
                }
                let _ended = serve_one(rt, &mut runtime, &http, relay, latest, socket);
                relay.end_after(rt, requests);
            }
            Err(_) => thread::sleep(rt, Duration::from_millis(PAUSE_MILLIS)),
        }
    }
    unreachable!()
}

fn http_builder<R>(rt: &R, runtime: &LocalRuntime) -> io::Result<http1::Builder<TokioTimer<R>>>
where
    R: Clock + RandomSource + AllocGlobal + Copy,
{
    let timers = runtime.handle().time().clone()?;
    let keys = RandomState::new(rt)?;
    let mut http = http1::Builder::new(rt.alloc(), keys).timer(TokioTimer::new(*rt, timers));
    http.keep_alive(false)
        .half_close(true)
        .header_read_timeout(Some(Duration::from_secs(HEAD_SECONDS)));
    Ok(http)
}

// Serves the request of a connection.
fn serve_one<R, L, I>(
    rt: &R,
    runtime: &mut LocalRuntime,
    http: &http1::Builder<TokioTimer<R>>,
    relay: &Relay<L, I>,
    latest: &Arc<Mutex<LatestAck<I>>>,
    socket: TcpStream,
) -> io::Result<()>
where
    R: Wait + Clock + RandomSource + AllocGlobal + Copy,
    L: Ledger,
    I: LogId,
{
    // (without a descriptor for this the request is served all the same)
    let sent = socket.try_clone().ok();
    let socket = tokio::net::TcpStream::from_std(socket, runtime.handle().reactor())?;
    let shared = Arc::try_clone(&relay.shared)?;
    let latest = Arc::try_clone(latest)?;
    let answered = Arc::try_clone(&relay.answered)?;
    let connection = http.serve_connection(socket, Intake::new(*rt, shared, latest, answered));
    let limit = Duration::from_secs(REQUEST_SECONDS);
    let timed = runtime.handle().time().timeout(rt, limit, connection)?;
    let ended = runtime.block_on(rt, timed)?;
    match sent {
        Some(sent) if ended.is_ok() => drain(rt, &sent),
        _ => Ok(()),
    }
}

// Reads what a client still sends, once it is answered. If the socket were closed before that, the
// client's system would report a reset, perhaps in place of the answer (RFC 9112, section 9.6).
fn drain<R: Wait + Clock>(rt: &R, mut socket: &TcpStream) -> io::Result<()> {
    let mut bytes = [0; DRAINED];
    if socket.peek(&mut bytes)? == 0 {
        return Ok(());
    }
    socket.shutdown(Shutdown::Write)?;
    socket.set_nonblocking(false)?;
    socket.set_read_timeout(Some(Duration::from_secs(1)))?;
    let began = Instant::now(rt)?;
    let limit = Duration::from_secs(DRAIN_SECONDS);
    for _ in rt.forever() {
        if socket.read(&mut bytes)? == 0 || began.elapsed(rt)? >= limit {
            return Ok(());
        }
    }
    unreachable!()
}

/// Makes the threads that wait for a connection look whether the end was asked for, until all of
/// them have ended. If the system has no socket for that, it tries again after a moment. A
/// connection takes a second if too many wait, so none is made once all have ended.
pub(crate) fn wake<L: Ledger, I: LogId, R: Wait + Clock + Net>(
    rt: &R,
    bound: SocketAddr,
    relay: &Relay<L, I>,
) {
    for _ in rt.forever() {
        for _ in 0..relay.running() {
            if relay.running() > 0 {
                drop(TcpStream::connect_timeout(rt, &bound, Duration::from_secs(1)));
            }
        }
        if relay.running() == 0 {
            return;
        }
        thread::sleep(rt, Duration::from_millis(PAUSE_MILLIS));
    }
    unreachable!()
}
