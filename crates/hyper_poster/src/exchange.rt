//! One request and the head of its answer, over a connection of its own, against one deadline.
ghost use Rattle.std.specs.Prelude.{◌≡◌, Ok, Err, IfOk, IfErr};
ghost use Rattle.http.specs.Response.{head_of};

use crate::failure::Failure;
use crate::look_up::Resolver;
use crate::request::http_request;
use bytes::Bytes;
use futures::future::{Either, select};
use http::{Request, Response, StatusCode};
use http_body_util::Full;
use hyper::body::Incoming;
use hyper::client::conn::http1::{ResponseFuture, handshake};
use std::alloc::AllocGlobal;
use std::hash::RandomState;
use std::net::{HostAddrs, Net, SocketAddr};
use std::random::RandomSource;
use std::str;
use std::sync::Wait;
use std::time::{Clock, Duration, Instant};
use tokio::net::TcpStream;
use tokio::runtime::LocalRuntime;
use webhook_request::Outgoing;

// Looks the subscriber up, sends the request and waits for the head of its answer, all within the
// timeout: its status, and the time from before the connection until it was read.
pub(crate) fn exchange<R>(
    rt: &R,
    resolver: &Resolver<R>,
    outgoing: &Outgoing,
    timeout: Duration,
) -> Result<(StatusCode, Duration), Failure>
where
    R: Wait + Clock + Net + RandomSource + AllocGlobal + Copy,
{
    let request = http_request(rt.alloc(), outgoing)?;
    let mut runtime = LocalRuntime::new(rt).map_err(Failure::before)?;
    let Reached {
        socket,
        start,
        deadline,
    } = reach(rt, &mut runtime, resolver, outgoing, timeout)?;
    let status = send(rt, &mut runtime, socket, request, deadline)?;
    Ok((status, start.elapsed(rt).unwrap_or(timeout)))
}

// A connection to the subscriber, when it was asked for, and until when the exchange may last.
#[derive(Drop)]
struct Reached {
    socket: TcpStream,
    start: Instant,
    deadline: Instant,
}

// Looks the subscriber up and connects to it.
fn reach<R>(
    rt: &R,
    runtime: &mut LocalRuntime,
    resolver: &Resolver<R>,
    outgoing: &Outgoing,
    timeout: Duration,
) -> Result<Reached, Failure>
where
    R: Wait + Clock + Net + RandomSource + AllocGlobal + Copy,
{
    let begun = Instant::now(rt).map_err(Failure::before)?;
    let Some(deadline) = begun.checked_add(timeout) else {
        return Err(Failure::Late);
    };
    let Ok(host) = str::from_utf8(outgoing.host()) else {
        return Err(Failure::Unreached);
    };
    let addresses = resolver.addresses(host, outgoing.port(), left(rt, deadline))?;
    let start = Instant::now(rt).map_err(Failure::before)?;
    let socket = connect(rt, runtime, addresses, deadline)?;
    Ok(Reached {
        socket,
        start,
        deadline,
    })
}

// What is left until the deadline.
fn left<R: Clock>(rt: &R, deadline: Instant) -> Duration {
    match Instant::now(rt) {
        Ok(now) => deadline.saturating_duration_since(now),
        Err(_) => Duration::ZERO,
    }
}

// A connection to the first of the addresses that takes one.
fn connect<R>(
    rt: &R,
    runtime: &mut LocalRuntime,
    addresses: HostAddrs,
    deadline: Instant,
) -> Result<TcpStream, Failure>
where
    R: Wait + Clock + Net + RandomSource + AllocGlobal,
{
    for address in addresses {
        match connect_to(rt, runtime, address, deadline) {
            Err(Failure::Unreached) => {}
            ended => return ended,
        }
    }
    Err(Failure::Unreached)
}

fn connect_to<R>(
    rt: &R,
    runtime: &mut LocalRuntime,
    address: SocketAddr,
    deadline: Instant,
) -> Result<TcpStream, Failure>
where
    R: Wait + Clock + Net + RandomSource + AllocGlobal,
{
    let connecting = TcpStream::connect(rt, address, runtime.handle().reactor());
    let timed = runtime
        .handle()
        .time()
        .timeout(rt, left(rt, deadline), connecting)
        .map_err(Failure::before)?;
    match runtime.block_on(rt, timed).map_err(Failure::before)? {
        Ok(connected) => connected.map_err(Failure::of),
        Err(_elapsed) => Err(Failure::Late),
    }
}

// Hands the request to the connection, and waits for the head of the answer.
fn send<R>(
    rt: &R,
    runtime: &mut LocalRuntime,
    socket: TcpStream,
    request: Request<Full<Bytes>>,
    deadline: Instant,
) -> Result<StatusCode, Failure>
where
    R: Wait + Clock + Net + RandomSource + AllocGlobal,
{
    let keys = RandomState::new(rt).map_err(Failure::before)?;
    let Ok((mut sender, connection)) = handshake(rt.alloc(), keys, socket) else {
        return Err(Failure::Unsent);
    };
    let answer = sender.send_request(request);
    drop(sender);
    let both = select(answer, connection);
    let timed = runtime
        .handle()
        .time()
        .timeout(rt, left(rt, deadline), both)
        .map_err(Failure::before)?;
    match runtime.block_on(rt, timed) {
        Ok(Ok(Either::Left((answered, _connection)))) => status_of(answered),
        // The connection ended first: its answer is there, or none comes.
        Ok(Ok(Either::Right((_ended, answer)))) => status_after(rt, runtime, answer),
        Ok(Err(_elapsed)) => Err(Failure::Late),
        Err(_) => Err(Failure::Unreached),
    }
}

// The status of an answer whose connection has ended.
fn status_after<R>(
    rt: &R,
    runtime: &mut LocalRuntime,
    answer: ResponseFuture,
) -> Result<StatusCode, Failure>
where
    R: Wait + Clock + Net + RandomSource + AllocGlobal,
{
    match runtime.block_on(rt, answer) {
        Ok(answered) => status_of(answered),
        Err(_) => Err(Failure::Unreached),
    }
}

// The status of an answer.
fn status_of(answered: hyper::Result<Response<Incoming>>) -> Result<StatusCode, Failure>
    ensures answered { IfOk answered (λ response. result ≡ Ok (head_of response).status) }
    ensures unreached { IfErr answered (λ _. result ≡ Err Failure.Unreached) }
{
    match answered {
        Ok(response) => Ok(response.status()),
        Err(_) => Err(Failure::Unreached),
    }
}
