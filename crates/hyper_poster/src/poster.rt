//! Who posts over sockets.
ghost use Rattle.std.specs.Prelude.{◌≡◌, ◌<◌, ◌/◌, ◌^◌, Err, IfOk};
ghost use Rattle.std.specs.Duration.{as_nanos};
ghost use Rattle.hyper_poster.specs.Answers.{MayAnswerWithin, answer_of};

use crate::exchange::exchange;
use crate::failure::Failure;
use crate::look_up::Resolver;
use http::StatusCode;
use retry_table::{PostResult, Status};
use std::alloc::{AllocError, AllocGlobal};
use std::marker::Model;
use std::net::{Net, TcpListener, TcpStream};
use std::random::RandomSource;
use std::sync::Wait;
use std::thread::Threads;
use std::time::{Clock, Duration};
use webhook_request::{Outgoing, Poster};

/// Posts each request over a connection of its own. A head within the timeout is an answer, whatever follows it.
#[derive(Drop)]
pub struct HyperPoster<R: Wait + Copy> {
    rt: R,
    // in microseconds
    timeout: u64,
    resolver: Resolver<R>,
}

impl<R: Wait + Copy> Model for HyperPoster<R> {
    ghost use Rattle.std.specs.Prelude.{ℕ};

    ghost Value = { ℕ };

    ghost view = { λ p. p.timeout };
}

impl<R> HyperPoster<R>
where
    R: Wait
        + Threads
        + Net<Listener = TcpListener, Stream = TcpStream>
        + AllocGlobal
        + Copy
        + Send
        + 'static,
{
    /// A poster whose subscribers have so long for the head of their answer, from before their host
    /// is looked up. It starts a thread.
    pub fn new(rt: R, timeout: Duration) -> Result<HyperPoster<R>, AllocError>
        ensures { as_nanos timeout / 1_000 < 2 ^ 64 → IfOk result (λ poster. poster ≡ as_nanos timeout / 1_000) }
    {
        let resolver = Resolver::start(rt)?;
        Ok(HyperPoster {
            rt,
            timeout: micros(timeout),
            resolver,
        })
    }
}

impl<R> Poster for HyperPoster<R>
where
    R: Wait + Clock + Net + RandomSource + AllocGlobal + Copy,
{
    ghost use Rattle.hyper_poster.specs.Answers.{MayAnswerWithin};

    ghost may_answer = { λ timeout _ result. MayAnswerWithin timeout result };

    fn post(&self, outgoing: &Outgoing) -> PostResult {
        let timeout = Duration::from_micros(self.timeout);
        let ended = exchange(&self.rt, &self.resolver, outgoing, timeout);
        result_of(ended, self.timeout)
    }
}

// What an exchange comes to.
fn result_of(ended: Result<(StatusCode, Duration), Failure>, timeout: u64) -> PostResult
    ensures may { MayAnswerWithin timeout result }
    ensures answered { IfOk ended (λ came. as_nanos came.1 / 1_000 < 2 ^ 64
        → result ≡ answer_of came.0 (as_nanos came.1 / 1_000) timeout) }
    ensures late { ended ≡ Err Failure.Late → result ≡ PostResult.TimedOut timeout }
    ensures unreached { ended ≡ Err Failure.Unreached → result ≡ PostResult.Unreached }
    ensures unsent { ended ≡ Err Failure.Unsent → result ≡ PostResult.Unsent }
{
    match ended {
        Ok((status, taken)) => answer(status, micros(taken), timeout),
        Err(Failure::Late) => PostResult::TimedOut { rtt: timeout },
        Err(Failure::Unreached) => PostResult::Unreached,
        Err(Failure::Unsent) => PostResult::Unsent,
    }
}

// The answer of a head that was read after so many microseconds.
fn answer(status: StatusCode, rtt: u64, timeout: u64) -> PostResult
    ensures value { result ≡ answer_of status rtt timeout }
    ensures may { MayAnswerWithin timeout result }
{
    if timeout < rtt {
        return PostResult::TimedOut { rtt: timeout };
    }
    match Status::of(status.as_u16()) {
        Some(status) => PostResult::Answered { status, rtt },
        None => unreachable!(),
    }
}

// Whole microseconds.
fn micros(time: Duration) -> u64
    ensures { as_nanos time / 1_000 < 2 ^ 64 → result ≡ as_nanos time / 1_000 }
{
    u64::try_from(time.as_micros()).unwrap_or(u64::MAX)
}
