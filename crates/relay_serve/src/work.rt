//! The loop of a worker.
use crate::operator_log::{LogLine, print_log_line};
use crate::relay::Relay;
use delivery::{Pass, Round, worker_round};
use hyper_poster::HyperPoster;
use relay_host::HostClock;
use retry_table::{PostResult, is_gone, judge};
use run_log::LogId;
use std::alloc::AllocGlobal;
use std::io::Eprint;
use std::net::{Net, TcpListener, TcpStream};
use std::random::RandomSource;
use std::sync::Wait;
use std::sync::ledger::Ledger;
use std::thread::Threads;
use std::time::{Clock, Duration};

/// Posts what is due, until the end was asked for or the desk is halted. It rests where nothing is
/// due, and where memory was refused.
pub(crate) fn work<L, I, R>(rt: &R, relay: &Relay<L, I>, timeout: u64)
where
    L: Ledger,
    I: LogId,
    R: Wait
        + Threads
        + Clock
        + Net<Listener = TcpListener, Stream = TcpStream>
        + RandomSource
        + AllocGlobal
        + Eprint
        + Copy
        + Send
        + 'static,
{
    let Ok(poster) = HyperPoster::new(*rt, Duration::from_secs(timeout)) else {
        relay.fail_to_start(rt);
        return;
    };
    let clock = HostClock::new(rt);
    let mut pass = Pass::new();
    for _ in rt.forever() {
        let round = worker_round(rt, rt.alloc(), &relay.shared, &poster, &clock, &mut pass);
        match &round {
            Round::Posted {
                result: PostResult::Unsent,
                ..
            }
            | Round::Idle
            | Round::NoMemory
            | Round::WentBack(_) => relay.shared.rest(rt, &pass),
            Round::Posted { .. } => log_post(rt, &round),
            Round::Halted | Round::Closing => return,
        }
    }
    unreachable!()
}

// Tells of a post that disabled its endpoint, and of one after which its event is given up.
fn log_post<R: Clock + AllocGlobal + Eprint>(rt: &R, round: &Round) {
    let Round::Posted {
        post,
        request,
        result: answer,
        spent,
    } = round
    else {
        return;
    };
    let endpoint = post.endpoint();
    if matches!(judge(answer), (_, Some(status)) if is_gone(status)) {
        print_log_line(rt, rt.alloc(), &LogLine::Disabled { endpoint, request });
    }
    if spent.is_exhausted() {
        print_log_line(rt, rt.alloc(), &LogLine::Exhausted { endpoint, request });
    }
}
