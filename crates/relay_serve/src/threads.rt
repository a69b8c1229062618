//! The threads of a relay.
ghost use Rattle.std.specs.Prelude.{IsTrue};
ghost use Rattle.delivery.specs.Keepers.{AddsRecords, AppendsBatches, IsOfKeeper, KeepsLog};

use crate::accept::{take_requests, wake};
use crate::host::Host;
use crate::relay::Relay;
use crate::work::work;
use command_interface::Settings;
use delivery::{CommitterEnd, Ended, Keeper, LoggedKeeper, committer_run};
use intake_shed::LatestAck;
use run_log::LogId;
use std::alloc::AllocGlobal;
use std::net::{Net, SocketAddr, TcpListener, TcpStream};
use std::random::RandomSource;
use std::sync::ledger::Ledger;
use std::sync::{Arc, Mutex, Wait};
use std::thread;
use std::time::Clock;

/// Runs the threads of the intake and the workers, and the committer on this one, until the end was
/// asked for or the committer gives up. All other threads have ended then. If the end was asked
/// for, the committer runs once more, and commits what posts under way came to meanwhile. It gives
/// the keeper back, as the committer does.
pub(crate) fn run_threads<L, I, K, R>(
    rt: &R,
    listener: &TcpListener,
    bound: SocketAddr,
    relay: &Relay<L, I>,
    logged: LoggedKeeper<I, K>,
    settings: Settings,
) -> (LoggedKeeper<I, K>, Ended)
where
    L: Ledger + Send + Sync,
    I: LogId + Send + Sync,
    K: Keeper + Drop,
    R: Host + Net<Listener = TcpListener, Stream = TcpStream>,
    ensures rows { K.is_clean result.0.keeper → AddsRecords K.holds K.in_doubt logged.keeper result.0.keeper result.1 }
    ensures logged { K.is_clean result.0.keeper
        → KeepsLog K.holds K.in_doubt logged.keeper logged.writer result.0.keeper result.0.writer result.1 }
    ensures appended { AppendsBatches logged.writer result.0.writer }
    ensures clean { K.is_clean result.0.keeper → K.is_clean logged.keeper }
    ensures closed { IsOfKeeper result.1 → IsTrue (K.closed result.0.keeper) }
{
    let (logged, end) = run_together(rt, listener, bound, relay, logged, settings);
    match end.how() {
        CommitterEnd::Finished => committer_run(rt, &relay.shared, logged),
        CommitterEnd::Halted(_) => (logged, end),
    }
}

// The same, without what the posts under way came to.
fn run_together<L, I, K, R>(
    rt: &R,
    listener: &TcpListener,
    bound: SocketAddr,
    relay: &Relay<L, I>,
    logged: LoggedKeeper<I, K>,
    settings: Settings,
) -> (LoggedKeeper<I, K>, Ended)
where
    L: Ledger + Send + Sync,
    I: LogId + Send + Sync,
    K: Keeper + Drop,
    R: Host + Net<Listener = TcpListener, Stream = TcpStream>,
    ensures rows { K.is_clean result.0.keeper → AddsRecords K.holds K.in_doubt logged.keeper result.0.keeper result.1 }
    ensures logged { K.is_clean result.0.keeper
        → KeepsLog K.holds K.in_doubt logged.keeper logged.writer result.0.keeper result.0.writer result.1 }
    ensures appended { AppendsBatches logged.writer result.0.writer }
    ensures clean { K.is_clean result.0.keeper → K.is_clean logged.keeper }
    ensures closed { IsOfKeeper result.1 → IsTrue (K.closed result.0.keeper) }
{
    thread::scope(
        thread::scope_env(),
        rt,
        move |scope|
            ensures rows { K.is_clean result.0.keeper
                → AddsRecords K.holds K.in_doubt logged.keeper result.0.keeper result.1 }
            ensures logged { K.is_clean result.0.keeper
                → KeepsLog K.holds K.in_doubt logged.keeper logged.writer result.0.keeper result.0.writer result.1 }
            ensures appended { AppendsBatches logged.writer result.0.writer }
            ensures clean { K.is_clean result.0.keeper → K.is_clean logged.keeper }
            ensures closed { IsOfKeeper result.1 → IsTrue (K.closed result.0.keeper) }
        {
            for latest in &relay.latest {
                relay.start();
                let started = scope.spawn(move || intake_thread(
                    rt,
                    listener,
                    relay,
                    latest,
                    settings.requests,
                ));
                if started.is_err() {
                    relay.stop();
                    relay.fail_to_start(rt);
                }
            }
            for _ in 0..settings.workers {
                let started = scope.spawn(move || work(rt, relay, settings.timeout));
                if started.is_err() {
                    relay.fail_to_start(rt);
                }
            }
            let ended = committer_run(rt, &relay.shared, logged);
            relay.shared.finish(rt);
            wake(rt, bound, relay);
            ended
        },
    )
}

// A thread of the intake.
fn intake_thread<L, I, R>(
    rt: &R,
    listener: &TcpListener,
    relay: &Relay<L, I>,
    latest: &Arc<Mutex<LatestAck<I>>>,
    requests: u64,
)
where
    L: Ledger,
    I: LogId,
    R: Wait + Clock + Net + RandomSource + AllocGlobal + Copy,
{
    if take_requests(rt, listener, relay, latest, requests).is_err() {
        relay.fail_to_start(rt);
    }
    relay.stop();
}
