//! From the opening of a file to the end of its relay.
ghost use Rattle.std.specs.Prelude.{◌≡◌, ◌++◌, IfSome, IsTrue, List, length};
ghost use Rattle.relay_types.specs.declared.record.Record.{Record};
ghost use Rattle.desk.specs.Desks.{StandsFor};
ghost use Rattle.desk.specs.World.{World, settled_records};
ghost use Rattle.sqlite.specs.State.{HasCleanDisk};
ghost use Rattle.spool_sql.specs.Steps.{IfClean};
ghost use Rattle.permits.specs.declared.pool.TheConstants.{PARTS};
ghost use Rattle.spool.specs.Adopting.{IsOnlyRead};
ghost use Rattle.delivery.specs.Keepers.{IsOfKeeper};
ghost use Rattle.delivery.specs.declared.committer.CommitterEnd.TheVariants.{Finished};
ghost use Rattle.intake_shed.specs.Acks.{HasEvent};
ghost use Rattle.relay_serve.specs.Serving.{AddsEvent, KeepsAcknowledged, KeepsHistory, committer_end};

use crate::fault::ServeFault;
use crate::host::Host;
use crate::opening::open_with_progress;
use crate::operator_log::{LogLine, print_log_line};
use crate::relay::Relay;
use crate::served::Served;
use crate::threads::run_threads;
use command_interface::{ServeWords, Settings};
use delivery::{CommitterEnd, Ended, Keeper, LoggedKeeper, begin_run};
use desk::Desk;
use intake_shed::{Acknowledged, LatestAck};
use permits::PARTS;
use recovery::audit_shown;
use relay_host::{FileCheck, FileGuard, FilePlace, Place};
use run_log::{LogId, NewLog};
use spool::Vault;
use sqlite::Alter;
use std::alloc::{AllocError, AllocGlobal, Global};
use std::io::{Eprint, Print};
use std::marker::Brand;
use std::net::{Net, SocketAddr, TcpListener, TcpStream};
use std::sync::Wait;
use std::sync::ledger::{Blank, Ledger};
use std::time::Clock;

/// Opens the file, and serves at the address until so many requests are answered as the settings
/// say, or the committer gives up.
pub fn serve<R>(host: &HostRuntime, rt: &R, asked: &ServeWords<'_>) -> Result<Served, ServeFault>
where
    R: Host + Net<Listener = TcpListener, Stream = TcpStream> + Print,
{
    let Ok(address) = asked.address.parse::<SocketAddr>() else {
        return Err(ServeFault::BadAddress);
    };
    let Ok(listener) = TcpListener::bind(rt, address) else {
        return Err(ServeFault::CannotListen);
    };
    let Ok(bound) = listener.local_addr() else {
        return Err(ServeFault::CannotListen);
    };
    let blank = Blank::new(PARTS);
    open_and_serve::<Brand, R>(host, rt, blank, &listener, bound, asked)
}

fn open_and_serve<L, R>(
    host: &HostRuntime,
    rt: &R,
    blank: Blank,
    listener: &TcpListener,
    bound: SocketAddr,
    asked: &ServeWords<'_>,
) -> Result<Served, ServeFault>
where
    L: Ledger + Send + Sync,
    R: Host + Net<Listener = TcpListener, Stream = TcpStream> + Print,
    requires name { blank.name ≡ L.name }
    requires parts { blank.parts ≡ L.parts }
    requires enough { blank.parts ≡ PARTS }
{
    let mut place = FilePlace::new(host, rt.alloc(), asked.file)?;
    let (desk, vault) = open_with_progress::<L, R>(host, rt, blank, asked.file)?;
    place.remember();
    serve_logged(rt, listener, bound, desk, vault, place, asked)
}

// Serves, and tells the operator of the start and of the acknowledged event that has the greatest number.
fn serve_logged<L, S, P, R>(
    rt: &R,
    listener: &TcpListener,
    bound: SocketAddr,
    desk: Desk<L>,
    vault: Vault<S>,
    place: P,
    asked: &ServeWords<'_>,
) -> Result<Served, ServeFault>
where
    L: Ledger + Send + Sync,
    S: Alter + Drop,
    P: Place + Drop,
    R: Host + Net<Listener = TcpListener, Stream = TcpStream> + Print,
{
    if println!(rt; "listening on {bound}").is_err() {
        return Err(ServeFault::Write);
    }
    print_log_line(
        rt,
        rt.alloc(),
        &LogLine::Started {
            file: asked.file,
            address: bound,
            totals: desk.totals(),
        },
    );
    let (_vault, ended, acknowledged) = serve_opened(
        rt,
        listener,
        bound,
        desk,
        vault,
        place,
        asked.settings,
    );
    if let Some(event) = acknowledged {
        print_log_line(rt, rt.alloc(), &LogLine::Acknowledged(event.seq()));
    }
    ended
}

/// Serves a desk and its vault, which commits only where its place stands, on the listener, until
/// so many requests are answered as the settings say, or the committer gives up. All threads have
/// ended then, and the vault comes back, with the acknowledged event that has the greatest number.
/// If the relay ended as it was asked to, the rows have to say what the desk says.
pub fn serve_opened<L, S, P, R>(
    rt: &R,
    listener: &TcpListener,
    bound: SocketAddr,
    desk: Desk<L>,
    vault: Vault<S>,
    place: P,
    settings: Settings,
) -> (Vault<S>, Result<Served, ServeFault>, Option<Acknowledged>)
where
    L: Ledger + Send + Sync,
    S: Alter + Drop,
    P: Place + Drop,
    R: Host + Net<Listener = TcpListener, Stream = TcpStream>,
    ensures rows { KeepsHistory S.Store vault result.0 result.1 }
    ensures acknowledged { KeepsAcknowledged S.Store desk vault result.0 result.1 result.2 }
    ensures clean { IfClean S.Store vault.conn result.0.conn (λ old _. HasCleanDisk old) }
    ensures closed { IsOfKeeper (committer_end result.1) → IsTrue result.0.closed }
{
    let (new_log, new_staged) = match new_logs(rt.alloc()) {
        Ok(new_logs) => new_logs,
        Err(refused) => return (vault, Err(ServeFault::from(refused)), None),
    };
    serve_named::<L, Brand, S, P, R>(
        rt, listener, bound, new_log, new_staged, desk, vault, place, settings,
    )
}

// The logs of a run: of what is committed, and of what is staged.
fn new_logs(alloc: Global) -> Result<(NewLog, NewLog), AllocError> {
    Ok((NewLog::new(alloc)?, NewLog::new(alloc)?))
}

// The same, with logs of this id.
fn serve_named<L, I, S, P, R>(
    rt: &R,
    listener: &TcpListener,
    bound: SocketAddr,
    new_log: NewLog,
    new_staged: NewLog,
    desk: Desk<L>,
    vault: Vault<S>,
    place: P,
    settings: Settings,
) -> (Vault<S>, Result<Served, ServeFault>, Option<Acknowledged>)
where
    L: Ledger + Send + Sync,
    I: LogId + Send + Sync,
    S: Alter + Drop,
    P: Place + Drop,
    R: Host + Net<Listener = TcpListener, Stream = TcpStream>,
    requires table { new_log ≡ I.table }
    requires staged { new_staged ≡ I.staged }
    requires start { I.start ≡ vault.next }
    requires is_base { (base : List Record) → I.is_base base
        → (length base ≡ I.start) × (w : World) × StandsFor desk w × (settled_records w ≡ base) }
    ensures rows { KeepsHistory S.Store vault result.0 result.1 }
    ensures acknowledged { IfClean S.Store vault.conn result.0.conn (λ _ _. (base : List Record) → I.is_base base
        → AddsEvent S.Store vault result.0 (committer_end result.1) result.2 base) }
    ensures clean { IfClean S.Store vault.conn result.0.conn (λ old _. HasCleanDisk old) }
    ensures closed { IsOfKeeper (committer_end result.1) → IsTrue result.0.closed }
{
    let keeper = FileGuard::new(vault, place);
    let (shared, logged) = begin_run::<L, I, FileGuard<Vault<S>, P>>(
        new_log, new_staged, desk, keeper,
    );
    let relay = match Relay::new(rt.alloc(), shared, settings.intake) {
        Ok(relay) => relay,
        Err(refused) => {
            let keeper = logged.into_keeper();
            return (keeper.into_keeper(), Err(ServeFault::from(refused)), None);
        }
    };
    let (mut logged, end) = run_threads(rt, listener, bound, &relay, logged, settings);
    let acknowledged = last_acknowledged(rt, &relay, &mut logged);
    let keeper = logged.into_keeper();
    let check = keeper.last_check();
    let mut vault = keeper.into_keeper();
    let ended = report_end(rt, &relay, end, check, &mut vault);
    (vault, ended, acknowledged)
}

// The acknowledged event that has the greatest number. The log of the keeper has it.
fn last_acknowledged<L, I, K, R>(
    rt: &R,
    relay: &Relay<L, I>,
    logged: &mut LoggedKeeper<I, K>,
) -> Option<Acknowledged>
where
    L: Ledger,
    I: LogId,
    K: Keeper + Drop,
    R: Wait,
    ensures event { IfSome result (λ event. (base : List Record) → I.is_base base
        → HasEvent (base ++ logged.old.writer) event.seq event.name event.id event.body) }
    ensures keeper { logged.new.keeper ≡ logged.old.keeper }
    ensures writer { logged.new.writer ≡ logged.old.writer }
{
    let mut latest = LatestAck::new();
    for kept in &relay.latest {
        if let Some(ack) = kept.lock(rt).take() {
            latest.keep(ack);
        }
    }
    let ack = latest.take()?;
    Some(ack.compare(relay.shared.log(), logged))
}

// Tells how the committer ended. Where the end was asked for, the rows have to tell what the desk tells.
fn report_end<L, I, S, R>(
    rt: &R,
    relay: &Relay<L, I>,
    end: Ended,
    check: FileCheck,
    vault: &mut Vault<S>,
) -> Result<Served, ServeFault>
where
    L: Ledger,
    I: LogId,
    S: Alter,
    R: Wait + Clock + AllocGlobal + Eprint,
    ensures end { committer_end result ≡ end }
    ensures read { IfClean S.Store vault.old.conn vault.new.conn IsOnlyRead }
    ensures clean { IfClean S.Store vault.old.conn vault.new.conn (λ old _. HasCleanDisk old) }
    ensures closed { vault.new.closed ≡ vault.old.closed }
{
    match end.how() {
        CommitterEnd::Halted(cause) => {
            print_log_line(rt, rt.alloc(), &LogLine::Halted { cause, check });
            Err(ServeFault::Halted(cause))
        }
        CommitterEnd::Finished if relay.lacks_thread() => Err(ServeFault::NoThread),
        CommitterEnd::Finished => audit_at_end(rt, relay, end, vault),
    }
}

// Whether the rows tell what the desk tells, once all other threads have ended.
fn audit_at_end<L: Ledger, I: LogId, S: Alter, R: Wait + AllocGlobal>(
    rt: &R,
    relay: &Relay<L, I>,
    end: Ended,
    vault: &mut Vault<S>,
) -> Result<Served, ServeFault>
    requires { end ≡ Finished }
    ensures end { committer_end result ≡ Finished }
    ensures read { IfClean S.Store vault.old.conn vault.new.conn IsOnlyRead }
    ensures clean { IfClean S.Store vault.old.conn vault.new.conn (λ old _. HasCleanDisk old) }
    ensures closed { vault.new.closed ≡ vault.old.closed }
{
    match audit_shown(rt.alloc(), vault, relay.look(rt).desk()) {
        Ok(audited) => Ok(Served::of(end, audited)),
        Err(fault) => Err(ServeFault::Audit(fault)),
    }
}
