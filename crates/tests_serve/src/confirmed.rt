//! A change that is confirmed and an event that is acknowledged: the log that the committer appended to has both.
ghost use Rattle.std.specs.Prelude.{◌≡◌, List};
ghost use Rattle.permits.specs.declared.pool.TheConstants.{PARTS};
ghost use Rattle.relay_types.specs.declared.record.Record.{Record};

use crate::given::{MARK, body, holds, id, moment, name, put};
use delivery::{CommitterEnd, Keeper, LoggedKeeper, Pass, Shared, begin_run, committer_run};
use desk::Desk;
use intake_shed::{Ack, Acknowledged, Confirmed, command_and_wait, submit_and_wait};
use permits::PARTS;
use recovery::create;
use run_log::{LogId, NewLog};
use spool::Vault;
use sqlite::{Alter, Connection, MemStore};
use std::alloc::Global;
use std::marker::Brand;
use std::process::Abort;
use std::sync::Wait;
use std::sync::ledger::{Blank, Ledger};
use std::test::Fail;
use std::thread;
use std::thread::Threads;
use std::time::Clock;

const URL: &str = "http://127.0.0.1:9000/hook";

// Puts the endpoint and submits the event, and waits for each. Then the end is asked for.
fn ask<L: Ledger, I: LogId, R: Wait>(
    rt: &R,
    alloc: Global,
    shared: &Shared<L, I>,
) -> Result<(Confirmed<I>, Ack<I>), Fail> {
    let asked = wait_for_both(rt, alloc, shared);
    shared.finish(rt);
    asked
}

// What came of both, if both were settled.
fn wait_for_both<L: Ledger, I: LogId, R: Wait>(
    rt: &R,
    alloc: Global,
    shared: &Shared<L, I>,
) -> Result<(Confirmed<I>, Ack<I>), Fail> {
    let mut pass = Pass::new();
    let Ok(confirmed) = command_and_wait(rt, shared, put(alloc, URL)?, &mut pass) else {
        return Err(Fail::from("the endpoint wasn't settled"));
    };
    let (now, name, id, body) = (moment()?, name()?, id()?, body(alloc)?);
    match submit_and_wait(rt, shared, now, name, id, body, &mut pass) {
        Ok(ack) => Ok((confirmed, ack)),
        Err(_) => Err(Fail::from("the event wasn't settled")),
    }
}

fn is_of_event<I: LogId>(ack: &Ack<I>) -> bool {
    ack.seq() == 1
        && ack.name().as_bytes() == b"a".as_slice()
        && ack.id().as_bytes() == b"msg_1".as_slice()
        && ack.body().as_bytes() == b"{}".as_slice()
}

fn is_event(event: &Acknowledged) -> bool {
    event.seq() == 1
        && event.name().as_bytes() == b"a".as_slice()
        && event.id().as_bytes() == b"msg_1".as_slice()
        && event.body().as_bytes() == b"{}".as_slice()
}

// A run with logs of this id, of which nothing is proved.
fn run<L, I, S, R>(
    rt: &R,
    alloc: Global,
    new_log: NewLog,
    new_staged: NewLog,
    desk: Desk<L>,
    vault: Vault<S>,
) -> Result<(), Fail>
where
    L: Ledger + Send + Sync,
    I: LogId + Send + Sync,
    S: Alter + Drop + Send,
    R: Threads + Wait + Clock + Abort + Copy + Sync,
    requires table { new_log ≡ I.table }
    requires staged { new_staged ≡ I.staged }
    requires start { I.start ≡ vault.next }
    requires no_base { (base : List Record) → I.is_base base → ⊥ }
{
    let (shared, logged) = begin_run::<L, I, Vault<S>>(new_log, new_staged, desk, vault);
    let lent = &shared;
    let (asked, (logged, end)) = thread::join(
        rt,
        move || ask(rt, alloc, lent),
        move || committer_run(rt, lent, logged),
    );
    let is_over = matches!(end.how(), CommitterEnd::Finished);
    holds(rt, is_over, "the committer finishes");
    match asked {
        Ok((confirmed, ack)) => {
            compare(rt, lent, logged, confirmed, ack);
            Ok(())
        }
        Err(fail) => Err(fail),
    }
}

// Compares what was told with the log. The change is the first record, and the event the second.
fn compare<L: Ledger, I: LogId, K: Keeper + Drop, R: Abort>(
    rt: &R,
    shared: &Shared<L, I>,
    logged: LoggedKeeper<I, K>,
    confirmed: Confirmed<I>,
    ack: Ack<I>,
) {
    let mut logged = logged;
    holds(rt, confirmed.seq() == 0, "the change is confirmed");
    let seq = confirmed.compare(shared.log(), &mut logged);
    holds(rt, seq == 0, "the log has the change");
    holds(rt, is_of_event(&ack), "the event is acknowledged");
    let event = ack.compare(shared.log(), &mut logged);
    holds(rt, is_event(&event), "the log has the event");
}

fn over<L, S, R>(rt: &R, alloc: Global, blank: Blank, conn: Connection<S>) -> Result<(), Fail>
where
    L: Ledger + Send + Sync,
    S: Alter + Drop + Send,
    R: Threads + Wait + Clock + Abort + Copy + Sync,
    requires name { blank.name ≡ L.name }
    requires parts { blank.parts ≡ L.parts }
    requires enough { blank.parts ≡ PARTS }
{
    if !conn.is_autocommit() {
        return Err(Fail::from("the store is in a transaction"));
    }
    let (new_log, new_staged) = (NewLog::new(alloc)?, NewLog::new(alloc)?);
    let Ok((desk, vault)) = create::<L, S>(alloc, blank, conn, MARK) else {
        return Err(Fail::from("the store wasn't made"));
    };
    run::<L, Brand, S, R>(rt, alloc, new_log, new_staged, desk, vault)
}

#[test]
fn what_is_confirmed_is_in_the_log(rt: HostRuntime) -> Result<(), Fail> {
    let conn = Connection::open_in_memory(rt.alloc())?;
    over::<Brand, MemStore, HostRuntime>(&rt, rt.alloc(), Blank::new(PARTS), conn)
}
