//! Runs over a store, in a file or in memory.
use crate::loading::print_loads;
use crate::oom_desks::{DeskCall, try_desk};
use crate::oom_stores::{StoreCall, try_store};
use crate::relay::answer_asks;
use crate::running::print_runs;
use sqlite::{Alter, Connection};
use std::io;
use std::sync::Wait;

/// A run over a store.
#[derive(Clone, Copy)]
pub(crate) enum Run {
    Asks,
    Desk(DeskCall),
    Loads,
    Replay,
    Runs,
    Store(StoreCall),
}

/// Makes the run over the store in the file. Whether it ended well.
pub(crate) fn run_in_file<R: Wait>(
    rt: &HostRuntime,
    wait: &R,
    run: Run,
    path: &str,
) -> io::Result<bool> {
    match Connection::open(rt, path) {
        Ok(conn) => run_over(rt, wait, run, conn),
        Err(_) => Ok(false),
    }
}

/// Makes the run over a store in memory. Whether it ended well.
pub(crate) fn run_in_memory<R: Wait>(rt: &HostRuntime, wait: &R, run: Run) -> io::Result<bool> {
    match Connection::open_in_memory(rt.alloc()) {
        Ok(conn) => run_over(rt, wait, run, conn),
        Err(_) => Ok(false),
    }
}

fn run_over<S: Alter + Drop, R: Wait>(
    rt: &HostRuntime,
    wait: &R,
    run: Run,
    conn: Connection<S>,
) -> io::Result<bool> {
    match run {
        Run::Asks => Ok(answer_asks(rt.alloc(), conn, &mut rt.stdin(), &mut rt.stdout())),
        Run::Desk(call) => try_desk(rt, wait, call, conn),
        Run::Loads => print_loads(rt, conn),
        Run::Replay => Ok(replay(rt, conn)),
        Run::Runs => print_runs(rt, conn),
        Run::Store(call) => try_store(rt, call, conn),
    }
}

/// Replays the script on standard input. Whether it ended well.
fn replay<S: Alter + Drop>(rt: &HostRuntime, conn: Connection<S>) -> bool {
    let (_, end) = drill::replay(rt.alloc(), &mut rt.stdin(), &mut rt.stdout(), conn, 0);
    end.is_ok()
}
