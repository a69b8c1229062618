//! What a run of calls is told, and a second one where the first had no memory.
ghost use Rattle.std.specs.Prelude.{◌≡◌, IsPermutation};
ghost use Rattle.permits.specs.declared.pool.TheConstants.{PARTS};
ghost use Rattle.desk.specs.Desks.{HasNothingOut, IsAllOut};

use crate::desks::created;
use crate::failed::Failed;
use desk::Desk;
use drill::{Event, Reply, World, run};
use permits::PARTS;
use script_lines::read_call;
use spool::Vault;
use sqlite::{Alter, Connection};
use std::alloc::{AllocError, Global};
use std::io;
use std::marker::Brand;
use std::sync::ledger::{Blank, Ledger};

// The batch is handed back where its commit was refused, and sealed and committed again.
static LINES: &[&str] = &[
    "put a http://127.0.0.1:9000/hook 100 whsec_MDEyMzQ1Njc4OTAxMjM0NTY3ODkwMTIz",
    "seal",
    "commit",
    "unseal",
    "seal",
    "commit",
    "settle",
    "submit 1000 a msg_1 7b7d",
    "told 1",
];

/// What the run was told that had its memory, and whether it was the second one.
#[derive(Drop)]
struct RunReplies {
    replies: Vec<Reply>,
    is_second: bool,
}

/// Runs the lines over a store that is to have no table, and prints the replies. Whether they were made.
pub(crate) fn print_runs<S: Alter + Drop>(
    rt: &HostRuntime,
    conn: Connection<S>,
) -> io::Result<bool> {
    let Some(told) = told_over(rt.alloc(), conn) else {
        return Ok(false);
    };
    if told.is_second {
        println!(rt; "OutOfMemory")?;
    }
    for reply in &told.replies {
        print_reply(rt, reply)?;
    }
    Ok(true)
}

fn told_over<S: Alter + Drop>(alloc: Global, conn: Connection<S>) -> Option<RunReplies> {
    match events_of(alloc) {
        Ok(events) => told_of::<Brand, S>(alloc, Blank::new(PARTS), conn, &events),
        Err(Failed) => None,
    }
}

fn events_of(alloc: Global) -> Result<Vec<Event>, Failed> {
    let mut events = Vec::new(alloc);
    for line in LINES {
        let Ok(event) = read_call(alloc, line.as_bytes()) else {
            return Err(Failed);
        };
        events.push(Event::Line(event)).map_err(AllocError::from)?;
    }
    Ok(events)
}

fn told_of<L: Ledger, S: Alter + Drop>(
    alloc: Global,
    blank: Blank,
    conn: Connection<S>,
    events: &[Event],
) -> Option<RunReplies>
    requires name { blank.name ≡ L.name }
    requires parts { blank.parts ≡ L.parts }
    requires enough { blank.parts ≡ PARTS }
{
    match created::<L, S>(alloc, blank, conn) {
        Some((desk, vault)) => run_once_or_twice(alloc, desk, vault, events),
        None => None,
    }
}

// Where the run had no memory, it is made again on what came back.
fn run_once_or_twice<L: Ledger, S: Alter + Drop>(
    alloc: Global,
    desk: Desk<L>,
    vault: Vault<S>,
    events: &[Event],
) -> Option<RunReplies>
    requires out { HasNothingOut desk }
    requires mark { desk.waiting.mark ≡ vault.mark }
{
    match run(alloc, desk, vault, events) {
        Ok(world) => Some(RunReplies {
            replies: closed(world),
            is_second: false,
        }),
        Err((desk, vault, _)) => run_again(alloc, desk, vault, events),
    }
}

fn run_again<L: Ledger, S: Alter + Drop>(
    alloc: Global,
    desk: Desk<L>,
    vault: Vault<S>,
    events: &[Event],
) -> Option<RunReplies>
    requires out { HasNothingOut desk }
    requires mark { desk.waiting.mark ≡ vault.mark }
{
    match run(alloc, desk, vault, events) {
        Ok(world) => Some(RunReplies {
            replies: closed(world),
            is_second: true,
        }),
        Err(_) => None,
    }
}

// Closes the desk with all that is out.
fn closed<L: Ledger, S: Alter + Drop>(world: World<L, S>) -> Vec<Reply>
    requires permits { IsPermutation world.permits.items world.desk.live }
    requires out { IsAllOut world.desk.waiting world.receipt world.held }
{
    let World {
        desk,
        vault: _,
        permits,
        receipt,
        held,
        replies,
    } = world;
    desk.close(permits, receipt, held);
    replies
}

fn print_reply(rt: &HostRuntime, reply: &Reply) -> io::Result<()> {
    match reply {
        Reply::Line(told) => println!(rt; "{told}"),
        _ => Ok(()),
    }
}
