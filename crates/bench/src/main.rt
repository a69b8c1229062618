//! Runs of the relay's layers that `scripts/bench` measures. Without words it lists them. Each run
//! opens what it works on in one function, lends it to others, and prints once at its end.
#![tactic(auto)]

mod batches;
mod books;
mod delivering;
mod events;
mod failed;
mod inserting;
mod limits;
mod queues;
mod reopening;
mod submitting;
mod times;
mod working;

use crate::books::print_book;
use crate::failed::Failed;
use crate::inserting::insert_rows;
use crate::limits::print_limit;
use crate::queues::print_calls;
use crate::reopening::print_parts;
use crate::submitting::{post_plan, submit_plan};
use crate::working::{Work, print_work};
use sqlite::{Alter, Connection};
use std::io;
use std::process::ExitCode;
use std::time::Instant;
use text_lines::read_number;

const LIST: &str = "limit COUNT        the adaptive limit after as many samples
events COUNT       a book of as many events
outcomes COUNT     the same, and then one outcome of each, settled 256 at a time
submit COUNT PATH  submissions to 100 endpoints, 256 in a commit, and their posts, in rounds of 10,240
post COUNT ENDPOINTS PATH   as many pending events of so many endpoints, every second of which is then disabled, and half as many posts
purge COUNT PATH   a purge of as many delivered events, among as many that ended later
insert COUNT PATH  the rows of as many events, by bare statements
parts PATH         a store that stands, reopened part by part
queue COUNT ENDPOINTS   the claim queue alone, with so many deliveries
";

/// The most events of a run over a file.
const MAX_COUNT: u64 = 10_000_000;

/// A run over the store in a file.
#[derive(Clone, Copy)]
enum Run {
    Insert(u32),
    Parts,
    Work(Work),
}

fn number_of(word: &str) -> Result<u64, Failed> {
    match read_number(word.as_bytes()) {
        Some(number) => Ok(number),
        None => Err(Failed),
    }
}

fn count_of(word: &str) -> Result<u32, Failed> {
    match number_of(word) {
        Ok(count) if count <= MAX_COUNT => Ok(count as u32),
        _ => Err(Failed),
    }
}

/// The run of so many events over a file.
fn run_of(name: &str, count: u32) -> Result<Run, Failed> {
    match name {
        "insert" => Ok(Run::Insert(count)),
        "purge" => Ok(Run::Work(Work::Purge(submit_plan(count)))),
        "submit" => Ok(Run::Work(Work::Submit(submit_plan(count)))),
        _ => Err(Failed),
    }
}

/// Makes the run over the store in the file.
fn run_over(rt: &HostRuntime, run: Run, path: &str) -> Result<(), Failed> {
    let began = Instant::now(rt)?;
    run_in(rt, began, run, path)
}

fn run_in(rt: &HostRuntime, began: Instant, run: Run, path: &str) -> Result<(), Failed> {
    match Connection::open(rt, path) {
        Ok(conn) => run_with(rt, began, conn, run),
        Err(_) => Err(Failed),
    }
}

fn run_with<S: Alter + Drop>(
    rt: &HostRuntime,
    began: Instant,
    mut conn: Connection<S>,
    run: Run,
) -> Result<(), Failed> {
    match run {
        Run::Insert(count) => insert_rows(rt.alloc(), &mut conn, count),
        Run::Parts => print_parts(rt, began, conn),
        Run::Work(work) => print_work(rt, began, conn, work),
    }
}

/// Runs what the words name.
fn run_words(rt: &HostRuntime, words: &[&str]) -> Result<(), Failed> {
    match words {
        [_] => Ok(print!(rt; "{LIST}")?),
        [_, "limit", count] => print_limit(rt, number_of(count)?),
        [_, "events", count] => print_book(rt, number_of(count)?, false),
        [_, "outcomes", count] => print_book(rt, number_of(count)?, true),
        [_, "parts", path] => run_over(rt, Run::Parts, path),
        [_, "queue", count, endpoints] => print_calls(rt, count_of(count)?, count_of(endpoints)?),
        [_, "post", count, endpoints, path] => {
            let plan = post_plan(count_of(count)?, count_of(endpoints)?);
            run_over(rt, Run::Work(Work::Submit(plan)), path)
        }
        [_, name, count, path] => run_over(rt, run_of(name, count_of(count)?)?, path),
        _ => Err(Failed),
    }
}

fn main(rt: HostRuntime) -> io::Result<ExitCode> {
    let alloc = rt.alloc();
    let words: Vec<String> = std::env::args(&rt)?.collect(alloc)?;
    let mut shown = Vec::with_capacity(alloc, words.len())?;
    for word in &words {
        shown.push(word.as_str())?;
    }
    let end = run_words(&rt, shown.as_slice());
    Ok(ExitCode::from(u8::from(end.is_err())))
}
