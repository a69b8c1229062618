//! What scripts drive and check: files, requests and calls. Without words it lists its runs. Each
//! opens what it works on in one function, and lends it to others.
#![tactic(auto)]

mod asking;
mod desks;
mod failed;
mod given;
mod loading;
mod moves;
mod oom;
mod oom_books;
mod oom_desks;
mod oom_makes;
mod oom_replies;
mod oom_shares;
mod oom_stores;
mod oom_texts;
mod opening;
mod relay;
mod running;
mod stores;

use crate::moves::print_moves;
use crate::oom::print_oom;
use crate::opening::print_opening;
use crate::stores::{Run, run_in_file, run_in_memory};
use std::io;
use std::process::ExitCode;
use std::sync::Wait;
use text_lines::read_number;

const LIST: &str = "replay PATH        the script on standard input
runs PATH          a run of calls, and a second one where the first had no memory
loads PATH         two loads of a store that stands
open PATH          the store in the file, made where none stands
oom CALL           a call that takes memory, twice, each time at a byte of standard input; or the opening of the file at a path
asks               the requests on standard input, one on a line
moves SEED COUNT   so many random moves of the claim queue
";

/// The most moves of a run.
const MAX_COUNT: u64 = 10_000_000;

/// Makes so many random moves. Whether these are numbers.
fn move_at_random(rt: &HostRuntime, seed: &str, count: &str) -> io::Result<bool> {
    match (read_number(seed.as_bytes()), read_number(count.as_bytes())) {
        (Some(seed), Some(count)) if count <= MAX_COUNT => print_moves(rt, seed, count),
        _ => Ok(false),
    }
}

/// Runs what the words name. Whether they name a run that ended well.
fn run_words<R: Wait>(rt: &HostRuntime, wait: &R, words: &[&str]) -> io::Result<bool> {
    match words {
        [_] => {
            print!(rt; "{LIST}")?;
            Ok(true)
        }
        [_, "asks"] => run_in_memory(rt, wait, Run::Asks),
        [_, "oom", word] => print_oom(rt, wait, word),
        [_, "loads", path] => run_in_file(rt, wait, Run::Loads, path),
        [_, "open", path] => print_opening(rt, path),
        [_, "replay", path] => run_in_file(rt, wait, Run::Replay, path),
        [_, "runs", path] => run_in_file(rt, wait, Run::Runs, path),
        [_, "moves", seed, count] => move_at_random(rt, seed, count),
        _ => Ok(false),
    }
}

fn main(rt: HostRuntime) -> io::Result<ExitCode> {
    let alloc = rt.alloc();
    let words: Vec<String> = std::env::args(&rt)?.collect(alloc)?;
    let shown: Vec<&str> = words.iter().map(|word| word.as_str()).collect(alloc)?;
    let is_done = run_words(&rt, &rt, shown.as_slice())?;
    Ok(ExitCode::from(u8::from(!is_done)))
}
