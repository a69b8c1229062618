//! What threads tell one another.

use std::sync::atomic::{AtomicU64, Ordering};
use std::thread;
use std::time::{Clock, Duration};

/// After so many turns of a millisecond a thread gives up.
pub(crate) const TURNS: u64 = 60_000;

/// What the threads of a case count.
#[derive(Drop)]
pub(crate) struct Seen {
    /// Which case it is.
    pub(crate) case: usize,
    /// Posts of the subscriber.
    pub(crate) posts: AtomicU64,
    /// Posts that have begun and wait for others.
    pub(crate) begun: AtomicU64,
    /// Threads that have come to an end, or requests that were answered.
    pub(crate) ended: AtomicU64,
    /// Events that were staged by a step of a thread.
    pub(crate) staged: AtomicU64,
    /// Commits that have begun.
    pub(crate) commits: AtomicU64,
    /// Commits during which a record was staged.
    pub(crate) meetings: AtomicU64,
    /// Rests that took less than half a second.
    pub(crate) short: AtomicU64,
}

impl Seen {
    pub(crate) fn new(case: usize) -> Seen {
        Seen {
            case,
            posts: AtomicU64::new(0),
            begun: AtomicU64::new(0),
            ended: AtomicU64::new(0),
            staged: AtomicU64::new(0),
            commits: AtomicU64::new(0),
            meetings: AtomicU64::new(0),
            short: AtomicU64::new(0),
        }
    }
}

/// One more than before: how many there were.
pub(crate) fn count(counter: &AtomicU64) -> u64 {
    counter.fetch_add(1, Ordering::SeqCst)
}

pub(crate) fn so_far(counter: &AtomicU64) -> u64 {
    counter.load(Ordering::SeqCst)
}

pub(crate) fn wait_a_turn<R: Clock>(rt: &R) {
    thread::sleep(rt, Duration::from_millis(1));
}

/// Waits for a while, in which a thread that has begun a wait falls asleep.
pub(crate) fn pause<R: Clock>(rt: &R) {
    thread::sleep(rt, Duration::from_millis(50));
}

/// Waits until so many are counted, for so many turns at most: whether they are.
pub(crate) fn have_come<R: Clock>(rt: &R, counter: &AtomicU64, wanted: u64) -> bool {
    for _ in 0..TURNS {
        if so_far(counter) >= wanted {
            return true;
        }
        wait_a_turn(rt);
    }
    false
}
