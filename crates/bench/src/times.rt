//! How long the parts of a run took.
use crate::failed::Failed;
use std::time::{Duration, Instant};

/// Batches: the desk's sealing and settling, and the store's commits.
#[derive(Clone, Copy)]
pub(crate) struct BatchTimes {
    pub(crate) sealing: Duration,
    pub(crate) committing: Duration,
}

/// A run of submissions that are posted once they are settled.
#[derive(Clone, Copy)]
pub(crate) struct Times {
    /// The submissions, with the making of their names, ids and bodies; or the purge.
    pub(crate) staging: Duration,
    /// Their batches.
    pub(crate) submissions: BatchTimes,
    pub(crate) claiming: Duration,
    /// The claims of the first batch.
    pub(crate) first_claims: Duration,
    pub(crate) spending: Duration,
    /// The batches of the outcomes.
    pub(crate) outcomes: BatchTimes,
}

const NO_BATCHES: BatchTimes = BatchTimes {
    sealing: Duration::ZERO,
    committing: Duration::ZERO,
};

impl Times {
    pub(crate) const ZERO: Times = Times {
        staging: Duration::ZERO,
        submissions: NO_BATCHES,
        claiming: Duration::ZERO,
        first_claims: Duration::ZERO,
        spending: Duration::ZERO,
        outcomes: NO_BATCHES,
    };
}

/// The time since a run began; none where the clock can't be read.
pub(crate) fn since(rt: &HostRuntime, began: Instant) -> Duration {
    match began.elapsed(rt) {
        Ok(time) => time,
        Err(_) => Duration::ZERO,
    }
}

/// Adds the time between two moments of a run.
pub(crate) fn add(total: &mut Duration, from: Duration, upto: Duration) {
    *total = total.saturating_add(upto.saturating_sub(from));
}

/// Prints a line for each number, after its word.
pub(crate) fn print_lines(rt: &HostRuntime, lines: &[(&str, u128)]) -> Result<(), Failed> {
    for (word, number) in lines {
        println!(rt; "{word} {number}")?;
    }
    Ok(())
}
