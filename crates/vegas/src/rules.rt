//! The rules by which a limit moves.
ghost use Rattle.std.specs.Prelude.{◌≡◌, ◌≤◌, List, [], ◌∷◌, ◌++◌};
ghost use Rattle.vegas.specs.declared.sample.Sample.{Sample};
ghost use Rattle.vegas.specs.Vegas.{queue, step_size, moved};
ghost use Rattle.vegas.specs.Estimators.{AreBounded, HasNumbers};

use crate::limits::{MAX_ROUND_TRIP, SAMPLES_BY_LIMIT};
use crate::sample::Sample;
use crate::state::State;
use relay_types::{MAX_LIMIT, MaxLimit};

/// By how much a limit moves: the whole part of its decimal logarithm, at least 1.
pub(crate) fn step_size(limit: u32) -> u32
    requires low { 1 ≤ limit }
    requires high { limit ≤ MAX_LIMIT }
    ensures value { result ≡ step_size limit }
    ensures low { 1 ≤ result }
    ensures high { result ≤ limit }
    ensures most { result ≤ 3 }
{
    limit.ilog10().max(1)
}

/// How many of as many posts as the limit wait in the endpoint's queue, rounded up: the share of
/// the round trip that is not the no-load time, both in microseconds.
pub(crate) fn queue(limit: u32, round_trip: u64, noload: u64) -> u32
    requires limit { limit ≤ MAX_LIMIT }
    requires some { 1 ≤ round_trip }
    requires hour { round_trip ≤ MAX_ROUND_TRIP }
    requires above { noload ≤ round_trip }
    ensures value { result ≡ queue limit round_trip noload }
{
    let waiting = u64::from(limit) * (round_trip - noload);
    waiting.div_ceil(round_trip) as u32
}

/// The limit that a queue asks for, not yet brought into its bounds.
pub(crate) fn moved(limit: u32, queue: u32, inflight: u32, dropped: bool) -> u32
    requires low { 1 ≤ limit }
    requires high { limit ≤ MAX_LIMIT }
    requires inflight { inflight ≤ MAX_LIMIT }
    ensures value { result ≡ moved limit queue inflight dropped }
{
    let step = step_size(limit);
    if dropped {
        limit - step
    } else if 2 * inflight < limit {
        limit
    } else if queue <= step {
        limit + 6 * step
    } else if queue < 3 * step {
        limit + step
    } else if queue > 6 * step {
        limit - step
    } else {
        limit
    }
}

/// The numbers after one more sample.
pub(crate) fn state_after(maximum: MaxLimit, before: State, sample: Sample) -> State
    requires bounded { AreBounded maximum before }
    requires inflight { sample.inflight ≤ MAX_LIMIT }
    ensures bounded { AreBounded maximum result }

    // for every list whose numbers these were, they are now those of that list and this sample
    ensures follows { (xs : List Sample) → HasNumbers maximum before xs
        → HasNumbers maximum result (xs ++ sample ∷ []) }
{
    let round_trip = sample.rtt.clamp(1, MAX_ROUND_TRIP);
    let count = before.probes + 1;
    if SAMPLES_BY_LIMIT * before.limit <= count {
        return State {
            limit: before.limit,
            noload: round_trip,
            probes: 0,
        };
    }
    if before.noload == 0 || round_trip < before.noload {
        return State {
            limit: before.limit,
            noload: round_trip,
            probes: count,
        };
    }
    let waiting = queue(before.limit, round_trip, before.noload);
    let limit = moved(before.limit, waiting, sample.inflight, sample.dropped);
    State {
        limit: limit.clamp(1, maximum.get()),
        noload: before.noload,
        probes: count,
    }
}
