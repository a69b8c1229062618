//! Worked limits. Each expected number is found from the rules by hand.

use crate::cases::{holds, max_limit};
use std::alloc::{AllocError, Global};
use std::process::Abort;
use vegas::{Estimator, Sample, State};

/// What an estimator is told, and what it tells then.
#[derive(Clone, Copy)]
enum Step {
    /// A round trip, how many were in flight and whether it was a drop; then the limit and the no-load time that
    /// follow.
    Sample(u64, u32, bool, u32, u64),
    /// So many times such a sample, each of which leaves the limit and the no-load time at these.
    Steady(u32, u64, u32, bool, u32, u64),
    /// So many times such a sample.
    Feed(u32, u64, u32, bool),
    Limit(u32),
    Noload(u64),
    /// The limit, the no-load time and the count since the last probe before the last samples, and how many these are.
    Explain(u32, u64, u32, usize),
    /// The oldest of the last samples, as it was told.
    Oldest(u64, u32, bool),
}

/// The maximum of a new estimator, and its steps.
#[derive(Clone, Copy)]
struct Run(u64, &'static [Step]);

const OK: bool = false;

const DROP: bool = true;

static NEW: [Run; 5] = [
    Run(1, &[Step::Limit(1), Step::Noload(0)]),
    Run(19, &[Step::Limit(19), Step::Noload(0)]),
    Run(20, &[Step::Limit(20), Step::Noload(0)]),
    Run(21, &[Step::Limit(20), Step::Noload(0)]),
    Run(1000, &[Step::Limit(20), Step::Noload(0)]),
];

static THE_LIMIT_FOLLOWS_THE_QUEUE: [Run; 1] = [Run(
    1000,
    &[
        Step::Sample(100000, 1, OK, 20, 100000),
        Step::Sample(100000, 10, OK, 26, 100000),
        Step::Sample(100000, 12, OK, 26, 100000),
        Step::Sample(100000, 13, OK, 32, 100000),
        Step::Sample(110000, 16, OK, 32, 100000),
        Step::Sample(105000, 16, OK, 33, 100000),
        Step::Sample(200000, 17, OK, 32, 100000),
        Step::Sample(200000, 17, DROP, 31, 100000),
    ],
)];

static THE_STEP_GROWS_AT_A_HUNDRED: [Run; 1] = [Run(
    1000,
    &[
        Step::Sample(100000, 1, OK, 20, 100000),
        Step::Feed(13, 100000, 49, OK),
        Step::Limit(98),
        Step::Sample(101500, 49, OK, 99, 100000),
        Step::Sample(101500, 50, OK, 100, 100000),
        Step::Sample(100000, 50, OK, 112, 100000),
    ],
)];

static A_PROBE_TAKES_THE_ROUND_TRIP: [Run; 1] = [Run(
    1,
    &[
        Step::Sample(100000, 1, OK, 1, 100000),
        Step::Sample(200000, 1, DROP, 1, 100000),
        Step::Steady(27, 100000, 1, OK, 1, 100000),
        Step::Sample(300000, 1, OK, 1, 300000),
        Step::Sample(200000, 1, OK, 1, 200000),
    ],
)];

static ROUND_TRIPS_ARE_BROUGHT_INTO_THEIR_RANGE: [Run; 4] = [
    Run(
        1000,
        &[
            Step::Sample(0, 1, OK, 20, 1),
            Step::Sample(u64::MAX, 10, OK, 19, 1),
        ],
    ),
    Run(
        1000,
        &[
            Step::Sample(u64::MAX, 1, OK, 20, 3600000000),
            Step::Sample(9223372036854775807, 10, OK, 26, 3600000000),
            Step::Sample(3599999999, 26, OK, 26, 3599999999),
            Step::Sample(3600000001, 26, OK, 32, 3599999999),
        ],
    ),
    // an hour, and a microsecond more
    Run(1000, &[Step::Sample(3600000000, 1, OK, 20, 3600000000)]),
    Run(1000, &[Step::Sample(3600000001, 1, OK, 20, 3600000000)]),
];

const START: Step = Step::Sample(100000, 1, OK, 20, 100000);

// From a limit of 20 and a no-load time of 100000.
static BORDERS: [Run; 10] = [
    // half of the limit in flight, or less
    Run(1000, &[START, Step::Sample(100000, 10, OK, 26, 100000)]),
    Run(1000, &[START, Step::Sample(100000, 9, OK, 20, 100000)]),
    // a queue of 1, 2, 3, 6 and 7
    Run(1000, &[START, Step::Sample(105263, 10, OK, 26, 100000)]),
    Run(1000, &[START, Step::Sample(105264, 10, OK, 21, 100000)]),
    Run(1000, &[START, Step::Sample(111111, 10, OK, 21, 100000)]),
    Run(1000, &[START, Step::Sample(111112, 10, OK, 20, 100000)]),
    Run(1000, &[START, Step::Sample(142857, 10, OK, 20, 100000)]),
    Run(1000, &[START, Step::Sample(142858, 10, OK, 19, 100000)]),
    // a drop, alone and with a lower round trip
    Run(1000, &[START, Step::Sample(100000, 1, DROP, 19, 100000)]),
    Run(1000, &[START, Step::Sample(99999, 20, DROP, 20, 99999)]),
];

const GROW: Step = Step::Feed(100, 100000, 1000, OK);

const FALL: Step = Step::Feed(1, 100000, 1, DROP);

static A_DROP_AT_THE_MAXIMUM: [Run; 7] = [
    Run(1, &[GROW, Step::Limit(1), FALL, Step::Limit(1)]),
    Run(9, &[GROW, Step::Limit(9), FALL, Step::Limit(8)]),
    Run(10, &[GROW, Step::Limit(10), FALL, Step::Limit(9)]),
    Run(99, &[GROW, Step::Limit(99), FALL, Step::Limit(98)]),
    Run(100, &[GROW, Step::Limit(100), FALL, Step::Limit(98)]),
    Run(999, &[GROW, Step::Limit(999), FALL, Step::Limit(997)]),
    Run(1000, &[GROW, Step::Limit(1000), FALL, Step::Limit(997)]),
];

static THE_LAST_SAMPLES_EXPLAIN_THE_LIMIT: [Run; 3] = [
    // at rest: no probe yet, since 30 * 20 is 600
    Run(
        1000,
        &[
            Step::Explain(20, 0, 0, 0),
            Step::Feed(70, 100000, 1, OK),
            Step::Limit(20),
            Step::Explain(20, 100000, 6, 64),
            Step::Feed(64, 100000, 1, OK),
            Step::Explain(20, 100000, 70, 64),
        ],
    ),
    // a maximum of one: a probe at the 30th sample
    Run(
        1,
        &[
            Step::Feed(31, 100000, 1, OK),
            Step::Limit(1),
            Step::Noload(100000),
            Step::Explain(1, 0, 0, 31),
            Step::Feed(33, 100000, 1, OK),
            Step::Explain(1, 0, 0, 64),
            Step::Feed(31, 100000, 1, OK),
            Step::Explain(1, 100000, 1, 64),
        ],
    ),
    // each sample as it was told, a drop among them
    Run(
        1000,
        &[
            Step::Sample(0, 1, DROP, 20, 1),
            Step::Sample(100000, 20, DROP, 19, 1),
            Step::Oldest(0, 1, DROP),
            Step::Feed(62, 100000, 1, OK),
            Step::Oldest(0, 1, DROP),
            Step::Feed(1, 100000, 1, OK),
            Step::Oldest(100000, 20, DROP),
            Step::Explain(20, 1, 1, 64),
            Step::Feed(1, 100000, 1, OK),
            Step::Oldest(100000, 1, OK),
            Step::Explain(19, 1, 2, 64),
        ],
    ),
];

fn sample(rt: &impl Abort, estimator: &mut Estimator, rtt: u64, inflight: u32, dropped: bool) {
    assert!(rt; inflight <= 1000);
    estimator.sample(rtt, inflight, dropped);
}

fn feed(
    rt: &impl Abort,
    estimator: &mut Estimator,
    times: u32,
    rtt: u64,
    inflight: u32,
    dropped: bool,
) {
    for _ in 0..times {
        sample(rt, estimator, rtt, inflight, dropped);
    }
}

fn tells(estimator: &Estimator, limit: u32, noload: u64) -> bool {
    estimator.limit() == limit && estimator.noload() == noload
}

fn explains(estimator: &Estimator, before: State, count: usize) -> bool {
    let (base, last) = estimator.explain();
    base == before && last.len() == count
}

fn oldest_is(estimator: &Estimator, sample: Sample) -> bool {
    match estimator.explain().1.front() {
        Some(oldest) => *oldest == sample,
        None => false,
    }
}

fn steady(
    rt: &impl Abort,
    estimator: &mut Estimator,
    times: u32,
    trip: (u64, u32, bool),
    limit: u32,
    noload: u64,
) -> bool {
    let (rtt, inflight, dropped) = trip;
    let mut all = true;
    for _ in 0..times {
        sample(rt, estimator, rtt, inflight, dropped);
        all = all && tells(estimator, limit, noload);
    }
    all
}

/// Takes the step; whether what it expects is so.
fn take(rt: &impl Abort, estimator: &mut Estimator, step: Step) -> bool {
    match step {
        Step::Sample(rtt, inflight, dropped, limit, noload) => {
            sample(rt, estimator, rtt, inflight, dropped);
            tells(estimator, limit, noload)
        }
        Step::Steady(times, rtt, inflight, dropped, limit, noload) => {
            steady(
                rt,
                estimator,
                times,
                (rtt, inflight, dropped),
                limit,
                noload,
            )
        }
        Step::Feed(times, rtt, inflight, dropped) => {
            feed(rt, estimator, times, rtt, inflight, dropped);
            true
        }
        Step::Limit(limit) => estimator.limit() == limit,
        Step::Noload(noload) => estimator.noload() == noload,
        Step::Explain(limit, noload, probes, count) => {
            let before = State {
                limit,
                noload,
                probes,
            };
            explains(estimator, before, count)
        }
        Step::Oldest(rtt, inflight, dropped) => oldest_is(
            estimator,
            Sample {
                rtt,
                inflight,
                dropped,
            },
        ),
    }
}

fn follow(rt: &impl Abort, estimator: &mut Estimator, steps: &[Step]) {
    for (place, step) in steps.iter().enumerate() {
        holds(rt, take(rt, estimator, *step), place);
    }
}

fn started(rt: &impl Abort, alloc: Global, maximum: u64) -> Estimator {
    match Estimator::new(alloc, max_limit(rt, maximum)) {
        Ok(estimator) => estimator,
        Err(AllocError) => panic!(rt; "no memory"),
    }
}

fn walk(rt: &impl Abort, alloc: Global, runs: &[Run]) {
    for run in runs.iter() {
        let Run(maximum, steps) = *run;
        follow(rt, &mut started(rt, alloc, maximum), steps);
    }
}

#[test]
fn a_new_estimator_knows_no_noload_time(rt: HostRuntime) {
    walk(&rt, rt.alloc(), &NEW);
}

#[test]
fn the_limit_follows_the_queue(rt: HostRuntime) {
    walk(&rt, rt.alloc(), &THE_LIMIT_FOLLOWS_THE_QUEUE);
}

#[test]
fn the_step_grows_at_a_hundred(rt: HostRuntime) {
    walk(&rt, rt.alloc(), &THE_STEP_GROWS_AT_A_HUNDRED);
}

#[test]
fn a_probe_takes_the_round_trip_as_it_is(rt: HostRuntime) {
    walk(&rt, rt.alloc(), &A_PROBE_TAKES_THE_ROUND_TRIP);
}

#[test]
fn round_trips_are_brought_into_their_range(rt: HostRuntime) {
    walk(&rt, rt.alloc(), &ROUND_TRIPS_ARE_BROUGHT_INTO_THEIR_RANGE);
}

#[test]
fn each_threshold_has_its_border(rt: HostRuntime) {
    walk(&rt, rt.alloc(), &BORDERS);
}

#[test]
fn a_drop_at_the_maximum_lowers_by_its_step(rt: HostRuntime) {
    walk(&rt, rt.alloc(), &A_DROP_AT_THE_MAXIMUM);
}

#[test]
fn the_last_samples_explain_the_limit(rt: HostRuntime) {
    walk(&rt, rt.alloc(), &THE_LAST_SAMPLES_EXPLAIN_THE_LIMIT);
}
