//! Runs over an estimator alone.
ghost use Rattle.std.specs.Prelude.{◌≤◌};

use crate::failed::Failed;
use relay_types::MaxLimit;
use vegas::Estimator;

/// What an estimator is given.
#[derive(Clone, Copy)]
struct Sample {
    rtt: u64,
    inflight: u32,
    dropped: bool,
}

/// The next number of a linear congruential generator, with the constants of Knuth's MMIX.
pub(crate) fn next_number(number: u64) -> u64 {
    number
        .wrapping_mul(6_364_136_223_846_793_005)
        .wrapping_add(1_442_695_040_888_963_407)
}

/// The sample that a number stands for: a round trip of 0.1 to 1.1 seconds, 1 to 1000 in flight, one drop in 64.
fn sample_of(number: u64) -> Sample
    ensures { result.inflight ≤ 1000 }
{
    Sample {
        rtt: 100_000 + (number >> 33) % 1_000_003,
        inflight: ((number >> 20) % 1000) as u32 + 1,
        dropped: number >> 58 == 0,
    }
}

/// An estimator after as many samples.
fn feed(mut estimator: Estimator, count: u64) -> Estimator {
    let mut number = 0;
    for _ in 0..count {
        number = next_number(number);
        let sample = sample_of(number);
        estimator.sample(sample.rtt, sample.inflight, sample.dropped);
    }
    estimator
}

/// Prints the limit and the no-load time after as many samples.
pub(crate) fn print_limit(rt: &HostRuntime, count: u64) -> Result<(), Failed> {
    let estimator = feed(Estimator::new(rt.alloc(), MaxLimit::of(1000)?)?, count);
    let (limit, noload) = (estimator.limit(), estimator.noload());
    println!(rt; "{limit} {noload}")?;
    Ok(())
}
