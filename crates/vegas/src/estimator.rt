//! The estimator of one endpoint.
ghost use Rattle.std.specs.Prelude.{◌≡◌, ◌≤◌, List, [], ◌∷◌, ◌++◌, length, All, IfOk};
ghost use Rattle.vegas.specs.declared.sample.Sample.{Sample};
ghost use Rattle.vegas.specs.Estimators.{StandsFor, Explains, IsExplained, IsInFlight, sample_of};

use crate::limits::{FIRST_LIMIT, LAST_SAMPLES, MAX_ROUND_TRIP};
use crate::rules::state_after;
use crate::sample::Sample;
use crate::state::State;
use circular_buffer::HeapCircularBuffer;
use relay_types::{MAX_LIMIT, MaxLimit};
use std::alloc::{AllocError, Global};
use std::marker::Model;

/// The limit of one endpoint. It holds its maximum and three running numbers; contracts say that
/// these are those of the list of samples that it was given. To explain them it keeps the last 64
/// samples, and the numbers before them as its base.
#[derive(Drop)]
pub struct Estimator {
    maximum: MaxLimit,
    state: State,
    base: State,
    last: HeapCircularBuffer<Sample>,
}

impl Model for Estimator {
    ghost use Rattle.std.specs.Prelude.{◌≡◌};
    ghost use Rattle.vegas.specs.declared.limits.TheConstants.{LAST_SAMPLES};
    ghost use Rattle.vegas.specs.Estimators.{EstimatorValue, IsSound};

    ghost Value = { EstimatorValue };

    ghost view = { λ a. record { maximum = a.maximum; state = a.state; base = a.base; last = a.last.items } };

    ghost invariant = { λ a. (a.last.capacity ≡ LAST_SAMPLES)
        × IsSound (record { maximum = a.maximum; state = a.state; base = a.base; last = a.last.items }) };
}

impl Estimator {
    /// An estimator that has seen no sample. The memory for its last samples is taken here, and none later.
    pub fn new(alloc: Global, maximum: MaxLimit) -> Result<Estimator, AllocError>
        ensures maximum { IfOk result (λ e. e.maximum ≡ maximum) }
        ensures empty { IfOk result (λ e. StandsFor e []) }
        ensures explains { IfOk result (λ e. Explains e []) }
    {
        let first = State {
            limit: FIRST_LIMIT.min(maximum.get()),
            noload: 0,
            probes: 0,
        };
        let last = HeapCircularBuffer::with_capacity(alloc, LAST_SAMPLES)?;
        Ok(Estimator {
            maximum,
            state: first,
            base: first,
            last,
        })
    }

    /// How many posts may be in flight.
    pub fn limit(&self) -> u32
        ensures number { result ≡ self.now.state.limit }
        ensures low { 1 ≤ result }
        ensures high { result ≤ self.now.maximum }

        // it is that of the last samples behind the base, which `explain` gives
        ensures explained { IsExplained self.now }
    {
        self.state.limit
    }

    /// The round trip of an endpoint without load, in microseconds, or 0 before the first sample.
    pub fn noload(&self) -> u64
        ensures number { result ≡ self.now.state.noload }
        ensures hour { result ≤ MAX_ROUND_TRIP }
    {
        self.state.noload
    }

    /// Why the limit is what it is: the numbers before the last samples, and these samples, the
    /// oldest first. They are the last 64, or all where there were fewer, as they were handed in.
    /// From those numbers they lead to the limit of now. It takes no memory.
    pub fn explain(&self) -> (State, &HeapCircularBuffer<Sample>)
        ensures base { result.0 ≡ self.now.base }
        ensures last { result.1.now.items ≡ self.now.last }
        ensures most { length self.now.last ≤ LAST_SAMPLES }
        ensures in_flight { All IsInFlight self.now.last }

        // there are earlier samples that have the base's numbers, and with the last ones those of now
        ensures explained { IsExplained self.now }
    {
        (self.base, &self.last)
    }

    /// Takes one more sample: a round trip in microseconds, how many posts were in flight as it
    /// began (its own counted), and whether the endpoint dropped it. A round trip of 0 counts as 1,
    /// one above an hour as an hour. It takes no memory.
    ///
    /// After 30 samples for each of the limit a probe takes the round trip as the new no-load time.
    /// Otherwise the first or a lower round trip becomes the no-load time. The limit stays at both,
    /// even at a drop. Any other sample moves the limit: a drop lowers it by a step; with less than
    /// half of the limit in flight it stays; a queue of at most one step raises it by six steps,
    /// one below three steps by one, and one above six steps lowers it by one.
    pub fn sample(&mut self, rtt: u64, inflight: u32, dropped: bool)
        requires { inflight ≤ MAX_LIMIT }
        ensures maximum { self.new.maximum ≡ self.old.maximum }

        // for every list that it stood for, it now stands for that list and this sample
        ensures follows { (xs : List Sample) → StandsFor self.old xs
            → StandsFor self.new (xs ++ sample_of rtt inflight dropped ∷ []) }

        // and for every list that it explained, it now explains that list and this sample
        ensures explains { (xs : List Sample) → Explains self.old xs
            → Explains self.new (xs ++ sample_of rtt inflight dropped ∷ []) }
    {
        let sample = Sample {
            rtt,
            inflight,
            dropped,
        };
        self.state = state_after(self.maximum, self.state, sample);
        if let Some(oldest) = self.last.push_back(sample) {
            self.base = state_after(self.maximum, self.base, oldest);
        }
    }
}
