//! The numbers of an estimator.

/// The numbers that samples move.
#[derive(Clone, Copy, PartialEq, Eq, Debug)]
pub struct State {
    /// How many posts may be in flight.
    pub limit: u32,
    /// The round trip of the endpoint without load, in microseconds, or 0 before the first sample.
    pub noload: u64,
    /// How many samples came since the last probe.
    pub probes: u32,
}
