//! What an estimator is told of a post.

/// What the end of a post tells of its endpoint.
#[derive(Clone, Copy, PartialEq, Eq, Debug)]
pub struct Sample {
    /// The round trip in microseconds. 0 counts as 1, more than an hour as an hour.
    pub rtt: u64,
    /// How many posts were in flight as it began, its own counted.
    pub inflight: u32,
    /// Whether the endpoint dropped it.
    pub dropped: bool,
}
