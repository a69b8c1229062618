//! The numbers of the rule that are this project's own choice. Code, clauses and specs cite them by name.

/// The limit that a new estimator starts from, if its maximum allows it.
pub const FIRST_LIMIT: u32 = 20;

/// An hour in microseconds: a longer round trip counts as this one.
pub const MAX_ROUND_TRIP: u64 = 3_600_000_000;

/// A probe comes after this many samples for each of the limit.
pub const SAMPLES_BY_LIMIT: u32 = 30;

/// How many of the last samples an estimator keeps.
pub const LAST_SAMPLES: usize = 64;
