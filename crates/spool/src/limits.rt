//! The limits of what is committed at once. Those of histories are told by `relay_types`.

/// The most records of a batch.
pub const MAX_BATCH_RECORDS: usize = 256;
