//! What is kept of a batch that is out.

// How many of the waiting steps it has, and the number after their records.
#[derive(Clone, Copy)]
pub(crate) struct Out {
    pub steps: usize,
    pub upto: u64,
}
