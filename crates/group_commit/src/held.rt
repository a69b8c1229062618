//! What ends a turn.
use spool::{Batch, Doubt};

/// What a committer that gives up has in hand.
pub enum Held {
    /// Nothing.
    Nothing,
    /// A batch that wasn't committed.
    Batch(Batch),
    /// What is left of a commit of which nobody knows how it ended.
    Doubt(Doubt),
}

/// What a settling answers.
#[derive(Clone, Copy, PartialEq, Eq, Debug)]
pub struct Settled {
    /// How many records are settled.
    pub records: u64,
}
