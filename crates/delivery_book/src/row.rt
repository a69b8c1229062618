//! What the book tells of a delivery, and of many.

use relay_types::{Moment, MsgId, Name, State};

/// A delivery: its event, and what came of it so far.
#[derive(Clone, Copy)]
pub struct Row {
    pub endpoint: Name,
    pub id: MsgId,
    /// When the event was taken in.
    pub at: Moment,
    /// How many attempts ended.
    pub attempts: u64,
    pub state: State,
    /// When the next attempt is due, in seconds since the epoch, which a pending delivery alone has. After a failed
    /// attempt it may be later than any `Moment`.
    pub due: Option<u64>,
    /// The status of the last attempt, if there was one: 0 where no answer came.
    pub last_status: Option<u16>,
}

/// How many deliveries are in each state.
#[derive(Clone, Copy, PartialEq, Eq, Debug)]
pub struct Counts {
    pub pending: u64,
    pub delivered: u64,
    pub exhausted: u64,
}
