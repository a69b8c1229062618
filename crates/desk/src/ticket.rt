//! What the desk gives for a record that waits, and what it tells of it later.
use relay_types::{MsgId, Name};

/// Stands for a submission at the desk that gave it: the number of the event's record, its endpoint and its id.
#[derive(Clone, Copy, PartialEq, Eq)]
pub struct Ticket {
    pub seq: u64,
    pub name: Name,
    pub id: MsgId,
}

/// Stands for a command at the desk that gave it: the number of its record.
#[derive(Clone, Copy, PartialEq, Eq, Debug)]
pub struct CommandTicket {
    pub seq: u64,
}

/// What is known of a ticket.
#[derive(Clone, Copy, PartialEq, Eq, Debug)]
pub enum Told {
    /// Its record is settled: it is in the store, and no stop takes it back.
    Settled,
    /// Its record waits.
    Waiting,
    /// There is no such record, or it waits at a desk that is halted: a stop may take it back.
    Unknown,
}
