//! The numbers in the rows.

/// An endpoint, which the record with number `put` made. The record with number `enabled_by` decides whether it is
/// enabled, and that with number `secrets_by` gave its secrets.
#[derive(Clone, Copy)]
pub struct Endpoint {
    pub put: u64,
    pub enabled: bool,
    pub enabled_by: u64,
    pub secrets_by: u64,
}

/// An event: the record with number `seq` took it in, for the endpoint that the record with number `endpoint` made.
#[derive(Clone, Copy)]
pub struct Delivery {
    pub seq: u64,
    pub endpoint: u64,
}

/// An attempt at an event, which the record with number `seq` tells of. `status` is that of the answer, or 0 where none
/// came.
#[derive(Clone, Copy)]
pub struct Attempt {
    pub seq: u64,
    pub delivery: u64,
    pub number: u64,
    pub status: u16,
}

/// A topic of the endpoint that the record with number `endpoint` made: the record with number `set_by` decides whether
/// the endpoint is subscribed to it.
#[derive(Clone, Copy)]
pub struct Topic {
    pub endpoint: u64,
    pub set_by: u64,
}

/// What the tables tell of the numbers of a history: how many records it has, and the numbers in the rows of each
/// table, in the order of their keys, but for topics in that of the records that decide them.
#[derive(Drop)]
pub struct RowNumbers {
    pub records: u64,
    pub endpoints: Vec<Endpoint>,
    pub deliveries: Vec<Delivery>,
    pub attempts: Vec<Attempt>,
    pub topics: Vec<Topic>,
}
