//! What is shown of the settled records.
use relay_types::{MaxLimit, Name, Target};

/// All endpoints and deliveries.
#[derive(Clone, Copy, PartialEq, Eq, Debug)]
pub struct Totals {
    pub delivered: u64,
    pub endpoints: usize,
    pub exhausted: u64,
    pub pending: u64,
    pub records: u64,
}

/// An endpoint, and how many of its deliveries are in each state.
#[derive(Clone, Copy)]
pub struct EndpointPage<'a> {
    pub delivered: u64,
    pub enabled: bool,
    pub exhausted: u64,
    pub max: MaxLimit,
    pub name: Name,
    pub pending: u64,
    /// How many secrets it has.
    pub secrets: usize,
    pub url: &'a Target,
}
