//! What a pool keeps of each permit that is out.
ghost use Rattle.std.specs.Prelude.{◌≡◌};
ghost use Rattle.permits.specs.Rows.{same_row};

use relay_types::Name;

/// What a pool keeps of a permit that is out.
#[derive(Clone, Copy, PartialEq, Eq)]
pub struct Row {
    /// The endpoint that may be posted to.
    pub endpoint: Name,
    /// The sequence number of the delivery's Accept record.
    pub delivery: u64,
    /// How many permits of the endpoint were out once this one was, itself counted. A permit's row has 1 to 256.
    pub inflight: u32,
}

impl Row {
    /// Whether two rows have the same endpoint, delivery and in-flight number.
    pub fn is(self, other: Row) -> bool
        ensures { result ≡ same_row self other }
    {
        self.endpoint.is(other.endpoint)
            && self.delivery == other.delivery
            && self.inflight == other.inflight
    }
}
