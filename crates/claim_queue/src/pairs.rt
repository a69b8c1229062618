//! The deliveries that wait, and their keys.
ghost use Rattle.std.specs.Prelude.{◌≡◌};
ghost use Rattle.claim_queue.specs.Queues.{same_pair};
ghost use Rattle.claim_queue.specs.Lanes.{comes_before, same_key, key_of};

use relay_types::Name;

/// A delivery that waits: its endpoint, the moment at which it is due, in seconds since the epoch, and its number.
#[derive(Clone, Copy)]
pub struct Pair {
    pub(crate) endpoint: Name,
    pub(crate) due: u64,
    pub(crate) seq: u64,
}

/// The key that orders the queue: the moment at which a delivery is due, and its number.
#[derive(Clone, Copy)]
pub struct QueueKey {
    pub(crate) due: u64,
    pub(crate) seq: u64,
}

impl Pair {
    pub(crate) fn is(&self, other: &Pair) -> bool
        ensures { result ≡ same_pair other.now self.now }
    {
        self.seq == other.seq && self.due == other.due && self.endpoint.is(other.endpoint)
    }

    pub(crate) fn key(&self) -> QueueKey
        ensures { result ≡ key_of self.now }
    {
        QueueKey {
            due: self.due,
            seq: self.seq,
        }
    }
}

impl QueueKey {
    pub(crate) fn is(&self, other: QueueKey) -> bool
        ensures { result ≡ same_key other self.now }
    {
        self.seq == other.seq && self.due == other.due
    }

    pub(crate) fn comes_before(&self, other: QueueKey) -> bool
        ensures { result ≡ comes_before self.now other }
    {
        self.due < other.due || (self.due == other.due && self.seq < other.seq)
    }
}
