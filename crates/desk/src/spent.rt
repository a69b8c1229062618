//! What the desk tells of a post that is over, and of an endpoint's limit.
ghost use Rattle.std.specs.Prelude.{◌≡◌};
ghost use Rattle.retry_table.specs.Judging.{spend_of};
ghost use Rattle.desk.specs.Claims.{status_in};

use permits::Row;
use retry_table::{PostResult, Spend, judge};
use std::marker::Model;

/// What came of a spent permit. `Desk::spend` alone makes it.
#[derive(Drop)]
pub struct Spent {
    pub(crate) row: Row,
    pub(crate) post: PostResult,
    pub(crate) staged: Option<u64>,
    pub(crate) limit: u32,
    pub(crate) in_flight: u32,
    pub(crate) exhausted: bool,
}

impl Model for Spent {
    ghost use Rattle.desk.specs.Claims.{SpentValue};

    ghost Value = { SpentValue };

    ghost view = { λ s. record {
      row = s.row;
      post = s.post;
      staged = s.staged;
      limit = s.limit;
      in_flight = s.in_flight;
      exhausted = s.exhausted;
    } };
}

impl Spent {
    /// What the permit of the attempt was for.
    pub fn row(&self) -> Row
        ensures { result ≡ self.now.row }
    {
        self.row
    }

    /// What came of the post.
    pub fn post(&self) -> PostResult
        ensures { result ≡ self.now.post }
    {
        self.post
    }

    /// What the permit was spent as.
    pub fn spend(&self) -> Spend
        ensures { result ≡ spend_of self.now.post }
    {
        judge(&self.post).0
    }

    /// The number of the outcome that waits, if one was recorded.
    pub fn staged(&self) -> Option<u64>
        ensures { result ≡ self.now.staged }
    {
        self.staged
    }

    /// The status that was recorded, if an outcome was.
    pub fn status(&self) -> Option<u16>
        ensures { result ≡ status_in self.now }
    {
        match self.staged {
            Some(_) => judge(&self.post).1,
            None => None,
        }
    }

    /// How many attempts of the endpoint may be under way now.
    pub fn limit(&self) -> u32
        ensures { result ≡ self.now.limit }
    {
        self.limit
    }

    /// How many are.
    pub fn in_flight(&self) -> u32
        ensures { result ≡ self.now.in_flight }
    {
        self.in_flight
    }

    /// Whether the event is given up, by all records: ten of its attempts failed.
    pub fn is_exhausted(&self) -> bool
        ensures { result ≡ self.now.exhausted }
    {
        self.exhausted
    }
}

/// How many attempts of an endpoint may be under way, and how many are.
#[derive(Clone, Copy, PartialEq, Eq, Debug)]
pub struct Limits {
    pub limit: u32,
    pub in_flight: u32,
    /// The round trip of the endpoint without load, in microseconds, or 0 before the first sample.
    pub noload: u64,
}
