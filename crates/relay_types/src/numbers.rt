//! The numbers with limits of their own.
ghost use Rattle.std.specs.Prelude.{◌≡◌, ◌≤◌, ◌↔◌, IsTrue, IsOk, IfOk, IfErr};
ghost use Rattle.relay_types.specs.Values.{is_max_limit, is_moment};

use crate::fault::ReadFault;
use crate::limits::{MAX_LIMIT, MAX_MOMENT};
use std::marker::Model;

/// The greatest concurrency limit of an endpoint, 1 to 1000.
#[derive(Clone, Copy, PartialEq, Eq, PartialOrd, Ord, Debug)]
pub struct MaxLimit {
    limit: u32,
}

impl Model for MaxLimit {
    ghost use Rattle.std.specs.Prelude.{ℕ, IsTrue};
    ghost use Rattle.relay_types.specs.Values.{is_max_limit};

    ghost Value = { ℕ };

    ghost view = { λ a. a.limit };

    ghost invariant = { λ a. IsTrue (is_max_limit a.limit) };

    ghost inverse = { λ n. record { limit = n } };
}

impl MaxLimit {
    /// Takes a number from 1 to 1000.
    pub fn of(limit: u64) -> Result<MaxLimit, ReadFault>
        ensures valid { IsOk result ↔ IsTrue (is_max_limit limit) }
        ensures value { IfOk result (λ max. max ≡ limit) }
        ensures refusal { IfErr result (λ fault. fault ≡ ReadFault.BadMax) }
    {
        if 1 <= limit && limit <= MAX_LIMIT.into() {
            Ok(MaxLimit {
                limit: limit as u32,
            })
        } else {
            Err(ReadFault::BadMax)
        }
    }

    /// The number.
    pub fn get(self) -> u32
        ensures number { result ≡ self }
        ensures least { 1 ≤ self }
        ensures most { self ≤ MAX_LIMIT }
    {
        self.limit
    }
}

/// Whole seconds since the Unix epoch, at most 2^40.
#[derive(Clone, Copy, PartialEq, Eq, PartialOrd, Ord, Debug)]
pub struct Moment {
    seconds: u64,
}

impl Model for Moment {
    ghost use Rattle.std.specs.Prelude.{ℕ, IsTrue};
    ghost use Rattle.relay_types.specs.Values.{is_moment};

    ghost Value = { ℕ };

    ghost view = { λ a. a.seconds };

    ghost invariant = { λ a. IsTrue (is_moment a.seconds) };

    ghost inverse = { λ n. record { seconds = n } };
}

impl Moment {
    /// Takes a number of seconds up to 2^40.
    pub fn of(seconds: u64) -> Result<Moment, ReadFault>
        ensures valid { IsOk result ↔ IsTrue (is_moment seconds) }
        ensures value { IfOk result (λ moment. moment ≡ seconds) }
        ensures refusal { IfErr result (λ fault. fault ≡ ReadFault.BadMoment) }
    {
        if seconds <= MAX_MOMENT {
            Ok(Moment { seconds })
        } else {
            Err(ReadFault::BadMoment)
        }
    }

    /// The seconds since the Unix epoch.
    pub fn seconds(self) -> u64
        ensures number { result ≡ self }
        ensures most { self ≤ MAX_MOMENT }
    {
        self.seconds
    }
}
