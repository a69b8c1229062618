//! The numbers of records.
ghost use Rattle.std.specs.Prelude.{◌≡◌, ◌<◌, pos};
ghost use Rattle.sqlite.specs.declared.types.Value.TheVariants.{Int};
ghost use Rattle.sqlite_value.specs.Value.{owned};
ghost use Rattle.relay_types.specs.declared.limits.TheConstants.{MAX_RECORDS};

use crate::value::int;
use sqlite_value::value::ValueRef;
use std::marker::Model;

/// The sequence number of a record, which is its place among all records: below `MAX_RECORDS`.
#[derive(Clone, Copy, PartialEq, Eq, Debug)]
pub struct Seq {
    number: u64,
}

impl Model for Seq {
    ghost use Rattle.std.specs.Prelude.{ℕ, ◌<◌};
    ghost use Rattle.relay_types.specs.declared.limits.TheConstants.{MAX_RECORDS};

    ghost Value = { ℕ };

    ghost view = { λ s. s.number };

    ghost invariant = { λ s. s.number < MAX_RECORDS };

    ghost inverse = { λ n. record { number = n } };
}

impl Seq {
    /// The sequence number that is this number.
    pub fn of(number: u64) -> Seq
        requires { number < MAX_RECORDS }
        ensures { result ≡ number }
    {
        Seq { number }
    }

    /// The number.
    pub fn get(self) -> u64
        ensures number { result ≡ self }
        ensures bound { self < MAX_RECORDS }
    {
        self.number
    }

    // As SQL reads it.
    pub(crate) fn value<'a>(self) -> ValueRef<'a>
        ensures value { owned result ≡ Int (pos self) }
        ensures bound { self < MAX_RECORDS }
    {
        int(self.number)
    }
}
