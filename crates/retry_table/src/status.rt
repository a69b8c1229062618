//! The status of an answered post.
ghost use Rattle.std.specs.Prelude.{◌≡◌, ◌≤◌, ◌↔◌, IsSome, IfSome};
ghost use Rattle.relay_types.specs.Legal.{is_status};

use std::marker::Model;

/// The status code of an HTTP response, 100 to 999. RFC 9110, section 15, gives the classes from
/// 1xx to 5xx; a code from 600 on has no meaning there, but an answer can hold it.
#[derive(Clone, Copy, PartialEq, Eq, Debug)]
pub struct Status {
    number: u16,
}

impl Model for Status {
    ghost use Rattle.std.specs.Prelude.{ℕ, IsTrue};
    ghost use Rattle.relay_types.specs.Values.{is_between};

    ghost Value = { ℕ };

    ghost view = { λ a. a.number };

    ghost invariant = { λ a. IsTrue (is_between 100 999 a.number) };

    ghost inverse = { λ n. record { number = n } };
}

impl Status {
    /// Takes a number from 100 to 999.
    pub fn of(number: u16) -> Option<Status>
        ensures valid { IsSome result ↔ ((100 ≤ number) × (number ≤ 999)) }
        ensures value { IfSome result (λ status. status ≡ number) }
    {
        if 100 <= number && number <= 999 {
            Some(Status { number })
        } else {
            None
        }
    }

    /// The number.
    pub fn get(self) -> u16
        ensures number { result ≡ self }
        ensures least { 100 ≤ self }
        ensures most { self ≤ 999 }
    {
        self.number
    }
}

/// Whether it can be recorded: the status of an answer, or 0.
pub fn is_status(status: u16) -> bool
    ensures { result ≡ is_status status }
{
    status == 0 || Status::of(status).is_some()
}
