//! Why there was no permit, or why one did not come back.
ghost use Rattle.std.specs.Prelude.{◌≡◌, Some};
ghost use Rattle.permits.specs.Refusals.{refusal_number, refusal_name};

use std::fmt;

/// Why there was no permit. The faults are looked for in this order.
#[derive(Clone, Copy, PartialEq, Eq, Debug)]
pub enum Refused {
    /// As many permits of the endpoint are out as its limit allows, or more.
    AtLimit,
    /// As many permits are out as a pool has places.
    TooManyOut,
    /// A permit of the delivery is out.
    AlreadyOut,
}

impl Refused {
    /// The number of the refusal, from 1.
    pub fn number(self) -> u8
        ensures { result ≡ refusal_number self }
    {
        match self {
            Refused::AtLimit => 1,
            Refused::TooManyOut => 2,
            Refused::AlreadyOut => 3,
        }
    }
}

impl fmt::Display for Refused {
    ghost output = { λ refused. Some (refusal_name refused) };

    fn fmt<W: fmt::Write>(&self, f: &mut fmt::Formatter<W>) -> fmt::Result {
        f.write_str(refusal_name(*self))
    }
}

fn refusal_name(refused: Refused) -> &'static str
    ensures { result.now ≡ refusal_name refused }
{
    match refused {
        Refused::AtLimit => "AtLimit",
        Refused::TooManyOut => "TooManyOut",
        Refused::AlreadyOut => "AlreadyOut",
    }
}

/// No row of the pool is the permit's.
#[derive(Clone, Copy, PartialEq, Eq, Debug)]
pub struct Foreign;
