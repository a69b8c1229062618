//! Why a reader gave no value.
ghost use Rattle.std.specs.Prelude.{◌≡◌, Some};
ghost use Rattle.relay_types.specs.Faults.{fault_number, fault_name};

use std::fmt;

/// Why a reader gave no value. Each reader has one refusal of its own; `Target::read` alone can also lack memory.
#[derive(Clone, Copy, PartialEq, Eq, Debug)]
pub enum ReadFault {
    /// No name of an endpoint: 1 to 32 characters of `a-z 0-9 -`.
    BadName,
    /// No id of an event: 1 to 64 characters of `A-Z a-z 0-9 _ -`.
    BadId,
    /// No secret, or not 1 to 4 of them.
    BadSecret,
    /// No target that the relay posts to.
    BadUrl,
    /// No maximum of 1 to 1000.
    BadMax,
    /// A body of more than 65,536 bytes.
    TooLong,
    /// A moment after 2^40 seconds.
    BadMoment,
    /// Memory was refused.
    OutOfMemory,
}

impl ReadFault {
    /// The number of the refusal, from 1.
    pub fn number(self) -> u8
        ensures { result ≡ fault_number self }
    {
        match self {
            ReadFault::BadName => 1,
            ReadFault::BadId => 2,
            ReadFault::BadSecret => 3,
            ReadFault::BadUrl => 4,
            ReadFault::BadMax => 5,
            ReadFault::TooLong => 6,
            ReadFault::BadMoment => 7,
            ReadFault::OutOfMemory => 8,
        }
    }
}

impl fmt::Display for ReadFault {
    ghost output = { λ fault. Some (fault_name fault) };

    fn fmt<W: fmt::Write>(&self, f: &mut fmt::Formatter<W>) -> fmt::Result {
        f.write_str(fault_name(*self))
    }
}

fn fault_name(fault: ReadFault) -> &'static str
    ensures { result.now ≡ fault_name fault }
{
    match fault {
        ReadFault::BadName => "BadName",
        ReadFault::BadId => "BadId",
        ReadFault::BadSecret => "BadSecret",
        ReadFault::BadUrl => "BadUrl",
        ReadFault::BadMax => "BadMax",
        ReadFault::TooLong => "TooLong",
        ReadFault::BadMoment => "BadMoment",
        ReadFault::OutOfMemory => "OutOfMemory",
    }
}
