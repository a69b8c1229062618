//! Why reading and writing ended early.
ghost use Rattle.std.specs.Prelude.{◌≡◌, ◌≤◌, Err, Some};
ghost use Rattle.text_lines.specs.Ends.{status_of, fault_text};
ghost use Rattle.text_lines.specs.declared.fault.StreamFault.TheVariants.{OutOfMemory};

use std::alloc::AllocError;
use std::fmt;

/// Why a command that reads and writes ended early. What it wrote before stands.
#[derive(Clone, Copy, PartialEq, Eq, Debug)]
pub enum StreamFault {
    /// The line of this number, from 1, isn't in the form of the command's lines.
    BadLine(u64),
    /// A line, the number of lines or a body is beyond its bound.
    TooLong,
    /// The reader failed, or was asked as often as it may be.
    Read,
    /// The writer failed.
    Write,
    /// What lies below the command couldn't be opened, or not again.
    Lost,
    /// Memory was refused.
    OutOfMemory,
}

impl StreamFault {
    /// The exit status of a command that ends so: 2 for what was read, 3 for the rest.
    pub fn status(self) -> u8
        ensures status { result ≡ status_of (Err self) }
        ensures most { result ≤ 3 }
    {
        match self {
            StreamFault::BadLine(_) | StreamFault::TooLong => 2,
            StreamFault::Read | StreamFault::Write | StreamFault::Lost | StreamFault::OutOfMemory =>
                3,
        }
    }
}

impl fmt::Display for StreamFault {
    ghost output = { λ fault. Some (fault_text fault) };

    fn fmt<W: fmt::Write>(&self, f: &mut fmt::Formatter<W>) -> fmt::Result {
        match self {
            StreamFault::BadLine(number) => write!(f, "line {number}: bad line"),
            StreamFault::TooLong => f.write_str("TooLong"),
            StreamFault::Read => f.write_str("Read"),
            StreamFault::Write => f.write_str("Write"),
            StreamFault::Lost => f.write_str("Lost"),
            StreamFault::OutOfMemory => f.write_str("OutOfMemory"),
        }
    }
}

impl From<AllocError> for StreamFault {
    ghost from_gives = { λ _ fault. fault ≡ OutOfMemory };

    fn from(_: AllocError) -> StreamFault {
        StreamFault::OutOfMemory
    }
}
