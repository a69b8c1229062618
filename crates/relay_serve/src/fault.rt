//! Why a relay doesn't serve, or ended.
ghost use Rattle.std.specs.Prelude.{◌≡◌, ◌≤◌, Some};
ghost use Rattle.command_interface.specs.Reports.{open_fault};
ghost use Rattle.relay_serve.specs.Ends.{serving_status, serving_text, TellsEnd};
ghost use Rattle.relay_serve.specs.declared.fault.ServeFault.TheVariants.{File, OutOfMemory};

use crate::served::Served;
use command_interface::{CommandFault, DONE, FAILED, USAGE, end, tell_fault};
use delivery::HaltCause;
use recovery::AuditFault;
use spool::OpenFault;
use std::alloc::AllocError;
use std::fmt;
use std::io::Write;

/// Why a relay doesn't serve, or ended.
#[derive(Clone, Copy)]
pub enum ServeFault {
    /// The address isn't one.
    BadAddress,
    /// The file wasn't opened.
    File(CommandFault),
    /// Nothing can be listened on there.
    CannotListen,
    /// A thread couldn't be started.
    NoThread,
    /// The committer gave up.
    Halted(HaltCause),
    /// At its end the rows don't tell what the desk tells, or couldn't be asked.
    Audit(AuditFault),
    /// Standard output takes nothing.
    Write,
    OutOfMemory,
}

impl fmt::Display for ServeFault {
    ghost output = { λ fault. Some (serving_text fault) };

    fn fmt<W: fmt::Write>(&self, f: &mut fmt::Formatter<W>) -> fmt::Result {
        match self {
            ServeFault::BadAddress => f.write_str("BadAddress"),
            ServeFault::File(fault) => write!(f, "{fault}"),
            ServeFault::CannotListen => f.write_str("CannotListen"),
            ServeFault::NoThread => f.write_str("NoThread"),
            ServeFault::Halted(_) => f.write_str("Halted"),
            ServeFault::Audit(fault) => write!(f, "{fault}"),
            ServeFault::Write => f.write_str("Write"),
            ServeFault::OutOfMemory => f.write_str("OutOfMemory"),
        }
    }
}

impl From<OpenFault> for ServeFault {
    ghost from_gives = { λ refusal fault. fault ≡ File (open_fault refusal) };

    fn from(fault: OpenFault) -> ServeFault {
        ServeFault::File(CommandFault::from(fault))
    }
}

impl From<AllocError> for ServeFault {
    ghost from_gives = { λ _ fault. fault ≡ OutOfMemory };

    fn from(_: AllocError) -> ServeFault {
        ServeFault::OutOfMemory
    }
}

/// Tells the fault of a relay's end, and gives the exit status: 0 where it was asked to end, 1 a
/// bad address, 4 a file that isn't the relay's, 3 the rest.
pub fn end_serving<E: Write>(errors: &mut E, ended: Result<Served, ServeFault>) -> u8
    ensures status { result ≡ serving_status ended }
    ensures tells { TellsEnd ended (E.contents errors.old) (E.contents errors.new) }
    ensures most { result ≤ 4 }
{
    match ended {
        Ok(_) => DONE,
        Err(ServeFault::File(fault)) => end(errors, Err(fault)),
        Err(fault) => {
            let _ = tell_fault(errors, &fault);
            match fault {
                ServeFault::BadAddress => USAGE,
                _ => FAILED,
            }
        }
    }
}
