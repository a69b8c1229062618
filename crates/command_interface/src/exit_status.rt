//! How a command ends: its exit status, and what it tells on standard error.
ghost use Rattle.std.specs.Prelude.{◌≡◌, ◌≤◌, Err, Some, IfSome, OnOk};
ghost use Rattle.std.specs.Io.KnownBytes.{Appends};
ghost use Rattle.text_lines.specs.Streams.{AppendsFront};
ghost use Rattle.text_lines.specs.declared.fault.StreamFault.TheVariants as command;
ghost use Rattle.command_interface.specs.declared.exit_status.CommandFault.TheVariants.{Ended};
ghost use Rattle.command_interface.specs.Reports.{argument_fault, open_fault, store_fault, file_fault_name};
ghost use Rattle.command_interface.specs.Reports.{store_fault_name, exit_status, told_text, fault_line, ReportsEnd};

use arrayvec::ArrayString;
use relay_types::ReadFault;
use spool::OpenFault;
use sqlite::{Error, ErrorCode};
use std::alloc::AllocError;
use std::fmt;
use std::fmt::Write as _;
use std::io::Write;
use text_lines::{StreamFault, write_bytes};

/// Done.
pub const DONE: u8 = 0;

/// The words are no command, or an argument isn't what its reader takes.
pub const USAGE: u8 = 1;

/// A reader, a writer, the store or memory failed.
pub const FAILED: u8 = 3;

/// The file isn't one that the relay takes.
pub const UNFIT: u8 = 4;

/// Why the relay doesn't take a file.
#[derive(Clone, Copy, PartialEq, Eq, Debug)]
pub enum FileFault {
    /// It isn't one of SQLite's, or its tables aren't the relay's.
    NotOurs,
    /// Its tables are of a later version.
    NewerVersion,
    /// Its tables are of an older version. Every opening migrates them, so no command reports it.
    OldVersion,
    /// Its tables are the relay's, and their rows aren't such as a legal history has.
    Damaged,
}

/// Why a store can't be opened or read, whatever its tables are.
#[derive(Clone, Copy, PartialEq, Eq, Debug)]
pub enum StoreFault {
    /// Another program has the file open, another relay for one.
    Busy,
    /// The path leads to no file that may be opened and written, or a rollback journal of SQLite's lies beside it.
    CannotOpen,
    /// A page isn't what was written, or not one of SQLite's.
    Corrupt,
    /// The disk or the file has no room.
    Full,
}

impl fmt::Display for FileFault {
    ghost output = { λ fault. Some (file_fault_name fault) };

    fn fmt<W: fmt::Write>(&self, f: &mut fmt::Formatter<W>) -> fmt::Result {
        match self {
            FileFault::NotOurs => f.write_str("NotOurs"),
            FileFault::NewerVersion => f.write_str("NewerVersion"),
            FileFault::OldVersion => f.write_str("OldVersion"),
            FileFault::Damaged => f.write_str("Damaged"),
        }
    }
}

impl fmt::Display for StoreFault {
    ghost output = { λ fault. Some (store_fault_name fault) };

    fn fmt<W: fmt::Write>(&self, f: &mut fmt::Formatter<W>) -> fmt::Result {
        match self {
            StoreFault::Busy => f.write_str("Busy"),
            StoreFault::CannotOpen => f.write_str("CannotOpen"),
            StoreFault::Corrupt => f.write_str("Corrupt"),
            StoreFault::Full => f.write_str("Full"),
        }
    }
}

/// Why a command wasn't done.
#[derive(Clone, Copy, PartialEq, Eq, Debug)]
pub enum CommandFault {
    /// An argument isn't what its reader takes.
    Argument(ReadFault),
    /// The command ended early.
    Ended(StreamFault),
    /// The relay doesn't take the file.
    File(FileFault),
    /// The store can't be opened or read.
    Store(StoreFault),
}

impl CommandFault {
    /// The exit status of a command that ends so: 1 for an argument, 2 for what was read, 4 for
    /// what is in a file, 3 for the rest.
    fn status(self) -> u8
        ensures status { result ≡ exit_status (Err self) }
        ensures most { result ≤ 4 }
    {
        match self {
            CommandFault::Argument(_) => USAGE,
            CommandFault::Ended(fault) => fault.status(),
            CommandFault::File(_) => UNFIT,
            CommandFault::Store(_) => FAILED,
        }
    }
}

impl fmt::Display for CommandFault {
    ghost output = { λ fault. Some (told_text fault) };

    fn fmt<W: fmt::Write>(&self, f: &mut fmt::Formatter<W>) -> fmt::Result {
        match self {
            CommandFault::Argument(fault) => write!(f, "{fault}"),
            CommandFault::Ended(fault) => write!(f, "{fault}"),
            CommandFault::File(fault) => write!(f, "{fault}"),
            CommandFault::Store(fault) => write!(f, "{fault}"),
        }
    }
}

impl From<ReadFault> for CommandFault {
    ghost from_gives = { λ refusal fault. fault ≡ argument_fault refusal };

    fn from(fault: ReadFault) -> CommandFault {
        match fault {
            ReadFault::OutOfMemory => CommandFault::Ended(StreamFault::OutOfMemory),
            _ => CommandFault::Argument(fault),
        }
    }
}

impl From<StreamFault> for CommandFault {
    ghost from_gives = { λ early fault. fault ≡ Ended early };

    fn from(fault: StreamFault) -> CommandFault {
        CommandFault::Ended(fault)
    }
}

impl From<AllocError> for CommandFault {
    ghost from_gives = { λ _ fault. fault ≡ Ended command.OutOfMemory };

    fn from(_: AllocError) -> CommandFault {
        CommandFault::Ended(StreamFault::OutOfMemory)
    }
}

impl From<OpenFault> for CommandFault {
    ghost from_gives = { λ refusal fault. fault ≡ open_fault refusal };

    fn from(fault: OpenFault) -> CommandFault {
        match fault {
            OpenFault::NotOurs => CommandFault::File(FileFault::NotOurs),
            OpenFault::NewerVersion => CommandFault::File(FileFault::NewerVersion),
            OpenFault::OldVersion => CommandFault::File(FileFault::OldVersion),
            OpenFault::Damaged => CommandFault::File(FileFault::Damaged),
            OpenFault::Store(error) => store_fault(error),
            OpenFault::OutOfMemory => CommandFault::Ended(StreamFault::OutOfMemory),
        }
    }
}

// As what the store's error is told.
fn store_fault(error: Error) -> CommandFault
    ensures { result ≡ store_fault error }
{
    match error {
        Error::SqliteFailure(ErrorCode::DatabaseBusy) => CommandFault::Store(StoreFault::Busy),
        Error::SqliteFailure(ErrorCode::CannotOpen) => CommandFault::Store(StoreFault::CannotOpen),
        Error::SqliteFailure(ErrorCode::DatabaseCorrupt) => CommandFault::Store(
            StoreFault::Corrupt,
        ),
        Error::SqliteFailure(ErrorCode::DiskFull) => CommandFault::Store(StoreFault::Full),
        _ => CommandFault::Ended(StreamFault::Lost),
    }
}

/// Tells the fault of an end, and gives its exit status: 0 done, 1 an argument is refused, 2 what
/// was read, 4 the relay doesn't take the file, 3 the rest.
pub fn end<E: Write>(errors: &mut E, end: Result<(), CommandFault>) -> u8
    ensures status { result ≡ exit_status end }
    ensures tells { ReportsEnd end (E.contents errors.old) (E.contents errors.new) }
    ensures most { result ≤ 4 }
{
    match end {
        Ok(()) => DONE,
        Err(fault) => {
            let _ = tell_fault(errors, &fault);
            fault.status()
        }
    }
}

/// Tells what is at fault: `relayd: `, its text and a line feed, 64 bytes at most. No memory is
/// taken, since there may be none.
pub fn tell_fault<F: fmt::Display, E: Write>(errors: &mut E, fault: &F) -> Result<(), StreamFault>
    ensures told { OnOk result (IfSome (F.output fault.now)
        (λ text. Appends (E.contents errors.old) (E.contents errors.new) (fault_line text))) }
    ensures front { IfSome (F.output fault.now)
        (λ text. AppendsFront (E.contents errors.old) (E.contents errors.new) (fault_line text)) }
{
    // The longest fault of a command takes 44: `relayd: line 18446744073709551615: bad line`.
    let mut line = ArrayString::<64>::new();
    match writeln!(line, "relayd: {fault}") {
        Ok(()) => write_bytes(errors, line.as_str().as_bytes()),
        Err(fmt::Error) => Err(StreamFault::Write),
    }
}
