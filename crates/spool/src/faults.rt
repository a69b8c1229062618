//! Why an opening, a load or a commit gave no value.
ghost use Rattle.std.specs.Prelude.{◌≡◌, ◌↔◌, Some, IsTrue};
ghost use Rattle.spool.specs.Adopting.{fault_of, unloaded_fault};
ghost use Rattle.spool.specs.Books.{load_fault_name};
ghost use Rattle.spool.specs.Opening.{fault_name};

use crate::batch::Batch;
use crate::doubt::Doubt;
use sound_tables::TableFault;
use spool_sql::{Cause, cause_of};
use sqlite::{Error, ErrorCode};
use std::fmt;

/// Why a store was not opened.
#[derive(Clone, Copy)]
pub enum OpenFault {
    /// If tables are to be made: a table, an index or a view already has the name of one of the relay's tables. If they
    /// are read: the store has no `meta` that names the relay, or lacks another table of the relay's.
    NotOurs,
    /// The tables are of a later version.
    NewerVersion,
    /// The tables are the relay's, and their rows aren't such as a legal history has, or they lack
    /// a key or a reference.
    Damaged,
    /// The store refused a call for a fault of its own. What a stop may leave stands in the file.
    Store(Error),
    /// Memory was refused, and the tables are as they were.
    OutOfMemory,
    /// The tables are of version 1. It is checked after `NewerVersion`, and only `Vault::adopt` returns it.
    OldVersion,
}

impl OpenFault {
    /// Whether memory was refused.
    pub fn is_memory(self) -> bool
        ensures { IsTrue result ↔ (self ≡ OpenFault.OutOfMemory) }
    {
        matches!(self, OpenFault::OutOfMemory)
    }

    /// Whether the tables are of version 1.
    pub(crate) fn is_old(self) -> bool
        ensures { IsTrue result ↔ (self ≡ OpenFault.OldVersion) }
    {
        matches!(self, OpenFault::OldVersion)
    }
}

// Under the relay's schema no statement is refused for another cause than memory or the store.
impl From<TableFault> for OpenFault {
    ghost from_gives = { λ fault told. told ≡ fault_of fault };

    fn from(fault: TableFault) -> OpenFault {
        match fault {
            TableFault::NotOurs => OpenFault::NotOurs,
            TableFault::NewerVersion => OpenFault::NewerVersion,
            TableFault::OldVersion => OpenFault::OldVersion,
            TableFault::Damaged => OpenFault::Damaged,
            TableFault::Failed(error) => match cause_of(error) {
                Cause::Memory => OpenFault::OutOfMemory,
                Cause::Store => OpenFault::Store(error),
                Cause::Other => OpenFault::NotOurs,
            },
        }
    }
}

// As what an opening is told whose books weren't loaded. A vault that was just adopted isn't closed.
impl From<LoadFault> for OpenFault {
    ghost from_gives = { λ fault told. told ≡ unloaded_fault fault };

    fn from(fault: LoadFault) -> OpenFault {
        match fault {
            LoadFault::Closed => OpenFault::Store(Error::SqliteFailure(ErrorCode::Closed)),
            LoadFault::Store(error) => OpenFault::Store(error),
            LoadFault::OutOfMemory => OpenFault::OutOfMemory,
        }
    }
}

impl fmt::Display for OpenFault {
    ghost output = { λ fault. Some (fault_name fault) };

    fn fmt<W: fmt::Write>(&self, f: &mut fmt::Formatter<W>) -> fmt::Result {
        match self {
            OpenFault::NotOurs => f.write_str("NotOurs"),
            OpenFault::NewerVersion => f.write_str("NewerVersion"),
            OpenFault::Damaged => f.write_str("Damaged"),
            OpenFault::Store(_) => f.write_str("Store"),
            OpenFault::OutOfMemory => f.write_str("OutOfMemory"),
            OpenFault::OldVersion => f.write_str("OldVersion"),
        }
    }
}

/// Why the books were not loaded. Nothing was written.
#[derive(Clone, Copy)]
pub enum LoadFault {
    /// A commit was doubtful.
    Closed,
    /// The store refused a call for a fault of its own, or has a row that no record gives it (`DatabaseCorrupt`).
    Store(Error),
    /// Memory was refused.
    OutOfMemory,
}

impl fmt::Display for LoadFault {
    ghost output = { λ fault. Some (load_fault_name fault) };

    fn fmt<W: fmt::Write>(&self, f: &mut fmt::Formatter<W>) -> fmt::Result {
        match self {
            LoadFault::Closed => f.write_str("Closed"),
            LoadFault::Store(_) => f.write_str("Store"),
            LoadFault::OutOfMemory => f.write_str("OutOfMemory"),
        }
    }
}

/// Why a commit changed nothing. The batch is handed back and the rows are as before.
#[derive(Clone, Copy, PartialEq, Eq, Debug)]
pub enum Unchanged {
    /// An earlier commit was doubtful.
    Closed,
    /// The batch is of another opening, or isn't the next one.
    OutOfTurn,
    /// A record isn't legal after the rows.
    Illegal,
    /// Memory was refused.
    OutOfMemory,
}

/// How a commit ends that gives no receipt.
pub enum CommitEnd {
    /// Nothing was written.
    Unchanged(Batch, Unchanged),
    /// The old or the new rows stand in the file, and the vault is closed.
    Doubtful(Doubt, Error),
}
