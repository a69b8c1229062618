//! Whether the store has what the desk tells to be settled.
ghost use Rattle.std.specs.Prelude.{◌≡◌, Err, Some, IsTrue};
ghost use Rattle.sqlite.specs.State.{HasCleanDisk};
ghost use Rattle.spool_sql.specs.Steps.{IfClean};
ghost use Rattle.spool.specs.Adopting.{IsOnlyRead};
ghost use Rattle.recovery.specs.Audits.{TellsAudit, fault_name, refusal_of};

use desk::Desk;
use spool::{LoadFault, Vault};
use spool_sql::{Cause, cause_of};
use sqlite::Alter;
use std::alloc::Global;
use std::fmt;
use std::sync::ledger::Ledger;

/// Why an audit didn't find that desk and store tell the same.
#[derive(Clone, Copy, PartialEq, Eq, Debug)]
pub enum AuditFault {
    /// The rows tell of something else than the desk.
    Mismatch,
    /// The store failed, or a commit was doubtful, so that nobody knows what it holds.
    Store,
    /// Memory was refused.
    OutOfMemory,
}

impl fmt::Display for AuditFault {
    ghost output = { λ fault. Some (fault_name fault) };

    fn fmt<W: fmt::Write>(&self, f: &mut fmt::Formatter<W>) -> fmt::Result {
        match self {
            AuditFault::Mismatch => f.write_str("Mismatch"),
            AuditFault::Store => f.write_str("Store"),
            AuditFault::OutOfMemory => f.write_str("OutOfMemory"),
        }
    }
}

/// Compares what the rows tell with what the desk tells of the records that it settled: the totals,
/// the page of each endpoint, and the page of each event. Nothing is written. It reads all rows,
/// and is meant for a desk of which nothing is changed meanwhile and nothing waits: what was
/// committed and isn't settled is a `Mismatch`.
pub fn audit<L: Ledger, S: Alter>(
    alloc: Global,
    vault: &mut Vault<S>,
    desk: &Desk<L>,
) -> Result<(), AuditFault>
    ensures tells { TellsAudit S.Store vault.old vault.new desk.now result }
    ensures closed { IsTrue vault.old.closed → result ≡ Err AuditFault.Store }
    ensures mark { vault.new.mark ≡ vault.old.mark }
    ensures next { vault.new.next ≡ vault.old.next }
    ensures doubt { vault.new.closed ≡ vault.old.closed }
    ensures read { IfClean S.Store vault.old.conn vault.new.conn IsOnlyRead }
    ensures clean { IfClean S.Store vault.old.conn vault.new.conn (λ a _. HasCleanDisk a) }
{
    let books = match vault.load(alloc) {
        Ok(books) => books,
        Err(fault) => return Err(refusal_of(fault)),
    };
    if desk.is_told_by(&books) {
        Ok(())
    } else {
        Err(AuditFault::Mismatch)
    }
}

// As what a load that was refused is told.
fn refusal_of(fault: LoadFault) -> AuditFault
    ensures { result ≡ refusal_of fault }
{
    match fault {
        LoadFault::Closed => AuditFault::Store,
        LoadFault::Store(error) => match cause_of(error) {
            Cause::Memory => AuditFault::OutOfMemory,
            Cause::Store | Cause::Other => AuditFault::Store,
        },
        LoadFault::OutOfMemory => AuditFault::OutOfMemory,
    }
}
