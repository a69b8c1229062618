//! What an audit shows.
ghost use Rattle.std.specs.Prelude.{◌≡◌, Err, IsTrue};
ghost use Rattle.sqlite.specs.State.{HasCleanDisk};
ghost use Rattle.spool_sql.specs.Steps.{IfClean};
ghost use Rattle.spool.specs.Adopting.{IsOnlyRead};
ghost use Rattle.recovery.specs.Audits.{TellsAudit};

use crate::audits::{AuditFault, audit};
use desk::Desk;
use spool::Vault;
use sqlite::Alter;
use std::alloc::Global;
use std::sync::ledger::Ledger;

/// Shows that an audit found rows and a desk to agree. Only `audit_shown` makes one.
#[derive(Drop)]
pub struct Audited {
    of: (),
}

/// An audit that shows that it was made.
pub fn audit_shown<L: Ledger, S: Alter>(
    alloc: Global,
    vault: &mut Vault<S>,
    desk: &Desk<L>,
) -> Result<Audited, AuditFault>
    ensures tells { TellsAudit S.Store vault.old vault.new desk.now result }
    ensures closed { IsTrue vault.old.closed → result ≡ Err AuditFault.Store }
    ensures mark { vault.new.mark ≡ vault.old.mark }
    ensures next { vault.new.next ≡ vault.old.next }
    ensures doubt { vault.new.closed ≡ vault.old.closed }
    ensures read { IfClean S.Store vault.old.conn vault.new.conn IsOnlyRead }
    ensures clean { IfClean S.Store vault.old.conn vault.new.conn (λ a _. HasCleanDisk a) }
{
    match audit(alloc, vault, desk) {
        Ok(()) => Ok(Audited { of: () }),
        Err(fault) => Err(fault),
    }
}
