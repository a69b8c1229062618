//! The desk of what a vault holds.
ghost use Rattle.std.specs.Prelude.{◌≡◌, List, [], false, IfErr, IfOk, IsTrue, MatchResult};
ghost use Rattle.relay_types.specs.declared.record.Record.{Record};
ghost use Rattle.spool_sql.specs.Steps.{IfClean};
ghost use Rattle.spool.specs.Adopting.{IsReadOpen, LeavesRead};
ghost use Rattle.spool.specs.Vaults.{Holds};
ghost use Rattle.desk.specs.Desks.{HasNothingOut};
ghost use Rattle.recovery.specs.Left.{IsCleanAt};
ghost use Rattle.recovery.specs.Reopenings.{IsOfReading, IsReadingRefusal, OpensHeld};

use desk::Desk;
use permits::Pool;
use spool::{OpenFault, Vault};
use sqlite::{Alter, Connection};
use std::alloc::Global;
use std::sync::ledger::Ledger;

// The vault with the desk of what it holds. Nothing is written.
pub(crate) fn with_desk<L: Ledger, S: Alter>(
    alloc: Global,
    pool: Pool<L>,
    vault: Vault<S>,
    mark: u64,
) -> Result<(Desk<L>, Vault<S>), (Connection<S>, OpenFault)>
    requires empty { pool ≡ [] }
    requires mark { vault.mark ≡ mark }
    requires open { vault.closed ≡ false }
    ensures mark { IfOk result (λ opening. (opening.0.waiting.mark ≡ mark) × (opening.1.mark ≡ mark)) }
    ensures out { IfOk result (λ opening. HasNothingOut opening.0) }
    ensures opens { IfOk result (λ opening. IsCleanAt S.Store opening.1.conn
        → OpensHeld S.Store vault opening.0 opening.1) }
    ensures cause { IfErr result (λ back. IsOfReading back.1) }
    ensures sound { IfErr result (λ back. IfClean S.Store vault.conn back.0
        (λ a b. (history : List Record) → Holds S.Store vault history → IsReadingRefusal a b back.1)) }
    ensures seen { IfErr result (λ back. back.1 ≡ OpenFault.OutOfMemory
        → IfClean S.Store vault.conn back.0 (λ _ b. IsTrue b.is_open)) }
    ensures read { MatchResult result (λ opening. IfClean S.Store vault.conn opening.1.conn IsReadOpen)
        (λ back. IfClean S.Store vault.conn back.0 (λ a b. LeavesRead a b back.1)) }
    ensures clean { MatchResult result
        (λ opening. IsCleanAt S.Store opening.1.conn → IsCleanAt S.Store vault.conn)
        (λ back. IsCleanAt S.Store back.0 → IsCleanAt S.Store vault.conn) }
    ensures outside { IfErr result (λ back. back.0.in_transaction ≡ false) }
{
    let mut vault = vault;
    match vault.load(alloc) {
        Ok(books) => match Desk::of(alloc, pool, books, mark) {
            Ok(desk) => Ok((desk, vault)),
            Err(_) => Err((vault.release(), OpenFault::OutOfMemory)),
        },
        Err(fault) => Err((vault.release(), OpenFault::from(fault))),
    }
}
