//! The runner of scripts: the desk with what it handed out, and the store.
ghost use Rattle.std.specs.Prelude.{◌≡◌, ◌≢◌, ◌⊎◌, [], false, Err, IsTrue, IfOk, IfErr, MatchResult};
ghost use Rattle.permits.specs.declared.pool.TheConstants.{PARTS};
ghost use Rattle.sqlite.specs.Held.{state};
ghost use Rattle.spool.specs.Opening.{has_ours};
ghost use Rattle.drill.specs.Moves.{Session, answer_to, begun};
ghost use Rattle.drill.specs.Cores.{IsCore};
ghost use Rattle.drill.specs.Restarts.{OpensAgain, next_mark};
ghost use Rattle.drill.specs.Runners.{Answers, RunStandsFor};
ghost use Rattle.recovery.specs.Left.{IsCleanAt, HasNoTable};

use crate::calls::Core;
use crate::prepared::{most_tickets, seqs_for};
use permits::{PARTS, Pool};
use recovery::{create, reopen};
use script_lines::{Call, Reply};
use spool::Vault;
use sqlite::{Alter, Connection};
use std::alloc::{AllocError, Global};
use std::sync::ledger::{Blank, Ledger};
use text_lines::{LineFault, StreamFault};

/// The desk with what it handed out, and the store. At each line they represent some session.
pub(crate) struct Runner<L: Ledger, S: Alter> {
    pub(crate) core: Core<L>,
    pub(crate) vault: Vault<S>,
    pub(crate) mark: u64,
    ghost stands: { IsCore core },
}

impl<L: Ledger, S: Alter> Runner<L, S> {
    // Makes one call. It allocates all of its own memory first.
    pub(crate) fn call(&mut self, alloc: Global, event: Call) -> Result<Reply, AllocError>
        ensures answers { IsCleanAt S.Store self.new.vault.conn → IfOk result (λ reply.
            Answers S.Store self.old.core self.old.vault (λ s. answer_to s event) reply self.new.core self.new.vault) }
        ensures clean { IsCleanAt S.Store self.new.vault.conn → IsCleanAt S.Store self.old.vault.conn }
    {
        let seqs = seqs_for(alloc, &event)?;
        self.core.reserve(most_tickets(&event), 1)?;
        Ok(self.core.carry_out(&mut self.vault, event, seqs))
    }

    // Closes the desk with all that is out, and opens the store again, under the next mark.
    pub(crate) fn reopen(
        self,
        alloc: Global,
    ) -> Result<(Runner<L, S>, Reply), (Connection<S>, LineFault)>
        ensures opens { IfOk result (λ to. IsCleanAt S.Store to.0.vault.conn → (s : Session)
            → RunStandsFor S.Store self.core self.vault s
            → (next : Session) × OpensAgain s s.world.left to.1 next × RunStandsFor S.Store to.0.core to.0.vault next) }
        ensures mark { IfOk result (λ to. (to.0.mark ≡ next_mark self.mark) × (to.0.vault.mark ≡ to.0.mark)) }
        ensures fault { IfErr result (λ back. back.1 ≢ LineFault.Bad) }
        ensures clean { MatchResult result
            (λ to. IsCleanAt S.Store to.0.vault.conn → IsCleanAt S.Store self.vault.conn)
            (λ back. IsCleanAt S.Store back.0 → IsCleanAt S.Store self.vault.conn) }
        ensures mode { IfErr result (λ back. back.0.in_transaction ≡ false) }
    {
        let mark = self.mark.wrapping_add(1);
        let (pool, conn) = self.close();
        match reopen(alloc, pool, conn, mark) {
            Ok((desk, vault)) => {
                let records = vault.next();
                let core = Core::of(alloc, desk);
                Ok((Runner { core, vault, mark }, Reply::Reopened { records }))
            }
            Err((conn, fault)) if fault.is_memory() => Err((conn, LineFault::OutOfMemory)),
            Err((conn, _)) => Err((conn, LineFault::Lost)),
        }
    }

    // Closes the desk with all that is out: its pool, which is empty, and the store's connection.
    pub(crate) fn close(self) -> (Pool<L>, Connection<S>)
        ensures empty { result.0 ≡ [] }
        ensures same { result.1 ≡ self.vault.conn }
        ensures mode { result.1.in_transaction ≡ false }
    {
        let Runner {
            core,
            vault,
            mark: _,
        } = self;
        (core.close(), vault.release())
    }
}

// The runner over a store that has no table, or the store's connection.
pub(crate) fn start<L: Ledger, S: Alter>(
    alloc: Global,
    blank: Blank,
    conn: Connection<S>,
    mark: u64,
) -> Result<Runner<L, S>, (Connection<S>, StreamFault)>
    requires name { blank.name ≡ L.name }
    requires parts { blank.parts ≡ L.parts }
    requires enough { blank.parts ≡ PARTS }
    ensures stands { IfOk result
        (λ runner. IsCleanAt S.Store runner.vault.conn → HasNoTable S.Store conn
        → RunStandsFor S.Store runner.core runner.vault begun) }
    ensures mark { IfOk result (λ runner. (runner.mark ≡ mark) × (runner.vault.mark ≡ mark)) }
    ensures clean { MatchResult result
        (λ runner. IsCleanAt S.Store runner.vault.conn → IsCleanAt S.Store conn)
        (λ back. IsCleanAt S.Store back.0 → IsCleanAt S.Store conn) }
    ensures faults { IfErr result (λ back. (back.1 ≡ StreamFault.Lost) ⊎ (back.1 ≡ StreamFault.OutOfMemory)) }
    ensures mode { conn.in_transaction ≡ false → IfErr result (λ back. back.0.in_transaction ≡ false) }
    ensures busy { IsTrue conn.in_transaction → result ≡ Err (conn, StreamFault.Lost) }
    ensures taken { IsTrue (has_ours (state S.Store conn).now.schema)
        → MatchResult result (λ _. ⊥) (λ back. Unit {0}) }
{
    if !conn.is_autocommit() {
        return Err((conn, StreamFault::Lost));
    }
    match create(alloc, blank, conn, mark) {
        Ok((desk, vault)) => Ok(Runner {
            core: Core::of(alloc, desk),
            vault,
            mark,
        }),
        Err((conn, fault)) if fault.is_memory() => Err((conn, StreamFault::OutOfMemory)),
        Err((conn, _)) => Err((conn, StreamFault::Lost)),
    }
}
