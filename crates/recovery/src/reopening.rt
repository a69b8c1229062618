//! The opening of a store that has tables.
ghost use Rattle.std.specs.Prelude.{◌≡◌, [], false, IfErr, IfOk, IsTrue, MatchResult};
ghost use Rattle.sqlite.specs.Held.{state};
ghost use Rattle.spool_sql.specs.Steps.{IfClean};
ghost use Rattle.spool_sql.specs.Tables.{IsOwn};
ghost use Rattle.sound_tables.specs.Keys.{has_first_tables, has_meta};
ghost use Rattle.spool.specs.Adopting.{FailsIfOfStore, HaveFirstHistory, HaveHistory, IsForeign};
ghost use Rattle.spool.specs.Migrating.{LeavesMigrated};
ghost use Rattle.spool.specs.Opening.{IsBack};
ghost use Rattle.desk.specs.Desks.{HasNothingOut};
ghost use Rattle.recovery.specs.Left.{IsCleanAt};
ghost use Rattle.recovery.specs.Reopenings.{IsNotMigrated, IsOpenBehind, IsReadingRefusal, IsReopened, IsUnopened};
ghost use Rattle.recovery.specs.Reopenings.{ReopensLeft};

use crate::reading::with_desk;
use desk::Desk;
use permits::Pool;
use spool::{OpenFault, Vault};
use sqlite::{Alter, Connection};
use std::alloc::Global;
use std::sync::ledger::Ledger;

/// Opens a store that has tables, whoever wrote them, and returns its desk and its vault. All
/// records are settled, no batch is out, no attempt is under way, and the clock is at the greatest
/// moment of its events and attempts. Tables of version 1 become those of version 2 in one
/// transaction, as by `Vault::migrate`; nothing else is written. A store without the relay's `meta`
/// is `NotOurs`, and so is one that lacks another of its tables. It passes over tables of others.
/// Each refusal gives the connection back. Running out of memory may come first, and the tables may
/// already be of version 2. `is_autocommit` tests that the connection is outside a transaction.
pub fn reopen<L: Ledger, S: Alter>(
    alloc: Global,
    pool: Pool<L>,
    conn: Connection<S>,
    mark: u64,
) -> Result<(Desk<L>, Vault<S>), (Connection<S>, OpenFault)>
    requires empty { pool ≡ [] }
    requires mode { conn.in_transaction ≡ false }
    ensures mark { IfOk result (λ opening. (opening.0.waiting.mark ≡ mark) × (opening.1.mark ≡ mark)) }
    ensures out { IfOk result (λ opening. HasNothingOut opening.0) }
    ensures ours { has_meta (state S.Store conn).now.schema ≡ false
        → MatchResult result (λ _. ⊥) (λ back. IsForeign back.1) }
    ensures foreign { has_meta (state S.Store conn).now.schema ≡ false
        → IfErr result (λ back. IfClean S.Store conn back.0 (λ _ b. FailsIfOfStore b back.1)) }
    ensures back { has_meta (state S.Store conn).now.schema ≡ false
        → IfErr result (λ back. IfClean S.Store conn back.0 (λ a b. IsTrue b.is_open → IsBack a b)) }
    ensures whole { IfOk result (λ opening. IfClean S.Store conn opening.1.conn
        (λ a _. IsTrue (has_first_tables a.now.schema))) }
    ensures opened { IfOk result (λ opening. IfClean S.Store conn opening.1.conn
        (λ a _. IsOwn a.now.schema → IsReopened S.Store a.now opening.0 opening.1)) }
    ensures reopens { IfOk result (λ opening. IsCleanAt S.Store opening.1.conn
        → ReopensLeft S.Store conn opening.0 opening.1) }
    ensures refused { IfErr result (λ back. IfClean S.Store conn back.0
        (λ a b. IsOwn a.now.schema → IsUnopened a b back.1)) }
    ensures sound { IfErr result (λ back. IfClean S.Store conn back.0
        (λ a b. HaveHistory a.now → IsReadingRefusal a b back.1)) }
    ensures first { IfErr result (λ back. IfClean S.Store conn back.0
        (λ a b. HaveFirstHistory a.now → IsNotMigrated a b back.1)) }
    ensures left { MatchResult result (λ opening. IfClean S.Store conn opening.1.conn IsOpenBehind)
        (λ back. IfClean S.Store conn back.0 (λ a b. LeavesMigrated a b back.1)) }
    ensures clean { MatchResult result
        (λ opening. IsCleanAt S.Store opening.1.conn → IsCleanAt S.Store conn)
        (λ back. IsCleanAt S.Store back.0 → IsCleanAt S.Store conn) }
    ensures outside { IfErr result (λ back. back.0.in_transaction ≡ false) }
{
    let vault = Vault::migrate(conn, mark, alloc)?;
    with_desk(alloc, pool, vault, mark)
}
