//! The opening of a store that has no table yet.
ghost use Rattle.std.specs.Prelude.{◌≡◌, [], false, IsTrue, IfOk, IfErr, MatchResult};
ghost use Rattle.permits.specs.declared.pool.TheConstants.{PARTS};
ghost use Rattle.sqlite.specs.Held.{state};
ghost use Rattle.spool.specs.Opening.{has_ours};
ghost use Rattle.desk.specs.Moves.{opened};
ghost use Rattle.desk.specs.Desks.{HasNothingOut, StandsFor};
ghost use Rattle.recovery.specs.Left.{HasNoTable, IsCleanAt, VaultStandsFor};
ghost use Rattle.recovery.specs.Openings.{IsRefusedAs, LeavesOr};

use desk::Desk;
use permits::PARTS;
use spool::{OpenFault, Vault};
use sqlite::{Alter, Connection};
use std::alloc::Global;
use std::sync::ledger::{Blank, Ledger};

/// Makes the tables of a store that has none, in one transaction: the desk and the vault of the
/// empty history. Each refusal gives the connection back. A store where a table, an index or a view
/// already has the name of one of the relay's tables is `NotOurs`, and it isn't touched. Want of
/// memory leaves the tables as they were, and may come first. The caller sees by `is_autocommit`
/// that the connection is outside a transaction.
pub fn create<L: Ledger, S: Alter>(
    alloc: Global,
    blank: Blank,
    conn: Connection<S>,
    mark: u64,
) -> Result<(Desk<L>, Vault<S>), (Connection<S>, OpenFault)>
    requires name { blank.name ≡ L.name }
    requires parts { blank.parts ≡ L.parts }
    requires enough { blank.parts ≡ PARTS }
    requires mode { conn.in_transaction ≡ false }
    ensures mark { IfOk result (λ opening. (opening.0.waiting.mark ≡ mark) × (opening.1.mark ≡ mark)) }
    ensures out { IfOk result (λ opening. HasNothingOut opening.0) }
    ensures desk { IfOk result (λ opening. StandsFor opening.0 (opened [] 0)) }
    ensures vault { IfOk result (λ opening. IsCleanAt S.Store opening.1.conn
        → HasNoTable S.Store conn → VaultStandsFor S.Store opening.1 (opened [] 0)) }
    ensures cause { IfErr result (λ back. IsRefusedAs (state S.Store conn).now.schema back.1) }
    ensures untouched { IfErr result (λ back. back.1 ≡ OpenFault.NotOurs → back.0 ≡ conn) }
    ensures refused { IfErr result (λ back. LeavesOr S.Store conn back.0 back.1) }
    ensures free { IfOk result (λ _. has_ours (state S.Store conn).now.schema ≡ false) }
    ensures clean { MatchResult result
        (λ opening. IsCleanAt S.Store opening.1.conn → IsCleanAt S.Store conn)
        (λ back. IsCleanAt S.Store back.0 → IsCleanAt S.Store conn) }
    ensures outside { IfErr result (λ back. back.0.in_transaction ≡ false) }
{
    let Ok(desk) = Desk::new(alloc, blank, mark) else {
        return Err((conn, OpenFault::OutOfMemory));
    };
    match Vault::create(conn, mark) {
        Ok(vault) => Ok((desk, vault)),
        Err(back) => Err(back),
    }
}
