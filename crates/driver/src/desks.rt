//! A desk and a vault, and what waits at the one in a commit of the other.
ghost use Rattle.std.specs.Prelude.{◌≡◌, IfSome};
ghost use Rattle.permits.specs.declared.pool.TheConstants.{PARTS};
ghost use Rattle.desk.specs.Desks.{HasNothingOut};

use desk::Desk;
use permits::PARTS;
use recovery::create;
use spool::{Batch, CommitEnd, Receipt, Vault};
use sqlite::{Alter, Connection};
use std::alloc::Global;
use std::sync::ledger::{Blank, Ledger};

/// The mark of the only opening.
pub(crate) const MARK: u64 = 0;

/// A desk and a vault over a store without tables.
pub(crate) fn created<L: Ledger, S: Alter + Drop>(
    alloc: Global,
    blank: Blank,
    conn: Connection<S>,
) -> Option<(Desk<L>, Vault<S>)>
    requires name { blank.name ≡ L.name }
    requires parts { blank.parts ≡ L.parts }
    requires enough { blank.parts ≡ PARTS }
    ensures out { IfSome result (λ made. HasNothingOut made.0) }
    ensures mark { IfSome result (λ made. made.0.waiting.mark ≡ made.1.mark) }
{
    if !conn.is_autocommit() {
        return None;
    }
    match create::<L, S>(alloc, blank, conn, MARK) {
        Ok(made) => Some(made),
        Err(_) => None,
    }
}

/// The vault over a store that stands.
pub(crate) fn adopted<S: Alter + Drop>(alloc: Global, conn: Connection<S>) -> Option<Vault<S>> {
    if !conn.is_autocommit() {
        return None;
    }
    match Vault::adopt(conn, MARK, alloc) {
        Ok(vault) => Some(vault),
        Err(_) => None,
    }
}

/// Seals what waits, commits it and settles it. Whether all that was sealed is settled.
pub(crate) fn commit_waiting<L: Ledger, S: Alter>(
    desk: &mut Desk<L>,
    vault: &mut Vault<S>,
) -> bool {
    match desk.seal() {
        Ok(Some(batch)) => settle(desk, vault, batch),
        Ok(None) | Err(_) => true,
    }
}

fn settle<L: Ledger, S: Alter>(desk: &mut Desk<L>, vault: &mut Vault<S>, batch: Batch) -> bool {
    let Some(receipt) = written(vault, batch) else {
        return false;
    };
    match desk.settle(receipt) {
        Ok(_) => true,
        Err((receipt, _)) => {
            drop(receipt.into_steps());
            false
        }
    }
}

/// The receipt of the batch, if it was committed.
fn written<S: Alter>(vault: &mut Vault<S>, batch: Batch) -> Option<Receipt> {
    match vault.commit(batch) {
        Ok(receipt) => Some(receipt),
        Err(CommitEnd::Unchanged(batch, _)) => {
            drop(batch.into_steps());
            None
        }
        Err(CommitEnd::Doubtful(doubt, _)) => {
            doubt.end();
            None
        }
    }
}
