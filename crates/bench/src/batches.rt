//! What waits goes into the store, in one commit.
use crate::failed::Failed;
use crate::times::{BatchTimes, add, since};
use desk::{Command, Desk};
use spool::{Batch, CommitEnd, OpenFault, Receipt, Vault};
use sqlite::{Alter, Connection};
use std::alloc::Global;
use std::sync::ledger::Ledger;
use std::time::Instant;

/// The mark of the only opening.
pub(crate) const MARK: u64 = 0;

/// How many steps are sealed at once.
pub(crate) const BATCH: u32 = 256;

/// A vault over a store without tables.
pub(crate) fn created<S: Alter + Drop>(conn: Connection<S>) -> Result<Vault<S>, Failed> {
    if !conn.is_autocommit() {
        return Err(Failed);
    }
    opened(Vault::create(conn, MARK))
}

/// The vault over a store that stands.
pub(crate) fn adopted<S: Alter + Drop>(
    alloc: Global,
    conn: Connection<S>,
) -> Result<Vault<S>, Failed> {
    if !conn.is_autocommit() {
        return Err(Failed);
    }
    opened(Vault::adopt(conn, MARK, alloc))
}

fn opened<S: Alter + Drop>(
    end: Result<Vault<S>, (Connection<S>, OpenFault)>,
) -> Result<Vault<S>, Failed> {
    match end {
        Ok(vault) => Ok(vault),
        Err(_) => Err(Failed),
    }
}

/// Gives a command to the desk.
pub(crate) fn give<L: Ledger>(desk: &mut Desk<L>, command: Command) -> Result<(), Failed> {
    desk.command(command)?;
    Ok(())
}

/// The receipt of the batch, if it was committed.
fn written<S: Alter>(vault: &mut Vault<S>, batch: Batch) -> Option<Receipt> {
    match vault.commit(batch) {
        Ok(receipt) => Some(receipt),
        Err(CommitEnd::Unchanged(batch, _)) => {
            drop(batch.into_steps());
            None
        }
        Err(CommitEnd::Doubtful(doubt, _)) => {
            doubt.end();
            None
        }
    }
}

/// Seals what waits, commits it and settles it.
pub(crate) fn commit_waiting<L: Ledger, S: Alter>(
    rt: &HostRuntime,
    began: Instant,
    desk: &mut Desk<L>,
    vault: &mut Vault<S>,
    times: &mut BatchTimes,
) -> Result<(), Failed> {
    let from = since(rt, began);
    let Some(batch) = desk.seal()? else {
        return Ok(());
    };
    let sealed = since(rt, began);
    let Some(receipt) = written(vault, batch) else {
        return Err(Failed);
    };
    let committed = since(rt, began);
    settled(desk, receipt)?;
    add(&mut times.sealing, from, sealed);
    add(&mut times.committing, sealed, committed);
    add(&mut times.sealing, committed, since(rt, began));
    Ok(())
}

/// Settles what was committed.
fn settled<L: Ledger>(desk: &mut Desk<L>, receipt: Receipt) -> Result<(), Failed> {
    match desk.settle(receipt) {
        Ok(_) => Ok(()),
        Err((receipt, _)) => {
            drop(receipt.into_steps());
            Err(Failed)
        }
    }
}
