//! A keeper whose commits are appended to the log of the run.
ghost use Rattle.std.specs.Prelude.{◌≡◌, ◌++◌, ◌+◌, ◌⊎◌, ◌↔◌, List, length, Err, IsTrue, IfOk, IfErr};
ghost use mathlib.Core.List.{IsPrefix};
ghost use Rattle.relay_types.specs.Records.{records_of};
ghost use Rattle.spool.specs.declared.faults.Unchanged.{Unchanged};
ghost use Rattle.spool.specs.Commits.{HandsBack, IsDoubt};
ghost use Rattle.delivery.specs.Logs.{receipt_of};
ghost use Rattle.delivery.specs.Keepers.{HistoryAfterCommit};

use crate::keeper::Keeper;
use run_log::{Log, LogId, LogWriter, Prefix};
use spool::{Batch, CommitEnd, Receipt, Unchanged};
use std::marker::Model;

/// The receipt of a batch, and the prefix of the log that ends with its records. `LoggedKeeper::commit` alone makes
/// one. It can't be dropped or copied.
pub struct Committed<I: LogId> {
    pub(crate) receipt: Receipt,
    pub(crate) prefix: Prefix<I>,
}

impl<I: LogId> Model for Committed<I> {
    ghost use Rattle.delivery.specs.Logs.{IsCommitted, CommittedValue};

    ghost Value = { CommittedValue };

    ghost view = { λ c. record { receipt = c.receipt; prefix = c.prefix } };

    ghost invariant = { λ c. IsCommitted I.start c.receipt c.prefix };
}

/// A keeper with the writer of the log. The log has the records that the keeper committed, and no others.
#[derive(Drop)]
pub struct LoggedKeeper<I: LogId, K: Keeper + Drop> {
    keeper: K,
    writer: LogWriter<I>,
    ghost counted: { K.next keeper ≡ I.start + length writer },
}

impl<I: LogId, K: Keeper + Drop> LoggedKeeper<I, K> {
    /// A keeper whose next record is the next one of the log.
    pub fn new(keeper: K, writer: LogWriter<I>) -> LoggedKeeper<I, K>
        requires { K.next keeper ≡ I.start + length writer }
        ensures keeper { result.keeper ≡ keeper }
        ensures writer { result.writer ≡ writer }
    {
        LoggedKeeper { keeper, writer }
    }

    /// The keeper.
    pub fn into_keeper(self) -> K
        ensures { result ≡ self.keeper }
    {
        let LoggedKeeper { keeper, writer: _ } = self;
        keeper
    }

    // Commits the batch, and appends it to the log.
    pub(crate) fn commit(&mut self, log: &Log<I>, batch: Batch) -> Result<Committed<I>, CommitEnd>
        ensures receipt { IfOk result (λ committed. committed.receipt ≡ batch) }
        ensures logged { IfOk result (λ committed. (self.new.writer ≡ self.old.writer ++ records_of batch.steps)
            × (committed.prefix ≡ self.new.writer)) }
        ensures same { IfErr result (λ _. self.new.writer ≡ self.old.writer) }
        ensures handed_back { IfErr result (HandsBack batch) }
        ensures closed { (result ≡ Err (CommitEnd.Unchanged batch Unchanged.Closed))
            ↔ IsTrue (K.closed self.old.keeper) }
        ensures clean { K.is_clean self.new.keeper → K.is_clean self.old.keeper }
        ensures doubt { IsTrue (K.closed self.new.keeper)
            ↔ (IsTrue (K.closed self.old.keeper) ⊎ IsDoubt (receipt_of result)) }
        ensures history { K.is_clean self.new.keeper
            → HistoryAfterCommit K.holds K.in_doubt self.old.keeper self.new.keeper batch (receipt_of result) }
    {
        match self.keeper.commit(batch) {
            Ok(receipt) => {
                self.writer.append(log, &receipt);
                let prefix = self.writer.prefix(log);
                Ok(Committed { receipt, prefix })
            }
            Err(end) => Err(end),
        }
    }

    /// Every prefix is one of what the keeper committed.
    pub fn compare(&mut self, log: &Log<I>, prefix: Prefix<I>)
        ensures begins { IsPrefix prefix self.old.writer }
        ensures keeper { self.new.keeper ≡ self.old.keeper }
        ensures writer { self.new.writer ≡ self.old.writer }
    {
        self.writer.compare(log, prefix);
    }
}
