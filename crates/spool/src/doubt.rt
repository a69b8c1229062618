//! What is left of a commit of which nobody knows how it ended.
ghost use Rattle.std.specs.Prelude.{◌≡◌};
ghost use Rattle.spool.specs.Batches.{doubt_of};

use crate::batch::Batch;
use std::marker::Model;

/// Places of which nobody knows whether they stand in the store. `Vault::commit` alone makes one.
/// It can't be dropped or copied: who has it halts the desk by it, or ends it by `end`.
pub struct Doubt {
    mark: u64,
    from: u64,
    upto: u64,
}

impl Model for Doubt {
    ghost use Rattle.spool.specs.Batches.{DoubtValue};

    ghost Value = { DoubtValue };

    ghost view = { λ d. record { mark = d.mark; from = d.from; upto = d.upto } };
}

impl Doubt {
    // The places of this batch.
    pub(crate) fn over(batch: Batch) -> Doubt
        ensures { result ≡ doubt_of batch }
    {
        let doubt = Doubt {
            mark: batch.mark(),
            from: batch.from(),
            upto: batch.upto(),
        };
        drop(batch.into_steps());
        doubt
    }

    /// The mark of the opening that the places belong to.
    pub fn mark(&self) -> u64
        ensures { result ≡ self.now.mark }
    {
        self.mark
    }

    /// The number of the first record.
    pub fn from(&self) -> u64
        ensures { result ≡ self.now.from }
    {
        self.from
    }

    /// The number after the last record.
    pub fn upto(&self) -> u64
        ensures { result ≡ self.now.upto }
    {
        self.upto
    }

    /// Ends the doubt.
    pub fn end(self) {
        let Doubt {
            mark: _,
            from: _,
            upto: _,
        } = self;
    }
}
