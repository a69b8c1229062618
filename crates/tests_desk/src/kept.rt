//! What is kept of a batch between two steps. Neither a batch nor a receipt can be dropped.

use spool::{Batch, CommitEnd, Receipt, Vault};
use sqlite::Alter;

/// A batch that is out, and a receipt.
pub(crate) struct Kept {
    pub(crate) batch: Option<Batch>,
    pub(crate) receipt: Option<Receipt>,
}

/// The number of the batch's first record, that after its last one, and how many steps it has.
pub(crate) fn numbers_of(batch: &Batch) -> (u64, u64, usize) {
    (batch.from(), batch.upto(), batch.steps().len())
}

impl Kept {
    pub(crate) fn new() -> Kept {
        Kept {
            batch: None,
            receipt: None,
        }
    }

    /// Keeps the batch in place of one that was kept.
    pub(crate) fn keep_batch(&mut self, batch: Batch) {
        end_batch(self.batch.replace(batch));
    }

    /// Keeps the receipt in place of one that was kept.
    pub(crate) fn keep_receipt(&mut self, receipt: Receipt) {
        end_receipt(self.receipt.replace(receipt));
    }

    /// Commits the batch that is kept: whether it stands in the store.
    pub(crate) fn commit<S: Alter>(&mut self, vault: &mut Vault<S>) -> bool {
        let Some(batch) = self.batch.take() else {
            return false;
        };
        match vault.commit(batch) {
            Ok(receipt) => {
                self.keep_receipt(receipt);
                true
            }
            Err(CommitEnd::Unchanged(batch, _)) => {
                self.keep_batch(batch);
                false
            }
            Err(CommitEnd::Doubtful(doubt, _)) => {
                doubt.end();
                false
            }
        }
    }

    /// Ends what is kept.
    pub(crate) fn end(self) {
        let Kept { batch, receipt } = self;
        end_batch(batch);
        end_receipt(receipt);
    }
}

fn end_batch(batch: Option<Batch>) {
    if let Some(batch) = batch {
        drop(batch.into_steps());
    }
}

fn end_receipt(receipt: Option<Receipt>) {
    if let Some(receipt) = receipt {
        drop(receipt.into_steps());
    }
}
