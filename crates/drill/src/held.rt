//! What is held between two calls.
ghost use Rattle.std.specs.Prelude.{◌≡◌, None};
ghost use Rattle.drill.specs.Cores.{receipt_of, given_of};

use spool::{Batch, Doubt, Receipt};

/// What the desk or the store handed out.
pub(crate) enum Held {
    Nothing,
    Batch(Batch),
    Receipt(Receipt),
    Doubt(Doubt),
}

impl Held {
    // Ends what is held.
    pub(crate) fn end(self) {
        match self {
            Held::Nothing => {}
            Held::Batch(batch) => drop(batch.into_steps()),
            Held::Receipt(receipt) => drop(receipt.into_steps()),
            Held::Doubt(doubt) => doubt.end(),
        }
    }

    // A receipt, or what a committer that halts the desk hands over.
    pub(crate) fn parts(self) -> (Option<Receipt>, group_commit::Held)
        ensures receipt { result.0 ≡ receipt_of self }
        ensures given { result.1 ≡ given_of self }
    {
        match self {
            Held::Nothing => (None, group_commit::Held::Nothing),
            Held::Batch(batch) => (None, group_commit::Held::Batch(batch)),
            Held::Receipt(receipt) => (Some(receipt), group_commit::Held::Nothing),
            Held::Doubt(doubt) => (None, group_commit::Held::Doubt(doubt)),
        }
    }

    // Holds again what the desk didn't take.
    pub(crate) fn again(held: group_commit::Held) -> Held
        ensures given { given_of result ≡ held }
        ensures receipt { receipt_of result ≡ None }
    {
        match held {
            group_commit::Held::Nothing => Held::Nothing,
            group_commit::Held::Batch(batch) => Held::Batch(batch),
            group_commit::Held::Doubt(doubt) => Held::Doubt(doubt),
        }
    }
}
