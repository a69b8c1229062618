//! A permit. It has no `Drop`, so whoever holds one hands it on or gives it back.
ghost use Rattle.std.specs.Prelude.{◌≡◌, ◌≤◌, ◌+◌, length};

use crate::pool::MAX_PERMITS;
use crate::row::Row;
use relay_types::Name;
use std::marker::Model;
use std::sync::ledger::{Book, Ledger, Share, Total};

/// The leave to post one attempt. `Pool::acquire` alone makes one and `Pool::give_back` alone ends
/// one. It holds one part of the ledger, with one unit. Contracts see it as its row, whose
/// in-flight number is 1 to 256.
pub struct Permit<L: Ledger> {
    held: Row,
    unit: Share<L>,
}

impl<L: Ledger> Model for Permit<L> {
    ghost use Rattle.std.specs.Prelude.{◌≡◌, ◌≤◌};
    ghost use Rattle.permits.specs.declared.pool.TheConstants.{MAX_PERMITS};
    ghost use Rattle.permits.specs.declared.row.Row.{Row};

    ghost Value = { Row };

    ghost view = { λ p. p.held };

    ghost invariant = { λ p. record {
      parts : p.unit.parts ≡ 1;
      amount : p.unit.amount ≡ 1;
      itself : 1 ≤ p.held.inflight;
      most : p.held.inflight ≤ MAX_PERMITS;
    } };
}

impl<L: Ledger> Permit<L> {
    pub(crate) fn of(row: Row, unit: Share<L>) -> Permit<L>
        requires parts { unit.parts ≡ 1 }
        requires amount { unit.amount ≡ 1 }
        requires itself { 1 ≤ row.inflight }
        requires most { row.inflight ≤ MAX_PERMITS }
        ensures { result ≡ row }
    {
        Permit { held: row, unit }
    }

    pub(crate) fn into_unit(self) -> Share<L>
        ensures parts { result.parts ≡ 1 }
        ensures amount { result.amount ≡ 1 }
    {
        let Permit { held: _, unit } = self;
        unit
    }

    /// Never comes to be called: where the ledger was closed at nothing, no permit is left.
    pub fn refute(mut self, closed: &Total<L>) -> !
        requires { closed.now.amount ≡ 0 }
    {
        closed.audit(&mut self.unit);
        unreachable!()
    }

    /// What the pool keeps of the permit.
    pub fn row(&self) -> Row
        ensures row { result ≡ self.now }
        ensures itself { 1 ≤ self.now.inflight }
        ensures most { self.now.inflight ≤ MAX_PERMITS }
    {
        self.held
    }

    /// The endpoint that may be posted to.
    pub fn endpoint(&self) -> Name
        ensures { result ≡ self.now.endpoint }
    {
        self.row().endpoint
    }

    /// The sequence number of the delivery's Accept record.
    pub fn delivery(&self) -> u64
        ensures { result ≡ self.now.delivery }
    {
        self.row().delivery
    }

    /// How many permits of the endpoint were out once this one was, itself counted.
    pub fn inflight(&self) -> u32
        ensures number { result ≡ self.now.inflight }
        ensures itself { 1 ≤ result }
        ensures most { result ≤ MAX_PERMITS }
    {
        self.row().inflight
    }
}

// Holds the units of these permits, with those that were counted before, against the book.
pub(crate) fn audit_units<L: Ledger>(
    book: &mut Book<L>,
    counted: &mut Share<L>,
    permits: &mut [Permit<L>],
)
    requires units { counted.old.parts ≡ counted.old.amount }
    ensures at_most { counted.old.amount + length permits.old ≤ book.old.total }
    ensures total { book.new.total ≡ book.old.total }
    ensures parts { counted.new.parts ≡ counted.old.parts }
    ensures amount { counted.new.amount ≡ counted.old.amount }
    ensures permits { permits.new ≡ permits.old }
{
    match permits.split_first_mut() {
        Some((first, others)) => {
            first.unit.give(counted, 1, 1);
            audit_units(book, counted, others);
            counted.give(&mut first.unit, 1, 1);
        }
        None => book.audit(counted),
    }
}
