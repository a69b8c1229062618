//! The pool.
ghost use Rattle.std.specs.Prelude.{◌≡◌, ◌<◌, ◌≤◌, ◌+◌, ◌↔◌, [], ◌∷◌, ◌++◌, ℕ, length, None, Some, remove, position};
ghost use Rattle.std.specs.Prelude.{IfOk, IfErr, OnErr, OnOk, IsErr};
ghost use Rattle.permits.specs.Refusals.{IsAtLimit, IsFull, IsAlreadyOut};
ghost use Rattle.permits.specs.Rows.{in_flight_of, is_out, next_row, same_row};

use crate::permit::{Permit, audit_units};
use crate::refusal::{Foreign, Refused};
use crate::row::Row;
use relay_types::Name;
use std::alloc::{AllocError, Global};
use std::marker::Model;
use std::sync::ledger::{Blank, Book, Ledger, Share, Total};

/// The most permits that are out at one time.
pub const MAX_PERMITS: usize = 256;

/// The parts of a pool's ledger: one for each permit that may be out.
pub const PARTS: u64 = 256;

/// The permits that are out, in the order in which they were acquired. Contracts see a pool as the list of their rows.
#[derive(Drop)]
pub struct Pool<L: Ledger> {
    rows: Vec<Row>,
    book: Book<L>,
    rest: Share<L>,
}

impl<L: Ledger> Model for Pool<L> {
    ghost use Rattle.std.specs.Prelude.{◌≡◌, ◌≤◌, ◌+◌, List, vec_len, vec_capacity};
    ghost use Rattle.permits.specs.declared.pool.TheConstants.{MAX_PERMITS, PARTS};
    ghost use Rattle.permits.specs.declared.row.Row.{Row};

    ghost Value = { List Row };

    ghost view = { λ p. p.rows.items };

    // The book's total is the number of rows. For each row one part has left the rest, which has no
    // unit. There is room for all.
    ghost invariant = { λ p. record {
      total : p.book.total ≡ vec_len p.rows;
      parts : p.rest.parts + vec_len p.rows ≡ PARTS;
      units : p.rest.amount ≡ 0;
      most : vec_len p.rows ≤ MAX_PERMITS;
      room : MAX_PERMITS ≤ vec_capacity p.rows;
    } };
}

impl<L: Ledger> Pool<L> {
    /// An empty pool with 256 places, and the opened ledger.
    pub fn new(alloc: Global, blank: Blank) -> Result<Pool<L>, AllocError>
        requires name { blank.name ≡ L.name }
        requires parts { blank.parts ≡ L.parts }
        requires enough { blank.parts ≡ PARTS }
        ensures { IfOk result (λ pool. pool ≡ []) }
    {
        let rows = Vec::with_capacity(alloc, MAX_PERMITS)?;
        let (book, rest) = blank.open::<L>();
        Ok(Pool { rows, book, rest })
    }

    /// How many permits of an endpoint are out.
    pub fn in_flight(&self, endpoint: Name) -> u32
        ensures count { result ≡ in_flight_of endpoint self.now }
        ensures within { result ≤ length self.now }
        ensures most { result ≤ MAX_PERMITS }
    {
        self.rows
            .iter()
            .filter(|row| row.endpoint.is(endpoint))
            .count() as u32
    }

    /// How many permits are out.
    pub fn live(&self) -> usize
        ensures count { result ≡ length self.now }
        ensures most { length self.now ≤ MAX_PERMITS }
    {
        self.rows.len()
    }

    fn is_out(&self, delivery: u64) -> bool
        ensures { result ≡ is_out delivery self.now }
    {
        self.rows.iter().any(|row| row.delivery == delivery)
    }

    fn place_of(&self, row: Row) -> Option<usize>
        ensures { result ≡ position (same_row row) self.now }
    {
        self.rows.iter().position(|live| row.is(*live))
    }

    // How many permits of the endpoint are out, where one more may be.
    fn admits(&self, endpoint: Name, delivery: u64, limit: u32) -> Result<u32, Refused>
        ensures at_limit { (result ≡ Err Refused.AtLimit) ↔ IsAtLimit endpoint limit self.now }
        ensures too_many { (result ≡ Err Refused.TooManyOut) ↔ IsFull endpoint limit self.now }
        ensures already { (result ≡ Err Refused.AlreadyOut) ↔ IsAlreadyOut endpoint delivery limit self.now }
        ensures count { IfOk result (λ before. before ≡ in_flight_of endpoint self.now) }
        ensures fewer { IfOk result (λ before. before ≤ length self.now) }
        ensures place { OnOk result (length self.now < MAX_PERMITS) }
    {
        let before = self.in_flight(endpoint);
        if before >= limit {
            return Err(Refused::AtLimit);
        }
        if self.live() >= MAX_PERMITS {
            return Err(Refused::TooManyOut);
        }
        if self.is_out(delivery) {
            return Err(Refused::AlreadyOut);
        }
        Ok(before)
    }

    /// A permit for one attempt of a delivery, where fewer of its endpoint than the limit are out. It takes no memory.
    pub fn acquire(
        &mut self,
        endpoint: Name,
        delivery: u64,
        limit: u32,
    ) -> Result<Permit<L>, Refused>
        ensures at_limit { (result ≡ Err Refused.AtLimit) ↔ IsAtLimit endpoint limit self.old }
        ensures too_many { (result ≡ Err Refused.TooManyOut) ↔ IsFull endpoint limit self.old }
        ensures already { (result ≡ Err Refused.AlreadyOut) ↔ IsAlreadyOut endpoint delivery limit self.old }
        ensures permit { IfOk result (λ permit. permit ≡ next_row endpoint delivery self.old) }
        ensures ok { OnOk result (self.new ≡ self.old ++ next_row endpoint delivery self.old ∷ []) }
        ensures err { OnErr result (self.new ≡ self.old) }
    {
        let before = self.admits(endpoint, delivery, limit)?;
        Ok(self.add(Row {
            endpoint,
            delivery,
            inflight: before + 1,
        }))
    }

    // Adds a row, for which there is a place.
    fn add(&mut self, row: Row) -> Permit<L>
        requires place { length self.old < MAX_PERMITS }
        requires itself { 1 ≤ row.inflight }
        requires most { row.inflight ≤ MAX_PERMITS }
        ensures permit { result ≡ row }
        ensures rows { self.new ≡ self.old ++ row ∷ [] }
    {
        let mut unit = self.rest.split_off(1, 0);
        self.book.add(&mut unit, 1);
        let permit = Permit::of(row, unit);
        self.rows.push_reserved(permit.row());
        permit
    }

    /// Takes a permit back and tells its row, or hands it back where no row is its own. It takes no memory.
    pub fn give_back(&mut self, permit: Permit<L>) -> Result<Row, (Permit<L>, Foreign)>
        ensures foreign { IsErr result ↔ (position (same_row permit) self.old ≡ None) }
        ensures handed_back { IfErr result (λ e. e.0 ≡ permit) }
        ensures returned { IfOk result (λ row. row ≡ permit) }
        ensures itself { IfOk result (λ row. 1 ≤ row.inflight) }
        ensures most { IfOk result (λ row. row.inflight ≤ MAX_PERMITS) }
        ensures ok { (i : ℕ) → position (same_row permit) self.old ≡ Some i → self.new ≡ remove self.old i }
        ensures one_less { OnOk result (length self.new + 1 ≡ length self.old) }
        ensures err { OnErr result (self.new ≡ self.old) }
    {
        match self.place_of(permit.row()) {
            Some(at) => Ok(self.take_out(at, permit)),
            None => Err((permit, Foreign)),
        }
    }

    // Takes out the row at this place, which is the permit's.
    fn take_out(&mut self, at: usize, permit: Permit<L>) -> Row
        requires { at < length self.old }
        ensures row { result ≡ permit }
        ensures rows { self.new ≡ remove self.old at }
        ensures itself { 1 ≤ result.inflight }
        ensures most { result.inflight ≤ MAX_PERMITS }
    {
        let row = permit.row();
        let mut unit = permit.into_unit();
        self.rows.remove(at);
        self.book.sub(&mut unit, 1);
        self.rest.merge(unit);
        row
    }

    /// How many permits are out beside these, which are no more than the rows.
    pub fn audit(&mut self, permits: &mut [Permit<L>]) -> usize
        ensures others { result + length permits.old ≡ length self.old }
        ensures pool { self.new ≡ self.old }
        ensures permits { permits.new ≡ permits.old }
    {
        let mut counted = self.rest.empty();
        audit_units(&mut self.book, &mut counted, permits);
        self.rows.len() - permits.len()
    }

    /// Closes the ledger, whose total is then fixed at the number of rows. `live` tells it: permits
    /// that are out can't be given back any more.
    pub fn close(self) -> Total<L>
        ensures { result.amount ≡ length self }
    {
        let Pool {
            rows: _,
            book,
            rest: _,
        } = self;
        book.close()
    }
}
