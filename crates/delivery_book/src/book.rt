//! The book itself.
ghost use Rattle.std.specs.Prelude.{◌≡◌, ◌≢◌, ◌≤◌, ◌<◌, ◌+◌, ◌*◌, ℕ, [], length, take, true, None, Some, is_some};
ghost use Rattle.std.specs.Prelude.{unwrap_or, slice_get, count_by, min, nat_lt};
ghost use Rattle.std.specs.Prelude.{option_copied, option_map, All, AllPairs, IfSome, OnOk, OnErr};
ghost use Rattle.std.specs.VecDeque.{deque_capacity};
ghost use Rattle.relay_types.specs.declared.limits.TheConstants.{MAX_RECORDS};
ghost use Rattle.relay_types.specs.declared.record.Record.TheVariants.{Accept, Outcome, Purge};
ghost use Rattle.relay_types.specs.Deliveries.{known_as};
ghost use Rattle.relay_types.specs.Steps.{accepts};
ghost use Rattle.delivery_book.specs.Entries.{empty_book, with_event, with_events, with_outcome, with_outcome_restored};
ghost use Rattle.delivery_book.specs.Entries.{with_events_settled, settle_first, rest_from, with_settled};
ghost use Rattle.delivery_book.specs.Entries.{without_taken, with_purge};
ghost use Rattle.delivery_book.specs.Entries.{known_in, known_settled_in};
ghost use Rattle.delivery_book.specs.Entries.{takes_outcome, may_restore, HasOneEach, IsInStep};
ghost use Rattle.delivery_book.specs.Entries.{entry_at, latest_row, settled_row, pending_in, next_settled};
ghost use Rattle.delivery_book.specs.Fields.{may_wait, settled_counts};
ghost use Rattle.delivery_book.specs.Book.{StandsFor, OverHistories, Takes, TakesAll, Settles, is_free, row_of};
ghost use Rattle.delivery_book.specs.Book.{body_left, counts_of, counts_of_all};

use crate::entry::{Entry, Unsettled};
use crate::events::events_of;
use crate::index::{EventIndex, add_events, remove_done};
use crate::purge::{earlier, first_purge, is_below, keep_left, mark_done};
use crate::row::{Counts, Row};
use crate::search::{count_below, entry_at, index_of};
use crate::small::{KeptId, Names};
use crate::tally::{Tally, add_settled, add_settled_between, count_out};
use relay_types::{Body, MAX_RECORDS, Moment, MsgId, Name, State};
use std::alloc::{AllocError, Global};
use std::collections::VecDeque;
use std::marker::Model;

/// Room for so many outcomes that wait is never given back.
const FEW_PLACES: usize = 256;

/// Whether room for so many outcomes is more than four times what is needed.
fn is_much(capacity: usize, places: usize) -> bool
    ensures { result ≡ nat_lt (4 * places) capacity }
{
    capacity > places.saturating_mul(4)
}

/// Gives room for outcomes back, if there is more than four times what is needed. It keeps twice that; more only if a
/// smaller block can't be had.
fn give_back(queue: &mut VecDeque<Unsettled>, places: usize)
    ensures items { queue.new.items ≡ queue.old.items }
    ensures room { min (2 * places) (deque_capacity queue.old) ≤ deque_capacity queue.new }
    ensures kept { deque_capacity queue.old ≤ 4 * places → deque_capacity queue.new ≡ deque_capacity queue.old }
{
    if is_much(queue.capacity(), places) {
        queue.shrink_to(places.saturating_mul(2));
    }
}

/// The deliveries of a history, and what came of each. An event that was taken in stays in memory with its body until a
/// Purge that took it is settled. Its id is known until a Purge takes it. A delivery is named by the sequence number of
/// its record. The book is handed numbers that rise and may skip some: records of endpoints concern no delivery and
/// need no call.
#[derive(Drop)]
pub struct DeliveryBook {
    entries: Vec<Entry>,
    index: EventIndex,
    names: Names,
    unsettled: VecDeque<Unsettled>,
    tally: Tally,
    settled_tally: Tally,
    next_seq: u64,
    settled_seq: u64,
    settled_entries: usize,
    /// The least number of a Purge that waits and took a delivery.
    next_purge: Option<u64>,
}

impl Model for DeliveryBook {
    ghost use Rattle.std.specs.VecDeque.{deque_capacity};
    ghost use Rattle.delivery_book.specs.Entries.{BookValue};

    ghost Value = { BookValue };

    ghost view = { λ b. record {
      entries = b.entries.items;
      unsettled = b.unsettled.items;
      next_seq = b.next_seq;
      settled_seq = b.settled_seq;
    } };

    ghost use Rattle.delivery_book.specs.Fields.{IsBook};

    ghost invariant = { λ b. IsBook b.entries.items b.index b.tally b.settled_tally b.unsettled.items
        (deque_capacity b.unsettled) b.next_seq b.settled_seq b.settled_entries b.next_purge };
}

impl DeliveryBook {
    /// The book of the empty history. It takes no memory, and keeps the allocator.
    pub fn new(alloc: Global) -> DeliveryBook
        ensures value { result ≡ empty_book }
        ensures stands { StandsFor result [] 0 }
    {
        DeliveryBook {
            entries: Vec::new(alloc),
            index: EventIndex::new(alloc),
            names: Names::new(alloc),
            unsettled: VecDeque::new(alloc),
            tally: Tally::new(alloc),
            settled_tally: Tally::new(alloc),
            next_seq: 0,
            settled_seq: 0,
            settled_entries: 0,
            next_purge: None,
        }
    }

    /// Takes in the event of the record with this number, and makes the room that its outcomes need. `next_seq` and
    /// `find` test the conditions; that the endpoint is there is the caller's to know. An error means that an
    /// allocation failed.
    pub fn stage_accept(
        &mut self,
        seq: u64,
        name: Name,
        id: MsgId,
        body: Body,
        at: Moment,
    ) -> Result<(), AllocError>
        requires room { seq < MAX_RECORDS }
        requires above { self.old.next_seq ≤ seq }
        requires unknown { known_in self.old name id ≡ None }
        ensures accepted { OnOk result (self.new ≡ with_event self.old seq name id body at) }
        ensures stands { OnOk result (Takes self.old seq (Accept name id body at) self.new) }
        ensures unchanged { OnErr result (self.new ≡ self.old) }
    {
        let alloc = *self.entries.allocator();
        let places = self.places();
        let name = self.names.share(name)?;
        let id = KeptId::new(alloc, &id)?;
        let event = Entry::new(seq, name, id, body, at);
        self.entries.reserve(1)?;
        self.unsettled.reserve(places + 1 - self.unsettled.len())?;
        self.tally.open(&event.name)?;
        self.settled_tally.open(&event.name)?;
        self.index.insert(&event.name, &event.id, seq)?;
        self.tally.add(&event.name, State::Pending);
        self.entries.push_reserved(event);
        self.next_seq = seq + 1;
        Ok(())
    }

    /// Takes in one event at each of these endpoints, or at none if an allocation fails. Its records have the numbers
    /// from `seq` on, in the order of the names. It makes the room that their outcomes need. `next_seq`, `find` and
    /// `==` test the conditions; that the endpoints exist is the caller's to know.
    pub fn stage_accepts(
        &mut self,
        seq: u64,
        names: &[Name],
        id: MsgId,
        body: &Body,
        at: Moment,
    ) -> Result<(), AllocError>
        requires room { seq + length names.now ≤ MAX_RECORDS }
        requires above { self.old.next_seq ≤ seq }
        requires apart { AllPairs (λ a b. a ≢ b) names.now }
        requires unknown { All (λ name. known_in self.old name id ≡ None) names.now }
        ensures accepted { OnOk result (self.new ≡ with_events self.old seq (accepts names.now id body.now at)) }
        ensures stands { OnOk result (TakesAll self.old seq (accepts names.now id body.now at) self.new) }
        ensures unchanged { OnErr result (self.new ≡ self.old) }
    {
        let alloc = *self.entries.allocator();
        let places = self.places();
        let mut events = events_of(alloc, &mut self.names, seq, names, &id, body, at)?;
        let count = events.len();
        self.entries.reserve(count)?;
        self.unsettled
            .reserve(places + count - self.unsettled.len())?;
        self.tally.open_all(&events)?;
        self.settled_tally.open_all(&events)?;
        add_events(&mut self.index, &events)?;
        add_settled(&mut self.tally, &events);
        self.next_seq = seq + count as u64;
        let _ = self.entries.append(&mut events);
        Ok(())
    }

    /// Takes in the outcome of the record with this number: an attempt at the delivery ended with this status, or 0
    /// where none came. `next_seq` and `takes_outcome` test the conditions. It takes no memory.
    pub fn stage_outcome(&mut self, seq: u64, delivery: u64, status: u16, at: Moment)
        requires room { seq < MAX_RECORDS }
        requires above { self.old.next_seq ≤ seq }
        requires free { takes_outcome self.old delivery ≡ true }
        ensures unused { entry_at self.old.entries seq ≡ None }
        ensures value { self.new ≡ with_outcome self.old seq delivery status at }
        ensures stands { (attempt : ℕ) → Takes self.old seq (Outcome delivery attempt status at) self.new }
    {
        let index = index_of(&self.entries, delivery);
        let entry = &mut self.entries[index];
        let before = entry.latest.state();
        entry.latest = entry.latest.after(status, at);
        self.tally.remove(&entry.name, before);
        self.tally.add(&entry.name, entry.latest.state());
        self.unsettled
            .push_back_reserved(Unsettled { seq, delivery });
        self.next_seq = seq + 1;
    }

    /// Takes in the Purge of this number: it takes each delivery that has ended, the last attempt before this moment.
    /// Their ids are free from now on. They are given up once the Purge is settled. `next_seq` tests the condition. It
    /// takes no memory.
    pub fn stage_purge(&mut self, seq: u64, before: Moment)
        requires room { seq < MAX_RECORDS }
        requires above { self.old.next_seq ≤ seq }
        ensures value { self.new ≡ with_purge self.old seq before }
        ensures stands { Takes self.old seq (Purge before) self.new }
    {
        remove_done(&mut self.index, &self.entries, before);
        let took = mark_done(&mut self.entries, seq, before);
        self.next_purge = earlier(self.next_purge, took.then_some(seq));
        self.next_seq = seq + 1;
    }

    /// Takes in an outcome of this delivery, whatever its number, as settled at once. So a book is made of what a store
    /// holds: its events are taken in first, then their outcomes in the order of their numbers, and it is settled last.
    /// `may_restore` tests the condition. It takes no memory.
    pub fn restore_outcome(&mut self, delivery: u64, status: u16, at: Moment)
        requires { may_restore self.old delivery ≡ true }
        ensures { self.new ≡ with_outcome_restored self.old delivery status at }
    {
        let index = index_of(&self.entries, delivery);
        let entry = &mut self.entries[index];
        let before = entry.latest.state();
        let after = entry.latest.after(status, at);
        entry.latest = after;
        entry.settled = after;
        self.tally.remove(&entry.name, before);
        self.tally.add(&entry.name, after.state());
    }

    /// The records below this number are settled from now on. What Purges among them took is given up. It takes no
    /// memory.
    pub fn settle_to(&mut self, seq: u64)
        requires { self.old.settled_seq ≤ seq }
        ensures value { self.new ≡ with_settled self.old seq }
        ensures stands { Settles self.old seq self.new }
    {
        self.settle_events(seq);
        while self.settle_outcome() {}
        if is_below(self.next_purge, seq) {
            self.give_up_taken();
        }
        self.give_back_places();
    }

    /// Gives up the deliveries that settled Purges took, with their bodies.
    fn give_up_taken(&mut self)
        requires settled { rest_from self.old.settled_seq self.old.unsettled ≡ self.old.unsettled }
        ensures { self.new ≡ without_taken self.old self.old.settled_seq }
    {
        let seq = self.settled_seq;
        count_out(&mut self.tally, &self.entries, seq);
        count_out(&mut self.settled_tally, &self.entries, seq);
        keep_left(&mut self.entries, seq);
        self.settled_entries = count_below(&self.entries, seq);
        self.next_purge = first_purge(&self.entries);
    }

    /// How many outcomes may come to wait: one of each delivery that isn't settled, or pending by the settled records.
    fn places(&self) -> usize
        ensures enough { count_by may_wait self.now.entries ≤ result }
        ensures held { length self.now.unsettled ≤ result }
        ensures few { result ≤ length self.now.entries }
    {
        let pending = self.settled_tally.all().pending as usize;
        self.entries.len() - self.settled_entries + pending
    }

    /// Gives room for outcomes back, if there is more than four times what may come to wait.
    fn give_back_places(&mut self)
        ensures { self.new ≡ self.old }
    {
        let places = self.places().max(FEW_PLACES);
        give_back(&mut self.unsettled, places);
    }

    /// Counts the events below this number as settled, as far as their settled outcomes have brought them.
    fn settle_events(&mut self, seq: u64)
        requires { self.old.settled_seq ≤ seq }
        ensures { self.new ≡ with_events_settled self.old seq }
    {
        let upto = count_below(&self.entries, seq);
        add_settled_between(
            &mut self.settled_tally,
            &self.entries,
            self.settled_entries,
            upto,
        );
        self.settled_entries = upto;
        self.next_seq = self.next_seq.max(seq);
        self.settled_seq = seq;
    }

    /// Settles the first outcome that waits, if it is below the settled number; whether there was one.
    fn settle_outcome(&mut self) -> bool
        ensures told { result ≡ is_some (settle_first self.old self.old.unsettled) }
        ensures value { self.new ≡ unwrap_or (settle_first self.old self.old.unsettled) self.old }
    {
        let delivery = match self.unsettled.front() {
            Some(outcome) if outcome.seq < self.settled_seq => outcome.delivery,
            _ => return false,
        };
        let _ = self.unsettled.pop_front();
        let index = index_of(&self.entries, delivery);
        let entry = &mut self.entries[index];
        let before = entry.settled.state();
        entry.settled = entry.latest;
        self.settled_tally.remove(&entry.name, before);
        self.settled_tally.add(&entry.name, entry.settled.state());
        true
    }

    /// The least number that the next record may have: it is above all that the book was handed, and not below the
    /// settled number.
    pub fn next_seq(&self) -> u64
        ensures value { result ≡ self.now.next_seq }
        ensures settled { self.now.settled_seq ≤ result }
    {
        self.next_seq
    }

    /// The number below which the records are settled.
    pub fn settled_seq(&self) -> u64
        ensures value { result ≡ self.now.settled_seq }
        ensures once { HasOneEach self.now }
    {
        self.settled_seq
    }

    /// Whether the delivery takes an outcome: it is pending, and none of its outcomes waits to be settled.
    pub fn takes_outcome(&self, delivery: u64) -> bool
        ensures value { result ≡ takes_outcome self.now delivery }
        ensures stands { OverHistories self.now (λ records settled. result ≡ is_free records settled delivery) }
    {
        match entry_at(&self.entries, delivery) {
            Some(entry) => entry.is_open(),
            None => false,
        }
    }

    /// Whether an outcome of the delivery can be restored: no record is settled, no outcome waits, and the delivery is
    /// pending and has room to count one more attempt.
    pub fn may_restore(&self, delivery: u64) -> bool
        ensures { result ≡ may_restore self.now delivery }
    {
        match entry_at(&self.entries, delivery) {
            Some(entry) => {
                self.settled_seq == 0
                    && self.unsettled.is_empty()
                    && entry.is_open()
                    && entry.latest.attempts() < MAX_RECORDS
            }
            None => false,
        }
    }

    /// The delivery of the event that the endpoint knows by this id, whether it is settled or waits.
    pub fn find(&self, name: Name, id: &MsgId) -> Option<u64>
        ensures known { result ≡ known_in self.now name id.now }
        ensures stands { OverHistories self.now (λ records settled. result ≡ known_as records name id.now) }
    {
        self.index.get(name, id)
    }

    /// The delivery of the event that the endpoint knows by this id, as the settled records have it. While a Purge that
    /// took a delivery waits, it may have to look through all entries for one that the Purge took.
    pub fn find_settled(&self, name: Name, id: &MsgId) -> Option<u64>
        ensures known { result ≡ known_settled_in self.now name id.now }
        ensures stands { OverHistories self.now
            (λ records settled. result ≡ known_as (take settled records) name id.now) }
    {
        let known = self.find(name, id);
        if is_below(known, self.settled_seq) {
            return known;
        }
        if self.next_purge.is_none() {
            return None;
        }
        self.find_taken(name, id)
    }

    /// The same, by a look through the settled entries.
    fn find_taken(&self, name: Name, id: &MsgId) -> Option<u64>
        ensures { result ≡ known_settled_in self.now name id.now }
    {
        for entry in &self.entries[..self.settled_entries] {
            if entry.is_event(name, id) && entry.is_left(self.settled_seq) {
                return Some(entry.seq);
            }
        }
        None
    }

    /// How many deliveries there are, those included that a Purge took which isn't settled.
    pub fn len(&self) -> usize
        ensures count { result ≡ length self.now.entries }
        ensures in_step { IsInStep self.now }
    {
        self.entries.len()
    }

    /// The number of the delivery at this place, in the order in which they were taken in.
    pub fn delivery(&self, place: usize) -> Option<u64>
        ensures value { result ≡ option_map (λ e. e.seq) (slice_get self.now.entries place) }
        ensures once { HasOneEach self.now }
    {
        match self.entries.get(place) {
            Some(entry) => Some(entry.seq),
            None => None,
        }
    }

    /// The delivery that is concerned where the next record is settled: the record takes it in, or tells of an attempt
    /// at it.
    pub fn next_settled(&self) -> Option<u64>
        ensures value { result ≡ next_settled self.now }
        ensures in_step { IsInStep self.now }
    {
        if entry_at(&self.entries, self.settled_seq).is_some() {
            return Some(self.settled_seq);
        }
        match self.unsettled.front() {
            Some(outcome) if outcome.seq == self.settled_seq => Some(outcome.delivery),
            _ => None,
        }
    }

    /// The delivery as all records have it.
    pub fn row(&self, delivery: u64) -> Option<Row>
        ensures value { result ≡ latest_row self.now delivery }
        ensures few { IfSome result (λ row. row.attempts ≤ self.now.next_seq + MAX_RECORDS) }
        ensures in_step { IsInStep self.now }
        ensures stands { OverHistories self.now (λ records settled. result ≡ row_of records delivery) }
    {
        match entry_at(&self.entries, delivery) {
            Some(entry) => entry.latest_row(),
            None => None,
        }
    }

    /// The delivery as the settled records have it.
    pub fn settled(&self, delivery: u64) -> Option<Row>
        ensures value { result ≡ settled_row self.now delivery }
        ensures once { HasOneEach self.now }
        ensures stands { OverHistories self.now (λ records settled. result ≡ row_of (take settled records) delivery) }
    {
        if delivery < self.settled_seq {
            match entry_at(&self.entries, delivery) {
                Some(entry) => Some(entry.row(entry.settled)),
                None => None,
            }
        } else {
            None
        }
    }

    /// The body of the delivery's event, until a Purge that took it is settled.
    pub fn body(&self, delivery: u64) -> Option<&Body>
        ensures value { option_copied result ≡ option_map (λ e. e.body) (entry_at self.now.entries delivery) }
        ensures stands { OverHistories self.now
            (λ records settled. option_copied result ≡ body_left records settled delivery) }
    {
        match entry_at(self.entries.as_slice(), delivery) {
            Some(entry) => Some(&entry.body),
            None => None,
        }
    }

    /// How many deliveries of the endpoint are pending, as all records have it.
    pub fn pending(&self, name: Name) -> u64
        ensures value { result ≡ pending_in self.now name }
        ensures stands { OverHistories self.now (λ records settled. result ≡ (counts_of records name).pending) }
    {
        self.tally.of(name).pending
    }

    /// How many deliveries of all endpoints are pending, as all records have it.
    pub fn pending_all(&self) -> u64
        ensures { OverHistories self.now (λ records settled. result ≡ (counts_of_all records).pending) }
    {
        self.tally.all().pending
    }

    /// How many deliveries of the endpoint are in each state, as the settled records have it.
    pub fn settled_counts(&self, name: Name) -> Counts
        ensures value { result ≡ settled_counts self.now (Some name) }
        ensures stands { OverHistories self.now (λ records settled. result ≡ counts_of (take settled records) name) }
    {
        self.settled_tally.of(name)
    }

    /// How many deliveries of all endpoints are in each state, as the settled records have it.
    pub fn settled_counts_all(&self) -> Counts
        ensures value { result ≡ settled_counts self.now None }
        ensures stands { OverHistories self.now (λ records settled. result ≡ counts_of_all (take settled records)) }
    {
        self.settled_tally.all()
    }
}
