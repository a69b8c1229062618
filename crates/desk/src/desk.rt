//! The desk, and how it takes events.
ghost use Rattle.std.specs.Prelude.{◌≡◌, ◌<◌, ◌+◌, [], ◌∷◌, length, max, nat_le, IsTrue, None, Some, IfOk, IfErr, OnOk};
ghost use Rattle.std.specs.Prelude.{OnErr};
ghost use Rattle.relay_types.specs.declared.limits.TheConstants.{MAX_RECORDS};
ghost use Rattle.relay_types.specs.declared.record.Record.TheVariants.{Accept};
ghost use Rattle.relay_types.specs.Deliveries.{accepted};
ghost use Rattle.relay_types.specs.Legal.{is_within_limits};
ghost use Rattle.delivery_book.specs.Entries.{known_in, pending_in};
ghost use Rattle.spool.specs.Books.{AreSettled};
ghost use Rattle.group_commit.specs.declared.limits.TheConstants.{MAX_WAITING_REQUESTS};
ghost use Rattle.group_commit.specs.Steps.{is_request, requests_in};
ghost use Rattle.group_commit.specs.Waits.{batch_out, record_count, with_step};
ghost use Rattle.desk.specs.Faults.{may_refuse_event};
ghost use Rattle.desk.specs.World.{all_records};
ghost use Rattle.desk.specs.Moves.{are_seqs_spent, opened, ticket, submit, submit_faults, new_submit_faults};
ghost use Rattle.desk.specs.Moves.{is_conflict, has_body};
ghost use Rattle.desk.specs.declared.limits.TheConstants.{MAX_PENDING};
ghost use Rattle.permits.specs.declared.pool.TheConstants.{PARTS};
ghost use Rattle.desk.specs.Desks.{StandsFor, Opens, IsMove, Checks, HasNothingOut, KeepsOut, OverWorlds, with_accept};
ghost use Rattle.desk.specs.Desks.{IsKept, has_body_in, is_conflict_in};

use crate::limiter::Limiter;
use crate::limits::{MAX_PENDING, MAX_PENDING_ALL};
use crate::opening::{limiters_of, queue_of};
use crate::refusal::{Fault, Refusal, check, or_out_of_memory};
use crate::ticket::Ticket;
use claim_queue::ClaimQueue;
use delivery_book::DeliveryBook;
use endpoint_book::EndpointBook;
use group_commit::Waiting;
use permits::{PARTS, Pool};
use relay_types::{Body, MAX_RECORDS, Moment, MsgId, Name, Record, Step};
use spool::Books;
use std::alloc::{AllocError, Global};
use std::marker::Model;
use std::sync::ledger::{Blank, Ledger};

/// The desk of one opening.
#[derive(Drop)]
pub struct Desk<L: Ledger> {
    pub(crate) clock: Moment,
    pub(crate) endpoints: EndpointBook,
    pub(crate) deliveries: DeliveryBook,
    pub(crate) waiting: Waiting,
    pub(crate) halted: bool,
    pub(crate) pool: Pool<L>,
    pub(crate) limiters: Vec<Limiter>,
    pub(crate) queue: ClaimQueue,
}

impl<L: Ledger> Model for Desk<L> {
    ghost use Rattle.desk.specs.Desks.{DeskValue, IsDesk};

    ghost Value = { DeskValue };

    ghost view = { λ d. record {
      clock = d.clock;
      endpoints = d.endpoints;
      deliveries = d.deliveries;
      waiting = d.waiting;
      halted = d.halted;
      live = d.pool;
      limiters = d.limiters.items;
    } };

    ghost invariant = { λ d. IsDesk d.endpoints d.deliveries d.waiting d.pool d.limiters.items d.queue };
}

impl<L: Ledger> Desk<L> {
    /// The desk of the empty history.
    pub fn new(alloc: Global, blank: Blank, mark: u64) -> Result<Desk<L>, AllocError>
        requires name { blank.name ≡ L.name }
        requires parts { blank.parts ≡ L.parts }
        requires enough { blank.parts ≡ PARTS }
        ensures mark { IfOk result (λ desk. desk.waiting.mark ≡ mark) }
        ensures stands { IfOk result (λ desk. StandsFor desk (opened [] 0)) }
        ensures out { IfOk result HasNothingOut }
    {
        let Ok(clock) = Moment::of(0) else {
            unreachable!()
        };
        Ok(Desk {
            clock,
            endpoints: EndpointBook::new(alloc)?,
            deliveries: DeliveryBook::new(alloc),
            waiting: Waiting::new(alloc, 0, mark)?,
            halted: false,
            pool: Pool::new(alloc, blank)?,
            limiters: Vec::new(alloc),
            queue: ClaimQueue::new(alloc),
        })
    }

    /// The desk of a history of which a vault gave these books: all of it is settled. Its permits come out of the pool.
    pub fn of(alloc: Global, pool: Pool<L>, books: Books, mark: u64) -> Result<Desk<L>, AllocError>
        requires empty { pool ≡ [] }
        requires settled { AreSettled books }
        ensures mark { IfOk result (λ desk. desk.waiting.mark ≡ mark) }
        ensures stands { IfOk result (Opens books) }
        ensures out { IfOk result HasNothingOut }
    {
        let Books {
            endpoints,
            deliveries,
            records,
            clock,
        } = books;
        let limiters = limiters_of(alloc, &endpoints)?;
        let queue = queue_of(alloc, &endpoints, &deliveries, &limiters, &pool)?;
        Ok(Desk {
            clock,
            endpoints,
            deliveries,
            waiting: Waiting::new(alloc, records, mark)?,
            halted: false,
            pool,
            limiters,
            queue,
        })
    }

    /// Takes an event. The same id with the same bytes gives the ticket of the first.
    pub fn submit(
        &mut self,
        now: Moment,
        name: Name,
        id: MsgId,
        body: Body,
    ) -> Result<Ticket, Refusal>
        ensures moves { IsMove self.old (λ w. submit w now name id body) result self.new }
        ensures ticket { IfOk result (λ given. (given.name ≡ name) × (given.id ≡ id)) }
        ensures names { IfErr result (λ why. IsTrue (may_refuse_event why.fault)) }
        ensures mark { self.new.waiting.mark ≡ self.old.waiting.mark }
        ensures out { KeepsOut self.old self.new }
        ensures err { OnErr result (self.new ≡ self.old) }
    {
        let known = self.deliveries.find(name, &id);
        self.check_submit(name, known, &body)?;
        let at = self.moment(now);
        if let Some(seq) = known {
            self.clock = at;
            return Ok(Ticket { seq, name, id });
        }
        self.check_new_submit(name)?;
        or_out_of_memory(8, self.stage_accept(at, name, id, body))
    }

    // The moment of a call: the clock never goes back.
    pub(crate) fn moment(&self, now: Moment) -> Moment
        ensures { result ≡ max now self.now.clock }
    {
        if now > self.clock { now } else { self.clock }
    }

    // Whether each number that can still be needed is given out: one for each permit that is out, and one more.
    pub(crate) fn are_seqs_spent(&self) -> bool
        ensures spent { result ≡ nat_le MAX_RECORDS (record_count self.now.waiting + length self.now.live) }
        ensures stands { OverWorlds self.now (λ w. result ≡ are_seqs_spent w) }
    {
        self.waiting.records() + self.pool.live() as u64 >= MAX_RECORDS
    }

    // Whether the delivery has these bytes.
    fn has_body(&self, delivery: u64, body: &Body) -> bool
        requires kept { IsKept self.now (Some delivery) }
        ensures value { result ≡ has_body_in self.now.deliveries delivery body.now }
        ensures stands { OverWorlds self.now (λ w. result ≡ has_body body.now (accepted (all_records w) delivery)) }
    {
        match self.deliveries.body(delivery) {
            Some(known) => known.is(body),
            None => false,
        }
    }

    // Whether the delivery that is known has other bytes.
    pub(crate) fn is_conflict(&self, known: Option<u64>, body: &Body) -> bool
        requires kept { IsKept self.now known }
        ensures value { result ≡ is_conflict_in self.now.deliveries known body.now }
        ensures stands { OverWorlds self.now (λ w. result ≡ is_conflict (all_records w) known body.now) }
    {
        match known {
            Some(delivery) => !self.has_body(delivery, body),
            None => false,
        }
    }

    fn check_submit(&self, name: Name, known: Option<u64>, body: &Body) -> Result<(), Refusal>
        requires kept { IsKept self.now known }
        ensures faults { Checks self.now (λ w. submit_faults w name known body.now) result }
        ensures names { IfErr result (λ why. IsTrue (may_refuse_event why.fault)) }
    {
        check(&[
            (self.halted, 1, Fault::Halted),
            (!self.endpoints.contains(name), 2, Fault::UnknownEndpoint),
            (self.is_conflict(known, body), 3, Fault::Conflict),
        ])
    }

    fn check_new_submit(&self, name: Name) -> Result<(), Refusal>
        ensures faults { Checks self.now (λ w. new_submit_faults w name) result }
        ensures names { IfErr result (λ why. IsTrue (may_refuse_event why.fault)) }
        ensures few { OnOk result (pending_in self.now.deliveries name < MAX_PENDING) }
        ensures place { OnOk result (requests_in self.now.waiting.waiting < MAX_WAITING_REQUESTS) }
        ensures room { OnOk result (record_count self.now.waiting + length self.now.live < MAX_RECORDS) }
    {
        check(&[
            (
                self.deliveries.pending(name) >= MAX_PENDING,
                4,
                Fault::EndpointBacklog,
            ),
            (
                self.deliveries.pending_all() >= MAX_PENDING_ALL,
                5,
                Fault::Backlog,
            ),
            (self.waiting.free_requests() == 0, 6, Fault::WaitingFull),
            (self.are_seqs_spent(), 7, Fault::SeqExhausted),
        ])
    }

    // The steps that can fail for memory come first.
    fn stage_accept(
        &mut self,
        at: Moment,
        name: Name,
        id: MsgId,
        body: Body,
    ) -> Result<Ticket, AllocError>
        requires place { requests_in self.old.waiting.waiting < MAX_WAITING_REQUESTS }
        requires room { record_count self.old.waiting + length self.old.live < MAX_RECORDS }
        requires few { pending_in self.old.deliveries name < MAX_PENDING }
        requires unknown { known_in self.old.deliveries name id ≡ None }
        ensures ticket { IfOk result (λ given. given ≡ ticket (record_count self.old.waiting) name id) }
        ensures staged { OnOk result (self.new ≡ with_accept self.old name id body at) }
        ensures out { batch_out self.new.waiting ≡ batch_out self.old.waiting }
        ensures limits { OnOk result (IsTrue (is_within_limits (Accept name id body at))) }
        ensures err { OnErr result (self.new ≡ self.old) }
    {
        let seq = self.waiting.records();
        let kept = body.share()?;
        let pending = self.deliveries.pending(name) as usize;
        self.queue.reserve(name, pending + 1)?;
        self.deliveries.stage_accept(seq, name, id, kept, at)?;
        self.clock = at;
        push_request(&mut self.waiting, Record::Accept { name, id, body, at });
        Ok(Ticket { seq, name, id })
    }
}

// A request waits, for which there is a place.
pub(crate) fn push_request(waiting: &mut Waiting, entry: Record)
    requires kind { IsTrue (is_request (entry ∷ [])) }
    requires place { requests_in waiting.old.waiting < MAX_WAITING_REQUESTS }
    requires room { record_count waiting.old < MAX_RECORDS }
    ensures staged { waiting.new ≡ with_step waiting.old (entry ∷ []) }
    ensures out { batch_out waiting.new ≡ batch_out waiting.old }
{
    let Ok(()) = waiting.stage_request(Step::of(entry)) else {
        unreachable!()
    };
}
