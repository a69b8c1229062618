//! The steps that wait, and the batch of the first of them that is out.
ghost use Rattle.std.specs.Prelude.{◌≡◌, ◌≤◌, ◌<◌, ◌-◌, ◌+◌, [], ◌∷◌, None, Some, true, false, length, slice_get};
ghost use Rattle.std.specs.Prelude.{option_map, ◌↔◌, IfOk, IfErr, IfSome, IsOk, IsErr, IsSome, IsTrue, OnOk, OnErr};
ghost use Rattle.relay_types.specs.declared.limits.TheConstants.{MAX_RECORDS};
ghost use Rattle.spool.specs.declared.limits.TheConstants.{MAX_BATCH_RECORDS};
ghost use Rattle.spool.specs.Batches.{doubt_of};
ghost use Rattle.group_commit.specs.Steps.{is_request, is_outcome, requests_in, outcomes_in, IsLongestPrefix};
ghost use Rattle.group_commit.specs.Waits.{batch_of, batch_out, record_count, sealed_count, with_step, with_batch_out};
ghost use Rattle.group_commit.specs.Waits.{with_settled, with_nothing_out};
ghost use Rattle.group_commit.specs.Turns.{IsReceiptOf, ArePlacesOf, IsHeldOf};

use crate::fault::{SealFault, WaitingFull, WrongTurn};
use crate::held::{Held, Settled};
use crate::limits::{MAX_WAITING_OUTCOMES, MAX_WAITING_REQUESTS};
use crate::out::Out;
use crate::queue::Queue;
use relay_types::Step;
use spool::{Batch, Doubt, MAX_BATCH_RECORDS, Receipt};
use std::alloc::{AllocError, Global};
use std::marker::Model;

/// The steps after the settled ones, in their order. A batch of the first of them may be out: it
/// is with the committer, until it comes back as a receipt, as itself or as a doubt.
#[derive(Drop)]
pub struct Waiting {
    mark: u64,
    settled: u64,
    records: u64,
    queue: Queue,
    out: Option<Out>,
    alloc: Global,
}

impl Model for Waiting {
    ghost use Rattle.std.specs.Prelude.{option_map};
    ghost use Rattle.group_commit.specs.Waits.{WaitingValue, IsWaiting};

    ghost Value = { WaitingValue };

    ghost view = { λ w. record { mark = w.mark; settled = w.settled; waiting = w.queue; out = option_map (λ o. o.steps) w.out } };

    ghost invariant = { λ w. IsWaiting w.settled w.records w.queue w.out };
}

impl Waiting {
    /// All places, and no step, after so many settled records of an opening with this mark.
    pub fn new(alloc: Global, records: u64, mark: u64) -> Result<Waiting, AllocError>
        requires { records ≤ MAX_RECORDS }
        ensures { IfOk result
            (λ waiting. waiting ≡ record { mark = mark; settled = records; waiting = []; out = None }) }
    {
        Ok(Waiting {
            mark,
            settled: records,
            records,
            queue: Queue::new(alloc)?,
            out: None,
            alloc,
        })
    }

    /// A request waits: a step of any records but an Outcome. Each of its records takes a place. It takes no memory.
    pub fn stage_request(&mut self, step: Step) -> Result<(), (Step, WaitingFull)>
        requires kind { IsTrue (is_request step) }
        requires room { record_count self.old + length step ≤ MAX_RECORDS }
        ensures full { IsErr result ↔ (MAX_WAITING_REQUESTS < requests_in self.old.waiting + length step) }
        ensures back { IfErr result (λ back. back.0 ≡ step) }
        ensures staged { OnOk result (self.new ≡ with_step self.old step) }
        ensures out { batch_out self.new ≡ batch_out self.old }
        ensures err { OnErr result (self.new ≡ self.old) }
    {
        let records = step.records().len();
        if self.free_requests() < records {
            return Err((step, WaitingFull));
        }
        self.records += records as u64;
        self.queue.push_request(step);
        Ok(())
    }

    /// An outcome waits. Behind the settled records no more wait than there are places. It takes no memory.
    pub fn stage_outcome(&mut self, step: Step)
        requires kind { IsTrue (is_outcome step) }
        requires place { outcomes_in self.old.waiting < MAX_WAITING_OUTCOMES }
        requires room { record_count self.old < MAX_RECORDS }
        ensures staged { self.new ≡ with_step self.old step }
        ensures out { batch_out self.new ≡ batch_out self.old }
        ensures few { record_count self.old < self.old.settled + MAX_WAITING_REQUESTS + MAX_WAITING_OUTCOMES }
    {
        self.records += 1;
        self.queue.push_outcome(step);
    }

    /// A batch of the longest prefix of the waiting steps that has at most 256 records: `None` if
    /// no step waits. No step is cut. It copies no body.
    pub fn seal(&mut self) -> Result<Option<Batch>, SealFault>
        ensures batch_out { (result ≡ Err SealFault.BatchOut) ↔ IsSome self.old.out }
        ensures nothing { (result ≡ Ok None) ↔ ((self.old.out ≡ None) × (self.old.waiting ≡ [])) }
        ensures batch { IfOk result
            (λ sealed. IfSome sealed (λ batch. batch ≡ batch_of self.old (sealed_count self.old))) }
        ensures longest { IfOk result (λ sealed. IfSome sealed
            (λ batch. IsLongestPrefix MAX_BATCH_RECORDS self.old.waiting batch.steps)) }
        ensures out { IfOk result (λ sealed. IfSome sealed (λ _. self.new ≡ with_batch_out self.old)) }
        ensures same { result ≡ Ok None → self.new ≡ self.old }
        ensures err { OnErr result (self.new ≡ self.old) }
    {
        if self.out.is_some() {
            return Err(SealFault::BatchOut);
        }
        if self.queue.len() == 0 {
            return Ok(None);
        }
        let count = self.queue.fitting(MAX_BATCH_RECORDS);
        let Ok(steps) = self.queue.share_first(self.alloc, count) else {
            return Err(SealFault::OutOfMemory);
        };
        let batch = Batch::of(self.mark, self.settled, steps);
        self.out = Some(Out {
            steps: count,
            upto: batch.upto(),
        });
        Ok(Some(batch))
    }

    /// Settles the steps of the batch that is out, by its receipt. It takes no memory.
    pub fn settle(&mut self, receipt: Receipt) -> Result<Settled, (Receipt, WrongTurn)>
        ensures turn { IsOk result ↔ IsReceiptOf self.old receipt }
        ensures records { IfOk result (λ settled. settled.records ≡ self.new.settled) }
        ensures settled { OnOk result (self.new ≡ with_settled self.old (length receipt.steps)) }
        ensures back { IfErr result (λ back. back.0 ≡ receipt) }
        ensures err { OnErr result (self.new ≡ self.old) }
    {
        if !self.is_receipt(&receipt) {
            return Err((receipt, WrongTurn));
        }
        self.settled = receipt.upto();
        let steps = receipt.into_steps();
        self.queue.drop_first(steps.len());
        self.out = None;
        Ok(Settled {
            records: self.settled,
        })
    }

    /// Takes the batch that is out back: its steps wait as before. It takes no memory.
    #[tactic(auto, using(crate::proofs::WaitLaws::waits_alone))]
    pub fn unseal(&mut self, batch: Batch) -> Result<(), (Batch, WrongTurn)>
        ensures turn { IsOk result ↔ ArePlacesOf self.old (doubt_of batch) }
        ensures waits { OnOk result (self.new ≡ with_nothing_out self.old) }
        ensures back { IfErr result (λ back. back.0 ≡ batch) }
        ensures err { OnErr result (self.new ≡ self.old) }
    {
        if !self.is_out_at(batch.mark(), batch.from(), batch.upto()) {
            return Err((batch, WrongTurn));
        }
        drop(batch.into_steps());
        self.out = None;
        Ok(())
    }

    /// Gives up what is out, or, where nothing is out, nothing. The steps wait. It takes no memory.
    pub fn abandon(&mut self, held: Held) -> Result<(), (Held, WrongTurn)>
        ensures turn { IsOk result ↔ IsHeldOf self.old held }
        ensures waits { OnOk result (self.new ≡ with_nothing_out self.old) }
        ensures back { IfErr result (λ back. back.0 ≡ held) }
        ensures err { OnErr result (self.new ≡ self.old) }
    {
        match held {
            Held::Nothing if self.is_out() => Err((Held::Nothing, WrongTurn)),
            Held::Nothing => Ok(()),
            Held::Batch(batch) => match self.unseal(batch) {
                Ok(()) => Ok(()),
                Err((batch, wrong)) => Err((Held::Batch(batch), wrong)),
            },
            Held::Doubt(doubt) => match self.abandon_doubt(doubt) {
                Ok(()) => Ok(()),
                Err((doubt, wrong)) => Err((Held::Doubt(doubt), wrong)),
            },
        }
    }

    /// How many records are settled or wait.
    pub fn records(&self) -> u64
        ensures count { result ≡ record_count self.now }
        ensures most { result ≤ MAX_RECORDS }
    {
        self.records
    }

    /// How many records are settled.
    pub fn settled_records(&self) -> u64
        ensures { result ≡ self.now.settled }
    {
        self.settled
    }

    /// Whether a batch is out.
    pub fn is_out(&self) -> bool
        ensures { IsTrue result ↔ IsSome self.now.out }
    {
        self.out.is_some()
    }

    /// How many steps wait, those that are out included.
    pub fn len(&self) -> usize
        ensures { result ≡ length self.now.waiting }
    {
        self.queue.len()
    }

    /// The waiting step at this place, from 0.
    pub fn get(&self, place: usize) -> Option<&Step>
        ensures { option_map (λ step. step.now) result ≡ slice_get self.now.waiting place }
    {
        self.queue.get(place)
    }

    /// How many more records of requests can wait. Behind the settled records no more wait than there are places.
    pub fn free_requests(&self) -> usize
        ensures free { result + requests_in self.now.waiting ≡ MAX_WAITING_REQUESTS }
        ensures records { record_count self.now + result ≤ self.now.settled + MAX_WAITING_REQUESTS
            + MAX_WAITING_OUTCOMES }
    {
        MAX_WAITING_REQUESTS - self.queue.requests()
    }

    /// How many more outcomes can wait. Behind the settled records no more wait than there are places.
    pub fn free_outcomes(&self) -> usize
        ensures free { result + outcomes_in self.now.waiting ≡ MAX_WAITING_OUTCOMES }
        ensures records { record_count self.now + result ≤ self.now.settled + MAX_WAITING_REQUESTS
            + MAX_WAITING_OUTCOMES }
    {
        MAX_WAITING_OUTCOMES - self.queue.outcomes()
    }

    #[tactic(auto, using(crate::proofs::WaitLaws::waits_alone))]
    fn abandon_doubt(&mut self, doubt: Doubt) -> Result<(), (Doubt, WrongTurn)>
        ensures turn { IsOk result ↔ ArePlacesOf self.old doubt }
        ensures waits { OnOk result (self.new ≡ with_nothing_out self.old) }
        ensures back { IfErr result (λ back. back.0 ≡ doubt) }
        ensures err { OnErr result (self.new ≡ self.old) }
    {
        if !self.is_out_at(doubt.mark(), doubt.from(), doubt.upto()) {
            return Err((doubt, WrongTurn));
        }
        doubt.end();
        self.out = None;
        Ok(())
    }

    // Whether the receipt is that of the batch that is out.
    fn is_receipt(&self, receipt: &Receipt) -> bool
        ensures { IsTrue result ↔ IsReceiptOf self.now receipt.now }
    {
        match self.out {
            Some(out) => {
                receipt.mark() == self.mark
                    && receipt.from() == self.settled
                    && receipt.steps().len() == out.steps
                    && self.queue.begins_with(receipt.steps())
            }
            None => false,
        }
    }

    // Whether the batch that is out has this mark and these places.
    fn is_out_at(&self, mark: u64, from: u64, upto: u64) -> bool
        ensures { IsTrue result ↔ ArePlacesOf self.now (record { mark = mark; from = from; upto = upto }) }
    {
        match self.out {
            Some(out) => mark == self.mark && from == self.settled && upto == out.upto,
            None => false,
        }
    }
}
