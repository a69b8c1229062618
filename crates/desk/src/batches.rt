//! How the desk hands out what waits, and takes back what became of it.
ghost use Rattle.std.specs.Prelude.{◌≡◌, [], None, Some, length, ◌↔◌, IsTrue, IfOk, IfErr, IfNone, IfSome, IsOk};
ghost use Rattle.std.specs.Prelude.{IsPermutation, OnErr, OnOk};
ghost use Rattle.spool.specs.Batches.{doubt_of};
ghost use Rattle.group_commit.specs.Waits.{batch_of, batch_out, sealed_count, with_settled};
ghost use Rattle.group_commit.specs.Turns as waiting;
ghost use Rattle.desk.specs.Faults.{may_refuse_seal};
ghost use Rattle.desk.specs.World.{sealed_records};
ghost use Rattle.desk.specs.Moves.{seal, with_sealed_settled, with_batch_back, with_halt};
ghost use Rattle.desk.specs.Desks.{IsMove, Turns, IsReceiptOf, ArePlacesOf, IsHeldOf, IsAllOut, OverWorlds};

use crate::desk::Desk;
use crate::queue_sync::settle_to;
use crate::refusal::{Fault, Refusal, check};
use group_commit::{Held, SealFault, Settled, WrongTurn};
use permits::{Foreign, Permit, Pool};
use spool::{Batch, Receipt};
use std::sync::ledger::Ledger;

impl<L: Ledger> Desk<L> {
    /// Puts the first steps that wait into a batch, with at most 256 records: `None` if nothing waits.
    pub fn seal(&mut self) -> Result<Option<Batch>, Refusal>
        ensures moves { IsMove self.old (seal self.old.waiting.mark) result self.new }
        ensures names { IfErr result (λ why. IsTrue (may_refuse_seal why.fault)) }
        ensures batch { IfOk result (λ sealed. IfSome sealed (λ batch.
            batch ≡ batch_of self.old.waiting (sealed_count self.old.waiting))) }
        ensures out { IfOk result (λ sealed. IfSome sealed (λ batch. batch_out self.new.waiting ≡ Some batch)) }
        ensures same { IfOk result (λ sealed. IfNone sealed (self.new ≡ self.old)) }
        ensures live { self.new.live ≡ self.old.live }
        ensures mark { self.new.waiting.mark ≡ self.old.waiting.mark }
        ensures err { OnErr result (self.new ≡ self.old) }
    {
        check(&[(self.halted, 1, Fault::Halted)])?;
        match self.waiting.seal() {
            Ok(sealed) => Ok(sealed),
            Err(SealFault::BatchOut) => Err(Refusal {
                number: 2,
                fault: Fault::BatchOut,
            }),
            Err(SealFault::OutOfMemory) => Err(Refusal {
                number: 3,
                fault: Fault::OutOfMemory,
            }),
        }
    }

    /// Settles the batch that is out, by its receipt: how many records are settled. It takes no memory.
    pub fn settle(&mut self, receipt: Receipt) -> Result<Settled, (Receipt, WrongTurn)>
        ensures moves { Turns self.old (λ w. IsReceiptOf self.old.waiting.mark w receipt) with_sealed_settled result
            self.new }
        ensures records { IfOk result
            (λ settled. OverWorlds self.old (λ w. settled.records ≡ length (sealed_records w))) }
        ensures waiting { OnOk result (self.new.waiting ≡ with_settled self.old.waiting (length receipt.steps)) }
        ensures count { IfOk result (λ settled. settled.records ≡ self.new.waiting.settled) }
        ensures turn { IsOk result ↔ waiting.IsReceiptOf self.old.waiting receipt }
        ensures out { OnOk result (self.new.waiting.out ≡ None) }
        ensures live { self.new.live ≡ self.old.live }
        ensures back { IfErr result (λ back. back.0 ≡ receipt) }
        ensures mark { self.new.waiting.mark ≡ self.old.waiting.mark }
        ensures err { OnErr result (self.new ≡ self.old) }
    {
        let settled = self.waiting.settle(receipt)?;
        self.endpoints.settle_to(settled.records);
        settle_to(&mut self.queue, &mut self.deliveries, settled.records);
        Ok(settled)
    }

    /// Takes the batch that is out back: its steps wait as before. It takes no memory.
    pub fn unseal(&mut self, batch: Batch) -> Result<(), (Batch, WrongTurn)>
        ensures moves { Turns self.old (λ w. ArePlacesOf self.old.waiting.mark w (doubt_of batch)) with_batch_back
            result self.new }
        ensures turn { IsOk result ↔ waiting.ArePlacesOf self.old.waiting (doubt_of batch) }
        ensures out { OnOk result (self.new.waiting.out ≡ None) }
        ensures live { self.new.live ≡ self.old.live }
        ensures back { IfErr result (λ back. back.0 ≡ batch) }
        ensures mark { self.new.waiting.mark ≡ self.old.waiting.mark }
        ensures err { OnErr result (self.new ≡ self.old) }
    {
        self.waiting.unseal(batch)
    }

    /// Takes what is out from a committer that gives up. From then on nothing is taken or sealed,
    /// and nothing that waits will be settled. It takes no memory.
    pub fn halt(&mut self, held: Held) -> Result<(), (Held, WrongTurn)>
        ensures moves { Turns self.old (λ w. IsHeldOf self.old.waiting.mark w held) with_halt result self.new }
        ensures turn { IsOk result ↔ waiting.IsHeldOf self.old.waiting held }
        ensures out { OnOk result (self.new.waiting.out ≡ None) }
        ensures live { self.new.live ≡ self.old.live }
        ensures back { IfErr result (λ back. back.0 ≡ held) }
        ensures mark { self.new.waiting.mark ≡ self.old.waiting.mark }
        ensures err { OnErr result (self.new ≡ self.old) }
    {
        self.waiting.abandon(held)?;
        self.halted = true;
        Ok(())
    }

    /// Ends the desk, with the permits that are out and what else is. Nothing that waits will be
    /// settled. The pool is empty, and another opening may take it.
    pub fn close(self, permits: Vec<Permit<L>>, receipt: Option<Receipt>, held: Held) -> Pool<L>
        requires permits { IsPermutation permits.items self.live }
        requires out { IsAllOut self.waiting receipt held }
        ensures { result ≡ [] }
    {
        let Desk { pool, .. } = self;
        if let Some(receipt) = receipt {
            drop(receipt.into_steps());
        }
        match held {
            Held::Nothing => {}
            Held::Batch(batch) => drop(batch.into_steps()),
            Held::Doubt(doubt) => doubt.end(),
        }
        emptied(pool, permits)
    }
}

// The pool, once all permits that are out are given back.
fn emptied<L: Ledger>(mut pool: Pool<L>, mut permits: Vec<Permit<L>>) -> Pool<L>
    requires { IsPermutation permits.items pool }
    ensures { result ≡ [] }
{
    while let Some(permit) = permits.pop() {
        match pool.give_back(permit) {
            Ok(_) => {}
            Err((_permit, Foreign)) => unreachable!(),
        }
    }
    permits.destroy_empty();
    pool
}
