//! What threads share: the desk under one lock, and whom a change wakes.
//!
//! The committer waits on `staged` until a step waits, an idle worker on `resting`, and who waits
//! for a record on one of `settled`, by its number.
ghost use Rattle.std.specs.Prelude.{◌≡◌, ◌≢◌, ◌≤◌, ◌<◌, All, IfErr, IfOk, IfSome, IsTrue, List, OnErr};
ghost use Rattle.std.specs.Sync.Mutex.{mutex_guard_value};
ghost use Rattle.relay_types.specs.declared.record.Record.{Record};
ghost use Rattle.desk.specs.Desks.{IsCore};
ghost use Rattle.desk.specs.Faults.{may_refuse, may_refuse_event, may_refuse_publish};
ghost use Rattle.desk.specs.OwnBooks as kept;
ghost use Rattle.desk.specs.declared.ticket.Told.TheVariants.{Waiting};
ghost use Rattle.delivery.specs.Logs.{HasSettled, IsOfCommand};
ghost use Rattle.delivery.specs.Keepers.{EndsByDesk};
ghost use Rattle.delivery.specs.Rounds.{EndsUnposted, ReportsAtEnd};
ghost use Rattle.delivery.specs.SharedLog.{log_of};
ghost use Rattle.delivery.specs.declared.committer.CommitterEnd.TheVariants.{Halted};

use crate::committer::{HaltCause, Next, pause};
use crate::locked::{Ended, Locked};
use crate::logged_keeper::Committed;
use crate::pass::{Pass, WentBack};
use crate::staged::{Published, StagedChange};
use crate::worker::Claimed;
use desk::{Command, CommandTicket, Desk, Refusal, Spent, Ticket};
use group_commit::{Held, WrongTurn};
use permits::{Foreign, Permit};
use relay_types::{Body, Moment, MsgId, Name};
use retry_table::PostResult;
use run_log::{Log, LogId, NewLog, Prefix};
use spool::{Batch, MAX_BATCH_RECORDS};
use std::sync::ledger::Ledger;
use std::sync::{Condvar, Mutex, MutexGuard, Wait};
use std::time::Duration;
use std::{array, slice};

/// How many seconds a worker that found nothing rests at most.
pub const REST_SECONDS: u64 = 1;

/// The desk that threads share.
#[derive(Drop)]
pub struct Shared<L: Ledger, I: LogId> {
    locked: Mutex<Locked<L, I>>,
    staged: Condvar,
    settled: [Condvar; MAX_BATCH_RECORDS],
    resting: Condvar,
    log: Log<I>,
}

impl<L: Ledger, I: LogId> Shared<L, I> {
    /// The desk of a run that begins, with its log, of which the desk has settled this prefix, and an empty log for
    /// what is staged.
    pub fn new(log: Log<I>, new_log: NewLog, desk: Desk<L>, prefix: Prefix<I>) -> Shared<L, I>
        requires table { new_log ≡ I.staged }
        requires settled { HasSettled I.is_base I.start desk prefix }
        ensures { log_of result ≡ log }
    {
        Shared {
            locked: Mutex::new(Locked::new(new_log, desk, prefix)),
            staged: Condvar::new(),
            settled: array::from_fn(|_| Condvar::new()),
            resting: Condvar::new(),
            log,
        }
    }

    /// The log of the run.
    pub fn log(&self) -> &Log<I>
        ensures { result.now ≡ log_of self.now }
    {
        &self.log
    }

    /// The desk, once no other thread has it.
    pub fn into_desk(self) -> Desk<L>
        ensures core { IsCore result }
        ensures settled { (prefix : List Record) × HasSettled I.is_base I.start result prefix }
    {
        let Shared { locked, .. } = self;
        locked.into_inner().into_desk()
    }

    /// From now on nothing is staged or claimed. The committer goes on until nothing waits.
    pub fn finish<R: Wait>(&self, rt: &R) {
        self.locked.lock(rt).close();
        self.staged.notify_all();
        self.resting.notify_all();
    }

    /// Takes an event, and wakes the committer.
    pub fn submit<R: Wait>(
        &self,
        rt: &R,
        now: Moment,
        name: Name,
        id: MsgId,
        body: Body,
    ) -> Result<Ticket, Refusal>
        ensures ticket { IfOk result (λ given. (given.name ≡ name) × (given.id ≡ id)) }
        ensures names { IfErr result (λ why. IsTrue (may_refuse_event why.fault)) }
    {
        let staged = self.locked.lock(rt).submit(now, name, id, body);
        self.staged.notify_one();
        staged
    }

    /// Takes an event for the subscribers of a topic, and wakes the committer.
    pub fn publish<R: Wait>(
        &self,
        rt: &R,
        now: Moment,
        topic: Name,
        id: MsgId,
        body: Body,
    ) -> Result<Published<I>, Refusal>
        ensures event { IfOk result (λ given. (given.topic ≡ topic) × (given.id ≡ id)) }
        ensures names { IfErr result (λ why. IsTrue (may_refuse_publish why.fault)) }
    {
        let published = self.locked.lock(rt).publish(now, topic, id, body);
        self.staged.notify_one();
        published
    }

    /// Makes a change, and wakes the committer.
    pub fn command<R: Wait>(&self, rt: &R, command: Command) -> Result<StagedChange<I>, Refusal>
        ensures change { IfOk result (λ change. IsOfCommand change command) }
        ensures names { IfErr result (λ why. IsTrue (may_refuse command why.fault)) }
    {
        let staged = self.locked.lock(rt).command(command);
        self.staged.notify_one();
        staged
    }

    /// Waits until the submission is settled, or won't be.
    pub fn wait_for<R: Wait>(&self, rt: &R, ticket: &Ticket) -> MutexGuard<'_, Locked<L, I>>
        ensures over { kept.told (mutex_guard_value result).desk ticket.now ≢ Waiting }
        ensures core { IsCore (mutex_guard_value result).desk }
    {
        self.wait_for_all(rt, slice::from_ref(ticket))
    }

    /// Waits until each of these submissions is settled, or won't be.
    pub fn wait_for_all<R: Wait>(&self, rt: &R, tickets: &[Ticket]) -> MutexGuard<'_, Locked<L, I>>
        ensures over { All (λ t. kept.told (mutex_guard_value result).desk t ≢ Waiting) tickets.now }
        ensures core { IsCore (mutex_guard_value result).desk }
    {
        let mut locked = self.locked.lock(rt);
        for _ in rt.forever() {
            let Some(ticket) = locked.first_waiting(tickets) else {
                return locked;
            };
            locked = self.slot(ticket.seq).wait(rt, locked);
        }
        unreachable!()
    }

    /// Waits until the command is settled, or won't be.
    pub fn wait_for_command<R: Wait>(
        &self,
        rt: &R,
        ticket: &CommandTicket,
    ) -> MutexGuard<'_, Locked<L, I>>
        ensures over { kept.told_command (mutex_guard_value result).desk ticket.now ≢ Waiting }
        ensures core { IsCore (mutex_guard_value result).desk }
    {
        let mut locked = self.locked.lock(rt);
        for _ in rt.forever() {
            if !locked.is_command_waiting(ticket) {
                return locked;
            }
            locked = self.slot(ticket.seq).wait(rt, locked);
        }
        unreachable!()
    }

    // Where to wait for the record. No two of a batch have the same.
    fn slot(&self, seq: u64) -> &Condvar {
        &self.settled[(seq % MAX_BATCH_RECORDS as u64) as usize]
    }

    /// The desk, to be looked at, unless it has fewer settled records than the pass has seen. The pass sees them.
    pub fn look<R: Wait>(
        &self,
        rt: &R,
        pass: &mut Pass,
    ) -> Result<MutexGuard<'_, Locked<L, I>>, WentBack>
        ensures core { IfOk result (λ locked. IsCore (mutex_guard_value locked).desk) }
        ensures seen { IfOk result (λ locked. pass.new ≡ (mutex_guard_value locked).desk.waiting.settled) }
        ensures back { IfErr result (λ told. (told.seen ≡ pass.old) × (told.found < pass.old)) }
        ensures pass { pass.old ≤ pass.new }
        ensures same { OnErr result (pass.new ≡ pass.old) }
    {
        let locked = self.locked.lock(rt);
        pass.look(locked.desk())?;
        Ok(locked)
    }

    /// Rests until more is settled than the pass has seen, the desk is halted, or the end was asked
    /// for, but a second at most. The caller must claim next, since a batch wakes only one of those
    /// that rest.
    pub fn rest<R: Wait + std::time::Clock>(&self, rt: &R, pass: &Pass) {
        let seen = pass.seen();
        let most = Duration::from_secs(REST_SECONDS);
        let (_locked, _) = self
            .resting
            .wait_timeout_while(rt, self.locked.lock(rt), most, |locked| {
                locked.may_rest(seen)
            });
    }

    // Who gets a job wakes the next worker, if another event is pending.
    pub(crate) fn claim<R: Wait>(&self, rt: &R, now: Moment, pass: &mut Pass) -> Claimed<L>
        ensures nothing { EndsUnposted result }
        ensures reports { ReportsAtEnd pass.old pass.new result }
        ensures pass { pass.old ≤ pass.new }
    {
        let mut locked = self.locked.lock(rt);
        let claimed = locked.claim(now, pass);
        let pending = locked.desk().totals().pending;
        drop(locked);
        if pending > 1 && matches!(&claimed, Claimed::Job(_)) {
            self.resting.notify_one();
        }
        claimed
    }

    // Hands the permit in until it is taken, and wakes the committer where an outcome waits.
    pub(crate) fn spend<R: Wait>(
        &self,
        rt: &R,
        permit: Permit<L>,
        post: &PostResult,
        now: Moment,
    ) -> Spent
        ensures row { result.row ≡ permit }
        ensures post { result.post ≡ post.now }
    {
        let mut held = permit;
        for _ in rt.forever() {
            let taken = self.locked.lock(rt).spend(held, *post, now);
            match taken {
                Ok(spent) => {
                    self.staged.notify_one();
                    return spent;
                }
                Err((back, Foreign)) => held = back,
            }
        }
        unreachable!()
    }

    // Waits until a step waits, or the end has come. While another committer has a batch it tries again after a pause.
    pub(crate) fn next_batch<R: Wait + std::time::Clock>(&self, rt: &R) -> Next
        ensures { EndsByDesk result }
    {
        for _ in rt.forever() {
            if let Some(next) = self.wait_and_seal(rt) {
                return next;
            }
            pause(rt);
        }
        unreachable!()
    }

    // The same without a pause: `None` while another committer has a batch.
    fn wait_and_seal<R: Wait>(&self, rt: &R) -> Option<Next>
        ensures { IfSome result EndsByDesk }
    {
        let mut locked = self
            .staged
            .wait_while(rt, self.locked.lock(rt), |locked| locked.is_idle());
        locked.next_batch()
    }

    // Hands the receipt in until it is taken, and wakes who waits for its records. If an event is
    // pending, it wakes a worker, too.
    pub(crate) fn settle<R: Wait>(&self, rt: &R, committed: Committed<I>) {
        let mut held = committed;
        for _ in rt.forever() {
            let mut locked = self.locked.lock(rt);
            let from = locked.desk().settled_records();
            match locked.settle(&self.log, held) {
                Ok(_) => return self.wake_from(locked, from),
                Err((back, WrongTurn)) => held = back,
            }
        }
        unreachable!()
    }

    // Frees the lock first, so that nobody who is woken runs into it.
    fn wake_from(&self, locked: MutexGuard<'_, Locked<L, I>>, from: u64) {
        let totals = locked.desk().totals();
        drop(locked);
        for seq in from..totals.records {
            self.slot(seq).notify_all();
        }
        if totals.pending > 0 {
            self.resting.notify_one();
        }
    }

    // Hands the batch in until it is taken.
    pub(crate) fn unseal<R: Wait>(&self, rt: &R, batch: Batch) {
        let mut held = batch;
        for _ in rt.forever() {
            let taken = self.locked.lock(rt).unseal(held);
            match taken {
                Ok(()) => return,
                Err((back, WrongTurn)) => held = back,
            }
        }
        unreachable!()
    }

    // Hands in what is out until it is taken, and wakes all: nothing more will be settled.
    pub(crate) fn halt<R: Wait>(&self, rt: &R, out: Held, cause: HaltCause) -> Ended
        ensures { result ≡ Halted cause }
    {
        let mut held = out;
        for _ in rt.forever() {
            let taken = self.locked.lock(rt).halt(held, cause);
            match taken {
                Ok(ended) => {
                    self.wake_all();
                    return ended;
                }
                Err((back, WrongTurn)) => held = back,
            }
        }
        unreachable!()
    }

    fn wake_all(&self) {
        self.staged.notify_all();
        self.resting.notify_all();
        for slot in &self.settled {
            slot.notify_all();
        }
    }
}
