//! What lies under the lock. Each call is one of the desk's, or leaves the desk as it was.
ghost use Rattle.std.specs.Prelude.{◌≡◌, ◌≢◌, ◌≤◌, ◌<◌, ◌↔◌, ◌∷◌, ◌++◌, [], true, false, length, ℕ, IsTrue};
ghost use Rattle.std.specs.Prelude.{All, Contains, Result, IfOk, IfErr, IsOk, OnErr, OnOk, Option, None, Some};
ghost use Rattle.std.specs.Prelude.{IfNone, IfSome};
ghost use Rattle.relay_types.specs.Records.{records_of};
ghost use Rattle.spool.specs.Batches.{BatchValue, doubt_of};
ghost use Rattle.group_commit.specs.Turns as waiting;
ghost use Rattle.group_commit.specs.Waits.{record_count, with_settled};
ghost use Rattle.desk.specs.Desks.{IsCore, IsMove, Spends, Turns, IsReceiptOf, ArePlacesOf, IsHeldOf};
ghost use Rattle.desk.specs.Faults.{may_refuse, may_refuse_event, may_refuse_publish};
ghost use Rattle.desk.specs.OwnBooks as kept;
ghost use Rattle.desk.specs.Moves.{change, publish, seal, submit, with_sealed_settled, with_batch_back, with_halt};
ghost use Rattle.desk.specs.Claims.{JobValue, claim};
ghost use Rattle.desk.specs.declared.refusal.Refusal.{Refusal};
ghost use Rattle.delivery.specs.Logs.{HasChange, HasSettled, IsOfCommand, entry_of, ticket_of, tickets_of};
ghost use Rattle.delivery.specs.Keepers.{EndsByDesk};
ghost use Rattle.delivery.specs.declared.committer.CommitterEnd.TheVariants.{Halted};
ghost use Rattle.delivery.specs.Rounds.{EndsUnposted, ReportsAtEnd};
ghost use Rattle.delivery.specs.DeskAnswers.{claimed_of, closing_refusal, next_after_refusal, next_after_seal};
ghost use Rattle.delivery.specs.DeskAnswers.{round_of, went_back};

use crate::committer::{CommitterEnd, HaltCause, Next};
use crate::logged_keeper::Committed;
use crate::pass::Pass;
use crate::staged::{Published, StagedChange, StagedLog};
use crate::worker::{Claimed, Round};
use desk::{Command, CommandTicket, Desk, Fault, Job, Refusal, Spent, Ticket, Told};
use group_commit::{Held, Settled, WrongTurn};
use permits::{Foreign, Permit};
use relay_types::{Body, Moment, MsgId, Name};
use retry_table::PostResult;
use run_log::{Appending, Log, LogId, NewLog, Prefix};
use spool::Batch;
use std::marker::{Brand, Model};
use std::sync::ledger::Ledger;

/// The desk, whether the end was asked for, the prefix of the log that the desk has settled, and the log of the staged
/// records.
#[derive(Drop)]
pub struct Locked<L: Ledger, I: LogId> {
    desk: Desk<L>,
    is_closing: bool,
    prefix: Prefix<I>,
    staged: StagedLog<I>,
}

impl<L: Ledger, I: LogId> Model for Locked<L, I> {
    ghost use Rattle.delivery.specs.Logs.{HasRecords};
    ghost use Rattle.delivery.specs.LockedState.{LockedValue};

    ghost Value = { LockedValue };

    ghost view = { λ l. record { desk = l.desk; closing = l.is_closing; prefix = l.prefix; staged = l.staged } };

    ghost invariant = { λ l. HasRecords I.is_base I.start l.desk l.prefix l.staged };
}

/// Shows how a committer ended. Only what runs under the lock makes one: `Finished` once the end was asked for and
/// nothing waits, `Halted` once the desk is halted.
#[derive(Drop)]
pub struct Ended {
    how: CommitterEnd,
}

impl Model for Ended {
    ghost use Rattle.delivery.specs.declared.committer.CommitterEnd.{CommitterEnd};

    ghost Value = { CommitterEnd };

    ghost view = { λ e. e.how };
}

impl Ended {
    /// How it ended.
    pub fn how(&self) -> CommitterEnd
        ensures { result ≡ self.now }
    {
        self.how
    }
}

// What a call is told once the end was asked for.
const CLOSING: Refusal = Refusal {
    number: 1,
    fault: Fault::Halted,
};

impl<L: Ledger, I: LogId> Locked<L, I> {
    pub(crate) fn new(new_log: NewLog, desk: Desk<L>, prefix: Prefix<I>) -> Locked<L, I>
        requires table { new_log ≡ I.staged }
        requires settled { HasSettled I.is_base I.start desk prefix }
        ensures { result ≡ record {
          desk = desk;
          closing = false;
          prefix = prefix;
          staged = prefix ++ records_of desk.waiting.waiting;
        } }
    {
        let mut staged = StagedLog::new(new_log);
        staged.follow(&prefix, &desk);
        Locked {
            desk,
            is_closing: false,
            prefix,
            staged,
        }
    }

    pub(crate) fn into_desk(self) -> Desk<L>
        ensures desk { result ≡ self.desk }
        ensures core { IsCore result }
        ensures settled { HasSettled I.is_base I.start result self.prefix }
    {
        let Locked { desk, .. } = self;
        desk
    }

    /// The desk.
    pub fn desk(&self) -> &Desk<L>
        ensures { result.now ≡ self.now.desk }
    {
        &self.desk
    }

    /// Whether the end was asked for.
    pub fn is_closing(&self) -> bool
        ensures { result ≡ self.now.closing }
    {
        self.is_closing
    }

    pub(crate) fn close(&mut self)
        ensures { self.new ≡ record self.old { closing = true } }
    {
        self.is_closing = true;
    }

    pub(crate) fn submit(
        &mut self,
        now: Moment,
        name: Name,
        id: MsgId,
        body: Body,
    ) -> Result<Ticket, Refusal>
        ensures moves { self.old.closing ≡ false
            → IsMove self.old.desk (λ w. submit w now name id body) result self.new.desk }
        ensures ticket { IfOk result (λ given. (given.name ≡ name) × (given.id ≡ id)) }
        ensures names { IfErr result (λ why. IsTrue (may_refuse_event why.fault)) }
        ensures closing { IsTrue self.old.closing → result ≡ Err closing_refusal }
        ensures flag { self.new.closing ≡ self.old.closing }
        ensures err { OnErr result (self.new ≡ self.old) }
    {
        if self.is_closing {
            return Err(CLOSING);
        }
        match self.desk.submit(now, name, id, body) {
            Ok(ticket) => {
                self.staged.follow(&self.prefix, &self.desk);
                Ok(ticket)
            }
            Err(refusal) => Err(refusal),
        }
    }

    pub(crate) fn publish(
        &mut self,
        now: Moment,
        topic: Name,
        id: MsgId,
        body: Body,
    ) -> Result<Published<I>, Refusal>
        ensures moves { self.old.closing ≡ false
            → IsMove self.old.desk (λ w. publish w now topic id body) (tickets_of result) self.new.desk }
        ensures event { IfOk result (λ given. (given.topic ≡ topic) × (given.id ≡ id)
            × (given.prefix ≡ self.new.staged)) }
        ensures names { IfErr result (λ why. IsTrue (may_refuse_publish why.fault)) }
        ensures closing { IsTrue self.old.closing → result ≡ Err closing_refusal }
        ensures flag { self.new.closing ≡ self.old.closing }
        ensures err { OnErr result (self.new ≡ self.old) }
    {
        if self.is_closing {
            return Err(CLOSING);
        }
        match self.desk.publish(now, topic, id, body) {
            Ok(tickets) => {
                self.staged.follow(&self.prefix, &self.desk);
                Ok(Published::new(topic, id, tickets, self.staged.prefix()))
            }
            Err(refusal) => Err(refusal),
        }
    }

    pub(crate) fn command(&mut self, command: Command) -> Result<StagedChange<I>, Refusal>
        ensures moves { self.old.closing ≡ false
            → IsMove self.old.desk (λ w. change w command) (ticket_of result) self.new.desk }
        ensures change { IfOk result (λ change. IsOfCommand change command) }
        ensures names { IfErr result (λ why. IsTrue (may_refuse command why.fault)) }
        ensures closing { IsTrue self.old.closing → result ≡ Err closing_refusal }
        ensures flag { self.new.closing ≡ self.old.closing }
        ensures err { OnErr result (self.new ≡ self.old) }
    {
        if self.is_closing {
            return Err(CLOSING);
        }
        self.command_as::<Brand>(command)
    }

    // The same before the end was asked for. The call picks the command's record.
    fn command_as<N: Appending>(&mut self, command: Command) -> Result<StagedChange<I>, Refusal>
        requires { N.records ≡ entry_of command ∷ [] }
        ensures moves { IsMove self.old.desk (λ w. change w command) (ticket_of result) self.new.desk }
        ensures change { IfOk result (λ change. IsOfCommand change command) }
        ensures names { IfErr result (λ why. IsTrue (may_refuse command why.fault)) }
        ensures flag { self.new.closing ≡ self.old.closing }
        ensures err { OnErr result (self.new ≡ self.old) }
    {
        match self.desk.command(command) {
            Ok(ticket) => {
                let prefix = self.staged.append_as::<N>();
                Ok(StagedChange::new(ticket, prefix))
            }
            Err(refusal) => Err(refusal),
        }
    }

    // The pass is compared first.
    pub(crate) fn claim(&mut self, now: Moment, pass: &mut Pass) -> Claimed<L>
        ensures back { self.old.desk.waiting.settled < pass.old
            → (result ≡ Claimed.RoundOver (went_back pass.old self.old.desk.waiting.settled)) × (self.new ≡ self.old) }
        ensures closing { pass.old ≤ self.old.desk.waiting.settled → IsTrue self.old.closing
            → (result ≡ Claimed.RoundOver Round.Closing) × (self.new ≡ self.old) }
        ensures moves { pass.old ≤ self.old.desk.waiting.settled → self.old.closing ≡ false
            → (reply : Result (Option JobValue) Refusal) × (result ≡ claimed_of reply)
            × IsMove self.old.desk (λ w. claim w now) reply self.new.desk }
        ensures nothing { EndsUnposted result }
        ensures reports { ReportsAtEnd pass.old pass.new result }
        ensures pass { pass.old ≤ pass.new }
        ensures flag { self.new.closing ≡ self.old.closing }
    {
        if let Err(back) = pass.look(&self.desk) {
            return Claimed::RoundOver(Round::WentBack(back));
        }
        if self.is_closing {
            return Claimed::RoundOver(Round::Closing);
        }
        claimed_of(self.desk.claim(now))
    }

    pub(crate) fn spend(
        &mut self,
        permit: Permit<L>,
        post: PostResult,
        now: Moment,
    ) -> Result<Spent, (Permit<L>, Foreign)>
        ensures moves { Spends self.old.desk permit post now result self.new.desk }
        ensures row { IfOk result (λ spent. spent.row ≡ permit) }
        ensures post { IfOk result (λ spent. spent.post ≡ post) }
        ensures back { IfErr result (λ back. back.0 ≡ permit) }
        ensures flag { self.new.closing ≡ self.old.closing }
    {
        match self.desk.spend(permit, post, now) {
            Ok(spent) => {
                self.staged.follow(&self.prefix, &self.desk);
                Ok(spent)
            }
            Err(back) => Err(back),
        }
    }

    // The first of them that waits. Nothing is looked up for a number that is settled.
    pub(crate) fn first_waiting<'a>(&self, tickets: &'a [Ticket]) -> Option<&'a Ticket>
        ensures none { IfNone result (All (λ t. kept.told self.now.desk t ≢ Told.Waiting) tickets.now) }
        ensures waits { IfSome result (λ t. kept.told self.now.desk t.now ≡ Told.Waiting) }
        ensures among { IfSome result (λ t. Contains tickets.now t.now) }
        ensures core { IsCore self.now.desk }
    {
        let settled = self.desk.settled_records();
        tickets.iter().find(|ticket| ticket.seq >= settled
            && self.desk.told(ticket) == Told::Waiting)
    }

    // Its number is one of those that wait, and the desk isn't halted.
    #[tactic(auto, using(crate::proofs::ToldLaws::change_waits, crate::proofs::ToldLaws::waiting_change))]
    pub(crate) fn is_command_waiting(&self, ticket: &CommandTicket) -> bool
        ensures told { IsTrue result ↔ (kept.told_command self.now.desk ticket.now ≡ Told.Waiting) }
        ensures core { IsCore self.now.desk }
    {
        self.desk.settled_records() <= ticket.seq
            && ticket.seq < self.desk.records()
            && !self.desk.is_halted()
    }

    // Nothing waits to be sealed, and the end hasn't come.
    pub(crate) fn is_idle(&self) -> bool
        ensures sealed { IsTrue result → record_count self.now.desk.waiting ≡ self.now.desk.waiting.settled }
        ensures going { IsTrue result → (self.now.closing ≡ false) × (self.now.desk.halted ≡ false) }
        ensures idle { record_count self.now.desk.waiting ≡ self.now.desk.waiting.settled
            → self.now.closing ≡ false → self.now.desk.halted ≡ false → IsTrue result }
    {
        self.desk.records() == self.desk.settled_records()
            && !self.is_closing
            && !self.desk.is_halted()
    }

    // No more is settled than so much, and the end hasn't come.
    pub(crate) fn may_rest(&self, seen: u64) -> bool
        ensures settled { IsTrue result → self.now.desk.waiting.settled ≤ seen }
        ensures going { IsTrue result → (self.now.closing ≡ false) × (self.now.desk.halted ≡ false) }
        ensures rests { self.now.desk.waiting.settled ≤ seen
            → self.now.closing ≡ false → self.now.desk.halted ≡ false → IsTrue result }
    {
        self.desk.settled_records() <= seen && !self.is_closing && !self.desk.is_halted()
    }

    // What the committer does next: `None` if nothing waits and the end wasn't asked for, or another committer has a
    // batch.
    pub(crate) fn next_batch(&mut self) -> Option<Next>
        ensures moves { (reply : Result (Option BatchValue) Refusal) × (result ≡ next_after_seal self.old.closing reply)
            × IsMove self.old.desk (seal self.old.desk.waiting.mark) reply self.new.desk }
        ensures end { IfSome result EndsByDesk }
        ensures asked { result ≡ Some (Next.End CommitterEnd.Finished) → IsTrue self.old.closing }
        ensures flag { self.new.closing ≡ self.old.closing }
    {
        next_after_seal(self.is_closing, self.desk.seal())
    }

    pub(crate) fn settle(
        &mut self,
        log: &Log<I>,
        committed: Committed<I>,
    ) -> Result<Settled, (Committed<I>, WrongTurn)>
        ensures moves { Turns self.old.desk (λ w. IsReceiptOf self.old.desk.waiting.mark w committed.receipt)
            with_sealed_settled
            result self.new.desk }
        ensures turn { IsOk result ↔ waiting.IsReceiptOf self.old.desk.waiting committed.receipt }
        ensures waiting { OnOk result
            (self.new.desk.waiting ≡ with_settled self.old.desk.waiting (length committed.receipt.steps)) }
        ensures prefix { OnOk result (self.new.prefix ≡ committed.prefix) }
        ensures back { IfErr result (λ back. back.0 ≡ committed) }
        ensures flag { self.new.closing ≡ self.old.closing }
        ensures err { OnErr result (self.new ≡ self.old) }
    {
        let Committed {
            receipt,
            mut prefix,
        } = committed;
        let seen = self.prefix.copy(log);
        match self.desk.settle(receipt) {
            Ok(settled) => {
                prefix.compare(log, seen);
                self.prefix = prefix;
                Ok(settled)
            }
            Err((receipt, wrong)) => Err((Committed { receipt, prefix }, wrong)),
        }
    }

    /// The prefix of the log that the desk has settled.
    pub fn settled_prefix(&mut self, log: &Log<I>) -> Prefix<I>
        ensures prefix { result ≡ self.old.prefix }
        ensures settled { HasSettled I.is_base I.start self.old.desk self.old.prefix }
        ensures same { self.new ≡ self.old }
    {
        self.prefix.copy(log)
    }

    /// If the change is settled, the settled prefix of the log has its record.
    pub fn compare(&mut self, change: &mut StagedChange<I>)
        ensures logged { change.old.seq < self.old.desk.waiting.settled
            → HasChange I.is_base change.old self.old.prefix }
        ensures change { change.new ≡ change.old }
        ensures same { self.new ≡ self.old }
    {
        self.staged.compare(change);
    }

    pub(crate) fn unseal(&mut self, batch: Batch) -> Result<(), (Batch, WrongTurn)>
        ensures moves { Turns self.old.desk (λ w. ArePlacesOf self.old.desk.waiting.mark w (doubt_of batch))
            with_batch_back
            result self.new.desk }
        ensures turn { IsOk result ↔ waiting.ArePlacesOf self.old.desk.waiting (doubt_of batch) }
        ensures back { IfErr result (λ back. back.0 ≡ batch) }
        ensures flag { self.new.closing ≡ self.old.closing }
        ensures err { OnErr result (self.new ≡ self.old) }
    {
        self.desk.unseal(batch)
    }

    pub(crate) fn halt(&mut self, held: Held, cause: HaltCause) -> Result<Ended, (Held, WrongTurn)>
        ensures moves { Turns self.old.desk (λ w. IsHeldOf self.old.desk.waiting.mark w held) with_halt
            result self.new.desk }
        ensures turn { IsOk result ↔ waiting.IsHeldOf self.old.desk.waiting held }
        ensures ended { IfOk result (λ ended. ended ≡ Halted cause) }
        ensures back { IfErr result (λ back. back.0 ≡ held) }
        ensures flag { self.new.closing ≡ self.old.closing }
        ensures err { OnErr result (self.new ≡ self.old) }
    {
        self.desk.halt(held)?;
        Ok(Ended {
            how: CommitterEnd::Halted(cause),
        })
    }
}

// What a claim's answer is to a round.
fn claimed_of<L: Ledger>(claimed: Result<Option<Job<L>>, Refusal>) -> Claimed<L>
    ensures value { result ≡ claimed_of claimed }
    ensures nothing { EndsUnposted result }
    ensures reports { (seen now : ℕ) → ReportsAtEnd seen now result }
{
    match claimed {
        Ok(Some(job)) => Claimed::Job(job),
        Ok(None) => Claimed::RoundOver(Round::Idle),
        Err(refusal) => Claimed::RoundOver(round_of(refusal.fault)),
    }
}

// What a round is where a claim is refused for this.
fn round_of(fault: Fault) -> Round
    ensures { result ≡ round_of fault }
{
    match fault {
        Fault::Halted => Round::Halted,
        Fault::OutOfMemory => Round::NoMemory,
        _ => Round::Idle,
    }
}

// What a seal's answer is to the committer.
fn next_after_seal(is_closing: bool, sealed: Result<Option<Batch>, Refusal>) -> Option<Next>
    ensures value { result ≡ next_after_seal is_closing sealed }
    ensures end { IfSome result EndsByDesk }
    ensures asked { result ≡ Some (Next.End CommitterEnd.Finished) → IsTrue is_closing }
{
    match sealed {
        Ok(Some(batch)) => Some(Next::Commit(batch)),
        Ok(None) if is_closing => Some(Next::End(Ended {
            how: CommitterEnd::Finished,
        })),
        Ok(None) => None,
        Err(refusal) => next_after_refusal(refusal.fault),
    }
}

// What comes next where a seal is refused for this.
fn next_after_refusal(fault: Fault) -> Option<Next>
    ensures value { result ≡ next_after_refusal fault }
    ensures end { IfSome result EndsByDesk }
    ensures unfinished { result ≢ Some (Next.End CommitterEnd.Finished) }
{
    match fault {
        Fault::OutOfMemory => Some(Next::Refused),
        Fault::Halted => Some(Next::End(Ended {
            how: CommitterEnd::Halted(HaltCause::Halted),
        })),
        _ => None,
    }
}
