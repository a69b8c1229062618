//! The calls on a batch: it is sealed, committed, settled, taken back or given up.
ghost use Rattle.std.specs.Prelude.{◌≡◌, ℕ, None};
ghost use Rattle.group_commit.specs.Turns.{IsHeldOf};
ghost use Rattle.script_lines.specs.declared.call.Call.TheVariants as on;
ghost use Rattle.script_lines.specs.declared.reply.Fault.{Fault};
ghost use Rattle.script_lines.specs.declared.reply.Reply.TheVariants as says;
ghost use Rattle.drill.specs.Moves.{answer_to, wrong_turn};
ghost use Rattle.drill.specs.Cores.{CoreAnswers, HandsOver, IsCore, RefusesHandOver, TakesRoom, given_of, receipt_of};
ghost use Rattle.drill.specs.Runners.{Answers};
ghost use Rattle.recovery.specs.Left.{IsCleanAt};

use crate::calls::Core;
use crate::commit::commit_batch;
use crate::held::Held;
use crate::replies::{refusal_reply, sealed_reply, wrong_turn};
use group_commit::WrongTurn;
use script_lines::Reply;
use spool::Vault;
use sqlite::Alter;
use std::mem;
use std::sync::ledger::Ledger;

impl<L: Ledger> Core<L> {
    pub(crate) fn seal(&mut self) -> Reply
        ensures answers { CoreAnswers self.old (λ s. answer_to s on.Seal) result self.new }
        ensures room { TakesRoom 1 self.old self.new }
    {
        match self.desk.seal() {
            Ok(Some(batch)) => {
                let reply = sealed_reply(&batch);
                self.hold(Held::Batch(batch));
                reply
            }
            Ok(None) => Reply::NothingWaits,
            Err(refusal) => refusal_reply(refusal),
        }
    }

    // Commits the batch that is held.
    pub(crate) fn commit<S: Alter>(&mut self, vault: &mut Vault<S>) -> Reply
        requires { IsCore self.old }
        ensures answers { IsCleanAt S.Store vault.new.conn
            → Answers S.Store self.old vault.old (λ s. answer_to s on.Commit) result self.new vault.new }
        ensures core { IsCore self.new }
        ensures room { TakesRoom 1 self.old self.new }
        ensures clean { IsCleanAt S.Store vault.new.conn → IsCleanAt S.Store vault.old.conn }
    {
        match mem::replace(&mut self.held, Held::Nothing) {
            Held::Batch(batch) => {
                let (held, reply) = commit_batch(vault, batch);
                self.hold(held);
                reply
            }
            other => {
                self.hold(other);
                Reply::NoBatch
            }
        }
    }

    pub(crate) fn settle(&mut self) -> Reply
        ensures answers { CoreAnswers self.old (λ s. answer_to s on.Settle) result self.new }
        ensures room { TakesRoom 1 self.old self.new }
        ensures refused { (number : ℕ) (fault : Fault) → result ≡ says.Refused number fault → result ≡ wrong_turn }
    {
        match mem::replace(&mut self.held, Held::Nothing) {
            Held::Receipt(receipt) => match self.desk.settle(receipt) {
                Ok(settled) => Reply::SettledTo {
                    to: settled.records,
                },
                Err((receipt, WrongTurn)) => {
                    self.hold(Held::Receipt(receipt));
                    wrong_turn()
                }
            },
            other => {
                self.hold(other);
                Reply::NoReceipt
            }
        }
    }

    pub(crate) fn unseal(&mut self) -> Reply
        ensures answers { CoreAnswers self.old (λ s. answer_to s on.Unseal) result self.new }
        ensures room { TakesRoom 1 self.old self.new }
        ensures refused { (number : ℕ) (fault : Fault) → result ≡ says.Refused number fault → result ≡ wrong_turn }
    {
        match mem::replace(&mut self.held, Held::Nothing) {
            Held::Batch(batch) => {
                let (from, to) = (batch.from(), batch.upto());
                match self.desk.unseal(batch) {
                    Ok(()) => Reply::Unsealed { from, to },
                    Err((batch, WrongTurn)) => {
                        self.hold(Held::Batch(batch));
                        wrong_turn()
                    }
                }
            }
            other => {
                self.hold(other);
                Reply::NoBatch
            }
        }
    }

    pub(crate) fn halt(&mut self) -> Reply
        ensures answers { CoreAnswers self.old (λ s. answer_to s on.Halt) result self.new }
        ensures room { TakesRoom 1 self.old self.new }
    {
        let (receipt, given) = mem::replace(&mut self.held, Held::Nothing).parts();
        let reply = self.hand_over(given);
        if let Some(receipt) = receipt {
            self.hold(Held::Receipt(receipt));
        }
        reply
    }

    // Hands over what a committer that halts the desk held.
    fn hand_over(&mut self, held: group_commit::Held) -> Reply
        ensures halts { HandsOver self.old held result self.new }
        ensures refused { RefusesHandOver self.old held result self.new }
        ensures mark { self.new.desk.waiting.mark ≡ self.old.desk.waiting.mark }
        ensures live { self.new.desk.live ≡ self.old.desk.live }
        ensures gone { IsHeldOf self.old.desk.waiting held
            → (self.new.held ≡ self.old.held) × (self.new.desk.waiting.out ≡ None) }
        ensures kept { ¬ IsHeldOf self.old.desk.waiting held → self.new.desk ≡ self.old.desk }
        ensures back { ¬ IsHeldOf self.old.desk.waiting held
            → (given_of self.new.held ≡ held) × (receipt_of self.new.held ≡ None) }
        ensures same { self.new ≡ record self.old { desk = self.new.desk; held = self.new.held } }
    {
        match self.desk.halt(held) {
            Ok(()) => Reply::Halted,
            Err((held, WrongTurn)) => {
                self.hold(Held::again(held));
                wrong_turn()
            }
        }
    }
}
