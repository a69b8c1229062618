//! The desk, with all that it has handed out.
ghost use Rattle.std.specs.Prelude.{◌≡◌, [], ◌≤◌, ◌+◌, false, IsPermutation, OnOk, vec_capacity, vec_len};
ghost use Rattle.script_lines.specs.declared.call.Call.TheVariants as on;
ghost use Rattle.desk.specs.World.{World, Nothing};
ghost use Rattle.desk.specs.Desks.{HasNothingOut, StandsFor};
ghost use Rattle.drill.specs.Moves.{answer_to};
ghost use Rattle.drill.specs.Cores.{CoreStandsFor, CoreAnswers, IsCore, HasRoom, HasSeqs, HasSeqsOf, TakesRoom};
ghost use Rattle.drill.specs.Cores.{OnlyMakesRoom, is_commit, most_tickets, most_tickets_of};
ghost use Rattle.drill.specs.Runners.{Answers};
ghost use Rattle.drill.specs.Worlds.{AnswersEvent};
ghost use Rattle.recovery.specs.Left.{IsCleanAt};

use crate::events;
use crate::held::Held;
use crate::queries::look_at;
use crate::tickets::Tickets;
use desk::{Command, Desk};
use permits::{Permit, Pool};
use script_lines::{Call, Reply};
use spool::Vault;
use sqlite::Alter;
use std::alloc::{AllocError, Global};
use std::mem;
use std::sync::ledger::Ledger;

/// The desk, what it handed out and didn't take back, and the tickets that it gave.
pub(crate) struct Core<L: Ledger> {
    pub(crate) desk: Desk<L>,
    pub(crate) held: Held,
    pub(crate) permits: Vec<Permit<L>>,
    pub(crate) tickets: Tickets,
}

impl<L: Ledger> Core<L> {
    // A desk that has handed out nothing.
    pub(crate) fn of(alloc: Global, desk: Desk<L>) -> Core<L>
        requires { HasNothingOut desk }
        ensures core { IsCore result }
        ensures mark { result.desk.waiting.mark ≡ desk.waiting.mark }
        ensures stands { (w : World) → StandsFor desk w → w.out ≡ Nothing → w.live ≡ []
            → CoreStandsFor result (record { world = w; tickets = [] }) }
    {
        Core {
            desk,
            held: Held::Nothing,
            permits: Vec::new(alloc),
            tickets: Tickets::new(alloc),
        }
    }

    // Makes room for so many tickets and permits.
    pub(crate) fn reserve(&mut self, tickets: usize, permits: usize) -> Result<(), AllocError>
        ensures same { OnlyMakesRoom self.old self.new }
        ensures room { OnOk result (HasRoom self.new tickets permits) }
    {
        self.tickets.reserve(tickets)?;
        self.permits.reserve(permits)
    }

    // Gives the call to the desk or the store. There is room for what it hands out.
    pub(crate) fn carry_out<S: Alter>(
        &mut self,
        vault: &mut Vault<S>,
        event: Call,
        seqs: Vec<u64>,
    ) -> Reply
        requires room { HasRoom self.old (most_tickets event) 1 }
        requires seqs { HasSeqs event seqs }
        requires core { IsCore self.old }
        ensures answers { IsCleanAt S.Store vault.new.conn
            → Answers S.Store self.old vault.old (λ s. answer_to s event) result self.new vault.new }
        ensures core { IsCore self.new }
        ensures room { TakesRoom (most_tickets event) self.old self.new }
        ensures clean { IsCleanAt S.Store vault.new.conn → IsCleanAt S.Store vault.old.conn }
    {
        match event {
            Call::Commit => self.commit(vault),
            other => self.call(other, seqs),
        }
    }

    // Makes the call of one event.
    pub(crate) fn take<S: Alter>(
        &mut self,
        vault: &mut Vault<S>,
        event: events::Event,
        seqs: Vec<u64>,
    ) -> events::Reply
        requires room { HasRoom self.old (most_tickets_of event) 1 }
        requires seqs { HasSeqsOf event seqs }
        requires core { IsCore self.old }
        ensures answers { IsCleanAt S.Store vault.new.conn
            → AnswersEvent S.Store self.old vault.old event result self.new vault.new }
        ensures core { IsCore self.new }
        ensures room { TakesRoom (most_tickets_of event) self.old self.new }
        ensures clean { IsCleanAt S.Store vault.new.conn → IsCleanAt S.Store vault.old.conn }
    {
        match event {
            events::Event::Line(event) => {
                events::Reply::Line(self.carry_out(vault, event, seqs))
            }
            events::Event::Look(look) => look_at(&self.desk, look),
        }
    }

    // Gives the call to the desk.
    fn call(&mut self, event: Call, seqs: Vec<u64>) -> Reply
        requires room { HasRoom self.old (most_tickets event) 1 }
        requires seqs { HasSeqs event seqs }
        requires core { IsCore self.old }
        requires desk { is_commit event ≡ false }
        ensures answers { CoreAnswers self.old (λ s. answer_to s event) result self.new }
        ensures room { TakesRoom (most_tickets event) self.old self.new }
    {
        match event {
            Call::Put {
                name,
                target,
                max,
                secrets,
            } => self.command(Command::PutEndpoint {
                name,
                target,
                max,
                secrets,
            }),
            Call::Secrets { name, secrets } => self.command(Command::SetSecrets { name, secrets }),
            Call::Enabled { name, flag } => self.command(Command::SetEnabled { name, flag }),
            Call::Subscribed { topic, name, flag } => {
                self.command(Command::SetSubscribed { topic, name, flag })
            }
            Call::Purge { before } => self.command(Command::Purge { before }),
            Call::Submit {
                now,
                name,
                id,
                body,
            } => self.submit(now, name, id, body),
            Call::Publish {
                now,
                topic,
                id,
                body,
            } => self.publish(now, topic, id, body, seqs),
            Call::Told { seq } => self.told(seq),
            Call::Claim { now } => self.claim(now),
            Call::Spend {
                delivery,
                now,
                post,
            } => self.spend(delivery, now, post),
            Call::Limits { name } => self.limits(name),
            Call::Seal => self.seal(),
            Call::Commit => unreachable!(),
            Call::Settle => self.settle(),
            Call::Unseal => self.unseal(),
            Call::Halt => self.halt(),
            Call::ShowEndpoint { name } => self.show_endpoint(name),
            Call::Show { name, id } => self.show(name, &id),
        }
    }

    // Holds this in place of what was held, which is ended.
    pub(crate) fn hold(&mut self, held: Held)
        ensures { self.new ≡ record self.old { held = held } }
    {
        mem::replace(&mut self.held, held).end();
    }

    // Closes the desk, with all that is out: its pool is empty.
    pub(crate) fn close(self) -> Pool<L>
        requires { IsCore self }
        ensures { result ≡ [] }
    {
        let Core {
            desk,
            held,
            permits,
            tickets: _,
        } = self;
        let (receipt, held) = held.parts();
        desk.close(permits, receipt, held)
    }
}
