//! The records that were staged in a run.
ghost use Rattle.std.specs.Prelude.{◌≡◌, ◌++◌, [], length, drop};
ghost use Rattle.relay_types.specs.Records.{records_of};
ghost use Rattle.delivery.specs.Logs.{HasChange, HasTickets, change_of, published_of};

use desk::{CommandTicket, Desk, Ticket};
use relay_types::{MsgId, Name};
use run_log::{Appending, Log, LogId, LogWriter, NewLog, Prefix, Staged};
use std::marker::{Brand, Model};
use std::sync::ledger::Ledger;

/// A change that was staged: its ticket, and the prefix of the staged records that ends with its record.
/// `Shared::command` alone gives one.
#[derive(Drop)]
pub struct StagedChange<I: LogId> {
    ticket: CommandTicket,
    prefix: Prefix<Staged<I>>,
}

impl<I: LogId> Model for StagedChange<I> {
    ghost use Rattle.delivery.specs.Logs.{ChangeValue, HasChange, change_of};

    ghost Value = { ChangeValue };

    ghost view = { λ c. change_of c.ticket c.prefix };

    ghost invariant = { λ c. HasChange I.is_base (change_of c.ticket c.prefix) c.prefix };
}

impl<I: LogId> StagedChange<I> {
    pub(crate) fn new(ticket: CommandTicket, prefix: Prefix<Staged<I>>) -> StagedChange<I>
        requires { HasChange I.is_base (change_of ticket prefix) prefix }
        ensures { result ≡ change_of ticket prefix }
    {
        StagedChange { ticket, prefix }
    }

    /// The ticket.
    pub fn ticket(&self) -> CommandTicket
        ensures { result.seq ≡ self.now.seq }
    {
        self.ticket
    }
}

/// An event that was published: its topic, its id, the tickets of the topic's subscribers, and the prefix of the staged
/// records by which these are its subscribers. `Shared::publish` alone gives one.
#[derive(Drop)]
pub struct Published<I: LogId> {
    topic: Name,
    id: MsgId,
    tickets: Vec<Ticket>,
    prefix: Prefix<Staged<I>>,
}

impl<I: LogId> Model for Published<I> {
    ghost use Rattle.delivery.specs.Logs.{PublishedValue, HasTickets, published_of};

    ghost Value = { PublishedValue };

    ghost view = { λ p. published_of p.topic p.id p.tickets.items p.prefix };

    ghost invariant = { λ p. HasTickets I.is_base (published_of p.topic p.id p.tickets.items p.prefix) p.prefix };
}

impl<I: LogId> Published<I> {
    pub(crate) fn new(
        topic: Name,
        id: MsgId,
        tickets: Vec<Ticket>,
        prefix: Prefix<Staged<I>>,
    ) -> Published<I>
        requires { HasTickets I.is_base (published_of topic id tickets.items prefix) prefix }
        ensures { result ≡ published_of topic id tickets.items prefix }
    {
        Published {
            topic,
            id,
            tickets,
            prefix,
        }
    }

    /// The id.
    pub fn id(&self) -> MsgId
        ensures { result ≡ self.now.id }
    {
        self.id
    }

    /// The tickets, in the order of the subscribers' Puts.
    pub fn tickets(&self) -> &[Ticket]
        ensures value { result.now ≡ self.now.tickets }
        ensures subscribers { HasTickets I.is_base self.now self.now.prefix }
    {
        self.tickets.as_slice()
    }
}

// The log of the staged records, with its writer. Contracts see it as its records.
#[derive(Drop)]
pub(crate) struct StagedLog<I: LogId> {
    log: Log<Staged<I>>,
    writer: LogWriter<Staged<I>>,
}

impl<I: LogId> Model for StagedLog<I> {
    ghost use Rattle.std.specs.Prelude.{List};
    ghost use Rattle.relay_types.specs.declared.record.Record.{Record};

    ghost Value = { List Record };

    ghost view = { λ s. s.writer };
}

impl<I: LogId> StagedLog<I> {
    pub(crate) fn new(new_log: NewLog) -> StagedLog<I>
        requires { new_log ≡ I.staged }
        ensures { result ≡ [] }
    {
        let (log, writer) = new_log.named::<Staged<I>>();
        StagedLog { log, writer }
    }

    // Appends what waits at the desk, after the settled prefix, and wasn't appended yet.
    pub(crate) fn follow<L: Ledger>(&mut self, prefix: &Prefix<I>, desk: &Desk<L>)
        ensures { self.new ≡ self.old ++ drop (length self.old) (prefix.now ++ records_of desk.now.waiting.waiting) }
    {
        self.follow_as::<Brand, L>(prefix, desk);
    }

    fn follow_as<N: Appending, L: Ledger>(&mut self, prefix: &Prefix<I>, desk: &Desk<L>)
        requires { N.records ≡ drop (length self.old) (prefix.now ++ records_of desk.now.waiting.waiting) }
        ensures { self.new ≡ self.old ++ drop (length self.old) (prefix.now ++ records_of desk.now.waiting.waiting) }
    {
        self.writer.append_as::<N>(&self.log);
    }

    // Appends the records that the call picks, and gives all so far.
    pub(crate) fn append_as<N: Appending>(&mut self) -> Prefix<Staged<I>>
        ensures appended { self.new ≡ self.old ++ N.records }
        ensures prefix { result ≡ self.new }
    {
        self.writer.append_as::<N>(&self.log);
        self.writer.prefix(&self.log)
    }

    // All staged records so far.
    pub(crate) fn prefix(&mut self) -> Prefix<Staged<I>>
        ensures prefix { result ≡ self.old }
        ensures same { self.new ≡ self.old }
    {
        self.writer.prefix(&self.log)
    }

    // All staged records so far have that of the change at its number.
    pub(crate) fn compare(&mut self, change: &mut StagedChange<I>)
        ensures has { HasChange I.is_base change.old self.old }
        ensures change { change.new ≡ change.old }
        ensures same { self.new ≡ self.old }
    {
        let copy = change.prefix.copy(&self.log);
        self.writer.compare(&self.log, copy);
    }
}
