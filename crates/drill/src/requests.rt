//! What is asked of the desk: events, commands, and looks.
ghost use Rattle.std.specs.Prelude.{◌≡◌, ◌≤◌, List, [], ◌∷◌, ◌++◌, length, map, reverse, vec_capacity};
ghost use Rattle.relay_types.specs.declared.limits.TheConstants.{MAX_ENDPOINTS};
ghost use Rattle.script_lines.specs.declared.call.Call.TheVariants as on;
ghost use Rattle.script_lines.specs.declared.reply.Reply.TheVariants as says;
ghost use Rattle.drill.specs.declared.tickets.AnyTicket as any_ticket;
ghost use Rattle.drill.specs.declared.tickets.AnyTicket.TheVariants.{Submission};
ghost use Rattle.drill.specs.Moves.{answer_to, commands};
ghost use Rattle.drill.specs.Tickets.{seq_of, KeepsTickets};
ghost use Rattle.drill.specs.Cores.{CoreAnswers, HasRoom, HasSeqs, TakesRoom};

use crate::calls::Core;
use crate::replies::{event_reply, limits_reply, refusal_reply, told_reply};
use crate::tickets::AnyTicket;
use desk::{Command, Ticket};
use relay_types::{Body, MAX_ENDPOINTS, Moment, MsgId, Name};
use script_lines::{Reply, Seqs};
use std::sync::ledger::Ledger;

impl<L: Ledger> Core<L> {
    pub(crate) fn command(&mut self, command: Command) -> Reply
        requires { HasRoom self.old 1 1 }
        ensures answers { CoreAnswers self.old (λ s. commands s command) result self.new }
        ensures room { TakesRoom 1 self.old self.new }
    {
        match self.desk.command(command) {
            Ok(ticket) => self.keep(AnyTicket::Command(ticket)),
            Err(refusal) => refusal_reply(refusal),
        }
    }

    pub(crate) fn submit(&mut self, now: Moment, name: Name, id: MsgId, body: Body) -> Reply
        requires { HasRoom self.old 1 1 }
        ensures answers { CoreAnswers self.old (λ s. answer_to s (on.Submit now name id body)) result self.new }
        ensures room { TakesRoom 1 self.old self.new }
    {
        match self.desk.submit(now, name, id, body) {
            Ok(ticket) => self.keep(AnyTicket::Submission(ticket)),
            Err(refusal) => refusal_reply(refusal),
        }
    }

    // Takes an event for the subscribers of a topic. There is room for their numbers.
    pub(crate) fn publish(
        &mut self,
        now: Moment,
        topic: Name,
        id: MsgId,
        body: Body,
        seqs: Vec<u64>,
    ) -> Reply
        requires room { HasRoom self.old MAX_ENDPOINTS 0 }
        requires seqs { HasSeqs (on.Publish now topic id body) seqs }
        ensures answers { CoreAnswers self.old (λ s. answer_to s (on.Publish now topic id body)) result self.new }
        ensures room { TakesRoom MAX_ENDPOINTS self.old self.new }
    {
        match self.desk.publish(now, topic, id, body) {
            Ok(mut tickets) => {
                // A topic has no more subscribers.
                tickets.truncate(MAX_ENDPOINTS);
                self.keep_all(tickets.as_slice(), seqs)
            }
            Err(refusal) => refusal_reply(refusal),
        }
    }

    // Keeps the tickets, and replies with their numbers.
    fn keep_all(&mut self, tickets: &[Ticket], seqs: Vec<u64>) -> Reply
        requires room { HasRoom self.old (length tickets.now) 0 }
        requires empty { seqs.items ≡ [] }
        requires places { length tickets.now ≤ vec_capacity seqs }
        ensures reply { result ≡ says.Published (map (λ ticket. ticket.seq) tickets.now) }
        ensures kept { (given : List any_ticket.AnyTicket) → KeepsTickets self.old.tickets given
            → KeepsTickets self.new.tickets (reverse (map Submission tickets.now) ++ given) }
        ensures same { self.new ≡ record self.old { tickets = self.new.tickets } }
        ensures room { TakesRoom (length tickets.now) self.old self.new }
    {
        let mut seqs = seqs;
        for ticket in tickets {
            self.tickets.keep(AnyTicket::Submission(*ticket));
            seqs.push_reserved(ticket.seq);
        }
        Reply::Published(Seqs::of(seqs))
    }

    // Keeps the ticket, and replies with its number.
    fn keep(&mut self, ticket: AnyTicket) -> Reply
        requires { HasRoom self.old 1 1 }
        ensures reply { result ≡ says.Staged (seq_of ticket) }
        ensures kept { (tickets : List any_ticket.AnyTicket)
            → KeepsTickets self.old.tickets tickets → KeepsTickets self.new.tickets (ticket ∷ tickets) }
        ensures same { self.new ≡ record self.old { tickets = self.new.tickets } }
        ensures room { TakesRoom 1 self.old self.new }
    {
        let seq = ticket.seq();
        self.tickets.keep(ticket);
        Reply::Staged { seq }
    }

    pub(crate) fn told(&self, seq: u64) -> Reply
        ensures { CoreAnswers self.now (λ s. answer_to s (on.Told seq)) result self.now }
    {
        match self.tickets.find(seq) {
            Some(AnyTicket::Submission(ticket)) => told_reply(self.desk.told(&ticket)),
            Some(AnyTicket::Command(ticket)) => told_reply(self.desk.told_command(&ticket)),
            None => Reply::NoTicket,
        }
    }

    pub(crate) fn limits(&self, name: Name) -> Reply
        ensures { CoreAnswers self.now (λ s. answer_to s (on.Limits name)) result self.now }
    {
        limits_reply(self.desk.limits(name))
    }

    pub(crate) fn show_endpoint(&self, name: Name) -> Reply
        ensures { CoreAnswers self.now (λ s. answer_to s (on.ShowEndpoint name)) result self.now }
    {
        match self.desk.endpoint_page(name) {
            Some(page) => Reply::Endpoint {
                enabled: page.enabled,
                pending: page.pending,
                delivered: page.delivered,
                exhausted: page.exhausted,
            },
            None => Reply::Absent,
        }
    }

    pub(crate) fn show(&self, name: Name, id: &MsgId) -> Reply
        ensures { CoreAnswers self.now (λ s. answer_to s (on.Show name id.now)) result self.now }
    {
        event_reply(self.desk.event_page(name, id))
    }
}
