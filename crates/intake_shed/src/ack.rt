//! Events that are acknowledged.
ghost use Rattle.std.specs.Prelude.{◌≡◌, ◌<◌, ◌↔◌, Some, IsOk, IsTrue, IfOk, IfErr};
ghost use Rattle.desk.specs.Desks.{OverWorlds};
ghost use Rattle.desk.specs.OwnBooks as kept;
ghost use Rattle.desk.specs.Queries.{settled_body};
ghost use Rattle.intake_shed.specs.Acks.{IsLogged, ack_of};

use delivery::{Keeper, Locked, LoggedKeeper};
use desk::{Desk, Ticket};
use relay_types::{Body, MsgId, Name};
use run_log::{Log, LogId, Prefix};
use std::marker::Model;
use std::sync::ledger::Ledger;

/// An event that was acknowledged: the number of its record, its endpoint, its id and its body.
/// `Ack::compare` alone makes it.
#[derive(Drop)]
pub struct Acknowledged {
    ticket: Ticket,
    body: Body,
}

impl Model for Acknowledged {
    ghost use Rattle.intake_shed.specs.Acks.{EventValue};

    ghost Value = { EventValue };

    ghost view = { λ e. record { seq = e.ticket.seq; name = e.ticket.name; id = e.ticket.id; body = e.body } };
}

impl Acknowledged {
    /// The number of its record.
    pub fn seq(&self) -> u64
        ensures { result ≡ self.now.seq }
    {
        self.ticket.seq
    }

    /// The endpoint.
    pub fn name(&self) -> Name
        ensures { result ≡ self.now.name }
    {
        self.ticket.name
    }

    /// The id.
    pub fn id(&self) -> MsgId
        ensures { result ≡ self.now.id }
    {
        self.ticket.id
    }

    /// The body.
    pub fn body(&self) -> &Body
        ensures { result.now ≡ self.now.body }
    {
        &self.body
    }
}

/// Shows that an event is settled, and that it is in the log of the run. `Ack::of` alone makes it,
/// and `PublishAck::into_latest` of an event that is settled at all subscribers of its topic.
#[derive(Drop)]
pub struct Ack<I: LogId> {
    ticket: Ticket,
    body: Body,
    prefix: Prefix<I>,
}

impl<I: LogId> Model for Ack<I> {
    ghost use Rattle.intake_shed.specs.Acks.{AckValue, IsLogged, ack_of};

    ghost Value = { AckValue };

    ghost view = { λ a. ack_of a.ticket a.body a.prefix };

    ghost invariant = { λ a. IsLogged I.is_base (ack_of a.ticket a.body a.prefix) a.prefix };
}

impl<I: LogId> Ack<I> {
    pub(crate) fn new(ticket: Ticket, body: Body, prefix: Prefix<I>) -> Ack<I>
        requires { IsLogged I.is_base (ack_of ticket body prefix) prefix }
        ensures { result ≡ ack_of ticket body prefix }
    {
        Ack {
            ticket,
            body,
            prefix,
        }
    }

    /// The acknowledgement of a submission that is settled with this body, or the body back.
    pub fn of<L: Ledger>(
        log: &Log<I>,
        locked: &mut Locked<L, I>,
        ticket: Ticket,
        body: Body,
    ) -> Result<Ack<I>, Body>
        ensures settled { IsOk result ↔ (kept.settled_body locked.old.desk ticket ≡ Some body) }
        ensures stands { OverWorlds locked.old.desk (λ w. IsOk result ↔ (settled_body w ticket ≡ Some body)) }
        ensures value { IfOk result (λ ack. ack ≡ ack_of ticket body locked.old.prefix) }
        ensures below { IfOk result (λ ack. ack.seq < locked.old.desk.waiting.settled) }
        ensures back { IfErr result (λ back. back ≡ body) }
        ensures same { locked.new ≡ locked.old }
    {
        if is_settled(locked.desk(), &ticket, &body) {
            Ok(Ack {
                ticket,
                body,
                prefix: locked.settled_prefix(log),
            })
        } else {
            Err(body)
        }
    }

    /// The event, which is in the log that the keeper committed, at its number.
    pub fn compare<K: Keeper + Drop>(
        self,
        log: &Log<I>,
        logged: &mut LoggedKeeper<I, K>,
    ) -> Acknowledged
        ensures logged { IsLogged I.is_base self logged.old.writer }
        ensures event { result ≡ record { seq = self.seq; name = self.name; id = self.id; body = self.body } }
        ensures keeper { logged.new.keeper ≡ logged.old.keeper }
        ensures writer { logged.new.writer ≡ logged.old.writer }
    {
        let Ack {
            ticket,
            body,
            prefix,
        } = self;
        logged.compare(log, prefix);
        Acknowledged { ticket, body }
    }

    /// The endpoint.
    pub fn name(&self) -> Name
        ensures { result ≡ self.now.name }
    {
        self.ticket.name
    }

    /// The id.
    pub fn id(&self) -> MsgId
        ensures { result ≡ self.now.id }
    {
        self.ticket.id
    }

    /// The number of the event's record, at which the log has it.
    pub fn seq(&self) -> u64
        ensures value { result ≡ self.now.seq }
        ensures logged { IsLogged I.is_base self.now self.now.prefix }
    {
        self.ticket.seq
    }

    /// The body.
    pub fn body(&self) -> &Body
        ensures { result.now ≡ self.now.body }
    {
        &self.body
    }
}

// Whether the submission is settled with this body.
pub(crate) fn is_settled<L: Ledger>(desk: &Desk<L>, ticket: &Ticket, body: &Body) -> bool
    ensures value { IsTrue result ↔ (kept.settled_body desk.now ticket.now ≡ Some body.now) }
    ensures stands { OverWorlds desk.now (λ w. IsTrue result ↔ (settled_body w ticket.now ≡ Some body.now)) }
    ensures below { IsTrue result → ticket.now.seq < desk.now.waiting.settled }
{
    match desk.settled_body(ticket) {
        Some(settled) => settled.is(body),
        None => false,
    }
}
