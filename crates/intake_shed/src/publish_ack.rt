//! Events for a topic that are acknowledged.
ghost use Rattle.std.specs.Prelude.{◌≡◌, ◌<◌, ◌≤◌, ◌↔◌, length, All, Any, IfSome, IsSome, IsTrue};
ghost use Rattle.desk.specs.Desks.{OverWorlds};
ghost use Rattle.desk.specs.OwnBooks as kept;
ghost use Rattle.desk.specs.Queries.{settled_body};
ghost use Rattle.delivery.specs.Logs.{HasTickets};
ghost use Rattle.intake_shed.specs.Acks.{AreBelow, AreLogged, AreSettled, ack_of, publish_ack_of};

use crate::ack::{Ack, is_settled};
use delivery::{Keeper, Locked, LoggedKeeper, Published};
use desk::{Desk, Ticket};
use relay_types::{Body, MsgId};
use run_log::{Log, LogId, Prefix};
use std::marker::Model;
use std::sync::ledger::Ledger;

/// Shows that an event is settled at each subscriber of its topic, and that it is in the log of the
/// run at each of its numbers. `PublishAck::of` alone makes it.
#[derive(Drop)]
pub struct PublishAck<I: LogId> {
    event: Published<I>,
    body: Body,
    prefix: Prefix<I>,
}

impl<I: LogId> Model for PublishAck<I> {
    ghost use Rattle.std.specs.Prelude.{◌<◌, length};
    ghost use Rattle.intake_shed.specs.Acks.{PublishAckValue, AreLogged, publish_ack_of};

    ghost Value = { PublishAckValue };

    ghost view = { λ a. publish_ack_of a.event a.body a.prefix };

    ghost invariant = { λ a. (0 < length a.event.tickets)
        × AreLogged I.is_base (publish_ack_of a.event a.body a.prefix) a.prefix };
}

impl<I: LogId> PublishAck<I> {
    /// The acknowledgement of an event that is settled with this body at each subscriber.
    pub fn of<L: Ledger>(
        log: &Log<I>,
        locked: &mut Locked<L, I>,
        event: Published<I>,
        body: Body,
    ) -> Option<PublishAck<I>>
        ensures settled { IsSome result ↔ AreSettled (kept.settled_body locked.old.desk) event.tickets body }
        ensures stands { OverWorlds locked.old.desk
            (λ w. IsSome result ↔ AreSettled (settled_body w) event.tickets body) }
        ensures value { IfSome result (λ ack. ack ≡ publish_ack_of event body locked.old.prefix) }
        ensures below { IfSome result (λ ack. AreBelow locked.old.desk.waiting.settled ack.event.tickets) }
        ensures same { locked.new ≡ locked.old }
    {
        if !are_settled(locked.desk(), event.tickets(), &body) {
            return None;
        }
        let prefix = locked.settled_prefix(log);
        Some(PublishAck {
            event,
            body,
            prefix,
        })
    }

    /// The event, which is in the log that the keeper committed at each of its numbers.
    pub fn compare<K: Keeper + Drop>(
        self,
        log: &Log<I>,
        logged: &mut LoggedKeeper<I, K>,
    ) -> Published<I>
        ensures logged { AreLogged I.is_base self logged.old.writer }
        ensures event { result ≡ self.event }
        ensures keeper { logged.new.keeper ≡ logged.old.keeper }
        ensures writer { logged.new.writer ≡ logged.old.writer }
    {
        let PublishAck { event, prefix, .. } = self;
        logged.compare(log, prefix);
        event
    }

    /// The acknowledgement of its record with the greatest number.
    pub fn into_latest(self) -> Ack<I>
        ensures one { Any (λ t. result ≡ ack_of t self.body self.prefix) self.event.tickets }
        ensures greatest { All (λ t. t.seq ≤ result.seq) self.event.tickets }
    {
        let PublishAck {
            event,
            body,
            prefix,
        } = self;
        Ack::new(latest_of(event.tickets()), body, prefix)
    }

    /// The id.
    pub fn id(&self) -> MsgId
        ensures { result ≡ self.now.event.id }
    {
        self.event.id()
    }

    /// The tickets of the topic's subscribers, in the order of their Puts. The log has the event at
    /// each of their numbers.
    pub fn tickets(&self) -> &[Ticket]
        ensures value { result.now ≡ self.now.event.tickets }
        ensures subscribers { HasTickets I.is_base self.now.event self.now.event.prefix }
        ensures logged { (0 < length self.now.event.tickets) × AreLogged I.is_base self.now self.now.prefix }
    {
        self.event.tickets()
    }

    /// The body.
    pub fn body(&self) -> &Body
        ensures { result.now ≡ self.now.body }
    {
        &self.body
    }
}

// Whether there are tickets, and each submission is settled with this body.
fn are_settled<L: Ledger>(desk: &Desk<L>, tickets: &[Ticket], body: &Body) -> bool
    ensures value { IsTrue result ↔ AreSettled (kept.settled_body desk.now) tickets.now body.now }
    ensures stands { OverWorlds desk.now (λ w. IsTrue result ↔ AreSettled (settled_body w) tickets.now body.now) }
    ensures below { IsTrue result → AreBelow desk.now.waiting.settled tickets.now }
{
    !tickets.is_empty() && tickets.iter().all(|ticket| is_settled(desk, ticket, body))
}

// The ticket with the greatest number.
fn latest_of(tickets: &[Ticket]) -> Ticket
    requires { 0 < length tickets.now }
    ensures one { Any (λ t. t ≡ result) tickets.now }
    ensures greatest { All (λ t. t.seq ≤ result.seq) tickets.now }
{
    let mut latest = tickets[0];
    for ticket in tickets {
        if latest.seq < ticket.seq {
            latest = *ticket;
        }
    }
    latest
}
