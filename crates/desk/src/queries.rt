//! What the desk tells.
ghost use Rattle.std.specs.Prelude.{◌≡◌, ◌<◌, length, None, IsSome, IfSome, option_map, option_copied};
ghost use Rattle.delivery_book.specs.Entries.{HasOneEach};
ghost use Rattle.delivery_book.specs.Fields.{settled_counts};
ghost use Rattle.vegas.specs.Estimators.{IsExplained};
ghost use Rattle.group_commit.specs.Waits.{record_count};
ghost use Rattle.desk.specs.World.{all_records, settled_records};
ghost use Rattle.desk.specs.Claims.{limits};
ghost use Rattle.desk.specs.Ties.{limiter_of};
ghost use Rattle.desk.specs.Queries.{is_row_of, has_event, told, told_command, settled_body, event_page, endpoint_page};
ghost use Rattle.desk.specs.Queries.{shown, totals, counts_told};
ghost use Rattle.desk.specs.OwnBooks as kept;
ghost use Rattle.desk.specs.Desks.{IsCore, OverWorlds};

use crate::desk::Desk;
use crate::limiter::limiter_of;
use crate::pages::{EndpointPage, Totals};
use crate::spent::Limits;
use crate::ticket::{CommandTicket, Ticket, Told};
use delivery_book::Row;
use relay_types::{Body, MsgId, Name};
use std::sync::ledger::Ledger;

impl<L: Ledger> Desk<L> {
    /// What is known of a submission.
    pub fn told(&self, ticket: &Ticket) -> Told
        ensures value { result ≡ kept.told self.now ticket.now }
        ensures stands { OverWorlds self.now (λ w. result ≡ told w ticket.now) }
    {
        if self.has_settled(ticket) {
            Told::Settled
        } else if !self.halted && is_of(self.deliveries.row(ticket.seq), ticket) {
            Told::Waiting
        } else {
            Told::Unknown
        }
    }

    /// What is known of a command.
    pub fn told_command(&self, ticket: &CommandTicket) -> Told
        ensures value { result ≡ kept.told_command self.now ticket.now }
        ensures stands { OverWorlds self.now (λ w. result ≡ told_command w ticket.now) }
    {
        if ticket.seq < self.settled_records() {
            Told::Settled
        } else if !self.halted && ticket.seq < self.records() {
            Told::Waiting
        } else {
            Told::Unknown
        }
    }

    /// The body of a submission that is settled.
    pub fn settled_body(&self, ticket: &Ticket) -> Option<&Body>
        ensures value { option_copied result ≡ kept.settled_body self.now ticket.now }
        ensures stands { OverWorlds self.now (λ w. option_copied result ≡ settled_body w ticket.now) }
        ensures settled { IsSome result → ticket.now.seq < self.now.waiting.settled }
    {
        if self.has_settled(ticket) {
            self.deliveries.body(ticket.seq)
        } else {
            None
        }
    }

    /// What the settled records say of an event.
    pub fn event_page(&self, name: Name, id: &MsgId) -> Option<Row>
        ensures value { result ≡ kept.event_page self.now name id.now }
        ensures stands { OverWorlds self.now (λ w. result ≡ event_page (settled_records w) name id.now) }
    {
        let delivery = self.deliveries.find_settled(name, id)?;
        self.deliveries.settled(delivery)
    }

    /// What the settled records say of an endpoint.
    pub fn endpoint_page(&self, name: Name) -> Option<EndpointPage<'_>>
        ensures value { option_map shown result ≡ kept.endpoint_page self.now name }
        ensures stands { OverWorlds self.now (λ w. option_map shown result ≡ endpoint_page (settled_records w) name) }
    {
        let counts = self.deliveries.settled_counts(name);
        match self.endpoints.settled(name) {
            Some(view) => Some(EndpointPage {
                delivered: counts.delivered,
                enabled: view.enabled,
                exhausted: counts.exhausted,
                max: view.max,
                name: view.name,
                pending: counts.pending,
                secrets: view.secrets,
                url: view.target,
            }),
            None => None,
        }
    }

    /// How many attempts of an endpoint may be under way, by all records, and how many are.
    pub fn limits(&self, name: Name) -> Option<Limits>
        ensures value { result ≡ kept.limits self.now name }

        // whatever its store had: the limit is that of the endpoint's last samples after some earlier ones
        ensures explained { IfSome (limiter_of self.now.limiters name) (λ l. IsExplained l.estimator) }
        ensures stands { OverWorlds self.now (λ w. result ≡ limits w name) }
    {
        let limiter = limiter_of(&self.limiters, name)?;
        Some(Limits {
            limit: limiter.estimator.limit(),
            in_flight: self.pool.in_flight(name),
            noload: limiter.estimator.noload(),
        })
    }

    /// What the settled records say of all endpoints and events.
    pub fn totals(&self) -> Totals
        ensures value { result ≡ kept.totals self.now }
        ensures records { result.records ≡ self.now.waiting.settled }
        ensures counts { counts_told result ≡ settled_counts self.now.deliveries None }
        ensures stands { OverWorlds self.now (λ w. result ≡ totals (settled_records w)) }
    {
        let counts = self.deliveries.settled_counts_all();
        Totals {
            delivered: counts.delivered,
            endpoints: self.endpoints.settled_len(),
            exhausted: counts.exhausted,
            pending: counts.pending,
            records: self.settled_records(),
        }
    }

    /// How many records there are.
    pub fn records(&self) -> u64
        ensures core { IsCore self.now }
        ensures value { result ≡ record_count self.now.waiting }
        ensures stands { OverWorlds self.now (λ w. result ≡ length (all_records w)) }
    {
        self.waiting.records()
    }

    /// How many records are settled.
    pub fn settled_records(&self) -> u64
        ensures core { IsCore self.now }
        ensures once { HasOneEach self.now.deliveries }
        ensures value { result ≡ self.now.waiting.settled }
        ensures stands { OverWorlds self.now (λ w. result ≡ length (settled_records w)) }
    {
        self.deliveries.settled_seq()
    }

    /// Whether nothing is taken or sealed any more.
    pub fn is_halted(&self) -> bool
        ensures { result ≡ self.now.halted }
    {
        self.halted
    }

    // Whether the ticket's event is settled.
    fn has_settled(&self, ticket: &Ticket) -> bool
        ensures value { result ≡ kept.has_event self.now ticket.now }
        ensures stands { OverWorlds self.now (λ w. result ≡ has_event (settled_records w) ticket.now) }
    {
        is_of(self.deliveries.settled(ticket.seq), ticket)
    }
}

// Whether the delivery is that of the ticket.
fn is_of(row: Option<Row>, ticket: &Ticket) -> bool
    ensures { result ≡ is_row_of ticket.now row }
{
    match row {
        Some(row) => row.endpoint.is(ticket.name) && row.id.is(ticket.id),
        None => false,
    }
}
