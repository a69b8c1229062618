//! Whether other books tell of what is settled what the desk tells.
ghost use Rattle.std.specs.Prelude.{◌≡◌, ◌↔◌, false, IsTrue};
ghost use Rattle.endpoint_book.specs.Book.{told};
ghost use Rattle.desk.specs.OwnBooks.{AreTold, event_in, totals_in};
ghost use Rattle.desk.specs.Comparing.{SameEndpoint, SameEvent, HasEndpoints, HasEvents, AllEndpoints, AllEvents};
ghost use Rattle.desk.specs.Comparing.{IsSameEvent, HasComeAsFar, IsSameTarget, HasSameSettings};

use crate::desk::Desk;
use crate::opening::row_at;
use crate::pages::Totals;
use delivery_book::{DeliveryBook, Row};
use endpoint_book::{EndpointBook, EndpointView};
use relay_types::{MsgId, Name};
use spool::Books;
use std::sync::ledger::Ledger;

impl<L: Ledger> Desk<L> {
    /// Whether the books tell what the desk tells: the same totals of all that is settled, the same
    /// page of each endpoint, and the same page of each event.
    pub fn is_told_by(&self, books: &Books) -> bool
        ensures { IsTrue result ↔ AreTold self.now books.now }
    {
        let mine = SettledView {
            endpoints: &self.endpoints,
            deliveries: &self.deliveries,
            records: self.settled_records(),
        };
        let theirs = SettledView {
            endpoints: &books.endpoints,
            deliveries: &books.deliveries,
            records: books.records,
        };
        mine.totals() == theirs.totals() && mine.is_in(&theirs) && theirs.is_in(&mine)
    }
}

// Books, of which so many records are settled.
#[derive(Clone, Copy)]
struct SettledView<'a> {
    endpoints: &'a EndpointBook,
    deliveries: &'a DeliveryBook,
    records: u64,
}

impl<'a> SettledView<'a> {
    fn totals(&self) -> Totals
        ensures { result ≡ totals_in self.now.endpoints.now self.now.deliveries.now self.now.records }
    {
        let counts = self.deliveries.settled_counts_all();
        Totals {
            delivered: counts.delivered,
            endpoints: self.endpoints.settled_len(),
            exhausted: counts.exhausted,
            pending: counts.pending,
            records: self.records,
        }
    }

    fn event(&self, name: Name, id: &MsgId) -> Option<Row>
        ensures { result ≡ event_in self.now.deliveries.now name id.now }
    {
        self.deliveries
            .settled(self.deliveries.find_settled(name, id)?)
    }

    // Whether each endpoint and each event that these books have has the same page by the other ones.
    fn is_in(&self, other: &SettledView<'_>) -> bool
        ensures endpoints { IsTrue result → HasEndpoints self.now other.now }
        ensures events { IsTrue result → HasEvents self.now other.now }
        ensures differs { result ≡ false → ¬ (AllEndpoints self.now other.now × AllEvents self.now other.now) }
    {
        self.are_endpoints_in(other) && self.are_events_in(other)
    }

    fn is_endpoint_in(&self, other: &SettledView<'_>, name: Name) -> bool
        ensures { IsTrue result ↔ SameEndpoint self.now other.now name }
    {
        match (self.endpoints.settled(name), other.endpoints.settled(name)) {
            (Some(view), Some(same)) => {
                is_same_view(&view, &same)
                    && self.deliveries.settled_counts(name) == other.deliveries.settled_counts(name)
            }
            (None, None) => true,
            _ => false,
        }
    }

    fn are_endpoints_in(&self, other: &SettledView<'_>) -> bool
        ensures same { IsTrue result → HasEndpoints self.now other.now }
        ensures differs { result ≡ false → ¬ AllEndpoints self.now other.now }
    {
        for name in self.endpoints.names() {
            if !self.is_endpoint_in(other, *name) {
                return false;
            }
        }
        true
    }

    fn is_event_in(&self, other: &SettledView<'_>, name: Name, id: &MsgId) -> bool
        ensures { IsTrue result ↔ SameEvent self.now other.now name id.now }
    {
        match (self.event(name, id), other.event(name, id)) {
            (Some(one), Some(other)) => is_same_row(&one, &other),
            (None, None) => true,
            _ => false,
        }
    }

    fn are_events_in(&self, other: &SettledView<'_>) -> bool
        ensures same { IsTrue result → HasEvents self.now other.now }
        ensures differs { result ≡ false → ¬ AllEvents self.now other.now }
    {
        for place in 0..self.deliveries.len() {
            if let Some(row) = row_at(self.deliveries, place) {
                if !self.is_event_in(other, row.endpoint, &row.id) {
                    return false;
                }
            }
        }
        true
    }
}

fn is_same_row(one: &Row, other: &Row) -> bool
    ensures { IsTrue result ↔ (one.now ≡ other.now) }
{
    is_same_event(one, other) && has_come_as_far(one, other)
}

fn is_same_event(one: &Row, other: &Row) -> bool
    ensures { IsTrue result ↔ IsSameEvent one.now other.now }
{
    one.endpoint.is(other.endpoint) && one.id.is(other.id) && one.at == other.at
}

fn has_come_as_far(one: &Row, other: &Row) -> bool
    ensures { IsTrue result ↔ HasComeAsFar one.now other.now }
{
    one.attempts == other.attempts
        && one.state == other.state
        && one.due == other.due
        && one.last_status == other.last_status
}

fn is_same_view(one: &EndpointView<'_>, other: &EndpointView<'_>) -> bool
    ensures { IsTrue result ↔ (told one.now ≡ told other.now) }
{
    is_same_target(one, other) && has_same_settings(one, other)
}

fn is_same_target(one: &EndpointView<'_>, other: &EndpointView<'_>) -> bool
    ensures { IsTrue result ↔ IsSameTarget (told one.now) (told other.now) }
{
    one.name.is(other.name) && one.target.is(other.target)
}

fn has_same_settings(one: &EndpointView<'_>, other: &EndpointView<'_>) -> bool
    ensures { IsTrue result ↔ HasSameSettings (told one.now) (told other.now) }
{
    one.max == other.max && one.enabled == other.enabled && one.secrets == other.secrets
}
