//! Whether two books give the same answers.

use crate::draws::{IDS, LETTERS, TOPICS};
use crate::entries::name_of;
use delivery_book::{DeliveryBook, Row};
use endpoint_book::{EndpointBook, EndpointView};
use relay_types::{Body, MsgId, Name, Secrets, Target};
use spool::Books;
use std::test::Fail;

/// Whether all answers of the books are the same that concern the drawn names and ids, and the
/// numbers up to that of the next record.
pub(crate) fn same_books(one: &Books, other: &Books) -> Result<bool, Fail> {
    let have_names = same_names(one, other)?;
    let have_topics = same_topics(&one.endpoints, &other.endpoints)?;
    Ok(have_names && have_topics && same_counters(one, other) && same_rows(one, other))
}

fn same_counters(one: &Books, other: &Books) -> bool {
    one.records == other.records
        && one.clock == other.clock
        && same_lengths(&one.endpoints, &other.endpoints)
        && same_totals(&one.deliveries, &other.deliveries)
}

fn same_rows(one: &Books, other: &Books) -> bool {
    same_order(one.endpoints.names(), other.endpoints.names())
        && same_numbers(&one.deliveries, &other.deliveries, one.records)
}

fn same_lengths(one: &EndpointBook, other: &EndpointBook) -> bool {
    one.len() == other.len()
        && one.settled_len() == other.settled_len()
        && one.next_seq() == other.next_seq()
        && one.settled_seq() == other.settled_seq()
        && one.free_flags() == other.free_flags()
        && one.free_subscriptions() == other.free_subscriptions()
}

fn same_order(one: &[Name], other: &[Name]) -> bool {
    let mut is_same = one.len() == other.len();
    for (name, named) in one.iter().zip(other) {
        is_same = is_same && name.is(*named);
    }
    is_same
}

fn same_names(one: &Books, other: &Books) -> Result<bool, Fail> {
    let mut is_same = true;
    for letter in &LETTERS {
        let name = name_of(*letter)?;
        is_same = is_same
            && same_endpoint(&one.endpoints, &other.endpoints, name)
            && same_counts(&one.deliveries, &other.deliveries, name)
            && same_found(&one.deliveries, &other.deliveries, name)?;
    }
    Ok(is_same)
}

fn same_endpoint(one: &EndpointBook, other: &EndpointBook, name: Name) -> bool {
    one.contains(name) == other.contains(name)
        && one.is_enabled(name) == other.is_enabled(name)
        && one.max_limit(name) == other.max_limit(name)
        && same_secrets(one.secrets(name), other.secrets(name))
        && same_target(one.target(name), other.target(name))
        && same_settled(one, other, name)
}

fn same_topics(one: &EndpointBook, other: &EndpointBook) -> Result<bool, Fail> {
    let mut is_same = true;
    for topic in &TOPICS {
        let topic = Name::read(topic)?;
        is_same = is_same && same_subscribers(one, other, topic);
        for letter in &LETTERS {
            is_same = is_same && same_topic(one, other, topic, name_of(*letter)?);
        }
    }
    Ok(is_same)
}

fn same_topic(one: &EndpointBook, other: &EndpointBook, topic: Name, name: Name) -> bool {
    one.is_named(topic, name) == other.is_named(topic, name)
        && one.is_subscribed(topic, name) == other.is_subscribed(topic, name)
}

fn same_subscribers(one: &EndpointBook, other: &EndpointBook, topic: Name) -> bool {
    let mut found = one.subscribers(topic);
    let mut is_same = true;
    for name in other.subscribers(topic) {
        is_same = match found.next() {
            Some(it) => is_same && it.is(name),
            None => false,
        };
    }
    is_same && found.next().is_none()
}

fn same_secrets(one: Option<Secrets>, other: Option<Secrets>) -> bool {
    match (one, other) {
        (Some(one), Some(other)) => one.is(&other),
        (None, None) => true,
        _ => false,
    }
}

fn same_target(one: Option<&Target>, other: Option<&Target>) -> bool {
    match (one, other) {
        (Some(one), Some(other)) => one.is(other),
        (None, None) => true,
        _ => false,
    }
}

fn same_settled(one: &EndpointBook, other: &EndpointBook, name: Name) -> bool {
    match one.settled(name) {
        Some(view) => is_shown(other, name, &view),
        None => other.settled(name).is_none(),
    }
}

fn is_shown(book: &EndpointBook, name: Name, view: &EndpointView<'_>) -> bool {
    match book.settled(name) {
        Some(shown) => {
            shown.name.is(view.name)
                && shown.target.is(view.target)
                && shown.max == view.max
                && shown.enabled == view.enabled
                && shown.secrets == view.secrets
        }
        None => false,
    }
}

fn same_totals(one: &DeliveryBook, other: &DeliveryBook) -> bool {
    one.next_seq() == other.next_seq()
        && one.settled_seq() == other.settled_seq()
        && one.len() == other.len()
        && one.pending_all() == other.pending_all()
        && one.settled_counts_all() == other.settled_counts_all()
}

/// Whether both books have the same deliveries with these numbers.
fn same_numbers(one: &DeliveryBook, other: &DeliveryBook, count: u64) -> bool {
    let mut is_same = true;
    for delivery in 0..=count {
        is_same = is_same && same_delivery(one, other, delivery);
    }
    is_same
}

fn same_delivery(one: &DeliveryBook, other: &DeliveryBook, delivery: u64) -> bool {
    one.takes_outcome(delivery) == other.takes_outcome(delivery)
        && same_row(one.row(delivery), other.row(delivery))
        && same_row(one.settled(delivery), other.settled(delivery))
        && same_body(one.body(delivery), other.body(delivery))
}

fn same_row(one: Option<Row>, other: Option<Row>) -> bool {
    match (one, other) {
        (Some(one), Some(other)) => {
            one.endpoint.is(other.endpoint)
                && one.id.is(other.id)
                && one.at == other.at
                && one.attempts == other.attempts
                && one.state == other.state
                && one.due == other.due
                && one.last_status == other.last_status
        }
        (None, None) => true,
        _ => false,
    }
}

fn same_body(one: Option<&Body>, other: Option<&Body>) -> bool {
    match (one, other) {
        (Some(one), Some(other)) => one.is(other),
        (None, None) => true,
        _ => false,
    }
}

fn same_counts(one: &DeliveryBook, other: &DeliveryBook, name: Name) -> bool {
    one.pending(name) == other.pending(name)
        && one.settled_counts(name) == other.settled_counts(name)
}

fn same_found(one: &DeliveryBook, other: &DeliveryBook, name: Name) -> Result<bool, Fail> {
    let mut is_same = true;
    for id in &IDS {
        let id = MsgId::read(id)?;
        is_same = is_same
            && one.find(name, &id) == other.find(name, &id)
            && one.find_settled(name, &id) == other.find_settled(name, &id);
    }
    Ok(is_same)
}
