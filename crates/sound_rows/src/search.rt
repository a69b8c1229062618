//! Where a row stands whose number is asked for, by halves.
ghost use Rattle.std.specs.Prelude.{◌≡◌, ◌==◌, ◌&&◌};
ghost use Rattle.std.specs.List.{list_any};
ghost use Rattle.sound_rows.specs.RowNumbers.{FirstBelow, IsAscending, RestFrom};

use crate::numbers::{Attempt, Delivery, Topic};

impl Delivery {
    /// Whether it is the event with this number, of the endpoint that the record with number `put` made.
    pub(crate) fn is_of(&self, seq: u64, put: u64) -> bool
        ensures { result ≡ (self.now.seq == seq && self.now.endpoint == put) }
    {
        self.seq == seq && self.endpoint == put
    }
}

/// Whether an event has this number.
pub(crate) fn has_delivery(deliveries: &[Delivery], seq: u64) -> bool
    requires { IsAscending (λ d. d.seq) deliveries.now }
    ensures { result ≡ list_any (λ d. d.seq == seq) deliveries.now }
{
    match deliveries.get(place_of_delivery(deliveries, seq)) {
        Some(found) => found.seq == seq,
        None => false,
    }
}

/// Whether the event with this number is one of the endpoint that the record with number `put` made.
pub(crate) fn is_delivery_of(deliveries: &[Delivery], seq: u64, put: u64) -> bool
    requires { IsAscending (λ d. d.seq) deliveries.now }
    ensures { result ≡ list_any (λ d. d.seq == seq && d.endpoint == put) deliveries.now }
{
    match deliveries.get(place_of_delivery(deliveries, seq)) {
        Some(found) => found.is_of(seq, put),
        None => false,
    }
}

/// Whether an attempt has this number.
pub(crate) fn has_attempt(attempts: &[Attempt], seq: u64) -> bool
    requires { IsAscending (λ t. t.seq) attempts.now }
    ensures { result ≡ list_any (λ t. t.seq == seq) attempts.now }
{
    match attempts.get(place_of_attempt(attempts, seq)) {
        Some(found) => found.seq == seq,
        None => false,
    }
}

/// Whether the record with this number decides a topic.
pub(crate) fn has_topic(topics: &[Topic], set_by: u64) -> bool
    requires { IsAscending (λ t. t.set_by) topics.now }
    ensures { result ≡ list_any (λ t. t.set_by == set_by) topics.now }
{
    match topics.get(place_of_topic(topics, set_by)) {
        Some(found) => found.set_by == set_by,
        None => false,
    }
}

/// How many events have lower numbers.
pub(crate) fn place_of_delivery(deliveries: &[Delivery], seq: u64) -> usize
    requires { IsAscending (λ d. d.seq) deliveries.now }
    ensures below { FirstBelow (λ d. d.seq) result seq deliveries.now }
    ensures above { RestFrom (λ d. d.seq) result seq deliveries.now }
{
    deliveries.partition_point(|d| d.seq < seq)
}

/// How many attempts have lower numbers.
pub(crate) fn place_of_attempt(attempts: &[Attempt], seq: u64) -> usize
    requires { IsAscending (λ t. t.seq) attempts.now }
    ensures below { FirstBelow (λ t. t.seq) result seq attempts.now }
    ensures above { RestFrom (λ t. t.seq) result seq attempts.now }
{
    attempts.partition_point(|t| t.seq < seq)
}

/// How many topics are decided by records with lower numbers.
pub(crate) fn place_of_topic(topics: &[Topic], set_by: u64) -> usize
    requires { IsAscending (λ t. t.set_by) topics.now }
    ensures below { FirstBelow (λ t. t.set_by) result set_by topics.now }
    ensures above { RestFrom (λ t. t.set_by) result set_by topics.now }
{
    topics.partition_point(|t| t.set_by < set_by)
}
