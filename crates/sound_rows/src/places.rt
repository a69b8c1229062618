//! Whether the secrets and the flag of an endpoint are those of a record that may have given them.
ghost use Rattle.std.specs.Prelude.{◌≡◌, ◌==◌, ◌&&◌, nat_lt, not};
ghost use Rattle.std.specs.List.{list_any, list_all};
ghost use Rattle.sound_rows.specs.RowNumbers.{AreAscending, kept};
ghost use Rattle.sound_rows.specs.Checks.{are_behind, are_flag_places, are_topics_placed, have_places, is_flag_command};
ghost use Rattle.sound_rows.specs.Checks.{is_flag_given, is_gone_attempt, is_overlooked, is_secrets_place};

use crate::numbers::{Attempt, Delivery, Endpoint, RowNumbers};
use crate::search::{is_delivery_of, place_of_attempt, place_of_delivery};
use relay_types::{MAX_ENDPOINTS, MAX_SUBSCRIPTIONS};
use retry_table::is_gone;

impl RowNumbers {
    // Whether the rows of endpoints, events and topics may stand where they do, beside what comes of the events.
    pub(crate) fn have_places(&self) -> bool
        requires { AreAscending (kept self.now) }
        ensures { result ≡ have_places (kept self.now) }
    {
        self.are_apart()
            && self.endpoints.len() <= MAX_ENDPOINTS
            && self.are_secrets_places()
            && self.are_flag_places()
            && self.are_behind()
            && self.are_topics_placed()
    }

    // Whether each event stands behind its endpoint's Put.
    fn are_behind(&self) -> bool
        ensures { result ≡ are_behind (kept self.now) }
    {
        self.deliveries.iter().all(|d| d.endpoint < d.seq)
    }

    // Whether there are not too many topics, each decided by a record behind its endpoint's Put.
    fn are_topics_placed(&self) -> bool
        ensures { result ≡ are_topics_placed (kept self.now) }
    {
        self.topics.len() <= MAX_SUBSCRIPTIONS && self.are_topics_behind()
    }

    // Whether each topic's record stands behind its endpoint's Put.
    fn are_topics_behind(&self) -> bool
        ensures { result ≡ list_all (λ t. nat_lt t.endpoint t.set_by) (kept self.now).topics }
    {
        self.topics.iter().all(|t| t.endpoint < t.set_by)
    }

    // Whether each endpoint's secrets were given by its Put, or by a later record that gave nothing else.
    fn are_secrets_places(&self) -> bool
        requires { AreAscending (kept self.now) }
        ensures { result ≡ list_all (is_secrets_place (kept self.now)) (kept self.now).endpoints }
    {
        self.endpoints.iter().all(|e| self.is_secrets_place(e))
    }

    fn is_secrets_place(&self, endpoint: &Endpoint) -> bool
        requires { AreAscending (kept self.now) }
        ensures { result ≡ is_secrets_place (kept self.now) endpoint.now }
    {
        let by = endpoint.secrets_by;
        by == endpoint.put
            || endpoint.put < by
                && !self.is_taken(by)
                && !gave_others_secrets(&self.endpoints, by, endpoint.put)
                && !gave_flag(&self.endpoints, by)
    }

    // Whether each endpoint's flag is that of a record that may have given it, and no attempt behind it took the flag
    // away.
    fn are_flag_places(&self) -> bool
        requires { AreAscending (kept self.now) }
        ensures { result ≡ are_flag_places (kept self.now) }
    {
        self.are_flags_given() && !self.is_any_overlooked()
    }

    fn are_flags_given(&self) -> bool
        requires { AreAscending (kept self.now) }
        ensures { result ≡ list_all (is_flag_given (kept self.now)) (kept self.now).endpoints }
    {
        self.endpoints.iter().all(|e| self.is_flag_given(e))
    }

    fn is_any_overlooked(&self) -> bool
        requires { AreAscending (kept self.now) }
        ensures { result ≡ list_any (is_overlooked (kept self.now)) (kept self.now).attempts }
    {
        self.attempts.iter().any(|t| self.is_overlooked(t))
    }

    // Whether the flag is that of the Put, of an attempt that was answered gone, or of a command.
    fn is_flag_given(&self, endpoint: &Endpoint) -> bool
        requires { AreAscending (kept self.now) }
        ensures { result ≡ is_flag_given (kept self.now) endpoint.now }
    {
        let by = endpoint.enabled_by;
        by == endpoint.put && endpoint.enabled
            || self.is_gone_at(endpoint, by) && !endpoint.enabled
            || self.is_flag_command(endpoint)
    }

    // Whether the flag may be that of a later command.
    fn is_flag_command(&self, endpoint: &Endpoint) -> bool
        requires { AreAscending (kept self.now) }
        ensures { result ≡ is_flag_command (kept self.now) endpoint.now }
    {
        let by = endpoint.enabled_by;
        endpoint.put < by
            && !self.is_taken(by)
            && !gave_others_flag(&self.endpoints, by, endpoint.put)
            && !gave_secrets(&self.endpoints, by)
    }

    // Whether the attempt with this number is one at an event of the endpoint that was answered gone.
    fn is_gone_at(&self, endpoint: &Endpoint, number: u64) -> bool
        requires { AreAscending (kept self.now) }
        ensures { result ≡ list_any (λ t. t.seq == number && is_gone_attempt (kept self.now) endpoint.now t)
            (kept self.now).attempts }
    {
        match self.attempts.get(place_of_attempt(&self.attempts, number)) {
            Some(found) => found.seq == number && self.is_gone_attempt(endpoint, found),
            None => false,
        }
    }

    // Whether the attempt is one at an event of the endpoint that was answered gone.
    fn is_gone_attempt(&self, endpoint: &Endpoint, attempt: &Attempt) -> bool
        requires { AreAscending (kept self.now) }
        ensures { result ≡ is_gone_attempt (kept self.now) endpoint.now attempt.now }
    {
        is_gone(attempt.status) && is_delivery_of(&self.deliveries, attempt.delivery, endpoint.put)
    }

    // Whether the attempt was answered gone behind the record that gave its endpoint its flag.
    fn is_overlooked(&self, attempt: &Attempt) -> bool
        requires { AreAscending (kept self.now) }
        ensures { result ≡ is_overlooked (kept self.now) attempt.now }
    {
        if !is_gone(attempt.status) {
            return false;
        }
        match self
            .deliveries
            .get(place_of_delivery(&self.deliveries, attempt.delivery))
        {
            Some(found) => has_older_flag(&self.endpoints, found, attempt),
            None => false,
        }
    }
}

// Whether the attempt is one at this event, of an endpoint that has its flag from a record before the attempt.
fn has_older_flag(endpoints: &[Endpoint], event: &Delivery, attempt: &Attempt) -> bool
    ensures { result ≡ list_any (λ e. nat_lt e.enabled_by attempt.now.seq
        && (event.now.seq == attempt.now.delivery && event.now.endpoint == e.put)) endpoints.now }
{
    endpoints.iter().any(|e| e.enabled_by < attempt.seq && event.is_of(attempt.delivery, e.put))
}

// Whether the record with this number gave the secrets of an endpoint that another one put.
fn gave_others_secrets(endpoints: &[Endpoint], number: u64, put: u64) -> bool
    ensures { result ≡ list_any (λ f. f.secrets_by == number && not (f.put == put)) endpoints.now }
{
    endpoints
        .iter()
        .any(|f| f.secrets_by == number && f.put != put)
}

// Whether the record with this number gave the secrets of an endpoint.
fn gave_secrets(endpoints: &[Endpoint], number: u64) -> bool
    ensures { result ≡ list_any (λ f. f.secrets_by == number) endpoints.now }
{
    endpoints.iter().any(|f| f.secrets_by == number)
}

// Whether the record with this number gave its flag to an endpoint that another one put.
fn gave_others_flag(endpoints: &[Endpoint], number: u64, put: u64) -> bool
    ensures { result ≡ list_any (λ f. f.enabled_by == number && not (f.put == put)) endpoints.now }
{
    endpoints
        .iter()
        .any(|f| f.enabled_by == number && f.put != put)
}

// Whether the record with this number gave an endpoint its flag.
fn gave_flag(endpoints: &[Endpoint], number: u64) -> bool
    ensures { result ≡ list_any (λ f. f.enabled_by == number) endpoints.now }
{
    endpoints.iter().any(|f| f.enabled_by == number)
}
