//! Whether each number is below the number of records.
ghost use Rattle.std.specs.Prelude.{◌≡◌, ◌&&◌, nat_lt};
ghost use Rattle.std.specs.List.{list_all};
ghost use Rattle.sound_rows.specs.RowNumbers.{kept};
ghost use Rattle.sound_rows.specs.Checks.{are_below};

use crate::numbers::{Attempt, Delivery, Endpoint, RowNumbers, Topic};
use relay_types::MAX_RECORDS;

impl RowNumbers {
    // Whether each number is below the number of records, and these aren't too many.
    pub(crate) fn are_below(&self) -> bool
        ensures { result ≡ are_below (kept self.now) }
    {
        self.records <= MAX_RECORDS
            && are_endpoints_below(&self.endpoints, self.records)
            && are_deliveries_below(&self.deliveries, self.records)
            && are_attempts_below(&self.attempts, self.records)
            && are_topics_below(&self.topics, self.records)
    }
}

fn are_endpoints_below(endpoints: &[Endpoint], records: u64) -> bool
    ensures { result ≡ list_all (λ e. nat_lt e.put records
        && (nat_lt e.enabled_by records && nat_lt e.secrets_by records)) endpoints.now }
{
    endpoints.iter().all(|e| e.put < records && e.enabled_by < records && e.secrets_by < records)
}

fn are_deliveries_below(deliveries: &[Delivery], records: u64) -> bool
    ensures { result ≡ list_all (λ d. nat_lt d.seq records) deliveries.now }
{
    deliveries.iter().all(|d| d.seq < records)
}

fn are_attempts_below(attempts: &[Attempt], records: u64) -> bool
    ensures { result ≡ list_all (λ t. nat_lt t.seq records) attempts.now }
{
    attempts.iter().all(|t| t.seq < records)
}

fn are_topics_below(topics: &[Topic], records: u64) -> bool
    ensures { result ≡ list_all (λ t. nat_lt t.set_by records) topics.now }
{
    topics.iter().all(|t| t.set_by < records)
}
