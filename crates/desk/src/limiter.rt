//! The limit of each endpoint.
ghost use Rattle.std.specs.Prelude.{◌≡◌, ◌≤◌, position, option_copied, IsSome};
ghost use Rattle.relay_types.specs.declared.limits.TheConstants.{MAX_LIMIT};
ghost use Rattle.desk.specs.Ties.{AreSampled, is_limiter_of, limiter_of, limit_by};

use permits::Row;
use relay_types::Name;
use retry_table::{PostResult, measure};
use vegas::Estimator;

/// How many attempts of an endpoint may be under way, by its samples.
#[derive(Drop)]
pub struct Limiter {
    pub(crate) endpoint: Name,
    pub(crate) estimator: Estimator,
}

// The place of an endpoint's limiter.
pub(crate) fn place_of(limiters: &[Limiter], endpoint: Name) -> Option<usize>
    ensures { result ≡ position (is_limiter_of endpoint) limiters.now }
{
    limiters
        .iter()
        .position(|limiter| limiter.endpoint.is(endpoint))
}

// The limiter of an endpoint.
pub(crate) fn limiter_of(limiters: &[Limiter], endpoint: Name) -> Option<&Limiter>
    ensures { option_copied result ≡ limiter_of limiters.now endpoint }
{
    limiters
        .iter()
        .find(|limiter| limiter.endpoint.is(endpoint))
}

// How many attempts of an endpoint may be under way: none of one that isn't there.
pub(crate) fn limit_of(limiters: &[Limiter], endpoint: Name) -> u32
    ensures { result ≡ limit_by limiters.now endpoint }
{
    match limiter_of(limiters, endpoint) {
        Some(limiter) => limiter.estimator.limit(),
        None => 0,
    }
}

// The limiter of the row's endpoint takes the sample of its post, where it gives one.
pub(crate) fn sample(limiters: &mut [Limiter], row: &Row, post: &PostResult)
    requires inflight { row.now.inflight ≤ MAX_LIMIT }
    requires known { IsSome (limiter_of limiters.old row.now.endpoint) }
    ensures { AreSampled limiters.old limiters.new row.now post.now }
{
    let Some(measured) = measure(post) else {
        return;
    };
    if let Some(place) = place_of(limiters, row.endpoint) {
        limiters[place]
            .estimator
            .sample(measured.rtt, row.inflight, measured.dropped);
    }
}
