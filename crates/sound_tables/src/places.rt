//! Whether each endpoint has its secrets in their places.
ghost use Rattle.std.specs.Prelude.{◌≡◌, map};
ghost use Rattle.std.specs.List.{list_all};
ghost use Rattle.std.specs.List.Sorted.{IsPermutation, IsSorted};
ghost use Rattle.sound_tables.specs.Places.{are_places, by_place, places_of};

use crate::secret::Secret;
use relay_types::MAX_SECRETS;
use sound_rows::Endpoint;

/// Whether each endpoint has 1 to 4 secrets, at the places 0, 1, .. It brings the secrets into the
/// order of their endpoints and places.
pub(crate) fn are_in_places(endpoints: &[Endpoint], secrets: &mut [Secret]) -> bool
    ensures permutation { IsPermutation secrets.old secrets.new }
    ensures sorted { IsSorted by_place secrets.new }
    ensures placed { result ≡ list_all (λ (e : Endpoint). are_places (places_of e.put secrets.new)) endpoints.now }
{
    secrets.sort_unstable_by_key(|s| (s.endpoint, s.place));
    let secrets = &*secrets;
    endpoints.iter().all(|e| has_places(secrets, e.put))
}

// Whether the secrets of this endpoint, which stand in the order of their places, are 1 to 4, at the places 0, 1, ..
fn has_places(secrets: &[Secret], put: u64) -> bool
    ensures { result ≡ are_places (places_of put secrets.now) }
{
    let mut next = 0;
    for secret in secrets {
        if secret.endpoint == put {
            if secret.place != next {
                return false;
            }
            next += 1;
        }
    }
    1 <= next && next <= MAX_SECRETS as u64
}
