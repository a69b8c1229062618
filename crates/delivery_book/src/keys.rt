//! The keys of the counts, which are equal where their characters are.
ghost use Rattle.std.specs.Prelude.{[], ◌∷◌};
ghost use Rattle.std.specs.Cmp.Rules.{comparing, hashing};
ghost use Rattle.std.proofs.Common.{rules};
ghost use Rattle.delivery_book.specs.Fields.{same_endpoint};

use relay_types::Name;
use std::hash::{Hash, Hasher};

/// An endpoint.
#[derive(Clone, Copy)]
pub struct EndpointKey {
    pub(crate) name: Name,
}

impl PartialEq for EndpointKey {
    ghost eq = { same_endpoint };

    ghost laws = { Prim.search (comparing, rules) };

    fn eq(&self, other: &EndpointKey) -> bool {
        self.name.is(other.name)
    }
}

impl Eq for EndpointKey {
    ghost laws = { Prim.search (comparing, rules) };
}

impl Hash for EndpointKey {
    ghost hash_input = { λ k. k.name ∷ [] };

    ghost respects_eq = { Prim.search (hashing, rules) };

    fn hash<H: Hasher>(&self, state: &mut H) {
        state.write(self.name.as_bytes());
    }
}
