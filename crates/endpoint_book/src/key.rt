//! The keys of the book's maps, which are equal where their characters are.
ghost use Rattle.std.specs.Cmp.{partial_order_from_own_ties};
ghost use Rattle.std.specs.Cmp.Rules.{comparing};
ghost use Rattle.std.specs.Ordering.{as_partial_cmp};
ghost use Rattle.std.proofs.Common.{rules};
ghost use Rattle.endpoint_book.specs.Fields.{same_name, name_cmp};
ghost use Rattle.endpoint_book.specs.Topics.{same_pair, pair_cmp};

use relay_types::Name;
use std::cmp::Ordering;

/// The name of an endpoint. Keys are ordered by their characters.
#[derive(Clone, Copy)]
pub struct NameKey {
    pub(crate) name: Name,
}

impl PartialEq for NameKey {
    ghost eq = { same_name };

    ghost laws = { Prim.search (comparing, rules) };

    fn eq(&self, other: &NameKey) -> bool {
        self.name.is(other.name)
    }
}

impl Eq for NameKey {
    ghost laws = { Prim.search (comparing, rules) };
}

impl Ord for NameKey {
    ghost cmp = { name_cmp };

    ghost total = { Prim.search (comparing, rules) };

    ghost matches_partial_cmp = { Prim.search (comparing, rules) };

    ghost matches_eq = { Prim.search (comparing, rules) };

    fn cmp(&self, other: &NameKey) -> Ordering {
        self.name.as_bytes().cmp(other.name.as_bytes())
    }
}

impl PartialOrd for NameKey {
    ghost partial_cmp = { as_partial_cmp name_cmp };

    ghost laws = { partial_order_from_own_ties (Prim.search (comparing, rules)) (Prim.search (comparing, rules)) };

    fn partial_cmp(&self, other: &NameKey) -> Option<Ordering> {
        Some(self.cmp(other))
    }
}

/// A topic and the name of an endpoint. Keys are ordered by their characters.
#[derive(Clone, Copy)]
pub struct PairKey {
    pub(crate) topic: Name,
    pub(crate) name: Name,
}

impl PartialEq for PairKey {
    ghost eq = { same_pair };

    ghost laws = { Prim.search (comparing, rules) };

    fn eq(&self, other: &PairKey) -> bool {
        self.topic.is(other.topic) && self.name.is(other.name)
    }
}

impl Eq for PairKey {
    ghost laws = { Prim.search (comparing, rules) };
}

impl Ord for PairKey {
    ghost cmp = { pair_cmp };

    ghost total = { Prim.search (comparing, rules) };

    ghost matches_partial_cmp = { Prim.search (comparing, rules) };

    ghost matches_eq = { Prim.search (comparing, rules) };

    fn cmp(&self, other: &PairKey) -> Ordering {
        match self.topic.as_bytes().cmp(other.topic.as_bytes()) {
            Ordering::Equal => self.name.as_bytes().cmp(other.name.as_bytes()),
            unequal => unequal,
        }
    }
}

impl PartialOrd for PairKey {
    ghost partial_cmp = { as_partial_cmp pair_cmp };

    ghost laws = { partial_order_from_own_ties (Prim.search (comparing, rules)) (Prim.search (comparing, rules)) };

    fn partial_cmp(&self, other: &PairKey) -> Option<Ordering> {
        Some(self.cmp(other))
    }
}
