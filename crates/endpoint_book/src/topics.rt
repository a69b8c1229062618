//! Who is subscribed to what.
ghost use Rattle.std.specs.Prelude.{◌≡◌, ◌+◌, ◌≤◌, [], length, is_some, option_copied, IsTrue, OnOk, OnErr};
ghost use Rattle.std.specs.Prelude.{if◌then◌else◌};
ghost use Rattle.relay_types.specs.declared.limits.TheConstants.{MAX_SUBSCRIPTIONS};
ghost use Rattle.endpoint_book.specs.Topics.{flag_of, has_place, is_on, with_pair};

use crate::key::PairKey;
use relay_types::Name;
use std::alloc::{AllocError, Global};
use std::collections::BTreeMap;
use std::marker::Model;

/// Whether endpoints are subscribed to topics: a flag for each pair that a record named.
#[derive(Drop)]
pub struct Topics {
    by_pair: BTreeMap<PairKey, bool>,
}

impl Model for Topics {
    ghost use Rattle.std.specs.Prelude.{◌≤◌, length};
    ghost use Rattle.relay_types.specs.declared.limits.TheConstants.{MAX_SUBSCRIPTIONS};
    ghost use Rattle.endpoint_book.specs.Topics.{TopicsValue};

    ghost Value = { TopicsValue };

    ghost view = { λ t. t.by_pair.entries };

    ghost invariant = { λ t. length t.by_pair.entries ≤ MAX_SUBSCRIPTIONS };
}

impl Topics {
    pub(crate) fn new(alloc: Global) -> Topics
        ensures { result ≡ [] }
    {
        Topics {
            by_pair: BTreeMap::new(alloc),
        }
    }

    /// How many pairs there are.
    pub(crate) fn len(&self) -> usize
        ensures len { result ≡ length self.now }
        ensures few { result ≤ MAX_SUBSCRIPTIONS }
    {
        self.by_pair.len()
    }

    /// The flag of a topic and an endpoint.
    pub(crate) fn flag(&self, topic: Name, name: Name) -> Option<bool>
        ensures { result ≡ flag_of self.now topic name }
    {
        self.by_pair.get(&PairKey { topic, name }).copied()
    }

    /// Whether a topic and an endpoint have a flag.
    pub(crate) fn is_named(&self, topic: Name, name: Name) -> bool
        ensures { result ≡ is_some (flag_of self.now topic name) }
    {
        self.flag(topic, name).is_some()
    }

    /// Whether the flag of a topic and an endpoint is set.
    pub(crate) fn is_on(&self, topic: Name, name: Name) -> bool
        ensures { result ≡ is_on self.now topic name }
    {
        self.flag(topic, name).unwrap_or(false)
    }

    /// Sets the flag of a topic and an endpoint.
    pub(crate) fn set(&mut self, topic: Name, name: Name, flag: bool) -> Result<(), AllocError>
        requires { IsTrue (has_place self.old topic name) }
        ensures set { OnOk result (self.new ≡ with_pair self.old topic name flag) }
        ensures len { OnOk result (length self.new
            ≡ length self.old + (if is_some (flag_of self.old topic name) then 0 else 1)) }
        ensures unchanged { OnErr result (self.new ≡ self.old) }
    {
        self.by_pair.insert(PairKey { topic, name }, flag)?;
        Ok(())
    }
}
