//! The endpoints by name.
ghost use Rattle.std.specs.Prelude.{◌≡◌, ℕ, List, None, Some, option_copied, option_map, OnOk, OnErr};
ghost use Rattle.endpoint_book.specs.Entries.{now_of};
ghost use Rattle.endpoint_book.specs.Fields.{entry_in, Changes, Puts, IsSame};

use crate::entry::{Change, Entry, Shown};
use crate::key::NameKey;
use relay_types::{Name, Secrets};
use std::alloc::{AllocError, Global};
use std::collections::BTreeMap;

/// The endpoints by name.
#[derive(Drop)]
pub struct Entries {
    by_name: BTreeMap<NameKey, Entry>,
}

impl Entries {
    pub(crate) fn new(alloc: Global) -> Entries
        ensures { (name : List ℕ) → entry_in result name ≡ None }
    {
        Entries {
            by_name: BTreeMap::new(alloc),
        }
    }

    pub(crate) fn of(&self, name: Name) -> Option<&Entry>
        ensures { option_copied result ≡ entry_in self.now name }
    {
        self.by_name.get(&NameKey { name })
    }

    /// Adds an endpoint.
    pub(crate) fn put(&mut self, entry: Entry) -> Result<(), AllocError>
        ensures put { OnOk result (Puts self.old self.new entry) }
        ensures unchanged { OnErr result (IsSame self.old self.new) }
    {
        self.by_name.insert(NameKey { name: entry.name }, entry)?;
        Ok(())
    }

    /// Enables or disables an endpoint, and tells what it then shows.
    pub(crate) fn enable(&mut self, name: Name, flag: bool) -> Option<Shown>
        ensures shown { result ≡ option_map (λ e. now_of (record e { enabled = flag })) (entry_in self.old name) }
        ensures entries { Changes self.old self.new name (λ e. record e { enabled = flag }) }
    {
        match self.by_name.get_mut(&NameKey { name }) {
            Some(entry) => {
                entry.enabled = flag;
                Some(entry.now())
            }
            None => None,
        }
    }

    /// Replaces the secrets of an endpoint, and tells what it then shows.
    pub(crate) fn give(&mut self, name: Name, secrets: Secrets) -> Option<Shown>
        ensures shown { result ≡ option_map (λ e. now_of (record e { secrets = secrets })) (entry_in self.old name) }
        ensures entries { Changes self.old self.new name (λ e. record e { secrets = secrets }) }
    {
        match self.by_name.get_mut(&NameKey { name }) {
            Some(entry) => {
                entry.secrets = secrets;
                Some(entry.now())
            }
            None => None,
        }
    }

    /// Lets the settled records show what the change made of its endpoint.
    pub(crate) fn settle(&mut self, change: Change)
        ensures { Changes self.old self.new change.name (λ e. record e { settled = Some change.shown }) }
    {
        if let Some(entry) = self.by_name.get_mut(&NameKey { name: change.name }) {
            entry.settled = Some(change.shown);
        }
    }
}
