//! The book itself.
ghost use Rattle.std.specs.Prelude.{◌≡◌, ◌≢◌, ◌≤◌, ◌<◌, ◌+◌, [], false, length, map, count_by, filter, is_some};
ghost use Rattle.std.specs.Prelude.{option_copied};
ghost use Rattle.std.specs.Prelude.{option_map, AllPairs, IsTrue, IfOk, OnOk, OnErr};
ghost use Rattle.relay_types.specs.declared.record.Record.TheVariants as on;
ghost use Rattle.relay_types.specs.Endpoints.{endpoints, endpoint_of, has_endpoint, is_enabled};
ghost use Rattle.relay_types.specs.Subscriptions.{is_pair_named, is_subscribed, subscribers, subscriptions};
ghost use Rattle.relay_types.specs.declared.limits.TheConstants.{MAX_SUBSCRIPTIONS};
ghost use Rattle.endpoint_book.specs.Topics.{flag_of, has_place, is_on};
ghost use Rattle.endpoint_book.specs.Subscribers.{still_subscribed};
ghost use Rattle.endpoint_book.specs.Entries.{AreFound, empty_book, new_entry, restored_entry, entry_of, is_known};
ghost use Rattle.endpoint_book.specs.Entries.{is_put, flags_in};
ghost use Rattle.endpoint_book.specs.Entries.{with_put, with_restored, with_flag, with_secrets, with_settled};
ghost use Rattle.endpoint_book.specs.Entries.{with_restored_topic, with_topic};
ghost use Rattle.endpoint_book.specs.Book.{StandsFor, Stages, StagesGone, Settles, OfAll, OfSettled, OfWaiting};
ghost use Rattle.endpoint_book.specs.Waiting.{IsInStep};
ghost use Rattle.endpoint_book.specs.Book.{secrets_if_known, view_of, settled_view, told, enabled_in, sets_flag};

use crate::changes::{count_flags, count_puts, keep_from, settle_below};
use crate::entries::Entries;
use crate::entry::{Change, Entry, Kind, Shown};
use crate::limits::MAX_FLAGS;
use crate::subscribers::Subscribers;
use crate::topics::Topics;
use crate::view::EndpointView;
use relay_types::{MAX_RECORDS, MAX_SUBSCRIPTIONS, MaxLimit, Name, Secrets, Target};
use std::alloc::{AllocError, Global};
use std::marker::Model;

/// The endpoints of a history: their targets, limits and secrets, whether they are enabled, to which topics they are
/// subscribed, and what the settled records show of them, which is nothing of topics. Records of deliveries concern no
/// endpoint and need no call, but for an Outcome which says that the endpoint is gone.
#[derive(Drop)]
pub struct EndpointBook {
    entries: Entries,
    names: Vec<Name>,
    changes: Vec<Change>,
    topics: Topics,
    flags: usize,
    puts: usize,
    next_seq: u64,
    settled_seq: u64,
}

impl Model for EndpointBook {
    ghost use Rattle.std.specs.Prelude.{vec_capacity};
    ghost use Rattle.endpoint_book.specs.Entries.{BookValue};
    ghost use Rattle.endpoint_book.specs.Fields.{IsBook, listed};

    ghost Value = { BookValue };

    ghost view = { λ b. record {
      entries = listed b.entries b.names.items;
      changes = b.changes.items;
      topics = b.topics;
      next_seq = b.next_seq;
      settled_seq = b.settled_seq;
    } };

    ghost invariant = { λ b. IsBook b.entries b.names.items b.changes.items b.flags b.puts (vec_capacity b.changes)
        b.next_seq b.settled_seq };
}

impl EndpointBook {
    /// The book of the empty history. It keeps the allocator, and makes room for the flags that aren't settled.
    pub fn new(alloc: Global) -> Result<EndpointBook, AllocError>
        ensures value { IfOk result (λ book. book ≡ empty_book) }
        ensures stands { IfOk result (λ book. StandsFor book [] 0) }
    {
        let changes = Vec::with_capacity(alloc, MAX_FLAGS)?;
        Ok(EndpointBook {
            entries: Entries::new(alloc),
            names: Vec::new(alloc),
            changes,
            topics: Topics::new(alloc),
            flags: 0,
            puts: 0,
            next_seq: 0,
            settled_seq: 0,
        })
    }

    /// Takes in the endpoint of the Put with this sequence number. `next_seq` and `contains` test the conditions. An
    /// error means that an allocation failed.
    pub fn stage_put(
        &mut self,
        seq: u64,
        name: Name,
        target: Target,
        max: MaxLimit,
        secrets: Secrets,
    ) -> Result<(), AllocError>
        requires room { seq < MAX_RECORDS }
        requires above { self.old.next_seq ≤ seq }
        requires unknown { is_known self.old name ≡ false }
        ensures put { OnOk result (self.new ≡ with_put self.old (new_entry seq name target max secrets)) }
        ensures stands { OnOk result (Stages self.old self.new seq (on.Put name target max secrets)) }
        ensures unchanged { OnErr result (self.new ≡ self.old) }
    {
        self.names.reserve(1)?;
        self.changes.reserve(MAX_FLAGS + 1)?;
        let shown = Shown {
            enabled: true,
            secrets: secrets.count(),
        };
        self.entries.put(Entry {
            put: seq,
            name,
            target,
            max,
            enabled: true,
            secrets,
            settled: None,
        })?;
        self.names.push_reserved(name);
        self.changes.push_reserved(Change {
            seq,
            name,
            kind: Kind::Put,
            shown,
        });
        self.puts += 1;
        self.next_seq = seq + 1;
        Ok(())
    }

    /// Puts an endpoint as its records left it: those after its Put too are settled from now on. So a book is made of
    /// what a store holds, and nothing may be staged before. `next_seq` and `contains` test the other conditions. An
    /// error means that an allocation failed.
    pub fn restore(
        &mut self,
        seq: u64,
        name: Name,
        target: Target,
        max: MaxLimit,
        secrets: Secrets,
        enabled: bool,
    ) -> Result<(), AllocError>
        requires room { seq < MAX_RECORDS }
        requires above { self.old.next_seq ≤ seq }
        requires unknown { is_known self.old name ≡ false }
        requires settled { self.old.changes ≡ [] }
        ensures put { OnOk result (self.new
            ≡ with_restored self.old (restored_entry seq name target max secrets enabled)) }
        ensures unchanged { OnErr result (self.new ≡ self.old) }
    {
        self.names.reserve(1)?;
        let shown = Shown {
            enabled,
            secrets: secrets.count(),
        };
        self.entries.put(Entry {
            put: seq,
            name,
            target,
            max,
            enabled,
            secrets,
            settled: Some(shown),
        })?;
        self.names.push_reserved(name);
        self.next_seq = seq + 1;
        self.settled_seq = seq + 1;
        Ok(())
    }

    /// Replaces the secrets of an endpoint, by the record with this sequence number. `next_seq` and `contains` test
    /// the conditions. An error means that an allocation failed.
    pub fn stage_secrets(
        &mut self,
        seq: u64,
        name: Name,
        secrets: Secrets,
    ) -> Result<(), AllocError>
        requires room { seq < MAX_RECORDS }
        requires above { self.old.next_seq ≤ seq }
        requires known { IsTrue (is_known self.old name) }
        ensures given { OnOk result (self.new ≡ with_secrets self.old seq name secrets) }
        ensures stands { OnOk result (Stages self.old self.new seq (on.Secrets name secrets)) }
        ensures unchanged { OnErr result (self.new ≡ self.old) }
    {
        self.changes.reserve(MAX_FLAGS + 1)?;
        if let Some(shown) = self.entries.give(name, secrets) {
            self.changes.push_reserved(Change {
                seq,
                name,
                kind: Kind::Secrets,
                shown,
            });
            self.next_seq = seq + 1;
        }
        Ok(())
    }

    /// Enables or disables an endpoint, by the record with this sequence number. It takes no memory. `next_seq`,
    /// `contains` and `free_flags` test the conditions.
    pub fn stage_enabled(&mut self, seq: u64, name: Name, flag: bool)
        requires room { seq < MAX_RECORDS }
        requires above { self.old.next_seq ≤ seq }
        requires known { IsTrue (is_known self.old name) }
        requires free { flags_in self.old < MAX_FLAGS }
        ensures flag { self.new ≡ with_flag self.old seq name flag }
        ensures stands { Stages self.old self.new seq (on.Enabled name flag) }
    {
        self.set_flag(seq, name, flag);
    }

    /// Disables an endpoint, by the Outcome with this sequence number, which says that a delivery met an endpoint that
    /// is gone. It takes no memory. `next_seq`, `contains` and `free_flags` test the conditions.
    pub fn stage_gone(&mut self, seq: u64, name: Name)
        requires room { seq < MAX_RECORDS }
        requires above { self.old.next_seq ≤ seq }
        requires known { IsTrue (is_known self.old name) }
        requires free { flags_in self.old < MAX_FLAGS }
        ensures flag { self.new ≡ with_flag self.old seq name false }
        ensures stands { StagesGone self.old self.new seq name }
    {
        self.set_flag(seq, name, false);
    }

    fn set_flag(&mut self, seq: u64, name: Name, flag: bool)
        requires room { seq < MAX_RECORDS }
        requires above { self.old.next_seq ≤ seq }
        requires known { IsTrue (is_known self.old name) }
        requires free { flags_in self.old < MAX_FLAGS }
        ensures { self.new ≡ with_flag self.old seq name flag }
    {
        if let Some(shown) = self.entries.enable(name, flag) {
            self.changes.push_reserved(Change {
                seq,
                name,
                kind: Kind::Flag,
                shown,
            });
            self.flags += 1;
            self.next_seq = seq + 1;
        }
    }

    /// Subscribes an endpoint to a topic, or ends that, by the record with this sequence number. `next_seq`, `is_named`
    /// and `free_subscriptions` test the conditions. An error means that an allocation failed.
    pub fn stage_subscribed(
        &mut self,
        seq: u64,
        topic: Name,
        name: Name,
        flag: bool,
    ) -> Result<(), AllocError>
        requires room { seq < MAX_RECORDS }
        requires above { self.old.next_seq ≤ seq }
        requires free { IsTrue (has_place self.old.topics topic name) }
        ensures subscribed { OnOk result (self.new ≡ with_topic self.old seq topic name flag) }
        ensures stands { OnOk result (Stages self.old self.new seq (on.Subscribed topic name flag)) }
        ensures unchanged { OnErr result (self.new ≡ self.old) }
    {
        self.topics.set(topic, name, flag)?;
        self.next_seq = seq + 1;
        Ok(())
    }

    /// Subscribes an endpoint to a topic, or not, as the records left it, which are settled. So a book is made of what
    /// a store holds. `is_named` and `free_subscriptions` test the condition. An error means that an allocation failed.
    pub fn restore_subscribed(
        &mut self,
        topic: Name,
        name: Name,
        flag: bool,
    ) -> Result<(), AllocError>
        requires free { IsTrue (has_place self.old.topics topic name) }
        ensures subscribed { OnOk result (self.new ≡ with_restored_topic self.old topic name flag) }
        ensures unchanged { OnErr result (self.new ≡ self.old) }
    {
        self.topics.set(topic, name, flag)
    }

    /// The records below this number are settled from now on. It takes no memory.
    pub fn settle_to(&mut self, seq: u64)
        requires { self.old.settled_seq ≤ seq }
        ensures value { self.new ≡ with_settled self.old seq }
        ensures flags { flags_in self.new + self.new.settled_seq ≤ self.new.next_seq }
        ensures stands { Settles self.old self.new seq }
    {
        settle_below(&mut self.entries, &self.changes, seq);
        keep_from(&mut self.changes, seq);
        self.flags = count_flags(&self.changes);
        self.puts = count_puts(&self.changes);
        self.next_seq = self.next_seq.max(seq);
        self.settled_seq = seq;
    }

    /// The least sequence number that the next record may have: it is above all that the book was handed, and not
    /// below the settled number.
    pub fn next_seq(&self) -> u64
        ensures value { result ≡ self.now.next_seq }
        ensures settled { self.now.settled_seq ≤ result }
    {
        self.next_seq
    }

    /// The number below which the records are settled.
    pub fn settled_seq(&self) -> u64
        ensures { result ≡ self.now.settled_seq }
    {
        self.settled_seq
    }

    /// How many more records may enable or disable endpoints before some are settled.
    pub fn free_flags(&self) -> usize
        ensures free { result + flags_in self.now ≡ MAX_FLAGS }
        ensures stands { OfWaiting self.now (λ records. MAX_FLAGS ≤ result + count_by sets_flag records) }
    {
        MAX_FLAGS - self.flags
    }

    /// How many more pairs of a topic and an endpoint records may name. A pair stays named if it isn't subscribed any
    /// more.
    pub fn free_subscriptions(&self) -> usize
        ensures free { result + length self.now.topics ≡ MAX_SUBSCRIPTIONS }
        ensures stands { OfAll self.now (λ records. result + length (subscriptions records) ≡ MAX_SUBSCRIPTIONS) }
    {
        MAX_SUBSCRIPTIONS - self.topics.len()
    }

    /// Whether a record named this topic and this endpoint, subscribed or not.
    pub fn is_named(&self, topic: Name, name: Name) -> bool
        ensures value { result ≡ is_some (flag_of self.now.topics topic name) }
        ensures stands { OfAll self.now (λ records. result ≡ is_pair_named records topic name) }
    {
        self.topics.is_named(topic, name)
    }

    /// Whether the endpoint is subscribed to the topic, by all records.
    pub fn is_subscribed(&self, topic: Name, name: Name) -> bool
        ensures value { result ≡ is_on self.now.topics topic name }
        ensures stands { OfAll self.now (λ records. result ≡ is_subscribed records topic name) }
    {
        self.topics.is_on(topic, name)
    }

    /// The endpoints that are subscribed to the topic, by all records, in the order of their Puts. It takes no memory.
    pub fn subscribers(&self, topic: Name) -> Subscribers<'_>
        ensures value { still_subscribed result
            ≡ filter (is_on self.now.topics topic) (map (λ e. e.name) self.now.entries) }
        ensures stands { OfAll self.now (λ records.
            still_subscribed result ≡ map (λ e. e.name) (subscribers records topic)) }
    {
        Subscribers {
            topics: &self.topics,
            topic,
            names: self.names.as_slice(),
        }
    }

    /// Whether there is an endpoint of this name.
    #[tactic(auto, using(crate::proofs::Names::looks))]
    pub fn contains(&self, name: Name) -> bool
        ensures known { result ≡ is_known self.now name }
        ensures stands { OfAll self.now (λ records. result ≡ has_endpoint records name) }
    {
        self.entries.of(name).is_some()
    }

    /// How many endpoints there are.
    pub fn len(&self) -> usize
        ensures count { result ≡ length self.now.entries }
        ensures stands { OfAll self.now (λ records. result ≡ length (endpoints records)) }
    {
        self.names.len()
    }

    /// How many endpoints the settled records put.
    pub fn settled_len(&self) -> usize
        ensures value { result + count_by is_put self.now.changes ≡ length self.now.entries }
        ensures stands { OfSettled self.now (λ records. result ≡ length (endpoints records)) }
    {
        self.names.len() - self.puts
    }

    /// The names of all endpoints, in the order of their Puts.
    pub fn names(&self) -> &[Name]
        ensures value { result.now ≡ map (λ e. e.name) self.now.entries }
        ensures apart { AllPairs (λ a b. a ≢ b) result.now }
        ensures found { AreFound self.now }
        ensures in_step { IsInStep self.now }
        ensures all_settled { self.now.next_seq ≡ self.now.settled_seq → self.now.changes ≡ [] }
        ensures stands { OfAll self.now (λ records. result.now ≡ map (λ e. e.name) (endpoints records)) }
    {
        self.names.as_slice()
    }

    /// The secrets of the endpoint, the newest first.
    #[tactic(auto, using(crate::proofs::Names::looks))]
    pub fn secrets(&self, name: Name) -> Option<Secrets>
        ensures value { result ≡ option_map (λ e. e.secrets) (entry_of self.now name) }
        ensures stands { OfAll self.now (λ records. result ≡ secrets_if_known records name) }
    {
        match self.entries.of(name) {
            Some(entry) => Some(entry.secrets),
            None => None,
        }
    }

    /// Whether the endpoint is enabled. One that isn't there counts as enabled.
    #[tactic(auto, using(crate::proofs::Names::looks))]
    pub fn is_enabled(&self, name: Name) -> bool
        ensures value { result ≡ enabled_in self.now name }
        ensures stands { OfAll self.now (λ records. result ≡ is_enabled records name) }
    {
        match self.entries.of(name) {
            Some(entry) => entry.enabled,
            None => true,
        }
    }

    /// Where the endpoint listens.
    #[tactic(auto, using(crate::proofs::Names::looks))]
    pub fn target(&self, name: Name) -> Option<&Target>
        ensures value { option_copied result ≡ option_map (λ e. e.target) (entry_of self.now name) }
        ensures stands { OfAll self.now (λ records.
            option_copied result ≡ option_map (λ e. e.target) (endpoint_of records name)) }
    {
        match self.entries.of(name) {
            Some(entry) => Some(&entry.target),
            None => None,
        }
    }

    /// The greatest concurrency limit of the endpoint.
    #[tactic(auto, using(crate::proofs::Names::looks))]
    pub fn max_limit(&self, name: Name) -> Option<MaxLimit>
        ensures value { result ≡ option_map (λ e. e.max) (entry_of self.now name) }
        ensures stands { OfAll self.now (λ records. result ≡ option_map (λ e. e.max) (endpoint_of records name)) }
    {
        match self.entries.of(name) {
            Some(entry) => Some(entry.max),
            None => None,
        }
    }

    /// The endpoint as the settled records have it.
    pub fn settled(&self, name: Name) -> Option<EndpointView<'_>>
        ensures value { option_map told result ≡ settled_view self.now name }
        ensures stands { OfSettled self.now (λ records. option_map told result ≡ view_of records name) }
    {
        match self.entries.of(name) {
            Some(entry) => match entry.settled {
                Some(shown) => Some(EndpointView {
                    name: entry.name,
                    target: &entry.target,
                    max: entry.max,
                    enabled: shown.enabled,
                    secrets: shown.secrets,
                }),
                None => None,
            },
            None => None,
        }
    }
}
