//! How many deliveries there are of each endpoint and of all, by state.
ghost use Rattle.std.specs.Prelude.{◌≡◌, ◌+◌, ◌≤◌, ◌<◌, ◌^◌, Option, Some, None, true, length, filter, slice_range};
ghost use Rattle.std.specs.Prelude.{OnOk};
ghost use Rattle.relay_types.specs.declared.state.State.{State};
ghost use Rattle.relay_types.specs.Values.{Text};
ghost use Rattle.delivery_book.specs.Fields.{in_state, one_if, one_of, counts_for, no_counts, settled_among, has_room};
ghost use Rattle.delivery_book.specs.Fields.{AtCounts, HasMore, HasSame, KeepsRoom, HasRoomForAll, CanCount};
ghost use Rattle.delivery_book.specs.Fields.{HasCounted};
ghost use Rattle.delivery_book.specs.Fields.{is_taken_below};

use crate::entry::Entry;
use crate::keys::EndpointKey;
use crate::row::Counts;
use crate::small::SharedName;
use relay_types::{Name, State};
use std::alloc::{AllocError, Global};
use std::collections::HashMap;

const NONE: Counts = Counts {
    pending: 0,
    delivered: 0,
    exhausted: 0,
};

fn with_one_more(counts: Counts, state: State) -> Counts
    requires { in_state state counts + 1 < 2 ^ 64 }
    ensures { (asked : State) → in_state asked result ≡ in_state asked counts + one_if state asked }
{
    match state {
        State::Pending => Counts {
            pending: counts.pending + 1,
            ..counts
        },
        State::Delivered => Counts {
            delivered: counts.delivered + 1,
            ..counts
        },
        State::Exhausted => Counts {
            exhausted: counts.exhausted + 1,
            ..counts
        },
    }
}

fn with_one_less(counts: Counts, state: State) -> Counts
    requires { 0 < in_state state counts }
    ensures { (asked : State) → in_state asked result + one_if state asked ≡ in_state asked counts }
{
    match state {
        State::Pending => Counts {
            pending: counts.pending - 1,
            ..counts
        },
        State::Delivered => Counts {
            delivered: counts.delivered - 1,
            ..counts
        },
        State::Exhausted => Counts {
            exhausted: counts.exhausted - 1,
            ..counts
        },
    }
}

/// The deliveries of each endpoint and of all, by state.
#[derive(Drop)]
pub struct Tally {
    each: HashMap<EndpointKey, Counts>,
    all: Counts,
}

impl Tally {
    pub(crate) fn new(alloc: Global) -> Tally
        ensures { (those : Option Text) → counts_for result those ≡ no_counts }
    {
        Tally {
            each: HashMap::new(alloc),
            all: NONE,
        }
    }

    pub(crate) fn of(&self, name: Name) -> Counts
        ensures { result ≡ counts_for self.now (Some name) }
    {
        match self.each.get(&EndpointKey { name }) {
            Some(counts) => *counts,
            None => NONE,
        }
    }

    pub(crate) fn all(&self) -> Counts
        ensures { result ≡ counts_for self.now None }
    {
        self.all
    }

    /// Makes room for the endpoint, so that its deliveries are then counted with no more memory.
    pub(crate) fn open(&mut self, name: &SharedName) -> Result<(), AllocError>
        ensures same { HasSame self.old self.new }
        ensures opened { OnOk result (has_room self.new name.now ≡ true) }
        ensures stays { KeepsRoom self.old self.new }
    {
        let name = name.get();
        let counts = self.of(name);
        self.each.insert(EndpointKey { name }, counts)?;
        Ok(())
    }

    /// Makes room for the endpoints of these entries.
    pub(crate) fn open_all(&mut self, entries: &[Entry]) -> Result<(), AllocError>
        ensures same { HasSame self.old self.new }
        ensures opened { OnOk result (HasRoomForAll self.new entries.now) }
        ensures stays { KeepsRoom self.old self.new }
    {
        for entry in entries {
            self.open(&entry.name)?;
        }
        Ok(())
    }

    /// Counts one more delivery of the endpoint, in this state.
    pub(crate) fn add(&mut self, name: &SharedName, state: State)
        requires opened { has_room self.old name.now ≡ true }
        requires room { AtCounts self.old name.now state (λ n. n + 1 < 2 ^ 64) }
        ensures more { HasMore self.old (one_of name.now state) self.new }
        ensures stays { KeepsRoom self.old self.new }
    {
        let name = name.get();
        let counts = with_one_more(self.of(name), state);
        let _ = self.each.insert(EndpointKey { name }, counts);
        self.all = with_one_more(self.all, state);
    }

    /// Counts one delivery less of the endpoint, in this state.
    pub(crate) fn remove(&mut self, name: &SharedName, state: State)
        requires known { AtCounts self.old name.now state (λ n. 0 < n) }
        ensures less { HasMore self.new (one_of name.now state) self.old }
        ensures opened { has_room self.new name.now ≡ true }
        ensures stays { KeepsRoom self.old self.new }
    {
        let name = name.get();
        let counts = with_one_less(self.of(name), state);
        let _ = self.each.insert(EndpointKey { name }, counts);
        self.all = with_one_less(self.all, state);
    }
}

/// Counts these deliveries by where the settled records have them.
pub(crate) fn add_settled(tally: &mut Tally, entries: &[Entry])
    requires opened { HasRoomForAll tally.old entries.now }
    requires room { CanCount tally.old entries.now }
    ensures more { HasMore tally.old (settled_among entries.now) tally.new }
    ensures stays { KeepsRoom tally.old tally.new }
{
    for entry in entries {
        tally.add(&entry.name, entry.settled.state());
    }
}

/// Counts the deliveries between two places of the list by where the settled records have them.
pub(crate) fn add_settled_between(tally: &mut Tally, entries: &[Entry], from: usize, to: usize)
    requires order { from ≤ to }
    requires within { to ≤ length entries.now }
    requires opened { HasRoomForAll tally.old (slice_range entries.now from to) }
    requires room { CanCount tally.old (slice_range entries.now from to) }
    ensures more { HasMore tally.old (settled_among (slice_range entries.now from to)) tally.new }
    ensures stays { KeepsRoom tally.old tally.new }
{
    add_settled(tally, &entries[from..to]);
}

/// Counts the deliveries out that Purges below this number took.
pub(crate) fn count_out(tally: &mut Tally, entries: &[Entry], seq: u64)
    requires { HasCounted tally.old (filter (is_taken_below seq) entries.now) }
    ensures less { HasMore tally.new (settled_among (filter (is_taken_below seq) entries.now)) tally.old }
    ensures stays { KeepsRoom tally.old tally.new }
{
    for entry in entries {
        if !entry.is_left(seq) {
            tally.remove(&entry.name, entry.settled.state());
        }
    }
}
