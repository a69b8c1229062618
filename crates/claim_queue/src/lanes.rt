//! The lanes: of each endpoint the deliveries that wait, in the order of their keys.
ghost use Rattle.std.specs.Prelude.{◌≡◌, ◌+◌, ◌<◌, ◌≤◌, ◌||◌, ◌&&◌, not, [], false, None, Some, length, position};
ghost use Rattle.std.specs.Prelude.{option_copied, IsTrue, IsOk, OnOk, OnErr};
ghost use Rattle.std.specs.List.{AllWithin, list_any};
ghost use Rattle.claim_queue.specs.Queues.{lane_state_for, place_given, place_taken};
ghost use Rattle.claim_queue.specs.Lanes.{IsInOrder, IsSound, comes_before, first_of, has_key, is_of};
ghost use Rattle.claim_queue.specs.Lanes.{is_key_numbered, lane_in, same_key};

use crate::lane_state::LaneState;
use crate::pairs::{Pair, QueueKey};
use relay_types::Name;
use std::alloc::{AllocError, Global};
use std::collections::VecDeque;

/// What is kept of an endpoint, and the keys of its deliveries that wait, the first one first.
#[derive(Drop)]
pub struct Lane {
    pub(crate) state: LaneState,
    pub(crate) keys: VecDeque<QueueKey>,
}

// How many of the keys come before this one. The search goes by halves.
pub(crate) fn place_of_key(keys: &VecDeque<QueueKey>, key: QueueKey) -> usize
    requires { IsInOrder keys.now.items }
    ensures bound { result ≤ length keys.now.items }
    ensures before { AllWithin (λ held. IsTrue (comes_before held key)) keys.now.items 0 result }
    ensures behind { AllWithin (λ held. comes_before held key ≡ false) keys.now.items result
        (length keys.now.items) }
{
    keys.partition_point(|held| held.comes_before(key))
}

impl Lane {
    // A lane of an endpoint that has no room, and no places.
    pub(crate) fn new(alloc: Global, endpoint: Name) -> Lane
        ensures state { result.state ≡ lane_state_for endpoint 0 None }
        ensures keys { result.keys.items ≡ [] }
        ensures sound { IsSound result }
    {
        Lane {
            state: LaneState {
                endpoint,
                room: false,
                free: 0,
            },
            keys: VecDeque::new(alloc),
        }
    }

    // The first of its deliveries, where the endpoint has room.
    pub(crate) fn first(&self) -> Option<Pair>
        ensures { result ≡ first_of self.now }
    {
        if !self.state.room {
            return None;
        }
        match self.keys.front() {
            Some(key) => Some(Pair {
                endpoint: self.state.endpoint,
                due: key.due,
                seq: key.seq,
            }),
            None => None,
        }
    }

    pub(crate) fn has_key(&self, key: QueueKey) -> bool
        ensures { result ≡ has_key self.now key }
    {
        self.keys.iter().any(|held| held.is(key))
    }

    // Whether one of its deliveries has this number.
    pub(crate) fn has_seq(&self, seq: u64) -> bool
        ensures { result ≡ list_any (is_key_numbered seq) self.now.keys.items }
    {
        self.keys.iter().any(|held| held.seq == seq)
    }

    // Makes this many free places at least. An error means that an allocation failed.
    pub(crate) fn reserve(&mut self, more: usize) -> Result<(), AllocError>
        requires { IsSound self.old }
        ensures sound { IsSound self.new }
        ensures keys { self.new.keys.items ≡ self.old.keys.items }
        ensures endpoint { self.new.state.endpoint ≡ self.old.state.endpoint }
        ensures room { self.new.state.room ≡ self.old.state.room }
        ensures state { OnOk result (self.new.state ≡ lane_state_for self.old.state.endpoint more
            (Some self.old.state)) }
        ensures enough { more ≤ self.old.state.free → IsOk result }
        ensures err { OnErr result (self.new.state ≡ self.old.state) }
    {
        if more <= self.state.free {
            return Ok(());
        }
        self.keys.reserve(more)?;
        self.state.free = more;
        Ok(())
    }

    // Holds a delivery from now on, at the place of its key.
    pub(crate) fn insert(&mut self, key: QueueKey)
        requires sound { IsSound self.old }
        requires place { 0 < self.old.state.free }
        requires unheld { list_any (is_key_numbered key.seq) self.old.keys.items ≡ false }
        ensures sound { IsSound self.new }
        ensures state { self.new.state ≡ place_taken self.old.state }
        ensures keys { (other : QueueKey) → has_key self.new other ≡ (has_key self.old other || same_key other key) }
    {
        let place = place_of_key(&self.keys, key);
        if let Ok(()) = self.keys.insert(place, key) {
            self.state.free -= 1;
        }
    }

    // Lets a delivery go.
    pub(crate) fn remove(&mut self, key: QueueKey)
        requires sound { IsSound self.old }
        requires held { IsTrue (has_key self.old key) }
        ensures sound { IsSound self.new }
        ensures state { self.new.state ≡ place_given self.old.state }
        ensures keys { (other : QueueKey) → has_key self.new other
            ≡ (has_key self.old other && not (same_key other key)) }
    {
        let place = place_of_key(&self.keys, key);
        if let Some(_) = self.keys.remove(place) {
            self.state.free += 1;
        }
    }
}

// The place of an endpoint's lane.
pub(crate) fn place_of(lanes: &[Lane], endpoint: Name) -> Option<usize>
    ensures { result ≡ position (is_of endpoint) lanes.now }
{
    lanes
        .iter()
        .position(|lane| lane.state.endpoint.is(endpoint))
}

// The lane of an endpoint.
pub(crate) fn lane_of(lanes: &[Lane], endpoint: Name) -> Option<&Lane>
    ensures { option_copied result ≡ lane_in lanes.now endpoint }
{
    lanes.iter().find(|lane| lane.state.endpoint.is(endpoint))
}

// Whether a delivery of one of the lanes has this number.
pub(crate) fn has_seq(lanes: &[Lane], seq: u64) -> bool
    ensures { result ≡ list_any (λ lane. list_any (is_key_numbered seq) lane.keys.items) lanes.now }
{
    lanes.iter().any(|lane| lane.has_seq(seq))
}
