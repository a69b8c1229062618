//! The queue.
ghost use Rattle.std.specs.Prelude.{◌≡◌, ◌<◌, ◌+◌, ◌↔◌, IsTrue, IsOk, IsNone, IfSome, OnOk, OnErr};
ghost use Rattle.claim_queue.specs.Queues.{ChangesState, Gains, HasSamePairs, IsNew, IsNext, IsReservedFor, Loses};
ghost use Rattle.claim_queue.specs.Queues.{NothingIsReady, SetsState, empty_queue, free_places, is_held, is_reserved};
ghost use Rattle.claim_queue.specs.Queues.{pair_of, place_given, place_taken, reserved_state, with_room};

use crate::firsts::renew;
use crate::lanes::{Lane, has_seq, lane_of, place_of};
use crate::pairs::{Pair, QueueKey};
use relay_types::Name;
use std::alloc::{AllocError, Global};
use std::marker::Model;

/// The deliveries that wait for their next attempt, each by its endpoint, the moment at which it is
/// due, in seconds since the epoch, and its number. Of each endpoint for which places were reserved
/// the queue knows how many are free, and whether the endpoint has room for one more attempt. Only
/// `reserve` takes memory.
#[derive(Drop)]
pub struct ClaimQueue {
    alloc: Global,
    // One of each endpoint for which places were reserved.
    lanes: Vec<Lane>,
    // The first delivery of each endpoint that has room, in the order of their keys.
    firsts: Vec<Pair>,
}

impl Model for ClaimQueue {
    ghost use Rattle.std.specs.Prelude.{vec_len, vec_capacity};
    ghost use Rattle.claim_queue.specs.Queues.{QueueValue};
    ghost use Rattle.claim_queue.specs.Lanes.{IsQueue, queue_of};

    ghost Value = { QueueValue };

    ghost view = { λ q. queue_of q.lanes.items };

    ghost invariant = { λ q. IsQueue q.lanes.items q.firsts.items (vec_len q.firsts) (vec_capacity q.firsts) };
}

impl ClaimQueue {
    /// A queue that holds nothing, and without places.
    pub fn new(alloc: Global) -> ClaimQueue
        ensures { result ≡ empty_queue }
    {
        ClaimQueue {
            alloc,
            lanes: Vec::new(alloc),
            firsts: Vec::new(alloc),
        }
    }

    /// Makes places, so that this many more deliveries of the endpoint can be inserted; where as
    /// many are free already, none. An endpoint that is named for the first time has no room until
    /// it is set. An error means that an allocation failed.
    pub fn reserve(&mut self, endpoint: Name, more: usize) -> Result<(), AllocError>
        ensures pairs { OnOk result (HasSamePairs self.old self.new) }
        ensures state { OnOk result (SetsState self.old self.new (reserved_state self.old endpoint more)) }
        ensures enough { IsReservedFor self.old endpoint more → IsOk result }
        ensures err { OnErr result (self.new ≡ self.old) }
    {
        if let Some(place) = place_of(&self.lanes, endpoint) {
            return self.lanes[place].reserve(more);
        }
        self.firsts.reserve(self.lanes.len() + 1)?;
        let mut lane = Lane::new(self.alloc, endpoint);
        lane.reserve(more)?;
        self.lanes.push(lane)?;
        Ok(())
    }

    /// Holds a delivery from now on, in one of the free places of its endpoint. `free_places` and `is_new` test the
    /// conditions. It takes no memory.
    pub fn insert(&mut self, endpoint: Name, due: u64, seq: u64)
        requires place { 0 < free_places self.old endpoint }
        requires unheld { IsNew self.old seq }
        ensures pairs { Gains self.old self.new (pair_of endpoint due seq) }
        ensures state { ChangesState self.old self.new endpoint place_taken }
    {
        if let Some(place) = place_of(&self.lanes, endpoint) {
            let lane = &mut self.lanes[place];
            let before = lane.first();
            lane.insert(QueueKey { due, seq });
            let after = lane.first();
            renew(&mut self.firsts, before, after);
        }
    }

    /// Lets a delivery go. Its place is free for another one of its endpoint. `contains` tests the
    /// condition. It takes no memory.
    pub fn remove(&mut self, endpoint: Name, due: u64, seq: u64)
        requires held { IsTrue (is_held self.old (pair_of endpoint due seq)) }
        ensures pairs { Loses self.old self.new (pair_of endpoint due seq) }
        ensures state { ChangesState self.old self.new endpoint place_given }
        ensures place { free_places self.new endpoint ≡ free_places self.old endpoint + 1 }
    {
        if let Some(place) = place_of(&self.lanes, endpoint) {
            let lane = &mut self.lanes[place];
            let before = lane.first();
            lane.remove(QueueKey { due, seq });
            let after = lane.first();
            renew(&mut self.firsts, before, after);
        }
    }

    /// Tells whether an endpoint has room for one more attempt. `is_reserved` tests the condition. It takes no memory.
    pub fn set_room(&mut self, endpoint: Name, room: bool)
        requires reserved { IsTrue (is_reserved self.old endpoint) }
        ensures pairs { HasSamePairs self.old self.new }
        ensures state { ChangesState self.old self.new endpoint (with_room room) }
    {
        if let Some(place) = place_of(&self.lanes, endpoint) {
            let lane = &mut self.lanes[place];
            let before = lane.first();
            lane.state.room = room;
            let after = lane.first();
            renew(&mut self.firsts, before, after);
        }
    }

    /// The endpoint and the number of the delivery that is next at this moment, in seconds since
    /// the epoch: of those that are due and whose endpoint has room the first by due moment, and by
    /// number where several are due at one moment.
    pub fn next(&self, now: u64) -> Option<(Name, u64)>
        ensures first { IfSome result (λ next. IsNext self.now now next.0 next.1) }
        ensures none { IsNone result ↔ NothingIsReady self.now now }
    {
        match self.firsts.first() {
            Some(pair) if pair.due <= now => Some((pair.endpoint, pair.seq)),
            _ => None,
        }
    }

    /// How many more deliveries of the endpoint can be inserted.
    pub fn free_places(&self, endpoint: Name) -> usize
        ensures { result ≡ free_places self.now endpoint }
    {
        match lane_of(&self.lanes, endpoint) {
            Some(lane) => lane.state.free,
            None => 0,
        }
    }

    /// Whether places were reserved for the endpoint, so that its room can be set.
    pub fn is_reserved(&self, endpoint: Name) -> bool
        ensures { result ≡ is_reserved self.now endpoint }
    {
        lane_of(&self.lanes, endpoint).is_some()
    }

    /// Whether the delivery is held, as due at this moment.
    pub fn contains(&self, endpoint: Name, due: u64, seq: u64) -> bool
        ensures { result ≡ is_held self.now (pair_of endpoint due seq) }
    {
        match lane_of(&self.lanes, endpoint) {
            Some(lane) => lane.has_key(QueueKey { due, seq }),
            None => false,
        }
    }

    /// Whether no delivery of this number is held.
    pub fn is_new(&self, seq: u64) -> bool
        ensures { IsTrue result ↔ IsNew self.now seq }
    {
        !has_seq(&self.lanes, seq)
    }
}
