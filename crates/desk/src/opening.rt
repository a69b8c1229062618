//! What a new desk keeps beside the books that it begins with.
ghost use Rattle.std.specs.Prelude.{◌≡◌, ℕ, List, [], ◌∷◌, ◌++◌, false, map, option_and_then, slice_get, IfOk, OnOk};
ghost use Rattle.claim_queue.specs.declared.pairs.Pair.{Pair};
ghost use Rattle.claim_queue.specs.Queues.{HasSamePairs, has_room_in, is_held};
ghost use Rattle.endpoint_book.specs.Waiting.{IsInStep as AreInStep};
ghost use Rattle.delivery_book.specs.Entries.{IsInStep};
ghost use Rattle.desk.specs.Ties.{AreApart, AreHeld, AreLimiters, KnowsRooms, AreQueued, HasPlaces, HasSameRooms};
ghost use Rattle.desk.specs.Ties.{KeepsPlaces, KeepsRooms, new_limiter, row_if_settled};

use crate::limiter::Limiter;
use crate::queue_sync::{enqueue, update_room};
use claim_queue::ClaimQueue;
use delivery_book::{DeliveryBook, Row};
use endpoint_book::EndpointBook;
use permits::Pool;
use std::alloc::{AllocError, Global};
use std::sync::ledger::Ledger;
use vegas::Estimator;

// A limiter without samples for each endpoint.
pub(crate) fn limiters_of(
    alloc: Global,
    endpoints: &EndpointBook,
) -> Result<Vec<Limiter>, AllocError>
    ensures limiters { IfOk result (λ limiters. limiters.items
        ≡ map (λ e. new_limiter e.name e.max) endpoints.now.entries) }
    ensures in_step { OnOk result (AreInStep endpoints.now) }
    ensures all_settled { OnOk result (endpoints.now.next_seq ≡ endpoints.now.settled_seq
        → endpoints.now.changes ≡ []) }
{
    let mut limiters = Vec::with_capacity(alloc, endpoints.len())?;
    for name in endpoints.names() {
        if let Some(max) = endpoints.max_limit(*name) {
            let estimator = Estimator::new(alloc, max)?;
            limiters.push_reserved(Limiter {
                endpoint: *name,
                estimator,
            });
        }
    }
    Ok(limiters)
}

// The queue of the deliveries that wait for their next attempts, where no permit is out.
pub(crate) fn queue_of<L: Ledger>(
    alloc: Global,
    endpoints: &EndpointBook,
    deliveries: &DeliveryBook,
    limiters: &[Limiter],
    pool: &Pool<L>,
) -> Result<ClaimQueue, AllocError>
    requires none_out { pool.now ≡ [] }
    requires limited { AreLimiters limiters.now endpoints.now }
    requires apart { AreApart deliveries.now }
    requires settled { deliveries.now.next_seq ≡ deliveries.now.settled_seq }
    ensures queued { IfOk result (λ queue. AreQueued queue deliveries.now []) }
    ensures lanes { IfOk result (λ queue. KnowsRooms queue endpoints.now limiters.now []) }
    ensures in_step { OnOk result (IsInStep deliveries.now) }
{
    let mut queue = ClaimQueue::new(alloc);
    reserve_all(&mut queue, deliveries)?;
    update_rooms(&mut queue, endpoints, limiters, pool)?;
    enqueue_all(&mut queue, deliveries);
    Ok(queue)
}

// Makes a place for each delivery that is pending.
fn reserve_all(queue: &mut ClaimQueue, deliveries: &DeliveryBook) -> Result<(), AllocError>
    requires settled { deliveries.now.next_seq ≡ deliveries.now.settled_seq }
    ensures pairs { OnOk result (HasSamePairs queue.old queue.new) }
    ensures rooms { OnOk result (HasSameRooms queue.old queue.new) }
    ensures places { OnOk result (HasPlaces queue.new deliveries.now) }
{
    for place in 0..deliveries.len() {
        if let Some(row) = row_at(deliveries, place) {
            let pending = deliveries.pending(row.endpoint) as usize;
            queue.reserve(row.endpoint, pending)?;
        }
    }
    Ok(())
}

// The delivery at this place, if it is settled.
pub(crate) fn row_at(deliveries: &DeliveryBook, place: usize) -> Option<Row>
    ensures { result ≡ option_and_then (row_if_settled deliveries.now.settled_seq)
        (slice_get deliveries.now.entries place) }
{
    deliveries.settled(deliveries.delivery(place)?)
}

// Tells the queue, which knows no room, of the room of each endpoint.
fn update_rooms<L: Ledger>(
    queue: &mut ClaimQueue,
    endpoints: &EndpointBook,
    limiters: &[Limiter],
    pool: &Pool<L>,
) -> Result<(), AllocError>
    requires none_out { pool.now ≡ [] }
    requires limited { AreLimiters limiters.now endpoints.now }
    requires untold { (name : List ℕ) → has_room_in queue.old.states name ≡ false }
    ensures pairs { OnOk result (HasSamePairs queue.old queue.new) }
    ensures places { OnOk result (KeepsPlaces queue.old queue.new) }
    ensures lanes { OnOk result (KnowsRooms queue.new endpoints.now limiters.now []) }
{
    for name in endpoints.names() {
        queue.reserve(*name, 0)?;
        update_room(queue, endpoints, limiters, pool, *name);
    }
    Ok(())
}

// Enqueues each delivery that waits for its next attempt.
fn enqueue_all(queue: &mut ClaimQueue, deliveries: &DeliveryBook)
    requires places { HasPlaces queue.old deliveries.now }
    requires empty { (pair : Pair) → is_held queue.old pair ≡ false }
    ensures held { AreHeld queue.new deliveries.now [] }
    ensures places { HasPlaces queue.new deliveries.now }
    ensures rooms { KeepsRooms queue.old queue.new }
    ensures in_step { IsInStep deliveries.now }
{
    for place in 0..deliveries.len() {
        if let Some(delivery) = deliveries.delivery(place) {
            enqueue(queue, deliveries, delivery);
        }
    }
}
