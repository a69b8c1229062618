//! What the desk's queue is told.
ghost use Rattle.std.specs.Prelude.{◌≡◌, ◌<◌, ◌≤◌, ◌+◌, ◌-◌, max, drop, ℕ, List, IsTrue, IfSome, option_map};
ghost use Rattle.relay_types.specs.declared.limits.TheConstants.{MAX_RECORDS};
ghost use Rattle.relay_types.specs.declared.record.Record.{Record};
ghost use Rattle.permits.specs.declared.row.Row.{Row};
ghost use Rattle.claim_queue.specs.Queues.{ChangesState, HasSamePairs, IsNew, is_held, is_reserved, pair_of, with_room};
ghost use Rattle.delivery_book.specs.Book.{Settles};
ghost use Rattle.delivery_book.specs.Entries.{HasOneEach, with_settled};
ghost use Rattle.delivery_book.specs.Waiting.{HasWaiting};
ghost use Rattle.desk.specs.Ties.{AreQueued, HasPlaces, HasSameNames, Holds, KeepsRooms, LetsGo, idle_pair, pair_in};
ghost use Rattle.desk.specs.Ties.{room_by};

use crate::limiter::{Limiter, limit_of};
use claim_queue::ClaimQueue;
use delivery_book::DeliveryBook;
use endpoint_book::EndpointBook;
use permits::Pool;
use relay_types::Name;
use std::sync::ledger::Ledger;

// The endpoint of a settled delivery and its due moment, in seconds since the epoch.
fn due_of(deliveries: &DeliveryBook, delivery: u64) -> Option<(Name, u64)>
    ensures pair { option_map (λ due. pair_of due.0 due.1 delivery) result ≡ pair_in deliveries.now delivery }
    ensures once { HasOneEach deliveries.now }
{
    let row = deliveries.settled(delivery)?;
    match row.due {
        Some(due) => Some((row.endpoint, due)),
        None => None,
    }
}

// Puts a settled delivery into the queue, if it is pending and none of its outcomes waits.
pub(crate) fn enqueue(queue: &mut ClaimQueue, deliveries: &DeliveryBook, delivery: u64)
    requires places { HasPlaces queue.old deliveries.now }
    requires unheld { IsNew queue.old delivery }
    ensures held { Holds queue.old queue.new (idle_pair deliveries.now delivery) }
    ensures places { HasPlaces queue.new deliveries.now }
{
    if !deliveries.takes_outcome(delivery) {
        return;
    }
    if let Some((endpoint, due)) = due_of(deliveries, delivery) {
        queue.insert(endpoint, due, delivery);
    }
}

// Takes a delivery out of the queue: an attempt at it begins.
pub(crate) fn dequeue(queue: &mut ClaimQueue, deliveries: &DeliveryBook, delivery: u64)
    requires held { IfSome (pair_in deliveries.now delivery) (λ pair. IsTrue (is_held queue.old pair)) }
    requires places { HasPlaces queue.old deliveries.now }
    ensures pair { LetsGo queue.old queue.new (pair_in deliveries.now delivery) }
    ensures places { HasPlaces queue.new deliveries.now }
{
    if let Some((endpoint, due)) = due_of(deliveries, delivery) {
        queue.remove(endpoint, due, delivery);
    }
}

// The queue is told whether one more attempt of the endpoint may begin.
pub(crate) fn update_room<L: Ledger>(
    queue: &mut ClaimQueue,
    endpoints: &EndpointBook,
    limiters: &[Limiter],
    pool: &Pool<L>,
    endpoint: Name,
)
    requires { IsTrue (is_reserved queue.old endpoint) }
    ensures pairs { HasSamePairs queue.old queue.new }
    ensures state { ChangesState queue.old queue.new endpoint
        (with_room (room_by endpoints.now limiters.now pool.now endpoint)) }
{
    let room = endpoints.is_enabled(endpoint)
        && pool.in_flight(endpoint) < limit_of(limiters, endpoint);
    queue.set_room(endpoint, room);
}

// The next record is settled, and the delivery that it concerns waits for its next attempt, if one is to come.
fn settle_next(queue: &mut ClaimQueue, deliveries: &mut DeliveryBook)
    requires room { deliveries.old.settled_seq < MAX_RECORDS }
    requires queued { (live : List Row) × AreQueued queue.old deliveries.old live }
    ensures queued { (live : List Row) → AreQueued queue.old deliveries.old live
        → AreQueued queue.new deliveries.new live }
    ensures rooms { KeepsRooms queue.old queue.new }
    ensures value { deliveries.new ≡ with_settled deliveries.old (deliveries.old.settled_seq + 1) }
    ensures stands { Settles deliveries.old (deliveries.old.settled_seq + 1) deliveries.new }
    ensures waits { (records : List Record) → HasWaiting deliveries.old records
        → HasWaiting deliveries.new (drop 1 records) }
    ensures names { HasSameNames deliveries.old deliveries.new }
{
    let seq = deliveries.settled_seq();
    let concerned = deliveries.next_settled();
    deliveries.settle_to(seq + 1);
    if let Some(delivery) = concerned {
        enqueue(queue, deliveries, delivery);
    }
}

// The records below this number are settled, and the deliveries that they concern wait for their next attempts.
pub(crate) fn settle_to(queue: &mut ClaimQueue, deliveries: &mut DeliveryBook, seq: u64)
    requires above { deliveries.old.settled_seq ≤ seq }
    requires within { seq ≤ MAX_RECORDS }
    requires queued { (live : List Row) × AreQueued queue.old deliveries.old live }
    ensures queued { (live : List Row) → AreQueued queue.old deliveries.old live
        → AreQueued queue.new deliveries.new live }
    ensures rooms { KeepsRooms queue.old queue.new }
    ensures settled { deliveries.new.settled_seq ≡ seq }
    ensures next { deliveries.new.next_seq ≡ max deliveries.old.next_seq seq }
    ensures stands { Settles deliveries.old seq deliveries.new }
    ensures waits { (records : List Record) → HasWaiting deliveries.old records
        → HasWaiting deliveries.new (drop (seq - deliveries.old.settled_seq) records) }
    ensures names { HasSameNames deliveries.old deliveries.new }
{
    for _ in deliveries.settled_seq()..seq {
        settle_next(queue, deliveries);
    }
}
