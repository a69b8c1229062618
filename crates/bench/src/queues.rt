//! How long the calls of the claim queue alone take.
ghost use Rattle.std.specs.Prelude.{◌<◌};

use crate::events::name_of;
use crate::failed::Failed;
use crate::limits::next_number;
use crate::times::{add, print_lines, since};
use claim_queue::ClaimQueue;
use relay_types::Name;
use std::alloc::Global;
use std::time::{Duration, Instant};

/// How many deliveries are claimed.
const ROUNDS: u64 = 10_000;

/// Tells of the endpoint's room, where places were reserved for it.
fn set_room(queue: &mut ClaimQueue, endpoint: Name, room: bool) {
    if queue.is_reserved(endpoint) {
        queue.set_room(endpoint, room);
    }
}

/// How long the calls took in all.
#[derive(Clone, Copy)]
struct Calls {
    next: Duration,
    remove: Duration,
    set_room: Duration,
    insert: Duration,
    /// Between two looks at the clock with nothing between them.
    nothing: Duration,
}

const NO_CALLS: Calls = Calls {
    next: Duration::ZERO,
    remove: Duration::ZERO,
    set_room: Duration::ZERO,
    insert: Duration::ZERO,
    nothing: Duration::ZERO,
};

/// When the delivery is due.
fn due_of(seq: u64) -> u64 {
    next_number(seq) >> 34
}

/// A queue of so many deliveries of so many endpoints, every second of which has room.
fn filled(alloc: Global, count: u32, endpoints: u32) -> Result<ClaimQueue, Failed>
    requires { 0 < endpoints }
{
    let mut queue = ClaimQueue::new(alloc);
    let each = (count / endpoints).saturating_add(1) as usize;
    reserve_each(alloc, &mut queue, endpoints, each)?;
    insert_each(alloc, &mut queue, count, endpoints)?;
    Ok(queue)
}

fn reserve_each(
    alloc: Global,
    queue: &mut ClaimQueue,
    endpoints: u32,
    each: usize,
) -> Result<(), Failed> {
    for number in 0..endpoints {
        let endpoint = name_of(alloc, number)?;
        queue.reserve(endpoint, each)?;
        set_room(queue, endpoint, number % 2 == 0);
    }
    Ok(())
}

fn insert_each(
    alloc: Global,
    queue: &mut ClaimQueue,
    count: u32,
    endpoints: u32,
) -> Result<(), Failed>
    requires { 0 < endpoints }
{
    for number in 0..count {
        let endpoint = name_of(alloc, number % endpoints)?;
        let seq = u64::from(number);
        if queue.free_places(endpoint) > 0 && queue.is_new(seq) {
            queue.insert(endpoint, due_of(seq), seq);
        }
    }
    Ok(())
}

/// Claims the delivery that is next, and holds another one of its endpoint in its place.
fn claim(
    rt: &HostRuntime,
    began: Instant,
    queue: &mut ClaimQueue,
    calls: &mut Calls,
    another: u64,
) -> bool {
    let looked = since(rt, began);
    let Some((endpoint, seq)) = queue.next(u64::MAX) else {
        return false;
    };
    let found = since(rt, began);
    add(&mut calls.next, looked, found);
    add(&mut calls.nothing, found, since(rt, began));
    change(rt, began, queue, calls, [seq, another], endpoint)
}

/// Lets the first delivery go and holds the other one, both of the endpoint, which has no room meanwhile.
fn change(
    rt: &HostRuntime,
    began: Instant,
    queue: &mut ClaimQueue,
    calls: &mut Calls,
    seqs: [u64; 2],
    endpoint: Name,
) -> bool {
    let [seq, another] = seqs;
    let due = due_of(seq);
    if !queue.contains(endpoint, due, seq) {
        return false;
    }
    let start = since(rt, began);
    queue.remove(endpoint, due, seq);
    let removed = since(rt, began);
    set_room(queue, endpoint, false);
    set_room(queue, endpoint, true);
    let told = since(rt, began);
    if queue.free_places(endpoint) == 0 || !queue.is_new(another) {
        return false;
    }
    let ready = since(rt, began);
    queue.insert(endpoint, due_of(another), another);
    add(&mut calls.insert, ready, since(rt, began));
    add(&mut calls.remove, start, removed);
    add(&mut calls.set_room, removed, told);
    true
}

fn claim_each(
    rt: &HostRuntime,
    began: Instant,
    queue: &mut ClaimQueue,
    count: u32,
    calls: &mut Calls,
) -> Result<(), Failed> {
    for round in 0..ROUNDS {
        if !claim(rt, began, queue, calls, u64::from(count) + round) {
            return Err(Failed);
        }
    }
    Ok(())
}

/// Prints how many nanoseconds each call takes where so many deliveries of so many endpoints are
/// held.
pub(crate) fn print_calls(rt: &HostRuntime, count: u32, endpoints: u32) -> Result<(), Failed> {
    let mut calls = NO_CALLS;
    time_calls(rt, count, endpoints, &mut calls)?;
    print_lines(
        rt,
        &[
            ("next", each(calls.next)),
            ("remove", each(calls.remove)),
            ("set_room, twice", each(calls.set_room)),
            ("insert", each(calls.insert)),
            ("the clock", each(calls.nothing)),
        ],
    )
}

fn time_calls(
    rt: &HostRuntime,
    count: u32,
    endpoints: u32,
    calls: &mut Calls,
) -> Result<(), Failed> {
    if endpoints == 0 || endpoints > 256 {
        return Err(Failed);
    }
    let mut queue = filled(rt.alloc(), count, endpoints)?;
    claim_each(rt, Instant::now(rt)?, &mut queue, count, calls)
}

/// How many nanoseconds one call took.
fn each(taken: Duration) -> u128 {
    taken.as_nanos() / u128::from(ROUNDS)
}
