//! Steps of a claim queue, and what is then told of it.

use crate::cases::{done, holds, name};
use claim_queue::ClaimQueue;
use relay_types::Name;
use std::alloc::Global;
use std::process::Abort;

/// A call of a queue, or what is expected of it.
#[derive(Clone, Copy)]
pub(crate) enum Step {
    /// Places for so many more deliveries of an endpoint.
    Reserve(&'static [u8], usize),
    Room(&'static [u8], bool),
    /// Places for so many more deliveries of an endpoint, which has room from then on.
    Open(&'static [u8], usize),
    /// A delivery of this endpoint, due moment and number.
    Insert(&'static [u8], u64, u64),
    Remove(&'static [u8], u64, u64),
    /// The delivery that is next at this moment.
    Next(u64, &'static [u8], u64),
    /// None is.
    NoNext(u64),
    Free(&'static [u8], usize),
    IsReserved(&'static [u8], bool),
    IsNew(u64, bool),
    Contains(&'static [u8], u64, u64, bool),
    /// So many deliveries, each due a second before the one inserted before it: number 0 is due at 1000 and as many
    /// seconds.
    InsertMany(&'static [u8], u64),
    /// They are next in turn, and go.
    RemoveMany(&'static [u8], u64),
    /// One place of each endpoint whose name is two of these letters.
    OpenPairs(&'static [u8]),
}

fn set_room(rt: &impl Abort, queue: &mut ClaimQueue, endpoint: Name, room: bool) {
    assert!(rt; queue.is_reserved(endpoint));
    queue.set_room(endpoint, room);
}

fn open(rt: &impl Abort, queue: &mut ClaimQueue, endpoint: Name, more: usize) {
    done(rt, queue.reserve(endpoint, more));
    set_room(rt, queue, endpoint, true);
}

fn insert(rt: &impl Abort, queue: &mut ClaimQueue, endpoint: Name, due: u64, seq: u64) {
    assert!(rt; queue.free_places(endpoint) > 0 && queue.is_new(seq));
    queue.insert(endpoint, due, seq);
}

fn remove(rt: &impl Abort, queue: &mut ClaimQueue, endpoint: Name, due: u64, seq: u64) {
    assert!(rt; queue.contains(endpoint, due, seq));
    queue.remove(endpoint, due, seq);
}

/// Whether this delivery of the endpoint is next.
fn is_next(queue: &ClaimQueue, now: u64, endpoint: Name, seq: u64) -> bool {
    match queue.next(now) {
        Some((name, number)) => name.is(endpoint) && number == seq,
        None => false,
    }
}

fn insert_many(rt: &impl Abort, queue: &mut ClaimQueue, endpoint: Name, count: u64) {
    assert!(rt; count <= 1000);
    for seq in 0..count {
        insert(rt, queue, endpoint, 1000 + (count - seq), seq);
    }
}

fn remove_many(rt: &impl Abort, queue: &mut ClaimQueue, endpoint: Name, count: u64) {
    assert!(rt; count <= 1000);
    for step in 0..count {
        let seq = count - 1 - step;
        holds(
            rt,
            is_next(queue, 1000 + count, endpoint, seq),
            step as usize,
        );
        remove(rt, queue, endpoint, 1001 + step, seq);
    }
}

fn open_pairs(rt: &impl Abort, queue: &mut ClaimQueue, letters: &[u8]) {
    for first in letters {
        for second in letters {
            open(rt, queue, name(rt, &[*first, *second]), 1);
        }
    }
}

fn call(rt: &impl Abort, queue: &mut ClaimQueue, step: Step) {
    match step {
        Step::Reserve(text, more) => done(rt, queue.reserve(name(rt, text), more)),
        Step::Room(text, room) => set_room(rt, queue, name(rt, text), room),
        Step::Open(text, more) => open(rt, queue, name(rt, text), more),
        Step::Insert(text, due, seq) => insert(rt, queue, name(rt, text), due, seq),
        Step::Remove(text, due, seq) => remove(rt, queue, name(rt, text), due, seq),
        Step::InsertMany(text, count) => insert_many(rt, queue, name(rt, text), count),
        Step::RemoveMany(text, count) => remove_many(rt, queue, name(rt, text), count),
        Step::OpenPairs(letters) => open_pairs(rt, queue, letters),
        _ => {}
    }
}

/// Whether what is expected is so. A call is.
fn is_so(rt: &impl Abort, queue: &ClaimQueue, step: Step) -> bool {
    match step {
        Step::Next(now, text, seq) => is_next(queue, now, name(rt, text), seq),
        Step::NoNext(now) => queue.next(now).is_none(),
        Step::Free(text, count) => queue.free_places(name(rt, text)) == count,
        Step::IsReserved(text, wanted) => queue.is_reserved(name(rt, text)) == wanted,
        Step::IsNew(seq, wanted) => queue.is_new(seq) == wanted,
        Step::Contains(text, due, seq, wanted) => {
            queue.contains(name(rt, text), due, seq) == wanted
        }
        _ => true,
    }
}

/// Takes the steps in turn on a new queue.
pub(crate) fn walk(rt: &impl Abort, alloc: Global, steps: &[Step]) {
    let mut queue = ClaimQueue::new(alloc);
    for (place, step) in steps.iter().enumerate() {
        call(rt, &mut queue, *step);
        holds(rt, is_so(rt, &queue, *step), place);
    }
}
