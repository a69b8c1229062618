//! The claim queue's answers to random moves.
use crate::failed::Failed;
use claim_queue::ClaimQueue;
use relay_types::Name;
use std::io;

/// How many endpoints the moves have.
const NAMES: u64 = 12;

/// The next number of a linear congruential generator, with the constants of Knuth's MMIX.
fn next_number(number: u64) -> u64 {
    number
        .wrapping_mul(6_364_136_223_846_793_005)
        .wrapping_add(1_442_695_040_888_963_407)
}

/// A letter for the last digit of a number.
fn letter(number: u64) -> u8 {
    b'a' + (number % 10) as u8
}

/// The name of an endpoint: a letter for each digit of its number.
fn name_of(number: u64) -> Result<Name, Failed> {
    let letters = [letter(number / 100), letter(number / 10), letter(number)];
    Ok(Name::read(&letters)?)
}

/// A delivery that the queue holds.
#[derive(Clone, Copy)]
struct QueuedDelivery {
    endpoint: Name,
    due: u64,
    seq: u64,
}

/// Holds the delivery, where its endpoint has a free place and its number is new.
fn insert(
    queue: &mut ClaimQueue,
    held: &mut Vec<QueuedDelivery>,
    one: QueuedDelivery,
) -> Result<(), Failed> {
    if queue.free_places(one.endpoint) == 0 || !queue.is_new(one.seq) {
        return Ok(());
    }
    queue.insert(one.endpoint, one.due, one.seq);
    match held.push(one) {
        Ok(()) => Ok(()),
        Err(_) => Err(Failed),
    }
}

/// Takes a delivery in, with a place for it where its endpoint has none.
fn insert_next(
    queue: &mut ClaimQueue,
    held: &mut Vec<QueuedDelivery>,
    number: u64,
    seq: u64,
) -> Result<(), Failed> {
    let endpoint = name_of((number >> 24) % NAMES)?;
    let due = (number >> 32) % 1000;
    if queue.free_places(endpoint) == 0 {
        queue.reserve(endpoint, 1 + (number >> 40) as usize % 8)?;
    }
    insert(queue, held, QueuedDelivery { endpoint, due, seq })
}

/// Lets one of those that are held go.
fn remove_one(queue: &mut ClaimQueue, held: &mut Vec<QueuedDelivery>, number: u64) {
    if held.is_empty() {
        return;
    }
    let place = (number >> 32) as usize % held.len();
    let gone = held.swap_remove(place);
    if queue.contains(gone.endpoint, gone.due, gone.seq) {
        queue.remove(gone.endpoint, gone.due, gone.seq);
    }
}

/// Tells of an endpoint's room, where places were reserved for it.
fn set_room(queue: &mut ClaimQueue, number: u64) -> Result<(), Failed> {
    let endpoint = name_of((number >> 24) % NAMES)?;
    if queue.is_reserved(endpoint) {
        queue.set_room(endpoint, (number >> 40) % 4 > 0);
    }
    Ok(())
}

/// Makes the move of a number: what it inserts has this sequence number.
fn make_move(
    queue: &mut ClaimQueue,
    held: &mut Vec<QueuedDelivery>,
    number: u64,
    seq: u64,
) -> Result<(), Failed> {
    match number >> 61 {
        0..=3 => insert_next(queue, held, number, seq),
        4 | 5 => {
            remove_one(queue, held, number);
            Ok(())
        }
        _ => set_room(queue, number),
    }
}

fn print_next(rt: &HostRuntime, queue: &ClaimQueue, now: u64) -> io::Result<()> {
    match queue.next(now) {
        Some((_, seq)) => println!(rt; "{seq}"),
        None => println!(rt; "-"),
    }
}

fn move_all(
    rt: &HostRuntime,
    queue: &mut ClaimQueue,
    held: &mut Vec<QueuedDelivery>,
    seed: u64,
    count: u64,
) -> io::Result<bool> {
    let mut number = seed;
    for seq in 0..count {
        number = next_number(number);
        if make_move(queue, held, number, seq).is_err() {
            return Ok(false);
        }
        print_next(rt, queue, (number >> 44) % 1100)?;
    }
    Ok(true)
}

/// Prints what is next after each of so many random moves.
pub(crate) fn print_moves(rt: &HostRuntime, seed: u64, count: u64) -> io::Result<bool> {
    let mut queue = ClaimQueue::new(rt.alloc());
    let mut held = Vec::new(rt.alloc());
    move_all(rt, &mut queue, &mut held, seed, count)
}
