//! The pool at a ledger of its own.
ghost use Rattle.std.specs.Prelude.{◌≡◌};

use crate::cases::{done, holds, name};
use permits::{Foreign, MAX_PERMITS, PARTS, Permit, Pool, Refused, Row};
use relay_types::Name;
use std::alloc::Global;
use std::marker::Brand;
use std::process::Abort;
use std::sync::ledger::{Blank, Ledger};

/// A call of a pool. The permits that are out stand in the order in which they came.
#[derive(Clone, Copy)]
enum Step {
    /// A permit of this endpoint, delivery and limit.
    Take(&'static [u8], u64, u32),
    /// Why there is none.
    Refuse(&'static [u8], u64, u32, Refused),
    /// So many permits, for the deliveries from 0.
    Fill(&'static [u8], u64, u32),
    /// The permit at this place shows this endpoint, delivery and in-flight number.
    Shows(usize, &'static [u8], u64, u32),
    /// The permit at this place comes back, and its row is this.
    Put(usize, &'static [u8], u64, u32),
    /// How many are out of an endpoint.
    InFlight(&'static [u8], u32),
    Live(usize),
    /// How many are out beside the first permits, of which there are so many.
    Audit(usize, usize),
}

static PERMITS_TAKE_TURNS: [Step; 17] = [
    Step::Take(b"a", 1, 2),
    Step::Refuse(b"a", 1, 2, Refused::AlreadyOut),
    Step::Take(b"a", 2, 2),
    Step::Refuse(b"a", 3, 2, Refused::AtLimit),
    Step::Refuse(b"b", 2, 2, Refused::AlreadyOut),
    Step::Refuse(b"b", 2, 0, Refused::AtLimit),
    Step::Shows(0, b"a", 1, 1),
    Step::Shows(1, b"a", 2, 2),
    Step::InFlight(b"a", 2),
    Step::InFlight(b"b", 0),
    Step::Live(2),
    Step::Audit(1, 1),
    Step::Put(0, b"a", 1, 1),
    Step::InFlight(b"a", 1),
    Step::InFlight(b"b", 0),
    Step::Live(1),
    Step::Put(0, b"a", 2, 2),
];

static ALL_PLACES_ARE_TAKEN: [Step; 5] = [
    Step::Fill(b"a", 256, 1000),
    Step::Refuse(b"a", 256, 1000, Refused::TooManyOut),
    Step::Refuse(b"a", 0, 1000, Refused::TooManyOut),
    Step::Refuse(b"a", 256, 256, Refused::AtLimit),
    Step::Audit(256, 0),
];

pub(crate) fn take<L: Ledger>(
    rt: &impl Abort,
    pool: &mut Pool<L>,
    endpoint: Name,
    delivery: u64,
    limit: u32,
) -> Permit<L> {
    match pool.acquire(endpoint, delivery, limit) {
        Ok(permit) => permit,
        Err(refused) => panic!(rt; "{delivery}: {refused}"),
    }
}

pub(crate) fn put<L: Ledger>(rt: &impl Abort, pool: &mut Pool<L>, permit: Permit<L>) -> Row {
    match pool.give_back(permit) {
        Ok(returned) => returned,
        Err((permit, Foreign)) => panic!(rt; "{} is foreign", permit.delivery()),
    }
}

// Closes a pool of which all permits have come back.
pub(crate) fn shut<L: Ledger>(rt: &impl Abort, pool: Pool<L>) {
    if pool.live() != 0 {
        panic!(rt; "{} are out", pool.live());
    }
    let _closed = pool.close();
}

fn refuses<L: Ledger>(
    rt: &impl Abort,
    pool: &mut Pool<L>,
    endpoint: Name,
    delivery: u64,
    limit: u32,
    want: Refused,
) -> bool {
    match pool.acquire(endpoint, delivery, limit) {
        Ok(permit) => panic!(rt; "a permit for {}", permit.delivery()),
        Err(refused) => refused == want,
    }
}

fn keep<L: Ledger>(rt: &impl Abort, out: &mut Vec<Permit<L>>, permit: Permit<L>) {
    match out.push(permit) {
        Ok(()) => {}
        Err(refused) => panic!(rt; "no room for {}", refused.value.delivery()),
    }
}

fn fill<L: Ledger>(
    rt: &impl Abort,
    pool: &mut Pool<L>,
    out: &mut Vec<Permit<L>>,
    endpoint: Name,
    count: u64,
    limit: u32,
) {
    for delivery in 0..count {
        let permit = take(rt, pool, endpoint, delivery, limit);
        keep(rt, out, permit);
    }
}

// Whether the permit shows this, one by one and as its row.
fn shows<L: Ledger>(permit: &Permit<L>, row: Row) -> bool {
    let Row {
        endpoint,
        delivery,
        inflight,
    } = row;
    permit.row().is(row)
        && permit.endpoint().is(endpoint)
        && permit.delivery() == delivery
        && permit.inflight() == inflight
}

fn shows_at<L: Ledger>(out: &Vec<Permit<L>>, place: usize, row: Row) -> bool {
    match out.get(place) {
        Some(permit) => shows(permit, row),
        None => false,
    }
}

fn put_at<L: Ledger>(
    rt: &impl Abort,
    pool: &mut Pool<L>,
    out: &mut Vec<Permit<L>>,
    place: usize,
) -> Row {
    assert!(rt; place < out.len());
    let permit = out.remove(place);
    put(rt, pool, permit)
}

fn audit<L: Ledger>(
    rt: &impl Abort,
    pool: &mut Pool<L>,
    out: &mut Vec<Permit<L>>,
    count: usize,
) -> usize {
    assert!(rt; count <= out.len());
    pool.audit(&mut out.as_mut_slice()[..count])
}

fn row(rt: &impl Abort, text: &[u8], delivery: u64, inflight: u32) -> Row {
    Row {
        endpoint: name(rt, text),
        delivery,
        inflight,
    }
}

/// Takes the step; whether what it expects is so.
fn make<L: Ledger>(
    rt: &impl Abort,
    pool: &mut Pool<L>,
    out: &mut Vec<Permit<L>>,
    step: Step,
) -> bool {
    match step {
        Step::Take(text, delivery, limit) => {
            let permit = take(rt, pool, name(rt, text), delivery, limit);
            keep(rt, out, permit);
            true
        }
        Step::Refuse(text, delivery, limit, want) => {
            refuses(rt, pool, name(rt, text), delivery, limit, want)
        }
        Step::Fill(text, count, limit) => {
            fill(rt, pool, out, name(rt, text), count, limit);
            true
        }
        Step::Shows(place, text, delivery, inflight) => {
            shows_at(out, place, row(rt, text, delivery, inflight))
        }
        Step::Put(place, text, delivery, inflight) => {
            put_at(rt, pool, out, place).is(row(rt, text, delivery, inflight))
        }
        Step::InFlight(text, count) => pool.in_flight(name(rt, text)) == count,
        Step::Live(count) => pool.live() == count,
        Step::Audit(count, others) => audit(rt, pool, out, count) == others,
    }
}

// All come back.
fn empty<L: Ledger>(rt: &impl Abort, pool: &mut Pool<L>, mut out: Vec<Permit<L>>) {
    while let Some(permit) = out.pop() {
        put(rt, pool, permit);
    }
    out.destroy_empty();
}

fn follow<L: Ledger>(rt: &impl Abort, alloc: Global, pool: &mut Pool<L>, steps: &[Step]) {
    let mut out = Vec::new(alloc);
    for (place, next) in steps.iter().enumerate() {
        let is = make(rt, pool, &mut out, *next);
        holds(rt, is, place);
    }
    empty(rt, pool, out);
}

pub(crate) fn open<L: Ledger>(rt: &impl Abort, alloc: Global, blank: Blank) -> Pool<L>
    requires name { blank.name ≡ L.name }
    requires parts { blank.parts ≡ L.parts }
    requires enough { blank.parts ≡ PARTS }
{
    match Pool::<L>::new(alloc, blank) {
        Ok(pool) => pool,
        Err(_) => panic!(rt; "no memory"),
    }
}

fn walk<L: Ledger>(rt: &impl Abort, alloc: Global, blank: Blank, steps: &[Step])
    requires name { blank.name ≡ L.name }
    requires parts { blank.parts ≡ L.parts }
    requires enough { blank.parts ≡ PARTS }
{
    let mut pool = open::<L>(rt, alloc, blank);
    follow(rt, alloc, &mut pool, steps);
    shut(rt, pool);
}

/// Takes the steps on a new pool.
fn walk_through(rt: &impl Abort, alloc: Global, steps: &[Step]) {
    walk::<Brand>(rt, alloc, Blank::new(PARTS), steps);
}

#[test]
fn permits_take_turns(rt: HostRuntime) {
    walk_through(&rt, rt.alloc(), &PERMITS_TAKE_TURNS);
}

#[test]
fn all_places_are_taken(rt: HostRuntime) {
    walk_through(&rt, rt.alloc(), &ALL_PLACES_ARE_TAKEN);
}

/// A refusal, its number and its name.
#[derive(Clone, Copy)]
struct Refusal(Refused, u8, &'static str);

static REFUSALS: [Refusal; 3] = [
    Refusal(Refused::AtLimit, 1, "AtLimit"),
    Refusal(Refused::TooManyOut, 2, "TooManyOut"),
    Refusal(Refused::AlreadyOut, 3, "AlreadyOut"),
];

fn is_told(rt: &impl Abort, alloc: Global, refusal: Refusal) -> bool {
    let Refusal(refused, number, name) = refusal;
    let text = format!(in alloc; "{refused}").expect(rt, "memory");
    refused.number() == number && text.as_str() == name
}

#[test]
fn refusals_have_numbers_and_names(rt: HostRuntime) {
    for (place, refusal) in REFUSALS.iter().enumerate() {
        holds(&rt, is_told(&rt, rt.alloc(), *refusal), place);
    }
}
