//! Steps of a delivery book, and what is then told of it.

use crate::cases::{body, done, holds, moment, msg_id, name};
use delivery_book::{Counts, DeliveryBook, Row};
use relay_types::{Body, Moment, MsgId, Name, State};
use std::alloc::Global;
use std::process::Abort;

/// What is told of a delivery.
#[derive(Clone, Copy)]
pub(crate) struct Told {
    pub(crate) endpoint: &'static [u8],
    pub(crate) id: &'static [u8],
    pub(crate) at: u64,
    pub(crate) attempts: u64,
    pub(crate) state: State,
    pub(crate) due: Option<u64>,
    pub(crate) last: Option<u16>,
}

/// A record that is staged or settled, or what is expected then.
#[derive(Clone, Copy)]
pub(crate) enum Step {
    /// An event of this number, endpoint and id, with this body, at this moment.
    Accept(u64, &'static [u8], &'static [u8], &'static [u8], u64),
    /// The same at the endpoints `b`, `a` and `c`, in one step, from this number on.
    AcceptAtThree(u64, &'static [u8], &'static [u8], u64),
    /// An attempt at the delivery ended: the number, the delivery, the status and the moment.
    Outcome(u64, u64, u16, u64),
    /// A Purge of this number, which takes what is done with before this moment.
    Purge(u64, u64),
    Settle(u64),
    /// The delivery of the endpoint's event of this id, by all records and by the settled ones.
    Find(&'static [u8], &'static [u8], Option<u64>),
    FindSettled(&'static [u8], &'static [u8], Option<u64>),
    /// How many deliveries there are, and the number of the one at this place.
    Len(usize),
    At(usize, Option<u64>),
    /// The delivery as all records have it, and as the settled ones have it.
    Row(u64, Option<Told>),
    Settled(u64, Option<Told>),
    /// What came of the delivery by all records, and by the settled ones: attempts, state, due moment and last status.
    Came(u64, u64, State, Option<u64>, Option<u16>),
    SettledCame(u64, u64, State, Option<u64>, Option<u16>),
    /// How many attempts ended by the settled records, and the state.
    Stands(u64, u64, State),
    Body(u64, Option<&'static [u8]>),
    Next(u64),
    /// How many deliveries of the endpoint, and of all, are pending.
    Pending(&'static [u8], u64),
    PendingAll(u64),
    /// How many are settled as pending, as delivered and as exhausted, of the endpoint and of all.
    Counts(&'static [u8], u64, u64, u64),
    CountsAll(u64, u64, u64),
    TakesOutcome(u64, bool),
    /// So many events of the endpoint, from number 0, whose ids differ at their ends alone. Then each is sought by its
    /// id.
    AcceptAlike(&'static [u8], u64),
    FindAlike(&'static [u8], u64),
}

/// Takes in an event whose id the endpoint does not know yet.
fn accept(
    rt: &impl Abort,
    book: &mut DeliveryBook,
    seq: u64,
    event: (Name, MsgId),
    body: Body,
    at: Moment,
) {
    let (name, id) = event;
    assert!(rt; seq < 1_000_000 && book.next_seq() <= seq);
    assert!(rt; book.find(name, &id).is_none());
    done(rt, book.stage_accept(seq, name, id, body, at));
}

/// Takes in an event at three endpoints, of which none knows its id yet.
fn accept_at_three(
    rt: &impl Abort,
    book: &mut DeliveryBook,
    seq: u64,
    id: MsgId,
    body: &Body,
    at: Moment,
) {
    let (b, a, c) = (name(rt, b"b"), name(rt, b"a"), name(rt, b"c"));
    assert!(rt; seq < 1_000_000 && book.next_seq() <= seq);
    assert!(rt; b != a && b != c && a != c);
    assert!(rt; book.find(b, &id).is_none());
    assert!(rt; book.find(a, &id).is_none());
    assert!(rt; book.find(c, &id).is_none());
    done(rt, book.stage_accepts(seq, &[b, a, c], id, body, at));
}

/// An attempt at the delivery ended.
fn end(rt: &impl Abort, book: &mut DeliveryBook, seq: u64, delivery: u64, status: u16, at: Moment) {
    assert!(rt; seq < 1_000_000 && book.next_seq() <= seq);
    assert!(rt; book.takes_outcome(delivery));
    book.stage_outcome(seq, delivery, status, at);
}

fn purge(rt: &impl Abort, book: &mut DeliveryBook, seq: u64, before: Moment) {
    assert!(rt; seq < 1_000_000 && book.next_seq() <= seq);
    book.stage_purge(seq, before);
}

fn settle(rt: &impl Abort, book: &mut DeliveryBook, seq: u64) {
    assert!(rt; book.settled_seq() <= seq);
    book.settle_to(seq);
}

/// An id of 64 characters, of which the last ones alone tell it from the others.
fn long_id(rt: &impl Abort, alloc: Global, number: u64) -> MsgId {
    let text = format!(in alloc; "x{number:063}").expect(rt, "memory");
    msg_id(rt, text.as_bytes())
}

fn accept_alike(rt: &impl Abort, alloc: Global, book: &mut DeliveryBook, name: Name, count: u64) {
    let first = body(rt, alloc, b"{}");
    let at = moment(rt, 1000);
    for seq in 0..count {
        let event = (name, long_id(rt, alloc, seq));
        accept(rt, book, seq, event, first.share().expect(rt, "memory"), at);
    }
}

fn find_alike(rt: &impl Abort, alloc: Global, book: &DeliveryBook, name: Name, count: u64) -> bool {
    let mut all = true;
    for seq in 0..count {
        all = all && book.find(name, &long_id(rt, alloc, seq)) == Some(seq);
    }
    all
}

fn is_told(found: Row, told: Told) -> bool {
    found.endpoint.as_bytes() == told.endpoint
        && found.id.as_bytes() == told.id
        && found.at.seconds() == told.at
        && found.attempts == told.attempts
        && found.state == told.state
        && found.due == told.due
        && found.last_status == told.last
}

fn shows(found: Option<Row>, wanted: Option<Told>) -> bool {
    match (found, wanted) {
        (Some(row), Some(told)) => is_told(row, told),
        (None, None) => true,
        _ => false,
    }
}

fn came(
    found: Option<Row>,
    attempts: u64,
    state: State,
    due: Option<u64>,
    last: Option<u16>,
) -> bool {
    match found {
        Some(row) => {
            row.attempts == attempts
                && row.state == state
                && row.due == due
                && row.last_status == last
        }
        None => false,
    }
}

fn stands(found: Option<Row>, attempts: u64, state: State) -> bool {
    match found {
        Some(row) => row.attempts == attempts && row.state == state,
        None => false,
    }
}

fn has_body(book: &DeliveryBook, delivery: u64, wanted: Option<&[u8]>) -> bool {
    match (book.body(delivery), wanted) {
        (Some(body), Some(text)) => body.as_bytes() == text,
        (None, None) => true,
        _ => false,
    }
}

fn counts(counts: Counts, pending: u64, delivered: u64, exhausted: u64) -> bool {
    counts.pending == pending && counts.delivered == delivered && counts.exhausted == exhausted
}

fn stage(rt: &impl Abort, alloc: Global, book: &mut DeliveryBook, step: Step) {
    match step {
        Step::Accept(seq, endpoint, id, text, at) => {
            let event = (name(rt, endpoint), msg_id(rt, id));
            accept(rt, book, seq, event, body(rt, alloc, text), moment(rt, at));
        }
        Step::AcceptAtThree(seq, id, text, at) => {
            let text = body(rt, alloc, text);
            accept_at_three(rt, book, seq, msg_id(rt, id), &text, moment(rt, at));
        }
        Step::Outcome(seq, delivery, status, at) => {
            end(rt, book, seq, delivery, status, moment(rt, at));
        }
        Step::Purge(seq, before) => purge(rt, book, seq, moment(rt, before)),
        Step::Settle(seq) => settle(rt, book, seq),
        Step::AcceptAlike(endpoint, count) => {
            accept_alike(rt, alloc, book, name(rt, endpoint), count);
        }
        _ => {}
    }
}

/// Whether what is expected is so. What is staged or settled is.
fn is_so(rt: &impl Abort, alloc: Global, book: &DeliveryBook, step: Step) -> bool {
    match step {
        Step::Find(endpoint, id, wanted) => {
            book.find(name(rt, endpoint), &msg_id(rt, id)) == wanted
        }
        Step::FindSettled(endpoint, id, wanted) => {
            book.find_settled(name(rt, endpoint), &msg_id(rt, id)) == wanted
        }
        Step::Len(count) => book.len() == count,
        Step::At(place, wanted) => book.delivery(place) == wanted,
        Step::Row(delivery, wanted) => shows(book.row(delivery), wanted),
        Step::Settled(delivery, wanted) => shows(book.settled(delivery), wanted),
        Step::Came(delivery, attempts, state, due, last) => {
            came(book.row(delivery), attempts, state, due, last)
        }
        Step::SettledCame(delivery, attempts, state, due, last) => {
            came(book.settled(delivery), attempts, state, due, last)
        }
        Step::Stands(delivery, attempts, state) => stands(book.settled(delivery), attempts, state),
        Step::Body(delivery, wanted) => has_body(book, delivery, wanted),
        Step::Next(seq) => book.next_seq() == seq,
        Step::Pending(endpoint, count) => book.pending(name(rt, endpoint)) == count,
        Step::PendingAll(count) => book.pending_all() == count,
        Step::Counts(endpoint, pending, delivered, exhausted) => {
            let found = book.settled_counts(name(rt, endpoint));
            counts(found, pending, delivered, exhausted)
        }
        Step::CountsAll(pending, delivered, exhausted) => {
            counts(book.settled_counts_all(), pending, delivered, exhausted)
        }
        Step::TakesOutcome(delivery, wanted) => book.takes_outcome(delivery) == wanted,
        Step::FindAlike(endpoint, count) => {
            find_alike(rt, alloc, book, name(rt, endpoint), count)
        }
        _ => true,
    }
}

/// Takes the steps in turn on a new book.
pub(crate) fn walk(rt: &impl Abort, alloc: Global, steps: &[Step]) {
    let mut book = DeliveryBook::new(alloc);
    for (place, step) in steps.iter().enumerate() {
        stage(rt, alloc, &mut book, *step);
        holds(rt, is_so(rt, alloc, &book, *step), place);
    }
}
