//! Runs over a book alone.
use crate::events::{body_with, id_of, name_of};
use crate::failed::Failed;
use delivery_book::DeliveryBook;
use relay_types::{Body, MAX_RECORDS, Moment, MsgId, Name};
use std::alloc::Global;

const ENDPOINTS: u64 = 100;

const MAX_WAITING: u64 = 256;

/// Prints how many events a book of as many has pending, and how many attempts the last one had,
/// where each is to have an outcome.
pub(crate) fn print_book(rt: &HostRuntime, count: u64, has_outcomes: bool) -> Result<(), Failed> {
    let (pending, attempts) = counts_of(rt.alloc(), count, has_outcomes)?;
    println!(rt; "pending {pending} attempts {attempts}")?;
    Ok(())
}

/// How many events are pending, and how many attempts the last one had.
fn counts_of(alloc: Global, count: u64, has_outcomes: bool) -> Result<(u64, u64), Failed> {
    let mut book = DeliveryBook::new(alloc);
    stage_events(alloc, &mut book, count)?;
    if has_outcomes {
        stage_outcomes(&mut book, count);
    }
    Ok((book.pending_all(), last_attempts(&book, count)))
}

/// How many attempts the last of so many events had.
fn last_attempts(book: &DeliveryBook, count: u64) -> u64 {
    match book.settled(count.saturating_sub(1)) {
        Some(row) => row.attempts,
        None => 0,
    }
}

/// Stages as many events, all with the body `{}`, over 100 endpoints, and settles them.
fn stage_events(alloc: Global, book: &mut DeliveryBook, count: u64) -> Result<(), Failed> {
    let body = body_with(alloc, Vec::from_slice(alloc, b"{}")?)?;
    for number in 0..count {
        stage_event(alloc, book, number, &body)?;
    }
    settle(book);
    Ok(())
}

fn stage_event(
    alloc: Global,
    book: &mut DeliveryBook,
    number: u64,
    body: &Body,
) -> Result<(), Failed> {
    let name = name_of(alloc, (number % ENDPOINTS) as u32)?;
    let id = id_of(alloc, number)?;
    stage_accept(book, name, id, body)
}

fn stage_accept(book: &mut DeliveryBook, name: Name, id: MsgId, body: &Body) -> Result<(), Failed> {
    let at = Moment::of(1000)?;
    let seq = book.next_seq();
    if seq < MAX_RECORDS && book.find(name, &id).is_none() {
        book.stage_accept(seq, name, id, body.share()?, at)?;
    }
    Ok(())
}

/// One failed outcome of each event, the first of which has number 0. After every 256 of them all are settled.
fn stage_outcomes(book: &mut DeliveryBook, count: u64) {
    for delivery in 0..count {
        stage_outcome(book, delivery);
        if delivery % MAX_WAITING == MAX_WAITING - 1 {
            settle(book);
        }
    }
    settle(book);
}

fn stage_outcome(book: &mut DeliveryBook, delivery: u64) {
    let seq = book.next_seq();
    if let Ok(at) = Moment::of(1001) {
        if seq < MAX_RECORDS && book.takes_outcome(delivery) {
            book.stage_outcome(seq, delivery, 500, at);
        }
    }
}

fn settle(book: &mut DeliveryBook) {
    let seq = book.next_seq();
    if book.settled_seq() <= seq {
        book.settle_to(seq);
    }
}
