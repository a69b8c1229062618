//! Books in which the records of a history are staged and settled one by one.
ghost use Rattle.std.specs.Prelude.{◌<◌, ◌≤◌};

use crate::entries::{Entry, Keys, URL, body_of, name_of, secrets_of};
use delivery_book::DeliveryBook;
use endpoint_book::EndpointBook;
use relay_types::{Body, MaxLimit, Moment, MsgId, Name, Secrets, Target};
use spool::Books;
use std::alloc::{AllocError, Global};
use std::process::Abort;
use std::test::Fail;

/// The books of the history that has no record.
pub(crate) fn empty(alloc: Global) -> Result<Books, Fail> {
    let clock = Moment::of(0)?;
    Ok(Books {
        endpoints: EndpointBook::new(alloc)?,
        deliveries: DeliveryBook::new(alloc),
        records: 0,
        clock,
    })
}

/// The next record of the endpoints may have this number.
fn is_next(rt: &impl Abort, book: &EndpointBook, seq: u64)
    ensures room { seq < 1_000_000 }
    ensures above { book.now.next_seq ≤ seq }
{
    assert!(rt; seq < 1_000_000 && book.next_seq() <= seq);
}

fn put(
    rt: &impl Abort,
    alloc: Global,
    book: &mut EndpointBook,
    seq: u64,
    letter: u8,
    max: u64,
    keys: Keys,
) -> Result<(), Fail> {
    let (name, max, secrets) = (name_of(letter)?, MaxLimit::of(max)?, secrets_of(keys)?);
    let target = Target::read(alloc, URL)?;
    is_next(rt, book, seq);
    assert!(rt; !book.contains(name));
    Ok(book.stage_put(seq, name, target, max, secrets)?)
}

fn give(
    rt: &impl Abort,
    book: &mut EndpointBook,
    seq: u64,
    letter: u8,
    keys: Keys,
) -> Result<(), Fail> {
    let (name, secrets) = (name_of(letter)?, secrets_of(keys)?);
    is_next(rt, book, seq);
    assert!(rt; book.contains(name));
    Ok(book.stage_secrets(seq, name, secrets)?)
}

fn enable(
    rt: &impl Abort,
    book: &mut EndpointBook,
    seq: u64,
    letter: u8,
    flag: bool,
) -> Result<(), Fail> {
    let name = name_of(letter)?;
    is_next(rt, book, seq);
    assert!(rt; book.contains(name) && book.free_flags() > 0);
    book.stage_enabled(seq, name, flag);
    Ok(())
}

fn disable(rt: &impl Abort, book: &mut EndpointBook, seq: u64, name: Name) {
    is_next(rt, book, seq);
    assert!(rt; book.contains(name) && book.free_flags() > 0);
    book.stage_gone(seq, name);
}

fn subscribe(
    rt: &impl Abort,
    book: &mut EndpointBook,
    seq: u64,
    topic: &[u8],
    letter: u8,
    flag: bool,
) -> Result<(), Fail> {
    let (topic, name) = (Name::read(topic)?, name_of(letter)?);
    is_next(rt, book, seq);
    assert!(rt; book.contains(name) && book.free_subscriptions() > 0);
    Ok(book.stage_subscribed(seq, topic, name, flag)?)
}

/// The next record of the deliveries may have this number.
fn may_follow(rt: &impl Abort, book: &DeliveryBook, seq: u64)
    ensures room { seq < 1_000_000 }
    ensures above { book.now.next_seq ≤ seq }
{
    assert!(rt; seq < 1_000_000 && book.next_seq() <= seq);
}

fn take_in(
    rt: &impl Abort,
    book: &mut DeliveryBook,
    seq: u64,
    name: Name,
    id: MsgId,
    body: Body,
    at: Moment,
) -> Result<(), AllocError> {
    may_follow(rt, book, seq);
    assert!(rt; book.find(name, &id).is_none());
    book.stage_accept(seq, name, id, body, at)
}

fn end(rt: &impl Abort, book: &mut DeliveryBook, seq: u64, delivery: u64, status: u16, at: Moment) {
    assert!(rt; seq < 1_000_000 && book.next_seq() <= seq && book.takes_outcome(delivery));
    book.stage_outcome(seq, delivery, status, at);
}

fn purge(rt: &impl Abort, book: &mut DeliveryBook, seq: u64, before: u64) -> Result<(), Fail> {
    let before = Moment::of(before)?;
    assert!(rt; seq < 1_000_000 && book.next_seq() <= seq);
    book.stage_purge(seq, before);
    Ok(())
}

fn endpoint_of(book: &DeliveryBook, delivery: u64) -> Result<Name, Fail> {
    match book.row(delivery) {
        Some(row) => Ok(row.endpoint),
        None => Err(Fail::from("there is no such delivery")),
    }
}

fn accept(
    rt: &impl Abort,
    alloc: Global,
    books: &mut Books,
    letter: u8,
    id: &[u8],
    bytes: &[u8],
    at: u64,
) -> Result<(), Fail> {
    let at = Moment::of(at)?;
    let (name, id) = (name_of(letter)?, MsgId::read(id)?);
    let body = body_of(alloc, bytes)?;
    take_in(rt, &mut books.deliveries, books.records, name, id, body, at)?;
    books.clock = books.clock.max(at);
    Ok(())
}

fn outcome(
    rt: &impl Abort,
    books: &mut Books,
    delivery: u64,
    status: u16,
    at: u64,
) -> Result<(), Fail> {
    let at = Moment::of(at)?;
    let name = endpoint_of(&books.deliveries, delivery)?;
    if status == 410 {
        disable(rt, &mut books.endpoints, books.records, name);
    }
    end(
        rt,
        &mut books.deliveries,
        books.records,
        delivery,
        status,
        at,
    );
    books.clock = books.clock.max(at);
    Ok(())
}

fn enter(rt: &impl Abort, alloc: Global, books: &mut Books, entry: Entry) -> Result<(), Fail> {
    let seq = books.records;
    match entry {
        Entry::Put(letter, max, keys) => {
            put(rt, alloc, &mut books.endpoints, seq, letter, max, keys)
        }
        Entry::Give(letter, keys) => give(rt, &mut books.endpoints, seq, letter, keys),
        Entry::Enable(letter, flag) => enable(rt, &mut books.endpoints, seq, letter, flag),
        Entry::Accept(letter, id, bytes, at) => accept(rt, alloc, books, letter, id, bytes, at),
        Entry::Outcome(delivery, _, status, at) => outcome(rt, books, delivery, status, at),
        Entry::Subscribe(topic, letter, flag) => {
            subscribe(rt, &mut books.endpoints, seq, topic, letter, flag)
        }
        Entry::Purge(before) => purge(rt, &mut books.deliveries, seq, before),
    }
}

fn settle(rt: &impl Abort, books: &mut Books) {
    let records = books.records;
    assert!(rt; books.endpoints.settled_seq() <= records);
    assert!(rt; books.deliveries.settled_seq() <= records);
    books.endpoints.settle_to(records);
    books.deliveries.settle_to(records);
}

/// Takes in one more record, and settles it. The record is to be legal.
pub(crate) fn stage(
    rt: &impl Abort,
    alloc: Global,
    books: &mut Books,
    entry: Entry,
) -> Result<(), Fail> {
    enter(rt, alloc, books, entry)?;
    assert!(rt; books.records < 1_000_000);
    books.records += 1;
    settle(rt, books);
    Ok(())
}
