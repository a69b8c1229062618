//! Steps of a vault, and what is then told of it.

use crate::database::{Count, count_all, holds};
use crate::entries::{Entry, Keys, name_of};
use crate::vaults::{
    Each, Moments, Span, Spool, Told, enter_each, id_of, numbered, put_all, same_told, take_next,
    take_together, take_turn,
};
use delivery_book::DeliveryBook;
use endpoint_book::EndpointBook;
use relay_types::{MsgId, Name, State};
use spool::{Books, LoadFault};
use sqlite::{Alter, Connection};
use std::alloc::Global;
use std::process::Abort;
use std::test::Fail;

/// What is committed, or what is expected then.
#[derive(Clone, Copy)]
pub(crate) enum Step {
    /// A batch of this mark and number, of this entry alone, and what it answers.
    Turn(u64, u32, Entry, Told),
    /// The same, as the next of the vault's own mark.
    Enter(Entry, Told),
    /// A batch of these entries, as the next of the vault's own mark.
    Together(&'static [Entry], Told),
    /// Endpoints `e0`, `e1` and so on with these secrets, until one is not written, and what that answers.
    Puts(u32, Keys, Told),
    /// Events of `a` with the ids `msg_0`, `msg_1` and so on, which are written.
    Events(Span, Moments),
    /// A first outcome of each event with these numbers, which are written.
    Ends(Span, u16, Moments),
    /// The endpoint `a` is subscribed to topics `t0`, `t1` and so on, which is written.
    Topics(Span),
    Next(u64),
    IsClosed(bool),
    /// What the books that are loaded tell.
    Shows(&'static [Look]),
    IsNotLoaded(Fault),
}

/// Why books are not loaded.
#[derive(Clone, Copy)]
pub(crate) enum Fault {
    Closed,
    Store,
}

/// What books tell.
#[derive(Clone, Copy)]
pub(crate) enum Look {
    /// How many records there are, the clock, and how many endpoints.
    Holds(u64, u64, usize),
    /// The attempts at the event with this number, whether it is pending, when it is due and its last status.
    Event(u64, u64, bool, Option<u64>, Option<u16>),
    /// There is no event of this number.
    NoEvent(u64),
    IsEnabled(u8, bool),
    /// The number of the endpoint's event with this id.
    Find(u8, &'static [u8], Option<u64>),
    /// How many settled events are pending, and how many delivered.
    Settled(u64, u64),
    /// How many events are pending.
    Pending(u64),
    /// Event `msg_n` has the number n + 1 and one attempt, for each n below this.
    Attempted(u64),
    /// Whether the endpoint is subscribed to the topic, if a record named both.
    HasTopic(&'static [u8], u8, Option<bool>),
    /// The names of the topic's subscribers, each one letter.
    Subscribers(&'static [u8], &'static [u8]),
    /// How many more pairs of a topic and an endpoint may be named.
    FreeTopics(usize),
    /// The endpoint `a` is subscribed to topic `tn`, for each n below this.
    Subscribed(u64),
}

/// Steps on a new vault, and what its tables hold then. A statement fails that takes more steps than the limit.
pub(crate) struct Story {
    pub limit: Option<u64>,
    pub steps: &'static [Step],
    pub counts: &'static [Count],
}

fn tells(book: &DeliveryBook, step: Look) -> bool {
    let Look::Event(delivery, attempts, is_pending, due, last_status) = step else {
        return false;
    };
    match book.settled(delivery) {
        Some(row) => {
            row.attempts == attempts
                && matches!(row.state, State::Pending) == is_pending
                && row.due == due
                && row.last_status == last_status
        }
        None => false,
    }
}

fn is_attempted(alloc: Global, book: &DeliveryBook, number: u64) -> Result<bool, Fail> {
    let name = name_of(b'a')?;
    let id = id_of(alloc, number)?;
    let delivery = number.saturating_add(1);
    let is_found = book.find(name, &id) == Some(delivery);
    match book.settled(delivery) {
        Some(row) => Ok(is_found && row.attempts == 1),
        None => Ok(false),
    }
}

fn are_attempted(alloc: Global, book: &DeliveryBook, count: u64) -> Result<bool, Fail> {
    let mut is_so = true;
    for number in 0..count {
        is_so = is_attempted(alloc, book, number)? && is_so;
    }
    Ok(is_so)
}

fn is_enabled(book: &EndpointBook, letter: u8, flag: bool) -> Result<bool, Fail> {
    Ok(book.is_enabled(name_of(letter)?) == flag)
}

fn has_topic(
    book: &EndpointBook,
    topic: &[u8],
    letter: u8,
    wanted: Option<bool>,
) -> Result<bool, Fail> {
    let (topic, name) = (Name::read(topic)?, name_of(letter)?);
    let is_named = book.is_named(topic, name) == wanted.is_some();
    Ok(is_named && book.is_subscribed(topic, name) == wanted.unwrap_or(false))
}

fn are_subscribers(book: &EndpointBook, topic: &[u8], letters: &[u8]) -> Result<bool, Fail> {
    let topic = Name::read(topic)?;
    let mut found = book.subscribers(topic);
    let mut all = true;
    for letter in letters {
        all = match found.next() {
            Some(name) => all && name.as_bytes() == [*letter].as_slice(),
            None => false,
        };
    }
    Ok(all && found.next().is_none())
}

fn are_subscribed(alloc: Global, book: &EndpointBook, count: u64) -> Result<bool, Fail> {
    let name = name_of(b'a')?;
    let mut is_so = true;
    for number in 0..count {
        is_so = book.is_subscribed(numbered(alloc, 't', number)?, name) && is_so;
    }
    Ok(is_so)
}

fn finds(book: &DeliveryBook, letter: u8, id: &[u8], wanted: Option<u64>) -> Result<bool, Fail> {
    let (name, id) = (name_of(letter)?, MsgId::read(id)?);
    Ok(book.find(name, &id) == wanted && book.find_settled(name, &id) == wanted)
}

fn holds_so(books: &Books, records: u64, clock: u64, len: usize) -> bool {
    books.records == records
        && books.clock.seconds() == clock
        && books.endpoints.settled_len() == len
}

fn has_settled(book: &DeliveryBook, pending: u64, delivered: u64) -> bool {
    let counts = book.settled_counts_all();
    counts.pending == pending && counts.delivered == delivered
}

fn sees(alloc: Global, books: &Books, look: Look) -> Result<bool, Fail> {
    match look {
        Look::Holds(records, clock, len) => Ok(holds_so(books, records, clock, len)),
        Look::Event(_, _, _, _, _) => Ok(tells(&books.deliveries, look)),
        Look::NoEvent(delivery) => Ok(books.deliveries.settled(delivery).is_none()),
        Look::Find(letter, id, wanted) => finds(&books.deliveries, letter, id, wanted),
        Look::IsEnabled(letter, flag) => is_enabled(&books.endpoints, letter, flag),
        Look::Settled(pending, delivered) => {
            Ok(has_settled(&books.deliveries, pending, delivered))
        }
        Look::Pending(count) => Ok(books.deliveries.pending_all() == count),
        Look::Attempted(count) => are_attempted(alloc, &books.deliveries, count),
        Look::HasTopic(topic, letter, wanted) => {
            has_topic(&books.endpoints, topic, letter, wanted)
        }
        Look::Subscribers(topic, letters) => are_subscribers(&books.endpoints, topic, letters),
        Look::FreeTopics(count) => Ok(books.endpoints.free_subscriptions() == count),
        Look::Subscribed(count) => are_subscribed(alloc, &books.endpoints, count),
    }
}

fn sees_all(rt: &impl Abort, alloc: Global, books: &Books, looks: &[Look]) -> Result<(), Fail> {
    for (place, look) in looks.iter().enumerate() {
        holds(rt, sees(alloc, books, *look)?, place);
    }
    Ok(())
}

fn shows<S: Alter>(
    rt: &impl Abort,
    alloc: Global,
    spool: &mut Spool<S>,
    looks: &[Look],
) -> Result<(), Fail> {
    let books = spool.books(alloc)?;
    sees_all(rt, alloc, &books, looks)
}

fn is_ok(told: Result<(), Fail>) -> Result<bool, Fail> {
    told?;
    Ok(true)
}

fn is_fault(found: LoadFault, fault: Fault) -> bool {
    match fault {
        Fault::Closed => matches!(found, LoadFault::Closed),
        Fault::Store => matches!(found, LoadFault::Store(_)),
    }
}

fn is_not_loaded<S: Alter>(alloc: Global, spool: &mut Spool<S>, fault: Fault) -> bool {
    match spool.load(alloc) {
        Ok(_) => false,
        Err(found) => is_fault(found, fault),
    }
}

fn is_told(told: Result<Told, Fail>, wanted: Told) -> Result<bool, Fail> {
    Ok(same_told(told?, wanted))
}

fn take<S: Alter>(
    rt: &impl Abort,
    alloc: Global,
    spool: &mut Spool<S>,
    step: Step,
) -> Result<bool, Fail> {
    match step {
        Step::Turn(mark, from, entry, wanted) => {
            is_told(take_turn(alloc, spool, mark, from, entry), wanted)
        }
        Step::Enter(entry, wanted) => is_told(take_next(alloc, spool, entry), wanted),
        Step::Together(entries, wanted) => {
            is_told(take_together(rt, alloc, spool, entries), wanted)
        }
        Step::Puts(count, keys, wanted) => is_told(put_all(alloc, spool, count, keys), wanted),
        Step::Events(span, moments) => enter_each(rt, alloc, spool, span, Each::Event(moments)),
        Step::Ends(span, status, moments) => {
            enter_each(rt, alloc, spool, span, Each::End(status, moments))
        }
        Step::Topics(span) => enter_each(rt, alloc, spool, span, Each::Topic),
        Step::Next(number) => Ok(spool.vault.next() == number),
        Step::IsClosed(flag) => Ok(spool.vault.is_closed() == flag),
        Step::Shows(looks) => is_ok(shows(rt, alloc, spool, looks)),
        Step::IsNotLoaded(fault) => Ok(is_not_loaded(alloc, spool, fault)),
    }
}

fn take_all<S: Alter>(
    rt: &impl Abort,
    alloc: Global,
    spool: &mut Spool<S>,
    steps: &[Step],
) -> Result<(), Fail> {
    for (place, step) in steps.iter().enumerate() {
        holds(rt, take(rt, alloc, spool, *step)?, place);
    }
    Ok(())
}

/// Takes the steps in turn on a new vault.
pub(crate) fn walk(rt: &impl Abort, alloc: Global, story: &Story) -> Result<(), Fail> {
    walk_on(rt, alloc, Spool::new(rt, alloc, story.limit)?, story)
}

/// Takes the steps in turn on this vault.
pub(crate) fn walk_on<S: Alter + Drop>(
    rt: &impl Abort,
    alloc: Global,
    spool: Spool<S>,
    story: &Story,
) -> Result<(), Fail> {
    let (told, conn) = walk_through(rt, alloc, spool, story.steps);
    let mut conn = conn;
    conn.set_step_limit(None);
    match told {
        Ok(()) => count_all(rt, &mut conn, story.counts),
        told => told,
    }
}

/// Takes the steps in turn on this vault, and gives its tables back.
pub(crate) fn walk_through<S: Alter>(
    rt: &impl Abort,
    alloc: Global,
    spool: Spool<S>,
    steps: &[Step],
) -> (Result<(), Fail>, Connection<S>) {
    let mut spool = spool;
    let told = take_all(rt, alloc, &mut spool, steps);
    (told, spool.release())
}
