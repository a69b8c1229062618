//! Steps of an endpoint book, and what is then told of it.
ghost use Rattle.std.specs.Prelude.{◌≡◌, [], IsTrue};
ghost use Rattle.endpoint_book.specs.Topics.{has_place};

use crate::cases::{done, holds, max_limit, name, secrets, target};
use endpoint_book::EndpointBook;
use relay_types::{Name, Secret, Secrets};
use std::alloc::{AllocError, Global};
use std::process::Abort;

/// An endpoint: its URL, its maximum, and a byte for each of its secrets, which is 24 times that byte.
#[derive(Clone, Copy)]
pub(crate) struct Put {
    pub(crate) url: &'static [u8],
    pub(crate) max: u64,
    pub(crate) secrets: &'static [u8],
}

/// A record that is staged or settled, or what is expected then.
#[derive(Clone, Copy)]
pub(crate) enum Step {
    /// A Put of this sequence number and name.
    Put(u64, &'static [u8], Put),
    Give(u64, &'static [u8], &'static [u8]),
    Enable(u64, &'static [u8], bool),
    Gone(u64, &'static [u8]),
    Settle(u64),
    /// The first step alone: a Put as its records left it, and whether it is enabled.
    Restore(u64, &'static [u8], Put, bool),
    /// As many flags, each the other of the one before, from this sequence number up to that one.
    Flags(u64, u64, &'static [u8]),
    IsEnabled(&'static [u8], bool),
    /// Whether the settled records show the endpoint, and then whether it is enabled and how many secrets it has.
    Shows(&'static [u8], Option<(bool, usize)>),
    /// The settled records show the endpoint with this target and this maximum.
    IsPutAs(&'static [u8], &'static [u8], u32),
    /// How many endpoints there are, and of how many the Put is settled.
    Len(usize, usize),
    Next(u64),
    SettledSeq(u64),
    Free(usize),
    Contains(&'static [u8], bool),
    HasSecrets(&'static [u8], Option<&'static [u8]>),
    HasMax(&'static [u8], Option<u32>),
    HasTarget(&'static [u8], Option<&'static [u8]>),
    /// The names of all endpoints, each one letter.
    Names(&'static [u8]),
    /// A topic of the endpoint of this name, by the record of this sequence number.
    Subscribe(u64, &'static [u8], &'static [u8], bool),
    /// The same as its records left it.
    RestoreTopic(&'static [u8], &'static [u8], bool),
    /// As many other topics of the endpoint, from this sequence number up to that one.
    Topics(u64, u64, &'static [u8]),
    /// Whether the endpoint is subscribed to the topic, if a record named both.
    HasTopic(&'static [u8], &'static [u8], Option<bool>),
    /// The names of the topic's subscribers, each one letter.
    Subscribers(&'static [u8], &'static [u8]),
    /// How many more pairs of a topic and an endpoint may be named.
    FreeTopics(usize),
}

/// The keys of the secrets that the tables name.
static KEYS: [[u8; 24]; 8] = [
    [0; 24], [1; 24], [2; 24], [3; 24], [4; 24], [5; 24], [6; 24], [7; 24],
];

fn secret(rt: &impl Abort, byte: u8) -> Secret {
    let key = KEYS.get(usize::from(byte)).expect(rt, "a key");
    Secret::of(key).expect(rt, "a secret")
}

/// The secrets of these bytes, of which there are one to three.
fn listed(rt: &impl Abort, bytes: &[u8]) -> Secrets {
    let mut all = [secret(rt, 0); 3];
    for (slot, byte) in all.iter_mut().zip(bytes) {
        *slot = secret(rt, *byte);
    }
    secrets(rt, &all[..bytes.len().min(3)])
}

fn stage_put(
    rt: &impl Abort,
    alloc: Global,
    book: &mut EndpointBook,
    seq: u64,
    name: Name,
    put: Put,
) {
    let target = target(rt, alloc, put.url);
    let max = max_limit(rt, put.max);
    let list = listed(rt, put.secrets);
    assert!(rt; seq < 1_000_000 && book.next_seq() <= seq && !book.contains(name));
    done(rt, book.stage_put(seq, name, target, max, list));
}

fn restore(
    rt: &impl Abort,
    alloc: Global,
    book: &mut EndpointBook,
    seq: u64,
    name: Name,
    put: Put,
    flag: bool,
)
    requires settled { book.old.changes ≡ [] }
{
    let target = target(rt, alloc, put.url);
    let max = max_limit(rt, put.max);
    let list = listed(rt, put.secrets);
    assert!(rt; seq < 1_000_000 && book.next_seq() <= seq && !book.contains(name));
    done(rt, book.restore(seq, name, target, max, list, flag));
}

/// A new book, with the endpoint that the first step restores.
fn begun(rt: &impl Abort, alloc: Global, first: Option<&Step>) -> EndpointBook {
    let mut book = match EndpointBook::new(alloc) {
        Ok(book) => book,
        Err(AllocError) => panic!(rt; "no memory"),
    };
    if let Some(Step::Restore(seq, text, put, flag)) = first {
        restore(rt, alloc, &mut book, *seq, name(rt, text), *put, *flag);
    }
    book
}

fn give(rt: &impl Abort, book: &mut EndpointBook, seq: u64, name: Name, list: Secrets) {
    assert!(rt; seq < 1_000_000 && book.next_seq() <= seq && book.contains(name));
    done(rt, book.stage_secrets(seq, name, list));
}

fn enable(rt: &impl Abort, book: &mut EndpointBook, seq: u64, name: Name, flag: bool) {
    assert!(rt; seq < 1_000_000 && book.next_seq() <= seq);
    assert!(rt; book.contains(name) && book.free_flags() > 0);
    book.stage_enabled(seq, name, flag);
}

fn gone(rt: &impl Abort, book: &mut EndpointBook, seq: u64, name: Name) {
    assert!(rt; seq < 1_000_000 && book.next_seq() <= seq);
    assert!(rt; book.contains(name) && book.free_flags() > 0);
    book.stage_gone(seq, name);
}

fn settle(rt: &impl Abort, book: &mut EndpointBook, place: u64) {
    assert!(rt; book.settled_seq() <= place);
    book.settle_to(place);
}

fn flags(rt: &impl Abort, book: &mut EndpointBook, from: u64, end: u64, name: Name) {
    for seq in from..end {
        enable(rt, book, seq, name, seq % 2 == 0);
    }
}

/// Whether the topic and the endpoint were named, or there is room for another pair.
fn may_subscribe(book: &EndpointBook, topic: Name, name: Name) -> bool
    ensures { IsTrue result → IsTrue (has_place book.now.topics topic name) }
{
    book.is_named(topic, name) || book.free_subscriptions() > 0
}

fn subscribe(
    rt: &impl Abort,
    book: &mut EndpointBook,
    seq: u64,
    topic: Name,
    name: Name,
    flag: bool,
) {
    assert!(rt; seq < 1_000_000 && book.next_seq() <= seq);
    assert!(rt; may_subscribe(book, topic, name));
    done(rt, book.stage_subscribed(seq, topic, name, flag));
}

fn restore_topic(rt: &impl Abort, book: &mut EndpointBook, topic: Name, name: Name, flag: bool) {
    assert!(rt; may_subscribe(book, topic, name));
    done(rt, book.restore_subscribed(topic, name, flag));
}

/// The name of a topic: three letters, by the number.
fn topic_of(rt: &impl Abort, number: u64) -> Name {
    let high = b'a' + (number / 256 % 16) as u8;
    let middle = b'a' + (number / 16 % 16) as u8;
    let low = b'a' + (number % 16) as u8;
    name(rt, &[high, middle, low])
}

fn subscribe_each(rt: &impl Abort, book: &mut EndpointBook, from: u64, end: u64, name: Name) {
    for seq in from..end {
        subscribe(rt, book, seq, topic_of(rt, seq), name, true);
    }
}

fn has_topic(book: &EndpointBook, topic: Name, name: Name, wanted: Option<bool>) -> bool {
    book.is_named(topic, name) == wanted.is_some()
        && book.is_subscribed(topic, name) == wanted.unwrap_or(false)
}

fn are_subscribed(book: &EndpointBook, topic: Name, letters: &[u8]) -> bool {
    let mut found = book.subscribers(topic);
    let mut all = true;
    for letter in letters {
        all = match found.next() {
            Some(name) => all && name.as_bytes() == [*letter].as_slice(),
            None => false,
        };
    }
    all && found.next().is_none()
}

fn shows(book: &EndpointBook, name: Name, wanted: Option<(bool, usize)>) -> bool {
    match (book.settled(name), wanted) {
        (Some(view), Some((enabled, count))) => view.enabled == enabled && view.secrets == count,
        (None, None) => true,
        _ => false,
    }
}

fn is_put_as(book: &EndpointBook, name: Name, url: &[u8], max: u32) -> bool {
    match book.settled(name) {
        Some(view) => {
            view.name.is(name) && view.target.as_bytes() == url && view.max.get() == max
        }
        None => false,
    }
}

fn has_secrets(rt: &impl Abort, book: &EndpointBook, name: Name, wanted: Option<&[u8]>) -> bool {
    match (book.secrets(name), wanted) {
        (Some(found), Some(bytes)) => found.is(&listed(rt, bytes)),
        (None, None) => true,
        _ => false,
    }
}

fn has_max(book: &EndpointBook, name: Name, wanted: Option<u32>) -> bool {
    match (book.max_limit(name), wanted) {
        (Some(max), Some(limit)) => max.get() == limit,
        (None, None) => true,
        _ => false,
    }
}

fn has_target(book: &EndpointBook, name: Name, wanted: Option<&[u8]>) -> bool {
    match (book.target(name), wanted) {
        (Some(target), Some(url)) => target.as_bytes() == url,
        (None, None) => true,
        _ => false,
    }
}

fn are_named(book: &EndpointBook, letters: &[u8]) -> bool {
    let names = book.names();
    let mut all = names.len() == letters.len();
    for (name, letter) in names.iter().zip(letters) {
        all = all && name.as_bytes() == [*letter].as_slice();
    }
    all
}

fn stage(rt: &impl Abort, alloc: Global, book: &mut EndpointBook, step: Step) {
    match step {
        Step::Put(seq, text, put) => stage_put(rt, alloc, book, seq, name(rt, text), put),
        Step::Give(seq, text, bytes) => give(rt, book, seq, name(rt, text), listed(rt, bytes)),
        Step::Enable(seq, text, flag) => enable(rt, book, seq, name(rt, text), flag),
        Step::Gone(seq, text) => gone(rt, book, seq, name(rt, text)),
        Step::Settle(place) => settle(rt, book, place),
        Step::Flags(from, end, text) => flags(rt, book, from, end, name(rt, text)),
        Step::Subscribe(seq, topic, text, flag) => {
            subscribe(rt, book, seq, name(rt, topic), name(rt, text), flag)
        }
        Step::RestoreTopic(topic, text, flag) => {
            restore_topic(rt, book, name(rt, topic), name(rt, text), flag)
        }
        Step::Topics(from, end, text) => subscribe_each(rt, book, from, end, name(rt, text)),
        _ => {}
    }
}

/// Whether what is expected is so. What is staged or settled is.
fn is_so(rt: &impl Abort, book: &EndpointBook, step: Step) -> bool {
    match step {
        Step::IsEnabled(text, flag) => book.is_enabled(name(rt, text)) == flag,
        Step::Shows(text, wanted) => shows(book, name(rt, text), wanted),
        Step::IsPutAs(text, url, max) => is_put_as(book, name(rt, text), url, max),
        Step::Len(all, settled) => book.len() == all && book.settled_len() == settled,
        Step::Next(seq) => book.next_seq() == seq,
        Step::SettledSeq(seq) => book.settled_seq() == seq,
        Step::Free(flags) => book.free_flags() == flags,
        Step::Contains(text, wanted) => book.contains(name(rt, text)) == wanted,
        Step::HasSecrets(text, wanted) => has_secrets(rt, book, name(rt, text), wanted),
        Step::HasMax(text, wanted) => has_max(book, name(rt, text), wanted),
        Step::HasTarget(text, wanted) => has_target(book, name(rt, text), wanted),
        Step::Names(letters) => are_named(book, letters),
        Step::HasTopic(topic, text, wanted) => {
            has_topic(book, name(rt, topic), name(rt, text), wanted)
        }
        Step::Subscribers(topic, letters) => are_subscribed(book, name(rt, topic), letters),
        Step::FreeTopics(count) => book.free_subscriptions() == count,
        _ => true,
    }
}

/// Takes the steps in turn on a new book.
pub(crate) fn walk(rt: &impl Abort, alloc: Global, steps: &[Step]) {
    let mut book = begun(rt, alloc, steps.first());
    for (place, step) in steps.iter().enumerate() {
        stage(rt, alloc, &mut book, *step);
        holds(rt, is_so(rt, &book, *step), place);
    }
}
