//! Records as tables tell of them.

use relay_types::{
    Body, MaxLimit, Moment, MsgId, Name, ReadFault, Record, Secret, Secrets, Target,
};
use std::alloc::Global;
use std::sync::Arc;
use std::test::Fail;

pub(crate) const URL: &[u8] = b"http://127.0.0.1:9000/hook";

/// Secrets of an endpoint.
#[derive(Clone, Copy)]
pub(crate) enum Keys {
    /// As they are written, the newest first.
    One(&'static [u8]),
    Two(&'static [u8], &'static [u8]),
    /// So many of these, each of 24 bytes that are all the same.
    Of([u8; 4], usize),
}

/// A record. An endpoint's name has one letter.
#[derive(Clone, Copy)]
pub(crate) enum Entry {
    /// An endpoint with this maximum.
    Put(u8, u64, Keys),
    Give(u8, Keys),
    Enable(u8, bool),
    /// An event of the endpoint, with this id, body and moment.
    Accept(u8, &'static [u8], &'static [u8], u64),
    /// The event's number, the attempt's, the status and the moment.
    Outcome(u64, u64, u16, u64),
    /// A topic of the endpoint.
    Subscribe(&'static [u8], u8, bool),
    /// Of this moment.
    Purge(u64),
}

pub(crate) fn name_of(letter: u8) -> Result<Name, Fail> {
    Ok(Name::read(&[letter])?)
}

fn secret(byte: u8) -> Result<Secret, Fail> {
    Ok(Secret::of(&[byte; 24])?)
}

fn first_of(all: &[Secret], count: usize) -> Result<Secrets, ReadFault> {
    Secrets::of(all.get(..count).unwrap_or(all))
}

fn secrets(bytes: [u8; 4], count: usize) -> Result<Secrets, Fail> {
    let [one, two, three, four] = bytes;
    let (one, two) = (secret(one)?, secret(two)?);
    let (three, four) = (secret(three)?, secret(four)?);
    Ok(first_of(&[one, two, three, four], count)?)
}

pub(crate) fn secrets_of(keys: Keys) -> Result<Secrets, Fail> {
    match keys {
        Keys::One(key) => Ok(Secrets::of(&[Secret::read(key)?])?),
        Keys::Two(newest, older) => {
            Ok(Secrets::of(&[Secret::read(newest)?, Secret::read(older)?])?)
        }
        Keys::Of(bytes, count) => secrets(bytes, count),
    }
}

pub(crate) fn body_of(alloc: Global, bytes: &[u8]) -> Result<Body, Fail> {
    let bytes = Vec::from_slice(alloc, bytes)?;
    Ok(Body::of(Arc::new(alloc, bytes)?)?)
}

pub(crate) fn put(alloc: Global, name: Name, max: u64, secrets: Secrets) -> Result<Record, Fail> {
    let max = MaxLimit::of(max)?;
    let target = Target::read(alloc, URL)?;
    Ok(Record::Put {
        name,
        target,
        max,
        secrets,
    })
}

pub(crate) fn accept(
    alloc: Global,
    name: Name,
    id: MsgId,
    bytes: &[u8],
    at: u64,
) -> Result<Record, Fail> {
    let at = Moment::of(at)?;
    let body = body_of(alloc, bytes)?;
    Ok(Record::Accept { name, id, body, at })
}

pub(crate) fn outcome(delivery: u64, attempt: u64, status: u16, at: u64) -> Result<Record, Fail> {
    let at = Moment::of(at)?;
    Ok(Record::Outcome {
        delivery,
        attempt,
        status,
        at,
    })
}

fn endpoint(alloc: Global, letter: u8, max: u64, keys: Keys) -> Result<Record, Fail> {
    put(alloc, name_of(letter)?, max, secrets_of(keys)?)
}

fn event(alloc: Global, letter: u8, id: &[u8], bytes: &[u8], at: u64) -> Result<Record, Fail> {
    accept(alloc, name_of(letter)?, MsgId::read(id)?, bytes, at)
}

fn give(letter: u8, keys: Keys) -> Result<Record, Fail> {
    let (name, secrets) = (name_of(letter)?, secrets_of(keys)?);
    Ok(Record::Secrets { name, secrets })
}

fn enable(letter: u8, flag: bool) -> Result<Record, Fail> {
    let name = name_of(letter)?;
    Ok(Record::Enabled { name, flag })
}

pub(crate) fn subscribed(topic: Name, name: Name, flag: bool) -> Record {
    Record::Subscribed { topic, name, flag }
}

fn subscribe(topic: &[u8], letter: u8, flag: bool) -> Result<Record, Fail> {
    Ok(subscribed(Name::read(topic)?, name_of(letter)?, flag))
}

fn purge(before: u64) -> Result<Record, Fail> {
    let before = Moment::of(before)?;
    Ok(Record::Purge { before })
}

pub(crate) fn record_of(alloc: Global, entry: Entry) -> Result<Record, Fail> {
    match entry {
        Entry::Put(letter, max, keys) => endpoint(alloc, letter, max, keys),
        Entry::Give(letter, keys) => give(letter, keys),
        Entry::Enable(letter, flag) => enable(letter, flag),
        Entry::Accept(letter, id, bytes, at) => event(alloc, letter, id, bytes, at),
        Entry::Outcome(delivery, attempt, status, at) => outcome(delivery, attempt, status, at),
        Entry::Subscribe(topic, letter, flag) => subscribe(topic, letter, flag),
        Entry::Purge(before) => purge(before),
    }
}
