//! Lists of secrets, and records and steps: how they are shared and compared.

use crate::cases::{body, holds, max_limit, moment, msg_id, name, secret, target};
use relay_types::{MAX_STEP_RECORDS, Name, ReadFault, Record, Secret, Secrets, Step};
use std::alloc::Global;
use std::process::Abort;

// Each of these is the base64 of 24 bytes.
static KEYS: [&[u8]; 5] = [
    b"MDEyMzQ1Njc4OTAxMjM0NTY3ODkwMTIz",
    b"MfKQ9r8GKYqrTwjUPD8ILPZIo2LaLaSw",
    b"AAAAAAAAAAAAAAAAAAAAAAAAAAAAAAAA",
    b"////////////////////////////////",
    b"MDEyMzQ1Njc4OTAxMjM0NTY3ODkwMTIz",
];

/// The secrets at these places of the keys.
fn listed(rt: &impl Abort, keys: &[usize]) -> Result<Secrets, ReadFault> {
    let mut all = [secret(rt, KEYS[0]); 5];
    for (slot, key) in all.iter_mut().zip(keys) {
        *slot = secret(rt, KEYS[*key % 5]);
    }
    Secrets::of(&all[..keys.len().min(5)])
}

/// A list of secrets by their places among the keys.
#[derive(Clone, Copy)]
enum List {
    Refused(&'static [usize]),
    /// The list has these secrets and no others.
    Has(&'static [usize]),
    /// Whether the lists are the same.
    Same(&'static [usize], &'static [usize], bool),
}

static LISTS: [List; 9] = [
    List::Refused(&[]),
    List::Refused(&[0, 1, 2, 3, 4]),
    List::Has(&[0]),
    List::Has(&[0, 1]),
    List::Has(&[0, 1, 2]),
    List::Has(&[0, 1, 2, 3]),
    List::Same(&[0, 1], &[0, 1], true),
    List::Same(&[0, 1], &[1, 0], false),
    List::Same(&[0, 1], &[0], false),
];

fn secrets_of(rt: &impl Abort, keys: &[usize]) -> Secrets {
    listed(rt, keys).expect(rt, "secrets")
}

fn is_secret(found: Option<Secret>, wanted: Option<Secret>) -> bool {
    found == wanted
}

fn key_at(rt: &impl Abort, keys: &[usize], place: usize) -> Option<Secret> {
    match keys.get(place) {
        Some(key) => Some(secret(rt, KEYS[*key % 5])),
        None => None,
    }
}

fn has(rt: &impl Abort, secrets: &Secrets, keys: &[usize]) -> bool {
    let mut all = secrets.count() == keys.len();
    for place in 0..6 {
        all = all && is_secret(secrets.get(place), key_at(rt, keys, place));
    }
    all
}

fn is_so(rt: &impl Abort, case: List) -> bool {
    match case {
        List::Refused(keys) => listed(rt, keys).err() == Some(ReadFault::BadSecret),
        List::Has(keys) => has(rt, &secrets_of(rt, keys), keys),
        List::Same(one, other, same) => secrets_of(rt, one).is(&secrets_of(rt, other)) == same,
    }
}

#[test]
fn lists_of_secrets(rt: HostRuntime) {
    for (place, case) in LISTS.iter().enumerate() {
        holds(&rt, is_so(&rt, *case), place);
    }
}

/// A record of this kind, and what of it a second holder sees.
#[derive(Clone, Copy)]
enum Kind {
    Put(u64),
    /// Secrets of these keys.
    Secrets(&'static [usize]),
    Enabled(bool),
    /// An event at this moment with this body.
    Accept(u64, &'static [u8]),
    Outcome(u64, u64, u16),
    /// This topic of the endpoint of this name.
    Subscribed(&'static [u8], &'static [u8], bool),
    /// The moment before which what is done with goes.
    Purge(u64),
}

// Records of each kind, no two of which are the same.
static KINDS: [Kind; 13] = [
    Kind::Put(20),
    Kind::Secrets(&[0]),
    Kind::Secrets(&[1, 1]),
    Kind::Enabled(true),
    Kind::Enabled(false),
    Kind::Accept(1000, &[7, 7]),
    Kind::Outcome(8, 1, 204),
    Kind::Subscribed(b"t", b"a", true),
    Kind::Subscribed(b"t", b"a", false),
    Kind::Subscribed(b"u", b"a", true),
    Kind::Subscribed(b"a", b"t", true),
    Kind::Purge(0),
    Kind::Purge(1_099_511_627_776),
];

fn subscribed(rt: &impl Abort, topic: &[u8], text: &[u8], flag: bool) -> Record {
    Record::Subscribed {
        topic: name(rt, topic),
        name: name(rt, text),
        flag,
    }
}

fn record(rt: &impl Abort, alloc: Global, kind: Kind) -> Record {
    let name = name(rt, b"a");
    match kind {
        Kind::Put(max) => Record::Put {
            name,
            target: target(rt, alloc, b"http://h/"),
            max: max_limit(rt, max),
            secrets: secrets_of(rt, &[0]),
        },
        Kind::Secrets(keys) => Record::Secrets {
            name,
            secrets: secrets_of(rt, keys),
        },
        Kind::Enabled(flag) => Record::Enabled { name, flag },
        Kind::Accept(at, text) => Record::Accept {
            name,
            id: msg_id(rt, b"msg_1"),
            body: body(rt, alloc, text),
            at: moment(rt, at),
        },
        Kind::Outcome(delivery, attempt, status) => Record::Outcome {
            delivery,
            attempt,
            status,
            at: moment(rt, 1000),
        },
        Kind::Subscribed(topic, text, flag) => subscribed(rt, topic, text, flag),
        Kind::Purge(before) => Record::Purge {
            before: moment(rt, before),
        },
    }
}

fn is_of(rt: &impl Abort, record: &Record, kind: Kind) -> bool {
    match (record, kind) {
        (Record::Put { max, .. }, Kind::Put(wanted)) => u64::from(max.get()) == wanted,
        (Record::Secrets { secrets, .. }, Kind::Secrets(keys)) => has(rt, secrets, keys),
        (Record::Enabled { flag, .. }, Kind::Enabled(wanted)) => *flag == wanted,
        (Record::Accept { body, at, .. }, Kind::Accept(moment, text)) => {
            at.seconds() == moment && body.as_bytes() == text
        }
        (
            Record::Outcome {
                delivery,
                attempt,
                status,
                ..
            },
            Kind::Outcome(number, count, answer),
        ) => *delivery == number && *attempt == count && *status == answer,
        (Record::Subscribed { topic, name, flag }, Kind::Subscribed(of, text, wanted)) => {
            topic.as_bytes() == of && name.as_bytes() == text && *flag == wanted
        }
        (Record::Purge { before }, Kind::Purge(moment)) => before.seconds() == moment,
        _ => false,
    }
}

fn shared(rt: &impl Abort, record: &Record) -> Step {
    Step::of(record.share().expect(rt, "memory"))
}

/// Whether the step has one record, which shows what it is of.
fn has_one(rt: &impl Abort, step: &Step, kind: Kind) -> bool {
    match step.records().first() {
        Some(entry) => step.records().len() == 1 && is_of(rt, entry, kind),
        None => false,
    }
}

/// Whether the record, its step and a second holder of the step show what the record is of.
fn are_of(rt: &impl Abort, record: &Record, step: &Step, kind: Kind) -> bool {
    let second = step.share().expect(rt, "memory");
    is_of(rt, record, kind) && has_one(rt, step, kind) && has_one(rt, &second, kind)
}

fn show(rt: &impl Abort, record: &Record, kind: Kind, place: usize) {
    let step = shared(rt, record);
    holds(rt, are_of(rt, record, &step, kind), place);
}

#[test]
fn records_and_steps_are_shared(rt: HostRuntime) {
    for (place, kind) in KINDS.iter().enumerate() {
        show(&rt, &record(&rt, rt.alloc(), *kind), *kind, place);
    }
}

/// Whether two records and their steps are the same.
fn compare(rt: &impl Abort, one: &Record, other: &Record, same: bool, place: usize) {
    holds(rt, one.is(other) == same, place);
    holds(rt, shared(rt, one).is(&shared(rt, other)) == same, place);
}

fn compare_all(rt: &impl Abort, alloc: Global, one: &Record, at: usize) {
    for (place, kind) in KINDS.iter().enumerate() {
        compare(rt, one, &record(rt, alloc, *kind), place == at, place);
    }
}

#[test]
fn records_and_steps_are_compared(rt: HostRuntime) {
    for (place, kind) in KINDS.iter().enumerate() {
        compare_all(&rt, rt.alloc(), &record(&rt, rt.alloc(), *kind), place);
    }
}

const EVENT: Kind = Kind::Accept(1000, &[7, 7]);

/// The step of one event at these endpoints.
fn event(rt: &impl Abort, alloc: Global, names: &[Name]) -> Option<Step> {
    if names.is_empty() || names.len() > MAX_STEP_RECORDS {
        return None;
    }
    let (id, body) = (msg_id(rt, b"msg_1"), body(rt, alloc, &[7, 7]));
    Step::event(alloc, names, id, &body, moment(rt, 1000)).ok()
}

fn is_at(record: &Record, name: &Name) -> bool {
    match record {
        Record::Accept { name: at, .. } => *at == *name,
        _ => false,
    }
}

/// Whether the step has one record for each of these endpoints, in their order, all of the event.
fn is_event(rt: &impl Abort, step: &Step, names: &[Name]) -> bool {
    let records = step.records();
    let mut all = records.len() == names.len();
    for (record, name) in records.iter().zip(names) {
        all = all && is_of(rt, record, EVENT) && is_at(record, name);
    }
    all
}

#[test]
fn an_event_is_one_step(rt: HostRuntime) {
    let three = [name(&rt, b"b"), name(&rt, b"a"), name(&rt, b"c")];
    let names = &three[..];
    holds(&rt, event(&rt, rt.alloc(), &names[..0]).is_none(), 0);
    for count in 1..4 {
        let step = event(&rt, rt.alloc(), &names[..count]).expect(&rt, "memory");
        let second = step.share().expect(&rt, "memory");
        holds(&rt, is_event(&rt, &step, &names[..count]), count);
        holds(
            &rt,
            is_event(&rt, &second, &names[..count]) && step.is(&second),
            count,
        );
        let fewer = event(&rt, rt.alloc(), &names[1..count]);
        holds(&rt, !fewer.is_some_and(|it| it.is(&step)), count);
    }
    let alone = event(&rt, rt.alloc(), &names[1..2]);
    let record = shared(&rt, &record(&rt, rt.alloc(), EVENT));
    holds(&rt, alone.is_some_and(|it| it.is(&record)), 4);
}
