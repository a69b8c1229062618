//! Worked values of the readers, at and beside each limit.

use crate::cases::{body_of, holds, max_limit, moment, msg_id, name, secret};
use relay_types::{Body, MaxLimit, Moment, MsgId, Name, ReadFault, Secret};
use std::alloc::Global;
use std::process::Abort;

/// What is read.
#[derive(Clone, Copy)]
enum Input {
    Name(&'static [u8]),
    Id(&'static [u8]),
    Max(u64),
    Moment(u64),
    /// The bytes of a secret.
    Key(&'static [u8]),
    Secret(&'static [u8]),
    /// So many bytes of a body.
    Body(usize),
}

/// What is read, and why it gives no value, if it gives none.
#[derive(Clone, Copy)]
struct Reading(Input, Option<ReadFault>);

const BAD_NAME: Option<ReadFault> = Some(ReadFault::BadName);

const BAD_ID: Option<ReadFault> = Some(ReadFault::BadId);

const BAD_MAX: Option<ReadFault> = Some(ReadFault::BadMax);

const BAD_SECRET: Option<ReadFault> = Some(ReadFault::BadSecret);

static NAMES_AND_IDS: [Reading; 13] = [
    Reading(Input::Name(b"a"), None),
    Reading(Input::Name(&[b'a'; 32]), None),
    Reading(Input::Name(b"a-9"), None),
    Reading(Input::Name(&[b'a'; 33]), BAD_NAME),
    Reading(Input::Name(b""), BAD_NAME),
    Reading(Input::Name(b"A"), BAD_NAME),
    Reading(Input::Name(b"a_b"), BAD_NAME),
    Reading(Input::Id(&[b'a'; 64]), None),
    Reading(Input::Id(b"msg_1-Z"), None),
    Reading(Input::Id(&[b'a'; 65]), BAD_ID),
    Reading(Input::Id(b""), BAD_ID),
    Reading(Input::Id(b"a.b"), BAD_ID),
    Reading(Input::Id(b"a b"), BAD_ID),
];

static LIMITS_MOMENTS_AND_BODIES: [Reading; 9] = [
    Reading(Input::Max(0), BAD_MAX),
    Reading(Input::Max(1), None),
    Reading(Input::Max(1000), None),
    Reading(Input::Max(1001), BAD_MAX),
    Reading(Input::Max((1 << 32) + 1), BAD_MAX),
    Reading(Input::Moment(1 << 40), None),
    Reading(Input::Moment((1 << 40) + 1), Some(ReadFault::BadMoment)),
    Reading(Input::Body(65_536), None),
    Reading(Input::Body(65_537), Some(ReadFault::TooLong)),
];

static SECRETS: [Reading; 17] = [
    Reading(Input::Key(&[7; 23]), BAD_SECRET),
    Reading(Input::Key(&[7; 24]), None),
    Reading(Input::Key(&[7; 64]), None),
    Reading(Input::Key(&[7; 65]), BAD_SECRET),
    Reading(Input::Secret(b""), BAD_SECRET),
    Reading(Input::Secret(b"whsec_"), BAD_SECRET),
    Reading(
        Input::Secret(b"MDEyMzQ1Njc4OTAxMjM0NTY3ODkwMTIzNB"),
        BAD_SECRET,
    ),
    Reading(
        Input::Secret(b"MDEyMzQ1Njc4OTAxMjM0NTY3ODkwMTIzNB=="),
        BAD_SECRET,
    ),
    Reading(
        Input::Secret(b"MDEyMzQ1Njc4OTAxMjM0NTY3ODkwMTIzNA="),
        BAD_SECRET,
    ),
    Reading(
        Input::Secret(b"MDEyMzQ1Njc4OTAxMjM0NTY3ODkwMTIz===="),
        BAD_SECRET,
    ),
    Reading(
        Input::Secret(b"whsec-MDEyMzQ1Njc4OTAxMjM0NTY3ODkwMTIz"),
        BAD_SECRET,
    ),
    Reading(
        Input::Secret(b"whsec_whsec_MDEyMzQ1Njc4OTAxMjM0NTY3ODkwMTIz"),
        BAD_SECRET,
    ),
    Reading(
        Input::Secret(b"________________________________"),
        BAD_SECRET,
    ),
    // 23, 24, 64 and 65 zero bytes
    Reading(Input::Secret(&[b'A'; 31]), BAD_SECRET),
    Reading(Input::Secret(&[b'A'; 32]), None),
    Reading(Input::Secret(&[b'A'; 86]), None),
    Reading(Input::Secret(&[b'A'; 87]), BAD_SECRET),
];

fn body_of_length(rt: &impl Abort, alloc: Global, length: usize) -> Result<Body, ReadFault> {
    let bytes = vec![in alloc; 7u8; length].expect(rt, "memory");
    body_of(rt, alloc, bytes)
}

fn fault_of(rt: &impl Abort, alloc: Global, input: Input) -> Option<ReadFault> {
    match input {
        Input::Name(text) => Name::read(text).err(),
        Input::Id(text) => MsgId::read(text).err(),
        Input::Max(limit) => MaxLimit::of(limit).err(),
        Input::Moment(seconds) => Moment::of(seconds).err(),
        Input::Key(bytes) => Secret::of(bytes).err(),
        Input::Secret(text) => Secret::read(text).err(),
        Input::Body(length) => body_of_length(rt, alloc, length).err(),
    }
}

fn read(rt: &impl Abort, alloc: Global, table: &[Reading]) {
    for (place, reading) in table.iter().enumerate() {
        let Reading(input, fault) = *reading;
        holds(rt, fault_of(rt, alloc, input) == fault, place);
    }
}

#[test]
fn names_and_ids(rt: HostRuntime) {
    read(&rt, rt.alloc(), &NAMES_AND_IDS);
}

#[test]
fn limits_moments_and_bodies(rt: HostRuntime) {
    read(&rt, rt.alloc(), &LIMITS_MOMENTS_AND_BODIES);
}

#[test]
fn secrets_and_texts_of_none(rt: HostRuntime) {
    read(&rt, rt.alloc(), &SECRETS);
}

/// What a value that was read is like.
#[derive(Clone, Copy)]
enum Value {
    /// The bytes of the name are those that were read.
    Name(&'static [u8]),
    Id(&'static [u8]),
    Key(&'static [u8]),
    Max(u64, u32),
    Moment(u64, u64),
    /// A text of a secret, its bytes, and the text that it is written as.
    Secret(&'static [u8], &'static [u8], &'static [u8]),
    /// A body of so many bytes, which a second holder sees too.
    Body(usize),
    /// Whether two of these are the same.
    Names(&'static [u8], &'static [u8], bool),
    Ids(&'static [u8], &'static [u8], bool),
    Secrets(&'static [u8], &'static [u8], bool),
    Bodies(usize, usize, bool),
}

const KEY: &[u8] = b"0123456789012345678901234";

const WRITTEN: &[u8] = b"whsec_MDEyMzQ1Njc4OTAxMjM0NTY3ODkwMTIzNA==";

const A: &[u8] = b"MDEyMzQ1Njc4OTAxMjM0NTY3ODkwMTIz";

const B: &[u8] = b"MfKQ9r8GKYqrTwjUPD8ILPZIo2LaLaSw";

// the longest secret
const LONG_KEY: &[u8] = b"0123456789abcdefghijklmnopqrstuvwxyzABCDEFGHIJKLMNOPQRSTUVWXYZ-_";

const LONG_WRITTEN: &[u8] =
    b"whsec_MDEyMzQ1Njc4OWFiY2RlZmdoaWprbG1ub3BxcnN0dXZ3eHl6QUJDREVGR0hJSktMTU5PUFFSU1RVVldYWVotXw==";

static VALUES: [Value; 20] = [
    Value::Name(b"a-9"),
    Value::Id(b"msg_1-Z"),
    Value::Key(&[7; 24]),
    Value::Max(1000, 1000),
    Value::Moment(1 << 40, 1_099_511_627_776),
    Value::Secret(b"whsec_MDEyMzQ1Njc4OTAxMjM0NTY3ODkwMTIzNA==", KEY, WRITTEN),
    Value::Secret(b"whsec_MDEyMzQ1Njc4OTAxMjM0NTY3ODkwMTIzNA", KEY, WRITTEN),
    Value::Secret(b"MDEyMzQ1Njc4OTAxMjM0NTY3ODkwMTIzNA==", KEY, WRITTEN),
    Value::Secret(b"MDEyMzQ1Njc4OTAxMjM0NTY3ODkwMTIzNA", KEY, WRITTEN),
    Value::Secret(LONG_WRITTEN, LONG_KEY, LONG_WRITTEN),
    Value::Names(b"a", b"a", true),
    Value::Names(b"a", b"b", false),
    Value::Ids(b"a", b"a", true),
    Value::Ids(b"a", b"aa", false),
    Value::Secrets(A, A, true),
    Value::Secrets(A, B, false),
    Value::Body(0),
    Value::Body(65_536),
    Value::Bodies(65_536, 65_536, true),
    Value::Bodies(65_535, 65_536, false),
];

fn is_written(rt: &impl Abort, alloc: Global, secret: Secret, key: &[u8], text: &[u8]) -> bool {
    let written = secret.write(alloc).expect(rt, "memory");
    secret.as_bytes() == key && written.as_bytes() == text
}

fn long_body(rt: &impl Abort, alloc: Global, length: usize) -> Body {
    body_of_length(rt, alloc, length).expect(rt, "a body")
}

fn is_shared(rt: &impl Abort, body: Body, length: usize) -> bool {
    let shared = body.share().expect(rt, "memory");
    shared.is(&body) && body.as_bytes().len() == length && shared.as_bytes().len() == length
}

fn are_same(one: Body, other: Body) -> bool {
    one.is(&other)
}

fn is_so(rt: &impl Abort, alloc: Global, value: Value) -> bool {
    match value {
        Value::Name(text) => name(rt, text).as_bytes() == text,
        Value::Id(text) => msg_id(rt, text).as_bytes() == text,
        Value::Key(bytes) => Secret::of(bytes).expect(rt, "a secret").as_bytes() == bytes,
        Value::Max(limit, got) => max_limit(rt, limit).get() == got,
        Value::Moment(at, seconds) => moment(rt, at).seconds() == seconds,
        Value::Secret(text, key, written) => is_written(rt, alloc, secret(rt, text), key, written),
        Value::Body(length) => is_shared(rt, long_body(rt, alloc, length), length),
        Value::Names(one, other, same) => name(rt, one).is(name(rt, other)) == same,
        Value::Ids(one, other, same) => msg_id(rt, one).is(msg_id(rt, other)) == same,
        Value::Secrets(one, other, same) => secret(rt, one).is(secret(rt, other)) == same,
        Value::Bodies(one, other, same) => {
            are_same(long_body(rt, alloc, one), long_body(rt, alloc, other)) == same
        }
    }
}

#[test]
fn values_are_told(rt: HostRuntime) {
    for (place, value) in VALUES.iter().enumerate() {
        holds(&rt, is_so(&rt, rt.alloc(), *value), place);
    }
}

/// A fault, its number and its name.
#[derive(Clone, Copy)]
struct Fault(ReadFault, u8, &'static str);

static FAULTS: [Fault; 8] = [
    Fault(ReadFault::BadName, 1, "BadName"),
    Fault(ReadFault::BadId, 2, "BadId"),
    Fault(ReadFault::BadSecret, 3, "BadSecret"),
    Fault(ReadFault::BadUrl, 4, "BadUrl"),
    Fault(ReadFault::BadMax, 5, "BadMax"),
    Fault(ReadFault::TooLong, 6, "TooLong"),
    Fault(ReadFault::BadMoment, 7, "BadMoment"),
    Fault(ReadFault::OutOfMemory, 8, "OutOfMemory"),
];

fn is_told(rt: &impl Abort, alloc: Global, fault: Fault) -> bool {
    let Fault(fault, number, name) = fault;
    let text = format!(in alloc; "{fault}").expect(rt, "memory");
    fault.number() == number && text.as_str() == name
}

#[test]
fn faults_have_numbers_and_names(rt: HostRuntime) {
    for (place, fault) in FAULTS.iter().enumerate() {
        holds(&rt, is_told(&rt, rt.alloc(), *fault), place);
    }
}
