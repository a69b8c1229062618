//! Files: the numbers in their rows, and whether a legal history has them.

use crate::cases::holds;
use relay_types::MAX_SUBSCRIPTIONS;
use sound_rows::{Attempt, Delivery, Endpoint, RowNumbers, Topic};
use std::alloc::Global;
use std::process::Abort;

/// The rows of a file, and whether a legal history has them.
#[derive(Clone, Copy)]
enum File {
    /// So many records and no row.
    Empty(u64, bool),
    /// So many records and an endpoint alone.
    Alone(u64, Endpoint, bool),
    /// An endpoint at 0, an event of it at 1 and an attempt at 2 with this number and status.
    Attempted(Endpoint, u64, u16, bool),
    /// So many records, endpoints, and for each topic its endpoint and the record that decides it.
    Subscribed(u64, &'static [Endpoint], &'static [(u64, u64)], bool),
    /// So many records: an endpoint, an event, an attempt, and a topic that this record decides.
    Beside(u64, u64, bool),
    /// So many records: an endpoint, an event of it, and an attempt with this number that was answered gone.
    GoneAt(u64, Endpoint, u64, bool),
    /// An endpoint and so many topics of it.
    Pairs(usize, bool),
}

/// An endpoint that is put first, enabled by its Put and with secrets of it.
const FIRST: Endpoint = Endpoint {
    put: 0,
    enabled: true,
    enabled_by: 0,
    secrets_by: 0,
};

/// The same with secrets of record 1.
const RENEWED: Endpoint = Endpoint {
    put: 0,
    enabled: true,
    enabled_by: 0,
    secrets_by: 1,
};

/// The same with secrets of the last record that there may be.
const RENEWED_LAST: Endpoint = Endpoint {
    put: 0,
    enabled: true,
    enabled_by: 0,
    secrets_by: (1 << 62) - 1,
};

/// The same with secrets of a record behind that.
const RENEWED_BEHIND: Endpoint = Endpoint {
    put: 0,
    enabled: true,
    enabled_by: 0,
    secrets_by: 1 << 62,
};

/// An endpoint that is put first, and disabled by record 2.
const DISABLED: Endpoint = Endpoint {
    put: 0,
    enabled: false,
    enabled_by: 2,
    secrets_by: 0,
};

/// An endpoint that is put first, and disabled by record 4.
const DISABLED_LAST: Endpoint = Endpoint {
    put: 0,
    enabled: false,
    enabled_by: 4,
    secrets_by: 0,
};

/// An endpoint that is put by record 1.
const SECOND: Endpoint = Endpoint {
    put: 1,
    enabled: true,
    enabled_by: 1,
    secrets_by: 1,
};

/// An endpoint that is put by record 2.
const THIRD: Endpoint = Endpoint {
    put: 2,
    enabled: true,
    enabled_by: 2,
    secrets_by: 2,
};

/// An endpoint that is put first, and enabled by record 3.
const ENABLED: Endpoint = Endpoint {
    put: 0,
    enabled: true,
    enabled_by: 3,
    secrets_by: 0,
};

/// An endpoint that is put first, enabled by record 4 and with secrets of record 2.
const CHANGED: Endpoint = Endpoint {
    put: 0,
    enabled: true,
    enabled_by: 4,
    secrets_by: 2,
};

static A_RECORD_OF_NO_ROW_IS_NO_FAULT: [File; 12] = [
    File::Empty(0, true),
    File::Empty(1, true),
    File::Empty(1 << 62, true),
    File::Empty((1 << 62) + 1, false),
    File::Alone(1, FIRST, true),
    File::Alone(2, RENEWED, true),
    File::Alone(2, FIRST, true),
    File::Alone(3, RENEWED, true),
    File::Alone(1 << 62, FIRST, true),
    File::Alone(1 << 62, RENEWED_LAST, true),
    File::Alone(1 << 62, RENEWED_BEHIND, false),
    File::Alone(2, SECOND, true),
];

// The attempts were removed, and the flag that one of them gave is left. Which attempt decides is asked of those that
// are left.
static A_FLAG_OUTLIVES_ITS_ATTEMPT: [File; 5] = [
    File::Alone(5, DISABLED, true),
    File::Alone(5, ENABLED, true),
    File::Alone(2, DISABLED, false),
    File::GoneAt(5, DISABLED, 4, false),
    File::GoneAt(5, DISABLED_LAST, 3, true),
];

static AN_ANSWER_OF_GONE_DISABLES: [File; 4] = [
    File::Attempted(FIRST, 1, 410, false),
    File::Attempted(DISABLED, 1, 410, true),
    File::Attempted(DISABLED, 1, 500, false),
    File::Attempted(FIRST, 1, 500, true),
];

static ATTEMPTS_ARE_NUMBERED_IN_TURN: [File; 4] = [
    File::Attempted(FIRST, 1, 200, true),
    File::Attempted(FIRST, 2, 200, false),
    File::Attempted(FIRST, 0, 200, false),
    File::Attempted(FIRST, 1, 99, false),
];

static A_TOPIC_IS_DECIDED_BEHIND_ITS_ENDPOINT: [File; 9] = [
    File::Subscribed(2, &[FIRST], &[(0, 1)], true),
    File::Subscribed(1, &[FIRST], &[(0, 1)], false),
    File::Subscribed(1, &[FIRST], &[(0, 0)], false),
    File::Subscribed(2, &[FIRST, SECOND], &[(0, 1)], false),
    File::Subscribed(3, &[FIRST, SECOND], &[(0, 2)], true),
    File::Subscribed(3, &[FIRST, SECOND], &[(1, 2)], true),
    File::Subscribed(3, &[DISABLED, SECOND], &[(1, 0)], false),
    File::Subscribed(4, &[ENABLED, THIRD], &[(2, 1)], false),
    File::Subscribed(4, &[ENABLED, THIRD], &[], true),
];

static A_RECORD_DECIDES_ONE_TOPIC_AND_NOTHING_ELSE: [File; 13] = [
    File::Subscribed(2, &[RENEWED], &[(0, 1)], false),
    File::Subscribed(3, &[RENEWED], &[(0, 2)], true),
    File::Subscribed(3, &[DISABLED], &[(0, 2)], false),
    File::Subscribed(3, &[DISABLED], &[(0, 1)], true),
    File::Subscribed(3, &[DISABLED, SECOND], &[(1, 2)], false),
    File::Subscribed(4, &[DISABLED, SECOND], &[(1, 3)], true),
    File::Subscribed(2, &[FIRST], &[(0, 1), (0, 1)], false),
    File::Subscribed(3, &[FIRST], &[(0, 1), (0, 2)], true),
    File::Subscribed(3, &[FIRST], &[(0, 2), (0, 1)], false),
    File::Subscribed(3, &[FIRST, SECOND], &[(0, 2), (1, 2)], false),
    File::Beside(3, 1, false),
    File::Beside(3, 2, false),
    File::Beside(4, 3, true),
];

static A_TOPIC_NEEDS_NO_RECORD_BEFORE_IT: [File; 8] = [
    File::Subscribed(4, &[FIRST], &[(0, 3)], true),
    File::Subscribed(5, &[FIRST], &[(0, 3)], true),
    File::Subscribed(7, &[CHANGED], &[(0, 6)], true),
    File::Subscribed(5, &[FIRST, SECOND], &[(0, 2), (1, 4)], true),
    File::Subscribed(6, &[FIRST, SECOND], &[(0, 2), (1, 4)], true),
    File::Subscribed(3, &[SECOND], &[(1, 2)], true),
    File::Subscribed(1 << 62, &[FIRST], &[(0, (1 << 62) - 1)], true),
    File::Subscribed(1 << 62, &[FIRST], &[(0, 1 << 62)], false),
];

static THERE_ARE_AS_MANY_TOPICS_AS_MAY_BE_NAMED: [File; 2] = [
    File::Pairs(MAX_SUBSCRIPTIONS, true),
    File::Pairs(MAX_SUBSCRIPTIONS + 1, false),
];

fn empty(alloc: Global) -> RowNumbers {
    RowNumbers {
        records: 0,
        endpoints: Vec::new(alloc),
        deliveries: Vec::new(alloc),
        attempts: Vec::new(alloc),
        topics: Vec::new(alloc),
    }
}

fn put(rt: &impl Abort, numbers: &mut RowNumbers, endpoint: Endpoint) {
    numbers.endpoints.push(endpoint).expect(rt, "memory");
}

/// An event of the first endpoint at 1, and an attempt at it with this number of its own.
fn attempt(rt: &impl Abort, numbers: &mut RowNumbers, seq: u64, number: u64, status: u16) {
    let event = Delivery {
        seq: 1,
        endpoint: 0,
    };
    let attempt = Attempt {
        seq,
        delivery: 1,
        number,
        status,
    };
    numbers.deliveries.push(event).expect(rt, "memory");
    numbers.attempts.push(attempt).expect(rt, "memory");
}

fn subscribe(rt: &impl Abort, numbers: &mut RowNumbers, endpoint: u64, set_by: u64) {
    let topic = Topic { endpoint, set_by };
    numbers.topics.push(topic).expect(rt, "memory");
}

fn subscribe_all(
    rt: &impl Abort,
    numbers: &mut RowNumbers,
    endpoints: &[Endpoint],
    topics: &[(u64, u64)],
) {
    for endpoint in endpoints {
        put(rt, numbers, *endpoint);
    }
    for (endpoint, set_by) in topics {
        subscribe(rt, numbers, *endpoint, *set_by);
    }
}

fn subscribe_each(rt: &impl Abort, numbers: &mut RowNumbers, count: usize) {
    put(rt, numbers, FIRST);
    for number in 0..count {
        subscribe(rt, numbers, 0, number as u64 + 1);
    }
}

fn are_sound(rt: &impl Abort, alloc: Global, numbers: &RowNumbers) -> bool {
    numbers.are_sound(alloc).expect(rt, "memory")
}

/// Fills the rows; whether a legal history is to have them.
fn fill(rt: &impl Abort, numbers: &mut RowNumbers, file: File) -> bool {
    match file {
        File::Empty(records, sound) => {
            numbers.records = records;
            sound
        }
        File::Alone(records, endpoint, sound) => {
            numbers.records = records;
            put(rt, numbers, endpoint);
            sound
        }
        File::Attempted(endpoint, number, status, sound) => {
            numbers.records = 3;
            put(rt, numbers, endpoint);
            attempt(rt, numbers, 2, number, status);
            sound
        }
        File::Subscribed(records, endpoints, topics, sound) => {
            numbers.records = records;
            subscribe_all(rt, numbers, endpoints, topics);
            sound
        }
        File::Beside(records, set_by, sound) => {
            numbers.records = records;
            put(rt, numbers, FIRST);
            attempt(rt, numbers, 2, 1, 500);
            subscribe(rt, numbers, 0, set_by);
            sound
        }
        File::GoneAt(records, endpoint, seq, sound) => {
            numbers.records = records;
            put(rt, numbers, endpoint);
            attempt(rt, numbers, seq, 1, 410);
            sound
        }
        File::Pairs(count, sound) => {
            numbers.records = (count as u64).saturating_add(1);
            subscribe_each(rt, numbers, count);
            sound
        }
    }
}

fn walk(rt: &impl Abort, alloc: Global, files: &[File]) {
    for (place, file) in files.iter().enumerate() {
        let mut numbers = empty(alloc);
        let sound = fill(rt, &mut numbers, *file);
        holds(rt, are_sound(rt, alloc, &numbers) == sound, place);
    }
}

#[test]
fn a_record_of_no_row_is_no_fault(rt: HostRuntime) {
    walk(&rt, rt.alloc(), &A_RECORD_OF_NO_ROW_IS_NO_FAULT);
}

#[test]
fn a_flag_outlives_its_attempt(rt: HostRuntime) {
    walk(&rt, rt.alloc(), &A_FLAG_OUTLIVES_ITS_ATTEMPT);
}

#[test]
fn an_answer_of_gone_disables(rt: HostRuntime) {
    walk(&rt, rt.alloc(), &AN_ANSWER_OF_GONE_DISABLES);
}

#[test]
fn attempts_are_numbered_in_turn(rt: HostRuntime) {
    walk(&rt, rt.alloc(), &ATTEMPTS_ARE_NUMBERED_IN_TURN);
}

#[test]
fn a_topic_is_decided_behind_its_endpoint(rt: HostRuntime) {
    walk(&rt, rt.alloc(), &A_TOPIC_IS_DECIDED_BEHIND_ITS_ENDPOINT);
}

#[test]
fn a_record_decides_one_topic_and_nothing_else(rt: HostRuntime) {
    walk(
        &rt,
        rt.alloc(),
        &A_RECORD_DECIDES_ONE_TOPIC_AND_NOTHING_ELSE,
    );
}

#[test]
fn a_topic_needs_no_record_before_it(rt: HostRuntime) {
    walk(&rt, rt.alloc(), &A_TOPIC_NEEDS_NO_RECORD_BEFORE_IT);
}

#[test]
fn there_are_as_many_topics_as_may_be_named(rt: HostRuntime) {
    walk(&rt, rt.alloc(), &THERE_ARE_AS_MANY_TOPICS_AS_MAY_BE_NAMED);
}
