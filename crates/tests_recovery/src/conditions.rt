//! Files that break one condition on rows, each beside one that keeps it: the conditions of
//! `docs/FORMATS.md`, by their numbers.

use crate::openings::{ATTEMPTED, File, ROWS, Start, check_all};

/// An endpoint with a secret.
pub(crate) const ENDPOINT: &str =
    "INSERT INTO endpoints VALUES(0, 'a', 'http://h/', 100, 1, 0, 0); \
     INSERT INTO secrets VALUES(0, 0, x'303132333435363738396162636465663031323334353637'); \
     UPDATE meta SET records = 1";

/// Endpoints `a` and `b`.
pub(crate) const TWO: &str = "INSERT INTO endpoints VALUES(0, 'a', 'http://h/', 100, 1, 0, 0); \
     INSERT INTO secrets VALUES(0, 0, x'303132333435363738396162636465663031323334353637'); \
     INSERT INTO endpoints VALUES(1, 'b', 'http://h/', 100, 1, 1, 1); \
     INSERT INTO secrets VALUES(1, 0, x'303132333435363738396162636465663031323334353637'); \
     UPDATE meta SET records = 2";

/// An endpoint and an event.
pub(crate) const EVENT: &str = "INSERT INTO endpoints VALUES(0, 'a', 'http://h/', 100, 1, 0, 0); \
     INSERT INTO secrets VALUES(0, 0, x'303132333435363738396162636465663031323334353637'); \
     INSERT INTO deliveries VALUES(1, 0, 'msg_1', 1000, x'7b7d'); \
     UPDATE meta SET records = 2";

pub(crate) const DAMAGED: &str = "Damaged";

/// Condition 1.
static EACH_NUMBER_IS_BELOW_THAT_OF_RECORDS: [File; 6] = [
    File(
        Start::Ours,
        &[
            ATTEMPTED,
            "UPDATE endpoints SET secrets_by = 2; \
         UPDATE attempts SET seq = 3",
        ],
        ROWS,
        DAMAGED,
        &[],
    ),
    File(
        Start::Ours,
        &[
            ATTEMPTED,
            "UPDATE endpoints SET secrets_by = 2; \
         UPDATE attempts SET seq = 3; \
         UPDATE meta SET records = 4",
        ],
        ROWS,
        "records 4 enabled pending due 1006 attempts 1",
        &[],
    ),
    File(
        Start::Ours,
        &[ENDPOINT, "UPDATE endpoints SET secrets_by = 1"],
        ROWS,
        DAMAGED,
        &[],
    ),
    File(
        Start::Ours,
        &[
            ENDPOINT,
            "UPDATE endpoints SET secrets_by = 1; \
         UPDATE meta SET records = 2",
        ],
        ROWS,
        "records 2 enabled",
        &[],
    ),
    File(
        Start::Ours,
        &[ENDPOINT, "UPDATE endpoints SET enabled_by = 1"],
        ROWS,
        DAMAGED,
        &[],
    ),
    File(
        Start::Ours,
        &[
            ENDPOINT,
            "UPDATE endpoints SET enabled_by = 1; \
         UPDATE meta SET records = 2",
        ],
        ROWS,
        "records 2 enabled",
        &[],
    ),
];

#[test]
fn each_number_is_below_that_of_records(rt: HostRuntime) {
    check_all(&rt, rt.alloc(), &EACH_NUMBER_IS_BELOW_THAT_OF_RECORDS);
}

/// Condition 2.
static NO_NUMBER_IS_OF_TWO_ROWS: [File; 7] = [
    File(
        Start::Ours,
        &[
            ATTEMPTED,
            "INSERT INTO endpoints VALUES(2, 'b', 'http://h/', 100, 1, 2, 2); \
         INSERT INTO secrets VALUES(2, 0, x'303132333435363738396162636465663031323334353637')",
        ],
        ROWS,
        DAMAGED,
        &[],
    ),
    File(
        Start::Ours,
        &[
            ATTEMPTED,
            "INSERT INTO endpoints VALUES(3, 'b', 'http://h/', 100, 1, 3, 3); \
         INSERT INTO secrets VALUES(3, 0, x'303132333435363738396162636465663031323334353637'); \
         UPDATE meta SET records = 4",
        ],
        ROWS,
        "records 4 enabled pending due 1006 attempts 1",
        &[],
    ),
    File(
        Start::Ours,
        &[
            ATTEMPTED,
            "INSERT INTO endpoints VALUES(1, 'b', 'http://h/', 100, 1, 1, 1); \
         INSERT INTO secrets VALUES(1, 0, x'303132333435363738396162636465663031323334353637')",
        ],
        ROWS,
        DAMAGED,
        &[],
    ),
    File(
        Start::Ours,
        &[
            ATTEMPTED,
            "INSERT INTO deliveries VALUES(2, 0, 'msg_2', 1000, x'7b7d')",
        ],
        ROWS,
        DAMAGED,
        &[],
    ),
    File(
        Start::Ours,
        &[
            ATTEMPTED,
            "INSERT INTO deliveries VALUES(3, 0, 'msg_2', 1000, x'7b7d'); \
         UPDATE meta SET records = 4",
        ],
        ROWS,
        "records 4 enabled pending due 1006 attempts 1",
        &[],
    ),
    File(
        Start::Ours,
        &[
            ATTEMPTED,
            "INSERT INTO endpoints VALUES(3, 'b', 'http://h/', 100, 1, 3, 3); \
         INSERT INTO secrets VALUES(3, 0, x'303132333435363738396162636465663031323334353637'); \
         INSERT INTO deliveries VALUES(3, 0, 'msg_2', 1000, x'7b7d'); \
         UPDATE meta SET records = 4",
        ],
        ROWS,
        DAMAGED,
        &[],
    ),
    File(
        Start::Ours,
        &[
            ATTEMPTED,
            "INSERT INTO endpoints VALUES(3, 'b', 'http://h/', 100, 1, 3, 3); \
         INSERT INTO secrets VALUES(3, 0, x'303132333435363738396162636465663031323334353637'); \
         INSERT INTO deliveries VALUES(4, 0, 'msg_2', 1000, x'7b7d'); \
         UPDATE meta SET records = 5",
        ],
        ROWS,
        "records 5 enabled pending due 1006 attempts 1",
        &[],
    ),
];

#[test]
fn no_number_is_of_two_rows(rt: HostRuntime) {
    check_all(&rt, rt.alloc(), &NO_NUMBER_IS_OF_TWO_ROWS);
}

/// Condition 4. A flag with the number of the secrets breaks 5 too.
static SECRETS_ARE_OF_ONE_COMMAND: [File; 9] = [
    File(
        Start::Ours,
        &[
            TWO,
            "UPDATE endpoints SET secrets_by = 2; \
         UPDATE meta SET records = 3",
        ],
        ROWS,
        DAMAGED,
        &[],
    ),
    File(
        Start::Ours,
        &[
            TWO,
            "UPDATE endpoints SET secrets_by = 2 + put; \
         UPDATE meta SET records = 4",
        ],
        ROWS,
        "records 4 enabled",
        &[],
    ),
    File(
        Start::Ours,
        &[TWO, "UPDATE endpoints SET secrets_by = 1 WHERE put = 0"],
        ROWS,
        DAMAGED,
        &[],
    ),
    File(
        Start::Ours,
        &[ATTEMPTED, "UPDATE endpoints SET secrets_by = 1"],
        ROWS,
        DAMAGED,
        &[],
    ),
    File(
        Start::Ours,
        &[
            ATTEMPTED,
            "UPDATE endpoints SET secrets_by = 3; \
         UPDATE meta SET records = 4",
        ],
        ROWS,
        "records 4 enabled pending due 1006 attempts 1",
        &[],
    ),
    File(
        Start::Ours,
        &[
            ENDPOINT,
            "INSERT INTO endpoints VALUES(2, 'b', 'http://h/', 100, 1, 2, 1); \
         INSERT INTO secrets VALUES(2, 0, x'303132333435363738396162636465663031323334353637'); \
         UPDATE meta SET records = 3",
        ],
        ROWS,
        DAMAGED,
        &[],
    ),
    File(
        Start::Ours,
        &[
            ENDPOINT,
            "INSERT INTO endpoints VALUES(1, 'b', 'http://h/', 100, 1, 1, 2); \
         INSERT INTO secrets VALUES(1, 0, x'303132333435363738396162636465663031323334353637'); \
         UPDATE meta SET records = 3",
        ],
        ROWS,
        "records 3 enabled",
        &[],
    ),
    File(
        Start::Ours,
        &[
            ENDPOINT,
            "UPDATE endpoints SET enabled_by = 1, secrets_by = 1; \
         UPDATE meta SET records = 2",
        ],
        ROWS,
        DAMAGED,
        &[],
    ),
    File(
        Start::Ours,
        &[
            ENDPOINT,
            "UPDATE endpoints SET enabled_by = 1, secrets_by = 2; \
         UPDATE meta SET records = 3",
        ],
        ROWS,
        "records 3 enabled",
        &[],
    ),
];

#[test]
fn secrets_are_of_one_command(rt: HostRuntime) {
    check_all(&rt, rt.alloc(), &SECRETS_ARE_OF_ONE_COMMAND);
}

/// Condition 5.
static A_FLAG_IS_OF_ONE_RECORD: [File; 11] = [
    File(
        Start::Ours,
        &[
            TWO,
            "UPDATE endpoints SET enabled_by = 2; \
         UPDATE meta SET records = 3",
        ],
        ROWS,
        DAMAGED,
        &[],
    ),
    File(
        Start::Ours,
        &[
            TWO,
            "UPDATE endpoints SET enabled_by = 2 + put; \
         UPDATE meta SET records = 4",
        ],
        ROWS,
        "records 4 enabled",
        &[],
    ),
    File(
        Start::Ours,
        &[TWO, "UPDATE endpoints SET enabled_by = 1 WHERE put = 0"],
        ROWS,
        DAMAGED,
        &[],
    ),
    File(
        Start::Ours,
        &[ATTEMPTED, "UPDATE endpoints SET enabled_by = 1"],
        ROWS,
        DAMAGED,
        &[],
    ),
    File(
        Start::Ours,
        &[
            ATTEMPTED,
            "UPDATE endpoints SET enabled = 0, enabled_by = 2",
        ],
        ROWS,
        DAMAGED,
        &[],
    ),
    File(
        Start::Ours,
        &[
            ATTEMPTED,
            "UPDATE attempts SET status = 410; \
         UPDATE endpoints SET enabled_by = 2",
        ],
        ROWS,
        DAMAGED,
        &[],
    ),
    File(
        Start::Ours,
        &[
            ATTEMPTED,
            "UPDATE attempts SET status = 410; \
         UPDATE endpoints SET enabled_by = 3; \
         UPDATE meta SET records = 4",
        ],
        ROWS,
        "records 4 enabled pending due 1001 attempts 1",
        &[],
    ),
    File(
        Start::Ours,
        &[
            ENDPOINT,
            "INSERT INTO endpoints VALUES(2, 'b', 'http://h/', 100, 1, 1, 2); \
         INSERT INTO secrets VALUES(2, 0, x'303132333435363738396162636465663031323334353637'); \
         UPDATE meta SET records = 3",
        ],
        ROWS,
        DAMAGED,
        &[],
    ),
    File(
        Start::Ours,
        &[
            ENDPOINT,
            "UPDATE endpoints SET enabled = 0, enabled_by = 1; \
         UPDATE meta SET records = 2",
        ],
        ROWS,
        "records 2 disabled",
        &[],
    ),
    File(
        Start::Ours,
        &[
            EVENT,
            "UPDATE endpoints SET enabled = 0, enabled_by = 3; \
         INSERT INTO attempts VALUES(2, 1, 1, 410, 1001); \
         UPDATE meta SET records = 4",
        ],
        ROWS,
        "records 4 disabled pending due 1001 attempts 1",
        &[],
    ),
    File(
        Start::Ours,
        &[
            EVENT,
            "UPDATE endpoints SET enabled = 0, enabled_by = 2; \
         INSERT INTO attempts VALUES(3, 1, 1, 410, 1001); \
         UPDATE meta SET records = 4",
        ],
        ROWS,
        DAMAGED,
        &[],
    ),
];

#[test]
fn a_flag_is_of_one_record(rt: HostRuntime) {
    check_all(&rt, rt.alloc(), &A_FLAG_IS_OF_ONE_RECORD);
}

/// Condition 5.
static ONLY_ITS_OWN_EVENTS_TELL_THAT_AN_ENDPOINT_IS_GONE: [File; 2] = [
    File(
        Start::Ours,
        &[
            TWO,
            "INSERT INTO deliveries VALUES(2, 0, 'msg_1', 1000, x'7b7d'); \
         INSERT INTO attempts VALUES(3, 2, 1, 410, 1001); \
         UPDATE endpoints SET enabled = 0, enabled_by = 3; \
         UPDATE meta SET records = 4",
        ],
        ROWS,
        DAMAGED,
        &[],
    ),
    File(
        Start::Ours,
        &[
            TWO,
            "INSERT INTO deliveries VALUES(2, 0, 'msg_1', 1000, x'7b7d'); \
         INSERT INTO attempts VALUES(3, 2, 1, 410, 1001); \
         UPDATE endpoints SET enabled = 0, enabled_by = 3 WHERE put = 0; \
         UPDATE meta SET records = 4",
        ],
        ROWS,
        "records 4 disabled pending due 1001 attempts 1",
        &[],
    ),
];

#[test]
fn only_its_own_events_tell_that_an_endpoint_is_gone(rt: HostRuntime) {
    check_all(
        &rt,
        rt.alloc(),
        &ONLY_ITS_OWN_EVENTS_TELL_THAT_AN_ENDPOINT_IS_GONE,
    );
}

/// Condition 6.
static AN_EVENT_IS_BEHIND_ITS_ENDPOINT: [File; 6] = [
    File(
        Start::Ours,
        &[
            "INSERT INTO endpoints VALUES(1, 'a', 'http://h/', 100, 1, 1, 1); \
         INSERT INTO secrets VALUES(1, 0, x'303132333435363738396162636465663031323334353637'); \
         INSERT INTO deliveries VALUES(0, 1, 'msg_1', 1000, x'7b7d'); \
         UPDATE meta SET records = 2",
        ],
        ROWS,
        DAMAGED,
        &[],
    ),
    File(
        Start::Ours,
        &[
            "INSERT INTO endpoints VALUES(0, 'a', 'http://h/', 100, 1, 0, 0); \
         INSERT INTO secrets VALUES(0, 0, x'303132333435363738396162636465663031323334353637'); \
         INSERT INTO deliveries VALUES(1, 0, 'msg_1', 1000, x'7b7d'); \
         UPDATE meta SET records = 2",
        ],
        ROWS,
        "records 2 enabled pending due 1000 attempts 0",
        &[],
    ),
    File(
        Start::Ours,
        &[
            TWO,
            "INSERT INTO deliveries VALUES(2, 1, 'msg_1', 1000, x'7b7d'); \
         UPDATE meta SET records = 3",
        ],
        ROWS,
        "records 3 enabled",
        &[],
    ),
    File(
        Start::Ours,
        &[
            ENDPOINT,
            "INSERT INTO endpoints VALUES(2, 'b', 'http://h/', 100, 1, 2, 2); \
         INSERT INTO secrets VALUES(2, 0, x'303132333435363738396162636465663031323334353637'); \
         INSERT INTO deliveries VALUES(1, 2, 'msg_1', 1000, x'7b7d'); \
         UPDATE meta SET records = 3",
        ],
        ROWS,
        DAMAGED,
        &[],
    ),
    File(
        Start::Ours,
        &[EVENT, "UPDATE deliveries SET at = 1099511627776"],
        ROWS,
        "records 2 enabled pending due 1099511627776 attempts 0",
        &[],
    ),
    File(
        Start::Ours,
        &[EVENT, "UPDATE deliveries SET at = 1099511627777"],
        ROWS,
        DAMAGED,
        &[],
    ),
];

#[test]
fn an_event_follows_its_endpoint(rt: HostRuntime) {
    check_all(&rt, rt.alloc(), &AN_EVENT_IS_BEHIND_ITS_ENDPOINT);
}
