//! Files that break one condition on attempts and on the numbers that are left, each beside one that keeps it.

use crate::conditions::{DAMAGED, ENDPOINT, EVENT};
use crate::openings::{ATTEMPTED, File, ROWS, Start, check_all};

/// Condition 7.
static ATTEMPTS_ARE_BEHIND_THEIR_EVENT_IN_ORDER: [File; 6] = [
    File(
        Start::Ours,
        &[
            EVENT,
            "INSERT INTO attempts VALUES(2, 1, 1, 500, 1001); \
         INSERT INTO attempts VALUES(3, 1, 2, 500, 1002); \
         UPDATE meta SET records = 4",
        ],
        ROWS,
        "records 4 enabled pending due 1302 attempts 2",
        &[],
    ),
    File(
        Start::Ours,
        &[
            EVENT,
            "INSERT INTO attempts VALUES(2, 1, 2, 500, 1001); \
         INSERT INTO attempts VALUES(3, 1, 1, 500, 1002); \
         UPDATE meta SET records = 4",
        ],
        ROWS,
        DAMAGED,
        &[],
    ),
    File(
        Start::Ours,
        &[
            EVENT,
            "INSERT INTO attempts VALUES(2, 1, 1, 500, 1001); \
         INSERT INTO attempts VALUES(3, 1, 3, 500, 1002); \
         UPDATE meta SET records = 4",
        ],
        ROWS,
        DAMAGED,
        &[],
    ),
    File(
        Start::Ours,
        &[
            EVENT,
            "INSERT INTO attempts VALUES(2, 1, 0, 500, 1001); \
         UPDATE meta SET records = 3",
        ],
        ROWS,
        DAMAGED,
        &[],
    ),
    File(
        Start::Ours,
        &[
            ENDPOINT,
            "INSERT INTO deliveries VALUES(2, 0, 'msg_1', 1000, x'7b7d'); \
         INSERT INTO attempts VALUES(1, 2, 1, 500, 1001); \
         UPDATE meta SET records = 3",
        ],
        ROWS,
        DAMAGED,
        &[],
    ),
    File(
        Start::Ours,
        &[
            ENDPOINT,
            "INSERT INTO deliveries VALUES(1, 0, 'msg_1', 1000, x'7b7d'); \
         INSERT INTO attempts VALUES(2, 1, 1, 500, 1001); \
         UPDATE meta SET records = 3",
        ],
        ROWS,
        "records 3 enabled pending due 1006 attempts 1",
        &[],
    ),
];

#[test]
fn attempts_follow_their_event_in_order(rt: HostRuntime) {
    check_all(&rt, rt.alloc(), &ATTEMPTS_ARE_BEHIND_THEIR_EVENT_IN_ORDER);
}

/// Condition 7.
static STATUSES_HAVE_THEIR_RANGE: [File; 8] = [
    File(
        Start::Ours,
        &[ATTEMPTED, "UPDATE attempts SET status = -1"],
        ROWS,
        DAMAGED,
        &[],
    ),
    File(
        Start::Ours,
        &[ATTEMPTED, "UPDATE attempts SET status = 0"],
        ROWS,
        "records 3 enabled pending due 1006 attempts 1",
        &[],
    ),
    File(
        Start::Ours,
        &[ATTEMPTED, "UPDATE attempts SET status = 1"],
        ROWS,
        DAMAGED,
        &[],
    ),
    File(
        Start::Ours,
        &[ATTEMPTED, "UPDATE attempts SET status = 100"],
        ROWS,
        "records 3 enabled pending due 1006 attempts 1",
        &[],
    ),
    File(
        Start::Ours,
        &[ATTEMPTED, "UPDATE attempts SET status = 999"],
        ROWS,
        "records 3 enabled pending due 1006 attempts 1",
        &[],
    ),
    File(
        Start::Ours,
        &[ATTEMPTED, "UPDATE attempts SET status = 1000"],
        ROWS,
        DAMAGED,
        &[],
    ),
    File(
        Start::Ours,
        &[ATTEMPTED, "UPDATE attempts SET at = 1099511627776"],
        ROWS,
        "records 3 enabled pending due 1099511627781 attempts 1",
        &[],
    ),
    File(
        Start::Ours,
        &[ATTEMPTED, "UPDATE attempts SET at = 1099511627777"],
        ROWS,
        DAMAGED,
        &[],
    ),
];

#[test]
fn statuses_have_their_range(rt: HostRuntime) {
    check_all(&rt, rt.alloc(), &STATUSES_HAVE_THEIR_RANGE);
}

/// Condition 7.
static NOTHING_IS_BEHIND_A_DELIVERY: [File; 4] = [
    File(
        Start::Ours,
        &[
            EVENT,
            "INSERT INTO attempts VALUES(2, 1, 1, 199, 1001); \
         INSERT INTO attempts VALUES(3, 1, 2, 500, 1002); \
         UPDATE meta SET records = 4",
        ],
        ROWS,
        "records 4 enabled pending due 1302 attempts 2",
        &[],
    ),
    File(
        Start::Ours,
        &[
            EVENT,
            "INSERT INTO attempts VALUES(2, 1, 1, 200, 1001); \
         INSERT INTO attempts VALUES(3, 1, 2, 500, 1002); \
         UPDATE meta SET records = 4",
        ],
        ROWS,
        DAMAGED,
        &[],
    ),
    File(
        Start::Ours,
        &[
            EVENT,
            "INSERT INTO attempts VALUES(2, 1, 1, 299, 1001); \
         INSERT INTO attempts VALUES(3, 1, 2, 200, 1002); \
         UPDATE meta SET records = 4",
        ],
        ROWS,
        DAMAGED,
        &[],
    ),
    File(
        Start::Ours,
        &[
            EVENT,
            "INSERT INTO attempts VALUES(2, 1, 1, 300, 1001); \
         INSERT INTO attempts VALUES(3, 1, 2, 299, 1002); \
         UPDATE meta SET records = 4",
        ],
        ROWS,
        "records 4 enabled delivered due 0 attempts 2",
        &[],
    ),
];

#[test]
fn nothing_follows_a_delivery(rt: HostRuntime) {
    check_all(&rt, rt.alloc(), &NOTHING_IS_BEHIND_A_DELIVERY);
}

/// No condition: records between them may have no row.
static NO_OTHER_NUMBER_NEEDS_A_ROW: [File; 7] = [
    File(
        Start::Ours,
        &[
            "INSERT INTO endpoints VALUES(1, 'a', 'http://h/', 100, 1, 1, 1); \
         INSERT INTO secrets VALUES(1, 0, x'303132333435363738396162636465663031323334353637'); \
         UPDATE meta SET records = 2",
        ],
        ROWS,
        "records 2 enabled",
        &[],
    ),
    File(
        Start::Ours,
        &[
            ENDPOINT,
            "UPDATE endpoints SET enabled_by = 5; \
         UPDATE meta SET records = 6",
        ],
        ROWS,
        "records 6 enabled",
        &[],
    ),
    File(
        Start::Ours,
        &[
            ENDPOINT,
            "UPDATE endpoints SET enabled_by = 5; \
         UPDATE meta SET records = 7",
        ],
        ROWS,
        "records 7 enabled",
        &[],
    ),
    File(
        Start::Ours,
        &[
            ENDPOINT,
            "UPDATE endpoints SET secrets_by = 5; \
         UPDATE meta SET records = 6",
        ],
        ROWS,
        "records 6 enabled",
        &[],
    ),
    File(
        Start::Ours,
        &[
            ENDPOINT,
            "INSERT INTO endpoints VALUES(3, 'b', 'http://h/', 100, 1, 3, 3); \
         INSERT INTO secrets VALUES(3, 0, x'303132333435363738396162636465663031323334353637'); \
         UPDATE meta SET records = 4",
        ],
        ROWS,
        "records 4 enabled",
        &[],
    ),
    File(
        Start::Ours,
        &[
            ENDPOINT,
            "INSERT INTO endpoints VALUES(3, 'b', 'http://h/', 100, 1, 3, 3); \
         INSERT INTO secrets VALUES(3, 0, x'303132333435363738396162636465663031323334353637'); \
         UPDATE endpoints SET secrets_by = 4 WHERE put = 0; \
         UPDATE meta SET records = 5",
        ],
        ROWS,
        "records 5 enabled",
        &[],
    ),
    File(
        Start::Ours,
        &[
            ENDPOINT,
            "INSERT INTO endpoints VALUES(3, 'b', 'http://h/', 100, 1, 3, 3); \
         INSERT INTO secrets VALUES(3, 0, x'303132333435363738396162636465663031323334353637'); \
         UPDATE endpoints SET secrets_by = 4 WHERE put = 3; \
         UPDATE meta SET records = 5",
        ],
        ROWS,
        "records 5 enabled",
        &[],
    ),
];

#[test]
fn no_other_number_needs_a_row(rt: HostRuntime) {
    check_all(&rt, rt.alloc(), &NO_OTHER_NUMBER_NEEDS_A_ROW);
}

/// Nine failed attempts.
const NINE: &str = "INSERT INTO attempts VALUES(2, 1, 1, 500, 1001); \
     INSERT INTO attempts VALUES(3, 1, 2, 500, 1001); \
     INSERT INTO attempts VALUES(4, 1, 3, 500, 1001); \
     INSERT INTO attempts VALUES(5, 1, 4, 500, 1001); \
     INSERT INTO attempts VALUES(6, 1, 5, 500, 1001); \
     INSERT INTO attempts VALUES(7, 1, 6, 500, 1001); \
     INSERT INTO attempts VALUES(8, 1, 7, 500, 1001); \
     INSERT INTO attempts VALUES(9, 1, 8, 500, 1001); \
     INSERT INTO attempts VALUES(10, 1, 9, 500, 1001)";

const TENTH: &str = "INSERT INTO attempts VALUES(11, 1, 10, 500, 1001)";

const ELEVENTH: &str = "INSERT INTO attempts VALUES(12, 1, 11, 500, 1001)";

const TWELFTH: &str = "INSERT INTO attempts VALUES(13, 1, 12, 500, 1001)";

/// Attempts, of which one may be answered 410. That one is no failure.
static NOTHING_IS_BEHIND_THE_TENTH_FAILURE: [File; 7] = [
    File(
        Start::Ours,
        &[EVENT, NINE, "UPDATE meta SET records = 11"],
        ROWS,
        "records 11 enabled pending due 87401 attempts 9",
        &[],
    ),
    File(
        Start::Ours,
        &[EVENT, NINE, TENTH, "UPDATE meta SET records = 12"],
        ROWS,
        "records 12 enabled exhausted due 0 attempts 10",
        &[],
    ),
    File(
        Start::Ours,
        &[EVENT, NINE, TENTH, ELEVENTH, "UPDATE meta SET records = 13"],
        ROWS,
        DAMAGED,
        &[],
    ),
    File(
        Start::Ours,
        &[
            EVENT,
            NINE,
            TENTH,
            "UPDATE meta SET records = 12",
            "UPDATE attempts SET status = 410 WHERE number = 10; \
 UPDATE endpoints SET enabled = 0, enabled_by = 11",
        ],
        ROWS,
        "records 12 disabled pending due 1001 attempts 10",
        &[],
    ),
    File(
        Start::Ours,
        &[
            EVENT,
            NINE,
            TENTH,
            ELEVENTH,
            "UPDATE meta SET records = 13",
            "UPDATE attempts SET status = 410 WHERE number = 5; \
 UPDATE endpoints SET enabled = 0, enabled_by = 6",
        ],
        ROWS,
        "records 13 disabled exhausted due 0 attempts 11",
        &[],
    ),
    File(
        Start::Ours,
        &[
            EVENT,
            NINE,
            TENTH,
            ELEVENTH,
            "UPDATE meta SET records = 13",
            "UPDATE attempts SET status = 410 WHERE number = 11; \
 UPDATE endpoints SET enabled = 0, enabled_by = 12",
        ],
        ROWS,
        DAMAGED,
        &[],
    ),
    File(
        Start::Ours,
        &[
            EVENT,
            NINE,
            TENTH,
            ELEVENTH,
            TWELFTH,
            "UPDATE meta SET records = 14",
            "UPDATE attempts SET status = 410 WHERE number = 5; \
 UPDATE endpoints SET enabled = 0, enabled_by = 6",
        ],
        ROWS,
        DAMAGED,
        &[],
    ),
];

#[test]
fn nothing_follows_the_tenth_failure(rt: HostRuntime) {
    check_all(&rt, rt.alloc(), &NOTHING_IS_BEHIND_THE_TENTH_FAILURE);
}
