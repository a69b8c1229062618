//! Files that break one condition on topics, each beside one that keeps it.

use crate::conditions::{DAMAGED, ENDPOINT, EVENT, TWO};
use crate::openings::{ATTEMPTED, File, Queries, ROWS, Start, check_all};

/// Condition 8.
static A_TOPIC_IS_A_NAME: [File; 7] = [
    File(
        Start::Ours,
        &[
            ENDPOINT,
            "INSERT INTO topics VALUES('t', 0, 1, 1); \
             UPDATE meta SET records = 2",
        ],
        ROWS,
        "records 2 enabled",
        &[],
    ),
    File(
        Start::Ours,
        &[
            ENDPOINT,
            "INSERT INTO topics VALUES('', 0, 1, 1); \
             UPDATE meta SET records = 2",
        ],
        ROWS,
        DAMAGED,
        &[],
    ),
    File(
        Start::Ours,
        &[
            ENDPOINT,
            "INSERT INTO topics VALUES('T', 0, 1, 1); \
             UPDATE meta SET records = 2",
        ],
        ROWS,
        DAMAGED,
        &[],
    ),
    File(
        Start::Ours,
        &[
            ENDPOINT,
            "INSERT INTO topics VALUES('a_b', 0, 1, 1); \
             UPDATE meta SET records = 2",
        ],
        ROWS,
        DAMAGED,
        &[],
    ),
    File(
        Start::Ours,
        &[
            ENDPOINT,
            "INSERT INTO topics VALUES('xxxxxxxxxxxxxxxxxxxxxxxxxxxxxxxx', 0, 1, 1); \
             UPDATE meta SET records = 2",
        ],
        ROWS,
        "records 2 enabled",
        &[],
    ),
    File(
        Start::Ours,
        &[
            ENDPOINT,
            "INSERT INTO topics VALUES('xxxxxxxxxxxxxxxxxxxxxxxxxxxxxxxxx', 0, 1, 1); \
             UPDATE meta SET records = 2",
        ],
        ROWS,
        DAMAGED,
        &[],
    ),
    File(
        Start::Ours,
        &[
            ENDPOINT,
            "INSERT INTO topics VALUES('a', 0, 1, 1); \
             INSERT INTO topics VALUES('b', 0, 0, 2); \
             UPDATE meta SET records = 3",
        ],
        ROWS,
        "records 3 enabled",
        &[],
    ),
];

#[test]
fn a_topic_is_a_name(rt: HostRuntime) {
    check_all(&rt, rt.alloc(), &A_TOPIC_IS_A_NAME);
}

/// Condition 8.
static AN_ENDPOINT_IS_SUBSCRIBED_OR_NOT: [File; 3] = [
    File(
        Start::Ours,
        &[
            ENDPOINT,
            "INSERT INTO topics VALUES('t', 0, 0, 1); \
             UPDATE meta SET records = 2",
        ],
        ROWS,
        "records 2 enabled",
        &[],
    ),
    File(
        Start::Ours,
        &[
            ENDPOINT,
            "INSERT INTO topics VALUES('t', 0, 2, 1); \
             UPDATE meta SET records = 2",
        ],
        ROWS,
        DAMAGED,
        &[],
    ),
    File(
        Start::Ours,
        &[
            ENDPOINT,
            "INSERT INTO topics VALUES('t', 0, -1, 1); \
             UPDATE meta SET records = 2",
        ],
        ROWS,
        DAMAGED,
        &[],
    ),
];

#[test]
fn an_endpoint_is_subscribed_or_not(rt: HostRuntime) {
    check_all(&rt, rt.alloc(), &AN_ENDPOINT_IS_SUBSCRIBED_OR_NOT);
}

/// Conditions 1 and 8.
static A_TOPIC_IS_DECIDED_BEHIND_ITS_ENDPOINT: [File; 9] = [
    File(
        Start::Ours,
        &[
            ENDPOINT,
            "INSERT INTO topics VALUES('t', 0, 1, 1); \
             UPDATE meta SET records = 1",
        ],
        ROWS,
        DAMAGED,
        &[],
    ),
    File(
        Start::Ours,
        &[
            ENDPOINT,
            "INSERT INTO topics VALUES('t', 0, 1, 0); \
             UPDATE meta SET records = 1",
        ],
        ROWS,
        DAMAGED,
        &[],
    ),
    File(
        Start::Ours,
        &[
            ENDPOINT,
            "INSERT INTO topics VALUES('t', 0, 1, -1); \
             UPDATE meta SET records = 2; \
             UPDATE endpoints SET enabled_by = 1",
        ],
        ROWS,
        DAMAGED,
        &[],
    ),
    File(
        Start::Ours,
        &[
            TWO,
            "INSERT INTO topics VALUES('t', 0, 1, 2); \
             INSERT INTO topics VALUES('t', 1, 1, 3); \
             UPDATE meta SET records = 4",
        ],
        ROWS,
        "records 4 enabled",
        &[],
    ),
    File(
        Start::Ours,
        &[
            TWO,
            "INSERT INTO topics VALUES('t', 0, 1, 2); \
             INSERT INTO topics VALUES('t', 1, 1, 4); \
             UPDATE meta SET records = 4",
        ],
        ROWS,
        DAMAGED,
        &[],
    ),
    File(
        Start::Ours,
        &[
            TWO,
            "INSERT INTO topics VALUES('t', 1, 1, 0); \
             UPDATE meta SET records = 3; \
             UPDATE endpoints SET enabled_by = 2 WHERE put = 0",
        ],
        ROWS,
        DAMAGED,
        &[],
    ),
    File(
        Start::Ours,
        &[
            TWO,
            "INSERT INTO topics VALUES('t', 1, 1, 3); \
             UPDATE meta SET records = 4; \
             UPDATE endpoints SET enabled_by = 2 WHERE put = 0",
        ],
        ROWS,
        "records 4 enabled",
        &[],
    ),
    File(
        Start::Ours,
        &[
            ENDPOINT,
            "INSERT INTO endpoints VALUES(2, 'b', 'http://h/', 100, 1, 2, 2); \
             INSERT INTO secrets VALUES(2, 0, x'303132333435363738396162636465663031323334353637'); \
             UPDATE endpoints SET enabled_by = 3 WHERE put = 0",
            "INSERT INTO topics VALUES('t', 2, 1, 1); \
             UPDATE meta SET records = 4",
        ],
        ROWS,
        DAMAGED,
        &[],
    ),
    File(
        Start::Ours,
        &[
            ENDPOINT,
            "INSERT INTO endpoints VALUES(2, 'b', 'http://h/', 100, 1, 2, 2); \
             INSERT INTO secrets VALUES(2, 0, x'303132333435363738396162636465663031323334353637'); \
             UPDATE endpoints SET enabled_by = 3 WHERE put = 0",
            "INSERT INTO topics VALUES('t', 0, 1, 1); \
             UPDATE meta SET records = 4",
        ],
        ROWS,
        "records 4 enabled",
        &[],
    ),
];

#[test]
fn a_topic_is_decided_behind_its_endpoint(rt: HostRuntime) {
    check_all(&rt, rt.alloc(), &A_TOPIC_IS_DECIDED_BEHIND_ITS_ENDPOINT);
}

/// Conditions 2, 4, 5 and 8.
static A_RECORD_DECIDES_ONE_TOPIC_AND_NOTHING_ELSE: [File; 12] = [
    File(
        Start::Ours,
        &[
            TWO,
            "INSERT INTO topics VALUES('t', 0, 1, 1); \
             UPDATE meta SET records = 2",
        ],
        ROWS,
        DAMAGED,
        &[],
    ),
    File(
        Start::Ours,
        &[EVENT, "INSERT INTO topics VALUES('t', 0, 1, 1)"],
        ROWS,
        DAMAGED,
        &[],
    ),
    File(
        Start::Ours,
        &[
            EVENT,
            "INSERT INTO topics VALUES('t', 0, 1, 2); \
             UPDATE meta SET records = 3",
        ],
        ROWS,
        "records 3 enabled pending due 1000 attempts 0",
        &[],
    ),
    File(
        Start::Ours,
        &[ATTEMPTED, "INSERT INTO topics VALUES('t', 0, 1, 2)"],
        ROWS,
        DAMAGED,
        &[],
    ),
    File(
        Start::Ours,
        &[
            ATTEMPTED,
            "INSERT INTO topics VALUES('t', 0, 1, 3); \
             UPDATE meta SET records = 4",
        ],
        ROWS,
        "records 4 enabled pending due 1006 attempts 1",
        &[],
    ),
    File(
        Start::Ours,
        &[
            ENDPOINT,
            "INSERT INTO topics VALUES('t', 0, 1, 1); \
             INSERT INTO topics VALUES('u', 0, 1, 1); \
             UPDATE meta SET records = 2",
        ],
        ROWS,
        DAMAGED,
        &[],
    ),
    File(
        Start::Ours,
        &[
            TWO,
            "INSERT INTO topics VALUES('t', 0, 1, 2); \
             INSERT INTO topics VALUES('t', 1, 1, 2); \
             UPDATE meta SET records = 3",
        ],
        ROWS,
        DAMAGED,
        &[],
    ),
    File(
        Start::Ours,
        &[
            ENDPOINT,
            "INSERT INTO topics VALUES('t', 0, 1, 2); \
             INSERT INTO topics VALUES('u', 0, 1, 1); \
             UPDATE meta SET records = 3; \
             UPDATE endpoints SET secrets_by = 2",
        ],
        ROWS,
        DAMAGED,
        &[],
    ),
    File(
        Start::Ours,
        &[
            ENDPOINT,
            "INSERT INTO topics VALUES('t', 0, 1, 2); \
             INSERT INTO topics VALUES('u', 0, 1, 1); \
             UPDATE meta SET records = 3; \
             UPDATE endpoints SET enabled_by = 2",
        ],
        ROWS,
        DAMAGED,
        &[],
    ),
    File(
        Start::Ours,
        &[
            ENDPOINT,
            "INSERT INTO topics VALUES('t', 0, 1, 2); \
             INSERT INTO topics VALUES('u', 0, 1, 1); \
             UPDATE meta SET records = 4; \
             UPDATE endpoints SET enabled_by = 3",
        ],
        ROWS,
        "records 4 enabled",
        &[],
    ),
    File(
        Start::Ours,
        &[
            TWO,
            "INSERT INTO topics VALUES('t', 1, 1, 3); \
             INSERT INTO topics VALUES('u', 1, 1, 2); \
             UPDATE meta SET records = 4; \
             UPDATE endpoints SET enabled_by = 3 WHERE put = 0",
        ],
        ROWS,
        DAMAGED,
        &[],
    ),
    File(
        Start::Ours,
        &[
            TWO,
            "INSERT INTO topics VALUES('t', 1, 1, 3); \
             INSERT INTO topics VALUES('u', 1, 1, 2); \
             UPDATE meta SET records = 5; \
             UPDATE endpoints SET enabled_by = 4 WHERE put = 0",
        ],
        ROWS,
        "records 5 enabled",
        &[],
    ),
];

#[test]
fn a_record_decides_one_topic_and_nothing_else(rt: HostRuntime) {
    check_all(
        &rt,
        rt.alloc(),
        &A_RECORD_DECIDES_ONE_TOPIC_AND_NOTHING_ELSE,
    );
}

/// No condition but the first: records between them may have no row.
static NUMBERS_BETWEEN_TOPICS_NEED_NO_ROW: [File; 9] = [
    File(
        Start::Ours,
        &[
            ENDPOINT,
            "INSERT INTO topics VALUES('t', 0, 1, 3); \
             UPDATE meta SET records = 4",
        ],
        ROWS,
        "records 4 enabled",
        &[],
    ),
    File(
        Start::Ours,
        &[
            ENDPOINT,
            "INSERT INTO topics VALUES('t', 0, 1, 3); \
             UPDATE meta SET records = 5",
        ],
        ROWS,
        "records 5 enabled",
        &[],
    ),
    File(
        Start::Ours,
        &[
            ENDPOINT,
            "INSERT INTO topics VALUES('t', 0, 0, 6); \
             UPDATE meta SET records = 7; \
             UPDATE endpoints SET enabled_by = 4, secrets_by = 2",
        ],
        ROWS,
        "records 7 enabled",
        &[],
    ),
    File(
        Start::Ours,
        &[
            TWO,
            "INSERT INTO topics VALUES('t', 0, 1, 2); \
             INSERT INTO topics VALUES('t', 1, 1, 4); \
             UPDATE meta SET records = 5",
        ],
        ROWS,
        "records 5 enabled",
        &[],
    ),
    File(
        Start::Ours,
        &[
            TWO,
            "INSERT INTO topics VALUES('t', 0, 1, 2); \
             INSERT INTO topics VALUES('t', 1, 1, 3); \
             INSERT INTO topics VALUES('u', 0, 1, 5); \
             UPDATE meta SET records = 6",
        ],
        ROWS,
        "records 6 enabled",
        &[],
    ),
    File(
        Start::Ours,
        &[
            TWO,
            "INSERT INTO topics VALUES('t', 0, 1, 2); \
             INSERT INTO topics VALUES('t', 1, 1, 3); \
             UPDATE meta SET records = 6; \
             INSERT INTO deliveries VALUES(5, 0, 'msg_1', 1000, x'7b7d')",
        ],
        ROWS,
        "records 6 enabled pending due 1000 attempts 0",
        &[],
    ),
    File(
        Start::Ours,
        &[
            "INSERT INTO endpoints VALUES(1, 'a', 'http://h/', 100, 1, 1, 1); \
             INSERT INTO secrets VALUES(1, 0, x'303132333435363738396162636465663031323334353637')",
            "INSERT INTO topics VALUES('t', 1, 1, 2); \
             UPDATE meta SET records = 3",
        ],
        ROWS,
        "records 3 enabled",
        &[],
    ),
    File(
        Start::Ours,
        &[
            ENDPOINT,
            "INSERT INTO topics VALUES('t', 0, 1, 4611686018427387903); \
             UPDATE meta SET records = 4611686018427387904",
        ],
        ROWS,
        "records 4611686018427387904 enabled",
        &[],
    ),
    File(
        Start::Ours,
        &[
            ENDPOINT,
            "INSERT INTO topics VALUES('t', 0, 1, 4611686018427387904); \
             UPDATE meta SET records = 4611686018427387905",
        ],
        ROWS,
        DAMAGED,
        &[],
    ),
];

#[test]
fn numbers_between_topics_need_no_row(rt: HostRuntime) {
    check_all(&rt, rt.alloc(), &NUMBERS_BETWEEN_TOPICS_NEED_NO_ROW);
}

const COUNTS: Queries = Queries::These(&[
    "SELECT * FROM meta",
    "SELECT count(*) FROM endpoints",
    "SELECT count(*) FROM topics",
]);

/// 4096 topics of the endpoint.
const TOPICS: &str = "INSERT INTO topics \
     WITH RECURSIVE n(k) AS (SELECT 1 UNION ALL SELECT k + 1 FROM n WHERE k < 4096) \
     SELECT 't' || (k - 1), 0, 1, k FROM n; \
     UPDATE meta SET records = 4097";

/// Condition 8.
static MANY: [File; 2] = [
    File(
        Start::Ours,
        &[ENDPOINT, TOPICS],
        COUNTS,
        "records 4097 enabled",
        &[("SELECT count(*) FROM topics WHERE set_by = 4096", 1)],
    ),
    File(
        Start::Ours,
        &[
            ENDPOINT,
            TOPICS,
            "INSERT INTO topics VALUES('t4096', 0, 1, 4097); \
             UPDATE meta SET records = 4098",
        ],
        COUNTS,
        DAMAGED,
        &[("SELECT count(*) FROM topics WHERE set_by = 4097", 1)],
    ),
];

#[test]
fn at_most_4096_topics(rt: HostRuntime) {
    check_all(&rt, rt.alloc(), &MANY);
}
