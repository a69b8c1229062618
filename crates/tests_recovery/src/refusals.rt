//! A file for each refusal. The rows are as they were.

use crate::conditions::ENDPOINT;
use crate::openings::{ATTEMPTED, File, Queries, ROWS, Start, check_all};

const NOT_OURS: &str = "NotOurs";

const DAMAGED: &str = "Damaged";

static WRONG_META: [File; 8] = [
    File(
        Start::Ours,
        &[ATTEMPTED, "DELETE FROM meta"],
        ROWS,
        NOT_OURS,
        &[(
            "SELECT count(*) FROM attempts WHERE seq = 2 AND at = 1001",
            1,
        )],
    ),
    File(
        Start::Ours,
        &[ATTEMPTED, "UPDATE meta SET app = 'other'"],
        ROWS,
        NOT_OURS,
        &[("SELECT count(*) FROM meta WHERE app = 'other'", 1)],
    ),
    File(
        Start::Ours,
        &[ATTEMPTED, "UPDATE meta SET app = 'other', version = 3"],
        ROWS,
        NOT_OURS,
        &[(
            "SELECT count(*) FROM meta WHERE app = 'other' AND version = 3",
            1,
        )],
    ),
    File(
        Start::Ours,
        &[ATTEMPTED, "UPDATE meta SET version = 3"],
        ROWS,
        "NewerVersion",
        &[("SELECT count(*) FROM meta WHERE version = 3", 1)],
    ),
    File(
        Start::Ours,
        &[ATTEMPTED, "UPDATE meta SET version = 3, records = -1"],
        ROWS,
        "NewerVersion",
        &[(
            "SELECT count(*) FROM meta WHERE version = 3 AND records = -1",
            1,
        )],
    ),
    File(
        Start::Ours,
        &[ATTEMPTED, "UPDATE meta SET version = 0"],
        ROWS,
        DAMAGED,
        &[("SELECT count(*) FROM meta WHERE version = 0", 1)],
    ),
    File(
        Start::Ours,
        &[ATTEMPTED, "UPDATE meta SET records = -1"],
        ROWS,
        DAMAGED,
        &[("SELECT count(*) FROM meta WHERE records = -1", 1)],
    ),
    File(
        Start::Ours,
        &[
            ATTEMPTED,
            "UPDATE meta SET records = 4611686018427387905; UPDATE endpoints SET secrets_by = 4611686018427387904",
        ],
        ROWS,
        DAMAGED,
        &[(
            "SELECT count(*) FROM meta WHERE records = 4611686018427387905",
            1,
        )],
    ),
];

#[test]
fn what_meta_tells_is_refused(rt: HostRuntime) {
    check_all(&rt, rt.alloc(), &WRONG_META);
}

static WRONG_ROWS: [File; 9] = [
    File(
        Start::Ours,
        &[
            ATTEMPTED,
            "UPDATE attempts SET seq = -1; UPDATE meta SET records = 2",
        ],
        ROWS,
        DAMAGED,
        &[("SELECT count(*) FROM attempts WHERE seq = -1", 1)],
    ),
    File(
        Start::Ours,
        &[
            ATTEMPTED,
            "DELETE FROM attempts; UPDATE deliveries SET seq = -1; UPDATE meta SET records = 1",
        ],
        ROWS,
        DAMAGED,
        &[("SELECT count(*) FROM deliveries WHERE seq = -1", 1)],
    ),
    File(
        Start::Ours,
        &[ATTEMPTED, "UPDATE endpoints SET name = 'A'"],
        ROWS,
        DAMAGED,
        &[("SELECT count(*) FROM endpoints WHERE name = 'A'", 1)],
    ),
    File(
        Start::Ours,
        &[ATTEMPTED, "UPDATE endpoints SET url = 'ftp://h/'"],
        ROWS,
        DAMAGED,
        &[("SELECT count(*) FROM endpoints WHERE url = 'ftp://h/'", 1)],
    ),
    File(
        Start::Ours,
        &[ATTEMPTED, "UPDATE endpoints SET max = 0"],
        ROWS,
        DAMAGED,
        &[("SELECT count(*) FROM endpoints WHERE max = 0", 1)],
    ),
    File(
        Start::Ours,
        &[ATTEMPTED, "UPDATE endpoints SET enabled = 2"],
        ROWS,
        DAMAGED,
        &[("SELECT count(*) FROM endpoints WHERE enabled = 2", 1)],
    ),
    File(
        Start::Ours,
        &[ATTEMPTED, "UPDATE deliveries SET at = -1"],
        ROWS,
        DAMAGED,
        &[("SELECT count(*) FROM deliveries WHERE at = -1", 1)],
    ),
    File(
        Start::Ours,
        &[ATTEMPTED, "UPDATE attempts SET status = 99"],
        ROWS,
        DAMAGED,
        &[("SELECT count(*) FROM attempts WHERE status = 99", 1)],
    ),
    File(
        Start::Ours,
        &[ATTEMPTED, "UPDATE attempts SET number = 2"],
        ROWS,
        DAMAGED,
        &[("SELECT count(*) FROM attempts WHERE number = 2", 1)],
    ),
];

#[test]
fn rows_are_refused(rt: HostRuntime) {
    check_all(&rt, rt.alloc(), &WRONG_ROWS);
}

static WRONG_SECRETS: [File; 4] = [
    File(
        Start::Ours,
        &[ATTEMPTED, "DELETE FROM secrets"],
        ROWS,
        DAMAGED,
        &[("SELECT count(*) FROM endpoints WHERE put = 0", 1)],
    ),
    File(
        Start::Ours,
        &[
            ATTEMPTED,
            "UPDATE secrets SET secret = x'3031323334353637383961626364656630313233343536'",
        ],
        ROWS,
        DAMAGED,
        &[(
            "SELECT count(*) FROM secrets WHERE secret = x'3031323334353637383961626364656630313233343536'",
            1,
        )],
    ),
    File(
        Start::Ours,
        &[
            ATTEMPTED,
            "INSERT INTO secrets VALUES(0, 2, x'383961626364656630313233343536373839616263646566')",
        ],
        ROWS,
        DAMAGED,
        &[("SELECT count(*) FROM secrets WHERE place = 2", 1)],
    ),
    File(
        Start::Ours,
        &[
            ATTEMPTED,
            "INSERT INTO secrets VALUES(0, 1, x'383961626364656630313233343536373839616263646566'); \
         INSERT INTO secrets VALUES(0, 2, x'383961626364656630313233343536373839616263646566'); \
         INSERT INTO secrets VALUES(0, 3, x'383961626364656630313233343536373839616263646566'); \
         INSERT INTO secrets VALUES(0, 4, x'383961626364656630313233343536373839616263646566')",
        ],
        ROWS,
        DAMAGED,
        &[("SELECT count(*) FROM secrets WHERE place = 4", 1)],
    ),
];

#[test]
fn secrets_are_refused(rt: HostRuntime) {
    check_all(&rt, rt.alloc(), &WRONG_SECRETS);
}

static A_NEGATIVE_PUT: [File; 1] = [File(
    Start::Ours,
    &[
        "INSERT INTO endpoints VALUES(-1, 'a', 'http://h/', 100, 1, -1, -1); \
       INSERT INTO secrets VALUES(-1, 0, x'303132333435363738396162636465663031323334353637')",
    ],
    ROWS,
    DAMAGED,
    &[("SELECT count(*) FROM endpoints WHERE put = -1", 1)],
)];

#[test]
fn a_negative_put_is_refused(rt: HostRuntime) {
    check_all(&rt, rt.alloc(), &A_NEGATIVE_PUT);
}

const SCHEMA: Queries = Queries::These(&["SELECT * FROM sqlite_schema"]);

static WITHOUT_THE_TABLES: [File; 2] = [
    File(
        Start::Nothing,
        &[],
        SCHEMA,
        NOT_OURS,
        &[("SELECT count(*) FROM sqlite_schema", 0)],
    ),
    File(
        Start::Nothing,
        &[
            "CREATE TABLE t(a); CREATE TABLE u(a); CREATE TABLE v(a); CREATE TABLE w(a); \
           CREATE TABLE x(a); INSERT INTO x VALUES(9)",
        ],
        SCHEMA,
        NOT_OURS,
        &[
            ("SELECT count(*) FROM sqlite_schema", 5),
            ("SELECT a FROM x", 9),
        ],
    ),
];

#[test]
fn a_store_without_the_tables_is_not_ours(rt: HostRuntime) {
    check_all(&rt, rt.alloc(), &WITHOUT_THE_TABLES);
}

static OTHER_TABLES: [File; 5] = [
    File(
        Start::Ours,
        &[
            ATTEMPTED,
            "CREATE TABLE notes(seq INTEGER REFERENCES deliveries(seq)); INSERT INTO notes VALUES(1)",
        ],
        ROWS,
        "records 3 enabled pending due 1006 attempts 1",
        &[("SELECT seq FROM notes", 1)],
    ),
    File(
        Start::Ours,
        &[
            ATTEMPTED,
            "CREATE TABLE notes(a); UPDATE meta SET version = 3",
        ],
        ROWS,
        "NewerVersion",
        &[("SELECT count(*) FROM notes", 0)],
    ),
    File(
        Start::Ours,
        &[
            ATTEMPTED,
            "DROP TABLE attempts; UPDATE meta SET version = 3",
        ],
        SCHEMA,
        "NewerVersion",
        &[("SELECT count(*) FROM deliveries", 1)],
    ),
    File(
        Start::Ours,
        &[ATTEMPTED, "DROP TABLE attempts"],
        SCHEMA,
        NOT_OURS,
        &[("SELECT count(*) FROM deliveries", 1)],
    ),
    File(
        Start::Ours,
        &[ATTEMPTED, "DROP TABLE topics"],
        SCHEMA,
        NOT_OURS,
        &[("SELECT count(*) FROM attempts", 1)],
    ),
];

#[test]
fn other_tables_are_passed_over(rt: HostRuntime) {
    check_all(&rt, rt.alloc(), &OTHER_TABLES);
}

static WITHOUT_A_KEY: [File; 2] = [
    File(
        Start::Ours,
        &[
            ATTEMPTED,
            "DROP TABLE attempts; CREATE TABLE attempts(seq INTEGER PRIMARY KEY, \
           delivery INTEGER NOT NULL REFERENCES deliveries(seq), number INTEGER NOT NULL, \
           status INTEGER NOT NULL, at INTEGER NOT NULL) STRICT; \
           INSERT INTO attempts VALUES(2, 1, 1, 500, 1001)",
        ],
        ROWS,
        DAMAGED,
        &[("SELECT count(*) FROM attempts", 1)],
    ),
    File(
        Start::Ours,
        &[
            ATTEMPTED,
            "DROP TABLE secrets; CREATE TABLE secrets(endpoint INTEGER NOT NULL, \
           place INTEGER NOT NULL, secret BLOB NOT NULL, PRIMARY KEY(endpoint, place)) STRICT; \
           INSERT INTO secrets VALUES(0, 0, x'303132333435363738396162636465663031323334353637'); \
           INSERT INTO secrets VALUES(7, 0, x'303132333435363738396162636465663031323334353637')",
        ],
        ROWS,
        DAMAGED,
        &[("SELECT count(*) FROM secrets", 2)],
    ),
];

#[test]
fn tables_without_a_key_are_damaged(rt: HostRuntime) {
    check_all(&rt, rt.alloc(), &WITHOUT_A_KEY);
}

const COUNTS: Queries = Queries::These(&[
    "SELECT count(*) FROM meta",
    "SELECT count(*) FROM endpoints",
    "SELECT count(*) FROM secrets",
    "SELECT count(*) FROM deliveries",
    "SELECT count(*) FROM attempts",
]);

static BODIES: [File; 2] = [
    File(
        Start::Body(65_536),
        &[],
        COUNTS,
        "records 3 enabled pending due 1006 attempts 1",
        &[(
            "SELECT count(*) FROM deliveries WHERE length(body) = 65536",
            1,
        )],
    ),
    File(
        Start::Body(65_537),
        &[],
        COUNTS,
        DAMAGED,
        &[(
            "SELECT count(*) FROM deliveries WHERE length(body) = 65537",
            1,
        )],
    ),
];

#[test]
fn a_body_has_65536_bytes_at_most(rt: HostRuntime) {
    check_all(&rt, rt.alloc(), &BODIES);
}

/// 256 endpoints with a secret each.
const ENDPOINTS: &str = "INSERT INTO endpoints \
     WITH RECURSIVE n(k) AS (SELECT 0 UNION ALL SELECT k + 1 FROM n WHERE k < 255) \
     SELECT k, 'e' || k, 'http://h/', 100, 1, k, k FROM n; \
     INSERT INTO secrets SELECT put, 0, x'303132333435363738396162636465663031323334353637' FROM endpoints; \
     UPDATE meta SET records = 256";

static MANY: [File; 2] = [
    File(
        Start::Ours,
        &[ENDPOINTS],
        COUNTS,
        "records 256",
        &[("SELECT count(*) FROM endpoints WHERE put = 255", 1)],
    ),
    File(
        Start::Ours,
        &[
            ENDPOINTS,
            "INSERT INTO endpoints VALUES(256, 'e256', 'http://h/', 100, 1, 256, 256); \
             INSERT INTO secrets VALUES(256, 0, x'303132333435363738396162636465663031323334353637'); \
             UPDATE meta SET records = 257",
        ],
        COUNTS,
        DAMAGED,
        &[("SELECT count(*) FROM endpoints WHERE put = 256", 1)],
    ),
];

#[test]
fn at_most_256_endpoints(rt: HostRuntime) {
    check_all(&rt, rt.alloc(), &MANY);
}

/// Its desk refuses an event and two commands.
static FULL: [File; 2] = [
    File(
        Start::Ours,
        &[
            ENDPOINT,
            "UPDATE endpoints SET secrets_by = 4611686018427387903; \
         UPDATE meta SET records = 4611686018427387904",
        ],
        ROWS,
        "records 4611686018427387904 enabled",
        &[],
    ),
    File(
        Start::Ours,
        &[ENDPOINT, "UPDATE meta SET records = 4611686018427387904"],
        ROWS,
        "records 4611686018427387904 enabled",
        &[],
    ),
];

#[test]
fn a_store_that_is_full_takes_nothing(rt: HostRuntime) {
    check_all(&rt, rt.alloc(), &FULL);
}
