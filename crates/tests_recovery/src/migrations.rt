//! Stores whose tables are of version 1, and of others: what `adopt`, `migrate` and `reopen` answer,
//! and what they leave.
ghost use Rattle.std.specs.Prelude.{◌≡◌};

use crate::conditions::{DAMAGED, ENDPOINT, EVENT};
use crate::openings::{
    ATTEMPTED, Start, check_adopt, check_migrate, check_reopen, look, made, pool_of, same_text,
};
use crate::stores::{Count, again};
use permits::PARTS;
use sqlite::{Alter, Connection, MemStore};
use std::alloc::Global;
use std::marker::Brand;
use std::process::Abort;
use std::sync::ledger::{Blank, Ledger};

/// What is executed in a store with the tables of version 1, what `adopt` answers then, what
/// `migrate` answers, and numbers that the store has after it.
struct Old(
    &'static [&'static str],
    &'static str,
    &'static str,
    &'static [Count],
);

/// All rows, but not the version.
const ROWS: &[&str] = &[
    "SELECT k, app, records FROM meta",
    "SELECT rowid, * FROM endpoints",
    "SELECT rowid, * FROM secrets",
    "SELECT rowid, * FROM deliveries",
    "SELECT rowid, * FROM attempts",
];

/// What a migration changes, and no refusal.
const CHANGED: &[&str] = &["SELECT * FROM sqlite_schema", "SELECT version FROM meta"];

const OLD_VERSION: &str = "OldVersion";

const NEWER_VERSION: &str = "NewerVersion";

const NOT_OURS: &str = "NotOurs";

const AN_ATTEMPT: &str = "records 3 enabled pending due 1006 attempts 1";

/// The table of version 2, as `docs/FORMATS.md` has it.
const TOPICS: &str =
    "CREATE TABLE topics(topic TEXT NOT NULL, endpoint INTEGER NOT NULL REFERENCES endpoints(put), \
     subscribed INTEGER NOT NULL, set_by INTEGER NOT NULL, PRIMARY KEY(topic, endpoint)) STRICT";

const IS_2: &str = "UPDATE meta SET version = 2";

const MIGRATED: &[Count] = &[
    ("SELECT version FROM meta", 2),
    ("SELECT count(*) FROM topics", 0),
    (
        "SELECT count(*) FROM sqlite_schema WHERE type = 'table' AND sql = \
         'CREATE TABLE topics(topic TEXT NOT NULL, endpoint INTEGER NOT NULL REFERENCES endpoints(put), \
         subscribed INTEGER NOT NULL, set_by INTEGER NOT NULL, PRIMARY KEY(topic, endpoint)) STRICT'",
        1,
    ),
    (
        "SELECT count(*) FROM sqlite_schema WHERE sql IS NOT NULL",
        6,
    ),
];

const KEPT: &[Count] = &[
    ("SELECT version FROM meta", 1),
    (
        "SELECT count(*) FROM sqlite_schema WHERE sql IS NOT NULL",
        5,
    ),
];

/// Rows of legal histories.
static SOUND: [Old; 12] = [
    Old(&[], OLD_VERSION, "records 0", MIGRATED),
    Old(&[ENDPOINT], OLD_VERSION, "records 1 enabled", MIGRATED),
    Old(
        &[EVENT],
        OLD_VERSION,
        "records 2 enabled pending due 1000 attempts 0",
        MIGRATED,
    ),
    Old(&[ATTEMPTED], OLD_VERSION, AN_ATTEMPT, MIGRATED),
    Old(
        &[
            ATTEMPTED,
            "UPDATE attempts SET status = 410; UPDATE endpoints SET enabled = 0, enabled_by = 2",
        ],
        OLD_VERSION,
        "records 3 disabled pending due 1001 attempts 1",
        MIGRATED,
    ),
    Old(
        &[
            ENDPOINT,
            "UPDATE meta SET records = 2; UPDATE endpoints SET secrets_by = 1",
        ],
        OLD_VERSION,
        "records 2 enabled",
        MIGRATED,
    ),
    Old(
        &[
            ENDPOINT,
            "UPDATE endpoints SET secrets_by = 4611686018427387903; \
             UPDATE meta SET records = 4611686018427387904",
        ],
        OLD_VERSION,
        "records 4611686018427387904 enabled",
        MIGRATED,
    ),
    Old(
        &[ATTEMPTED, "UPDATE meta SET records = 4"],
        OLD_VERSION,
        "records 4 enabled pending due 1006 attempts 1",
        MIGRATED,
    ),
    Old(
        &[ENDPOINT, "UPDATE meta SET records = 2"],
        OLD_VERSION,
        "records 2 enabled",
        MIGRATED,
    ),
    Old(
        &["UPDATE meta SET records = 1"],
        OLD_VERSION,
        "records 1",
        MIGRATED,
    ),
    Old(
        &[ENDPOINT, "UPDATE meta SET records = 4611686018427387904"],
        OLD_VERSION,
        "records 4611686018427387904 enabled",
        MIGRATED,
    ),
    Old(
        &[
            ENDPOINT,
            "UPDATE endpoints SET enabled = 0, enabled_by = 2; \
             UPDATE meta SET records = 5",
        ],
        OLD_VERSION,
        "records 5 disabled",
        MIGRATED,
    ),
];

#[test]
fn version_1_becomes_version_2(rt: HostRuntime) {
    check_all(&rt, rt.alloc(), &SOUND, ROWS);
}

/// Tables, indexes and views of others stand beside them.
static BESIDE_OTHERS: [Old; 2] = [
    Old(
        &[
            ATTEMPTED,
            "CREATE TABLE notes(seq INTEGER REFERENCES deliveries(seq)); INSERT INTO notes VALUES(1)",
        ],
        OLD_VERSION,
        AN_ATTEMPT,
        &[
            ("SELECT version FROM meta", 2),
            ("SELECT count(*) FROM topics", 0),
            ("SELECT seq FROM notes", 1),
        ],
    ),
    Old(
        &[
            ATTEMPTED,
            "CREATE INDEX by_topic ON attempts(at); CREATE VIEW topic AS SELECT at FROM attempts",
        ],
        OLD_VERSION,
        AN_ATTEMPT,
        &[
            ("SELECT version FROM meta", 2),
            ("SELECT count(*) FROM topics", 0),
            ("SELECT at FROM topic", 1001),
        ],
    ),
];

#[test]
fn others_are_passed_over(rt: HostRuntime) {
    check_all(&rt, rt.alloc(), &BESIDE_OTHERS, ROWS);
}

/// Each breaks a condition on rows of `docs/FORMATS.md`: 1 to 7, and then 5, 1, 1 and 1 again.
static UNSOUND: [Old; 11] = [
    Old(
        &[ATTEMPTED, "UPDATE meta SET records = 2"],
        OLD_VERSION,
        DAMAGED,
        KEPT,
    ),
    Old(
        &[ATTEMPTED, "UPDATE attempts SET seq = 1"],
        OLD_VERSION,
        DAMAGED,
        KEPT,
    ),
    Old(
        &[ATTEMPTED, "UPDATE secrets SET place = 1"],
        OLD_VERSION,
        DAMAGED,
        KEPT,
    ),
    Old(
        &[ATTEMPTED, "UPDATE endpoints SET secrets_by = 2"],
        OLD_VERSION,
        DAMAGED,
        KEPT,
    ),
    Old(
        &[ATTEMPTED, "UPDATE endpoints SET enabled = 0"],
        OLD_VERSION,
        DAMAGED,
        KEPT,
    ),
    Old(
        &[ATTEMPTED, "UPDATE deliveries SET id = 'a.b'"],
        OLD_VERSION,
        DAMAGED,
        KEPT,
    ),
    Old(
        &[ATTEMPTED, "UPDATE attempts SET number = 2"],
        OLD_VERSION,
        DAMAGED,
        KEPT,
    ),
    Old(
        &[ATTEMPTED, "UPDATE attempts SET status = 410"],
        OLD_VERSION,
        DAMAGED,
        KEPT,
    ),
    Old(
        &[ENDPOINT, "UPDATE meta SET records = 4611686018427387905"],
        OLD_VERSION,
        DAMAGED,
        KEPT,
    ),
    Old(
        &["UPDATE meta SET records = -1"],
        OLD_VERSION,
        DAMAGED,
        KEPT,
    ),
    Old(
        &[
            ENDPOINT,
            "UPDATE endpoints SET secrets_by = 4611686018427387904; \
             UPDATE meta SET records = 4611686018427387905",
        ],
        OLD_VERSION,
        DAMAGED,
        KEPT,
    ),
];

#[test]
fn unsound_rows_stay_of_version_1(rt: HostRuntime) {
    check_all(&rt, rt.alloc(), &UNSOUND, ROWS);
}

/// A key and a reference are lacking.
static WITHOUT_A_KEY: [Old; 2] = [
    Old(
        &[
            ATTEMPTED,
            "DROP TABLE attempts; CREATE TABLE attempts(seq INTEGER PRIMARY KEY, \
             delivery INTEGER NOT NULL REFERENCES deliveries(seq), number INTEGER NOT NULL, \
             status INTEGER NOT NULL, at INTEGER NOT NULL) STRICT; \
             INSERT INTO attempts VALUES(2, 1, 1, 500, 1001)",
        ],
        OLD_VERSION,
        DAMAGED,
        KEPT,
    ),
    Old(
        &[
            ENDPOINT,
            "DROP TABLE secrets; CREATE TABLE secrets(endpoint INTEGER NOT NULL, \
             place INTEGER NOT NULL, secret BLOB NOT NULL, PRIMARY KEY(endpoint, place)) STRICT; \
             INSERT INTO secrets VALUES(0, 0, x'303132333435363738396162636465663031323334353637')",
        ],
        OLD_VERSION,
        DAMAGED,
        KEPT,
    ),
];

#[test]
fn tables_without_a_key_stay_of_version_1(rt: HostRuntime) {
    check_all(&rt, rt.alloc(), &WITHOUT_A_KEY, ROWS);
}

/// The version, and what has the name of the table of topics.
const TAKEN: &[Count] = &[
    ("SELECT version FROM meta", 1),
    (
        "SELECT count(*) FROM sqlite_schema WHERE name IN ('topics', 'Topics')",
        1,
    ),
];

/// A table, an index or a view has the name of the table of topics, in any case of its letters.
static THE_NAME_IS_TAKEN: [Old; 6] = [
    Old(
        &[ATTEMPTED, "CREATE TABLE topics(a)"],
        OLD_VERSION,
        NOT_OURS,
        TAKEN,
    ),
    Old(
        &[ATTEMPTED, "CREATE TABLE Topics(a)"],
        OLD_VERSION,
        NOT_OURS,
        TAKEN,
    ),
    Old(&[ATTEMPTED, TOPICS], OLD_VERSION, NOT_OURS, TAKEN),
    Old(
        &[ATTEMPTED, "CREATE INDEX topics ON attempts(at)"],
        OLD_VERSION,
        NOT_OURS,
        TAKEN,
    ),
    Old(
        &[ATTEMPTED, "CREATE VIEW topics AS SELECT at FROM attempts"],
        OLD_VERSION,
        NOT_OURS,
        TAKEN,
    ),
    Old(&[TOPICS], OLD_VERSION, NOT_OURS, TAKEN),
];

#[test]
fn a_store_that_uses_the_name_is_not_ours(rt: HostRuntime) {
    check_all(&rt, rt.alloc(), &THE_NAME_IS_TAKEN, ROWS);
}

/// What is asked of a store without a table of attempts.
const FEWER_ROWS: &[&str] = &[
    "SELECT k, app, records FROM meta",
    "SELECT rowid, * FROM endpoints",
    "SELECT rowid, * FROM secrets",
    "SELECT rowid, * FROM deliveries",
];

/// A table is lacking.
static A_TABLE_LESS: [Old; 3] = [
    Old(
        &[EVENT, "DROP TABLE attempts"],
        OLD_VERSION,
        NOT_OURS,
        &[("SELECT version FROM meta", 1)],
    ),
    Old(
        &[EVENT, "DROP TABLE attempts", TOPICS, IS_2],
        NOT_OURS,
        NOT_OURS,
        &[("SELECT version FROM meta", 2)],
    ),
    Old(
        &[EVENT, "DROP TABLE attempts; UPDATE meta SET version = 3"],
        NEWER_VERSION,
        NEWER_VERSION,
        &[("SELECT version FROM meta", 3)],
    ),
];

#[test]
fn a_store_that_lacks_a_table_is_not_ours(rt: HostRuntime) {
    check_all(&rt, rt.alloc(), &A_TABLE_LESS, FEWER_ROWS);
}

const STAYS_2: &[Count] = &[("SELECT version FROM meta", 2)];

/// Sound and damaged.
static OF_VERSION_2: [Old; 10] = [
    Old(&[ATTEMPTED, TOPICS, IS_2], AN_ATTEMPT, AN_ATTEMPT, MIGRATED),
    Old(&[TOPICS, IS_2], "records 0", "records 0", MIGRATED),
    Old(
        &[ATTEMPTED, TOPICS, IS_2, "UPDATE attempts SET number = 2"],
        DAMAGED,
        DAMAGED,
        STAYS_2,
    ),
    Old(
        &[
            ATTEMPTED,
            TOPICS,
            IS_2,
            "INSERT INTO topics VALUES('t', 0, 1, 3); UPDATE meta SET records = 4",
        ],
        "records 4 enabled pending due 1006 attempts 1",
        "records 4 enabled pending due 1006 attempts 1",
        &[
            ("SELECT version FROM meta", 2),
            (
                "SELECT count(*) FROM topics WHERE topic = 't' AND endpoint = 0 AND subscribed = 1 AND set_by = 3",
                1,
            ),
        ],
    ),
    Old(
        &[
            ATTEMPTED,
            TOPICS,
            IS_2,
            "INSERT INTO topics VALUES('t', 0, 1, 2); UPDATE meta SET records = 4",
        ],
        DAMAGED,
        DAMAGED,
        STAYS_2,
    ),
    Old(&[ATTEMPTED, IS_2], NOT_OURS, NOT_OURS, STAYS_2),
    Old(
        &[ATTEMPTED, "CREATE INDEX topics ON attempts(at)", IS_2],
        NOT_OURS,
        NOT_OURS,
        STAYS_2,
    ),
    Old(
        &[
            ATTEMPTED,
            "CREATE TABLE topics(topic TEXT NOT NULL, endpoint INTEGER NOT NULL, \
             subscribed INTEGER NOT NULL, set_by INTEGER NOT NULL, PRIMARY KEY(topic, endpoint)) STRICT",
            IS_2,
        ],
        DAMAGED,
        DAMAGED,
        STAYS_2,
    ),
    Old(
        &[
            ATTEMPTED,
            "CREATE TABLE topics(topic TEXT NOT NULL, \
             endpoint INTEGER NOT NULL REFERENCES endpoints(put), \
             subscribed INTEGER NOT NULL, set_by INTEGER NOT NULL) STRICT",
            IS_2,
        ],
        DAMAGED,
        DAMAGED,
        STAYS_2,
    ),
    Old(
        &[ATTEMPTED, TOPICS, IS_2, "CREATE TABLE notes(a)"],
        AN_ATTEMPT,
        AN_ATTEMPT,
        &[
            ("SELECT version FROM meta", 2),
            ("SELECT count(*) FROM notes", 0),
        ],
    ),
];

#[test]
fn version_2_is_only_read(rt: HostRuntime) {
    check_all(&rt, rt.alloc(), &OF_VERSION_2, ROWS);
}

/// Of version 3, sound and damaged, and below 1; and what doesn't name the relay.
static OF_OTHERS: [Old; 9] = [
    Old(
        &[ATTEMPTED, "UPDATE meta SET version = 3"],
        NEWER_VERSION,
        NEWER_VERSION,
        &[("SELECT version FROM meta", 3)],
    ),
    Old(
        &[ATTEMPTED, TOPICS, "UPDATE meta SET version = 3"],
        NEWER_VERSION,
        NEWER_VERSION,
        &[("SELECT version FROM meta", 3)],
    ),
    Old(
        &[
            ATTEMPTED,
            "UPDATE attempts SET number = 2; UPDATE meta SET version = 3",
        ],
        NEWER_VERSION,
        NEWER_VERSION,
        &[("SELECT version FROM meta", 3)],
    ),
    Old(
        &[ATTEMPTED, "UPDATE meta SET version = 9223372036854775807"],
        NEWER_VERSION,
        NEWER_VERSION,
        &[],
    ),
    Old(
        &[ATTEMPTED, "UPDATE meta SET version = 0"],
        DAMAGED,
        DAMAGED,
        &[("SELECT version FROM meta", 0)],
    ),
    Old(
        &[ATTEMPTED, TOPICS, "UPDATE meta SET version = 0"],
        DAMAGED,
        DAMAGED,
        &[("SELECT version FROM meta", 0)],
    ),
    Old(
        &[ATTEMPTED, "UPDATE meta SET version = -1"],
        DAMAGED,
        DAMAGED,
        &[("SELECT version FROM meta", -1)],
    ),
    Old(
        &[ATTEMPTED, "UPDATE meta SET app = 'other'"],
        NOT_OURS,
        NOT_OURS,
        &[("SELECT version FROM meta", 1)],
    ),
    Old(
        &[ATTEMPTED, "DELETE FROM meta"],
        NOT_OURS,
        NOT_OURS,
        &[("SELECT count(*) FROM meta", 0)],
    ),
];

#[test]
fn other_versions_are_only_read(rt: HostRuntime) {
    check_all(&rt, rt.alloc(), &OF_OTHERS, ROWS);
}

/// Whether the vault answers so, and writes nothing.
fn check_read<S: Alter>(
    rt: &impl Abort,
    alloc: Global,
    conn: Connection<S>,
    wanted: &str,
    place: usize,
) -> Connection<S> {
    let mut conn = conn;
    let before = look(rt, alloc, &mut conn, CHANGED, &[]);
    let mut conn = check_adopt(rt, alloc, conn, wanted, place);
    same_text(
        rt,
        &look(rt, alloc, &mut conn, CHANGED, &[]),
        &before,
        place,
    );
    conn
}

/// Whether a store that was migrated is so again with this answer, and nothing is written.
fn check_migrated<S: Alter>(
    rt: &impl Abort,
    alloc: Global,
    conn: Connection<S>,
    old: &Old,
    place: usize,
) -> Connection<S> {
    let mut conn = conn;
    let once = look(rt, alloc, &mut conn, CHANGED, old.3);
    let mut conn = check_migrate(rt, alloc, conn, old.2, place);
    same_text(rt, &look(rt, alloc, &mut conn, CHANGED, &[]), &once, place);
    conn
}

/// Whether the vault of the store answers so, and it has the rows that it had.
fn check_vault(rt: &impl Abort, alloc: Global, old: &Old, rows: &[&str], place: usize) {
    let mut conn = made(rt, alloc, Start::First, old.0);
    let before = look(rt, alloc, &mut conn, rows, &[]);
    let conn = check_read(rt, alloc, conn, old.1, place);
    let conn = check_migrate(rt, alloc, conn, old.2, place);
    let mut conn = check_migrated(rt, alloc, again(rt, alloc, conn), old, place);
    same_text(rt, &look(rt, alloc, &mut conn, rows, &[]), &before, place);
}

/// The same of its desk.
fn check_desk<L: Ledger, S: Alter + Drop>(
    rt: &impl Abort,
    alloc: Global,
    blank: Blank,
    conn: Connection<S>,
    old: &Old,
    rows: &[&str],
    place: usize,
)
    requires name { blank.name ≡ L.name }
    requires parts { blank.parts ≡ L.parts }
    requires enough { blank.parts ≡ PARTS }
{
    let pool = pool_of::<L>(rt, alloc, blank);
    let mut conn = conn;
    let before = look(rt, alloc, &mut conn, rows, &[]);
    let mut conn = check_reopen(rt, alloc, pool, conn, old.2, place);
    same_text(rt, &look(rt, alloc, &mut conn, rows, old.3), &before, place);
}

fn check(rt: &impl Abort, alloc: Global, old: &Old, rows: &[&str], place: usize) {
    check_vault(rt, alloc, old, rows, place);
    let conn = made(rt, alloc, Start::First, old.0);
    check_desk::<Brand, MemStore>(rt, alloc, Blank::new(PARTS), conn, old, rows, place);
}

/// Whether the stores are answered so, and keep these rows.
fn check_all(rt: &impl Abort, alloc: Global, stores: &[Old], rows: &[&str]) {
    for (place, old) in stores.iter().enumerate() {
        check(rt, alloc, old, rows, place);
    }
}
