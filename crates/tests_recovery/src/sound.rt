//! What the opening of a store is to answer, by plain SQL and the conditions of `docs/FORMATS.md`.

use crate::stores::number;
use sqlite::{Alter, Connection};
use std::process::Abort;

/// Each counts what breaks a rule of `docs/FORMATS.md`, "Rows that are opened", in rows that were those of a history
/// with fewer than 1000 records before a cell was changed to a value of `cells`. The version first, then the conditions
/// in their order, as those of version 1.
static FAULTS: &[&str] = &[
    "SELECT count(*) FROM meta WHERE version < 1",
    // 1. The number of records, and those that stand in rows.
    "SELECT count(*) FROM meta WHERE NOT records BETWEEN 0 AND 4611686018427387904",
    "SELECT count(*) FROM endpoints e, meta m WHERE NOT e.put BETWEEN 0 AND m.records - 1 \
     OR NOT e.enabled_by BETWEEN 0 AND m.records - 1 OR NOT e.secrets_by BETWEEN 0 AND m.records - 1",
    "SELECT count(*) FROM deliveries d, meta m WHERE NOT d.seq BETWEEN 0 AND m.records - 1",
    "SELECT count(*) FROM attempts t, meta m WHERE NOT t.seq BETWEEN 0 AND m.records - 1",
    // 2. No number is of two rows.
    "SELECT count(*) FROM endpoints e JOIN deliveries d ON d.seq = e.put",
    "SELECT count(*) FROM endpoints e JOIN attempts t ON t.seq = e.put",
    "SELECT count(*) FROM deliveries d JOIN attempts t ON t.seq = d.seq",
    // 3. Endpoints and their secrets.
    "SELECT count(*) FROM endpoints WHERE name IN ('', 'A', 'a b', 'http://x') OR NOT url LIKE 'http://%' \
     OR NOT max BETWEEN 1 AND 1000",
    "SELECT count(*) FROM secrets s WHERE NOT length(s.secret) BETWEEN 24 AND 64 \
     OR NOT s.place BETWEEN 0 AND 3 OR s.place >= (SELECT count(*) FROM secrets o WHERE o.endpoint = s.endpoint)",
    "SELECT count(*) FROM endpoints e WHERE NOT EXISTS (SELECT 1 FROM secrets s WHERE s.endpoint = e.put)",
    // 4. What gave the secrets.
    "SELECT count(*) FROM endpoints e WHERE e.secrets_by <> e.put AND (e.secrets_by < e.put \
     OR EXISTS (SELECT 1 FROM endpoints o WHERE o.put = e.secrets_by) \
     OR EXISTS (SELECT 1 FROM deliveries d WHERE d.seq = e.secrets_by) \
     OR EXISTS (SELECT 1 FROM attempts t WHERE t.seq = e.secrets_by) \
     OR EXISTS (SELECT 1 FROM endpoints o WHERE o.put <> e.put AND o.secrets_by = e.secrets_by) \
     OR EXISTS (SELECT 1 FROM endpoints o WHERE o.enabled_by = e.secrets_by))",
    // 5. What decided the flag: the put, an attempt that was answered gone, or a command.
    "SELECT count(*) FROM endpoints e WHERE NOT e.enabled BETWEEN 0 AND 1",
    "SELECT count(*) FROM endpoints e WHERE NOT (e.enabled_by = e.put AND e.enabled = 1) \
     AND NOT (e.enabled = 0 AND EXISTS (SELECT 1 FROM attempts t JOIN deliveries d ON d.seq = t.delivery \
     WHERE t.seq = e.enabled_by AND t.status = 410 AND d.endpoint = e.put)) \
     AND NOT (e.enabled_by > e.put \
     AND NOT EXISTS (SELECT 1 FROM endpoints o WHERE o.put = e.enabled_by) \
     AND NOT EXISTS (SELECT 1 FROM deliveries d WHERE d.seq = e.enabled_by) \
     AND NOT EXISTS (SELECT 1 FROM attempts t WHERE t.seq = e.enabled_by) \
     AND NOT EXISTS (SELECT 1 FROM endpoints o WHERE o.put <> e.put AND o.enabled_by = e.enabled_by) \
     AND NOT EXISTS (SELECT 1 FROM endpoints o WHERE o.put <> o.secrets_by AND o.secrets_by = e.enabled_by))",
    "SELECT count(*) FROM endpoints e JOIN deliveries d ON d.endpoint = e.put JOIN attempts t ON t.delivery = d.seq \
     WHERE t.status = 410 AND t.seq > e.enabled_by",
    // 6. Events.
    "SELECT count(*) FROM deliveries d JOIN endpoints e ON e.put = d.endpoint WHERE d.seq <= e.put \
     OR d.id IN ('', 'a b', 'http://x') OR length(d.body) > 65536 OR NOT d.at BETWEEN 0 AND 1099511627776",
    // 7. Attempts: where they stand, their values, and what is after a delivery or the tenth failure.
    "SELECT count(*) FROM attempts t WHERE t.seq <= t.delivery \
     OR t.number <> 1 + (SELECT count(*) FROM attempts o WHERE o.delivery = t.delivery AND o.seq < t.seq)",
    "SELECT count(*) FROM attempts t WHERE NOT (t.status = 0 OR t.status BETWEEN 100 AND 999) \
     OR NOT t.at BETWEEN 0 AND 1099511627776",
    "SELECT count(*) FROM attempts t WHERE EXISTS (SELECT 1 FROM attempts o \
     WHERE o.delivery = t.delivery AND o.seq < t.seq AND o.status BETWEEN 200 AND 299)",
    "SELECT count(*) FROM attempts t WHERE 9 < (SELECT count(*) FROM attempts o WHERE o.delivery = t.delivery \
     AND o.seq < t.seq AND o.status <> 410 AND NOT o.status BETWEEN 200 AND 299)",
];

/// What version 2 adds to them.
static OF_TOPICS: &[&str] = &[
    // 1, 2, 4 and 5. What a topic was set by.
    "SELECT count(*) FROM topics o, meta m WHERE NOT o.set_by BETWEEN 0 AND m.records - 1",
    "SELECT count(*) FROM topics o, endpoints e WHERE o.set_by IN (e.put, e.enabled_by, e.secrets_by)",
    "SELECT count(*) FROM topics o JOIN deliveries d ON d.seq = o.set_by",
    "SELECT count(*) FROM topics o JOIN attempts t ON t.seq = o.set_by",
    "SELECT count(*) FROM topics o JOIN topics n ON n.set_by = o.set_by \
     WHERE n.topic <> o.topic OR n.endpoint <> o.endpoint",
    // 8. Topics.
    "SELECT count(*) FROM topics WHERE topic IN ('', 'A', 'a b', 'http://x') OR NOT subscribed BETWEEN 0 AND 1 \
     OR set_by <= endpoint",
];

const OURS: &str = "SELECT count(*) FROM meta WHERE app = 'webhook-relay'";

fn are_none<S: Alter>(rt: &impl Abort, conn: &mut Connection<S>, faults: &[&str]) -> bool {
    for fault in faults {
        if number(rt, conn, fault) > 0 {
            return false;
        }
    }
    true
}

fn is_sound<S: Alter>(rt: &impl Abort, conn: &mut Connection<S>, version: i64) -> bool {
    are_none(rt, conn, FAULTS) && (version == 1 || are_none(rt, conn, OF_TOPICS))
}

/// The refusal that the rows call for. It is empty where they are to be opened.
pub(crate) fn refusal_of<S: Alter>(rt: &impl Abort, conn: &mut Connection<S>) -> &'static str {
    if number(rt, conn, OURS) != 1 {
        return "NotOurs";
    }
    let version = number(rt, conn, "SELECT version FROM meta");
    if version > 2 {
        return "NewerVersion";
    }
    if !is_sound(rt, conn, version) {
        return "Damaged";
    }
    // Beside tables of version 1 the name of the sixth is taken.
    if version == 1 { "NotOurs" } else { "" }
}
