// The limits that code and definitions share: a changed number changes both, so its value stands here too.

use crate::streams::holds;
use desk::{MAX_PENDING, MAX_PENDING_ALL};
use group_commit::{MAX_WAITING_OUTCOMES, MAX_WAITING_REQUESTS};
use relay_types::{
    MAX_BODY_BYTES, MAX_ENDPOINTS, MAX_FAILURES, MAX_ID_LEN, MAX_LIMIT, MAX_MOMENT, MAX_NAME_LEN,
    MAX_RECORDS, MAX_SECRET_BYTES, MAX_SECRETS, MAX_TARGET_BYTES,
};
use spool::MAX_BATCH_RECORDS;
use text_lines::{MAX_LINE_BYTES, MAX_LINES, MAX_READS, MAX_WRITES};

#[test]
fn keeps_the_limits_of_what_waits(rt: HostRuntime) {
    holds(&rt, MAX_BATCH_RECORDS == 256, "records of a batch", 0);
    holds(&rt, MAX_WAITING_REQUESTS == 768, "waiting requests", 0);
    holds(&rt, MAX_WAITING_OUTCOMES == 256, "waiting outcomes", 0);
    holds(&rt, MAX_PENDING == 10_000, "pending events", 0);
    holds(&rt, MAX_PENDING_ALL == 50_000, "all pending events", 0);
}

#[test]
fn keeps_the_limits_of_records(rt: HostRuntime) {
    holds(&rt, MAX_ENDPOINTS == 256, "endpoints", 0);
    holds(&rt, MAX_RECORDS == 4_611_686_018_427_387_904, "records", 0);
    holds(&rt, MAX_FAILURES == 10, "failures", 0);
    holds(&rt, MAX_NAME_LEN == 32, "name", 0);
    holds(&rt, MAX_ID_LEN == 64, "id", 0);
    holds(&rt, MAX_SECRET_BYTES == 64, "secret", 0);
    holds(&rt, MAX_SECRETS == 4, "secrets", 0);
    holds(&rt, MAX_TARGET_BYTES == 2048, "target", 0);
    holds(&rt, MAX_LIMIT == 1000, "maximum", 0);
    holds(&rt, MAX_BODY_BYTES == 65_536, "body", 0);
    holds(&rt, MAX_MOMENT == 1_099_511_627_776, "moment", 0);
}

#[test]
fn keeps_the_limits_of_lines(rt: HostRuntime) {
    holds(&rt, MAX_LINE_BYTES == 140_000, "line", 0);
    holds(&rt, MAX_LINES == 1_000_000, "lines", 0);
    holds(&rt, MAX_READS == 4_294_967_296, "reads", 0);
    holds(&rt, MAX_WRITES == 4_294_967_296, "writes", 0);
}
