//! What a run leaves, opened again, and a run that goes on from there. The replies are those of the rules, worked by
//! hand.

use crate::calls::{Call, Path};
use crate::paths::PUT;
use crate::runs::check;

static SEALED_ALONE: [Call; 8] = [
    Call::Line(PUT, "staged 0"),
    Call::Line("seal", "sealed 0..1"),
    Call::Line("commit", "committed 1"),
    Call::Line("settle", "settled 1"),
    Call::Line("submit 1000 a msg_1 7b7d", "staged 1"),
    Call::Line("seal", "sealed 1..2"),
    Call::Line("told 1", "waiting"),
    Call::Records(2),
];

static AFTER_SEALED_ALONE: [Call; 15] = [
    Call::Line("show a msg_1", "absent"),
    Call::Line("show a", "enabled pending 0 delivered 0 exhausted 0"),
    Call::Totals(1, 0, 1),
    Call::Records(1),
    Call::Told(1, b"msg_1", "unknown"),
    Call::Line("told 1", "no-ticket"),
    Call::Line("commit", "no-batch"),
    Call::Line("settle", "no-receipt"),
    Call::Line("seal", "nothing"),
    Call::Line("claim 1000", "none"),
    Call::Line("submit 1001 a msg_1 -", "staged 1"),
    Call::Line("seal", "sealed 1..2"),
    Call::Line("commit", "committed 2"),
    Call::Line("settle", "settled 2"),
    Call::Line("show a msg_1", "pending due 1001 attempts 0"),
];

#[test]
fn what_was_sealed_alone_is_absent(rt: HostRuntime) {
    check(&rt, rt.alloc(), &[&SEALED_ALONE], &[&AFTER_SEALED_ALONE]);
}

static COMMITTED: [Call; 7] = [
    Call::Line(PUT, "staged 0"),
    Call::Line("submit 1000 a msg_1 7b7d", "staged 1"),
    Call::Line("seal", "sealed 0..2"),
    Call::Line("commit", "committed 2"),
    Call::Line("told 1", "waiting"),
    Call::Line("show a", "absent"),
    Call::SettledRecords(0),
];

static AFTER_COMMITTED: [Call; 17] = [
    Call::Line("show a", "enabled pending 1 delivered 0 exhausted 0"),
    Call::Line("show a msg_1", "pending due 1000 attempts 0"),
    Call::Totals(1, 1, 2),
    Call::Told(1, b"msg_1", "settled"),
    Call::Line("told 1", "no-ticket"),
    Call::Line("settle", "no-receipt"),
    Call::Line("claim 0", "permit 1 a msg_1 attempt 1 at 1000 inflight 1"),
    Call::Line("submit 2000 a msg_1 7b7d", "staged 1"),
    Call::Line("told 1", "settled"),
    Call::Line("submit 2000 a msg_1 -", "refused 3 Conflict"),
    Call::Line(PUT, "refused 3 Exists"),
    Call::Line("seal", "nothing"),
    Call::Line(
        "spend 1 2000 204 100000",
        "success limit 20 inflight 0 staged 2",
    ),
    Call::Line("seal", "sealed 2..3"),
    Call::Line("commit", "committed 3"),
    Call::Line("settle", "settled 3"),
    Call::Line("show a msg_1", "delivered attempts 1"),
];

#[test]
fn what_was_committed_is_pending(rt: HostRuntime) {
    check(&rt, rt.alloc(), &[&COMMITTED], &[&AFTER_COMMITTED]);
}

static NOT_SETTLED: [Call; 13] = [
    Call::Line(PUT, "staged 0"),
    Call::Line("submit 1000 a msg_1 7b7d", "staged 1"),
    Call::Line("submit 1000 a msg_2 -", "staged 2"),
    Call::Line("submit 1000 a msg_3 -", "staged 3"),
    Call::Line("seal", "sealed 0..4"),
    Call::Line("commit", "committed 4"),
    Call::Line("settle", "settled 4"),
    Call::Line(
        "claim 1000",
        "permit 1 a msg_1 attempt 1 at 1000 inflight 1",
    ),
    Call::Line(
        "claim 1000",
        "permit 2 a msg_2 attempt 1 at 1000 inflight 2",
    ),
    Call::Line(
        "claim 1000",
        "permit 3 a msg_3 attempt 1 at 1000 inflight 3",
    ),
    Call::Line(
        "spend 1 1000 500 100000",
        "success limit 20 inflight 2 staged 4",
    ),
    Call::Line(
        "spend 2 1000 503 100000",
        "dropped limit 19 inflight 1 staged 5",
    ),
    Call::Line("limits a", "limit 19 inflight 1 noload 100000"),
];

static AFTER_NOT_SETTLED: [Call; 17] = [
    Call::Line("limits a", "limit 20 inflight 0 noload 0"),
    Call::Records(4),
    Call::Line("show a msg_1", "pending due 1000 attempts 0"),
    Call::Line("spend 3 1000 200 100000", "no-permit"),
    Call::Line(
        "claim 1000",
        "permit 1 a msg_1 attempt 1 at 1000 inflight 1",
    ),
    Call::Line(
        "claim 1000",
        "permit 2 a msg_2 attempt 1 at 1000 inflight 2",
    ),
    Call::Line(
        "claim 1000",
        "permit 3 a msg_3 attempt 1 at 1000 inflight 3",
    ),
    Call::Line("claim 1000", "none"),
    Call::Line(
        "spend 1 1000 500 100000",
        "success limit 20 inflight 2 staged 4",
    ),
    Call::Line(
        "spend 3 1001 200 100000",
        "success limit 20 inflight 1 staged 5",
    ),
    Call::Line("seal", "sealed 4..6"),
    Call::Line("commit", "committed 6"),
    Call::Line("settle", "settled 6"),
    Call::Line("show a msg_1", "pending due 1005 attempts 1"),
    Call::Line("show a msg_2", "pending due 1000 attempts 0"),
    Call::Line("show a msg_3", "delivered attempts 1"),
    Call::Line(
        "claim 1005",
        "permit 1 a msg_1 attempt 2 at 1005 inflight 2",
    ),
];

#[test]
fn an_attempt_that_was_not_settled_is_made_again(rt: HostRuntime) {
    check(&rt, rt.alloc(), &[&NOT_SETTLED], &[&AFTER_NOT_SETTLED]);
}

/// An event that is delivered.
const DELIVERED: [Call; 11] = [
    Call::Line(PUT, "staged 0"),
    Call::Line("submit 1000 a msg_1 7b7d", "staged 1"),
    Call::Line("seal", "sealed 0..2"),
    Call::Line("commit", "committed 2"),
    Call::Line("settle", "settled 2"),
    Call::Line(
        "claim 1000",
        "permit 1 a msg_1 attempt 1 at 1000 inflight 1",
    ),
    Call::Line(
        "spend 1 1000 200 100000",
        "success limit 20 inflight 0 staged 2",
    ),
    Call::Line("seal", "sealed 2..3"),
    Call::Line("commit", "committed 3"),
    Call::Line("settle", "settled 3"),
    Call::Line("show a msg_1", "delivered attempts 1"),
];

/// A Purge, and the id that it takes, which were sealed alone.
const PURGE_SEALED: [Call; 6] = [
    Call::Line("purge 1001", "staged 3"),
    Call::Line("submit 1002 a msg_1 7b7c", "staged 4"),
    Call::Line("seal", "sealed 3..5"),
    Call::Told(1, b"msg_1", "settled"),
    Call::HasBody(1, b"msg_1", true),
    Call::Line("show a msg_1", "delivered attempts 1"),
];

static AFTER_PURGE_SEALED: [Call; 12] = [
    Call::Line("show a msg_1", "delivered attempts 1"),
    Call::Line("submit 1002 a msg_1 7b7c", "refused 3 Conflict"),
    Call::Line("submit 1002 a msg_1 7b7d", "staged 1"),
    Call::Line("told 1", "settled"),
    Call::Line("purge 1001", "staged 3"),
    Call::Line("told 3", "waiting"),
    Call::Line("seal", "sealed 3..4"),
    Call::Line("commit", "committed 4"),
    Call::Line("settle", "settled 4"),
    Call::Line("told 3", "settled"),
    Call::Line("told 1", "unknown"),
    Call::Line("show a msg_1", "absent"),
];

static WITH_PURGE_SEALED: [Path; 2] = [&DELIVERED, &PURGE_SEALED];

#[test]
fn a_purge_that_was_sealed_alone_took_nothing(rt: HostRuntime) {
    check(&rt, rt.alloc(), &WITH_PURGE_SEALED, &[&AFTER_PURGE_SEALED]);
}

/// The same, committed.
const PURGE_COMMITTED: [Call; 5] = [
    Call::Line("purge 1001", "staged 3"),
    Call::Line("seal", "sealed 3..4"),
    Call::Line("commit", "committed 4"),
    Call::Line("told 1", "settled"),
    Call::Line("show a msg_1", "delivered attempts 1"),
];

/// The clock stands at the moments that are left.
const AFTER_PURGE_COMMITTED: [Call; 10] = [
    Call::Line("show a msg_1", "absent"),
    Call::Line("show a", "enabled pending 0 delivered 0 exhausted 0"),
    Call::Totals(1, 0, 4),
    Call::Told(1, b"msg_1", "unknown"),
    Call::HasBody(1, b"msg_1", false),
    Call::Line("claim 5", "none"),
    Call::Line("submit 5 a msg_1 7b7c", "staged 4"),
    Call::Line("seal", "sealed 4..5"),
    Call::Line("commit", "committed 5"),
    Call::Line("settle", "settled 5"),
];

static WITH_PURGE_COMMITTED: [Path; 2] = [&DELIVERED, &PURGE_COMMITTED];

static AND_THEN: [Path; 2] = [&AFTER_PURGE_COMMITTED, &GIVEN_AGAIN];

const GIVEN_AGAIN: [Call; 2] = [
    Call::Line("show a msg_1", "pending due 5 attempts 0"),
    Call::Line("claim 4", "permit 4 a msg_1 attempt 1 at 5 inflight 1"),
];

#[test]
fn what_a_committed_purge_took_is_gone(rt: HostRuntime) {
    check(&rt, rt.alloc(), &WITH_PURGE_COMMITTED, &AND_THEN);
}
