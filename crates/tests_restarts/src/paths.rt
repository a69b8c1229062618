//! Each call with each that may be held. The replies are those of the rules, worked by hand.

use crate::calls::{Call, Path};
use crate::runs::check;

pub(crate) const PUT: &str =
    "put a http://127.0.0.1:9000/hook 100 whsec_MDEyMzQ1Njc4OTAxMjM0NTY3ODkwMTIz";

pub(crate) const PUT_OTHER: &str =
    "put b http://127.0.0.1:9000/hook 100 whsec_MDEyMzQ1Njc4OTAxMjM0NTY3ODkwMTIz";

/// An endpoint, and an event for it.
static FIRST_PATH: [Call; 9] = [
    Call::Line(PUT, "staged 0"),
    Call::Line("seal", "sealed 0..1"),
    Call::Line("commit", "committed 1"),
    Call::Line("settle", "settled 1"),
    Call::Line("submit 1000 a msg_1 7b7d", "staged 1"),
    Call::Line("seal", "sealed 1..2"),
    Call::Line("commit", "committed 2"),
    Call::Line("settle", "settled 2"),
    Call::Line("show a msg_1", "pending due 1000 attempts 0"),
];

/// Nothing is known yet, and nothing is held.
static NOTHING: [Call; 31] = [
    Call::Line("show a", "absent"),
    Call::Line("show a msg_1", "absent"),
    Call::Line("limits a", "absent"),
    Call::Line("claim 1000", "none"),
    Call::Line("spend 1 1000 200 100000", "no-permit"),
    Call::Line("told 0", "no-ticket"),
    Call::Line(
        "secrets a whsec_AAAAAAAAAAAAAAAAAAAAAAAAAAAAAAAA",
        "refused 2 UnknownEndpoint",
    ),
    Call::Line("disable a", "refused 2 UnknownEndpoint"),
    Call::Line("subscribe t a", "refused 2 UnknownEndpoint"),
    Call::Line("submit 1000 a msg_1 -", "refused 2 UnknownEndpoint"),
    Call::Line("publish 1000 t msg_1 -", "refused 2 UnknownTopic"),
    Call::Line("commit", "no-batch"),
    Call::Line("settle", "no-receipt"),
    Call::Line("unseal", "no-batch"),
    Call::Line("seal", "nothing"),
    Call::Told(2, b"msg_2", "unknown"),
    Call::ToldCommand(0, "unknown"),
    Call::HasBody(2, b"msg_2", false),
    Call::Totals(0, 0, 0),
    Call::Records(0),
    Call::SettledRecords(0),
    Call::IsHalted(false),
    Call::Line(PUT, "staged 0"),
    Call::Line("subscribe t a", "staged 1"),
    Call::Line("purge 1099511627776", "staged 2"),
    Call::Line("halt", "halted"),
    Call::IsHalted(true),
    Call::Line(PUT_OTHER, "refused 1 Halted"),
    Call::Line("unsubscribe t a", "refused 1 Halted"),
    Call::Line("purge 0", "refused 1 Halted"),
    Call::Line("publish 1000 t msg_1 -", "refused 1 Halted"),
];

/// An endpoint with two events is settled, and a third event is sealed.
pub(crate) const SEALED: [Call; 8] = [
    Call::Line(PUT, "staged 0"),
    Call::Line("submit 1000 a msg_1 7b7d", "staged 1"),
    Call::Line("submit 1000 a msg_2 -", "staged 2"),
    Call::Line("seal", "sealed 0..3"),
    Call::Line("commit", "committed 3"),
    Call::Line("settle", "settled 3"),
    Call::Line("submit 1000 a msg_3 -", "staged 3"),
    Call::Line("seal", "sealed 3..4"),
];

/// What goes on while something is held, and shows what is settled alone.
pub(crate) const MEANWHILE: [Call; 23] = [
    Call::Line(PUT_OTHER, "staged 4"),
    Call::Line(
        "secrets a whsec_AAAAAAAAAAAAAAAAAAAAAAAAAAAAAAAA",
        "staged 5",
    ),
    Call::Line("enable a", "staged 6"),
    Call::Line("submit 1000 a msg_4 -", "staged 7"),
    Call::Line("purge 1099511627776", "staged 8"),
    Call::Line("told 3", "waiting"),
    Call::Line("told 2", "settled"),
    Call::Line(
        "claim 1001",
        "permit 1 a msg_1 attempt 1 at 1001 inflight 1",
    ),
    Call::Line(
        "claim 1001",
        "permit 2 a msg_2 attempt 1 at 1001 inflight 2",
    ),
    Call::Line("claim 1001", "none"),
    Call::Line(
        "spend 1 1001 200 100000",
        "success limit 20 inflight 1 staged 9",
    ),
    Call::Line("limits a", "limit 20 inflight 1 noload 100000"),
    Call::Line("show a", "enabled pending 2 delivered 0 exhausted 0"),
    Call::Line("show a msg_1", "pending due 1000 attempts 0"),
    Call::Line("show b", "absent"),
    Call::Told(2, b"msg_2", "settled"),
    Call::ToldCommand(0, "settled"),
    Call::HasBody(2, b"msg_2", true),
    Call::Totals(1, 2, 3),
    Call::Records(10),
    Call::SettledRecords(3),
    Call::IsHalted(false),
    Call::Line("seal", "refused 2 BatchOut"),
];

/// A batch is taken back, and sealed again with what came since. The next one halts the desk.
const BATCH: [Call; 16] = [
    Call::Line("settle", "no-receipt"),
    Call::Line("unseal", "unsealed 3..4"),
    Call::Line("unseal", "no-batch"),
    Call::Line("commit", "no-batch"),
    Call::Line("seal", "sealed 3..10"),
    Call::Line("commit", "committed 10"),
    Call::Line("settle", "settled 10"),
    Call::Line("told 3", "settled"),
    Call::Line("show a msg_1", "delivered attempts 1"),
    Call::Line("show a", "enabled pending 3 delivered 1 exhausted 0"),
    Call::Line("disable a", "staged 10"),
    Call::Line("seal", "sealed 10..11"),
    Call::Line("halt", "halted"),
    Call::Line("told 10", "unknown"),
    Call::Line("told 3", "settled"),
    Call::Line("unseal", "no-batch"),
];

/// A receipt can be settled, and nothing else.
const COMMITTED: [Call; 1] = [Call::Line("commit", "committed 4")];

const RECEIPT: [Call; 8] = [
    Call::Line("commit", "no-batch"),
    Call::Line("unseal", "no-batch"),
    Call::Line("halt", "refused 1 WrongTurn"),
    Call::Line("told 3", "waiting"),
    Call::Line("settle", "settled 4"),
    Call::Line("told 3", "settled"),
    Call::Line("settle", "no-receipt"),
    Call::Line("seal", "sealed 4..10"),
];

#[test]
fn makes_no_call(rt: HostRuntime) {
    check(&rt, rt.alloc(), &[], &[]);
}

#[test]
fn takes_the_first_path(rt: HostRuntime) {
    check(&rt, rt.alloc(), &[&FIRST_PATH], &[]);
}

#[test]
fn makes_each_call_with_nothing_held(rt: HostRuntime) {
    check(&rt, rt.alloc(), &[&NOTHING], &[]);
}

static WITH_A_BATCH: [Path; 3] = [&SEALED, &MEANWHILE, &BATCH];

#[test]
fn makes_each_call_with_a_batch_held(rt: HostRuntime) {
    check(&rt, rt.alloc(), &WITH_A_BATCH, &[]);
}

static WITH_A_RECEIPT: [Path; 4] = [&SEALED, &COMMITTED, &MEANWHILE, &RECEIPT];

#[test]
fn makes_each_call_with_a_receipt_held(rt: HostRuntime) {
    check(&rt, rt.alloc(), &WITH_A_RECEIPT, &[]);
}
