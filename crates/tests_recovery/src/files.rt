//! The files of `docs/FORMATS.md`, and one with an attempt that failed.

use crate::conditions::ENDPOINT;
use crate::openings::{ATTEMPTED, File, ROWS, Start, check_all};

static A_NUMBER_WITHOUT_A_ROW_IS_NO_FAULT: [File; 4] = [
    File(Start::Ours, &[ENDPOINT], ROWS, "records 1 enabled", &[]),
    File(
        Start::Ours,
        &[ENDPOINT, "UPDATE meta SET records = 2"],
        ROWS,
        "records 2 enabled",
        &[],
    ),
    File(
        Start::Ours,
        &[ATTEMPTED, "UPDATE meta SET records = 4"],
        ROWS,
        "records 4 enabled pending due 1006 attempts 1",
        &[],
    ),
    File(
        Start::Ours,
        &[
            ENDPOINT,
            "UPDATE meta SET records = 2; UPDATE endpoints SET secrets_by = 1",
        ],
        ROWS,
        "records 2 enabled",
        &[],
    ),
];

#[test]
fn a_number_without_a_row_is_no_fault(rt: HostRuntime) {
    check_all(&rt, rt.alloc(), &A_NUMBER_WITHOUT_A_ROW_IS_NO_FAULT);
}

static NO_NUMBER_NEEDS_A_ROW: [File; 4] = [
    File(
        Start::Ours,
        &["UPDATE meta SET records = 0"],
        ROWS,
        "records 0",
        &[],
    ),
    File(
        Start::Ours,
        &["UPDATE meta SET records = 0", "UPDATE meta SET records = 1"],
        ROWS,
        "records 1",
        &[],
    ),
    File(
        Start::Ours,
        &["UPDATE meta SET records = 4611686018427387903"],
        ROWS,
        "records 4611686018427387903",
        &[],
    ),
    File(
        Start::Ours,
        &["UPDATE meta SET records = 4611686018427387905"],
        ROWS,
        "Damaged",
        &[],
    ),
];

#[test]
fn no_number_needs_a_row(rt: HostRuntime) {
    check_all(&rt, rt.alloc(), &NO_NUMBER_NEEDS_A_ROW);
}

static AN_ANSWER_OF_GONE_DISABLES: [File; 2] = [
    File(
        Start::Ours,
        &[ATTEMPTED, "UPDATE attempts SET status = 410"],
        ROWS,
        "Damaged",
        &[],
    ),
    File(
        Start::Ours,
        &[
            ATTEMPTED,
            "UPDATE attempts SET status = 410; UPDATE endpoints SET enabled = 0, enabled_by = 2",
        ],
        ROWS,
        "records 3 disabled pending due 1001 attempts 1",
        &[],
    ),
];

#[test]
fn an_answer_of_gone_disables(rt: HostRuntime) {
    check_all(&rt, rt.alloc(), &AN_ANSWER_OF_GONE_DISABLES);
}

static AN_EVENT_IS_DUE_AFTER_ITS_ATTEMPT: [File; 8] = [
    File(
        Start::Ours,
        &[ATTEMPTED],
        ROWS,
        "records 3 enabled pending due 1006 attempts 1",
        &[],
    ),
    File(
        Start::Ours,
        &[ATTEMPTED, "UPDATE meta SET records = 2"],
        ROWS,
        "Damaged",
        &[],
    ),
    File(
        Start::Ours,
        &[ATTEMPTED, "UPDATE attempts SET seq = 1"],
        ROWS,
        "Damaged",
        &[],
    ),
    File(
        Start::Ours,
        &[ATTEMPTED, "UPDATE secrets SET place = 1"],
        ROWS,
        "Damaged",
        &[],
    ),
    File(
        Start::Ours,
        &[ATTEMPTED, "UPDATE endpoints SET secrets_by = 2"],
        ROWS,
        "Damaged",
        &[],
    ),
    File(
        Start::Ours,
        &[ATTEMPTED, "UPDATE endpoints SET enabled = 0"],
        ROWS,
        "Damaged",
        &[],
    ),
    File(
        Start::Ours,
        &[ATTEMPTED, "UPDATE deliveries SET id = 'a.b'"],
        ROWS,
        "Damaged",
        &[],
    ),
    File(
        Start::Ours,
        &[ATTEMPTED, "UPDATE attempts SET number = 2"],
        ROWS,
        "Damaged",
        &[],
    ),
];

#[test]
fn an_event_is_due_after_its_attempt(rt: HostRuntime) {
    check_all(&rt, rt.alloc(), &AN_EVENT_IS_DUE_AFTER_ITS_ATTEMPT);
}
