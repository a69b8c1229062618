//! What waits, what is sealed of it, and what a receipt settles.

use crate::waits::{Wait, take_waits};
use std::test::Fail;

static A_RECEIPT_SETTLES_ITS_STEPS: [Wait; 7] = [
    Wait::Put(b"a", true),
    Wait::Put(b"b", true),
    Wait::Seal(Some((0, 2, 2))),
    Wait::Commit(2),
    Wait::Settle(Some(2)),
    Wait::Records(2, 2),
    Wait::Len(0),
];

#[test]
fn a_receipt_settles_its_steps(rt: HostRuntime) -> Result<(), Fail> {
    take_waits(&rt, rt.alloc(), &A_RECEIPT_SETTLES_ITS_STEPS)
}

static A_RECEIPT_OF_OTHER_STEPS_SETTLES_NOTHING: [Wait; 10] = [
    Wait::Put(b"a", true),
    Wait::Seal(Some((0, 1, 1))),
    Wait::Commit(1),
    Wait::Anew(0),
    Wait::Put(b"b", true),
    Wait::Seal(Some((0, 1, 1))),
    Wait::Settle(None),
    Wait::Unseal(true),
    Wait::Len(1),
    Wait::Records(1, 0),
];

#[test]
fn a_receipt_of_other_steps_settles_nothing(rt: HostRuntime) -> Result<(), Fail> {
    take_waits(&rt, rt.alloc(), &A_RECEIPT_OF_OTHER_STEPS_SETTLES_NOTHING)
}

static SEALED_STEPS_ARE_THE_FIRST_THAT_WAIT: [Wait; 10] = [
    Wait::Anew(5),
    Wait::Seal(None),
    Wait::Flags(3, true),
    Wait::Seal(Some((5, 8, 3))),
    Wait::Unseal(true),
    Wait::Flags(254, true),
    Wait::Seal(Some((5, 261, 256))),
    Wait::Unseal(true),
    Wait::Len(257),
    Wait::Records(262, 5),
];

#[test]
fn sealed_steps_are_the_first_that_wait(rt: HostRuntime) -> Result<(), Fail> {
    take_waits(&rt, rt.alloc(), &SEALED_STEPS_ARE_THE_FIRST_THAT_WAIT)
}

static EACH_KIND_HAS_ITS_PLACES: [Wait; 9] = [
    Wait::Flags(768, true),
    Wait::Flags(1, false),
    Wait::Len(768),
    Wait::Free(0, 256),
    Wait::Outcome(1),
    Wait::Free(0, 255),
    Wait::Len(769),
    Wait::IsOutcome(768, Some(true)),
    Wait::IsOutcome(769, None),
];

#[test]
fn each_kind_has_its_places(rt: HostRuntime) -> Result<(), Fail> {
    take_waits(&rt, rt.alloc(), &EACH_KIND_HAS_ITS_PLACES)
}

static A_PURGE_HAS_A_PLACE_FOR_REQUESTS: [Wait; 9] = [
    Wait::Flags(766, true),
    Wait::Purges(2, true),
    Wait::Purges(1, false),
    Wait::Flags(1, false),
    Wait::Free(0, 256),
    Wait::Outcome(1),
    Wait::IsOutcome(767, Some(false)),
    Wait::Records(769, 0),
    Wait::Seal(Some((0, 256, 256))),
];

#[test]
fn a_purge_has_a_place_for_requests(rt: HostRuntime) -> Result<(), Fail> {
    take_waits(&rt, rt.alloc(), &A_PURGE_HAS_A_PLACE_FOR_REQUESTS)
}

static EACH_RECORD_OF_AN_EVENT_HAS_ITS_PLACE: [Wait; 11] = [
    Wait::Event(256, true),
    Wait::Event(256, true),
    Wait::Flags(255, true),
    Wait::Event(2, false),
    Wait::Free(1, 256),
    Wait::Event(1, true),
    Wait::Flags(1, false),
    Wait::Len(258),
    Wait::Records(768, 0),
    Wait::IsOutcome(0, Some(false)),
    Wait::Seal(Some((0, 256, 1))),
];

#[test]
fn each_record_of_an_event_has_its_place(rt: HostRuntime) -> Result<(), Fail> {
    take_waits(&rt, rt.alloc(), &EACH_RECORD_OF_AN_EVENT_HAS_ITS_PLACE)
}

static A_BATCH_CUTS_NO_STEP: [Wait; 13] = [
    Wait::Put(b"a", true),
    Wait::Put(b"e0", true),
    Wait::Put(b"e1", true),
    Wait::Flags(252, true),
    Wait::Event(2, true),
    Wait::Seal(Some((0, 255, 255))),
    Wait::Commit(255),
    Wait::Settle(Some(255)),
    Wait::Seal(Some((255, 257, 1))),
    Wait::Commit(257),
    Wait::Settle(Some(257)),
    Wait::Free(768, 256),
    Wait::Len(0),
];

#[test]
fn a_batch_cuts_no_step(rt: HostRuntime) -> Result<(), Fail> {
    take_waits(&rt, rt.alloc(), &A_BATCH_CUTS_NO_STEP)
}

static ONLY_WHAT_IS_OUT_IS_GIVEN_UP: [Wait; 7] = [
    Wait::AbandonNothing(true),
    Wait::Flags(2, true),
    Wait::Seal(Some((0, 2, 2))),
    Wait::AbandonNothing(false),
    Wait::AbandonBatch(true),
    Wait::IsOut(false),
    Wait::Len(2),
];

#[test]
fn only_what_is_out_is_given_up(rt: HostRuntime) -> Result<(), Fail> {
    take_waits(&rt, rt.alloc(), &ONLY_WHAT_IS_OUT_IS_GIVEN_UP)
}
