//! Which delivery is next, and the places that are reserved, taken and given back.

use crate::queue::{Step, walk};

// Deliveries 3 and 9 of b and 7 of a are due at 1000, 5 of a at 1005.
static THE_FIRST_BY_DUE_MOMENT_AND_THEN_BY_NUMBER: [Step; 15] = [
    Step::Open(b"a", 2),
    Step::Open(b"b", 2),
    Step::Insert(b"a", 1005, 5),
    Step::Insert(b"b", 1000, 9),
    Step::Insert(b"a", 1000, 7),
    Step::Insert(b"b", 1000, 3),
    Step::Next(1005, b"b", 3),
    Step::Remove(b"b", 1000, 3),
    Step::Next(1005, b"a", 7),
    Step::Remove(b"a", 1000, 7),
    Step::Next(1005, b"b", 9),
    Step::Remove(b"b", 1000, 9),
    Step::Next(1005, b"a", 5),
    Step::Remove(b"a", 1005, 5),
    Step::NoNext(1005),
];

#[test]
fn the_first_by_due_moment_and_then_by_number(rt: HostRuntime) {
    walk(&rt, rt.alloc(), &THE_FIRST_BY_DUE_MOMENT_AND_THEN_BY_NUMBER);
}

static NOTHING_IS_NEXT_BEFORE_IT_IS_DUE: [Step; 10] = [
    Step::Open(b"a", 2),
    Step::NoNext(u64::MAX),
    Step::Insert(b"a", 1006, 1),
    Step::Insert(b"a", 1_099_511_714_176, 4_611_686_018_427_387_903),
    Step::NoNext(0),
    Step::NoNext(1005),
    Step::Next(1006, b"a", 1),
    Step::Remove(b"a", 1006, 1),
    Step::NoNext(1_099_511_714_175),
    Step::Next(1_099_511_714_176, b"a", 4_611_686_018_427_387_903),
];

#[test]
fn nothing_is_next_before_it_is_due(rt: HostRuntime) {
    walk(&rt, rt.alloc(), &NOTHING_IS_NEXT_BEFORE_IT_IS_DUE);
}

// An endpoint has no room until it is told that it has. One without room hides none of another endpoint's deliveries.
static AN_ENDPOINT_WITHOUT_ROOM_IS_PASSED_OVER: [Step; 12] = [
    Step::Reserve(b"a", 1),
    Step::Reserve(b"b", 1),
    Step::Insert(b"a", 1000, 1),
    Step::Insert(b"b", 1001, 2),
    Step::NoNext(1001),
    Step::Room(b"b", true),
    Step::Next(1001, b"b", 2),
    Step::Room(b"a", true),
    Step::Next(1001, b"a", 1),
    Step::Room(b"a", false),
    Step::Next(1001, b"b", 2),
    Step::NoNext(1000),
];

#[test]
fn an_endpoint_without_room_is_passed_over(rt: HostRuntime) {
    walk(&rt, rt.alloc(), &AN_ENDPOINT_WITHOUT_ROOM_IS_PASSED_OVER);
}

static AS_MANY_ARE_INSERTED_AS_PLACES_ARE_RESERVED: [Step; 6] = [
    Step::Open(b"a", 1000),
    Step::InsertMany(b"a", 1000),
    Step::Free(b"a", 0),
    Step::RemoveMany(b"a", 1000),
    Step::NoNext(2000),
    Step::Free(b"a", 1000),
];

#[test]
fn as_many_are_inserted_as_places_are_reserved(rt: HostRuntime) {
    walk(
        &rt,
        rt.alloc(),
        &AS_MANY_ARE_INSERTED_AS_PLACES_ARE_RESERVED,
    );
}

// A place is one endpoint's own, and a delivery that goes leaves its place to that endpoint. What was reserved stays.
static EACH_ENDPOINT_HAS_ITS_PLACES: [Step; 20] = [
    Step::IsReserved(b"a", false),
    Step::Reserve(b"a", 2),
    Step::IsReserved(b"a", true),
    Step::IsReserved(b"b", false),
    Step::Reserve(b"b", 0),
    Step::IsReserved(b"b", true),
    Step::Free(b"b", 0),
    Step::Insert(b"a", 1000, 1),
    Step::Free(b"a", 1),
    Step::IsNew(1, false),
    Step::Reserve(b"a", 1),
    Step::Free(b"a", 1),
    Step::Reserve(b"a", 3),
    Step::Free(b"a", 3),
    Step::Contains(b"a", 1000, 1, true),
    Step::Contains(b"b", 1000, 1, false),
    Step::Remove(b"a", 1000, 1),
    Step::Free(b"a", 4),
    Step::Free(b"b", 0),
    Step::IsNew(1, true),
];

#[test]
fn each_endpoint_has_its_places(rt: HostRuntime) {
    walk(&rt, rt.alloc(), &EACH_ENDPOINT_HAS_ITS_PLACES);
}

static AS_MANY_ENDPOINTS_AS_THERE_MAY_BE: [Step; 6] = [
    Step::OpenPairs(b"abcdefghijklmnop"),
    Step::Insert(b"pp", 1000, 255),
    Step::Insert(b"kc", 1000, 162),
    Step::Next(1000, b"kc", 162),
    Step::Remove(b"kc", 1000, 162),
    Step::Next(1000, b"pp", 255),
];

#[test]
fn as_many_endpoints_as_there_may_be(rt: HostRuntime) {
    walk(&rt, rt.alloc(), &AS_MANY_ENDPOINTS_AS_THERE_MAY_BE);
}
