//! What threads do with a desk, course by course.

use crate::cases::{Committer, Course, Ending, Found, in_files};
use crate::crowd::EACH;
use crate::given::{Before, holds};
use crate::stand_ins::Way;
use crate::steps::{Step, Turn};
use std::alloc::Global;
use std::process::Abort;
use std::sync::Wait;
use std::test::Fail;
use std::thread::Threads;
use std::time::Clock;

/// How a course ends: the committer's end, the records that are settled, all records, and whether the desk is halted.
pub(crate) struct End(
    pub(crate) Ending,
    pub(crate) u64,
    pub(crate) u64,
    pub(crate) bool,
);

/// Whether it ended so, with no permit out, and the vault has what is settled.
pub(crate) fn is_ended(found: &Found, end: &End) -> bool {
    found.has_begun
        && found.ending == end.0
        && found.settled == end.1
        && found.records == end.2
        && found.is_halted == end.3
        && found.is_kept
        && found.are_back
}

/// Takes the course, and checks its end.
pub(crate) fn check<R: Threads + Wait + Clock + Abort + Copy + Sync>(
    rt: &R,
    alloc: Global,
    course: &Course,
    end: &End,
) -> Found {
    let found = in_files(rt, alloc, u64::MAX, course, 0);
    holds(rt, is_ended(&found, end), "how it ends");
    found
}

static ROUNDS: Course = Course {
    before: &[Before::Put(b"a"), Before::Submit(b"msg_1"), Before::Turn],
    committer: Committer::Without,
    threads: &[&[
        Step::Round(1000, Way::Answer(200), Turn::Posted),
        Step::Round(1000, Way::Answer(200), Turn::Idle),
        Step::Saw(2),
        Step::Finish,
        Step::Round(1000, Way::Answer(200), Turn::Closing),
    ]],
};

#[test]
fn a_round_is_posted_and_the_next_is_idle(rt: HostRuntime) {
    check(&rt, rt.alloc(), &ROUNDS, &End(Ending::Without, 2, 3, false));
}

static FINISH: Course = Course {
    before: &[Before::Put(b"a")],
    committer: Committer::Lacking(0),
    threads: &[],
};

#[test]
fn a_committer_finishes_what_waits(rt: HostRuntime) {
    check(
        &rt,
        rt.alloc(),
        &FINISH,
        &End(Ending::Finished, 1, 1, false),
    );
}

static EIGHT_REFUSALS: Course = Course {
    before: &[Before::Put(b"a")],
    committer: Committer::Lacking(8),
    threads: &[],
};

#[test]
fn eight_refusals_for_memory_are_borne(rt: HostRuntime) {
    check(
        &rt,
        rt.alloc(),
        &EIGHT_REFUSALS,
        &End(Ending::Finished, 1, 1, false),
    );
}

static NINE_REFUSALS: Course = Course {
    before: &[Before::Put(b"a")],
    committer: Committer::Lacking(9),
    threads: &[],
};

#[test]
fn the_ninth_refusal_for_memory_halts(rt: HostRuntime) {
    check(
        &rt,
        rt.alloc(),
        &NINE_REFUSALS,
        &End(Ending::OutOfMemory, 0, 1, true),
    );
}

static REFUSALS_IN_TWO_ROWS: Course = Course {
    before: &[Before::Put(b"a"), Before::Turn],
    committer: Committer::LackingEach(8),
    threads: &[&[
        Step::Submit(b"msg_1", 1),
        Step::Settled(2),
        Step::Submit(b"msg_2", 2),
        Step::Settled(3),
        Step::Finish,
        Step::Ended(1),
    ]],
};

#[test]
fn a_commit_ends_a_row_of_refusals(rt: HostRuntime) {
    check(
        &rt,
        rt.alloc(),
        &REFUSALS_IN_TWO_ROWS,
        &End(Ending::Finished, 3, 3, false),
    );
}

/// The store was taken away from its place: nothing is committed to it any more, and who waits is told so.
static TAKEN_AWAY: Course = Course {
    before: &[
        Before::Put(b"a"),
        Before::Submit(b"msg_1"),
        Before::Turn,
        Before::Submit(b"msg_2"),
    ],
    committer: Committer::TakenAway,
    threads: &[&[Step::Told(2, b"msg_2")]],
};

#[test]
fn a_store_that_is_taken_away_halts(rt: HostRuntime) {
    check(
        &rt,
        rt.alloc(),
        &TAKEN_AWAY,
        &End(Ending::OutOfTurn, 2, 3, true),
    );
}

/// A committer that finds the desk halted ends with that, and who waits is told so.
static HALTED_BEFORE: Course = Course {
    before: &[
        Before::Put(b"a"),
        Before::Turn,
        Before::Submit(b"msg_1"),
        Before::Halt,
    ],
    committer: Committer::Runs,
    threads: &[&[Step::Told(1, b"msg_1")]],
};

#[test]
fn a_desk_that_is_halted_ends_its_committer(rt: HostRuntime) {
    check(
        &rt,
        rt.alloc(),
        &HALTED_BEFORE,
        &End(Ending::Halted, 1, 2, true),
    );
}

static POSTS_MEET: Course = Course {
    before: &[
        Before::Put(b"a"),
        Before::Submit(b"msg_1"),
        Before::Submit(b"msg_2"),
        Before::Turn,
    ],
    committer: Committer::Without,
    threads: &[
        &[Step::Round(1000, Way::Meet, Turn::Met)],
        &[Step::Round(1000, Way::Meet, Turn::Met)],
    ],
};

#[test]
fn two_posts_are_under_way_at_once(rt: HostRuntime) {
    check(
        &rt,
        rt.alloc(),
        &POSTS_MEET,
        &End(Ending::Without, 3, 5, false),
    );
}

static COMMIT_MEETS_SUBMISSION: Course = Course {
    before: &[Before::Put(b"a"), Before::Submit(b"msg_1")],
    committer: Committer::Held,
    threads: &[&[
        Step::Begun(1),
        Step::Submit(b"msg_2", 2),
        Step::Told(2, b"msg_2"),
        Step::Finish,
    ]],
};

#[test]
fn an_event_is_staged_during_a_commit(rt: HostRuntime) {
    let found = check(
        &rt,
        rt.alloc(),
        &COMMIT_MEETS_SUBMISSION,
        &End(Ending::Finished, 3, 3, false),
    );
    holds(
        &rt,
        found.meetings == 1,
        "an event is staged during a commit",
    );
}

/// The store fails at the second batch: who waits for its event is told so.
static STORE_FAILS: Course = Course {
    before: &[
        Before::Put(b"a"),
        Before::Submit(b"msg_1"),
        Before::Turn,
        Before::Submit(b"msg_2"),
    ],
    committer: Committer::Lacking(0),
    threads: &[&[Step::Told(2, b"msg_2")]],
};

// Whether the second batch failed. All are told then.
fn has_failed<R: Threads + Wait + Clock + Abort + Copy + Sync>(
    rt: &R,
    alloc: Global,
    calls: u64,
) -> bool {
    let found = in_files(rt, alloc, calls, &STORE_FAILS, 0);
    let is_over = !found.has_begun || found.ending == Ending::Finished;
    let is_told = found.ending == Ending::Store
        && found.is_closed
        && found.is_halted
        && found.settled == 2
        && found.are_back;
    holds(
        rt,
        is_over || is_told,
        "the committer tells the store's fault",
    );
    !is_over
}

#[test]
fn a_store_that_fails_is_told_to_all(rt: HostRuntime) {
    let mut failures = 0u32;
    for calls in 0..100 {
        if has_failed(&rt, rt.alloc(), calls) {
            failures = failures.saturating_add(1);
        }
    }
    holds(&rt, failures > 0, "some call of the second batch fails");
}

const SUBMITTERS: u64 = 8;

static CROWD: Course = Course {
    before: &[
        Before::Put(b"a"),
        Before::Put(b"b"),
        Before::Put(b"c"),
        Before::Put(b"d"),
        Before::Turn,
    ],
    committer: Committer::Runs,
    threads: &[
        &[Step::SubmitEach(0)],
        &[Step::SubmitEach(1)],
        &[Step::SubmitEach(2)],
        &[Step::SubmitEach(3)],
        &[Step::SubmitEach(4)],
        &[Step::SubmitEach(5)],
        &[Step::SubmitEach(6)],
        &[Step::SubmitEach(7)],
        &[Step::Work],
        &[Step::Work],
        &[Step::Work],
        &[Step::Work],
        &[
            Step::Delivered(SUBMITTERS * EACH),
            Step::Ended(SUBMITTERS * EACH),
            Step::EachDelivered(SUBMITTERS),
            Step::Finish,
        ],
    ],
};

const RECORDS: u64 = 4 + 2 * SUBMITTERS * EACH;

/// Each event and each outcome is settled.
static SERVED: End = End(Ending::Finished, RECORDS, RECORDS, false);

#[test]
fn a_crowd_is_served(rt: HostRuntime) -> Result<(), Fail> {
    let found = in_files(&rt, rt.alloc(), u64::MAX, &CROWD, 0);
    holds(&rt, is_ended(&found, &SERVED), "how it ends");
    let each_once = found.posts == SUBMITTERS * EACH;
    holds(&rt, each_once, "each event is posted once");
    let (events, commits) = (SUBMITTERS * EACH, found.commits);
    println!(rt; "{events} events and as many outcomes in {commits} commits")?;
    Ok(())
}
