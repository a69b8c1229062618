//! Who wakes whom: a thread waits, another makes a change, and the wait ends. Where a wake-up is
//! lost, the turns run out.

use crate::cases::{Committer, Course, Ending, in_files};
use crate::courses::{End, is_ended};
use crate::given::Before;
use crate::stand_ins::Way;
use crate::steps::{Step, Turn};
use std::alloc::Global;
use std::process::Abort;
use std::sync::Wait;
use std::thread::Threads;
use std::time::Clock;

/// A course, its end, and how many rests were short.
struct Case(Course, End, u64);

const ENDPOINT_AND_EVENT: &[Before] = &[Before::Put(b"a"), Before::Submit(b"msg_1"), Before::Turn];

/// The event was answered 200 at 1000.
const DELIVERED: &[Before] = &[
    Before::Put(b"a"),
    Before::Submit(b"msg_1"),
    Before::Turn,
    Before::Deliver,
    Before::Turn,
];

/// An event for two endpoints waits to be settled.
const TO_BOTH: &[Before] = &[
    Before::Put(b"a"),
    Before::Put(b"b"),
    Before::Subscribe(b"a"),
    Before::Subscribe(b"b"),
    Before::Turn,
    Before::Publish(b"msg_1"),
];

/// A worker rests, and posts while another one does.
const MEETING: &[Step] = &[
    Step::Look,
    Step::Rest,
    Step::Round(1000, Way::Meet, Turn::Met),
    Step::End,
];

/// A worker rests, and posts unless another one did.
const ALONE: &[Step] = &[
    Step::Look,
    Step::Rest,
    Step::Round(1000, Way::Answer(200), Turn::PostedOrIdle),
    Step::End,
];

/// An event waits to be settled.
const WAITING: &[Before] = &[Before::Put(b"a"), Before::Turn, Before::Submit(b"msg_1")];

static CASES: [Case; 21] = [
    // an event wakes the committer
    Case(
        Course {
            before: ENDPOINT_AND_EVENT,
            committer: Committer::Runs,
            threads: &[&[
                Step::Pause,
                Step::Submit(b"msg_2", 2),
                Step::Settled(3),
                Step::Pause,
                Step::Finish,
                Step::Ended(1),
            ]],
        },
        End(Ending::Finished, 3, 3, false),
        0,
    ),
    // an event for the subscribers of a topic wakes it
    Case(
        Course {
            before: &[Before::Put(b"a"), Before::Subscribe(b"a"), Before::Turn],
            committer: Committer::Runs,
            threads: &[&[
                Step::Pause,
                Step::Publish(b"msg_1", 2),
                Step::Settled(3),
                Step::Pause,
                Step::Finish,
                Step::Ended(1),
            ]],
        },
        End(Ending::Finished, 3, 3, false),
        0,
    ),
    // a command wakes it
    Case(
        Course {
            before: ENDPOINT_AND_EVENT,
            committer: Committer::Runs,
            threads: &[&[
                Step::Pause,
                Step::Disable(2),
                Step::Settled(3),
                Step::Pause,
                Step::Finish,
                Step::Ended(1),
            ]],
        },
        End(Ending::Finished, 3, 3, false),
        0,
    ),
    // so does a purge, after which the id is free
    Case(
        Course {
            before: DELIVERED,
            committer: Committer::Runs,
            threads: &[&[
                Step::Pause,
                Step::Told(1, b"msg_1"),
                Step::Purge(3),
                Step::Settled(4),
                Step::Gone(1, b"msg_1"),
                Step::Submit(b"msg_1", 4),
                Step::Told(4, b"msg_1"),
                Step::Gone(1, b"msg_1"),
                Step::Finish,
                Step::Ended(1),
            ]],
        },
        End(Ending::Finished, 5, 5, false),
        0,
    ),
    // an outcome wakes it
    Case(
        Course {
            before: ENDPOINT_AND_EVENT,
            committer: Committer::Runs,
            threads: &[&[
                Step::Pause,
                Step::Round(1000, Way::Answer(200), Turn::Posted),
                Step::Settled(3),
                Step::Pause,
                Step::Finish,
                Step::Ended(1),
            ]],
        },
        End(Ending::Finished, 3, 3, false),
        0,
    ),
    // so does that of a post whose subscriber isn't reached, and the event falls due again
    Case(
        Course {
            before: ENDPOINT_AND_EVENT,
            committer: Committer::Runs,
            threads: &[&[
                Step::Pause,
                Step::Round(1000, Way::Away, Turn::Ignored),
                Step::Settled(3),
                Step::Round(1004, Way::Answer(200), Turn::Idle),
                Step::Round(1005, Way::Answer(200), Turn::Posted),
                Step::Settled(4),
                Step::Finish,
                Step::Ended(1),
            ]],
        },
        End(Ending::Finished, 4, 4, false),
        0,
    ),
    // the end wakes it
    Case(
        Course {
            before: ENDPOINT_AND_EVENT,
            committer: Committer::Runs,
            threads: &[&[Step::Pause, Step::Finish, Step::Ended(1)]],
        },
        End(Ending::Finished, 2, 2, false),
        0,
    ),
    // a batch that is settled wakes all who wait for an event, and who waits for a command
    Case(
        Course {
            before: &[
                Before::Put(b"a"),
                Before::Turn,
                Before::Submit(b"msg_1"),
                Before::Disable,
            ],
            committer: Committer::Late,
            threads: &[
                &[Step::Told(1, b"msg_1"), Step::End],
                &[Step::Told(1, b"msg_1"), Step::End],
                &[Step::ToldCommand(2), Step::End],
                &[Step::Ended(3), Step::Finish, Step::Ended(4)],
            ],
        },
        End(Ending::Finished, 3, 3, false),
        0,
    ),
    // the same of a purge, and of the id that it takes
    Case(
        Course {
            before: &[
                Before::Put(b"a"),
                Before::Submit(b"msg_1"),
                Before::Turn,
                Before::Deliver,
                Before::Turn,
                Before::Purge,
                Before::Submit(b"msg_1"),
            ],
            committer: Committer::Late,
            threads: &[
                &[Step::Told(4, b"msg_1"), Step::Gone(1, b"msg_1"), Step::End],
                &[Step::ToldCommand(3), Step::Gone(1, b"msg_1"), Step::End],
                &[Step::Ended(2), Step::Finish, Step::Ended(3)],
            ],
        },
        End(Ending::Finished, 5, 5, false),
        0,
    ),
    // a batch that is out already wakes who waits for its event
    Case(
        Course {
            before: &[Before::Put(b"a"), Before::Submit(b"msg_1")],
            committer: Committer::Held,
            threads: &[
                &[Step::Begun(1), Step::Told(1, b"msg_1"), Step::Finish],
                &[Step::Begun(1), Step::Pause, Step::Submit(b"msg_1", 1)],
            ],
        },
        End(Ending::Finished, 2, 2, false),
        0,
    ),
    // one event is in the first batch, and another one in the second
    Case(
        Course {
            before: &[Before::Put(b"a"), Before::Turn, Before::Stage(300)],
            committer: Committer::Late,
            threads: &[
                &[
                    Step::Told(1, b"msg_1"),
                    Step::Told(300, b"msg_300"),
                    Step::End,
                ],
                &[Step::Told(300, b"msg_300"), Step::End],
                &[Step::Ended(2), Step::Finish],
            ],
        },
        End(Ending::Finished, 301, 301, false),
        0,
    ),
    // a batch comes back unsettled, and the event is in the next one
    Case(
        Course {
            before: WAITING,
            committer: Committer::RefusedOnce,
            threads: &[&[Step::Told(1, b"msg_1"), Step::Finish]],
        },
        End(Ending::Finished, 2, 2, false),
        0,
    ),
    // a desk that is halted wakes who waits for a purge, and what it took is there
    Case(
        Course {
            before: DELIVERED,
            committer: Committer::Refused,
            threads: &[
                &[
                    Step::Purge(3),
                    Step::ToldCommand(3),
                    Step::Kept(1, b"msg_1"),
                    Step::End,
                ],
                &[Step::Ended(2), Step::Finish],
            ],
        },
        End(Ending::OutOfMemory, 3, 4, true),
        0,
    ),
    // a desk that is halted wakes both
    Case(
        Course {
            before: &[
                Before::Put(b"a"),
                Before::Turn,
                Before::Submit(b"msg_1"),
                Before::Disable,
            ],
            committer: Committer::Refused,
            threads: &[
                &[Step::Told(1, b"msg_1"), Step::End],
                &[Step::ToldCommand(2), Step::End],
                &[Step::Ended(3), Step::Finish],
            ],
        },
        End(Ending::OutOfMemory, 1, 3, true),
        0,
    ),
    // a batch that is settled wakes who waits for an event at two endpoints
    Case(
        Course {
            before: TO_BOTH,
            committer: Committer::Late,
            threads: &[
                &[Step::ToldBoth([4, 5], b"msg_1"), Step::End],
                &[Step::Ended(1), Step::Finish, Step::Ended(2)],
            ],
        },
        End(Ending::Finished, 6, 6, false),
        0,
    ),
    // also if a purge takes it at one of them, within the same batch
    Case(
        Course {
            before: &[
                Before::Put(b"a"),
                Before::Put(b"b"),
                Before::Subscribe(b"a"),
                Before::Submit(b"msg_1"),
                Before::Turn,
                Before::Deliver,
                Before::Subscribe(b"b"),
                Before::Turn,
                Before::Publish(b"msg_1"),
                Before::Purge,
            ],
            committer: Committer::Late,
            threads: &[
                &[Step::GoneAtOne([3, 6], b"msg_1"), Step::End],
                &[Step::Ended(1), Step::Finish, Step::Ended(2)],
            ],
        },
        End(Ending::Finished, 8, 8, false),
        0,
    ),
    // a desk that is halted does so too
    Case(
        Course {
            before: TO_BOTH,
            committer: Committer::Refused,
            threads: &[
                &[Step::ToldBoth([4, 5], b"msg_1"), Step::End],
                &[Step::Ended(2), Step::Finish],
            ],
        },
        End(Ending::OutOfMemory, 4, 6, true),
        0,
    ),
    // a worker that rests is woken by nobody, and looks again after a second
    Case(
        Course {
            before: WAITING,
            committer: Committer::Without,
            threads: &[
                &[Step::Look, Step::Rest, Step::End, Step::Finish],
                &[Step::Ended(1)],
            ],
        },
        End(Ending::Without, 1, 2, false),
        0,
    ),
    // the desk is halted while a post is under way
    Case(
        Course {
            before: &[
                Before::Put(b"a"),
                Before::Submit(b"msg_1"),
                Before::Turn,
                Before::Submit(b"msg_2"),
            ],
            committer: Committer::RefusedAtEnd,
            threads: &[&[
                Step::Round(1000, Way::End, Turn::Posted),
                Step::Round(1000, Way::Answer(200), Turn::Closing),
            ]],
        },
        End(Ending::OutOfMemory, 2, 3, true),
        0,
    ),
    // the end comes while a post is under way: its outcome waits for nobody
    Case(
        Course {
            before: ENDPOINT_AND_EVENT,
            committer: Committer::RefusedAtEnd,
            threads: &[&[
                Step::Round(1000, Way::End, Turn::Posted),
                Step::Round(1000, Way::Answer(200), Turn::Closing),
            ]],
        },
        End(Ending::Finished, 2, 3, false),
        0,
    ),
    // an event falls due: a worker that rests looks again after a second
    Case(
        Course {
            before: ENDPOINT_AND_EVENT,
            committer: Committer::Runs,
            threads: &[
                &[
                    Step::Round(1000, Way::Answer(500), Turn::Posted),
                    Step::Settled(3),
                    Step::Round(1004, Way::Answer(200), Turn::Idle),
                    Step::Rest,
                    Step::End,
                    Step::Round(1005, Way::Answer(200), Turn::Posted),
                    Step::Finish,
                ],
                &[Step::Ended(1)],
            ],
        },
        End(Ending::Finished, 4, 4, false),
        0,
    ),
];

// Takes the course of a case, and checks its end. How many rests were short.
fn short_rests<R: Threads + Wait + Clock + Abort + Copy + Sync>(
    rt: &R,
    alloc: Global,
    case: &Case,
    place: usize,
) -> u64 {
    let found = in_files(rt, alloc, u64::MAX, &case.0, place);
    assert!(rt; is_ended(&found, &case.1), "the end of case {place}");
    found.short
}

#[test]
fn a_change_wakes_those_who_wait_for_it(rt: HostRuntime) {
    for (place, case) in CASES.iter().enumerate() {
        let short = short_rests(&rt, rt.alloc(), case, place);
        assert!(rt; short == case.2, "the rests of case {place}");
    }
}

/// So often is a rest tried, since a thread may be held up.
const TRIES: u32 = 8;

static RESTS: [Case; 7] = [
    // a batch is settled
    Case(
        Course {
            before: WAITING,
            committer: Committer::Late,
            threads: &[
                &[Step::Look, Step::Rest, Step::End, Step::Finish],
                &[Step::Ended(1)],
            ],
        },
        End(Ending::Finished, 2, 2, false),
        1,
    ),
    // it wakes one worker, who wakes another as it begins a post
    Case(
        Course {
            before: &[
                Before::Put(b"a"),
                Before::Turn,
                Before::Submit(b"msg_1"),
                Before::Submit(b"msg_2"),
            ],
            committer: Committer::Late,
            threads: &[MEETING, MEETING, &[Step::Ended(2), Step::Finish]],
        },
        End(Ending::Finished, 5, 5, false),
        2,
    ),
    // one event wakes one worker
    Case(
        Course {
            before: WAITING,
            committer: Committer::Late,
            threads: &[ALONE, ALONE, &[Step::Ended(2), Step::Finish]],
        },
        End(Ending::Finished, 3, 3, false),
        1,
    ),
    // the endpoint is enabled
    Case(
        Course {
            before: &[
                Before::Put(b"a"),
                Before::Submit(b"msg_1"),
                Before::Disable,
                Before::Turn,
                Before::Enable,
            ],
            committer: Committer::Late,
            threads: &[&[
                Step::Look,
                Step::Rest,
                Step::Round(1000, Way::Answer(200), Turn::Posted),
                Step::Finish,
            ]],
        },
        End(Ending::Finished, 5, 5, false),
        1,
    ),
    // a batch that leaves no event pending wakes no worker
    Case(
        Course {
            before: &[Before::Put(b"a"), Before::Turn, Before::Disable],
            committer: Committer::Late,
            threads: &[&[Step::Look, Step::Rest, Step::Finish]],
        },
        End(Ending::Finished, 2, 2, false),
        0,
    ),
    // the desk is halted
    Case(
        Course {
            before: WAITING,
            committer: Committer::Refused,
            threads: &[
                &[Step::Look, Step::Rest, Step::End, Step::Finish],
                &[Step::Ended(2)],
            ],
        },
        End(Ending::OutOfMemory, 1, 2, true),
        1,
    ),
    // the end is asked for
    Case(
        Course {
            before: WAITING,
            committer: Committer::Without,
            threads: &[
                &[Step::Look, Step::Rest, Step::End, Step::Finish],
                &[Step::Pause, Step::Finish, Step::Ended(1)],
            ],
        },
        End(Ending::Without, 1, 2, false),
        1,
    ),
];

// Whether at some time as many rests of the case are short as are to be.
fn is_woken<R: Threads + Wait + Clock + Abort + Copy + Sync>(
    rt: &R,
    alloc: Global,
    case: &Case,
    place: usize,
) -> bool {
    for _ in 0..TRIES {
        if short_rests(rt, alloc, case, place) == case.2 {
            return true;
        }
    }
    false
}

#[test]
fn a_change_ends_a_rest(rt: HostRuntime) {
    for (place, case) in RESTS.iter().enumerate() {
        assert!(rt; is_woken(&rt, rt.alloc(), case, place), "case {place}");
    }
}
