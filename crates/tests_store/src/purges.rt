//! What Purges take from the tables of a vault.

use crate::entries::{Entry, Keys};
use crate::stories::{Look, Step, Story, walk};
use crate::tables::{EVENT_A, PUT_A, left_after, walk_adopted};
use crate::vaults::{Moments, Span, Told};
use spool::Unchanged;
use std::test::Fail;

/// The greatest moment.
const LAST: u64 = 1_099_511_627_776;

const PUT: Entry = Entry::Put(b'a', 100, Keys::Of([1; 4], 1));

/// The same id with another body, at 1002.
const EVENT_AGAIN: Entry = Entry::Accept(b'a', b"msg_1", b"{|", 1002);

/// The event ended at 1000.
static A_DELIVERED_EVENT_IS_TAKEN: Story = Story {
    limit: None,
    steps: &[
        Step::Enter(PUT, Told::Written),
        Step::Enter(EVENT_A, Told::Written),
        Step::Enter(Entry::Outcome(1, 1, 200, 1000), Told::Written),
        Step::Enter(Entry::Purge(1000), Told::Written),
        Step::Next(4),
        Step::Shows(&[
            Look::Holds(4, 1000, 1),
            Look::Event(1, 1, false, None, Some(200)),
            Look::Find(b'a', b"msg_1", Some(1)),
            Look::Settled(0, 1),
        ]),
        Step::Enter(Entry::Purge(1001), Told::Written),
        Step::Next(5),
        Step::Shows(&[
            Look::Holds(5, 0, 1),
            Look::NoEvent(1),
            Look::Find(b'a', b"msg_1", None),
            Look::Settled(0, 0),
        ]),
        Step::Enter(EVENT_AGAIN, Told::Written),
        Step::Shows(&[
            Look::Holds(6, 1002, 1),
            Look::Event(5, 0, true, Some(1002), None),
            Look::Find(b'a', b"msg_1", Some(5)),
            Look::Settled(1, 0),
        ]),
    ],
    counts: &[
        ("SELECT records FROM meta", 6),
        ("SELECT count(*) FROM endpoints", 1),
        ("SELECT count(*) FROM secrets", 1),
        ("SELECT count(*) FROM deliveries", 1),
        (
            "SELECT count(*) FROM deliveries WHERE seq = 5 AND endpoint = 0 AND id = 'msg_1' AND at = 1002 AND body = x'7b7c'",
            1,
        ),
        ("SELECT count(*) FROM attempts", 0),
    ],
};

#[test]
fn a_delivered_event_is_taken(rt: HostRuntime) -> Result<(), Fail> {
    walk(&rt, rt.alloc(), &A_DELIVERED_EVENT_IS_TAKEN)
}

/// The Purge, and the id again, in one batch.
static AN_ID_IS_FREE_WITHIN_A_BATCH: Story = Story {
    limit: None,
    steps: &[
        Step::Enter(PUT, Told::Written),
        Step::Together(
            &[
                EVENT_A,
                Entry::Outcome(1, 1, 200, 1000),
                Entry::Purge(1001),
                EVENT_AGAIN,
            ],
            Told::Written,
        ),
        Step::Shows(&[
            Look::Holds(5, 1002, 1),
            Look::NoEvent(1),
            Look::Event(4, 0, true, Some(1002), None),
            Look::Find(b'a', b"msg_1", Some(4)),
        ]),
        Step::Enter(Entry::Outcome(4, 1, 204, 1002), Told::Written),
        Step::Together(
            &[
                Entry::Purge(1003),
                EVENT_A,
                Entry::Outcome(7, 1, 200, 1001),
                Entry::Purge(1002),
                EVENT_A,
            ],
            Told::Written,
        ),
        Step::Shows(&[
            Look::Holds(11, 1000, 1),
            Look::NoEvent(4),
            Look::NoEvent(7),
            Look::Event(10, 0, true, Some(1000), None),
            Look::Find(b'a', b"msg_1", Some(10)),
        ]),
    ],
    counts: &[
        ("SELECT records FROM meta", 11),
        ("SELECT count(*) FROM deliveries", 1),
        ("SELECT seq FROM deliveries", 10),
        ("SELECT count(*) FROM attempts", 0),
    ],
};

#[test]
fn an_id_is_free_within_a_batch(rt: HostRuntime) -> Result<(), Fail> {
    walk(&rt, rt.alloc(), &AN_ID_IS_FREE_WITHIN_A_BATCH)
}

const ILLEGAL: Told = Told::Refused(Unchanged::Illegal);

/// What was taken takes no outcome, and what wasn't is known by its id.
static WHAT_IS_TAKEN_TAKES_NO_OUTCOME: Story = Story {
    limit: None,
    steps: &[
        Step::Enter(PUT, Told::Written),
        Step::Enter(EVENT_A, Told::Written),
        Step::Enter(Entry::Purge(LAST), Told::Written),
        Step::Enter(EVENT_AGAIN, ILLEGAL),
        Step::Together(&[Entry::Purge(LAST), EVENT_AGAIN], ILLEGAL),
        Step::Enter(Entry::Outcome(1, 1, 500, 1000), Told::Written),
        Step::Enter(Entry::Purge(LAST), Told::Written),
        Step::Enter(Entry::Outcome(1, 2, 200, 1000), Told::Written),
        Step::Together(
            &[Entry::Purge(1001), Entry::Outcome(1, 3, 500, 1000)],
            ILLEGAL,
        ),
        Step::Enter(EVENT_AGAIN, ILLEGAL),
        Step::Enter(Entry::Purge(1001), Told::Written),
        Step::Enter(Entry::Outcome(1, 3, 500, 1000), ILLEGAL),
        Step::Enter(Entry::Outcome(1, 1, 500, 1000), ILLEGAL),
        Step::Enter(EVENT_AGAIN, Told::Written),
        Step::Next(8),
    ],
    counts: &[
        ("SELECT records FROM meta", 8),
        ("SELECT seq FROM deliveries", 7),
        ("SELECT count(*) FROM attempts", 0),
    ],
};

#[test]
fn what_is_taken_takes_no_outcome(rt: HostRuntime) -> Result<(), Fail> {
    walk(&rt, rt.alloc(), &WHAT_IS_TAKEN_TAKES_NO_OUTCOME)
}

/// Nine attempts failed at 5000, and the tenth at 1000: the last by number decides, not the greatest moment.
static THE_LAST_ATTEMPT_DECIDES: Story = Story {
    limit: None,
    steps: &[
        Step::Enter(PUT, Told::Written),
        Step::Enter(EVENT_A, Told::Written),
        Step::Enter(Entry::Outcome(1, 1, 500, 5000), Told::Written),
        Step::Enter(Entry::Outcome(1, 2, 500, 5000), Told::Written),
        Step::Enter(Entry::Outcome(1, 3, 500, 5000), Told::Written),
        Step::Enter(Entry::Outcome(1, 4, 500, 5000), Told::Written),
        Step::Enter(Entry::Outcome(1, 5, 500, 5000), Told::Written),
        Step::Enter(Entry::Outcome(1, 6, 500, 5000), Told::Written),
        Step::Enter(Entry::Outcome(1, 7, 500, 5000), Told::Written),
        Step::Enter(Entry::Outcome(1, 8, 500, 5000), Told::Written),
        Step::Enter(Entry::Outcome(1, 9, 500, 5000), Told::Written),
        Step::Enter(Entry::Outcome(1, 10, 500, 1000), Told::Written),
        Step::Next(12),
        Step::Enter(Entry::Purge(1000), Told::Written),
        Step::Shows(&[
            Look::Holds(13, 5000, 1),
            Look::Event(1, 10, false, None, Some(500)),
        ]),
        Step::Enter(Entry::Purge(1001), Told::Written),
        Step::Shows(&[Look::Holds(14, 0, 1), Look::NoEvent(1)]),
    ],
    counts: &[
        ("SELECT records FROM meta", 14),
        ("SELECT count(*) FROM deliveries", 0),
        ("SELECT count(*) FROM attempts", 0),
        ("SELECT count(*) FROM endpoints", 1),
    ],
};

#[test]
fn the_last_attempt_decides(rt: HostRuntime) -> Result<(), Fail> {
    walk(&rt, rt.alloc(), &THE_LAST_ATTEMPT_DECIDES)
}

/// Nine failures and two answers of gone leave an event pending, whatever the moment.
static A_PENDING_EVENT_IS_KEPT: Story = Story {
    limit: None,
    steps: &[
        Step::Enter(PUT, Told::Written),
        Step::Enter(EVENT_A, Told::Written),
        Step::Enter(Entry::Purge(LAST), Told::Written),
        Step::Enter(Entry::Outcome(1, 1, 500, 1001), Told::Written),
        Step::Enter(Entry::Outcome(1, 2, 0, 1001), Told::Written),
        Step::Enter(Entry::Outcome(1, 3, 404, 1001), Told::Written),
        Step::Enter(Entry::Outcome(1, 4, 410, 1001), Told::Written),
        Step::Enter(Entry::Outcome(1, 5, 302, 1001), Told::Written),
        Step::Enter(Entry::Outcome(1, 6, 503, 1001), Told::Written),
        Step::Enter(Entry::Outcome(1, 7, 500, 1001), Told::Written),
        Step::Enter(Entry::Outcome(1, 8, 600, 1001), Told::Written),
        Step::Enter(Entry::Outcome(1, 9, 100, 1001), Told::Written),
        Step::Enter(Entry::Outcome(1, 10, 500, 1001), Told::Written),
        Step::Enter(Entry::Outcome(1, 11, 410, 1001), Told::Written),
        Step::Enter(Entry::Purge(LAST), Told::Written),
        Step::Shows(&[
            Look::Holds(15, 1001, 1),
            Look::Event(1, 11, true, Some(1001), Some(410)),
            Look::Settled(1, 0),
        ]),
        Step::Enter(Entry::Outcome(1, 12, 500, 1001), Told::Written),
        Step::Enter(Entry::Purge(1001), Told::Written),
        Step::Shows(&[Look::Event(1, 12, false, None, Some(500))]),
        Step::Enter(Entry::Purge(1002), Told::Written),
        Step::Shows(&[Look::NoEvent(1), Look::Holds(18, 0, 1)]),
    ],
    counts: &[
        ("SELECT records FROM meta", 18),
        ("SELECT count(*) FROM deliveries", 0),
        ("SELECT count(*) FROM attempts", 0),
        (
            "SELECT count(*) FROM endpoints WHERE enabled = 0 AND enabled_by = 13",
            1,
        ),
    ],
};

#[test]
fn a_pending_event_is_kept(rt: HostRuntime) -> Result<(), Fail> {
    walk(&rt, rt.alloc(), &A_PENDING_EVENT_IS_KEPT)
}

static NOTHING_IS_TAKEN: Story = Story {
    limit: None,
    steps: &[
        Step::Enter(Entry::Purge(LAST), Told::Written),
        Step::Enter(PUT_A, Told::Written),
        Step::Enter(Entry::Purge(0), Told::Written),
        Step::Enter(Entry::Accept(b'a', b"msg_1", b"{}", 0), Told::Written),
        Step::Enter(Entry::Outcome(3, 1, 200, 0), Told::Written),
        Step::Enter(Entry::Purge(0), Told::Written),
        Step::Shows(&[Look::Event(3, 1, false, None, Some(200))]),
        Step::Enter(Entry::Purge(1), Told::Written),
        Step::Enter(Entry::Purge(1), Told::Written),
        Step::Shows(&[Look::NoEvent(3), Look::Holds(8, 0, 1)]),
        Step::Enter(Entry::Accept(b'a', b"msg_2", b"{}", 0), Told::Written),
        Step::Enter(Entry::Outcome(8, 1, 200, LAST), Told::Written),
        Step::Enter(Entry::Purge(LAST), Told::Written),
        Step::Shows(&[
            Look::Event(8, 1, false, None, Some(200)),
            Look::Holds(11, LAST, 1),
        ]),
    ],
    counts: &[
        ("SELECT records FROM meta", 11),
        ("SELECT count(*) FROM secrets", 2),
        ("SELECT seq FROM deliveries", 8),
        ("SELECT count(*) FROM attempts", 1),
    ],
};

#[test]
fn nothing_is_taken_twice_or_at_the_greatest_moment(rt: HostRuntime) -> Result<(), Fail> {
    walk(&rt, rt.alloc(), &NOTHING_IS_TAKEN)
}

/// Subscriptions, secrets and flags stay.
static ENDPOINTS_STAY: Story = Story {
    limit: None,
    steps: &[
        Step::Enter(PUT, Told::Written),
        Step::Enter(Entry::Put(b'b', 100, Keys::Of([2; 4], 2)), Told::Written),
        Step::Enter(Entry::Subscribe(b"t", b'a', true), Told::Written),
        Step::Enter(Entry::Subscribe(b"t", b'b', false), Told::Written),
        Step::Enter(Entry::Give(b'a', Keys::Of([3; 4], 3)), Told::Written),
        Step::Enter(Entry::Enable(b'b', false), Told::Written),
        Step::Enter(EVENT_A, Told::Written),
        Step::Enter(Entry::Accept(b'b', b"msg_1", b"{}", 1000), Told::Written),
        Step::Enter(Entry::Outcome(6, 1, 200, 1000), Told::Written),
        Step::Enter(Entry::Outcome(7, 1, 500, 1000), Told::Written),
        Step::Enter(Entry::Purge(LAST), Told::Written),
        Step::Shows(&[
            Look::Holds(11, 1000, 2),
            Look::NoEvent(6),
            Look::Event(7, 1, true, Some(1005), Some(500)),
            Look::Subscribers(b"t", b"a"),
            Look::HasTopic(b"t", b'b', Some(false)),
            Look::IsEnabled(b'a', true),
            Look::IsEnabled(b'b', false),
            Look::Find(b'a', b"msg_1", None),
            Look::Find(b'b', b"msg_1", Some(7)),
        ]),
    ],
    counts: &[
        ("SELECT records FROM meta", 11),
        ("SELECT count(*) FROM endpoints", 2),
        ("SELECT count(*) FROM secrets", 5),
        ("SELECT count(*) FROM topics", 2),
        ("SELECT seq FROM deliveries", 7),
        ("SELECT seq FROM attempts", 9),
    ],
};

#[test]
fn endpoints_stay(rt: HostRuntime) -> Result<(), Fail> {
    walk(&rt, rt.alloc(), &ENDPOINTS_STAY)
}

/// The attempt that disabled the endpoint is removed, and the flag is left.
static A_FLAG_OUTLIVES_ITS_ATTEMPT: Story = Story {
    limit: None,
    steps: &[
        Step::Enter(PUT, Told::Written),
        Step::Enter(EVENT_A, Told::Written),
        Step::Enter(Entry::Outcome(1, 1, 410, 1001), Told::Written),
        Step::Enter(Entry::Outcome(1, 2, 200, 1002), Told::Written),
        Step::Enter(Entry::Purge(1003), Told::Written),
        Step::Shows(&[Look::Holds(5, 0, 1), Look::IsEnabled(b'a', false)]),
    ],
    counts: &[
        ("SELECT records FROM meta", 5),
        (
            "SELECT count(*) FROM endpoints WHERE enabled = 0 AND enabled_by = 2 AND secrets_by = 0",
            1,
        ),
        ("SELECT count(*) FROM deliveries", 0),
        ("SELECT count(*) FROM attempts", 0),
    ],
};

#[test]
fn a_flag_outlives_its_attempt(rt: HostRuntime) -> Result<(), Fail> {
    walk(&rt, rt.alloc(), &A_FLAG_OUTLIVES_ITS_ATTEMPT)
}

/// The same, adopted: an event with the id is taken in, and a later answer of gone decides.
static AND_IS_ADOPTED: Story = Story {
    limit: None,
    steps: &[
        Step::Next(5),
        Step::Shows(&[Look::Holds(5, 0, 1), Look::IsEnabled(b'a', false)]),
        Step::Enter(EVENT_AGAIN, Told::Written),
        Step::Enter(Entry::Outcome(5, 1, 410, 1003), Told::Written),
        Step::Shows(&[
            Look::Holds(7, 1003, 1),
            Look::IsEnabled(b'a', false),
            Look::Event(5, 1, true, Some(1003), Some(410)),
        ]),
    ],
    counts: &[
        ("SELECT records FROM meta", 7),
        (
            "SELECT count(*) FROM endpoints WHERE enabled = 0 AND enabled_by = 6",
            1,
        ),
        ("SELECT seq FROM deliveries", 5),
    ],
};

#[test]
fn a_flag_without_its_attempt_is_adopted(rt: HostRuntime) -> Result<(), Fail> {
    let conn = left_after(&rt, rt.alloc(), A_FLAG_OUTLIVES_ITS_ATTEMPT.steps)?;
    walk_adopted(&rt, rt.alloc(), conn, &AND_IS_ADOPTED)
}

/// A page has 256 rows. Events 1 to 600 ended at 1000 where their number is even, and at 1001 where it isn't.
static EVERY_OTHER_EVENT_IS_TAKEN: Story = Story {
    limit: None,
    steps: &[
        Step::Enter(PUT, Told::Written),
        Step::Events(Span(0, 600, 200), Moments(500, 1, 1)),
        Step::Ends(Span(1, 601, 200), 204, Moments(1000, 2, 1)),
        Step::Enter(Entry::Purge(1001), Told::Written),
        Step::Shows(&[
            Look::Holds(1202, 1001, 1),
            Look::Settled(0, 300),
            Look::Event(1, 1, false, None, Some(204)),
            Look::NoEvent(2),
            Look::NoEvent(256),
            Look::Event(257, 1, false, None, Some(204)),
            Look::NoEvent(258),
            Look::Event(511, 1, false, None, Some(204)),
            Look::NoEvent(512),
            Look::Event(513, 1, false, None, Some(204)),
            Look::Event(599, 1, false, None, Some(204)),
            Look::NoEvent(600),
        ]),
    ],
    counts: &[
        ("SELECT records FROM meta", 1202),
        ("SELECT count(*) FROM deliveries", 300),
        ("SELECT count(*) FROM attempts", 300),
        ("SELECT count(*) FROM attempts WHERE at = 1001", 300),
    ],
};

#[test]
fn every_other_event_is_taken(rt: HostRuntime) -> Result<(), Fail> {
    walk(&rt, rt.alloc(), &EVERY_OTHER_EVENT_IS_TAKEN)
}

/// Events 1 to 513, of which the first 257 have ended: a page and one more are taken, and as many less one are left.
static MORE_THAN_A_PAGE_IS_TAKEN: Story = Story {
    limit: None,
    steps: &[
        Step::Enter(PUT, Told::Written),
        Step::Events(Span(0, 513, 256), Moments(500, 1, 1)),
        Step::Ends(Span(1, 258, 256), 204, Moments(1000, 1, 1)),
        Step::Enter(Entry::Purge(1001), Told::Written),
        Step::Shows(&[
            Look::Holds(772, 500, 1),
            Look::Settled(256, 0),
            Look::NoEvent(1),
            Look::NoEvent(257),
            Look::Event(258, 0, true, Some(500), None),
            Look::Event(513, 0, true, Some(500), None),
        ]),
        Step::Ends(Span(258, 514, 256), 204, Moments(1000, 1, 1)),
        Step::Enter(Entry::Purge(1001), Told::Written),
        Step::Shows(&[
            Look::Holds(1029, 0, 1),
            Look::Settled(0, 0),
            Look::NoEvent(513),
        ]),
    ],
    counts: &[
        ("SELECT records FROM meta", 1029),
        ("SELECT count(*) FROM deliveries", 0),
        ("SELECT count(*) FROM attempts", 0),
    ],
};

#[test]
fn more_than_a_page_is_taken(rt: HostRuntime) -> Result<(), Fail> {
    walk(&rt, rt.alloc(), &MORE_THAN_A_PAGE_IS_TAKEN)
}

/// So few steps that the statement fails which reads 200 events.
static A_PURGE_THAT_FAILS_TAKES_NOTHING: Story = Story {
    limit: Some(100),
    steps: &[
        Step::Enter(PUT, Told::Written),
        Step::Events(Span(0, 200, 200), Moments(500, 1, 1)),
        Step::Enter(Entry::Outcome(1, 1, 200, 1000), Told::Written),
        Step::Enter(Entry::Purge(1001), Told::Doubtful),
        Step::IsClosed(true),
    ],
    counts: &[
        ("SELECT records FROM meta", 202),
        ("SELECT count(*) FROM deliveries", 200),
        ("SELECT count(*) FROM attempts", 1),
    ],
};

#[test]
fn a_purge_that_fails_takes_nothing(rt: HostRuntime) -> Result<(), Fail> {
    walk(&rt, rt.alloc(), &A_PURGE_THAT_FAILS_TAKES_NOTHING)
}
