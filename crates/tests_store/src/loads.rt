//! What `Vault::load` gives.

use crate::entries::{Entry, Keys};
use crate::stories::{Fault, Look, Step, Story, walk};
use crate::tables::{EVENT_A, PUT_A};
use crate::vaults::{Moments, Span, Told};
use std::test::Fail;

/// An endpoint with one secret.
const PUT: Entry = Entry::Put(b'a', 100, ONE);

const ONE: Keys = Keys::Of([1; 4], 1);

static AN_EMPTY_STORE_GIVES_EMPTY_BOOKS: Story = Story {
    limit: None,
    steps: &[Step::Shows(&[Look::Holds(0, 0, 0), Look::NoEvent(0)])],
    counts: &[],
};

#[test]
fn an_empty_store_gives_empty_books(rt: HostRuntime) -> Result<(), Fail> {
    walk(&rt, rt.alloc(), &AN_EMPTY_STORE_GIVES_EMPTY_BOOKS)
}

static EVERY_RECORD_IS_READ_BACK: Story = Story {
    limit: None,
    steps: &[
        Step::Enter(PUT_A, Told::Written),
        Step::Enter(EVENT_A, Told::Written),
        Step::Enter(Entry::Outcome(1, 1, 500, 1001), Told::Written),
        Step::Enter(Entry::Outcome(1, 2, 410, 1006), Told::Written),
        Step::Shows(&[
            Look::Holds(4, 1006, 1),
            Look::Event(1, 2, true, Some(1006), Some(410)),
            Look::IsEnabled(b'a', false),
        ]),
        Step::Enter(Entry::Enable(b'a', true), Told::Written),
        Step::Enter(Entry::Outcome(1, 3, 500, 1007), Told::Written),
        Step::Shows(&[
            Look::Holds(6, 1007, 1),
            Look::Event(1, 3, true, Some(1307), Some(500)),
            Look::IsEnabled(b'a', true),
            Look::Settled(1, 0),
        ]),
    ],
    counts: &[],
};

#[test]
fn every_record_is_read_back(rt: HostRuntime) -> Result<(), Fail> {
    walk(&rt, rt.alloc(), &EVERY_RECORD_IS_READ_BACK)
}

/// Subscribers stand in the order of their Puts.
static TOPICS_ARE_READ_BACK: Story = Story {
    limit: None,
    steps: &[
        Step::Enter(Entry::Put(b'b', 100, ONE), Told::Written),
        Step::Enter(PUT, Told::Written),
        Step::Enter(Entry::Subscribe(b"t", b'a', true), Told::Written),
        Step::Enter(Entry::Subscribe(b"t", b'b', true), Told::Written),
        Step::Enter(Entry::Subscribe(b"orders", b'a', false), Told::Written),
        Step::Shows(&[
            Look::Holds(5, 0, 2),
            Look::Subscribers(b"t", b"ba"),
            Look::Subscribers(b"orders", b""),
            Look::HasTopic(b"orders", b'a', Some(false)),
            Look::HasTopic(b"orders", b'b', None),
            Look::FreeTopics(4093),
        ]),
        Step::Enter(Entry::Subscribe(b"t", b'b', false), Told::Written),
        Step::Enter(Entry::Enable(b'a', false), Told::Written),
        Step::Shows(&[
            Look::Holds(7, 0, 2),
            Look::Subscribers(b"t", b"a"),
            Look::HasTopic(b"t", b'b', Some(false)),
            Look::FreeTopics(4093),
        ]),
    ],
    counts: &[],
};

#[test]
fn topics_are_read_back(rt: HostRuntime) -> Result<(), Fail> {
    walk(&rt, rt.alloc(), &TOPICS_ARE_READ_BACK)
}

/// 600 topics, in batches of 200.
static MORE_THAN_TWO_PAGES_OF_TOPICS_ARE_LOADED: Story = Story {
    limit: None,
    steps: &[
        Step::Enter(PUT, Told::Written),
        Step::Topics(Span(0, 600, 200)),
        Step::Enter(Entry::Subscribe(b"t0", b'a', true), Told::Written),
        Step::Shows(&[
            Look::Holds(602, 0, 1),
            Look::Subscribed(600),
            Look::FreeTopics(3496),
        ]),
    ],
    counts: &[],
};

#[test]
fn more_than_two_pages_of_topics_are_loaded(rt: HostRuntime) -> Result<(), Fail> {
    walk(&rt, rt.alloc(), &MORE_THAN_TWO_PAGES_OF_TOPICS_ARE_LOADED)
}

/// A page has 256 rows. Each record is committed alone, and later ones have earlier moments.
static TABLES_OF_MORE_THAN_A_PAGE_ARE_READ_BACK: Story = Story {
    limit: None,
    steps: &[
        Step::Enter(PUT_A, Told::Written),
        Step::Events(Span(1, 258, 1), Moments(2000, 1, 1000)),
        Step::Ends(Span(1, 258, 1), 204, Moments(3000, 1, 1000)),
        Step::Shows(&[
            Look::Holds(515, 2999, 1),
            Look::Settled(0, 257),
            Look::Event(257, 1, false, None, Some(204)),
        ]),
    ],
    counts: &[],
};

#[test]
fn tables_of_more_than_a_page_are_read_back(rt: HostRuntime) -> Result<(), Fail> {
    walk(&rt, rt.alloc(), &TABLES_OF_MORE_THAN_A_PAGE_ARE_READ_BACK)
}

/// 600 events, which have the numbers 1 to 600, and a failed outcome of each, in batches of 200.
static MORE_THAN_TWO_PAGES_ARE_LOADED: Story = Story {
    limit: None,
    steps: &[
        Step::Enter(PUT, Told::Written),
        Step::Events(Span(0, 600, 200), Moments(1000, 7, 1)),
        Step::Ends(Span(1, 601, 200), 500, Moments(2000, 1, 1000)),
        Step::Shows(&[
            Look::Holds(1201, 1999, 1),
            Look::Pending(600),
            Look::Attempted(600),
        ]),
    ],
    counts: &[],
};

#[test]
fn more_than_two_pages_are_loaded(rt: HostRuntime) -> Result<(), Fail> {
    walk(&rt, rt.alloc(), &MORE_THAN_TWO_PAGES_ARE_LOADED)
}

/// So few that a statement fails which reads 200 events or counts 100 endpoints.
const FEW: Option<u64> = Some(100);

static A_STORE_THAT_FAILS_IS_TOLD: Story = Story {
    limit: FEW,
    steps: &[
        Step::Enter(PUT, Told::Written),
        Step::Events(Span(0, 200, 200), Moments(1000, 7, 1)),
        Step::IsNotLoaded(Fault::Store),
        Step::IsClosed(false),
        Step::Events(Span(200, 400, 200), Moments(1000, 7, 1)),
    ],
    counts: &[],
};

#[test]
fn a_store_that_fails_is_told(rt: HostRuntime) -> Result<(), Fail> {
    walk(&rt, rt.alloc(), &A_STORE_THAT_FAILS_IS_TOLD)
}

static A_CLOSED_VAULT_IS_NOT_LOADED: Story = Story {
    limit: FEW,
    steps: &[
        Step::Puts(256, ONE, Told::Doubtful),
        Step::IsClosed(true),
        Step::IsNotLoaded(Fault::Closed),
    ],
    counts: &[],
};

#[test]
fn a_closed_vault_is_not_loaded(rt: HostRuntime) -> Result<(), Fail> {
    walk(&rt, rt.alloc(), &A_CLOSED_VAULT_IS_NOT_LOADED)
}
