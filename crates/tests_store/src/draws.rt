//! Records that are drawn for random histories.
ghost use Rattle.std.specs.Prelude.{◌<◌};

use crate::entries::{Entry, Keys, name_of};
use delivery_book::DeliveryBook;
use relay_types::MsgId;
use spool::Books;
use std::test::Fail;

/// Numbers of a linear congruential generator, with the constants of Knuth's MMIX.
#[derive(Drop)]
pub(crate) struct Numbers {
    pub last: u64,
}

impl Numbers {
    pub(crate) fn below(&mut self, bound: u64) -> u64
        requires { 0 < bound }
        ensures { result < bound }
    {
        self.last = self
            .last
            .wrapping_mul(6_364_136_223_846_793_005)
            .wrapping_add(1_442_695_040_888_963_407);
        (self.last >> 33) % bound
    }

    fn byte(&mut self) -> u8 {
        self.below(250) as u8
    }
}

/// The names of endpoints. No record speaks of the last.
pub(crate) static LETTERS: [u8; 5] = [b'a', b'b', b'c', b'd', b'e'];

pub(crate) static TOPICS: [&'static [u8]; 3] = [b"t", b"orders", b"a"];

pub(crate) static IDS: [&'static [u8]; 2] = [b"msg_1", b"msg_2"];

static STATUSES: [u16; 8] = [0, 204, 302, 404, 410, 500, 503, 600];

const BODY: &'static [u8] = b"xxxxxxxx";

/// One to four secrets.
fn draw_keys(numbers: &mut Numbers) -> Keys {
    let bytes = [
        numbers.byte(),
        numbers.byte(),
        numbers.byte(),
        numbers.byte(),
    ];
    Keys::Of(bytes, numbers.below(4) as usize + 1)
}

fn draw_endpoint(numbers: &mut Numbers, letter: u8, is_known: bool) -> Option<Entry> {
    if !is_known {
        let max = numbers.below(1000) + 1;
        return Some(Entry::Put(letter, max, draw_keys(numbers)));
    }
    match numbers.below(4) {
        0 => Some(Entry::Give(letter, draw_keys(numbers))),
        1 => Some(Entry::Enable(letter, numbers.below(3) > 0)),
        2 => {
            let topic = TOPICS[numbers.below(3) as usize];
            Some(Entry::Subscribe(topic, letter, numbers.below(3) > 0))
        }
        _ => None,
    }
}

/// An event with a body of up to 8 bytes.
fn draw_event(numbers: &mut Numbers, letter: u8, id: &'static [u8]) -> Entry {
    let len = numbers.below(9) as usize;
    let at = 1000 + numbers.below(1000);
    Entry::Accept(letter, id, BODY.get(..len).unwrap_or(BODY), at)
}

/// The outcome of the next attempt at this delivery. One in eight delivers it.
fn draw_outcome(numbers: &mut Numbers, book: &DeliveryBook, delivery: u64) -> Option<Entry> {
    let status = STATUSES[numbers.below(8) as usize];
    let at = 1000 + numbers.below(1000);
    match book.row(delivery) {
        Some(row) if book.takes_outcome(delivery) => {
            let attempt = row.attempts.saturating_add(1);
            Some(Entry::Outcome(delivery, attempt, status, at))
        }
        _ => None,
    }
}

/// A record that may follow those of the books.
pub(crate) fn draw(numbers: &mut Numbers, books: &Books) -> Result<Option<Entry>, Fail> {
    let letter = LETTERS[numbers.below(4) as usize];
    let id = IDS[numbers.below(2) as usize];
    let name = name_of(letter)?;
    if numbers.below(16) == 0 {
        return Ok(Some(Entry::Purge(1000 + numbers.below(1100))));
    }
    let found = books.deliveries.find(name, &MsgId::read(id)?);
    let is_known = books.endpoints.contains(name);
    if numbers.below(4) == 0 {
        return Ok(draw_endpoint(numbers, letter, is_known));
    }
    match found {
        Some(delivery) => Ok(draw_outcome(numbers, &books.deliveries, delivery)),
        None if is_known => Ok(Some(draw_event(numbers, letter, id))),
        None => Ok(None),
    }
}
