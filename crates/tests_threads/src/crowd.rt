//! Many submitters and workers.

use crate::given::{body, name, now};
use crate::seen::count;
use crate::stand_ins::Way;
use crate::steps::Place;
use delivery::{Pass, Round};
use desk::Desk;
use intake_shed::submit_and_wait;
use relay_types::{MsgId, Name, State};
use run_log::LogId;
use std::alloc::Global;
use std::process::Abort;
use std::sync::Wait;
use std::sync::ledger::Ledger;
use std::time::Clock;

/// How many events each submitter has.
pub(crate) const EACH: u64 = 2_500;

/// The endpoints that they are for, in turn.
pub(crate) const NAMES: [&[u8]; 4] = [b"a", b"b", b"c", b"d"];

fn name_of(rt: &impl Abort, number: u64) -> Name {
    name(rt, NAMES[(number % 4) as usize])
}

fn id_of(rt: &impl Abort, alloc: Global, submitter: u64, number: u64) -> MsgId {
    let text = format!(in alloc; "msg_{submitter}_{number}").expect(rt, "memory");
    MsgId::read(text.as_bytes()).expect(rt, "an id")
}

// Submits an event, and waits until it is acknowledged: whether the acknowledgement is its own, and
// the event has a page then.
fn is_acknowledged<L: Ledger, I: LogId, R: Wait + Clock + Abort>(
    place: &Place<'_, L, I, R>,
    submitter: u64,
    number: u64,
    pass: &mut Pass,
) -> bool {
    let (rt, alloc) = (place.rt, place.alloc);
    let (name, id) = (name_of(rt, number), id_of(rt, alloc, submitter, number));
    let body = body(rt, alloc);
    match submit_and_wait(rt, place.shared, now(rt), name, id, body, pass) {
        Ok(ack) => { ack.id() == id && ack.seq() < pass.seen() && has_page(place, name, &id, pass) }
        Err(_) => false,
    }
}

fn has_page<L: Ledger, I: LogId, R: Wait>(
    place: &Place<'_, L, I, R>,
    name: Name,
    id: &MsgId,
    pass: &mut Pass,
) -> bool {
    match place.shared.look(place.rt, pass) {
        Ok(locked) => locked.desk().event_page(name, id).is_some(),
        Err(_) => false,
    }
}

/// Submits each event of this submitter. Whether each is acknowledged.
pub(crate) fn submit_each<L: Ledger, I: LogId, R: Wait + Clock + Abort>(
    place: &Place<'_, L, I, R>,
    submitter: u64,
    pass: &mut Pass,
) -> bool {
    for number in 0..EACH {
        if !is_acknowledged(place, submitter, number, pass) {
            return false;
        }
        count(&place.seen.ended);
    }
    true
}

/// Posts what there is to post until the end: whether the desk isn't halted then.
pub(crate) fn work<L: Ledger, I: LogId, R: Wait + Clock + Abort>(
    place: &Place<'_, L, I, R>,
    pass: &mut Pass,
) -> bool {
    for _ in place.rt.forever() {
        match place.round(1000, &Way::Answer(200), pass) {
            Round::Posted { .. } => {}
            Round::Idle | Round::NoMemory | Round::WentBack(_) => place.shared.rest(place.rt, pass),
            Round::Halted => return false,
            Round::Closing => return true,
        }
    }
    false
}

// Whether the event was delivered at its first attempt.
fn was_delivered<L: Ledger, I: LogId, R: Wait>(
    place: &Place<'_, L, I, R>,
    name: Name,
    id: &MsgId,
    pass: &mut Pass,
) -> bool {
    match place.shared.look(place.rt, pass) {
        Ok(locked) => is_delivered(locked.desk(), name, id),
        Err(_) => false,
    }
}

fn is_delivered<L: Ledger>(desk: &Desk<L>, name: Name, id: &MsgId) -> bool {
    match desk.event_page(name, id) {
        Some(row) => row.state == State::Delivered && row.attempts == 1,
        None => false,
    }
}

/// Whether each event of so many submitters was delivered at its first attempt.
pub(crate) fn are_each_delivered<L: Ledger, I: LogId, R: Wait + Clock + Abort>(
    place: &Place<'_, L, I, R>,
    submitters: u64,
) -> bool {
    let (rt, mut pass) = (place.rt, Pass::new());
    for number in 0..submitters.saturating_mul(EACH) {
        let (name, id) = (
            name_of(rt, number % EACH),
            id_of(rt, place.alloc, number / EACH, number % EACH),
        );
        if !was_delivered(place, name, &id, &mut pass) {
            return false;
        }
    }
    true
}
