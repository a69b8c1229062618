//! Calls of a run, and what each is to be told.

use desk::{CommandTicket, Ticket};
use drill::{Event, Look, Reply};
use relay_types::{MsgId, Name};
use script_lines::read_call;
use std::alloc::Global;
use std::process::Abort;

/// A call, and what it is told: a line of a script and the line that is printed, or a look and what it finds.
#[derive(Clone, Copy)]
pub(crate) enum Call {
    Line(&'static str, &'static str),
    /// The event of endpoint `a` that has this number and this id, and what is known of it.
    Told(u64, &'static [u8], &'static str),
    /// The command of this number, and what is known of it.
    ToldCommand(u64, &'static str),
    /// The event of endpoint `a` that has this number and this id, and whether it has a body.
    HasBody(u64, &'static [u8], bool),
    /// The endpoints, the events that are pending, and the records, of those that are settled.
    Totals(usize, u64, u64),
    Records(u64),
    SettledRecords(u64),
    IsHalted(bool),
}

pub(crate) type Path = &'static [Call];

fn ticket(rt: &impl Abort, seq: u64, id: &[u8]) -> Ticket {
    Ticket {
        seq,
        name: Name::read(b"a").expect(rt, "a name"),
        id: MsgId::read(id).expect(rt, "an id"),
    }
}

fn line_event(rt: &impl Abort, alloc: Global, line: &str) -> Event {
    Event::Line(read_call(alloc, line.as_bytes()).expect(rt, "a line"))
}

fn event_of(rt: &impl Abort, alloc: Global, call: Call) -> Event {
    match call {
        Call::Line(line, _) => line_event(rt, alloc, line),
        Call::Told(seq, id, _) => Event::Look(Look::Told(ticket(rt, seq, id))),
        Call::ToldCommand(seq, _) => Event::Look(Look::ToldCommand(CommandTicket { seq })),
        Call::HasBody(seq, id, _) => Event::Look(Look::SettledBody(ticket(rt, seq, id))),
        Call::Totals(_, _, _) => Event::Look(Look::Totals),
        Call::Records(_) => Event::Look(Look::Records),
        Call::SettledRecords(_) => Event::Look(Look::SettledRecords),
        Call::IsHalted(_) => Event::Look(Look::IsHalted),
    }
}

fn add_events(rt: &impl Abort, alloc: Global, events: &mut Vec<Event>, path: Path) {
    for call in path {
        let event = event_of(rt, alloc, *call);
        events.push(event).expect(rt, "memory");
    }
}

pub(crate) fn events_of(rt: &impl Abort, alloc: Global, paths: &[Path]) -> Vec<Event> {
    let mut events = Vec::new(alloc);
    for path in paths {
        add_events(rt, alloc, &mut events, path);
    }
    events
}

/// Whether the reply prints this.
fn is_line(alloc: Global, reply: &Reply, text: &str) -> bool {
    let Reply::Line(told) = reply else {
        return false;
    };
    match format!(in alloc; "{told}") {
        Ok(line) => line.as_str() == text,
        Err(_) => false,
    }
}

fn is_count(reply: &Reply, count: u64) -> bool {
    match reply {
        Reply::Count(told) => *told == count,
        _ => false,
    }
}

fn is_flag(reply: &Reply, flag: bool) -> bool {
    match reply {
        Reply::Flag(told) => *told == flag,
        _ => false,
    }
}

fn is_body(reply: &Reply, flag: bool) -> bool {
    match reply {
        Reply::HasBody(told) => *told == flag,
        _ => false,
    }
}

fn is_totals(reply: &Reply, endpoints: usize, pending: u64, records: u64) -> bool {
    match reply {
        Reply::Totals(all) => {
            all.endpoints == endpoints && all.pending == pending && all.records == records
        }
        _ => false,
    }
}

fn is_told(alloc: Global, reply: &Reply, call: Call) -> bool {
    match call {
        Call::Line(_, text) => is_line(alloc, reply, text),
        Call::Told(_, _, text) => is_line(alloc, reply, text),
        Call::ToldCommand(_, text) => is_line(alloc, reply, text),
        Call::HasBody(_, _, flag) => is_body(reply, flag),
        Call::Totals(endpoints, pending, records) => is_totals(reply, endpoints, pending, records),
        Call::Records(count) => is_count(reply, count),
        Call::SettledRecords(count) => is_count(reply, count),
        Call::IsHalted(flag) => is_flag(reply, flag),
    }
}

/// Whether the reply at this place prints this.
pub(crate) fn is_line_at(alloc: Global, replies: &[Reply], place: usize, text: &str) -> bool {
    match replies.get(place) {
        Some(reply) => is_line(alloc, reply, text),
        None => false,
    }
}

fn is_told_at(alloc: Global, replies: &[Reply], place: usize, call: Call) -> bool {
    match replies.get(place) {
        Some(reply) => is_told(alloc, reply, call),
        None => false,
    }
}

/// Compares the replies from this place on with those of the path. The place after them.
fn check_path(rt: &impl Abort, alloc: Global, replies: &[Reply], from: usize, path: Path) -> usize {
    let mut place = from;
    for call in path {
        assert!(rt; is_told_at(alloc, replies, place, *call), "call {place}");
        place = place.saturating_add(1);
    }
    place
}

/// Whether each call of the paths was told what is wanted, and nothing else was told.
pub(crate) fn check_replies(rt: &impl Abort, alloc: Global, replies: &[Reply], paths: &[Path]) {
    let mut place = 0;
    for path in paths {
        place = check_path(rt, alloc, replies, place, path);
    }
    assert!(rt; replies.len() == place, "replies {}", replies.len());
}
