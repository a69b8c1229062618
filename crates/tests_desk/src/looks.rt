//! Looks at a desk and at jobs, and whether they show what is expected.

use crate::given::secrets;
use crate::steps::{Event, Page, Post};
use delivery_book::Row;
use desk::{CommandTicket, Desk, EndpointPage, Job, Limits, Ticket, Told, Totals};
use relay_types::{MsgId, Name};
use std::alloc::Global;
use std::sync::ledger::Ledger;
use std::test::Fail;

const URL: &[u8] = b"http://127.0.0.1:9000/hook";

fn ticket(seq: u64, name: &[u8], id: &[u8]) -> Result<Ticket, Fail> {
    Ok(Ticket {
        seq,
        name: Name::read(name)?,
        id: MsgId::read(id)?,
    })
}

pub(crate) fn told<L: Ledger>(
    desk: &Desk<L>,
    seq: u64,
    name: &[u8],
    id: &[u8],
    wanted: Told,
) -> Result<bool, Fail> {
    let ticket = ticket(seq, name, id)?;
    Ok(desk.told(&ticket) == wanted)
}

pub(crate) fn told_command<L: Ledger>(desk: &Desk<L>, seq: u64, wanted: Told) -> bool {
    desk.told_command(&CommandTicket { seq }) == wanted
}

pub(crate) fn has_body<L: Ledger>(
    desk: &Desk<L>,
    seq: u64,
    name: &[u8],
    id: &[u8],
    wanted: Option<&[u8]>,
) -> Result<bool, Fail> {
    let ticket = ticket(seq, name, id)?;
    match (desk.settled_body(&ticket), wanted) {
        (Some(body), Some(bytes)) => Ok(body.as_bytes() == bytes),
        (None, None) => Ok(true),
        _ => Ok(false),
    }
}

pub(crate) fn totals<L: Ledger>(desk: &Desk<L>, wanted: Totals) -> bool {
    desk.totals() == wanted
}

fn is_page(page: &EndpointPage<'_>, name: Name, wanted: &Page) -> bool {
    page.name.is(name)
        && page.url.as_bytes() == URL
        && page.max.get() == wanted.max
        && page.enabled == wanted.enabled
        && page.secrets == wanted.secrets
        && page.pending == wanted.pending
        && page.delivered == wanted.delivered
        && page.exhausted == wanted.exhausted
}

pub(crate) fn endpoint_page<L: Ledger>(
    desk: &Desk<L>,
    name: &[u8],
    wanted: Option<Page>,
) -> Result<bool, Fail> {
    let name = Name::read(name)?;
    match (desk.endpoint_page(name), wanted) {
        (Some(page), Some(wanted)) => Ok(is_page(&page, name, &wanted)),
        (None, None) => Ok(true),
        _ => Ok(false),
    }
}

fn is_event(row: &Row, name: Name, id: MsgId, wanted: &Event) -> bool {
    row.endpoint.is(name)
        && row.id.is(id)
        && row.state == wanted.state
        && row.due == wanted.due
        && row.attempts == wanted.attempts
        && row.last_status == wanted.last_status
}

pub(crate) fn event_page<L: Ledger>(
    desk: &Desk<L>,
    name: &[u8],
    id: &[u8],
    wanted: Option<Event>,
) -> Result<bool, Fail> {
    let name = Name::read(name)?;
    let id = MsgId::read(id)?;
    match (desk.event_page(name, &id), wanted) {
        (Some(row), Some(wanted)) => Ok(is_event(&row, name, id, &wanted)),
        (None, None) => Ok(true),
        _ => Ok(false),
    }
}

pub(crate) fn limits<L: Ledger>(
    desk: &Desk<L>,
    name: &[u8],
    wanted: Option<Limits>,
) -> Result<bool, Fail> {
    let name = Name::read(name)?;
    Ok(desk.limits(name) == wanted)
}

pub(crate) fn records<L: Ledger>(desk: &Desk<L>, all: u64, settled: u64) -> bool {
    desk.records() == all && desk.settled_records() == settled
}

/// Whether the job is of this post.
pub(crate) fn shows<L: Ledger>(alloc: Global, job: &Job<L>, wanted: &Post) -> Result<bool, Fail> {
    let name = Name::read(wanted.endpoint)?;
    let id = MsgId::read(wanted.id)?;
    let secrets = secrets(alloc, wanted.secrets)?;
    Ok(
        job.endpoint().is(name)
            && job.permit().endpoint().is(name)
            && job.post().delivery() == job.permit().delivery()
            && job.id().is(id)
            && job.target().as_bytes() == wanted.target
            && job.secrets().is(&secrets)
            && job.body().as_bytes() == wanted.body,
    )
}
