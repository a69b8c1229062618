//! The replies to requests for pages.
ghost use Rattle.std.specs.Prelude.{IsTrue};
ghost use Rattle.desk.specs.World.{settled_records};
ghost use Rattle.desk.specs.Desks.{OverWorlds};
ghost use Rattle.desk.specs.OwnBooks as kept;
ghost use Rattle.desk.specs.Queries.{endpoint_page, event_page};
ghost use Rattle.intake_shed.specs.Pages.{asks_for_page, IsDeskPageReply, IsPageReply, GivesEndpoint, GivesEvent};

use crate::ask::Asked;
use crate::reply::Reply;
use desk::Desk;
use relay_types::{MsgId, Name};
use status::{endpoint_text, event_text, totals_text};
use std::alloc::Global;
use std::sync::ledger::Ledger;

/// The page that is asked for, of what is settled. It changes nothing.
pub fn page_reply<L: Ledger>(alloc: Global, desk: &Desk<L>, asked: &Asked) -> Reply
    requires { IsTrue (asks_for_page asked.now) }
    ensures value { IsDeskPageReply desk.now asked.now result }
    ensures stands { OverWorlds desk.now (λ w. IsPageReply (settled_records w) asked.now result) }
{
    match asked {
        Asked::Totals => Reply::done(200, totals_text(alloc, &desk.totals())),
        Asked::Endpoint(name) => endpoint_reply(alloc, desk, *name),
        Asked::Event(name, id) => event_reply(alloc, desk, *name, id),
        Asked::Change(_) | Asked::Post { .. } | Asked::Publish { .. } => unreachable!(),
    }
}

fn endpoint_reply<L: Ledger>(alloc: Global, desk: &Desk<L>, name: Name) -> Reply
    ensures value { GivesEndpoint (kept.endpoint_page desk.now name) result }
    ensures stands { OverWorlds desk.now (λ w. GivesEndpoint (endpoint_page (settled_records w) name) result) }
{
    match desk.endpoint_page(name) {
        Some(page) => Reply::done(200, endpoint_text(alloc, &page)),
        None => Reply::refused(404, "{\"error\":\"UnknownEndpoint\"}"),
    }
}

fn event_reply<L: Ledger>(alloc: Global, desk: &Desk<L>, name: Name, id: &MsgId) -> Reply
    ensures value { GivesEvent (kept.endpoint_page desk.now name) (kept.event_page desk.now name id.now) result }
    ensures stands { OverWorlds desk.now (λ w.
        GivesEvent (endpoint_page (settled_records w) name) (event_page (settled_records w) name id.now) result) }
{
    if desk.endpoint_page(name).is_none() {
        return Reply::refused(404, "{\"error\":\"UnknownEndpoint\"}");
    }
    match desk.event_page(name, id) {
        Some(row) => Reply::done(200, event_text(alloc, &row)),
        None => Reply::refused(404, "{\"error\":\"UnknownEvent\"}"),
    }
}
