//! Looks at the desk that no line of a script names.
ghost use Rattle.std.specs.Prelude.{◌≡◌};
ghost use Rattle.desk.specs.Desks.{OverWorlds};
ghost use Rattle.drill.specs.Events.{look_reply};

use crate::events::{Look, Reply};
use crate::replies::told_reply;
use desk::Desk;
use std::sync::ledger::Ledger;

// The reply to the look.
pub(crate) fn look_at<L: Ledger>(desk: &Desk<L>, look: Look) -> Reply
    ensures { OverWorlds desk.now (λ w. result ≡ look_reply w look) }
{
    match look {
        Look::Told(ticket) => Reply::Line(told_reply(desk.told(&ticket))),
        Look::ToldCommand(ticket) => Reply::Line(told_reply(desk.told_command(&ticket))),
        Look::SettledBody(ticket) => Reply::HasBody(desk.settled_body(&ticket).is_some()),
        Look::Totals => Reply::Totals(desk.totals()),
        Look::Records => Reply::Count(desk.records()),
        Look::SettledRecords => Reply::Count(desk.settled_records()),
        Look::IsHalted => Reply::Flag(desk.is_halted()),
    }
}
