//! The calls of a run, and the replies to them.
ghost use Rattle.std.specs.Prelude.{◌≡◌, IfOk};

use desk::{CommandTicket, Ticket, Totals};
use std::alloc::AllocError;

/// One call of the core.
#[derive(Drop)]
pub enum Event {
    /// A call that has a line in scripts.
    Line(script_lines::Call),
    /// A look at the desk that has no line.
    Look(Look),
}

/// A look at the desk that has no line in scripts.
#[derive(Clone, Copy, PartialEq, Eq)]
pub enum Look {
    /// What is known of a submission.
    Told(Ticket),
    /// What is known of a command.
    ToldCommand(CommandTicket),
    /// Whether a submission is settled, so that its body is shown.
    SettledBody(Ticket),
    /// What the settled records say of all endpoints and events.
    Totals,
    /// How many records there are.
    Records,
    /// How many records are settled.
    SettledRecords,
    /// Whether nothing is taken or sealed any more.
    IsHalted,
}

/// The reply to a call.
#[derive(Drop)]
pub enum Reply {
    /// What its line prints.
    Line(script_lines::Reply),
    HasBody(bool),
    Totals(Totals),
    Count(u64),
    Flag(bool),
}

impl Event {
    /// The same call for another holder. It copies no text and no body.
    pub fn share(&self) -> Result<Event, AllocError>
        ensures { IfOk result (λ same. same ≡ self.now) }
    {
        match self {
            Event::Line(event) => Ok(Event::Line(event.share()?)),
            Event::Look(look) => Ok(Event::Look(*look)),
        }
    }
}
