//! The tickets that a script got.
ghost use Rattle.std.specs.Prelude.{◌≡◌, ◌+◌, ◌≤◌, List, [], ◌∷◌, OnOk};
ghost use Rattle.std.specs.HashMap.{spare};
ghost use Rattle.drill.specs.declared.tickets.AnyTicket as any_ticket;
ghost use Rattle.drill.specs.Tickets.{seq_of, find_ticket, KeepsTickets, HasTicketRoom};

use desk::{CommandTicket, Ticket};
use std::alloc::{AllocError, Global};
use std::collections::HashMap;

/// The ticket of a submission or of a command.
#[derive(Clone, Copy)]
pub(crate) enum AnyTicket {
    Submission(Ticket),
    Command(CommandTicket),
}

impl AnyTicket {
    // The number of its record.
    pub(crate) fn seq(&self) -> u64
        ensures { result ≡ seq_of self.now }
    {
        match self {
            AnyTicket::Submission(ticket) => ticket.seq,
            AnyTicket::Command(ticket) => ticket.seq,
        }
    }
}

/// The tickets since the opening, by the numbers of their records.
#[derive(Drop)]
pub(crate) struct Tickets {
    given: HashMap<u64, AnyTicket>,
}

impl Tickets {
    pub(crate) fn new(alloc: Global) -> Tickets
        ensures { KeepsTickets result [] }
    {
        Tickets {
            given: HashMap::new(alloc),
        }
    }

    // Makes room for so many more.
    pub(crate) fn reserve(&mut self, count: usize) -> Result<(), AllocError>
        ensures same { (tickets : List any_ticket.AnyTicket) → KeepsTickets self.old tickets
            → KeepsTickets self.new tickets }
        ensures room { OnOk result (HasTicketRoom self.new count) }
    {
        self.given.reserve(count)
    }

    // Keeps the ticket, in place of an older one of this number. It doesn't allocate.
    pub(crate) fn keep(&mut self, ticket: AnyTicket)
        requires { HasTicketRoom self.old 1 }
        ensures kept { (tickets : List any_ticket.AnyTicket) → KeepsTickets self.old tickets
            → KeepsTickets self.new (ticket ∷ tickets) }
        ensures room { spare self.old.given ≤ spare self.new.given + 1 }
    {
        let seq = ticket.seq();
        let _ = self.given.insert(seq, ticket);
    }

    // The ticket of this number, if there is one.
    pub(crate) fn find(&self, seq: u64) -> Option<AnyTicket>
        ensures { (tickets : List any_ticket.AnyTicket) → KeepsTickets self.now tickets
            → result ≡ find_ticket tickets seq }
    {
        self.given.get(&seq).copied()
    }
}
