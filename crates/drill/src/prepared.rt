//! Calls with the room for their replies.
ghost use Rattle.std.specs.Prelude.{◌≡◌, IfOk};
ghost use Rattle.drill.specs.Cores.{HasSeqs, HasSeqsOf, most_tickets, most_tickets_of};

use crate::events::Event;
use relay_types::MAX_ENDPOINTS;
use script_lines::Call;
use std::alloc::{AllocError, Global};

/// A call of the core, with room for the numbers in its reply.
#[derive(Drop)]
pub(crate) struct Prepared {
    pub(crate) event: Event,
    pub(crate) seqs: Vec<u64>,
}

// The most tickets that the call can get: one for each subscriber of a topic.
pub(crate) fn most_tickets(call: &Call) -> usize
    ensures { result ≡ most_tickets call.now }
{
    match call {
        Call::Publish { .. } => MAX_ENDPOINTS,
        _ => 1,
    }
}

pub(crate) fn most_tickets_of(event: &Event) -> usize
    ensures { result ≡ most_tickets_of event.now }
{
    match event {
        Event::Line(call) => most_tickets(call),
        Event::Look(_) => 0,
    }
}

// Room for the numbers in the call's reply.
pub(crate) fn seqs_for(alloc: Global, call: &Call) -> Result<Vec<u64>, AllocError>
    ensures { IfOk result (λ seqs. HasSeqs call.now seqs) }
{
    match call {
        Call::Publish { .. } => Vec::with_capacity(alloc, MAX_ENDPOINTS),
        _ => Ok(Vec::new(alloc)),
    }
}

pub(crate) fn seqs_of(alloc: Global, event: &Event) -> Result<Vec<u64>, AllocError>
    ensures { IfOk result (λ seqs. HasSeqsOf event.now seqs) }
{
    match event {
        Event::Line(call) => seqs_for(alloc, call),
        Event::Look(_) => Ok(Vec::new(alloc)),
    }
}
