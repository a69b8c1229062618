//! The replies to changes and events that are done.
ghost use Rattle.std.specs.Prelude.{◌≡◌, IfOk, string_bytes};
ghost use Rattle.serde_json.specs.View.{items_view, view};
ghost use Rattle.intake_shed.specs.Done.{IsDone, change_status, change_body, change_text, accepted_body, accepted_text};
ghost use Rattle.intake_shed.specs.Done.{naturals, published_body, published_text, seqs_of};

use crate::reply::Reply;
use desk::{Command, Ticket};
use relay_types::MsgId;
use serde_json::{Value, json};
use status::id_text;
use std::alloc::{AllocError, Global};

/// The status of a change that is done: 201 of a new endpoint, 200 of the others.
pub fn change_status(command: &Command) -> u16
    ensures { result ≡ change_status command.now }
{
    match command {
        Command::PutEndpoint { .. } => 201,
        _ => 200,
    }
}

/// The reply to a change that is done, with this status: its record's number. If an allocation for
/// the text fails, it is that of OutOfMemory, and the change stays done.
pub fn change_reply(alloc: Global, status: u16, seq: u64) -> Reply
    ensures { IsDone status (change_text seq) result }
{
    Reply::done(status, change_text(alloc, seq))
}

fn change_text(alloc: Global, seq: u64) -> Result<String, AllocError>
    ensures { IfOk result (λ text. string_bytes text ≡ change_text seq) }
{
    change_body(alloc, seq)?.to_string(alloc)
}

fn change_body(alloc: Global, seq: u64) -> Result<Value, AllocError>
    ensures { IfOk result (λ value. view value ≡ change_body seq) }
{
    json!(in alloc; { "seq": seq })
}

/// The reply to an event that is settled: its id, and its record's number. If an allocation for the
/// text fails, it is that of OutOfMemory, and the event stays settled.
pub fn accepted_reply(alloc: Global, id: &MsgId, seq: u64) -> Reply
    ensures { IsDone 202 (accepted_text id.now seq) result }
{
    Reply::done(202, accepted_text(alloc, id, seq))
}

fn accepted_text(alloc: Global, id: &MsgId, seq: u64) -> Result<String, AllocError>
    ensures { IfOk result (λ text. string_bytes text ≡ accepted_text id.now seq) }
{
    accepted_body(alloc, id, seq)?.to_string(alloc)
}

fn accepted_body(alloc: Global, id: &MsgId, seq: u64) -> Result<Value, AllocError>
    ensures { IfOk result (λ value. view value ≡ accepted_body id.now seq) }
{
    json!(in alloc; {
        "id": id_text(id),
        "seq": seq,
    })
}

/// The reply to an event that is settled at each subscriber of its topic: its id, and the numbers
/// of its records. If an allocation for the text fails, it is that of OutOfMemory, and the event
/// stays settled.
pub fn published_reply(alloc: Global, id: &MsgId, tickets: &[Ticket]) -> Reply
    ensures { IsDone 202 (published_text id.now (seqs_of tickets.now)) result }
{
    Reply::done(202, published_text(alloc, id, tickets))
}

fn published_text(alloc: Global, id: &MsgId, tickets: &[Ticket]) -> Result<String, AllocError>
    ensures { IfOk result (λ text. string_bytes text ≡ published_text id.now (seqs_of tickets.now)) }
{
    published_body(alloc, id, tickets)?.to_string(alloc)
}

fn published_body(alloc: Global, id: &MsgId, tickets: &[Ticket]) -> Result<Value, AllocError>
    ensures { IfOk result (λ value. view value ≡ published_body id.now (seqs_of tickets.now)) }
{
    let seqs = numbers(alloc, tickets)?;
    json!(in alloc; {
        "id": id_text(id),
        "seqs": seqs,
    })
}

// The numbers of the tickets.
fn numbers(alloc: Global, tickets: &[Ticket]) -> Result<Vec<Value>, AllocError>
    ensures { IfOk result (λ values. items_view values.items ≡ naturals (seqs_of tickets.now)) }
{
    let mut values = Vec::new(alloc);
    for ticket in tickets {
        values.push(Value::from(ticket.seq))?;
    }
    Ok(values)
}
