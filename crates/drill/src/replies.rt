//! The replies to the desk's answers.
ghost use Rattle.std.specs.Prelude.{◌≡◌, ◌+◌, length};
ghost use Rattle.relay_types.specs.Records.{records_of};
ghost use Rattle.script_lines.specs.declared.reply.Reply.TheVariants as says;
ghost use Rattle.drill.specs.Moves.{fault_of, refusal_reply, told_as, event_reply, permit_reply, spent_reply};
ghost use Rattle.drill.specs.Moves.{limits_reply, wrong_turn};

use delivery_book::Row;
use desk::{Job, Limits, Refusal, Spent};
use script_lines::{Fault, Reply, Told};
use spool::Batch;
use std::sync::ledger::Ledger;

pub(crate) fn refusal_reply(refusal: Refusal) -> Reply
    ensures { result ≡ refusal_reply refusal }
{
    Reply::Refused {
        number: refusal.number,
        fault: fault_of(refusal.fault),
    }
}

fn fault_of(fault: desk::Fault) -> Fault
    ensures { result ≡ fault_of fault }
{
    match fault {
        desk::Fault::Halted => Fault::Halted,
        desk::Fault::UnknownEndpoint => Fault::UnknownEndpoint,
        desk::Fault::UnknownTopic => Fault::UnknownTopic,
        desk::Fault::Conflict => Fault::Conflict,
        desk::Fault::Exists => Fault::Exists,
        desk::Fault::EndpointBacklog => Fault::EndpointBacklog,
        desk::Fault::Backlog => Fault::Backlog,
        desk::Fault::TooManyEndpoints => Fault::TooManyEndpoints,
        desk::Fault::TooManySubscriptions => Fault::TooManySubscriptions,
        desk::Fault::WaitingFull => Fault::WaitingFull,
        desk::Fault::SeqExhausted => Fault::SeqExhausted,
        desk::Fault::BatchOut => Fault::BatchOut,
        desk::Fault::OutOfMemory => Fault::OutOfMemory,
    }
}

// What is handed in isn't what is out.
pub(crate) fn wrong_turn() -> Reply
    ensures { result ≡ wrong_turn }
{
    Reply::Refused {
        number: 1,
        fault: Fault::WrongTurn,
    }
}

pub(crate) fn sealed_reply(batch: &Batch) -> Reply
    ensures { result ≡ says.Sealed batch.now.from (batch.now.from + length (records_of batch.now.steps)) }
{
    Reply::Sealed {
        from: batch.from(),
        to: batch.upto(),
    }
}

pub(crate) fn told_reply(told: desk::Told) -> Reply
    ensures { result ≡ says.ToldAs (told_as told) }
{
    Reply::ToldAs(match told {
        desk::Told::Settled => Told::Settled,
        desk::Told::Waiting => Told::Waiting,
        desk::Told::Unknown => Told::Unknown,
    })
}

pub(crate) fn event_reply(row: Option<Row>) -> Reply
    ensures { result ≡ event_reply row }
{
    match row {
        Some(row) => Reply::Event {
            state: row.state,
            due: row.due,
            attempts: row.attempts,
        },
        None => Reply::Absent,
    }
}

pub(crate) fn permit_reply<L: Ledger>(job: &Job<L>) -> Reply
    ensures { result ≡ permit_reply job.now }
{
    let permit = job.permit();
    Reply::Permit {
        delivery: permit.delivery(),
        endpoint: job.endpoint(),
        id: job.id(),
        attempt: job.attempt(),
        at: job.moment().seconds(),
        inflight: permit.inflight(),
    }
}

pub(crate) fn spent_reply(spent: Spent) -> Reply
    ensures { result ≡ spent_reply spent }
{
    Reply::Spent {
        spend: spent.spend(),
        limit: spent.limit(),
        in_flight: spent.in_flight(),
        staged: spent.staged(),
    }
}

pub(crate) fn limits_reply(limits: Option<Limits>) -> Reply
    ensures { result ≡ limits_reply limits }
{
    match limits {
        Some(limits) => Reply::Limits {
            limit: limits.limit,
            in_flight: limits.in_flight,
            noload: limits.noload,
        },
        None => Reply::Absent,
    }
}
