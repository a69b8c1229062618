//! Answers requests over HTTP, one on a line, by what the intake and a desk over a store in memory make of each, for
//! `scripts/script requests`.
//!
//!     ask NOW FRESH METHOD PATH BODY ID..  a request: the moment and the fresh id that an event gets; then its method, its path,
//!                                          its body and each of its ids in hexadecimal, `-` for none of their bytes
//!     turn                                 what waits is sealed, committed and settled
//!     halt                                 nothing is taken any more
//!
//! The reply to `ask` is a status, ` retry` where `Retry-After` goes with it, and the body; of a
//! change or an event that the desk took it is `staged SEQ` or `staged SEQ,..`, with the event's id.
ghost use Rattle.std.specs.Prelude.{◌≡◌};
ghost use Rattle.permits.specs.declared.pool.TheConstants.{PARTS};

use crate::asking::{Call, Request, read_call};
use crate::desks::{commit_waiting, created};
use desk::{Command, Desk, Refusal};
use group_commit::Held;
use intake_shed::{Ask, AskBody, Asked, Reply, SubmitError, page_reply, read_ask, refusal_reply};
use permits::PARTS;
use relay_types::{Body, Moment, MsgId, Name};
use script_lines::Seqs;
use spool::Vault;
use sqlite::{Alter, Connection};
use std::alloc::{AllocError, Global};
use std::io::{Read, Write};
use std::marker::Brand;
use std::sync::ledger::{Blank, Ledger};
use text_lines::{Answerer, LineFault, answer_lines};

/// A desk, and the store that its batches are committed to.
#[derive(Drop)]
struct Relay<L: Ledger, S: Alter + Drop> {
    desk: Desk<L>,
    vault: Vault<S>,
}

/// Answers each line of the reader over a store without tables. Whether all were lines, and were answered.
pub(crate) fn answer_asks<S: Alter + Drop, I: Read, O: Write>(
    alloc: Global,
    conn: Connection<S>,
    input: &mut I,
    output: &mut O,
) -> bool {
    answer_over::<Brand, S, I, O>(alloc, Blank::new(PARTS), conn, input, output)
}

fn answer_over<L: Ledger, S: Alter + Drop, I: Read, O: Write>(
    alloc: Global,
    blank: Blank,
    conn: Connection<S>,
    input: &mut I,
    output: &mut O,
) -> bool
    requires name { blank.name ≡ L.name }
    requires parts { blank.parts ≡ L.parts }
    requires enough { blank.parts ≡ PARTS }
{
    match created::<L, S>(alloc, blank, conn) {
        Some((desk, vault)) => {
            let mut relay = Relay { desk, vault };
            answer_lines(alloc, &mut relay, input, output).is_ok()
        }
        None => false,
    }
}

impl<L: Ledger, S: Alter + Drop> Relay<L, S> {
    fn carry_out(&mut self, alloc: Global, call: Call) -> Result<String, AllocError> {
        match call {
            Call::Ask(request) => ask(alloc, &mut self.desk, &request),
            Call::Turn => self.turn(alloc),
            Call::Halt => halt(alloc, &mut self.desk),
        }
    }

    fn turn(&mut self, alloc: Global) -> Result<String, AllocError> {
        if commit_waiting(&mut self.desk, &mut self.vault) {
            format!(in alloc; "settled {}", self.desk.settled_records())
        } else {
            format!(in alloc; "failed")
        }
    }
}

impl<L: Ledger, S: Alter + Drop> Answerer for Relay<L, S> {
    type Reply = String;

    ghost Answers = { λ _ _ _ _. Unit {0} };

    ghost IsNoLine = { λ _. Unit {0} };

    ghost IsClean = { λ _. Unit {0} };

    ghost MayLose = { Unit {0} };

    fn answer(&mut self, alloc: Global, line: &[u8]) -> Result<String, LineFault> {
        let call = read_call(alloc, line)?;
        Ok(self.carry_out(alloc, call)?)
    }
}

fn ask<L: Ledger>(
    alloc: Global,
    desk: &mut Desk<L>,
    request: &Request,
) -> Result<String, AllocError> {
    let parts: Vec<&[u8]> = request
        .parts
        .iter()
        .map(|part| part.as_slice())
        .collect(alloc)?;
    ask_with(alloc, desk, request, parts.as_slice())
}

fn ask_with<L: Ledger>(
    alloc: Global,
    desk: &mut Desk<L>,
    request: &Request,
    parts: &[&[u8]],
) -> Result<String, AllocError> {
    let [method, path, body, ids @ ..] = parts else {
        return format!(in alloc; "failed");
    };
    let ask = Ask {
        method,
        path,
        ids,
        body: AskBody::Whole(body),
    };
    match read_ask(alloc, &ask, request.fresh) {
        Ok(asked) => carry_on(alloc, desk, request.now, asked),
        Err(reply) => reply_text(alloc, &reply),
    }
}

// Shows the page that is asked for, or hands the desk the change or the event.
fn carry_on<L: Ledger>(
    alloc: Global,
    desk: &mut Desk<L>,
    now: Moment,
    asked: Asked,
) -> Result<String, AllocError> {
    if asked.asks_for_page() {
        return reply_text(alloc, &page_reply(alloc, desk, &asked));
    }
    match asked {
        Asked::Change(command) => change(alloc, desk, command),
        Asked::Post { name, id, body } => post(alloc, desk, now, name, id, body),
        Asked::Publish { topic, id, body } => publish(alloc, desk, now, topic, id, body),
        Asked::Totals | Asked::Endpoint(_) | Asked::Event(_, _) => unreachable!(),
    }
}

fn change<L: Ledger>(
    alloc: Global,
    desk: &mut Desk<L>,
    command: Command,
) -> Result<String, AllocError> {
    match desk.command(command) {
        Ok(ticket) => format!(in alloc; "staged {}", ticket.seq),
        Err(refusal) => refused(alloc, refusal),
    }
}

fn post<L: Ledger>(
    alloc: Global,
    desk: &mut Desk<L>,
    now: Moment,
    name: Name,
    id: MsgId,
    body: Body,
) -> Result<String, AllocError> {
    match desk.submit(now, name, id, body) {
        Ok(ticket) => format!(in alloc; "staged {} {}", ticket.seq, word_of(&ticket.id)),
        Err(refusal) => refused(alloc, refusal),
    }
}

fn publish<L: Ledger>(
    alloc: Global,
    desk: &mut Desk<L>,
    now: Moment,
    topic: Name,
    id: MsgId,
    body: Body,
) -> Result<String, AllocError> {
    match desk.publish(now, topic, id, body) {
        Ok(tickets) => {
            let seqs = tickets.iter().map(|ticket| ticket.seq).collect(alloc)?;
            format!(in alloc; "staged {} {}", Seqs::of(seqs), word_of(&id))
        }
        Err(refusal) => refused(alloc, refusal),
    }
}

fn refused(alloc: Global, refusal: Refusal) -> Result<String, AllocError> {
    reply_text(alloc, &refusal_reply(&SubmitError::Refused(refusal)))
}

fn halt<L: Ledger>(alloc: Global, desk: &mut Desk<L>) -> Result<String, AllocError> {
    match desk.halt(Held::Nothing) {
        Ok(()) => format!(in alloc; "halted"),
        Err((held, _)) => {
            end(held);
            format!(in alloc; "failed")
        }
    }
}

fn reply_text(alloc: Global, reply: &Reply) -> Result<String, AllocError> {
    let retry = if reply.retry { " retry" } else { "" };
    format!(in alloc; "{}{retry} {}", reply.status, reply.body.as_str())
}

// The characters of an id.
fn word_of(id: &MsgId) -> &str {
    str::from_utf8(id.as_bytes()).unwrap_or("")
}

fn end(held: Held) {
    match held {
        Held::Nothing => {}
        Held::Batch(batch) => drop(batch.into_steps()),
        Held::Doubt(doubt) => doubt.end(),
    }
}
