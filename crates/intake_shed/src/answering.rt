//! The answer to a request.
ghost use Rattle.std.specs.Prelude.{◌≡◌, ◌≤◌, ◌⊎◌, Some, IfOk, IsTrue};
ghost use Rattle.intake_shed.specs.Acks.{AreInLog};
ghost use Rattle.intake_shed.specs.Pages.{asks_for_page};
ghost use Rattle.intake_shed.specs.Replies.{ask_reply};
ghost use Rattle.intake_shed.specs.Requests.{AsksFor, IsRefusal, IsRefusedFor};
ghost use Rattle.intake_shed.specs.Answers.{Answers, AnswersAsk, FailsBy, GivesPageAt, IsPublishReply, IsEventReply};
ghost use Rattle.intake_shed.specs.Answers.{OrOutOfMemory, ConfirmsChange, may_fail};
ghost use Rattle.intake_shed.specs.declared.fault.RequestError.{RequestError};

use crate::ack::Ack;
use crate::answered::Answered;
use crate::ask::{Ask, Asked};
use crate::done::{accepted_reply, change_reply, change_status, published_reply};
use crate::pages::page_reply;
use crate::publish_ack::PublishAck;
use crate::reading::read_ask;
use crate::refusals::{SubmitError, refusal_reply};
use crate::reply::Reply;
use crate::waits::{command_and_wait, publish_and_wait, submit_and_wait};
use delivery::{Pass, Shared};
use desk::Command;
use relay_types::{Moment, MsgId};
use run_log::LogId;
use std::alloc::Global;
use std::sync::Wait;
use std::sync::ledger::Ledger;

/// Answers a request. An event or a change is answered once it is settled, or won't be. A page
/// shows what is settled then. An event without an id gets the fresh one. What the reply reports is
/// in the log. If an allocation for the reply fails, what was done stays done.
pub fn answer<L: Ledger, I: LogId, R: Wait>(
    rt: &R,
    alloc: Global,
    shared: &Shared<L, I>,
    ask: &Ask<'_>,
    fresh: MsgId,
    now: Moment,
    pass: &mut Pass,
) -> Answered<I>
    ensures answers { IsRefusal ask.now result.reply ⊎ AnswersAsk ask.now fresh pass.new result.reply result.ack
        result.published result.confirmed }
    ensures asks { (what : Asked) → AsksFor ask.now fresh what
        → OrOutOfMemory (Answers what pass.new result.reply result.ack result.published result.confirmed) result.reply }
    ensures refuses { (why : RequestError) → IsRefusedFor ask.now why
        → OrOutOfMemory (result.reply ≡ ask_reply why) result.reply }
    ensures logged { AreInLog I.is_base result.ack result.published result.confirmed }
    ensures pass { pass.old ≤ pass.new }
{
    match read_ask(alloc, ask, fresh) {
        Ok(asked) => answer_asked(rt, alloc, shared, asked, now, pass),
        Err(reply) => Answered {
            reply,
            ack: None,
            published: None,
            confirmed: None,
        },
    }
}

fn answer_asked<L: Ledger, I: LogId, R: Wait>(
    rt: &R,
    alloc: Global,
    shared: &Shared<L, I>,
    asked: Asked,
    now: Moment,
    pass: &mut Pass,
) -> Answered<I>
    ensures answers { Answers asked pass.new result.reply result.ack result.published result.confirmed }
    ensures logged { AreInLog I.is_base result.ack result.published result.confirmed }
    ensures pass { pass.old ≤ pass.new }
{
    match asked {
        Asked::Change(command) => answer_change(rt, alloc, shared, command, pass),
        Asked::Post { name, id, body } => {
            let waited = submit_and_wait(rt, shared, now, name, id, body, pass);
            answer_event(alloc, waited)
        }
        Asked::Publish { topic, id, body } => {
            let waited = publish_and_wait(rt, shared, now, topic, id, body, pass);
            answer_publish(alloc, waited)
        }
        page => Answered {
            reply: answer_page(rt, alloc, shared, &page, pass),
            ack: None,
            published: None,
            confirmed: None,
        },
    }
}

fn answer_change<L: Ledger, I: LogId, R: Wait>(
    rt: &R,
    alloc: Global,
    shared: &Shared<L, I>,
    command: Command,
    pass: &mut Pass,
) -> Answered<I>
    ensures answers { ConfirmsChange command pass.new result.reply result.confirmed
        ⊎ FailsBy (may_fail command) result.reply }
    ensures logged { AreInLog I.is_base result.ack result.published result.confirmed }
    ensures pass { pass.old ≤ pass.new }
{
    let status = change_status(&command);
    match command_and_wait(rt, shared, command, pass) {
        Ok(confirmed) => Answered {
            reply: change_reply(alloc, status, confirmed.seq()),
            ack: None,
            published: None,
            confirmed: Some(confirmed),
        },
        Err(fault) => Answered {
            reply: refusal_reply(&fault),
            ack: None,
            published: None,
            confirmed: None,
        },
    }
}

// The answer to an event that was waited for.
fn answer_event<I: LogId>(alloc: Global, waited: Result<Ack<I>, SubmitError>) -> Answered<I>
    ensures replied { IsEventReply waited result.reply }
    ensures given { IfOk waited (λ ack. result.ack ≡ Some ack) }
    ensures logged { AreInLog I.is_base result.ack result.published result.confirmed }
{
    match waited {
        Ok(ack) => Answered {
            reply: accepted_reply(alloc, &ack.id(), ack.seq()),
            ack: Some(ack),
            published: None,
            confirmed: None,
        },
        Err(why) => Answered {
            reply: refusal_reply(&why),
            ack: None,
            published: None,
            confirmed: None,
        },
    }
}

// The same of an event for a topic.
fn answer_publish<I: LogId>(
    alloc: Global,
    waited: Result<PublishAck<I>, SubmitError>,
) -> Answered<I>
    ensures replied { IsPublishReply waited result.reply }
    ensures given { IfOk waited (λ ack. result.published ≡ Some ack) }
    ensures logged { AreInLog I.is_base result.ack result.published result.confirmed }
{
    match waited {
        Ok(ack) => Answered {
            reply: published_reply(alloc, &ack.id(), ack.tickets()),
            ack: None,
            published: Some(ack),
            confirmed: None,
        },
        Err(why) => Answered {
            reply: refusal_reply(&why),
            ack: None,
            published: None,
            confirmed: None,
        },
    }
}

// The page of the desk, after the pass has looked at it.
fn answer_page<L: Ledger, I: LogId, R: Wait>(
    rt: &R,
    alloc: Global,
    shared: &Shared<L, I>,
    asked: &Asked,
    pass: &mut Pass,
) -> Reply
    requires { IsTrue (asks_for_page asked.now) }
    ensures page { GivesPageAt asked.now pass.new result }
    ensures pass { pass.old ≤ pass.new }
{
    match shared.look(rt, pass) {
        Ok(locked) => page_reply(alloc, locked.desk(), asked),
        Err(_) => refusal_reply(&SubmitError::WentBack),
    }
}
