//! Changes and events that are waited for. The lock is free while their callers wait.
ghost use Rattle.std.specs.Prelude.{◌≡◌, ◌≢◌, ◌<◌, ◌≤◌, ◌↔◌, Some, IsTrue, IfOk, IfErr};
ghost use Rattle.desk.specs.OwnBooks as kept;
ghost use Rattle.delivery.specs.Logs.{IsOfCommand};
ghost use Rattle.intake_shed.specs.Acks.{AreBelow, AreSettled, IsOfEvent, IsOfPublish, ack_of, confirmed_of};
ghost use Rattle.intake_shed.specs.Acks.{publish_ack_of};
ghost use Rattle.intake_shed.specs.Answers.{IsNoRefusal, may_fail, may_fail_event, may_fail_publish};

use crate::ack::Ack;
use crate::confirmed::Confirmed;
use crate::publish_ack::PublishAck;
use crate::refusals::SubmitError;
use delivery::{Locked, Pass, Published, Shared, StagedChange};
use desk::{Command, Fault, Refusal, Ticket};
use relay_types::{Body, Moment, MsgId, Name};
use run_log::{Log, LogId};
use std::sync::Wait;
use std::sync::ledger::Ledger;

// The error of an event whose body can't be shared.
const NO_MEMORY: Refusal = Refusal {
    number: 8,
    fault: Fault::OutOfMemory,
};

/// Submits an event, and waits until it is settled or won't be. The body is shared first, and only
/// an allocation may fail there. Nothing is taken after the end was asked for.
pub fn submit_and_wait<L: Ledger, I: LogId, R: Wait>(
    rt: &R,
    shared: &Shared<L, I>,
    now: Moment,
    name: Name,
    id: MsgId,
    body: Body,
    pass: &mut Pass,
) -> Result<Ack<I>, SubmitError>
    ensures event { IfOk result (λ ack. IsOfEvent ack name id body) }
    ensures seen { IfOk result (λ ack. ack.seq < pass.new) }
    ensures names { IfErr result (λ why. IsTrue (may_fail_event why)) }
    ensures pass { pass.old ≤ pass.new }
{
    let Ok(copy) = body.share() else {
        return Err(SubmitError::Refused(NO_MEMORY));
    };
    let ticket = shared.submit(rt, now, name, id, copy)?;
    let mut locked = shared.wait_for(rt, &ticket);
    acknowledge(shared.log(), &mut *locked, ticket, body, pass)
}

// Acknowledges a submission after the wait: it is settled, the desk halted, or a purge removed the
// event.
fn acknowledge<L: Ledger, I: LogId>(
    log: &Log<I>,
    locked: &mut Locked<L, I>,
    ticket: Ticket,
    body: Body,
    pass: &mut Pass,
) -> Result<Ack<I>, SubmitError>
    ensures ack { IfOk result (λ ack. ack ≡ ack_of ticket body locked.old.prefix) }
    ensures seen { IfOk result (λ ack. ack.seq < pass.new) }
    ensures unknown { (result ≡ Err SubmitError.Unknown) ↔ (kept.settled_body locked.old.desk ticket ≢ Some body) }
    ensures refused { IfErr result IsNoRefusal }
    ensures pass { pass.old ≤ pass.new }
{
    let Ok(ack) = Ack::of(log, locked, ticket, body) else {
        return Err(SubmitError::Unknown);
    };
    pass.look(locked.desk())?;
    Ok(ack)
}

/// Publishes an event, and waits until it is settled or won't be at each subscriber of the topic.
/// The body is shared first, and only an allocation may fail there. Nothing is taken after the end
/// was asked for.
pub fn publish_and_wait<L: Ledger, I: LogId, R: Wait>(
    rt: &R,
    shared: &Shared<L, I>,
    now: Moment,
    topic: Name,
    id: MsgId,
    body: Body,
    pass: &mut Pass,
) -> Result<PublishAck<I>, SubmitError>
    ensures event { IfOk result (λ ack. IsOfPublish ack topic id body) }
    ensures seen { IfOk result (λ ack. AreBelow pass.new ack.event.tickets) }
    ensures names { IfErr result (λ why. IsTrue (may_fail_publish why)) }
    ensures pass { pass.old ≤ pass.new }
{
    let Ok(copy) = body.share() else {
        return Err(SubmitError::Refused(NO_MEMORY));
    };
    let event = shared.publish(rt, now, topic, id, copy)?;
    let mut locked = shared.wait_for_all(rt, event.tickets());
    acknowledge_all(shared.log(), &mut *locked, event, body, pass)
}

// Acknowledges an event after the wait: it is settled at each subscriber, the desk halted, or a
// purge removed it.
fn acknowledge_all<L: Ledger, I: LogId>(
    log: &Log<I>,
    locked: &mut Locked<L, I>,
    event: Published<I>,
    body: Body,
    pass: &mut Pass,
) -> Result<PublishAck<I>, SubmitError>
    ensures ack { IfOk result (λ ack. ack ≡ publish_ack_of event body locked.old.prefix) }
    ensures seen { IfOk result (λ ack. AreBelow pass.new ack.event.tickets) }
    ensures unknown { (result ≡ Err SubmitError.Unknown)
        ↔ ¬ AreSettled (kept.settled_body locked.old.desk) event.tickets body }
    ensures refused { IfErr result IsNoRefusal }
    ensures pass { pass.old ≤ pass.new }
{
    let Some(ack) = PublishAck::of(log, locked, event, body) else {
        return Err(SubmitError::Unknown);
    };
    pass.look(locked.desk())?;
    Ok(ack)
}

/// Makes a change, and waits until it is settled or won't be. Nothing is taken after the end was
/// asked for.
pub fn command_and_wait<L: Ledger, I: LogId, R: Wait>(
    rt: &R,
    shared: &Shared<L, I>,
    command: Command,
    pass: &mut Pass,
) -> Result<Confirmed<I>, SubmitError>
    ensures change { IfOk result (λ confirmed. IsOfCommand confirmed command) }
    ensures seen { IfOk result (λ confirmed. confirmed.seq < pass.new) }
    ensures names { IfErr result (λ why. IsTrue (may_fail command why)) }
    ensures pass { pass.old ≤ pass.new }
{
    let change = shared.command(rt, command)?;
    let mut locked = shared.wait_for_command(rt, &change.ticket());
    confirm(shared.log(), &mut *locked, change, pass)
}

// Confirms a change after the wait: it is settled, or the desk halted.
fn confirm<L: Ledger, I: LogId>(
    log: &Log<I>,
    locked: &mut Locked<L, I>,
    change: StagedChange<I>,
    pass: &mut Pass,
) -> Result<Confirmed<I>, SubmitError>
    ensures change { IfOk result (λ confirmed. confirmed ≡ confirmed_of change locked.old.prefix) }
    ensures seen { IfOk result (λ confirmed. confirmed.seq < pass.new) }
    ensures unknown { (result ≡ Err SubmitError.Unknown) ↔ (locked.old.desk.waiting.settled ≤ change.seq) }
    ensures refused { IfErr result IsNoRefusal }
    ensures pass { pass.old ≤ pass.new }
{
    let Some(confirmed) = Confirmed::of(log, locked, change) else {
        return Err(SubmitError::Unknown);
    };
    pass.look(locked.desk())?;
    Ok(confirmed)
}
