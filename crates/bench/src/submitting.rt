//! Submissions to a desk, which are committed 256 at a time and then posted.
use crate::batches::{BATCH, commit_waiting, give};
use crate::delivering::deliver;
use crate::events::{body_of, disable_of, id_of, name_of, put_of, scattered};
use crate::failed::Failed;
use crate::times::{Times, add, since};
use desk::Desk;
use relay_types::{Moment, MsgId, Name};
use spool::Vault;
use sqlite::Alter;
use std::alloc::Global;
use std::sync::ledger::Ledger;
use std::time::Instant;

/// How many submissions are pending before they are posted, so that what one commit leaves to the next weighs little.
const ROUND: u32 = 40 * BATCH;

/// What a run does: so many events, in rounds of so many that are pending before so many are posted.
#[derive(Clone, Copy)]
pub(crate) struct Plan {
    pub(crate) endpoints: u32,
    pub(crate) events: u32,
    rounds: u32,
    pending: u32,
    /// How many endpoints are disabled before events are posted.
    disabled: u32,
    posts: u32,
}

/// As many submissions, which are posted in rounds, as a desk takes only so many pending events.
pub(crate) fn submit_plan(events: u32) -> Plan {
    Plan {
        endpoints: 100,
        events,
        rounds: events.div_ceil(ROUND),
        pending: ROUND,
        disabled: 0,
        posts: ROUND,
    }
}

/// As many submissions to so many endpoints. Once all are pending, every second endpoint is
/// disabled, and half as many are posted to the others.
pub(crate) fn post_plan(events: u32, endpoints: u32) -> Plan {
    Plan {
        endpoints,
        events,
        rounds: 1,
        pending: events,
        disabled: endpoints / 2,
        posts: events / 2,
    }
}

/// Submits the events of the plan, each of 1 KiB, from this number on, and posts them at this moment.
pub(crate) fn submit_all<L: Ledger, S: Alter>(
    rt: &HostRuntime,
    began: Instant,
    desk: &mut Desk<L>,
    vault: &mut Vault<S>,
    plan: Plan,
    (first, now): (u32, Moment),
    times: &mut Times,
) -> Result<(), Failed> {
    let end = first.saturating_add(plan.events);
    for round in 0..plan.rounds {
        let from = first.saturating_add(round.saturating_mul(plan.pending));
        let upto = end.min(from.saturating_add(plan.pending));
        submit_and_commit(rt, began, desk, vault, plan.endpoints, (from, upto), times)?;
        disable_each(rt.alloc(), desk, plan.disabled)?;
        commit_waiting(rt, began, desk, vault, &mut Times::ZERO.submissions)?;
        let posts = upto.saturating_sub(from).min(plan.posts);
        deliver(rt, began, desk, vault, (posts, now), times)?;
    }
    Ok(())
}

pub(crate) fn put_each<L: Ledger>(
    alloc: Global,
    desk: &mut Desk<L>,
    count: u32,
) -> Result<(), Failed> {
    for number in 0..count {
        give(desk, put_of(alloc, number)?)?;
    }
    Ok(())
}

/// Disables so many endpoints, every second one.
fn disable_each<L: Ledger>(alloc: Global, desk: &mut Desk<L>, count: u32) -> Result<(), Failed> {
    for number in 0..count {
        give(desk, disable_of(alloc, number.saturating_mul(2))?)?;
    }
    Ok(())
}

/// Submits the events with these numbers, and commits them 256 at a time.
fn submit_and_commit<L: Ledger, S: Alter>(
    rt: &HostRuntime,
    began: Instant,
    desk: &mut Desk<L>,
    vault: &mut Vault<S>,
    endpoints: u32,
    (from, upto): (u32, u32),
    times: &mut Times,
) -> Result<(), Failed> {
    for batch in 0..upto.saturating_sub(from).div_ceil(BATCH) {
        let first = from.saturating_add(batch.saturating_mul(BATCH));
        let end = upto.min(first.saturating_add(BATCH));
        let start = since(rt, began);
        submit_each(rt.alloc(), desk, endpoints, (first, end))?;
        add(&mut times.staging, start, since(rt, began));
        commit_waiting(rt, began, desk, vault, &mut times.submissions)?;
    }
    Ok(())
}

fn submit_each<L: Ledger>(
    alloc: Global,
    desk: &mut Desk<L>,
    endpoints: u32,
    (from, upto): (u32, u32),
) -> Result<(), Failed> {
    for number in from..upto {
        submit_event(alloc, desk, number, endpoints)?;
    }
    Ok(())
}

fn submit_event<L: Ledger>(
    alloc: Global,
    desk: &mut Desk<L>,
    number: u32,
    endpoints: u32,
) -> Result<(), Failed> {
    let (name, id) = words_of(alloc, number, endpoints)?;
    submit(alloc, desk, name, id)
}

/// The endpoint and the id of the event with this number.
fn words_of(alloc: Global, number: u32, endpoints: u32) -> Result<(Name, MsgId), Failed> {
    let name = name_of(alloc, place_of(number, endpoints))?;
    let id = id_of(alloc, scattered(number))?;
    Ok((name, id))
}

fn place_of(number: u32, endpoints: u32) -> u32 {
    if endpoints == 0 {
        0
    } else {
        number % endpoints
    }
}

fn submit<L: Ledger>(
    alloc: Global,
    desk: &mut Desk<L>,
    name: Name,
    id: MsgId,
) -> Result<(), Failed> {
    let at = Moment::of(1000)?;
    let body = body_of(alloc)?;
    desk.submit(at, name, id, body)?;
    Ok(())
}
