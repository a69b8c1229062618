//! Calls of a desk, and whether they answer what is expected.

use crate::given::{body, post_of, put_command, secrets};
use crate::kept::{Kept, numbers_of};
use crate::steps::{Answer, Endpoint, Given, Over, Published, Went};
use desk::{Command, Desk, Job, Refusal, Spent, Ticket};
use group_commit::{Held, WrongTurn};
use permits::Foreign;
use relay_types::{Moment, MsgId, Name};
use retry_table::PostResult;
use spool::Vault;
use sqlite::Alter;
use std::alloc::Global;
use std::process::Abort;
use std::sync::ledger::Ledger;
use std::test::Fail;

fn is_refused(refusal: Refusal, wanted: Answer) -> bool {
    match wanted {
        Answer::Refused(number, fault) => refusal.number == number && refusal.fault == fault,
        Answer::Record(_) => false,
    }
}

fn is_record(seq: u64, wanted: Answer) -> bool {
    match wanted {
        Answer::Record(number) => seq == number,
        Answer::Refused(_, _) => false,
    }
}

fn command<L: Ledger>(desk: &mut Desk<L>, command: Command, wanted: Answer) -> bool {
    match desk.command(command) {
        Ok(ticket) => is_record(ticket.seq, wanted),
        Err(refusal) => is_refused(refusal, wanted),
    }
}

pub(crate) fn put<L: Ledger>(
    desk: &mut Desk<L>,
    alloc: Global,
    name: &[u8],
    endpoint: &Endpoint,
    wanted: Answer,
) -> Result<bool, Fail> {
    let given = put_command(alloc, name, endpoint)?;
    Ok(command(desk, given, wanted))
}

pub(crate) fn set_secrets<L: Ledger>(
    desk: &mut Desk<L>,
    alloc: Global,
    name: &[u8],
    texts: &[&[u8]],
    wanted: Answer,
) -> Result<bool, Fail> {
    let name = Name::read(name)?;
    let secrets = secrets(alloc, texts)?;
    Ok(command(desk, Command::SetSecrets { name, secrets }, wanted))
}

pub(crate) fn enable<L: Ledger>(
    desk: &mut Desk<L>,
    name: &[u8],
    flag: bool,
    wanted: Answer,
) -> Result<bool, Fail> {
    let name = Name::read(name)?;
    Ok(command(desk, Command::SetEnabled { name, flag }, wanted))
}

pub(crate) fn subscribe<L: Ledger>(
    desk: &mut Desk<L>,
    topic: &[u8],
    name: &[u8],
    flag: bool,
    wanted: Answer,
) -> Result<bool, Fail> {
    let topic = Name::read(topic)?;
    let name = Name::read(name)?;
    let given = Command::SetSubscribed { topic, name, flag };
    Ok(command(desk, given, wanted))
}

/// Subscribes endpoint `a` to topics `t0`, `t1` and so on, from this one on so many.
pub(crate) fn subscribe_many<L: Ledger>(
    desk: &mut Desk<L>,
    alloc: Global,
    from: u64,
    count: u64,
    first: u64,
) -> Result<bool, Fail> {
    for number in 0..count {
        let place = from.saturating_add(number);
        let topic = format!(in alloc; "t{place}")?;
        let wanted = Answer::Record(first.saturating_add(number));
        if !subscribe(desk, topic.as_bytes(), b"a", true, wanted)? {
            return Ok(false);
        }
    }
    Ok(true)
}

pub(crate) fn purge<L: Ledger>(
    desk: &mut Desk<L>,
    before: u64,
    wanted: Answer,
) -> Result<bool, Fail> {
    let before = Moment::of(before)?;
    Ok(command(desk, Command::Purge { before }, wanted))
}

/// So many Purges before 0, 1 and so on.
pub(crate) fn purge_many<L: Ledger>(
    desk: &mut Desk<L>,
    count: u64,
    first: u64,
) -> Result<bool, Fail> {
    for before in 0..count {
        let wanted = Answer::Record(first.saturating_add(before));
        if !purge(desk, before, wanted)? {
            return Ok(false);
        }
    }
    Ok(true)
}

fn is_ticket(ticket: Ticket, name: Name, id: MsgId, wanted: Answer) -> bool {
    is_record(ticket.seq, wanted) && ticket.name.is(name) && ticket.id.is(id)
}

pub(crate) fn submit<L: Ledger>(
    desk: &mut Desk<L>,
    alloc: Global,
    now: u64,
    name: &[u8],
    id: &[u8],
    text: &[u8],
    wanted: Answer,
) -> Result<bool, Fail> {
    let now = Moment::of(now)?;
    let name = Name::read(name)?;
    let id = MsgId::read(id)?;
    match desk.submit(now, name, id, body(alloc, text)?) {
        Ok(ticket) => Ok(is_ticket(ticket, name, id, wanted)),
        Err(refusal) => Ok(is_refused(refusal, wanted)),
    }
}

/// Whether these are the tickets of the event, in this order.
fn are_tickets(tickets: &[Ticket], id: MsgId, wanted: &[(&[u8], u64)]) -> Result<bool, Fail> {
    if tickets.len() != wanted.len() {
        return Ok(false);
    }
    for (place, (name, seq)) in wanted.iter().enumerate() {
        if !is_ticket(tickets[place], Name::read(name)?, id, Answer::Record(*seq)) {
            return Ok(false);
        }
    }
    Ok(true)
}

pub(crate) fn publish<L: Ledger>(
    desk: &mut Desk<L>,
    alloc: Global,
    now: u64,
    topic: &[u8],
    id: &[u8],
    text: &[u8],
    wanted: Published,
) -> Result<bool, Fail> {
    let now = Moment::of(now)?;
    let topic = Name::read(topic)?;
    let id = MsgId::read(id)?;
    match (desk.publish(now, topic, id, body(alloc, text)?), wanted) {
        (Ok(tickets), Published::Tickets(wanted)) => are_tickets(tickets.as_slice(), id, wanted),
        (Err(refusal), Published::Refused(number, fault)) => {
            Ok(is_refused(refusal, Answer::Refused(number, fault)))
        }
        (Ok(_), Published::Refused(..)) | (Err(_), Published::Tickets(_)) => Ok(false),
    }
}

/// Submits the twenty events `a` to `t` of 1000 with two bytes.
pub(crate) fn submit_twenty<L: Ledger>(
    desk: &mut Desk<L>,
    alloc: Global,
    name: &[u8],
    first: u64,
) -> Result<bool, Fail> {
    for id in b'a'..b'u' {
        let seq = first.saturating_add(u64::from(id - b'a'));
        if !submit(desk, alloc, 1000, name, &[id], b"{}", Answer::Record(seq))? {
            return Ok(false);
        }
    }
    Ok(true)
}

/// Seals, and keeps the batch.
pub(crate) fn seal<L: Ledger>(desk: &mut Desk<L>, kept: &mut Kept) -> Option<(u64, u64, usize)> {
    match desk.seal() {
        Ok(Some(batch)) => {
            let told = numbers_of(&batch);
            kept.keep_batch(batch);
            Some(told)
        }
        Ok(None) | Err(_) => None,
    }
}

/// How many records the receipt that is kept settles.
fn settle<L: Ledger>(desk: &mut Desk<L>, kept: &mut Kept) -> Option<u64> {
    let receipt = kept.receipt.take()?;
    match desk.settle(receipt) {
        Ok(settled) => Some(settled.records),
        Err((receipt, WrongTurn)) => {
            kept.keep_receipt(receipt);
            None
        }
    }
}

/// Seals, commits and settles: whether so many records are settled then.
pub(crate) fn turn<L: Ledger, S: Alter>(
    desk: &mut Desk<L>,
    vault: &mut Vault<S>,
    kept: &mut Kept,
    wanted: u64,
) -> bool {
    seal(desk, kept).is_some() && kept.commit(vault) && settle(desk, kept) == Some(wanted)
}

/// Whether what is held halts the desk. Only nothing comes back as nothing.
fn is_halted_by<L: Ledger>(desk: &mut Desk<L>, kept: &mut Kept, held: Held) -> bool {
    match desk.halt(held) {
        Ok(()) => true,
        Err((Held::Nothing, WrongTurn)) => false,
        Err((Held::Batch(batch), WrongTurn)) => {
            kept.keep_batch(batch);
            false
        }
        Err((Held::Doubt(doubt), WrongTurn)) => {
            doubt.end();
            false
        }
    }
}

pub(crate) fn halt_by_nothing<L: Ledger>(desk: &mut Desk<L>, kept: &mut Kept) -> bool {
    is_halted_by(desk, kept, Held::Nothing)
}

pub(crate) fn halt_by_batch<L: Ledger>(desk: &mut Desk<L>, kept: &mut Kept) -> bool {
    match kept.batch.take() {
        Some(batch) => is_halted_by(desk, kept, Held::Batch(batch)),
        None => false,
    }
}

fn numbers_in<L: Ledger>(job: &Job<L>) -> Given {
    Given::Job(
        job.permit().delivery(),
        job.attempt(),
        job.moment().seconds(),
        job.permit().inflight(),
    )
}

/// Claims, and keeps the job.
fn next<L: Ledger>(
    rt: &impl Abort,
    desk: &mut Desk<L>,
    jobs: &mut Vec<Job<L>>,
    now: Moment,
) -> Given {
    match desk.claim(now) {
        Ok(Some(job)) => {
            let given = numbers_in(&job);
            keep_job(rt, jobs, job);
            given
        }
        Ok(None) => Given::Nothing,
        Err(refusal) => Given::Refused(refusal.number, refusal.fault),
    }
}

fn keep_job<L: Ledger>(rt: &impl Abort, jobs: &mut Vec<Job<L>>, job: Job<L>) {
    match jobs.push(job) {
        Ok(()) => {}
        Err(refused) => panic!(rt; "no room for {}", refused.value.permit().delivery()),
    }
}

pub(crate) fn claim<L: Ledger>(
    rt: &impl Abort,
    desk: &mut Desk<L>,
    jobs: &mut Vec<Job<L>>,
    now: u64,
    wanted: Given,
) -> Result<bool, Fail> {
    let now = Moment::of(now)?;
    Ok(next(rt, desk, jobs, now) == wanted)
}

/// Claims so many jobs.
pub(crate) fn claim_many<L: Ledger>(
    rt: &impl Abort,
    desk: &mut Desk<L>,
    jobs: &mut Vec<Job<L>>,
    now: u64,
    count: usize,
) -> Result<bool, Fail> {
    let now = Moment::of(now)?;
    for _ in 0..count {
        if !matches!(next(rt, desk, jobs, now), Given::Job(..)) {
            return Ok(false);
        }
    }
    Ok(true)
}

fn spend_job<L: Ledger>(
    rt: &impl Abort,
    desk: &mut Desk<L>,
    job: Job<L>,
    post: PostResult,
    now: Moment,
) -> Spent {
    match desk.spend(job.into_permit(), post, now) {
        Ok(spent) => spent,
        Err((permit, Foreign)) => panic!(rt; "{} is foreign", permit.delivery()),
    }
}

// The status that is recorded of a post that went so, where its outcome waits.
fn status_of(went: Went, wanted: Over) -> Option<u16> {
    match (went, wanted.staged) {
        (Went::Answered(status), Some(_)) => Some(status),
        (Went::Unreached, Some(_)) => Some(0),
        (Went::Unsent, _) | (_, None) => None,
    }
}

fn tells(spent: &Spent, wanted: Over) -> bool {
    spent.spend() == wanted.spend
        && spent.staged() == wanted.staged
        && spent.limit() == wanted.limit
        && spent.in_flight() == wanted.in_flight
        && spent.is_exhausted() == wanted.is_exhausted
}

pub(crate) fn spend<L: Ledger>(
    rt: &impl Abort,
    desk: &mut Desk<L>,
    jobs: &mut Vec<Job<L>>,
    place: usize,
    went: Went,
    now: u64,
    wanted: Over,
) -> Result<bool, Fail> {
    let now = Moment::of(now)?;
    let post = post_of(went)?;
    assert!(rt; place < jobs.len(), "job {place} is not kept");
    let job = jobs.remove(place);
    let row = job.permit().row();
    let spent = spend_job(rt, desk, job, post, now);
    Ok(
        spent.row() == row
            && spent.post() == post
            && spent.status() == status_of(went, wanted)
            && tells(&spent, wanted),
    )
}

/// Claims, and gives the job back unsent.
pub(crate) fn look<L: Ledger>(
    rt: &impl Abort,
    desk: &mut Desk<L>,
    jobs: &mut Vec<Job<L>>,
    now: u64,
    wanted: Given,
) -> Result<bool, Fail> {
    let now = Moment::of(now)?;
    let given = next(rt, desk, jobs, now);
    if let Given::Job(..) = given {
        spend_last(rt, desk, jobs, now);
    }
    Ok(given == wanted)
}

fn spend_last<L: Ledger>(rt: &impl Abort, desk: &mut Desk<L>, jobs: &mut Vec<Job<L>>, now: Moment) {
    match jobs.pop() {
        Some(job) => {
            spend_job(rt, desk, job, PostResult::Unsent, now);
        }
        None => panic!(rt; "no job is kept"),
    }
}

/// Spends the permits of all these jobs, which weren't sent.
pub(crate) fn spend_all<L: Ledger>(
    rt: &impl Abort,
    desk: &mut Desk<L>,
    mut jobs: Vec<Job<L>>,
    now: Moment,
) {
    while let Some(job) = jobs.pop() {
        spend_job(rt, desk, job, PostResult::Unsent, now);
    }
    jobs.destroy_empty();
}
