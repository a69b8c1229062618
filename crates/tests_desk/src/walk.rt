//! Walks over steps. Each opening has a desk of its own.
ghost use Rattle.std.specs.Prelude.{◌≡◌, IfOk};
ghost use Rattle.spool.specs.Books.{AreSettled};

use crate::given::{MARK, created};
use crate::kept::Kept;
use crate::numbers::spent_books;
use crate::requests::asks;
use crate::steps::{Over, Post, Request, Step};
use crate::{calls, looks};
use desk::{Desk, Job};
use permits::{PARTS, Pool};
use relay_types::Moment;
use retry_table::Spend;
use spool::{Books, Vault};
use sqlite::{Alter, Connection, MemStore};
use std::alloc::Global;
use std::marker::Brand;
use std::mem;
use std::process::Abort;
use std::sync::ledger::{Blank, Ledger};
use std::test::Fail;

/// What the desk of an opening knows.
#[derive(Clone, Copy)]
pub(crate) enum Start {
    /// Nothing.
    Empty,
    /// What the vault holds.
    Held,
    /// As many records as there may be.
    Spent,
}

fn books<S: Alter>(alloc: Global, vault: &mut Vault<S>) -> Result<Books, Fail>
    ensures { IfOk result AreSettled }
{
    match vault.load(alloc) {
        Ok(books) => Ok(books),
        Err(_) => Err(Fail::from("the vault was not loaded")),
    }
}

fn desk_of<L: Ledger>(alloc: Global, blank: Blank, books: Books, mark: u64) -> Result<Desk<L>, Fail>
    requires name { blank.name ≡ L.name }
    requires parts { blank.parts ≡ L.parts }
    requires enough { blank.parts ≡ PARTS }
    requires settled { AreSettled books }
{
    let pool = Pool::<L>::new(alloc, blank)?;
    Ok(Desk::of(alloc, pool, books, mark)?)
}

fn begun<L: Ledger, S: Alter>(
    alloc: Global,
    blank: Blank,
    vault: &mut Vault<S>,
    start: Start,
) -> Result<Desk<L>, Fail>
    requires name { blank.name ≡ L.name }
    requires parts { blank.parts ≡ L.parts }
    requires enough { blank.parts ≡ PARTS }
{
    match start {
        Start::Empty => Ok(Desk::new(alloc, blank, MARK)?),
        Start::Held => desk_of(alloc, blank, books(alloc, vault)?, MARK),
        Start::Spent => desk_of(alloc, blank, spent_books(alloc)?, MARK),
    }
}

/// The jobs that are under way, and what is out of the batches.
struct Out<L: Ledger> {
    jobs: Vec<Job<L>>,
    kept: Kept,
}

fn end<L: Ledger>(rt: &impl Abort, desk: &mut Desk<L>, out: Out<L>, now: Moment) {
    let Out { jobs, kept } = out;
    calls::spend_all(rt, desk, jobs, now);
    kept.end();
}

fn spend_all<L: Ledger>(
    rt: &impl Abort,
    alloc: Global,
    desk: &mut Desk<L>,
    jobs: &mut Vec<Job<L>>,
    now: u64,
) -> Result<bool, Fail> {
    let now = Moment::of(now)?;
    calls::spend_all(rt, desk, mem::replace(jobs, Vec::new(alloc)), now);
    Ok(true)
}

fn shows<L: Ledger>(
    alloc: Global,
    jobs: &[Job<L>],
    place: usize,
    post: &Post,
) -> Result<bool, Fail> {
    match jobs.get(place) {
        Some(job) => looks::shows(alloc, job, post),
        None => Ok(false),
    }
}

fn asks_at<L: Ledger>(
    alloc: Global,
    jobs: &[Job<L>],
    place: usize,
    request: &Request,
) -> Result<bool, Fail> {
    match jobs.get(place) {
        Some(job) => asks(alloc, job.post(), request),
        None => Ok(false),
    }
}

/// Whether what is seen is what is expected. A call is none.
fn see<L: Ledger>(
    alloc: Global,
    desk: &Desk<L>,
    jobs: &[Job<L>],
    step: Step,
) -> Result<bool, Fail> {
    match step {
        Step::Shows(place, post) => shows(alloc, jobs, place, &post),
        Step::Asks(place, request) => asks_at(alloc, jobs, place, &request),
        Step::Told(seq, name, id, told) => looks::told(desk, seq, name, id, told),
        Step::SettledBody(seq, name, id, body) => looks::has_body(desk, seq, name, id, body),
        Step::ToldCommand(seq, told) => Ok(looks::told_command(desk, seq, told)),
        Step::Totals(totals) => Ok(looks::totals(desk, totals)),
        Step::EndpointPage(name, page) => looks::endpoint_page(desk, name, page),
        Step::EventPage(name, id, event) => looks::event_page(desk, name, id, event),
        Step::Limits(name, limits) => looks::limits(desk, name, limits),
        Step::Records(all, settled) => Ok(looks::records(desk, all, settled)),
        Step::IsHalted(flag) => Ok(desk.is_halted() == flag),
        _ => Ok(false),
    }
}

/// Makes the call of the desk as a clock: whether it answers what is expected. What is no such call is seen.
fn post<L: Ledger>(
    rt: &impl Abort,
    alloc: Global,
    desk: &mut Desk<L>,
    jobs: &mut Vec<Job<L>>,
    step: Step,
) -> Result<bool, Fail> {
    match step {
        Step::Claim(now, given) => calls::claim(rt, desk, jobs, now, given),
        Step::Look(now, given) => calls::look(rt, desk, jobs, now, given),
        Step::Claims(now, count) => calls::claim_many(rt, desk, jobs, now, count),
        Step::Spend(place, went, now, spend, staged, limit, in_flight) => {
            let wanted = Over {
                spend,
                staged,
                limit,
                in_flight,
                is_exhausted: false,
            };
            calls::spend(rt, desk, jobs, place, went, now, wanted)
        }
        Step::Exhaust(place, went, now, staged, limit) => {
            let wanted = Over {
                spend: Spend::Success,
                staged: Some(staged),
                limit,
                in_flight: 0,
                is_exhausted: true,
            };
            calls::spend(rt, desk, jobs, place, went, now, wanted)
        }
        Step::SpendAll(now) => spend_all(rt, alloc, desk, jobs, now),
        _ => see(alloc, desk, jobs.as_slice(), step),
    }
}

/// Takes the step: whether all is as it is expected.
fn step<L: Ledger, S: Alter>(
    rt: &impl Abort,
    alloc: Global,
    desk: &mut Desk<L>,
    vault: &mut Vault<S>,
    out: &mut Out<L>,
    step: Step,
) -> Result<bool, Fail> {
    match step {
        Step::Put(name, endpoint, answer) => calls::put(desk, alloc, name, &endpoint, answer),
        Step::SetSecrets(name, texts, answer) => {
            calls::set_secrets(desk, alloc, name, texts, answer)
        }
        Step::Enable(name, flag, answer) => calls::enable(desk, name, flag, answer),
        Step::Subscribe(topic, name, flag, answer) => {
            calls::subscribe(desk, topic, name, flag, answer)
        }
        Step::Subscribes(from, count, first) => {
            calls::subscribe_many(desk, alloc, from, count, first)
        }
        Step::Purge(before, answer) => calls::purge(desk, before, answer),
        Step::Purges(count, first) => calls::purge_many(desk, count, first),
        Step::Submit(now, name, id, text, answer) => {
            calls::submit(desk, alloc, now, name, id, text, answer)
        }
        Step::Publish(now, topic, id, text, published) => {
            calls::publish(desk, alloc, now, topic, id, text, published)
        }
        Step::Submits(name, first) => calls::submit_twenty(desk, alloc, name, first),
        Step::Seal(sealed) => Ok(calls::seal(desk, &mut out.kept) == sealed),
        Step::Turn(records) => Ok(calls::turn(desk, vault, &mut out.kept, records)),
        Step::HaltByNothing(is) => Ok(calls::halt_by_nothing(desk, &mut out.kept) == is),
        Step::HaltByBatch(is) => Ok(calls::halt_by_batch(desk, &mut out.kept) == is),
        _ => post(rt, alloc, desk, &mut out.jobs, step),
    }
}

fn take_all<L: Ledger, S: Alter>(
    rt: &impl Abort,
    alloc: Global,
    desk: &mut Desk<L>,
    vault: &mut Vault<S>,
    out: &mut Out<L>,
    steps: &[Step],
) -> Result<(), Fail> {
    for (place, next) in steps.iter().enumerate() {
        let is = step(rt, alloc, desk, vault, out, *next)?;
        assert!(rt; is, "step {place}");
    }
    Ok(())
}

fn open<L: Ledger, S: Alter>(
    rt: &impl Abort,
    alloc: Global,
    blank: Blank,
    vault: &mut Vault<S>,
    start: Start,
    steps: &[Step],
) -> Result<(), Fail>
    requires name { blank.name ≡ L.name }
    requires parts { blank.parts ≡ L.parts }
    requires enough { blank.parts ≡ PARTS }
{
    let now = Moment::of(0)?;
    let mut desk = begun::<L, S>(alloc, blank, vault, start)?;
    let mut out = Out {
        jobs: Vec::new(alloc),
        kept: Kept::new(),
    };
    let told = take_all(rt, alloc, &mut desk, vault, &mut out, steps);
    end(rt, &mut desk, out, now);
    told
}

/// Takes the steps of one opening.
fn session<S: Alter>(
    rt: &impl Abort,
    alloc: Global,
    vault: &mut Vault<S>,
    start: Start,
    steps: &[Step],
) -> Result<(), Fail> {
    open::<Brand, S>(rt, alloc, Blank::new(PARTS), vault, start, steps)
}

fn take_each<S: Alter + Drop>(
    rt: &impl Abort,
    alloc: Global,
    conn: Connection<S>,
    sessions: &[(Start, &[Step])],
) -> Result<(), Fail> {
    let mut vault = created(conn)?;
    for (start, steps) in sessions {
        session(rt, alloc, &mut vault, *start, steps)?;
    }
    Ok(())
}

// Takes the steps on a new vault.
fn take_sessions(
    rt: &impl Abort,
    alloc: Global,
    sessions: &[(Start, &[Step])],
) -> Result<(), Fail> {
    take_each::<MemStore>(rt, alloc, Connection::open_in_memory(alloc)?, sessions)
}

/// Takes the steps on a new vault, at a desk that begins so.
pub(crate) fn take(
    rt: &impl Abort,
    alloc: Global,
    start: Start,
    steps: &[Step],
) -> Result<(), Fail> {
    take_sessions(rt, alloc, &[(start, steps)])
}

/// Takes the steps on a new vault at an empty desk, then the others at a desk of what the vault holds.
pub(crate) fn take_and_reopen(
    rt: &impl Abort,
    alloc: Global,
    steps: &[Step],
    others: &[Step],
) -> Result<(), Fail> {
    take_sessions(rt, alloc, &[(Start::Empty, steps), (Start::Held, others)])
}
