//! Walks over steps of what waits to be committed, without a desk.

use crate::given::{MARK, body, created};
use crate::kept::{Kept, numbers_of};
use group_commit::{Held, Waiting, WrongTurn};
use relay_types::{
    MAX_RECORDS, MAX_STEP_RECORDS, MaxLimit, Moment, MsgId, Name, Record, Secret, Secrets, Step,
    Target,
};
use spool::Vault;
use sqlite::{Alter, Connection, MemStore};
use std::alloc::Global;
use std::process::Abort;
use std::test::Fail;

/// A call, or a look, with what is expected of it.
#[derive(Clone, Copy)]
pub(crate) enum Wait {
    /// In place of what waits, nothing waits after so many settled records. A batch and a receipt that are kept stay.
    Anew(u64),
    /// Stages a new endpoint of this name: whether there was a place.
    Put(&'static [u8], bool),
    /// Stages so many flags of endpoint `a`, by turns on and off: whether there was a place for each, or for none.
    Flags(usize, bool),
    /// Stages so many Purges: whether there was a place for each, or for none.
    Purges(usize, bool),
    /// Stages an event at the endpoints `e0`, `e1` and so on, so many of them: whether there was a place for each.
    Event(usize, bool),
    /// Stages the outcome of this attempt at delivery 0.
    Outcome(u64),
    /// Seals: the number of the batch's first record, that after its last one, and how many steps it has.
    Seal(Option<(u64, u64, usize)>),
    /// Takes the batch back: whether it is that which is out.
    Unseal(bool),
    /// Commits the batch. The next record of the vault has this number then.
    Commit(u64),
    /// Settles by the receipt: how many records are settled, or `None` where it is of no batch that is out.
    Settle(Option<u64>),
    /// Gives up nothing, or the batch: whether that is what is out.
    AbandonNothing(bool),
    AbandonBatch(bool),
    Len(usize),
    /// How many records there are, and how many are settled.
    Records(u64, u64),
    /// How many places are left for requests and for outcomes.
    Free(usize, usize),
    /// Whether an outcome waits at this place, if a step does.
    IsOutcome(usize, Option<bool>),
    IsOut(bool),
}

fn put(waiting: &mut Waiting, alloc: Global, name: &[u8]) -> Result<bool, Fail> {
    let name = Name::read(name)?;
    let max = MaxLimit::of(100)?;
    let secrets = Secrets::of(&[Secret::read(b"whsec_MDEyMzQ1Njc4OWFiY2RlZjAxMjM0NTY3")?])?;
    let target = Target::read(alloc, b"http://127.0.0.1:9000/hook")?;
    if waiting.records() >= MAX_RECORDS {
        return Err(Fail::from("no number is left"));
    }
    let entry = Record::Put {
        name,
        target,
        max,
        secrets,
    };
    Ok(waiting.stage_request(Step::of(entry)).is_ok())
}

fn flag(waiting: &mut Waiting, flag: bool) -> Result<bool, Fail> {
    let name = Name::read(b"a")?;
    if waiting.records() >= MAX_RECORDS {
        return Err(Fail::from("no number is left"));
    }
    let entry = Record::Enabled { name, flag };
    Ok(waiting.stage_request(Step::of(entry)).is_ok())
}

fn flags(waiting: &mut Waiting, count: usize, wanted: bool) -> Result<bool, Fail> {
    for place in 0..count {
        if flag(waiting, place % 2 == 0)? != wanted {
            return Ok(false);
        }
    }
    Ok(true)
}

fn purge(waiting: &mut Waiting) -> Result<bool, Fail> {
    let before = Moment::of(1000)?;
    if waiting.records() >= MAX_RECORDS {
        return Err(Fail::from("no number is left"));
    }
    Ok(
        waiting
            .stage_request(Step::of(Record::Purge { before }))
            .is_ok(),
    )
}

fn purges(waiting: &mut Waiting, count: usize, wanted: bool) -> Result<bool, Fail> {
    for _ in 0..count {
        if purge(waiting)? != wanted {
            return Ok(false);
        }
    }
    Ok(true)
}

fn endpoints(alloc: Global, count: usize) -> Result<Vec<Name>, Fail> {
    let mut names = Vec::with_capacity(alloc, count)?;
    for place in 0..count {
        let text = format!(in alloc; "e{place}")?;
        names.push(Name::read(text.as_bytes())?)?;
    }
    Ok(names)
}

fn event(waiting: &mut Waiting, alloc: Global, count: usize) -> Result<bool, Fail> {
    let names = endpoints(alloc, count)?;
    let body = body(alloc, b"{}")?;
    if names.len() < 1 || names.len() > MAX_STEP_RECORDS {
        return Err(Fail::from("no step has so many records"));
    }
    let step = Step::event(
        alloc,
        &names,
        MsgId::read(b"msg_1")?,
        &body,
        Moment::of(1000)?,
    )?;
    if MAX_RECORDS - waiting.records() < step.records().len() as u64 {
        return Err(Fail::from("no number is left"));
    }
    Ok(waiting.stage_request(step).is_ok())
}

fn outcome(waiting: &mut Waiting, attempt: u64) -> Result<bool, Fail> {
    let outcome = Record::Outcome {
        delivery: 0,
        attempt,
        status: 500,
        at: Moment::of(1001)?,
    };
    if waiting.records() >= MAX_RECORDS || waiting.free_outcomes() == 0 {
        return Ok(false);
    }
    waiting.stage_outcome(Step::of(outcome));
    Ok(true)
}

fn anew(waiting: &mut Waiting, alloc: Global, records: u64) -> Result<bool, Fail> {
    if records > MAX_RECORDS {
        return Ok(false);
    }
    *waiting = Waiting::new(alloc, records, MARK)?;
    Ok(true)
}

/// Seals, and keeps the batch.
fn seal(waiting: &mut Waiting, kept: &mut Kept, wanted: Option<(u64, u64, usize)>) -> bool {
    match waiting.seal() {
        Ok(Some(batch)) => {
            let told = numbers_of(&batch);
            kept.keep_batch(batch);
            wanted == Some(told)
        }
        Ok(None) => wanted.is_none(),
        Err(_) => false,
    }
}

fn unseal(waiting: &mut Waiting, kept: &mut Kept) -> Option<bool> {
    let batch = kept.batch.take()?;
    match waiting.unseal(batch) {
        Ok(()) => Some(true),
        Err((batch, WrongTurn)) => {
            kept.keep_batch(batch);
            Some(false)
        }
    }
}

/// How many records the receipt settles. `Err` where it is of no batch that is out, `None` where there is none.
fn settle(waiting: &mut Waiting, kept: &mut Kept) -> Option<Result<u64, WrongTurn>> {
    let receipt = kept.receipt.take()?;
    match waiting.settle(receipt) {
        Ok(settled) => Some(Ok(settled.records)),
        Err((receipt, wrong)) => {
            kept.keep_receipt(receipt);
            Some(Err(wrong))
        }
    }
}

fn is_settled(told: Option<Result<u64, WrongTurn>>, wanted: Option<u64>) -> bool {
    match told {
        Some(Ok(records)) => wanted == Some(records),
        Some(Err(WrongTurn)) => wanted.is_none(),
        None => false,
    }
}

/// Whether what is given up was taken. Only what was given up comes back.
fn is_given_up(waiting: &mut Waiting, kept: &mut Kept, held: Held) -> bool {
    match waiting.abandon(held) {
        Ok(()) => true,
        Err((Held::Nothing, WrongTurn)) => false,
        Err((Held::Batch(batch), WrongTurn)) => {
            kept.keep_batch(batch);
            false
        }
        Err((Held::Doubt(doubt), WrongTurn)) => {
            doubt.end();
            false
        }
    }
}

fn abandon_batch(waiting: &mut Waiting, kept: &mut Kept) -> Option<bool> {
    let batch = kept.batch.take()?;
    Some(is_given_up(waiting, kept, Held::Batch(batch)))
}

/// Whether an outcome waits at this place, if a step does.
fn is_outcome(waiting: &Waiting, place: usize) -> Option<bool> {
    let step = waiting.get(place)?;
    Some(matches!(step.records().first(), Some(Record::Outcome { .. })))
}

/// Whether what is seen is what is expected. A call is none.
fn see(waiting: &Waiting, step: Wait) -> bool {
    match step {
        Wait::Len(count) => waiting.len() == count,
        Wait::Records(all, settled) => {
            waiting.records() == all && waiting.settled_records() == settled
        }
        Wait::Free(requests, outcomes) => {
            waiting.free_requests() == requests && waiting.free_outcomes() == outcomes
        }
        Wait::IsOutcome(place, wanted) => is_outcome(waiting, place) == wanted,
        Wait::IsOut(flag) => waiting.is_out() == flag,
        _ => false,
    }
}

/// Takes the step: whether all is as it is expected.
fn step<S: Alter>(
    alloc: Global,
    waiting: &mut Waiting,
    vault: &mut Vault<S>,
    kept: &mut Kept,
    step: Wait,
) -> Result<bool, Fail> {
    match step {
        Wait::Anew(records) => anew(waiting, alloc, records),
        Wait::Put(name, wanted) => Ok(put(waiting, alloc, name)? == wanted),
        Wait::Flags(count, wanted) => flags(waiting, count, wanted),
        Wait::Purges(count, wanted) => purges(waiting, count, wanted),
        Wait::Event(count, wanted) => Ok(event(waiting, alloc, count)? == wanted),
        Wait::Outcome(attempt) => outcome(waiting, attempt),
        Wait::Seal(sealed) => Ok(seal(waiting, kept, sealed)),
        Wait::Unseal(is) => Ok(unseal(waiting, kept) == Some(is)),
        Wait::Commit(records) => Ok(kept.commit(vault) && vault.next() == records),
        Wait::Settle(records) => Ok(is_settled(settle(waiting, kept), records)),
        Wait::AbandonNothing(is) => Ok(is_given_up(waiting, kept, Held::Nothing) == is),
        Wait::AbandonBatch(is) => Ok(abandon_batch(waiting, kept) == Some(is)),
        _ => Ok(see(waiting, step)),
    }
}

fn take_all<S: Alter>(
    rt: &impl Abort,
    alloc: Global,
    vault: &mut Vault<S>,
    kept: &mut Kept,
    steps: &[Wait],
) -> Result<(), Fail> {
    let mut waiting = Waiting::new(alloc, 0, MARK)?;
    for (place, next) in steps.iter().enumerate() {
        let is = step(alloc, &mut waiting, vault, kept, *next)?;
        assert!(rt; is, "step {place}");
    }
    Ok(())
}

fn take_over<S: Alter + Drop>(
    rt: &impl Abort,
    alloc: Global,
    conn: Connection<S>,
    steps: &[Wait],
) -> Result<(), Fail> {
    let mut vault = created(conn)?;
    let mut kept = Kept::new();
    let told = take_all(rt, alloc, &mut vault, &mut kept, steps);
    kept.end();
    told
}

/// Takes the steps on a new vault. At first nothing waits, and no record is settled.
pub(crate) fn take_waits(rt: &impl Abort, alloc: Global, steps: &[Wait]) -> Result<(), Fail> {
    take_over::<MemStore>(rt, alloc, Connection::open_in_memory(alloc)?, steps)
}
