//! Vaults over stores in memory, and what is committed to them.

use crate::entries::{
    Entry, Keys, accept, name_of, outcome, put, record_of, secrets_of, subscribed,
};
use group_commit::Waiting;
use relay_types::{MsgId, Name, Record, Step};
use spool::{Batch, Books, CommitEnd, LoadFault, OpenFault, Receipt, Unchanged, Vault};
use sqlite::{Alter, Connection, MemStore};
use std::alloc::Global;
use std::process::Abort;
use std::test::Fail;

pub(crate) const MARK: u64 = 7;

/// What a commit tells.
#[derive(Clone, Copy)]
pub(crate) enum Told {
    /// The receipt is that of the batch.
    Written,
    Refused(Unchanged),
    Doubtful,
    /// The receipt is another's.
    Astray,
}

pub(crate) fn same_told(told: Told, wanted: Told) -> bool {
    match (told, wanted) {
        (Told::Written, Told::Written) => true,
        (Told::Doubtful, Told::Doubtful) => true,
        (Told::Refused(why), Told::Refused(cause)) => why == cause,
        _ => false,
    }
}

/// A vault, and the steps that wait to be committed to it.
#[derive(Drop)]
pub(crate) struct Spool<S: Alter> {
    pub vault: Vault<S>,
    pub waiting: Waiting,
}

/// A vault in the store of a connection that is outside a transaction.
pub(crate) fn create<S: Alter>(
    rt: &impl Abort,
    conn: Connection<S>,
    mark: u64,
) -> Result<Vault<S>, (Connection<S>, OpenFault)> {
    assert!(rt; conn.is_autocommit());
    Vault::create(conn, mark)
}

fn created<S: Alter + Drop>(rt: &impl Abort, conn: Connection<S>) -> Vault<S> {
    match create(rt, conn, MARK) {
        Ok(vault) => vault,
        Err((_, _)) => panic!(rt; "create was refused"),
    }
}

/// A new vault. A statement fails that takes more steps than the limit.
pub(crate) fn opened(
    rt: &impl Abort,
    alloc: Global,
    limit: Option<u64>,
) -> Result<Vault<MemStore>, Fail> {
    let mut conn = Connection::open_in_memory(alloc)?;
    conn.set_step_limit(limit);
    Ok(created(rt, conn))
}

fn ended(receipt: Receipt, mark: u64, from: u64) -> Told {
    let is_same = receipt.mark() == mark && receipt.from() == from;
    drop(receipt.into_steps());
    if is_same { Told::Written } else { Told::Astray }
}

/// What a commit tells that gives no receipt.
fn told_of(end: CommitEnd) -> Told {
    match end {
        CommitEnd::Unchanged(batch, why) => {
            drop(batch.into_steps());
            Told::Refused(why)
        }
        CommitEnd::Doubtful(doubt, _) => {
            doubt.end();
            Told::Doubtful
        }
    }
}

fn commit<S: Alter>(vault: &mut Vault<S>, batch: Batch, mark: u64, from: u64) -> Told {
    match vault.commit(batch) {
        Ok(receipt) => ended(receipt, mark, from),
        Err(end) => told_of(end),
    }
}

/// A batch of this mark and number, of this record alone.
fn batch(alloc: Global, mark: u64, from: u32, record: Record) -> Result<Batch, Fail> {
    let mut steps = Vec::with_capacity(alloc, 1)?;
    steps.push_reserved(Step::of(record));
    Ok(Batch::of(mark, u64::from(from), steps))
}

/// Commits the record alone as a batch of this mark and number.
fn enter<S: Alter>(
    alloc: Global,
    vault: &mut Vault<S>,
    mark: u64,
    from: u32,
    record: Record,
) -> Result<Told, Fail> {
    let batch = batch(alloc, mark, from, record)?;
    Ok(commit(vault, batch, mark, u64::from(from)))
}

/// Commits the entry alone as a batch of this mark and number.
pub(crate) fn take_turn<S: Alter>(
    alloc: Global,
    spool: &mut Spool<S>,
    mark: u64,
    from: u32,
    entry: Entry,
) -> Result<Told, Fail> {
    let record = record_of(alloc, entry)?;
    enter(alloc, &mut spool.vault, mark, from, record)
}

/// Commits the entry as the next.
pub(crate) fn take_next<S: Alter>(
    alloc: Global,
    spool: &mut Spool<S>,
    entry: Entry,
) -> Result<Told, Fail> {
    let from = u32::try_from(spool.vault.next())?;
    take_turn(alloc, spool, MARK, from, entry)
}

/// Commits the entries as one batch.
pub(crate) fn take_together<S: Alter>(
    rt: &impl Abort,
    alloc: Global,
    spool: &mut Spool<S>,
    entries: &[Entry],
) -> Result<Told, Fail> {
    spool.follow(rt, alloc)?;
    for entry in entries {
        spool.stage(rt, record_of(alloc, *entry)?);
    }
    Ok(spool.commit())
}

/// The name of this letter and number.
pub(crate) fn numbered(alloc: Global, letter: char, number: u64) -> Result<Name, Fail> {
    let text = format!(in alloc; "{letter}{number}")?;
    Ok(Name::read(text.as_bytes())?)
}

/// Puts so many endpoints, until one is not written.
pub(crate) fn put_all<S: Alter>(
    alloc: Global,
    spool: &mut Spool<S>,
    count: u32,
    keys: Keys,
) -> Result<Told, Fail> {
    for number in 0..count {
        let record = put(
            alloc,
            numbered(alloc, 'e', u64::from(number))?,
            100,
            secrets_of(keys)?,
        )?;
        let told = enter(alloc, &mut spool.vault, MARK, number, record)?;
        if !same_told(told, Told::Written) {
            return Ok(told);
        }
    }
    Ok(Told::Written)
}

fn stage(rt: &impl Abort, waiting: &mut Waiting, record: Record) {
    assert!(rt; waiting.records() < 1_000_000);
    if matches!(record, Record::Outcome { .. }) {
        assert!(rt; waiting.free_outcomes() > 0);
        waiting.stage_outcome(Step::of(record));
    } else {
        let told = waiting.stage_request(Step::of(record));
        assert!(rt; told.is_ok());
    }
}

impl Spool<MemStore> {
    /// A new vault.
    pub(crate) fn new(
        rt: &impl Abort,
        alloc: Global,
        limit: Option<u64>,
    ) -> Result<Spool<MemStore>, Fail> {
        Spool::of(alloc, opened(rt, alloc, limit)?)
    }
}

impl<S: Alter + Drop> Spool<S> {
    /// A vault for which nothing waits.
    pub(crate) fn of(alloc: Global, vault: Vault<S>) -> Result<Spool<S>, Fail> {
        let waiting = Waiting::new(alloc, 0, MARK)?;
        Ok(Spool { vault, waiting })
    }
}

impl<S: Alter> Spool<S> {
    /// The record waits as a step.
    pub(crate) fn stage(&mut self, rt: &impl Abort, record: Record) {
        stage(rt, &mut self.waiting, record);
    }

    /// Commits what waits, 256 records at most.
    pub(crate) fn commit(&mut self) -> Told {
        let Ok(Some(batch)) = self.waiting.seal() else {
            return Told::Written;
        };
        match self.vault.commit(batch) {
            Ok(receipt) => self.settle(receipt),
            Err(end) => told_of(end),
        }
    }

    fn settle(&mut self, receipt: Receipt) -> Told {
        match self.waiting.settle(receipt) {
            Ok(_) => Told::Written,
            Err((receipt, _)) => {
                drop(receipt.into_steps());
                Told::Astray
            }
        }
    }

    /// Whether what waits is written.
    pub(crate) fn is_written(&mut self) -> bool {
        same_told(self.commit(), Told::Written)
    }

    /// The books of a vault that has them.
    pub(crate) fn books(&mut self, alloc: Global) -> Result<Books, Fail> {
        match self.load(alloc) {
            Ok(books) => Ok(books),
            Err(_) => Err(Fail::from("the load was refused")),
        }
    }

    pub(crate) fn load(&mut self, alloc: Global) -> Result<Books, LoadFault> {
        self.vault.load(alloc)
    }

    /// Steps wait after what was committed alone.
    fn follow(&mut self, rt: &impl Abort, alloc: Global) -> Result<(), Fail> {
        let next = self.vault.next();
        assert!(rt; next < 1_000_000);
        self.waiting = Waiting::new(alloc, next, MARK)?;
        Ok(())
    }

    /// The connection.
    pub(crate) fn release(self) -> Connection<S> {
        let Spool { vault, waiting: _ } = self;
        vault.release()
    }
}

/// Numbers from the first up to the end, and how many make a batch.
#[derive(Clone, Copy)]
pub(crate) struct Span(pub u64, pub u64, pub usize);

/// The moment of a number: the base, raised by the number's remainder at the second and lowered by that at the third.
#[derive(Clone, Copy)]
pub(crate) struct Moments(pub u64, pub u64, pub u64);

fn moment(moments: Moments, number: u64) -> u64 {
    let Moments(base, up, down) = moments;
    let raised = base.saturating_add(number.checked_rem(up).unwrap_or(0));
    raised.saturating_sub(number.checked_rem(down).unwrap_or(0))
}

pub(crate) fn id_of(alloc: Global, number: u64) -> Result<MsgId, Fail> {
    let text = format!(in alloc; "msg_{number}")?;
    Ok(MsgId::read(text.as_bytes())?)
}

/// What is committed for a number.
#[derive(Clone, Copy)]
pub(crate) enum Each {
    /// An event of `a` with the number in its id.
    Event(Moments),
    /// A first outcome of the event with the number.
    End(u16, Moments),
    /// `a` is subscribed to the topic with the number.
    Topic,
}

fn record_at(alloc: Global, each: Each, number: u64) -> Result<Record, Fail> {
    let name = name_of(b'a')?;
    match each {
        Each::Event(moments) => {
            accept(
                alloc,
                name,
                id_of(alloc, number)?,
                b"{}",
                moment(moments, number),
            )
        }
        Each::End(status, moments) => outcome(number, 1, status, moment(moments, number)),
        Each::Topic => Ok(subscribed(numbered(alloc, 't', number)?, name, true)),
    }
}

/// Commits the records of these numbers. Whether they are written.
pub(crate) fn enter_each<S: Alter>(
    rt: &impl Abort,
    alloc: Global,
    spool: &mut Spool<S>,
    span: Span,
    each: Each,
) -> Result<bool, Fail> {
    let Span(first, end, size) = span;
    spool.follow(rt, alloc)?;
    let mut is_done = true;
    for number in first..end {
        spool.stage(rt, record_at(alloc, each, number)?);
        if spool.waiting.len() >= size {
            is_done = is_done && spool.is_written();
        }
    }
    Ok(is_done && spool.is_written())
}
