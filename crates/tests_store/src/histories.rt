//! Random legal histories: what a load gives has the answers of the books in which each record was staged.

use crate::database::holds;
use crate::draws::{Numbers, draw};
use crate::entries::{Entry, record_of};
use crate::same::same_books;
use crate::staged::{empty, stage};
use crate::vaults::Spool;
use delivery_book::DeliveryBook;
use relay_types::Moment;
use spool::Books;
use sqlite::Alter;
use std::alloc::Global;
use std::process::Abort;
use std::test::Fail;

/// How often a record is drawn for a history. One that may not follow is left out.
const DRAWS: u32 = 120;

/// The books of a history, and the moments of its events and attempts, each beside its delivery.
#[derive(Drop)]
struct Drawn {
    books: Books,
    moments: Vec<(u64, u64)>,
}

fn begun(alloc: Global) -> Result<Drawn, Fail> {
    let books = empty(alloc)?;
    let moments = Vec::new(alloc);
    Ok(Drawn { books, moments })
}

fn note(moments: &mut Vec<(u64, u64)>, seq: u64, entry: Entry) -> Result<(), Fail> {
    match entry {
        Entry::Accept(_, _, _, at) => moments.push((seq, at))?,
        Entry::Outcome(delivery, _, _, at) => moments.push((delivery, at))?,
        _ => {}
    }
    Ok(())
}

/// The greatest moment of the deliveries that no Purge took.
fn clock_of(book: &DeliveryBook, moments: &[(u64, u64)]) -> Result<Moment, Fail> {
    let mut greatest = 0;
    for (delivery, at) in moments {
        if book.settled(*delivery).is_some() {
            greatest = greatest.max(*at);
        }
    }
    Ok(Moment::of(greatest)?)
}

/// Takes in a record, and has it wait to be committed.
fn add<S: Alter>(
    rt: &impl Abort,
    alloc: Global,
    drawn: &mut Drawn,
    spool: &mut Spool<S>,
    entry: Entry,
) -> Result<(), Fail> {
    note(&mut drawn.moments, drawn.books.records, entry)?;
    stage(rt, alloc, &mut drawn.books, entry)?;
    spool.stage(rt, record_of(alloc, entry)?);
    Ok(())
}

/// Draws a record, and commits what waits in one case of four. Whether it is written.
fn go_on<S: Alter>(
    rt: &impl Abort,
    alloc: Global,
    numbers: &mut Numbers,
    drawn: &mut Drawn,
    spool: &mut Spool<S>,
) -> Result<bool, Fail> {
    if let Some(entry) = draw(numbers, &drawn.books)? {
        add(rt, alloc, drawn, spool, entry)?;
    }
    Ok(numbers.below(4) > 0 || spool.is_written())
}

fn draw_all<S: Alter>(
    rt: &impl Abort,
    alloc: Global,
    first: u64,
    drawn: &mut Drawn,
    spool: &mut Spool<S>,
) -> Result<bool, Fail> {
    let mut numbers = Numbers { last: first };
    let mut is_written = true;
    for _ in 0..DRAWS {
        is_written = go_on(rt, alloc, &mut numbers, drawn, spool)? && is_written;
    }
    Ok(spool.is_written() && is_written)
}

fn is_same<S: Alter>(alloc: Global, drawn: &mut Drawn, spool: &mut Spool<S>) -> Result<bool, Fail> {
    drawn.books.clock = clock_of(&drawn.books.deliveries, &drawn.moments)?;
    let loaded = spool.books(alloc)?;
    same_books(&drawn.books, &loaded)
}

fn is_drawn<S: Alter>(
    rt: &impl Abort,
    alloc: Global,
    first: u64,
    spool: &mut Spool<S>,
) -> Result<bool, Fail> {
    let mut drawn = begun(alloc)?;
    match draw_all(rt, alloc, first, &mut drawn, spool) {
        Ok(true) => is_same(alloc, &mut drawn, spool),
        told => told,
    }
}

/// Whether a history that is drawn from this number is loaded as it was staged.
fn is_loaded(rt: &impl Abort, alloc: Global, first: u64) -> Result<bool, Fail> {
    let mut spool = Spool::new(rt, alloc, None)?;
    is_drawn(rt, alloc, first, &mut spool)
}

#[test]
fn two_hundred_histories_are_loaded(rt: HostRuntime) -> Result<(), Fail> {
    for first in 0..200usize {
        holds(&rt, is_loaded(&rt, rt.alloc(), first as u64)?, first);
    }
    Ok(())
}
