//! How long the opening of a store that stands takes, part by part.
ghost use Rattle.std.specs.Prelude.{◌≡◌, IfOk};
ghost use Rattle.permits.specs.declared.pool.TheConstants.{PARTS};
ghost use Rattle.spool.specs.Books.{AreSettled};

use crate::batches::{MARK, adopted};
use crate::failed::Failed;
use crate::times::{print_lines, since};
use desk::{Desk, Totals};
use permits::{PARTS, Pool};
use spool::{Books, Vault};
use sqlite::{Alter, Connection};
use std::alloc::Global;
use std::marker::Brand;
use std::sync::ledger::{Blank, Ledger};
use std::time::{Duration, Instant};

/// How long after the beginning each part had ended: the file's opening, the look at its tables,
/// the books, and the desk.
#[derive(Clone, Copy)]
struct Ends {
    opened: Duration,
    adopted: Duration,
    loaded: Duration,
    seated: Duration,
}

/// Reopens the store that stands, and prints how many microseconds each part took, with the opening
/// of its file, and what the store holds.
pub(crate) fn print_parts<S: Alter + Drop>(
    rt: &HostRuntime,
    began: Instant,
    conn: Connection<S>,
) -> Result<(), Failed> {
    let opened = since(rt, began);
    let mut ends = Ends {
        opened,
        adopted: opened,
        loaded: opened,
        seated: opened,
    };
    let totals = reopened(rt, began, conn, &mut ends)?;
    print_ends(rt, &ends)?;
    print_totals(rt, &totals)
}

fn print_ends(rt: &HostRuntime, ends: &Ends) -> Result<(), Failed> {
    print_lines(
        rt,
        &[
            ("opening", ends.opened.as_micros()),
            ("adopting", between(ends.opened, ends.adopted)),
            ("loading", between(ends.adopted, ends.loaded)),
            ("seating", between(ends.loaded, ends.seated)),
        ],
    )
}

/// How many microseconds are between two moments.
fn between(from: Duration, upto: Duration) -> u128 {
    upto.saturating_sub(from).as_micros()
}

fn print_totals(rt: &HostRuntime, totals: &Totals) -> Result<(), Failed> {
    println!(rt;
        "records {} endpoints {} pending {}",
        totals.records, totals.endpoints, totals.pending
    )?;
    Ok(())
}

fn reopened<S: Alter + Drop>(
    rt: &HostRuntime,
    began: Instant,
    conn: Connection<S>,
    ends: &mut Ends,
) -> Result<Totals, Failed> {
    let mut vault = adopted(rt.alloc(), conn)?;
    ends.adopted = since(rt, began);
    seated::<Brand, S>(rt, began, Blank::new(PARTS), &mut vault, ends)
}

fn loaded<S: Alter>(alloc: Global, vault: &mut Vault<S>) -> Result<Books, Failed>
    ensures { IfOk result AreSettled }
{
    match vault.load(alloc) {
        Ok(books) => Ok(books),
        Err(_) => Err(Failed),
    }
}

fn seated<L: Ledger, S: Alter>(
    rt: &HostRuntime,
    began: Instant,
    blank: Blank,
    vault: &mut Vault<S>,
    ends: &mut Ends,
) -> Result<Totals, Failed>
    requires name { blank.name ≡ L.name }
    requires parts { blank.parts ≡ L.parts }
    requires enough { blank.parts ≡ PARTS }
{
    let pool = Pool::<L>::new(rt.alloc(), blank)?;
    let books = loaded(rt.alloc(), vault)?;
    ends.loaded = since(rt, began);
    let desk = Desk::of(rt.alloc(), pool, books, MARK)?;
    ends.seated = since(rt, began);
    Ok(desk.totals())
}
