//! The opening of the file at a path.
ghost use Rattle.std.specs.Prelude.{◌≡◌};
ghost use Rattle.permits.specs.declared.pool.TheConstants.{PARTS};

use crate::desks::MARK;
use desk::{Desk, Totals};
use permits::PARTS;
use recovery::open_path;
use spool::{OpenFault, Vault};
use sqlite::{Alter, Start, Unknown};
use std::io;
use std::marker::Brand;
use std::sync::ledger::{Blank, Ledger};

/// Opens the file at the path, and prints what it holds, or why it isn't opened. Whether it was.
pub(crate) fn print_opening(rt: &HostRuntime, path: &str) -> io::Result<bool> {
    match opened_at(rt, path.to_string(rt.alloc())?) {
        Ok(totals) => {
            println!(rt;
                "records {} endpoints {} pending {}",
                totals.records, totals.endpoints, totals.pending
            )?;
            Ok(true)
        }
        Err(fault) => {
            println!(rt; "{fault}")?;
            Ok(false)
        }
    }
}

/// What the file at the path holds.
pub(crate) fn opened_at(rt: &HostRuntime, path: String) -> Result<Totals, OpenFault> {
    opened_file::<Brand, Unknown>(rt, Blank::new(PARTS), path, Unknown)
}

// A ledger can't be picked at a call that hands a `&str` on, so the path is taken whole.
fn opened_file<L: Ledger, T: Start>(
    rt: &HostRuntime,
    blank: Blank,
    path: String,
    start: T,
) -> Result<Totals, OpenFault>
    requires name { blank.name ≡ L.name }
    requires parts { blank.parts ≡ L.parts }
    requires enough { blank.parts ≡ PARTS }
{
    match open_path::<L, T>(rt, blank, &path, start, MARK) {
        Ok((desk, vault)) => Ok(totals_of(&desk, vault)),
        Err(fault) => Err(fault),
    }
}

fn totals_of<L: Ledger, S: Alter + Drop>(desk: &Desk<L>, _vault: Vault<S>) -> Totals {
    desk.totals()
}
