//! `relayd check`: how much the store in a file holds.
ghost use Rattle.std.specs.Prelude.{◌≡◌, false, Some};
ghost use Rattle.permits.specs.declared.pool.TheConstants.{PARTS};
ghost use Rattle.sqlite.specs.Held.{state};
ghost use Rattle.sqlite.specs.WalFiles.{image_at};
ghost use Rattle.spool_sql.specs.Steps.{IfClean};
ghost use Rattle.spool.specs.Migrating.{MayMigrate};
ghost use Rattle.recovery.specs.Left.{IsCleanAt};
ghost use Rattle.recovery.specs.Openings.{IsNewStore};
ghost use Rattle.tool_commands.specs.Checks.{IsCountOf, WritesCounts, ReportsCheck, ReportsFileCheck, counts_text};

use command_interface::{CommandFault, end};
use desk::Totals;
use permits::PARTS;
use recovery::{connect, is_new_file, open};
use spool::OpenFault;
use sqlite::{Alter, Connection, FileFrom, FileStore, Start};
use std::alloc::Global;
use std::fmt;
use std::io::Write;
use std::marker::Brand;
use std::sync::ledger::{Blank, Ledger};
use text_lines::write_line;

/// How much a store holds.
#[derive(Clone, Copy)]
pub struct Checked {
    totals: Totals,
}

impl fmt::Display for Checked {
    ghost output = { λ counts. Some (counts_text counts.totals) };

    fn fmt<W: fmt::Write>(&self, f: &mut fmt::Formatter<W>) -> fmt::Result {
        let Totals {
            endpoints,
            pending,
            records,
            ..
        } = self.totals;
        write!(
            f,
            "ok records {records} endpoints {endpoints} pending {pending}"
        )
    }
}

/// If there is no file at the path, or an empty one, it makes a store of the empty history, and
/// tables of version 1 become those of version 2. Nothing else is written, except that SQLite may
/// make its log beside the file. Opens the store in the file and writes how many records, endpoints
/// and pending events it holds: 0 done, 4 the relay doesn't take the file, 3 every other fault.
/// `start` stands for what the file and its log hold. The connection comes back where the file was
/// opened.
pub fn check_file<T: Start, O: Write, E: Write>(
    rt: &HostRuntime,
    path: &str,
    start: T,
    output: &mut O,
    errors: &mut E,
) -> (Option<Connection<FileStore<FileFrom<T>>>>, u8)
    ensures checks { ReportsFileCheck (image_at T.Start) result.0 (O.contents output.old) (O.contents output.new)
        (E.contents errors.old) (E.contents errors.new) result.1 }
{
    let is_new = match is_new_file(rt, path) {
        Ok(is_new) => is_new,
        Err(fault) => return (None, end(errors, Err(CommandFault::from(fault)))),
    };
    match connect(rt, path, is_new, start) {
        Ok(conn) => {
            let (conn, status) = check_store(rt.alloc(), conn, is_new, output, errors);
            (Some(conn), status)
        }
        Err(fault) => (None, end(errors, Err(CommandFault::from(fault)))),
    }
}

/// The same of the store of a connection, which is made where it `is_new` and has no table. The
/// connection comes back. The caller sees by `is_autocommit` that it is outside a transaction.
pub(crate) fn check_store<S: Alter, O: Write, E: Write>(
    alloc: Global,
    conn: Connection<S>,
    is_new: bool,
    output: &mut O,
    errors: &mut E,
) -> (Connection<S>, u8)
    requires mode { conn.in_transaction ≡ false }
    ensures checks { ReportsCheck S.Store is_new conn result.0 (O.contents output.old) (O.contents output.new)
        (E.contents errors.old) (E.contents errors.new) result.1 }
    ensures left { ¬ IsNewStore is_new (state S.Store conn).now.schema
        → IfClean S.Store conn result.0 MayMigrate }
    ensures clean { IsCleanAt S.Store result.0 → IsCleanAt S.Store conn }
    ensures outside { result.0.in_transaction ≡ false }
{
    let (conn, counted) = count::<Brand, S>(alloc, Blank::new(PARTS), conn, is_new);
    (conn, end(errors, write_counts(alloc, counted, output)))
}

// How much the store holds, by an opening over a ledger of its own.
fn count<L: Ledger, S: Alter>(
    alloc: Global,
    blank: Blank,
    conn: Connection<S>,
    is_new: bool,
) -> (Connection<S>, Result<Totals, OpenFault>)
    requires name { blank.name ≡ L.name }
    requires parts { blank.parts ≡ L.parts }
    requires enough { blank.parts ≡ PARTS }
    requires mode { conn.in_transaction ≡ false }
    ensures counted { IsCountOf S.Store is_new conn result.0 result.1 }
    ensures left { ¬ IsNewStore is_new (state S.Store conn).now.schema
        → IfClean S.Store conn result.0 MayMigrate }
    ensures clean { IsCleanAt S.Store result.0 → IsCleanAt S.Store conn }
    ensures outside { result.0.in_transaction ≡ false }
{
    match open::<L, S>(alloc, blank, conn, is_new, 0) {
        Ok((desk, vault)) => {
            let totals = desk.totals();
            (vault.release(), Ok(totals))
        }
        Err((conn, fault)) => (conn, Err(fault)),
    }
}

// Writes what was counted.
fn write_counts<O: Write>(
    alloc: Global,
    counted: Result<Totals, OpenFault>,
    output: &mut O,
) -> Result<(), CommandFault>
    ensures { WritesCounts counted (O.contents output.old) (O.contents output.new) result }
{
    let totals = counted?;
    Ok(write_line(alloc, output, &Checked { totals })?)
}
