//! Some steps as one transaction, and what is told of it.
ghost use Rattle.std.specs.Prelude.{◌≡◌, ◌≢◌, ◌≤◌, ◌+◌, length, true, false, IsTrue, IfOk, IfErr, Ok};
ghost use Rattle.sqlite.specs.State.{HasCleanDisk, IsUnchanged};
ghost use Rattle.sqlite.specs.Held.{state};
ghost use Rattle.relay_types.specs.declared.limits.TheConstants.{MAX_RECORDS};
ghost use Rattle.relay_types.specs.Records.{records_of};
ghost use Rattle.spool_sql.specs.Steps.{IfClean, SurvivesAs};
ghost use Rattle.spool.specs.Books.{KeepsOpen};
ghost use Rattle.spool.specs.Writing.{Commits, CommitsAll, HasCause, IsCause, StaysAs, WriteEndsAs, IsUnwritten};
ghost use Rattle.spool.specs.Writing.{ReportsWrite};

use relay_types::Step;
use spool_sql::{Cause, cause_of, probe};
use spool_write::write_records;
use sqlite::{Alter, Connection, Error};

// How the write of some steps ended.
#[derive(Drop)]
pub(crate) enum WriteEnd {
    // They are committed.
    Committed,
    // A record isn't legal after the rows, and nothing was written.
    Illegal,
    // Memory was refused, and nothing was written.
    OutOfMemory,
    // The old rows or the new ones stand in the file.
    Doubtful(Error),
}

/// Writes the steps in one transaction, their records from this number on, and looks whether the store is usable where
/// nothing was written.
pub(crate) fn write_steps<S: Alter>(conn: &mut Connection<S>, next: u64, steps: &[Step]) -> WriteEnd
    requires settled { conn.old.in_transaction ≡ false }
    requires room { next + length (records_of steps.now) ≤ MAX_RECORDS }
    ensures ends { IfClean S.Store conn.old conn.new (λ a b. WriteEndsAs a b next (records_of steps.now) result) }
    ensures cause { IfClean S.Store conn.old conn.new (λ a b. HasCause a b result) }
    ensures clean { IfClean S.Store conn.old conn.new (λ a _. HasCleanDisk a) }
    ensures mode { conn.new.in_transaction ≡ false }
{
    let tried = commit_steps(conn, next, steps);
    end_of(conn, tried)
}

// The steps as one transaction. It is left without a commit where a record may not follow.
fn commit_steps<S: Alter>(
    conn: &mut Connection<S>,
    next: u64,
    steps: &[Step],
) -> Result<bool, Error>
    requires settled { conn.old.in_transaction ≡ false }
    requires room { next + length (records_of steps.now) ≤ MAX_RECORDS }
    ensures done { IfClean S.Store conn.old conn.new (λ a b. IfOk result (Commits a b next (records_of steps.now))) }
    ensures undone { IfClean S.Store conn.old conn.new
        (λ a b. result ≢ Ok true → IsTrue b.is_open → StaysAs a b) }
    ensures cause { IfClean S.Store conn.old conn.new (λ a b. IfErr result (IsCause a b)) }
    ensures mode { conn.new.in_transaction ≡ false }
    ensures survives { SurvivesAs S.Store conn.old conn.new (λ a. CommitsAll a next (records_of steps.now)) }
{
    let mut tx = conn.transaction();
    let legal = write_records(&mut tx, next, steps)?;
    if legal {
        tx.commit()?;
        return Ok(true);
    }
    Ok(false)
}

// What is told of a transaction, after a look at the store where nothing was written.
fn end_of<S: Alter>(conn: &mut Connection<S>, tried: Result<bool, Error>) -> WriteEnd
    requires { conn.old.in_transaction ≡ false }
    ensures told { ReportsWrite (state S.Store conn.old) (state S.Store conn.new) tried result }
    ensures committed { result ≡ WriteEnd.Committed → conn.new ≡ conn.old }
    ensures same { IfClean S.Store conn.old conn.new (λ a b. IsUnwritten result → IsUnchanged a b) }
    ensures stays { IfClean S.Store conn.old conn.new KeepsOpen }
    ensures mode { conn.new.in_transaction ≡ false }
    ensures survives { SurvivesAs S.Store conn.old conn.new (λ _ _. ⊥) }
{
    let why = match tried {
        Ok(true) => return WriteEnd::Committed,
        Ok(false) => WriteEnd::Illegal,
        Err(error) => match cause_of(error) {
            Cause::Memory => WriteEnd::OutOfMemory,
            Cause::Store | Cause::Other => return WriteEnd::Doubtful(error),
        },
    };
    match probe(conn) {
        Ok(()) => why,
        Err(error) => WriteEnd::Doubtful(error),
    }
}
