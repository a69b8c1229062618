//! The opening of a file.
ghost use Rattle.std.specs.Prelude.{◌≡◌, ◌≢◌, ◌↔◌, ◌<◌, [], true, false, Err, IfErr, IfOk, IsTrue, MatchResult};
ghost use Rattle.std.specs.Fs.{new_options, with_create_new, with_write};
ghost use Rattle.permits.specs.declared.pool.TheConstants.{PARTS};
ghost use Rattle.sqlite.specs.Files.{file_state, over_files, IsOpened};
ghost use Rattle.sqlite.specs.Held.{state};
ghost use Rattle.sqlite.specs.Opening.{is_open_error};
ghost use Rattle.sqlite.specs.Start.{FindsIn};
ghost use Rattle.sqlite.specs.WalFiles.{image_at};
ghost use Rattle.spool_sql.specs.Steps.{IfClean};
ghost use Rattle.spool_sql.specs.Tables.{IsOwn, no_schema};
ghost use Rattle.sound_tables.specs.Keys.{has_first_tables, has_meta};
ghost use Rattle.spool.specs.Adopting.{FailsIfOfStore, HaveFirstHistory, HaveHistory, IsForeign};
ghost use Rattle.spool.specs.Migrating.{LeavesMigrated};
ghost use Rattle.desk.specs.Desks.{HasNothingOut, StandsFor};
ghost use Rattle.desk.specs.Moves.{opened};
ghost use Rattle.recovery.specs.Files.{HoldsFirstTables, IsFileOpened, IsFoundOpened, OpensOr, OpensPathOr};
ghost use Rattle.recovery.specs.Left.{IsCleanAt, VaultStandsFor};
ghost use Rattle.recovery.specs.Openings.{IsNewStore, KeepsOr, LeavesOr};
ghost use Rattle.recovery.specs.Paths.{ConnectsOr, IsOfLook, IsOfOpen, IsOfPath, IsToldUnfit, unopened_fault};
ghost use Rattle.recovery.specs.Reopenings.{IsNotMigrated, IsOfReading, IsOfRows, IsOpenBehind, IsReadingRefusal};
ghost use Rattle.recovery.specs.Reopenings.{IsUnopened, ReopensLeft};

use crate::opening::create;
use crate::reopening::reopen;
use desk::Desk;
use permits::{PARTS, Pool};
use sound_tables::judge_unsound;
use spool::{OpenFault, Vault};
use spool_sql::is_empty;
use sqlite::{Alter, Connection, Error, ErrorCode, FileFrom, FileStore, Leftover, Start};
use std::alloc::Global;
use std::fs;
use std::fs::OpenOptions;
use std::io::ErrorKind;
use std::os::unix::fs::OpenOptionsExt;
use std::sync::ledger::{Blank, Ledger};

// What a file of SQLite begins with has so many bytes. A shorter one isn't opened: of one byte an
// open would make a store.
const HEADER_LENGTH: u64 = 16;

// The rights of a file that its owner alone reads and writes (POSIX.1-2017).
const OWNER_ALONE: u32 = 0o600;

const CANNOT_OPEN: OpenFault = OpenFault::Store(Error::SqliteFailure(ErrorCode::CannotOpen));

/// Whether there is no file at the path, or an empty one. A file that is too short to be a database is `NotOurs`. A log
/// without its file can't be opened.
pub fn is_new_file(rt: &HostRuntime, path: &str) -> Result<bool, OpenFault>
    ensures fault { IfErr result IsOfLook }
{
    is_new_at(length_of(rt, path)?)
}

/// Opens the file at the path, and returns its desk and its vault. If there is no file, or an empty
/// one, it makes a store of the empty history. It opens every other file as `reopen` does, and
/// writes it only if its tables are of version 1. `start` represents what the file and its log
/// hold.
///
/// A file that no SQLite wrote is `NotOurs`, and so is one without the relay's tables. A crash may
/// leave such a file while it is made: delete it by hand. A file that can't be opened is `Store`
/// with its cause: `DatabaseBusy` if another program has it open, `CannotOpen` for a log without
/// its file. SQLite may make its log beside the file.
pub fn open_path<L: Ledger, T: Start>(
    rt: &HostRuntime,
    blank: Blank,
    path: &str,
    start: T,
    mark: u64,
) -> Result<(Desk<L>, Vault<FileStore<FileFrom<T>>>), OpenFault>
    requires name { blank.name ≡ L.name }
    requires parts { blank.parts ≡ L.parts }
    requires enough { blank.parts ≡ PARTS }
    ensures mark { IfOk result (λ opening. (opening.0.waiting.mark ≡ mark) × (opening.1.mark ≡ mark)) }
    ensures out { IfOk result (λ opening. HasNothingOut opening.0) }
    ensures opened { IfOk result (λ opening. IsCleanAt over_files opening.1.conn
        → IsFileOpened over_files (image_at T.Start) opening.0 opening.1) }
    ensures refused { OpensPathOr (image_at T.Start) result }
{
    let is_new = is_new_file(rt, path)?;
    open_file(rt, blank, path, is_new, start, mark)
}

// The same of a file of which it is known whether it is new.
fn open_file<L: Ledger, T: Start>(
    rt: &HostRuntime,
    blank: Blank,
    path: &str,
    is_new: bool,
    start: T,
    mark: u64,
) -> Result<(Desk<L>, Vault<FileStore<FileFrom<T>>>), OpenFault>
    requires name { blank.name ≡ L.name }
    requires parts { blank.parts ≡ L.parts }
    requires enough { blank.parts ≡ PARTS }
    ensures mark { IfOk result (λ opening. (opening.0.waiting.mark ≡ mark) × (opening.1.mark ≡ mark)) }
    ensures out { IfOk result (λ opening. HasNothingOut opening.0) }
    ensures opened { IfOk result (λ opening. IsCleanAt over_files opening.1.conn
        → IsFileOpened over_files (image_at T.Start) opening.0 opening.1) }
    ensures whole { is_new ≡ false → IfOk result (λ opening. IsCleanAt over_files opening.1.conn
        → HoldsFirstTables (image_at T.Start)) }
    ensures refused { OpensOr (image_at T.Start) is_new result }
{
    let conn = connect(rt, path, is_new, start)?;
    match open(rt.alloc(), blank, conn, is_new, mark) {
        Ok(opening) => Ok(opening),
        Err((_back, fault)) => Err(fault),
    }
}

/// The connection to the file at the path, which is made first if it `is_new`. It is outside a transaction.
pub fn connect<T: Start>(
    rt: &HostRuntime,
    path: &str,
    is_new: bool,
    start: T,
) -> Result<Connection<FileStore<FileFrom<T>>>, OpenFault>
    ensures outside { IfOk result (λ conn. conn.in_transaction ≡ false) }
    ensures opened { IfOk result (λ conn. IsCleanAt over_files conn → IsOpened conn) }
    ensures finds { IfOk result (λ conn. IsCleanAt over_files conn
        → FindsIn (image_at T.Start) (file_state conn)) }
    ensures refused { ConnectsOr (image_at T.Start) result }
    ensures cause { IfErr result IsOfOpen }
{
    if is_new {
        make_private(rt, path)?;
    }
    match Connection::open_from(rt, path, false, start) {
        Ok(conn) => Ok(conn),
        Err((error, None)) => Err(unopened_fault(error)),
        Err((error, Some(mut left))) => Err(refusal_of(rt.alloc(), error, &mut left)),
    }
}

/// Opens what was found, and returns its desk and its vault. A new store without any table becomes
/// the relay's, as by `create`; every other is opened as by `reopen`. Each refusal gives the
/// connection back. `is_autocommit` tests that the connection is outside a transaction.
pub fn open<L: Ledger, S: Alter>(
    alloc: Global,
    blank: Blank,
    conn: Connection<S>,
    is_new: bool,
    mark: u64,
) -> Result<(Desk<L>, Vault<S>), (Connection<S>, OpenFault)>
    requires name { blank.name ≡ L.name }
    requires parts { blank.parts ≡ L.parts }
    requires enough { blank.parts ≡ PARTS }
    requires mode { conn.in_transaction ≡ false }
    ensures mark { IfOk result (λ opening. (opening.0.waiting.mark ≡ mark) × (opening.1.mark ≡ mark)) }
    ensures out { IfOk result (λ opening. HasNothingOut opening.0) }
    ensures opened { IfOk result (λ opening. IsCleanAt S.Store opening.1.conn
        → IsFoundOpened S.Store conn opening.0 opening.1) }
    ensures ours { has_meta (state S.Store conn).now.schema ≡ false → MatchResult result
        (λ _. IsNewStore is_new (state S.Store conn).now.schema) (λ back. IsForeign back.1) }
    ensures foreign { has_meta (state S.Store conn).now.schema ≡ false
        → ¬ IsNewStore is_new (state S.Store conn).now.schema
        → IfErr result (λ back. IfClean S.Store conn back.0 (λ _ b. FailsIfOfStore b back.1)) }
    ensures back { has_meta (state S.Store conn).now.schema ≡ false
        → ¬ IsNewStore is_new (state S.Store conn).now.schema → IfErr result (λ back. KeepsOr S.Store conn back.0) }
    ensures whole { ¬ IsNewStore is_new (state S.Store conn).now.schema
        → IfOk result (λ opening. IfClean S.Store conn opening.1.conn
        (λ a _. IsTrue (has_first_tables a.now.schema))) }
    ensures reopens { IfOk result (λ opening. IsCleanAt S.Store opening.1.conn
        → ReopensLeft S.Store conn opening.0 opening.1) }
    ensures refused { IfErr result (λ back. IfClean S.Store conn back.0
        (λ a b. IsOwn a.now.schema → IsUnopened a b back.1)) }
    ensures sound { IfErr result (λ back. IfClean S.Store conn back.0
        (λ a b. HaveHistory a.now → IsReadingRefusal a b back.1)) }
    ensures first { IfErr result (λ back. IfClean S.Store conn back.0
        (λ a b. HaveFirstHistory a.now → IsNotMigrated a b back.1)) }
    ensures made { IsTrue is_new → (state S.Store conn).now.schema ≡ no_schema
        → IfErr result (λ back. IsOfReading back.1 × LeavesOr S.Store conn back.0 back.1) }
    ensures desk { IsNewStore is_new (state S.Store conn).now.schema
        → IfOk result (λ opening. StandsFor opening.0 (opened [] 0)) }
    ensures vault { IsNewStore is_new (state S.Store conn).now.schema
        → IfOk result (λ opening. IsCleanAt S.Store opening.1.conn
        → VaultStandsFor S.Store opening.1 (opened [] 0)) }
    ensures left { ¬ IsNewStore is_new (state S.Store conn).now.schema
        → MatchResult result (λ opening. IfClean S.Store conn opening.1.conn IsOpenBehind)
        (λ back. IfClean S.Store conn back.0 (λ a b. LeavesMigrated a b back.1)) }
    ensures clean { MatchResult result
        (λ opening. IsCleanAt S.Store opening.1.conn → IsCleanAt S.Store conn)
        (λ back. IsCleanAt S.Store back.0 → IsCleanAt S.Store conn) }
    ensures outside { IfErr result (λ back. back.0.in_transaction ≡ false) }
{
    if is_new && is_empty(&conn) {
        return create(alloc, blank, conn, mark);
    }
    match Pool::<L>::new(alloc, blank) {
        Ok(pool) => reopen(alloc, pool, conn, mark),
        Err(_) => Err((conn, OpenFault::OutOfMemory)),
    }
}

// Makes the file where nothing stands at the path. It will hold secrets, so nobody but its owner
// may read it, and its log gets the same rights.
fn make_private(rt: &HostRuntime, path: &str) -> Result<(), OpenFault>
    ensures fault { IfErr result IsOfPath }
{
    match new_file_options().mode(OWNER_ALONE).open(rt, path) {
        Ok(_empty) => Ok(()),
        Err(error) => match error.kind() {
            ErrorKind::AlreadyExists => Ok(()),
            ErrorKind::OutOfMemory => Err(OpenFault::OutOfMemory),
            _ => Err(CANNOT_OPEN),
        },
    }
}

// How a new file is opened. One that another relay has made by then is neither opened nor cut.
fn new_file_options() -> OpenOptions
    ensures { result ≡ with_create_new (with_write new_options true) true }
{
    let mut options = OpenOptions::new();
    options.write(true).create_new(true);
    options
}

// Whether a file of so many bytes is new.
fn is_new_at(length: u64) -> Result<bool, OpenFault>
    ensures short { (result ≡ Err OpenFault.NotOurs) ↔ (0 < length) × (length < 16) }
    ensures fault { IfErr result (λ fault. fault ≡ OpenFault.NotOurs) }
    ensures new { IfOk result (λ is_new. IsTrue is_new ↔ (length ≡ 0)) }
{
    if 0 < length && length < HEADER_LENGTH {
        return Err(OpenFault::NotOurs);
    }
    Ok(length == 0)
}

// How long the file at the path is in bytes, and 0 where nothing stands there. A log that lies
// beside no file holds what somebody's store held, and an open would cut it.
fn length_of(rt: &HostRuntime, path: &str) -> Result<u64, OpenFault>
    ensures fault { IfErr result IsOfPath }
{
    if let Some(length) = length_at(rt, path)? {
        return Ok(length);
    }
    let Ok(log) = format!(in rt.alloc(); "{path}-wal") else {
        return Err(OpenFault::OutOfMemory);
    };
    match length_at(rt, log.as_str())? {
        Some(length) if 0 < length => Err(CANNOT_OPEN),
        _ => Ok(0),
    }
}

// How long the file at the path is in bytes, if one stands there.
fn length_at(rt: &HostRuntime, path: &str) -> Result<Option<u64>, OpenFault>
    ensures fault { IfErr result IsOfPath }
{
    match fs::metadata(rt, path) {
        Ok(found) if found.is_file() => Ok(Some(found.len())),
        Ok(_) => Err(CANNOT_OPEN),
        Err(error) => match error.kind() {
            ErrorKind::NotFound => Ok(None),
            ErrorKind::OutOfMemory => Err(OpenFault::OutOfMemory),
            _ => Err(CANNOT_OPEN),
        },
    }
}

// As what the store's refusal of an open is told, by what it left of the files. If the store was
// read, and its rows break its schema, `meta` tells whose it is.
fn refusal_of<T: Start>(alloc: Global, error: Error, left: &mut Leftover<FileFrom<T>>) -> OpenFault
    ensures rows { IsOfRows result → error ≡ Error.SqliteFailure ErrorCode.NotADatabase }
    ensures unfit { error ≡ Error.SqliteFailure ErrorCode.NotADatabase → IsToldUnfit left.old result }
    ensures told { error ≢ Error.SqliteFailure ErrorCode.NotADatabase → result ≡ unopened_fault error }
    ensures cause { IsTrue (is_open_error error) → IsOfOpen result }
{
    match error {
        Error::SqliteFailure(ErrorCode::NotADatabase) => match left {
            Leftover::Store(store) => OpenFault::from(judge_unsound(store, alloc)),
            _ => OpenFault::NotOurs,
        },
        other => unopened_fault(other),
    }
}

// As what every other refusal of an open is told.
fn unopened_fault(error: Error) -> OpenFault
    ensures { result ≡ unopened_fault error }
{
    match error {
        Error::SqliteFailure(ErrorCode::OutOfMemory) => OpenFault::OutOfMemory,
        other => OpenFault::Store(other),
    }
}
