//! The two files of a store, in memory: they stop taking calls, and the machine crashes.
ghost use Rattle.std.specs.Prelude.{IsTrue};

use sqlite::{Alter, Connection, FileStore, Files, Options};
use sqlite_disk::{Crash, Disk, Fuse, Memory};
use std::alloc::Global;
use std::process::Abort;

/// New files, of which the log and the database take so many calls.
pub(crate) fn fused(alloc: Global, log: u64, db: u64) -> Files<Fuse<Memory>>
    ensures log { IsTrue (⟦<Fuse<Memory> as Disk>⟧.is_usable result.log) }
    ensures db { IsTrue (⟦<Fuse<Memory> as Disk>⟧.is_usable result.db) }
{
    Files {
        log: Fuse::new(Memory::new(alloc), log),
        db: Fuse::new(Memory::new(alloc), db),
    }
}

fn store_of<S: Alter + Drop>(conn: Connection<S>) -> S {
    conn.into_store()
}

/// What is in the files of the store after a crash.
pub(crate) fn crashed<D: Crash + Drop>(conn: Connection<FileStore<D>>) -> Files<D>
    ensures log { IsTrue (D.Disk.is_usable result.log) }
    ensures db { IsTrue (D.Disk.is_usable result.db) }
{
    let Files { mut log, mut db } = store_of(conn).close();
    log.crash();
    db.crash();
    Files { log, db }
}

/// The store in these files, if it opens.
pub(crate) fn opened<D: Disk + Drop>(
    alloc: Global,
    files: Files<D>,
) -> Option<Connection<FileStore<D>>>
    requires log { IsTrue (D.Disk.is_usable files.log) }
    requires db { IsTrue (D.Disk.is_usable files.db) }
{
    Connection::open_files(alloc, files, Options::new(7)).ok()
}

/// The store that is there once the machine comes back.
pub(crate) fn come_back<D: Crash + Drop>(
    rt: &impl Abort,
    alloc: Global,
    conn: Connection<FileStore<D>>,
) -> Connection<FileStore<D>> {
    match opened(alloc, crashed(conn)) {
        Some(conn) => conn,
        None => panic!(rt; "the store was not opened again"),
    }
}
