//! Calls that open a store, or load its books.
ghost use Rattle.std.specs.Prelude.{◌≡◌, false};
ghost use Rattle.permits.specs.declared.pool.TheConstants.{PARTS};

use crate::desks::{MARK, adopted};
use crate::oom::{CallError, RepeatableCall, try_twice};
use crate::opening::opened_at;
use desk::Desk;
use permits::{PARTS, Pool};
use recovery::{create, open, reopen};
use spool::{OpenFault, Vault};
use sqlite::{Alter, Connection};
use std::alloc::Global;
use std::io;
use std::marker::Brand;
use std::sync::ledger::{Blank, Ledger};

#[derive(Clone, Copy)]
pub(crate) enum StoreCall {
    Adopt,
    Create,
    CreateDesk,
    Load,
    Migrate,
    Open,
    Reopen,
}

/// What a relay executed that made tables of version 1.
const FIRST: &str = "CREATE TABLE meta(k INTEGER PRIMARY KEY CHECK(k = 1), app TEXT NOT NULL, \
     version INTEGER NOT NULL, records INTEGER NOT NULL) STRICT; \
     CREATE TABLE endpoints(put INTEGER PRIMARY KEY, name TEXT NOT NULL UNIQUE, \
     url TEXT NOT NULL, max INTEGER NOT NULL, enabled INTEGER NOT NULL, \
     enabled_by INTEGER NOT NULL, secrets_by INTEGER NOT NULL) STRICT; \
     CREATE TABLE secrets(endpoint INTEGER NOT NULL REFERENCES endpoints(put), \
     place INTEGER NOT NULL, secret BLOB NOT NULL, PRIMARY KEY(endpoint, place)) STRICT; \
     CREATE TABLE deliveries(seq INTEGER PRIMARY KEY, \
     endpoint INTEGER NOT NULL REFERENCES endpoints(put), id TEXT NOT NULL, \
     at INTEGER NOT NULL, body BLOB NOT NULL, UNIQUE(endpoint, id)) STRICT; \
     CREATE TABLE attempts(seq INTEGER PRIMARY KEY, \
     delivery INTEGER NOT NULL REFERENCES deliveries(seq), number INTEGER NOT NULL, \
     status INTEGER NOT NULL, at INTEGER NOT NULL, UNIQUE(delivery, number)) STRICT; \
     INSERT INTO meta VALUES(1, 'webhook-relay', 1, 0)";

/// A call, and the connection that it opens, until it was opened.
#[derive(Drop)]
struct Opening<S: Alter + Drop> {
    call: StoreCall,
    conn: Option<Connection<S>>,
}

impl<S: Alter + Drop> RepeatableCall for Opening<S> {
    fn attempt(&mut self, rt: &HostRuntime) -> Result<u64, CallError> {
        let Some(conn) = self.conn.take() else {
            return Err(CallError::Other);
        };
        if !conn.is_autocommit() {
            return Err(CallError::Other);
        }
        match opened(rt.alloc(), self.call, conn) {
            Ok(records) => Ok(records),
            Err((conn, fault)) => {
                self.conn = Some(conn);
                Err(fault.into())
            }
        }
    }

    fn state(&self) -> u64 {
        u64::from(self.conn.is_none())
    }
}

type Back<S> = (Connection<S>, OpenFault);

// How many records the store has that is opened so.
fn opened<S: Alter + Drop>(
    alloc: Global,
    call: StoreCall,
    conn: Connection<S>,
) -> Result<u64, Back<S>>
    requires { conn.in_transaction ≡ false }
{
    match call {
        StoreCall::Adopt => next_of(Vault::adopt(conn, MARK, alloc)),
        StoreCall::Create => next_of(Vault::create(conn, MARK)),
        StoreCall::Migrate => next_of(Vault::migrate(conn, MARK, alloc)),
        _ => desk_over::<Brand, S>(alloc, Blank::new(PARTS), call, conn),
    }
}

fn next_of<S: Alter + Drop>(opened: Result<Vault<S>, Back<S>>) -> Result<u64, Back<S>> {
    Ok(opened?.next())
}

// The same of a desk and a vault.
fn desk_over<L: Ledger, S: Alter + Drop>(
    alloc: Global,
    blank: Blank,
    call: StoreCall,
    conn: Connection<S>,
) -> Result<u64, Back<S>>
    requires name { blank.name ≡ L.name }
    requires parts { blank.parts ≡ L.parts }
    requires enough { blank.parts ≡ PARTS }
    requires mode { conn.in_transaction ≡ false }
{
    match call {
        StoreCall::CreateDesk => records_of(create::<L, S>(alloc, blank, conn, MARK)),
        StoreCall::Open => records_of(open::<L, S>(alloc, blank, conn, false, MARK)),
        _ => match Pool::<L>::new(alloc, blank) {
            Ok(pool) => records_of(reopen::<L, S>(alloc, pool, conn, MARK)),
            Err(_) => Err((conn, OpenFault::OutOfMemory)),
        },
    }
}

fn records_of<L: Ledger, S: Alter + Drop>(
    opened: Result<(Desk<L>, Vault<S>), Back<S>>,
) -> Result<u64, Back<S>> {
    let (desk, _vault) = opened?;
    Ok(desk.records())
}

impl<S: Alter> RepeatableCall for Vault<S> {
    fn attempt(&mut self, rt: &HostRuntime) -> Result<u64, CallError> {
        Ok(self.load(rt.alloc())?.records)
    }

    fn state(&self) -> u64 {
        self.next()
    }
}

// The connection, over a store that has what is to be there before the call: tables of the empty
// history, of version 1 or of today's, or none.
fn prepared<S: Alter + Drop>(call: StoreCall, conn: Connection<S>) -> Option<Connection<S>> {
    match call {
        StoreCall::Create | StoreCall::CreateDesk => Some(conn),
        StoreCall::Migrate => first(conn),
        _ => ours(conn),
    }
}

fn first<S: Alter + Drop>(mut conn: Connection<S>) -> Option<Connection<S>> {
    match conn.execute_batch(FIRST) {
        Ok(()) => Some(conn),
        Err(_) => None,
    }
}

fn ours<S: Alter + Drop>(conn: Connection<S>) -> Option<Connection<S>> {
    if !conn.is_autocommit() {
        return None;
    }
    match Vault::create(conn, MARK) {
        Ok(vault) => Some(vault.release()),
        Err(_) => None,
    }
}

fn try_prepared<S: Alter + Drop>(
    rt: &HostRuntime,
    call: StoreCall,
    conn: Connection<S>,
) -> io::Result<bool> {
    if !matches!(call, StoreCall::Load) {
        let conn = Some(conn);
        return try_twice(rt, &mut Opening { call, conn });
    }
    match adopted(rt.alloc(), conn) {
        Some(mut vault) => try_twice(rt, &mut vault),
        None => Ok(false),
    }
}

/// Makes the call over a store without tables. Whether it was made.
pub(crate) fn try_store<S: Alter + Drop>(
    rt: &HostRuntime,
    call: StoreCall,
    conn: Connection<S>,
) -> io::Result<bool> {
    match prepared(call, conn) {
        Some(conn) => try_prepared(rt, call, conn),
        None => Ok(false),
    }
}

/// The path of a file that is opened.
#[derive(Drop)]
struct Path {
    path: String,
}

impl RepeatableCall for Path {
    fn attempt(&mut self, rt: &HostRuntime) -> Result<u64, CallError> {
        let path = self.path.clone()?;
        Ok(opened_at(rt, path)?.records)
    }
}

/// Opens the file at this path, and again.
pub(crate) fn try_path(rt: &HostRuntime, path: &str) -> io::Result<bool> {
    let path = path.to_string(rt.alloc())?;
    try_twice(rt, &mut Path { path })
}
