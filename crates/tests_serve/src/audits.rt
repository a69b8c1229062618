//! The audit at the end of a relay, over loopback.
ghost use Rattle.std.specs.Prelude.{◌≡◌};
ghost use Rattle.permits.specs.declared.pool.TheConstants.{PARTS};

use crate::given::{Host, MARK, begin, holds};
use crate::requests::InMemory;
use crate::wires::exchange;
use command_interface::Settings;
use desk::Desk;
use permits::PARTS;
use recovery::{AuditFault, create};
use relay_serve::{ServeFault, serve_opened};
use spool::Vault;
use sqlite::{Alter, Connection, MemStore};
use std::alloc::{AllocError, Global};
use std::io::Eprint;
use std::marker::Brand;
use std::net::{Ipv4Addr, SocketAddr, TcpListener};
use std::process::Abort;
use std::sync::ledger::{Blank, Ledger};
use std::test::Fail;
use std::thread;

const PAGE: &str = "GET /v1/status HTTP/1.1\r\nhost: relay\r\ncontent-length: 0\r\n\r\n";

// Nobody posts, so nothing is staged.
static SETTINGS: Settings = Settings {
    workers: 0,
    intake: 1,
    timeout: 5,
    requests: 1,
};

// The desk of a store with an endpoint and an event.
fn used_desk<L: Ledger, S: Alter + Drop>(
    rt: &impl Abort,
    alloc: Global,
    blank: Blank,
    conn: Connection<S>,
) -> Result<Desk<L>, Fail>
    requires name { blank.name ≡ L.name }
    requires parts { blank.parts ≡ L.parts }
    requires enough { blank.parts ≡ PARTS }
{
    if !conn.is_autocommit() {
        return Err(Fail::from("the store is in a transaction"));
    }
    let Ok((mut desk, mut vault)) = create::<L, S>(alloc, blank, conn, MARK) else {
        return Err(Fail::from("the store wasn't made"));
    };
    let url = "http://127.0.0.1:9000/hook";
    match begin(rt, alloc, &mut desk, &mut vault, url) {
        Ok(()) => Ok(desk),
        Err(fail) => Err(fail),
    }
}

// The vault of an empty store.
fn empty_vault<S: Alter + Drop>(conn: Connection<S>) -> Result<Vault<S>, Fail> {
    if !conn.is_autocommit() {
        return Err(Fail::from("the other store is in a transaction"));
    }
    match Vault::create(conn, MARK) {
        Ok(vault) => Ok(vault),
        Err(_) => Err(Fail::from("the other store wasn't made")),
    }
}

// Whether a relay with this desk and this vault ends with a mismatch, after one page.
fn ends_with_mismatch<L, S, R>(
    rt: &R,
    alloc: Global,
    listener: &TcpListener,
    relay: SocketAddr,
    desk: Desk<L>,
    vault: Vault<S>,
) -> bool
where
    L: Ledger + Send + Sync,
    S: Alter + Drop + Send,
    R: Host + Eprint,
{
    let (is_mismatch, page) = thread::join(
        rt,
        move || {
            let (_vault, ended, _acknowledged) = serve_opened(
                rt, listener, relay, desk, vault, InMemory, SETTINGS,
            );
            matches!(ended, Err(ServeFault::Audit(AuditFault::Mismatch)))
        },
        move || exchange(rt, alloc, relay, PAGE.as_bytes(), false),
    );
    holds(rt, page.is_ok(), "the page is asked for");
    is_mismatch
}

fn over<L, S, R>(
    rt: &R,
    alloc: Global,
    blank: Blank,
    conn: Result<Connection<S>, AllocError>,
    other: Result<Connection<S>, AllocError>,
    listener: &TcpListener,
) -> Result<(), Fail>
where
    L: Ledger + Send + Sync,
    S: Alter + Drop + Send,
    R: Host + Eprint,
    requires name { blank.name ≡ L.name }
    requires parts { blank.parts ≡ L.parts }
    requires enough { blank.parts ≡ PARTS }
{
    let (Ok(conn), Ok(other), Ok(relay)) = (conn, other, listener.local_addr()) else {
        return Err(Fail::from("a store or a listener wasn't opened"));
    };
    let vault = empty_vault(other)?;
    match used_desk::<L, S>(rt, alloc, blank, conn) {
        Ok(desk) => {
            let is_mismatch = ends_with_mismatch(rt, alloc, listener, relay, desk, vault);
            holds(
                rt,
                is_mismatch,
                "the rows tell of something else than the desk",
            );
            Ok(())
        }
        Err(fail) => Err(fail),
    }
}

#[test]
fn a_desk_of_another_store_is_a_mismatch_at_the_end(rt: HostRuntime) -> Result<(), Fail> {
    let listener = TcpListener::bind(&rt, (Ipv4Addr::LOCALHOST, 0))?;
    let conn = Connection::open_in_memory(rt.alloc());
    let other = Connection::open_in_memory(rt.alloc());
    over::<Brand, MemStore, HostRuntime>(&rt, rt.alloc(), Blank::new(PARTS), conn, other, &listener)
}
