//! A pool that two threads share.
ghost use Rattle.std.specs.Prelude.{◌≡◌};

use crate::cases::name;
use crate::pool::{put, shut};
use permits::{PARTS, Pool, Refused, Row};
use relay_types::Name;
use std::alloc::Global;
use std::marker::Brand;
use std::process::Abort;
use std::sync::ledger::{Blank, Ledger};
use std::sync::{Mutex, Wait};
use std::test::Fail;
use std::thread;
use std::thread::Threads;

// Waits until the endpoint is below its limit of one, holds the permit with the lock free, and gives it back.
fn deliver<L: Ledger, R: Wait + Abort>(
    rt: &R,
    pool: &Mutex<Pool<L>>,
    endpoint: Name,
    delivery: u64,
) -> Row {
    for _ in rt.forever() {
        let answer = pool.lock(rt).acquire(endpoint, delivery, 1);
        match answer {
            Ok(permit) => return put(rt, &mut *pool.lock(rt), permit),
            Err(Refused::AtLimit) => {}
            Err(refused) => panic!(rt; "{delivery}: {refused}"),
        }
    }
    unreachable!()
}

fn work<L: Ledger, R: Wait + Abort>(rt: &R, pool: &Mutex<Pool<L>>, first: u64, last: u64) {
    let endpoint = name(rt, b"a");
    for delivery in first..last {
        let returned = deliver(rt, pool, endpoint, delivery);
        assert!(rt;
            returned.delivery == delivery && returned.inflight == 1,
            "{delivery}"
        );
    }
}

fn share<L: Ledger + Send + Sync, R: Threads + Wait + Abort + Sync>(
    rt: &R,
    alloc: Global,
    blank: Blank,
) -> Result<(), Fail>
    requires name { blank.name ≡ L.name }
    requires parts { blank.parts ≡ L.parts }
    requires enough { blank.parts ≡ PARTS }
{
    let shared = Mutex::new(Pool::<L>::new(alloc, blank)?);
    let pool = &shared;
    let (_, _) = thread::join(
        rt,
        move || work(rt, pool, 0, 5_000),
        move || work(rt, pool, 5_000, 10_000),
    );
    shut(rt, shared.into_inner());
    Ok(())
}

#[test]
fn two_threads_share_a_pool(rt: HostRuntime) -> Result<(), Fail> {
    share::<Brand, _>(&rt, rt.alloc(), Blank::new(PARTS))
}
