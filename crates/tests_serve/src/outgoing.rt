//! The request of a desk's first attempt.
ghost use Rattle.std.specs.Prelude.{◌≡◌};
ghost use Rattle.permits.specs.declared.pool.TheConstants.{PARTS};

use crate::given::{MARK, begin, moment};
use delivery::request_of;
use desk::Desk;
use permits::{Foreign, PARTS, Permit};
use recovery::create;
use relay_types::Moment;
use retry_table::PostResult;
use sqlite::{Alter, Connection, MemStore};
use std::alloc::Global;
use std::marker::Brand;
use std::process::Abort;
use std::sync::ledger::{Blank, Ledger};
use std::test::Fail;
use webhook_request::Outgoing;

fn give_back<L: Ledger, R: Abort>(rt: &R, desk: &mut Desk<L>, permit: Permit<L>, now: Moment) {
    match desk.spend(permit, PostResult::Unsent, now) {
        Ok(_) => {}
        Err((_permit, Foreign)) => panic!(rt; "the permit was refused"),
    }
}

// Claims the event's attempt, and gives it back.
fn claimed<L: Ledger, R: Abort>(
    rt: &R,
    alloc: Global,
    desk: &mut Desk<L>,
) -> Result<Outgoing, Fail> {
    let now = moment()?;
    let Ok(Some(job)) = desk.claim(now) else {
        return Err(Fail::from("nothing is due"));
    };
    let built = request_of(alloc, job.post());
    give_back(rt, desk, job.into_permit(), now);
    Ok(built?)
}

// The request of an event for a subscriber at this URL, over a store without tables.
fn request_over<L, S, R>(
    rt: &R,
    alloc: Global,
    blank: Blank,
    conn: Connection<S>,
    url: String,
) -> Result<Outgoing, Fail>
where
    L: Ledger,
    S: Alter + Drop,
    R: Abort,
    requires name { blank.name ≡ L.name }
    requires parts { blank.parts ≡ L.parts }
    requires enough { blank.parts ≡ PARTS }
{
    if !conn.is_autocommit() {
        return Err(Fail::from("the store is in a transaction"));
    }
    let Ok((mut desk, mut vault)) = create::<L, S>(alloc, blank, conn, MARK) else {
        return Err(Fail::from("the store wasn't made"));
    };
    match begin(rt, alloc, &mut desk, &mut vault, url.as_str()) {
        Ok(()) => claimed(rt, alloc, &mut desk),
        Err(fail) => Err(fail),
    }
}

/// The request of an event for a subscriber at this host and port.
pub(crate) fn request_to<R: Abort>(
    rt: &R,
    alloc: Global,
    host: &str,
    port: u16,
) -> Result<Outgoing, Fail> {
    let url = format!(in alloc; "http://{host}:{port}/hook")?;
    let conn = Connection::open_in_memory(alloc)?;
    request_over::<Brand, MemStore, R>(rt, alloc, Blank::new(PARTS), conn, url)
}
