//! The pages of a desk, which show nothing that waits.
ghost use Rattle.std.specs.Prelude.{◌≡◌};

use crate::asks::{ask, is_reply};
use desk::{Desk, Job};
use group_commit::WrongTurn;
use intake_shed::{Asked, Reply, page_reply};
use permits::{Foreign, PARTS};
use relay_types::Moment;
use retry_table::{PostResult, Status};
use spool::{Batch, Receipt, Vault};
use sqlite::{Alter, Connection, MemStore};
use std::alloc::Global;
use std::marker::Brand;
use std::process::Abort;
use std::sync::ledger::{Blank, Ledger};
use std::test::Fail;

/// What is done to a desk, or the reply to a request for a page.
#[derive(Clone, Copy)]
enum Step {
    /// A change of an endpoint: the path and the body.
    Change(&'static [u8], &'static [u8]),
    /// An event of this moment: the path, the id and the body.
    Post(u64, &'static [u8], &'static [u8], &'static [u8]),
    /// What waits is sealed, committed and settled.
    Settle,
    /// An attempt at this moment, which is answered by this status.
    Attempt(u64, u16),
    /// The reply to a request for the page of this path: its status and its text.
    Page(&'static [u8], u16, &'static [u8]),
}

const PUT: Step = Step::Change(
    b"/v1/endpoints/a",
    b"{\"max\":100,\"secrets\":[\"whsec_MDAwMDAwMDAwMDAwMDAwMDAwMDAwMDAwMDAwMDAwMDA=\"],\
        \"url\":\"http://127.0.0.1:9000/hook\"}",
);

const POST: Step = Step::Post(1000, b"/v1/endpoints/a/events", b"msg_1", b"{}");

const UNKNOWN_ENDPOINT: &[u8] = b"{\"error\":\"UnknownEndpoint\"}";

const UNKNOWN_EVENT: &[u8] = b"{\"error\":\"UnknownEvent\"}";

const ENDPOINT: &[u8] =
    b"{\"delivered\":0,\"enabled\":true,\"exhausted\":0,\"max\":100,\"name\":\"a\",\
    \"pending\":1,\"secrets\":1,\"url\":\"http://127.0.0.1:9000/hook\"}";

static WAITING: [Step; 5] = [
    PUT,
    POST,
    Step::Page(
        b"/v1/status",
        200,
        b"{\"delivered\":0,\"endpoints\":0,\"exhausted\":0,\"pending\":0,\"records\":0}",
    ),
    Step::Page(b"/v1/endpoints/a", 404, UNKNOWN_ENDPOINT),
    Step::Page(b"/v1/endpoints/a/events/msg_1", 404, UNKNOWN_ENDPOINT),
];

#[test]
fn nothing_that_waits_has_a_page(rt: HostRuntime) -> Result<(), Fail> {
    walk(&rt, rt.alloc(), &WAITING)
}

// The attempt that ended waits.
static SETTLED: [Step; 10] = [
    PUT,
    POST,
    Step::Settle,
    Step::Attempt(1001, 500),
    Step::Page(
        b"/v1/status",
        200,
        b"{\"delivered\":0,\"endpoints\":1,\"exhausted\":0,\"pending\":1,\"records\":2}",
    ),
    Step::Page(b"/v1/endpoints/a", 200, ENDPOINT),
    Step::Page(b"/v1/endpoints/b", 404, UNKNOWN_ENDPOINT),
    Step::Page(
        b"/v1/endpoints/a/events/msg_1",
        200,
        b"{\"at\":1000,\"attempts\":0,\"due\":1000,\"endpoint\":\"a\",\"id\":\"msg_1\",\
            \"last_status\":null,\"state\":\"pending\"}",
    ),
    Step::Page(b"/v1/endpoints/a/events/msg_2", 404, UNKNOWN_EVENT),
    Step::Page(b"/v1/endpoints/b/events/msg_1", 404, UNKNOWN_ENDPOINT),
];

#[test]
fn what_is_settled_has_its_pages(rt: HostRuntime) -> Result<(), Fail> {
    walk(&rt, rt.alloc(), &SETTLED)
}

static FAILED: [Step; 7] = [
    PUT,
    POST,
    Step::Settle,
    Step::Attempt(1001, 500),
    Step::Settle,
    Step::Page(b"/v1/endpoints/a", 200, ENDPOINT),
    Step::Page(
        b"/v1/endpoints/a/events/msg_1",
        200,
        b"{\"at\":1000,\"attempts\":1,\"due\":1006,\"endpoint\":\"a\",\"id\":\"msg_1\",\
            \"last_status\":500,\"state\":\"pending\"}",
    ),
];

#[test]
fn a_settled_failure_is_shown(rt: HostRuntime) -> Result<(), Fail> {
    walk(&rt, rt.alloc(), &FAILED)
}

const MARK: u64 = 7;

fn change<L: Ledger>(
    alloc: Global,
    desk: &mut Desk<L>,
    path: &[u8],
    body: &[u8],
) -> Result<bool, Fail> {
    match ask(alloc, b"PUT", path, &[], body)? {
        Ok(Asked::Change(command)) => Ok(desk.command(command).is_ok()),
        _ => Ok(false),
    }
}

fn post<L: Ledger>(
    alloc: Global,
    desk: &mut Desk<L>,
    at: Moment,
    path: &[u8],
    id: &[u8],
    body: &[u8],
) -> Result<bool, Fail> {
    match &ask(alloc, b"POST", path, &[id], body)? {
        Ok(Asked::Post { name, id, body }) => {
            Ok(desk.submit(at, *name, *id, body.share()?).is_ok())
        }
        _ => Ok(false),
    }
}

fn created<S: Alter + Drop>(rt: &impl Abort, conn: Connection<S>) -> Vault<S> {
    assert!(rt; conn.is_autocommit());
    match Vault::create(conn, MARK) {
        Ok(vault) => vault,
        Err(_) => panic!(rt; "create was refused"),
    }
}

fn written<S: Alter>(rt: &impl Abort, vault: &mut Vault<S>, batch: Batch) -> Receipt {
    match vault.commit(batch) {
        Ok(receipt) => receipt,
        Err(_end) => panic!(rt; "the commit was refused"),
    }
}

fn settle<L: Ledger, S: Alter>(rt: &impl Abort, desk: &mut Desk<L>, vault: &mut Vault<S>) -> bool {
    let Ok(Some(batch)) = desk.seal() else {
        return false;
    };
    match desk.settle(written(rt, vault, batch)) {
        Ok(_) => true,
        Err((_receipt, WrongTurn)) => panic!(rt; "the receipt was refused"),
    }
}

fn claim<L: Ledger>(rt: &impl Abort, desk: &mut Desk<L>, at: Moment) -> Job<L> {
    match desk.claim(at) {
        Ok(Some(job)) => job,
        _ => panic!(rt; "no job"),
    }
}

fn attempt<L: Ledger>(rt: &impl Abort, desk: &mut Desk<L>, at: Moment, status: Status) -> bool {
    let job = claim(rt, desk, at);
    let post = PostResult::Answered {
        status,
        rtt: 100_000,
    };
    match desk.spend(job.into_permit(), post, at) {
        Ok(_) => true,
        Err((permit, Foreign)) => panic!(rt; "{} is foreign", permit.delivery()),
    }
}

fn status_of(number: u16) -> Result<Status, Fail> {
    match Status::of(number) {
        Some(status) => Ok(status),
        None => Err(Fail::from("no status")),
    }
}

fn reply_of<L: Ledger>(alloc: Global, desk: &Desk<L>, asked: &Asked) -> Option<Reply> {
    if asked.asks_for_page() {
        Some(page_reply(alloc, desk, asked))
    } else {
        None
    }
}

fn shows<L: Ledger>(
    alloc: Global,
    desk: &Desk<L>,
    path: &[u8],
    status: u16,
    text: &[u8],
) -> Result<bool, Fail> {
    match &ask(alloc, b"GET", path, &[], b"")? {
        Ok(asked) => match reply_of(alloc, desk, asked) {
            Some(reply) => Ok(is_reply(&reply, status, false, text)),
            None => Ok(false),
        },
        Err(_) => Ok(false),
    }
}

fn is_so<L: Ledger, S: Alter>(
    rt: &impl Abort,
    alloc: Global,
    desk: &mut Desk<L>,
    vault: &mut Vault<S>,
    step: Step,
) -> Result<bool, Fail> {
    match step {
        Step::Change(path, body) => change(alloc, desk, path, body),
        Step::Post(at, path, id, body) => post(alloc, desk, Moment::of(at)?, path, id, body),
        Step::Settle => Ok(settle(rt, desk, vault)),
        Step::Attempt(at, status) => { Ok(attempt(rt, desk, Moment::of(at)?, status_of(status)?)) }
        Step::Page(path, status, text) => shows(alloc, desk, path, status, text),
    }
}

fn take<L: Ledger, S: Alter>(
    rt: &impl Abort,
    alloc: Global,
    desk: &mut Desk<L>,
    vault: &mut Vault<S>,
    steps: &[Step],
) -> Result<(), Fail> {
    for (place, step) in steps.iter().enumerate() {
        let is = is_so(rt, alloc, desk, vault, *step)?;
        assert!(rt; is, "step {place}");
    }
    Ok(())
}

fn begin<L: Ledger, S: Alter>(
    rt: &impl Abort,
    alloc: Global,
    blank: Blank,
    vault: &mut Vault<S>,
    steps: &[Step],
) -> Result<(), Fail>
    requires name { blank.name ≡ L.name }
    requires parts { blank.parts ≡ L.parts }
    requires enough { blank.parts ≡ PARTS }
{
    let mut desk = Desk::<L>::new(alloc, blank, MARK)?;
    take(rt, alloc, &mut desk, vault, steps)
}

fn walk_over<S: Alter + Drop>(
    rt: &impl Abort,
    alloc: Global,
    conn: Connection<S>,
    steps: &[Step],
) -> Result<(), Fail> {
    let mut vault = created(rt, conn);
    begin::<Brand, S>(rt, alloc, Blank::new(PARTS), &mut vault, steps)
}

/// Takes the steps in turn, with a new desk and a new vault.
fn walk(rt: &impl Abort, alloc: Global, steps: &[Step]) -> Result<(), Fail> {
    walk_over::<MemStore>(rt, alloc, Connection::open_in_memory(alloc)?, steps)
}
