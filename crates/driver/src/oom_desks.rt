//! Calls over a desk with an endpoint and an event that is settled and due.
ghost use Rattle.std.specs.Prelude.{◌≡◌, ⊤, List};
ghost use Rattle.permits.specs.declared.pool.TheConstants.{PARTS};
ghost use Rattle.relay_types.specs.declared.record.Record.{Record};

use crate::desks::{commit_waiting, created};
use crate::failed::Failed;
use crate::given::{FixedValues, body_of, target_of, values};
use crate::oom::{CallError, RepeatableCall, try_twice};
use crate::oom_replies::reply_told;
use delivery::{Clock, Pass, Round, Shared, request_of, worker_round};
use desk::{Command, Desk, Post};
use intake_shed::{Ask, AskBody, Asked, answer, page_reply};
use permits::{Foreign, PARTS};
use recovery::{AuditFault, audit};
use relay_types::Moment;
use retry_table::{PostResult, Status};
use run_log::{LogId, NewLog};
use spool::Vault;
use sqlite::{Alter, Connection};
use status::{endpoint_text, event_text, totals_text};
use std::alloc::Global;
use std::io;
use std::marker::Brand;
use std::sync::Wait;
use std::sync::ledger::{Blank, Ledger};
use webhook_request::{Outgoing, Poster};

/// A call over a desk.
#[derive(Clone, Copy)]
pub(crate) enum DeskCall {
    Audit,
    Build,
    Page(PageCall),
    Shared(SharedCall),
}

/// A call that shows a page.
#[derive(Clone, Copy)]
pub(crate) enum PageCall {
    Endpoint,
    EndpointText,
    Event,
    EventText,
    Totals,
    TotalsText,
}

/// A call of a thread that shares the desk.
#[derive(Clone, Copy)]
pub(crate) enum SharedCall {
    GetEndpoint,
    GetEvent,
    GetStatus,
    Post,
    Publish,
    Round,
}

#[derive(Drop)]
struct Pages<'a, L: Ledger> {
    call: PageCall,
    desk: &'a Desk<L>,
    given: FixedValues,
}

impl<L: Ledger> RepeatableCall for Pages<'_, L> {
    fn attempt(&mut self, rt: &HostRuntime) -> Result<u64, CallError> {
        let (alloc, name, id) = (rt.alloc(), self.given.name, self.given.id);
        match self.call {
            PageCall::Endpoint => page_told(alloc, self.desk, Asked::Endpoint(name)),
            PageCall::EndpointText => match self.desk.endpoint_page(name) {
                Some(page) => Ok(endpoint_text(alloc, &page)?.len() as u64),
                None => Err(CallError::Other),
            },
            PageCall::Event => page_told(alloc, self.desk, Asked::Event(name, id)),
            PageCall::EventText => match self.desk.event_page(name, &id) {
                Some(row) => Ok(event_text(alloc, &row)?.len() as u64),
                None => Err(CallError::Other),
            },
            PageCall::Totals => page_told(alloc, self.desk, Asked::Totals),
            PageCall::TotalsText => Ok(totals_text(alloc, &self.desk.totals())?.len() as u64),
        }
    }

    fn state(&self) -> u64 {
        self.desk.records()
    }
}

fn page_told<L: Ledger>(alloc: Global, desk: &Desk<L>, asked: Asked) -> Result<u64, CallError> {
    if !asked.asks_for_page() {
        return Err(CallError::Other);
    }
    reply_told(&page_reply(alloc, desk, &asked))
}

/// An audit of the vault against the desk.
#[derive(Drop)]
struct Audit<'v, 'd, L: Ledger, S: Alter> {
    vault: &'v mut Vault<S>,
    desk: &'d Desk<L>,
}

impl<L: Ledger, S: Alter> RepeatableCall for Audit<'_, '_, L, S> {
    fn attempt(&mut self, rt: &HostRuntime) -> Result<u64, CallError> {
        match audit(rt.alloc(), self.vault, self.desk) {
            Ok(()) => Ok(self.vault.next()),
            Err(AuditFault::OutOfMemory) => Err(CallError::NoMemory),
            Err(_) => Err(CallError::Other),
        }
    }

    fn state(&self) -> u64 {
        self.desk.records()
    }
}

/// A clock that stands.
#[derive(Clone, Copy)]
struct Standing(Moment);

impl Clock for Standing {
    fn now(&self) -> Moment {
        self.0
    }
}

/// Answers 200 at once.
#[derive(Clone, Copy)]
struct Answering;

impl Poster for Answering {
    ghost may_answer = { λ _ _ _. ⊤ };

    fn post(&self, _: &Outgoing) -> PostResult {
        match Status::of(200) {
            Some(status) => PostResult::Answered {
                status,
                rtt: 100_000,
            },
            None => PostResult::Unsent,
        }
    }
}

/// A thread that shares the desk.
#[derive(Drop)]
struct Sharer<'w, 's, L: Ledger, I: LogId, R: Wait> {
    wait: &'w R,
    call: SharedCall,
    shared: &'s Shared<L, I>,
    given: FixedValues,
    pass: Pass,
}

impl<L: Ledger, I: LogId, R: Wait> RepeatableCall for Sharer<'_, '_, L, I, R> {
    fn attempt(&mut self, rt: &HostRuntime) -> Result<u64, CallError> {
        let alloc = rt.alloc();
        match self.call {
            SharedCall::GetEndpoint => self.ask(alloc, b"GET", b"/v1/endpoints/a", &[]),
            SharedCall::GetEvent => self.ask(alloc, b"GET", b"/v1/endpoints/a/events/msg_1", &[]),
            SharedCall::GetStatus => self.ask(alloc, b"GET", b"/v1/status", &[]),
            SharedCall::Post => self.ask(alloc, b"POST", b"/v1/endpoints/a/events", &[b"msg_1"]),
            SharedCall::Publish => self.ask(alloc, b"POST", b"/v1/topics/a/events", &[b"msg_1"]),
            SharedCall::Round => self.work(alloc),
        }
    }

    // How many records there are, and a thousand for each attempt under way.
    fn state(&self) -> u64 {
        let Ok(locked) = self.shared.look(self.wait, &mut Pass::new()) else {
            return 0;
        };
        let under_way = match locked.desk().limits(self.given.name) {
            Some(limits) => u64::from(limits.in_flight),
            None => 0,
        };
        locked
            .desk()
            .records()
            .saturating_add(under_way.saturating_mul(1000))
    }
}

impl<L: Ledger, I: LogId, R: Wait> Sharer<'_, '_, L, I, R> {
    fn ask<'x>(
        &mut self,
        alloc: Global,
        method: &'x [u8],
        path: &'x [u8],
        ids: &'x [&'x [u8]],
    ) -> Result<u64, CallError> {
        let ask = Ask {
            method,
            path,
            ids,
            body: AskBody::Whole(b"{}"),
        };
        let (id, at) = (self.given.id, self.given.at);
        let answered = answer(self.wait, alloc, self.shared, &ask, id, at, &mut self.pass);
        reply_told(&answered.reply)
    }

    fn work(&mut self, alloc: Global) -> Result<u64, CallError> {
        let clock = Standing(self.given.at);
        let pass = &mut self.pass;
        match worker_round(self.wait, alloc, self.shared, &Answering, &clock, pass) {
            Round::Posted { .. } => Ok(1),
            Round::Idle => Ok(0),
            Round::NoMemory => Err(CallError::NoMemory),
            _ => Err(CallError::Other),
        }
    }
}

/// The request of an attempt.
#[derive(Drop)]
struct Building<'a> {
    post: &'a Post,
}

impl RepeatableCall for Building<'_> {
    fn attempt(&mut self, rt: &HostRuntime) -> Result<u64, CallError> {
        match request_of(rt.alloc(), self.post) {
            Ok(outgoing) => Ok(u64::from(outgoing.port())),
            Err(_) => Err(CallError::NoMemory),
        }
    }

    fn state(&self) -> u64 {
        self.post.attempt()
    }
}

// Builds the request of the event's attempt, and takes it back unsent.
#[tactic(auto, using(desk::proofs::RowLaws::given_out))]
fn build<L: Ledger>(rt: &HostRuntime, desk: &mut Desk<L>, now: Moment) -> io::Result<bool> {
    let Ok(Some(job)) = desk.claim(now) else {
        return Ok(false);
    };
    let ended = try_twice(rt, &mut Building { post: job.post() });
    match desk.spend(job.into_permit(), PostResult::Unsent, now) {
        Ok(_) => ended,
        Err((_permit, Foreign)) => unreachable!(),
    }
}

// A call of a thread that shares the desk, in a run without a committer.
fn share<L: Ledger, R: Wait>(
    rt: &HostRuntime,
    wait: &R,
    call: SharedCall,
    desk: Desk<L>,
    given: FixedValues,
) -> io::Result<bool> {
    match (NewLog::new(rt.alloc()), NewLog::new(rt.alloc())) {
        (Ok(new_log), Ok(new_staged)) => {
            share_named::<L, Brand, R>(rt, wait, call, new_log, new_staged, desk, given)
        }
        _ => Ok(false),
    }
}

// The same with a log of this id, of which nothing is proved.
fn share_named<L: Ledger, I: LogId, R: Wait>(
    rt: &HostRuntime,
    wait: &R,
    call: SharedCall,
    new_log: NewLog,
    new_staged: NewLog,
    desk: Desk<L>,
    given: FixedValues,
) -> io::Result<bool>
    requires table { new_log ≡ I.table }
    requires staged { new_staged ≡ I.staged }
    requires no_base { (base : List Record) → I.is_base base → ⊥ }
{
    let (log, mut writer) = new_log.named::<I>();
    let prefix = writer.prefix(&log);
    let shared = Shared::new(log, new_staged, desk, prefix);
    try_twice(
        rt,
        &mut Sharer {
            wait,
            call,
            shared: &shared,
            given,
            pass: Pass::new(),
        },
    )
}

// An endpoint, subscribed to a topic of its name, and an event.
fn stage<L: Ledger>(alloc: Global, desk: &mut Desk<L>, given: &FixedValues) -> Result<(), Failed> {
    let name = given.name;
    desk.command(Command::PutEndpoint {
        name,
        target: target_of(alloc)?,
        max: given.max,
        secrets: given.secrets,
    })?;
    desk.command(Command::SetSubscribed {
        topic: name,
        name,
        flag: true,
    })?;
    desk.submit(given.at, name, given.id, body_of(alloc)?)?;
    Ok(())
}

// These are committed and settled.
fn fill_desk<L: Ledger, S: Alter>(
    alloc: Global,
    desk: &mut Desk<L>,
    vault: &mut Vault<S>,
    given: &FixedValues,
) -> bool {
    stage(alloc, desk, given).is_ok() && commit_waiting(desk, vault) && desk.settled_records() == 3
}

fn with_desk<L: Ledger, S: Alter, R: Wait>(
    rt: &HostRuntime,
    wait: &R,
    call: DeskCall,
    mut desk: Desk<L>,
    vault: &mut Vault<S>,
    given: FixedValues,
) -> io::Result<bool> {
    if !fill_desk(rt.alloc(), &mut desk, vault, &given) {
        return Ok(false);
    }
    match call {
        DeskCall::Audit => try_twice(rt, &mut Audit { vault, desk: &desk }),
        DeskCall::Build => build(rt, &mut desk, given.at),
        DeskCall::Page(call) => try_twice(
            rt,
            &mut Pages {
                call,
                desk: &desk,
                given,
            },
        ),
        DeskCall::Shared(call) => share(rt, wait, call, desk, given),
    }
}

fn with_blank<L: Ledger, S: Alter + Drop, R: Wait>(
    rt: &HostRuntime,
    wait: &R,
    blank: Blank,
    call: DeskCall,
    conn: Connection<S>,
    given: FixedValues,
) -> io::Result<bool>
    requires name { blank.name ≡ L.name }
    requires parts { blank.parts ≡ L.parts }
    requires enough { blank.parts ≡ PARTS }
{
    match created::<L, S>(rt.alloc(), blank, conn) {
        Some((desk, mut vault)) => with_desk(rt, wait, call, desk, &mut vault, given),
        None => Ok(false),
    }
}

/// Makes the call over a desk and a store without tables. Whether it was made.
pub(crate) fn try_desk<S: Alter + Drop, R: Wait>(
    rt: &HostRuntime,
    wait: &R,
    call: DeskCall,
    conn: Connection<S>,
) -> io::Result<bool> {
    match values() {
        Ok(given) => with_blank::<Brand, S, R>(rt, wait, Blank::new(PARTS), call, conn, given),
        Err(Failed) => Ok(false),
    }
}
