//! Calls that take memory, for `scripts/memory calls`, which has the table of what each must tell.
//! A call is made twice, each time at a byte of standard input, so that the script knows which
//! requests for memory are the call's own.
use crate::failed::Failed;
use crate::given::values;
use crate::oom_books::{BookCall, try_book};
use crate::oom_desks::{DeskCall, PageCall, SharedCall};
use crate::oom_makes::{MakeCall, try_make};
use crate::oom_replies::{ReplyCall, try_reply};
use crate::oom_shares::{ShareCall, try_share};
use crate::oom_stores::{StoreCall, try_path};
use crate::oom_texts::{TextCall, try_text};
use crate::stores::{Run, run_in_memory};
use relay_types::ReadFault;
use spool::{LoadFault, OpenFault};
use std::alloc::AllocError;
use std::fmt;
use std::io::{self, Read};
use std::sync::Wait;
use text_lines::{StreamFault, WordFault};

/// A call that takes memory, by what it works on.
#[derive(Clone, Copy)]
enum Call {
    Book(BookCall),
    Desk(DeskCall),
    Make(MakeCall),
    Reply(ReplyCall),
    Share(ShareCall),
    Store(StoreCall),
    Text(TextCall),
}

static CALLS: &[(&str, Call)] = &[
    ("accepted_reply", Call::Reply(ReplyCall::Accepted)),
    ("change_reply", Call::Reply(ReplyCall::Change)),
    ("published_reply", Call::Reply(ReplyCall::Published)),
    ("read_ask POST", Call::Reply(ReplyCall::AskPost)),
    ("read_ask PUT", Call::Reply(ReplyCall::AskPut)),
    ("read_line", Call::Text(TextCall::Line)),
    ("read_call", Call::Text(TextCall::Call)),
    ("Secret::write", Call::Text(TextCall::SecretWrite)),
    ("Target::read", Call::Text(TextCall::TargetRead)),
    ("Lines::advance", Call::Text(TextCall::LinesAdvance)),
    ("Lines::new", Call::Text(TextCall::LinesNew)),
    ("read_body", Call::Text(TextCall::ReadBody)),
    ("readers", Call::Text(TextCall::Readers)),
    ("read_secrets", Call::Text(TextCall::ReadSecrets)),
    ("secrets_of", Call::Text(TextCall::SecretsOf)),
    ("split", Call::Text(TextCall::Split)),
    ("write_line", Call::Text(TextCall::WriteLine)),
    ("RowNumbers::are_sound", Call::Share(ShareCall::AreSound)),
    ("signature_header", Call::Share(ShareCall::Header)),
    ("Body::share", Call::Share(ShareCall::Body)),
    ("script_lines Call::share", Call::Share(ShareCall::Call)),
    ("drill Event::share", Call::Share(ShareCall::Event)),
    ("Record::share", Call::Share(ShareCall::Record)),
    ("Step::event", Call::Share(ShareCall::StepEvent)),
    ("Step::share", Call::Share(ShareCall::Step)),
    ("Target::share", Call::Share(ShareCall::Target)),
    ("ClaimQueue::new", Call::Make(MakeCall::Queue)),
    ("DeliveryBook::new", Call::Make(MakeCall::Deliveries)),
    ("Desk::new", Call::Make(MakeCall::Desk)),
    ("EndpointBook::new", Call::Make(MakeCall::Endpoints)),
    ("Estimator::new", Call::Make(MakeCall::Estimator)),
    ("NewLog::new", Call::Make(MakeCall::Log)),
    ("Pool::new", Call::Make(MakeCall::Pool)),
    ("Waiting::new", Call::Make(MakeCall::Waiting)),
    ("ClaimQueue::reserve", Call::Book(BookCall::Reserve)),
    ("DeliveryBook::stage_accept", Call::Book(BookCall::Accept)),
    ("DeliveryBook::stage_accepts", Call::Book(BookCall::Accepts)),
    ("EndpointBook::restore", Call::Book(BookCall::Restore)),
    (
        "EndpointBook::restore_subscribed",
        Call::Book(BookCall::RestoreTopic),
    ),
    ("EndpointBook::stage_put", Call::Book(BookCall::Put)),
    ("EndpointBook::stage_secrets", Call::Book(BookCall::Secrets)),
    (
        "EndpointBook::stage_subscribed",
        Call::Book(BookCall::Subscribe),
    ),
    ("Vault::adopt", Call::Store(StoreCall::Adopt)),
    ("Vault::create", Call::Store(StoreCall::Create)),
    ("Vault::load", Call::Store(StoreCall::Load)),
    ("Vault::migrate", Call::Store(StoreCall::Migrate)),
    ("recovery::create", Call::Store(StoreCall::CreateDesk)),
    ("recovery::open", Call::Store(StoreCall::Open)),
    ("recovery::reopen", Call::Store(StoreCall::Reopen)),
    ("audit", Call::Desk(DeskCall::Audit)),
    ("request_of", Call::Desk(DeskCall::Build)),
    (
        "endpoint_text",
        Call::Desk(DeskCall::Page(PageCall::EndpointText)),
    ),
    (
        "event_text",
        Call::Desk(DeskCall::Page(PageCall::EventText)),
    ),
    (
        "page_reply endpoint",
        Call::Desk(DeskCall::Page(PageCall::Endpoint)),
    ),
    (
        "page_reply event",
        Call::Desk(DeskCall::Page(PageCall::Event)),
    ),
    (
        "page_reply totals",
        Call::Desk(DeskCall::Page(PageCall::Totals)),
    ),
    (
        "totals_text",
        Call::Desk(DeskCall::Page(PageCall::TotalsText)),
    ),
    (
        "answer GET endpoint",
        Call::Desk(DeskCall::Shared(SharedCall::GetEndpoint)),
    ),
    (
        "answer GET event",
        Call::Desk(DeskCall::Shared(SharedCall::GetEvent)),
    ),
    (
        "answer GET status",
        Call::Desk(DeskCall::Shared(SharedCall::GetStatus)),
    ),
    (
        "answer POST",
        Call::Desk(DeskCall::Shared(SharedCall::Post)),
    ),
    (
        "answer publish",
        Call::Desk(DeskCall::Shared(SharedCall::Publish)),
    ),
    (
        "worker_round",
        Call::Desk(DeskCall::Shared(SharedCall::Round)),
    ),
];

const TRIES: u32 = 2;

/// Why a call gave nothing.
#[derive(Clone, Copy)]
pub(crate) enum CallError {
    /// Memory was refused.
    NoMemory,
    /// What is opened isn't the relay's.
    NotOurs,
    /// Nothing of this.
    Other,
}

impl fmt::Display for CallError {
    fn fmt<W: fmt::Write>(&self, f: &mut fmt::Formatter<W>) -> fmt::Result {
        f.write_str(match self {
            CallError::NoMemory => "OutOfMemory",
            CallError::NotOurs => "NotOurs",
            CallError::Other => "other",
        })
    }
}

impl From<AllocError> for CallError {
    fn from(_: AllocError) -> CallError {
        CallError::NoMemory
    }
}

impl From<ReadFault> for CallError {
    fn from(fault: ReadFault) -> CallError {
        match fault {
            ReadFault::OutOfMemory => CallError::NoMemory,
            _ => CallError::Other,
        }
    }
}

impl From<WordFault> for CallError {
    fn from(fault: WordFault) -> CallError {
        match fault {
            WordFault::OutOfMemory => CallError::NoMemory,
            WordFault::Bad => CallError::Other,
        }
    }
}

impl From<StreamFault> for CallError {
    fn from(fault: StreamFault) -> CallError {
        match fault {
            StreamFault::OutOfMemory => CallError::NoMemory,
            _ => CallError::Other,
        }
    }
}

impl From<OpenFault> for CallError {
    fn from(fault: OpenFault) -> CallError {
        match fault {
            OpenFault::NotOurs => CallError::NotOurs,
            OpenFault::OutOfMemory => CallError::NoMemory,
            _ => CallError::Other,
        }
    }
}

impl From<LoadFault> for CallError {
    fn from(fault: LoadFault) -> CallError {
        match fault {
            LoadFault::OutOfMemory => CallError::NoMemory,
            _ => CallError::Other,
        }
    }
}

/// A call that can be made again.
pub(crate) trait RepeatableCall {
    /// Makes the call: a number of what it gave, or why it gave nothing.
    fn attempt(&mut self, rt: &HostRuntime) -> Result<u64, CallError>;

    /// A number that tells what stands.
    fn state(&self) -> u64 {
        0
    }
}

/// Makes the call twice, and prints what it told each time, and what stands after it. Whether it was made.
pub(crate) fn try_twice<A: RepeatableCall>(rt: &HostRuntime, attempts: &mut A) -> io::Result<bool> {
    println!(rt; "stands {}", attempts.state())?;
    for _ in 0..TRIES {
        if !read_mark(rt)? {
            return Ok(false);
        }
        let told = attempts.attempt(rt);
        print_told(rt, told, attempts.state())?;
    }
    Ok(true)
}

/// The same over what was made for it.
pub(crate) fn try_made<A: RepeatableCall + Drop>(
    rt: &HostRuntime,
    made: Result<A, Failed>,
) -> io::Result<bool> {
    match made {
        Ok(mut attempts) => try_twice(rt, &mut attempts),
        Err(Failed) => Ok(false),
    }
}

// Waits for the next byte. Whether there is one.
fn read_mark(rt: &HostRuntime) -> io::Result<bool> {
    let mut mark = [0; 1];
    let count = rt.stdin().read(&mut mark)?;
    Ok(count > 0)
}

fn print_told(rt: &HostRuntime, told: Result<u64, CallError>, stands: u64) -> io::Result<()> {
    match told {
        Ok(number) => println!(rt; "done {number} stands {stands}"),
        Err(told) => println!(rt; "{told} stands {stands}"),
    }
}

fn call_of(name: &str) -> Option<Call> {
    for row in CALLS {
        if row.0 == name {
            return Some(row.1);
        }
    }
    None
}

/// Makes the call of this name, or opens the file at this path. Whether it was made.
pub(crate) fn print_oom<R: Wait>(rt: &HostRuntime, wait: &R, word: &str) -> io::Result<bool> {
    match call_of(word) {
        Some(call) => try_call(rt, wait, call),
        None => try_path(rt, word),
    }
}

fn try_call<R: Wait>(rt: &HostRuntime, wait: &R, call: Call) -> io::Result<bool> {
    let Ok(given) = values() else {
        return Ok(false);
    };
    match call {
        Call::Book(call) => try_book(rt, call, given),
        Call::Desk(call) => run_in_memory(rt, wait, Run::Desk(call)),
        Call::Make(call) => try_make(rt, call, given),
        Call::Reply(call) => try_reply(rt, call, given),
        Call::Share(call) => try_share(rt, call, given),
        Call::Store(call) => run_in_memory(rt, wait, Run::Store(call)),
        Call::Text(call) => try_text(rt, call, given),
    }
}
