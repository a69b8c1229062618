//! What the operator is told on standard error: a line each, with the moment.
use delivery::HaltCause;
use desk::Totals;
use relay_host::{FileCheck, HostClock};
use relay_types::{MAX_FAILURES, Name};
use std::alloc::Global;
use std::io::Eprint;
use std::net::SocketAddr;
use std::time::Clock;
use std::{fmt, str};
use webhook_request::{HeaderName, Outgoing};

/// What the operator is told.
#[derive(Drop)]
pub(crate) enum LogLine<'a> {
    /// The file isn't open after so many seconds.
    Opening {
        seconds: u64,
    },
    Started {
        file: &'a str,
        address: SocketAddr,
        totals: Totals,
    },
    /// The answer to this request was 410 Gone, which disables the endpoint (RFC 9110, section 15.5.11).
    Disabled {
        endpoint: Name,
        request: &'a Outgoing,
    },
    /// This was the tenth attempt at its event that failed: it is given up.
    Exhausted {
        endpoint: Name,
        request: &'a Outgoing,
    },
    /// What the last look at the file found distinguishes a file that is gone from a batch out of
    /// turn.
    Halted {
        cause: HaltCause,
        check: FileCheck,
    },
    /// The greatest number of an event that was acknowledged while it served.
    Acknowledged(u64),
}

impl fmt::Display for LogLine<'_> {
    fn fmt<W: fmt::Write>(&self, f: &mut fmt::Formatter<W>) -> fmt::Result {
        match self {
            LogLine::Opening { seconds } => write!(f, "opening: {seconds} s so far"),
            LogLine::Started {
                file,
                address,
                totals,
            } => {
                let Totals {
                    records,
                    pending,
                    ..
                } = totals;
                write!(
                    f,
                    "started: {file} at {address}, records {records}, pending {pending}"
                )
            }
            LogLine::Disabled { endpoint, request } => {
                let (name, host) = (text_of(endpoint.as_bytes()), text_of(request.host()));
                let (port, path) = (request.port(), text_of(request.target()));
                let id = id_of(request);
                write!(
                    f,
                    "disabled: endpoint {name} at http://{host}:{port}{path}, by a 410 to event {id}"
                )
            }
            LogLine::Exhausted { endpoint, request } => {
                let (name, id) = (text_of(endpoint.as_bytes()), id_of(request));
                write!(
                    f,
                    "exhausted: event {id} of endpoint {name}, after {MAX_FAILURES} failures"
                )
            }
            LogLine::Halted { cause, check } => {
                write!(f, "halted: {}", halt_text(*cause, *check))
            }
            LogLine::Acknowledged(seq) => write!(f, "acknowledged: up to record {seq}"),
        }
    }
}

// A name, or a part of a request, which are printable ASCII.
fn text_of(part: &[u8]) -> &str {
    str::from_utf8(part).unwrap_or("?")
}

// Under which id the event is posted.
fn id_of(request: &Outgoing) -> &str {
    for header in request.headers() {
        if header.name() == HeaderName::WebhookId {
            return text_of(header.value());
        }
    }
    "?"
}

/// Why the committer gave up, as the operator reads it, by what the last look at the file found. A
/// batch is also out of turn if the file is gone or can't be looked at.
pub fn halt_text(cause: HaltCause, check: FileCheck) -> &'static str {
    match cause {
        HaltCause::Halted => "the relay had halted before",
        HaltCause::OutOfMemory => "out of memory nine times in a row",
        HaltCause::Closed => "the result of an earlier commit is unknown",
        HaltCause::OutOfTurn => match check {
            FileCheck::Gone => "the file isn't the one that was opened",
            FileCheck::Unseen => "the file can't be looked at",
            FileCheck::Stands | FileCheck::OutOfMemory => "a batch was out of turn",
        },
        HaltCause::Illegal => "a record is invalid after those in the store",
        HaltCause::Store(_) => "the store failed",
    }
}

/// Tells the operator. Where there is no memory for the line, or standard error takes nothing, it isn't told.
pub(crate) fn print_log_line<R: Clock + Eprint>(rt: &R, alloc: Global, log_line: &LogLine<'_>) {
    let now = delivery::Clock::now(&HostClock::new(rt)).seconds();
    if let Ok(line) = format!(in alloc; "{now} {log_line}\n") {
        let _ = rt.eprint(line);
    }
}
