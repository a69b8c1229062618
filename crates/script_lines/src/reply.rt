//! The reply to a call, and how a script prints it.
ghost use Rattle.std.specs.Prelude.{◌≡◌, Some};
ghost use Rattle.std.specs.Str.{IsAscii};
ghost use Rattle.script_lines.specs.Replies.{fault_text, state_text, told_text, flag_text, spend_text, reply_text};

use crate::seqs::Seqs;
use relay_types::{MsgId, Name, State};
use retry_table::Spend;
use std::fmt;

/// The name of a refusal.
#[derive(Clone, Copy, PartialEq, Eq)]
pub enum Fault {
    Halted,
    UnknownEndpoint,
    UnknownTopic,
    Conflict,
    Exists,
    EndpointBacklog,
    Backlog,
    TooManyEndpoints,
    TooManySubscriptions,
    WaitingFull,
    SeqExhausted,
    BatchOut,
    WrongTurn,
    Closed,
    OutOfTurn,
    Illegal,
    Store,
    OutOfMemory,
}

/// What is known of a ticket.
#[derive(Clone, Copy, PartialEq, Eq)]
pub enum Told {
    Settled,
    Waiting,
    Unknown,
}

/// The reply to a call.
#[derive(Drop)]
pub enum Reply {
    Staged {
        seq: u64,
    },
    /// An event for a topic: the number of each subscriber's record, in the order of their Puts.
    Published(Seqs),
    ToldAs(Told),
    NothingWaits,
    Sealed {
        from: u64,
        to: u64,
    },
    Committed {
        to: u64,
    },
    SettledTo {
        to: u64,
    },
    Unsealed {
        from: u64,
        to: u64,
    },
    Halted,
    Endpoint {
        enabled: bool,
        pending: u64,
        delivered: u64,
        exhausted: u64,
    },
    Event {
        state: State,
        due: Option<u64>,
        attempts: u64,
    },
    /// An attempt begins: its delivery, and the attempts of the endpoint that are under way, itself
    /// among them.
    Permit {
        delivery: u64,
        endpoint: Name,
        id: MsgId,
        attempt: u64,
        at: u64,
        inflight: u32,
    },
    NothingDue,
    /// An attempt is over. `staged` is the number of its outcome, if one waits.
    Spent {
        spend: Spend,
        limit: u32,
        in_flight: u32,
        staged: Option<u64>,
    },
    Limits {
        limit: u32,
        in_flight: u32,
        noload: u64,
    },
    /// The store was opened again, with so many records.
    Reopened {
        records: u64,
    },
    Absent,
    NoPermit,
    NoBatch,
    NoReceipt,
    NoTicket,
    Refused {
        number: u8,
        fault: Fault,
    },
}

impl fmt::Display for Fault {
    ghost output = { λ fault. Some (fault_text fault) };

    fn fmt<W: fmt::Write>(&self, f: &mut fmt::Formatter<W>) -> fmt::Result {
        f.write_str(fault_word(*self))
    }
}

fn fault_word(fault: Fault) -> &'static str
    ensures { result.now ≡ fault_text fault }
{
    match fault {
        Fault::Halted => "Halted",
        Fault::UnknownEndpoint => "UnknownEndpoint",
        Fault::UnknownTopic => "UnknownTopic",
        Fault::Conflict => "Conflict",
        Fault::Exists => "Exists",
        Fault::EndpointBacklog => "EndpointBacklog",
        Fault::Backlog => "Backlog",
        Fault::TooManyEndpoints => "TooManyEndpoints",
        Fault::TooManySubscriptions => "TooManySubscriptions",
        Fault::WaitingFull => "WaitingFull",
        Fault::SeqExhausted => "SeqExhausted",
        Fault::BatchOut => "BatchOut",
        Fault::WrongTurn => "WrongTurn",
        Fault::Closed => "Closed",
        Fault::OutOfTurn => "OutOfTurn",
        Fault::Illegal => "Illegal",
        Fault::Store => "Store",
        Fault::OutOfMemory => "OutOfMemory",
    }
}

impl fmt::Display for Reply {
    ghost output = { λ reply. Some (reply_text reply) };

    fn fmt<W: fmt::Write>(&self, f: &mut fmt::Formatter<W>) -> fmt::Result {
        match self {
            Reply::Staged { seq } => write!(f, "staged {seq}"),
            Reply::Published(seqs) => write!(f, "staged {seqs}"),
            Reply::ToldAs(told) => f.write_str(told_word(*told)),
            Reply::NothingWaits => f.write_str("nothing"),
            Reply::Sealed { from, to } => write!(f, "sealed {from}..{to}"),
            Reply::Committed { to } => write!(f, "committed {to}"),
            Reply::SettledTo { to } => write!(f, "settled {to}"),
            Reply::Unsealed { from, to } => write!(f, "unsealed {from}..{to}"),
            Reply::Halted => f.write_str("halted"),
            Reply::Endpoint {
                enabled,
                pending,
                delivered,
                exhausted,
            } => {
                let flag = flag_word(*enabled);
                write!(
                    f,
                    "{flag} pending {pending} delivered {delivered} exhausted {exhausted}"
                )
            }
            Reply::Event {
                state,
                due,
                attempts,
            } => {
                f.write_str(state_word(*state))?;
                if let Some(due) = due {
                    write!(f, " due {due}")?;
                }
                write!(f, " attempts {attempts}")
            }
            Reply::Permit {
                delivery,
                endpoint,
                id,
                attempt,
                at,
                inflight,
            } => {
                let name = text_of(endpoint.as_bytes());
                let id = text_of(id.as_bytes());
                write!(
                    f,
                    "permit {delivery} {name} {id} attempt {attempt} at {at} inflight {inflight}"
                )
            }
            Reply::NothingDue => f.write_str("none"),
            Reply::Spent {
                spend,
                limit,
                in_flight,
                staged,
            } => {
                let spend = spend_word(*spend);
                match staged {
                    Some(seq) => write!(
                        f,
                        "{spend} limit {limit} inflight {in_flight} staged {seq}"
                    ),
                    None => write!(f, "{spend} limit {limit} inflight {in_flight} nothing"),
                }
            }
            Reply::Limits {
                limit,
                in_flight,
                noload,
            } => write!(f, "limit {limit} inflight {in_flight} noload {noload}"),
            Reply::Reopened { records } => write!(f, "reopened {records}"),
            Reply::Absent => f.write_str("absent"),
            Reply::NoPermit => f.write_str("no-permit"),
            Reply::NoBatch => f.write_str("no-batch"),
            Reply::NoReceipt => f.write_str("no-receipt"),
            Reply::NoTicket => f.write_str("no-ticket"),
            Reply::Refused { number, fault } => write!(f, "refused {number} {fault}"),
        }
    }
}

fn state_word(state: State) -> &'static str
    ensures { result.now ≡ state_text state }
{
    match state {
        State::Pending => "pending",
        State::Delivered => "delivered",
        State::Exhausted => "exhausted",
    }
}

fn told_word(told: Told) -> &'static str
    ensures { result.now ≡ told_text told }
{
    match told {
        Told::Settled => "settled",
        Told::Waiting => "waiting",
        Told::Unknown => "unknown",
    }
}

fn flag_word(enabled: bool) -> &'static str
    ensures { result.now ≡ flag_text enabled }
{
    if enabled { "enabled" } else { "disabled" }
}

fn spend_word(spend: Spend) -> &'static str
    ensures { result.now ≡ spend_text spend }
{
    match spend {
        Spend::Success => "success",
        Spend::Dropped => "dropped",
        Spend::Ignored => "ignored",
    }
}

// The characters of a name or an id.
fn text_of(bytes: &[u8]) -> &str
    requires { IsAscii bytes.now }
    ensures { result.now ≡ bytes.now }
{
    match str::from_utf8(bytes) {
        Ok(text) => text,
        Err(_) => unreachable!(),
    }
}
