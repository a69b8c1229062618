//! What is done with a desk and its vault, and what is expected of it.

use desk::{Fault, Limits, Told, Totals};
use relay_types::State;
use retry_table::Spend;

/// An endpoint: where it listens, its maximum, and the texts of its secrets, the newest first.
#[derive(Clone, Copy)]
pub(crate) struct Endpoint {
    pub(crate) target: &'static [u8],
    pub(crate) max: u64,
    pub(crate) secrets: &'static [&'static [u8]],
}

/// What a submission or a command answers: the number of its record, or its refusal.
#[derive(Clone, Copy)]
pub(crate) enum Answer {
    Record(u64),
    Refused(u8, Fault),
}

/// What a publish answers: the endpoint and the number of each ticket, or its refusal.
#[derive(Clone, Copy)]
pub(crate) enum Published {
    Tickets(&'static [(&'static [u8], u64)]),
    Refused(u8, Fault),
}

/// What a claim answers.
#[derive(Clone, Copy, PartialEq, Eq)]
pub(crate) enum Given {
    /// A job: its delivery, the number of the attempt, its moment, and how many of its endpoint are under way with it.
    Job(u64, u64, u64, u32),
    Nothing,
    Refused(u8, Fault),
}

/// How a post went. A status comes after 100 milliseconds.
#[derive(Clone, Copy)]
pub(crate) enum Went {
    Answered(u16),
    Unreached,
    Unsent,
}

/// What is known of a post that is over.
#[derive(Clone, Copy)]
pub(crate) struct Over {
    pub(crate) spend: Spend,
    pub(crate) staged: Option<u64>,
    pub(crate) limit: u32,
    pub(crate) in_flight: u32,
    pub(crate) is_exhausted: bool,
}

/// What a job says of what is posted.
#[derive(Clone, Copy)]
pub(crate) struct Post {
    pub(crate) endpoint: &'static [u8],
    pub(crate) id: &'static [u8],
    pub(crate) target: &'static [u8],
    pub(crate) secrets: &'static [&'static [u8]],
    pub(crate) body: &'static [u8],
}

/// A request: the method and what is asked for, the headers and the body, each on a line, and where it goes.
#[derive(Clone, Copy)]
pub(crate) struct Request {
    pub(crate) lines: &'static [u8],
    pub(crate) host: &'static [u8],
    pub(crate) port: u16,
}

/// What the page of an event shows.
#[derive(Clone, Copy)]
pub(crate) struct Event {
    pub(crate) state: State,
    pub(crate) due: Option<u64>,
    pub(crate) attempts: u64,
    pub(crate) last_status: Option<u16>,
}

/// What the page of an endpoint shows: its maximum, whether it is enabled, how many secrets it has, and how many of its
/// events are pending, delivered and exhausted.
#[derive(Clone, Copy)]
pub(crate) struct Page {
    pub(crate) max: u32,
    pub(crate) enabled: bool,
    pub(crate) secrets: usize,
    pub(crate) pending: u64,
    pub(crate) delivered: u64,
    pub(crate) exhausted: u64,
}

/// A call, or a look, with what is expected of it. Names, ids and bodies are given as bytes, moments as seconds since
/// the epoch.
#[derive(Clone, Copy)]
pub(crate) enum Step {
    /// Puts the endpoint of this name.
    Put(&'static [u8], Endpoint, Answer),
    /// Gives the endpoint these secrets.
    SetSecrets(&'static [u8], &'static [&'static [u8]], Answer),
    Enable(&'static [u8], bool, Answer),
    /// Subscribes the endpoint of this name to the topic before it, or ends that.
    Subscribe(&'static [u8], &'static [u8], bool, Answer),
    /// Subscribes endpoint `a` to topics `t0`, `t1` and so on, from this one on so many. The first one's record has
    /// this number.
    Subscribes(u64, u64, u64),
    /// Purges before this moment.
    Purge(u64, Answer),
    /// So many Purges before 0, 1 and so on. The first one's record has this number.
    Purges(u64, u64),
    /// Submits an event at this moment, to this endpoint, with this id and body.
    Submit(u64, &'static [u8], &'static [u8], &'static [u8], Answer),
    /// Publishes an event at this moment, to this topic, with this id and body.
    Publish(u64, &'static [u8], &'static [u8], &'static [u8], Published),
    /// Submits the twenty events `a` to `t` of 1000 to this endpoint. The first one's record has this number.
    Submits(&'static [u8], u64),
    /// Seals: the number of the batch's first record, that after its last one, and how many steps it has.
    Seal(Option<(u64, u64, usize)>),
    /// Seals, commits and settles: so many records are settled then.
    Turn(u64),
    /// Halts with nothing, or with the batch that is out: whether that is what is out.
    HaltByNothing(bool),
    HaltByBatch(bool),
    /// Claims at this moment. The job is kept after those that are.
    Claim(u64, Given),
    /// Claims at this moment. The job is given back at once, unsent.
    Look(u64, Given),
    /// Claims so many jobs at this moment.
    Claims(u64, usize),
    /// Spends the permit of the job at this place of those that are kept, at this moment: what came of the post, the
    /// number of the outcome that waits, the endpoint's limit, and how many of it are under way.
    Spend(usize, Went, u64, Spend, Option<u64>, u32, u32),
    /// The same, of the last permit that is out, after which its event is given up: its outcome's
    /// number, and the limit.
    Exhaust(usize, Went, u64, u64, u32),
    /// Spends the permits of all jobs that are kept, which weren't sent.
    SpendAll(u64),
    /// The job at this place is of this post, or makes this request.
    Shows(usize, Post),
    Asks(usize, Request),
    /// What the desk says of the event of this record, endpoint and id.
    Told(u64, &'static [u8], &'static [u8], Told),
    SettledBody(u64, &'static [u8], &'static [u8], Option<&'static [u8]>),
    ToldCommand(u64, Told),
    Totals(Totals),
    EndpointPage(&'static [u8], Option<Page>),
    EventPage(&'static [u8], &'static [u8], Option<Event>),
    Limits(&'static [u8], Option<Limits>),
    /// How many records there are, and how many are settled.
    Records(u64, u64),
    IsHalted(bool),
}
