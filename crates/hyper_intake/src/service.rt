//! The service of a connection.
ghost use Rattle.std.specs.Prelude.{◌≡◌, IfOk, IfSome};
ghost use Rattle.std.specs.Arc.{arc_value};
ghost use Rattle.hyper_intake.specs.Asking.{IsResponseTo};
ghost use Rattle.hyper_intake.specs.Services.{answered_of, latest_of, shared_of};

use crate::asking::{BodyRead, Gathered, has_unknown_coding, read_body, reply_to};
use crate::responding::{not_implemented, response_of};
use bytes::Bytes;
use delivery::Shared;
use futures::task::{Context, Poll};
use futures::{Future, ready};
use http::header::HeaderMapError;
use http::{Request, Response, request};
use http_body_util::combinators::Collect;
use http_body_util::{BodyExt, Full, Limited};
use hyper::body::Incoming;
use hyper::service::Service;
use intake_shed::{AskBody, LatestAck, RequestError};
use relay_types::MAX_BODY_BYTES;
use run_log::LogId;
use std::alloc::AllocGlobal;
use std::fmt;
use std::random::RandomSource;
use std::sync::atomic::{AtomicU64, Ordering};
use std::sync::ledger::Ledger;
use std::sync::{Arc, Mutex, Wait};
use std::time::Clock;

/// Answers the requests of a connection over the desk that threads share, and counts them. A call
/// waits until what it stages is settled.
#[derive(Drop)]
pub struct Intake<R, L: Ledger, I: LogId> {
    rt: R,
    owners: SharedParts<L, I>,
}

// What the threads of the intake share.
#[derive(Drop)]
struct SharedParts<L: Ledger, I: LogId> {
    shared: Arc<Shared<L, I>>,
    latest: Arc<Mutex<LatestAck<I>>>,
    answered: Arc<AtomicU64>,
}

impl<L: Ledger, I: LogId> SharedParts<L, I> {
    fn again(&self) -> Option<SharedParts<L, I>>
        ensures { IfSome result (λ again. arc_value again.shared ≡ arc_value self.now.shared) }
    {
        Some(SharedParts {
            shared: Arc::try_clone(&self.shared).ok()?,
            latest: Arc::try_clone(&self.latest).ok()?,
            answered: Arc::try_clone(&self.answered).ok()?,
        })
    }
}

/// The future of a response.
#[derive(Drop)]
pub struct Answering<R, L: Ledger, I: LogId, C> {
    rt: R,
    owners: Option<SharedParts<L, I>>,
    head: Option<request::Parts>,
    body: C,
}

/// Why a request has no response, and its connection is closed. Nothing was staged, or memory was
/// refused for the response.
#[derive(Clone, Copy, Debug, PartialEq, Eq)]
pub enum Unanswered {
    /// The body ended early, or wasn't one.
    Body,
    OutOfMemory,
}

impl fmt::Display for Unanswered {
    fn fmt<W: fmt::Write>(&self, f: &mut fmt::Formatter<W>) -> fmt::Result {
        f.write_str(match self {
            Unanswered::Body => "the body ended early",
            Unanswered::OutOfMemory => "out of memory",
        })
    }
}

impl std::error::Error for Unanswered {}

impl From<HeaderMapError> for Unanswered {
    fn from(_: HeaderMapError) -> Unanswered {
        Unanswered::OutOfMemory
    }
}

impl<R, L: Ledger, I: LogId> Intake<R, L, I> {
    /// A service of one connection. It hands in what it acknowledges, and adds to the count of answered requests.
    pub fn new(
        rt: R,
        shared: Arc<Shared<L, I>>,
        latest: Arc<Mutex<LatestAck<I>>>,
        answered: Arc<AtomicU64>,
    ) -> Intake<R, L, I>
        ensures shared { shared_of result ≡ shared }
        ensures latest { latest_of result ≡ latest }
        ensures answered { answered_of result ≡ answered }
    {
        Intake {
            rt,
            owners: SharedParts {
                shared,
                latest,
                answered,
            },
        }
    }
}

impl<R, L, I> Service<Request<Incoming>> for Intake<R, L, I>
where
    R: Wait + Clock + RandomSource + AllocGlobal + Copy,
    L: Ledger,
    I: LogId,
{
    ghost use Rattle.hyper_intake.specs.Services.{Takes};

    ghost calls = { Takes };

    type Response = Response<Full<Bytes>>;

    type Error = Unanswered;

    type Future = Answering<R, L, I, Collect<Limited<Incoming>>>;

    fn call(&self, request: Request<Incoming>) -> Answering<R, L, I, Collect<Limited<Incoming>>> {
        let (head, body) = request.into_parts();
        Answering {
            rt: self.rt,
            owners: self.owners.again(),
            head: Some(head),
            body: Limited::new(body, MAX_BODY_BYTES).collect(self.rt.alloc()),
        }
    }
}

impl<R, L, I, C> Future for Answering<R, L, I, C>
where
    R: Wait + Clock + RandomSource + AllocGlobal + Copy,
    L: Ledger,
    I: LogId,
    C: Future<Output = Gathered>,
{
    type Output = Result<Response<Full<Bytes>>, Unanswered>;

    ghost use Rattle.hyper_intake.specs.Services.{MayRespond};

    ghost can_poll = { λ a. C.can_poll a.body };

    ghost gives = { λ a. MayRespond I.is_base (C.gives a.body) a.head };

    ghost needs = { λ a. C.needs a.body };

    fn poll(&mut self, cx: &mut Context<'_>) -> Poll<Self::Output> {
        let gathered = ready!(self.body.poll(cx));
        let (Some(head), Some(owners)) = (self.head.take(), self.owners.take()) else {
            return Poll::Ready(Err(Unanswered::OutOfMemory));
        };
        let response = response_to(&self.rt, &owners, &head, gathered);
        if response.is_ok() {
            owners.answered.fetch_add(1, Ordering::SeqCst);
        }
        Poll::Ready(response)
    }
}

// The response to a request whose body came to an end.
fn response_to<R, L, I>(
    rt: &R,
    owners: &SharedParts<L, I>,
    head: &request::Parts,
    gathered: Gathered,
) -> Result<Response<Full<Bytes>>, Unanswered>
where
    R: Wait + Clock + RandomSource + AllocGlobal,
    L: Ledger,
    I: LogId,
    ensures { IfOk result (IsResponseTo I.is_base head.now gathered) }
{
    if has_unknown_coding(&head.headers) {
        return Ok(not_implemented(rt.alloc()));
    }
    let (shared, latest) = (&*owners.shared, &*owners.latest);
    let reply = match read_body(gathered) {
        BodyRead::Whole(bytes) => {
            reply_to(rt, shared, latest, head, AskBody::Whole(bytes.as_slice()))
        }
        BodyRead::TooLong => reply_to(rt, shared, latest, head, AskBody::TooLong),
        BodyRead::NoMemory => RequestError::OutOfMemory.reply(),
        BodyRead::Cut => return Err(Unanswered::Body),
    };
    Ok(response_of(rt.alloc(), reply)?)
}
