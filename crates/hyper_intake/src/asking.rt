//! What is asked, as far as `hyper` shows it.
ghost use Rattle.std.specs.Prelude.{◌≡◌, ◌⊎◌, Err, IfOk, codes, map};
ghost use Rattle.hyper.specs.declared.error.Error.{Error};
ghost use Rattle.http_body_util.specs.Collected.{collected_bytes};
ghost use Rattle.http_body_util.specs.declared.limited.LimitedError.TheVariants.{LengthLimit, Body};
ghost use Rattle.hyper_intake.specs.Asking.{RepliesTo};
ghost use Rattle.hyper_intake.specs.Shown.{is_chunked, has_unknown_coding, path_shown, values_shown};
ghost use Rattle.hyper_intake.specs.declared.asking.BodyRead.TheVariants.{Whole, TooLong, NoMemory, Cut};

use bytes::Bytes;
use delivery::{Pass, Shared};
use http::header::HeaderMap;
use http::{Uri, request};
use http_body_util::{Collected, LimitedError};
use intake_shed::{Answered, Ask, AskBody, LatestAck, Reply, RequestError, answer};
use relay_host::{HostClock, fresh_id};
use run_log::LogId;
use std::alloc::{AllocError, AllocGlobal, Global};
use std::random::RandomSource;
use std::sync::ledger::Ledger;
use std::sync::{Mutex, Wait};
use std::time::Clock;

// What came of a body.
pub(crate) type Gathered = Result<Collected, LimitedError<hyper::Error>>;

// How a body was read.
pub(crate) enum BodyRead {
    Whole(Bytes),
    TooLong,
    NoMemory,
    /// It ended early, or wasn't one.
    Cut,
}

// The bytes of a body.
pub(crate) fn read_body(gathered: Gathered) -> BodyRead
    ensures whole { IfOk gathered (λ collected. (result ≡ Whole (collected_bytes collected)) ⊎ (result ≡ NoMemory)) }
    ensures long { gathered ≡ Err LengthLimit → result ≡ TooLong }
    ensures cut { (error : Error) → gathered ≡ Err (Body error) → (result ≡ Cut) ⊎ (result ≡ NoMemory) }
{
    match gathered {
        Ok(collected) => match collected.to_bytes() {
            Ok(bytes) => BodyRead::Whole(bytes),
            Err(AllocError) => BodyRead::NoMemory,
        },
        Err(LimitedError::LengthLimit) => BodyRead::TooLong,
        Err(LimitedError::Body(error)) if error.is_out_of_memory() => BodyRead::NoMemory,
        Err(LimitedError::Body(_)) => BodyRead::Cut,
    }
}

// The reply to the request. Its acknowledgement, if it has one, is handed in; of an event for a topic that of the last
// record.
pub(crate) fn reply_to<R, L, I>(
    rt: &R,
    shared: &Shared<L, I>,
    latest: &Mutex<LatestAck<I>>,
    head: &request::Parts,
    body: AskBody<'_>,
) -> Reply
where
    R: Wait + Clock + RandomSource + AllocGlobal,
    L: Ledger,
    I: LogId,
    ensures { RepliesTo I.is_base head.now body.entry result }
{
    let Ok(ids) = ids_of(rt.alloc(), &head.headers) else {
        return RequestError::OutOfMemory.reply();
    };
    let Ok(fresh) = fresh_id(rt) else {
        return RequestError::OutOfMemory.reply();
    };
    let ask = Ask {
        method: head.method.as_str().as_bytes(),
        path: path_of(&head.uri),
        ids: ids.as_slice(),
        body,
    };
    let now = delivery::Clock::now(&HostClock::new(rt));
    let Answered {
        reply,
        ack,
        published,
        confirmed: _,
    } = answer(rt, rt.alloc(), shared, &ask, fresh, now, &mut Pass::new());
    if let Some(ack) = ack {
        latest.lock(rt).keep(ack);
    }
    if let Some(published) = published {
        latest.lock(rt).keep(published.into_latest());
    }
    reply
}

// The path with its query, as it was sent up to a `#`. Of a target in absolute form it is what
// follows the authority, and a target that is an authority alone has none.
fn path_of(uri: &Uri) -> &[u8]
    ensures { result.now ≡ path_shown uri.now }
{
    match uri.path_and_query() {
        Some(path) => path.as_str().as_bytes(),
        None => b"",
    }
}

// The values of all headers `webhook-id`.
fn ids_of(alloc: Global, headers: &HeaderMap) -> Result<Vec<&[u8]>, AllocError>
    ensures { IfOk result (λ ids. map (λ id. id.now) ids.items ≡ values_shown headers.now (codes "webhook-id")) }
{
    let mut ids = Vec::new(alloc);
    for id in headers.get_all("webhook-id") {
        ids.push(id.as_bytes())?;
    }
    Ok(ids)
}

// Whether the body was sent in another coding than chunks, of which nothing is known here (RFC 9112, section 6.1).
pub(crate) fn has_unknown_coding(headers: &HeaderMap) -> bool
    ensures { result ≡ has_unknown_coding headers.now }
{
    for coding in headers.get_all("transfer-encoding") {
        if !is_chunked(coding.as_bytes()) {
            return true;
        }
    }
    false
}

fn is_chunked(coding: &[u8]) -> bool
    ensures { result ≡ is_chunked coding.now }
{
    coding.eq_ignore_ascii_case(b"chunked")
}
