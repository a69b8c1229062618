//! The response of a reply.
ghost use Rattle.std.specs.Prelude.{◌≡◌, [], IfOk, OnOk};
ghost use Rattle.hyper_intake.specs.Responses.{IsNotImplemented, IsResponseOf, Responds, fields_of};

use bytes::Bytes;
use http::header::{HeaderMap, HeaderMapError};
use http::{HeaderValue, Response, StatusCode, header};
use http_body_util::Full;
use intake_shed::{Reply, ReplyText};
use std::alloc::{AllocError, Global};
use std::borrow::CowStr;

// What is answered where the text of a reply finds no memory.
const OUT_OF_MEMORY: &[u8] = b"{\"error\":\"OutOfMemory\"}";

// The response: status, type, when to come again, and the body. `hyper` adds its length, and that
// the connection closes.
pub(crate) fn response_of(
    alloc: Global,
    reply: Reply,
) -> Result<Response<Full<Bytes>>, HeaderMapError>
    ensures { IfOk result (Responds reply) }
{
    let Reply {
        status,
        retry,
        body,
    } = reply;
    match bytes_of(body) {
        Ok(body) => respond(alloc, status, retry, body),
        Err(AllocError) => respond(alloc, 503, true, Bytes::from_static(OUT_OF_MEMORY)),
    }
}

// The bytes of a body, without a copy.
fn bytes_of(body: ReplyText) -> Result<Bytes, AllocError>
    ensures { IfOk result (λ bytes. bytes ≡ body) }
{
    match body.into_cow() {
        CowStr::Borrowed(text) => Ok(Bytes::from_static(text.as_bytes())),
        CowStr::Owned(text) => Bytes::from_string(text),
    }
}

// That a body was sent in a coding that isn't known here. Nothing was staged.
pub(crate) fn not_implemented(alloc: Global) -> Response<Full<Bytes>>
    ensures { IsNotImplemented result }
{
    let mut response = Response::new(alloc, Full::new(Bytes::from_static(b"")));
    *response.status_mut() = StatusCode::NOT_IMPLEMENTED;
    response
}

fn respond(
    alloc: Global,
    status: u16,
    retry: bool,
    body: Bytes,
) -> Result<Response<Full<Bytes>>, HeaderMapError>
    ensures { IfOk result (IsResponseOf (record { status = status; retry = retry; body = body })) }
{
    let mut response = Response::new(alloc, Full::new(body));
    *response.status_mut() = StatusCode::from_u16(status).unwrap_or(
        StatusCode::INTERNAL_SERVER_ERROR,
    );
    add_fields(response.headers_mut(), retry)?;
    Ok(response)
}

fn add_fields(headers: &mut HeaderMap, retry: bool) -> Result<(), HeaderMapError>
    requires { headers.old ≡ [] }
    ensures { OnOk result (headers.new ≡ fields_of retry) }
{
    headers.insert(
        header::CONTENT_TYPE,
        HeaderValue::from_static("application/json"),
    )?;
    if retry {
        headers.insert(header::RETRY_AFTER, HeaderValue::from_static("1"))?;
    }
    Ok(())
}
