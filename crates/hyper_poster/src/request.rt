//! A request as `hyper` sends it.
ghost use Rattle.std.specs.Prelude.{◌≡◌, None, IfOk, OnOk};
ghost use Rattle.http_header.specs.FieldValue.{plain_value};
ghost use Rattle.http_header.specs.HeaderMap.{append};
ghost use Rattle.http_uri.specs.Uri.{HasParts};
ghost use Rattle.webhook_request.specs.Requests.{name_text};
ghost use Rattle.hyper_poster.specs.Sent.{IsSentRequest, fields};

use crate::failure::Failure;
use bytes::Bytes;
use http::header::{HeaderMap, HeaderName, HeaderValue};
use http::uri::{PathAndQuery, Uri};
use http::{Method, Request, request};
use http_body_util::Full;
use std::alloc::Global;
use webhook_request::{Header, Outgoing};

// The request: its method, what it asks for, its headers in their order and no other, and the event's bytes.
pub(crate) fn http_request(
    alloc: Global,
    outgoing: &Outgoing,
) -> Result<Request<Full<Bytes>>, Failure>
    ensures { IfOk result (IsSentRequest outgoing.now) }
{
    let mut head = request::Parts::new(alloc);
    head.method = Method::POST;
    head.uri = uri_of(alloc, outgoing)?;
    head.headers = fields(alloc, outgoing.headers())?;
    let body = Bytes::copy_from_slice(alloc, outgoing.body().as_bytes())?;
    Ok(Request::from_parts(head, Full::new(body)))
}

// What is asked for.
fn uri_of(alloc: Global, outgoing: &Outgoing) -> Result<Uri, Failure>
    ensures { IfOk result (λ uri. HasParts uri None None outgoing.now.target) }
{
    Ok(Uri::from(PathAndQuery::from_bytes(alloc, outgoing.target())?))
}

// The headers, in their order.
fn fields(alloc: Global, headers: &[Header]) -> Result<HeaderMap, Failure>
    ensures { IfOk result (λ map. map ≡ fields headers.now) }
{
    let mut map = HeaderMap::new(alloc);
    for header in headers {
        add(alloc, &mut map, header)?;
    }
    Ok(map)
}

// Appends a header.
fn add(alloc: Global, map: &mut HeaderMap, header: &Header) -> Result<(), Failure>
    ensures { OnOk result (map.new ≡ append map.old (name_text header.now.name) (plain_value header.now.value)) }
{
    let name = HeaderName::from_static(header.name().text());
    let value = HeaderValue::from_bytes(alloc, header.value())?;
    map.append(name, value)?;
    Ok(())
}
