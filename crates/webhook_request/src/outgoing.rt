//! The request of a post to a subscriber.
ghost use Rattle.std.specs.Prelude.{◌≡◌, ◌≤◌, ◌++◌, [], ◌∷◌, length, codes, IsTrue, IfOk, OnOk};
ghost use Rattle.relay_types.specs.declared.limits.TheConstants.{MAX_TARGET_BYTES};
ghost use Rattle.relay_types.specs.Values.{is_host, is_request_target, is_visible};
ghost use Rattle.webhook_request.specs.Requests.{header, is_printable};
ghost use Rattle.webhook_request.specs.Requests.{connection_headers, webhook_headers, request_of};

use crate::header::{Header, HeaderName};
use hmac_signer::signature_header;
use relay_types::{Body, Moment, MsgId, Secrets, Target};
use std::alloc::{AllocError, Global};
use std::marker::Model;

const HEADERS: usize = 8;

/// A request to a subscriber, whole.
#[derive(Drop)]
pub struct Outgoing {
    target: Target,
    headers: Vec<Header>,
    body: Body,
}

impl Model for Outgoing {
    ghost use Rattle.std.specs.Prelude.{codes};
    ghost use Rattle.relay_types.specs.Values.{host_of, port_of, path_of};
    ghost use Rattle.webhook_request.specs.Requests.{Request};

    ghost Value = { Request };

    ghost view = { λ o. record {
      host = host_of o.target;
      port = port_of o.target;
      method = codes "POST";
      target = path_of o.target;
      headers = o.headers.items;
      body = o.body;
    } };
}

impl Outgoing {
    /// The request of an attempt at this moment, signed by each secret. It shares the event's bytes, and fails only if
    /// an allocation fails.
    pub fn build(
        alloc: Global,
        target: &Target,
        secrets: &Secrets,
        id: MsgId,
        at: Moment,
        body: &Body,
    ) -> Result<Outgoing, AllocError>
        ensures { IfOk result (λ outgoing. outgoing ≡ request_of target.now secrets.now id at body.now) }
    {
        let signature = signature_header(alloc, secrets, &id, at, body)?;
        let mut headers = Vec::with_capacity(alloc, HEADERS)?;
        add_connection_headers(alloc, &mut headers, target, body)?;
        add_webhook_headers(alloc, &mut headers, id, at, signature.as_bytes())?;
        Ok(Outgoing {
            target: target.share()?,
            headers,
            body: body.share()?,
        })
    }

    /// The host to connect to, as it is written in the subscriber's URL.
    pub fn host(&self) -> &[u8]
        ensures text { result.now ≡ self.now.host }
        ensures valid { IsTrue (is_host self.now.host) }
    {
        self.target.host()
    }

    /// The port to connect to.
    pub fn port(&self) -> u16
        ensures { result ≡ self.now.port }
    {
        self.target.port()
    }

    /// The method, `POST`.
    pub fn method(&self) -> &'static str
        ensures { result.now ≡ codes "POST" }
    {
        "POST"
    }

    /// What the request asks for: the path of the subscriber's URL, with its query.
    pub fn target(&self) -> &[u8]
        ensures text { result.now ≡ self.now.target }
        ensures valid { IsTrue (is_request_target self.now.target) }
        ensures most { length self.now.target ≤ MAX_TARGET_BYTES }
        ensures visible { IsTrue (is_visible self.now.target) }
    {
        self.target.path()
    }

    /// The headers, in their order. There are no others.
    pub fn headers(&self) -> &[Header]
        ensures { result.now ≡ self.now.headers }
    {
        self.headers.as_slice()
    }

    /// The event's bytes.
    pub fn body(&self) -> &Body
        ensures { result.now ≡ self.now.body }
    {
        &self.body
    }
}

// The headers of the connection and of the body.
fn add_connection_headers(
    alloc: Global,
    headers: &mut Vec<Header>,
    target: &Target,
    body: &Body,
) -> Result<(), AllocError>
    ensures { OnOk result (headers.new.items ≡ headers.old.items ++ connection_headers target.now body.now) }
{
    let length = body.as_bytes().len().to_string(alloc)?;
    add(alloc, headers, HeaderName::Host, target.authority())?;
    add(alloc, headers, HeaderName::UserAgent, b"relayd/1")?;
    add(alloc, headers, HeaderName::ContentType, b"application/json")?;
    add(alloc, headers, HeaderName::ContentLength, length.as_bytes())?;
    add(alloc, headers, HeaderName::Connection, b"close")
}

// The headers of Standard Webhooks 1.0.0.
fn add_webhook_headers(
    alloc: Global,
    headers: &mut Vec<Header>,
    id: MsgId,
    at: Moment,
    signature: &[u8],
) -> Result<(), AllocError>
    requires { IsTrue (is_printable signature.now) }
    ensures { OnOk result (headers.new.items ≡ headers.old.items ++ webhook_headers id at signature.now) }
{
    let timestamp = at.seconds().to_string(alloc)?;
    add(alloc, headers, HeaderName::WebhookId, id.as_bytes())?;
    add(
        alloc,
        headers,
        HeaderName::WebhookTimestamp,
        timestamp.as_bytes(),
    )?;
    add(alloc, headers, HeaderName::WebhookSignature, signature)
}

// Appends a header with a copy of the value.
fn add(
    alloc: Global,
    headers: &mut Vec<Header>,
    name: HeaderName,
    value: &[u8],
) -> Result<(), AllocError>
    requires { IsTrue (is_printable value.now) }
    ensures { OnOk result (headers.new.items ≡ headers.old.items ++ (header name value.now ∷ [])) }
{
    headers.push(Header::of(name, value.to_vec(alloc)?))?;
    Ok(())
}
