//! A header of a request.
ghost use Rattle.std.specs.Prelude.{◌≡◌, IsTrue};
ghost use Rattle.webhook_request.specs.Requests.{header, is_printable, is_token, name_text};

use std::marker::Model;

/// Which header this is.
#[derive(Clone, Copy, PartialEq, Eq, Debug)]
pub enum HeaderName {
    /// The subscriber's host, with its port where the URL has one (RFC 9110, section 7.2).
    Host,
    /// Who posts.
    UserAgent,
    /// What the body is said to be.
    ContentType,
    /// How many bytes the body has.
    ContentLength,
    /// That no other request follows on the connection.
    Connection,
    /// The event's id (Standard Webhooks 1.0.0).
    WebhookId,
    /// The moment of the attempt, in seconds since the Unix epoch.
    WebhookTimestamp,
    /// The signatures of id, moment and body.
    WebhookSignature,
}

impl HeaderName {
    /// The name's text, in lower case.
    pub fn text(self) -> &'static str
        ensures text { result.now ≡ name_text self }
        ensures token { IsTrue (is_token result.now) }
    {
        match self {
            HeaderName::Host => "host",
            HeaderName::UserAgent => "user-agent",
            HeaderName::ContentType => "content-type",
            HeaderName::ContentLength => "content-length",
            HeaderName::Connection => "connection",
            HeaderName::WebhookId => "webhook-id",
            HeaderName::WebhookTimestamp => "webhook-timestamp",
            HeaderName::WebhookSignature => "webhook-signature",
        }
    }
}

/// A header of a request. Its value is printable ASCII, which any header may have (RFC 9110, section 5.5).
#[derive(Drop)]
pub struct Header {
    name: HeaderName,
    value: Vec<u8>,
}

impl Model for Header {
    ghost use Rattle.std.specs.Prelude.{IsTrue};
    ghost use Rattle.webhook_request.specs.Requests.{HeaderField, header, is_printable};

    ghost Value = { HeaderField };

    ghost view = { λ h. header h.name h.value.items };

    ghost invariant = { λ h. IsTrue (is_printable h.value.items) };
}

impl Header {
    // The header of this name and value.
    pub(crate) fn of(name: HeaderName, value: Vec<u8>) -> Header
        requires { IsTrue (is_printable value.items) }
        ensures { result ≡ header name value.items }
    {
        Header { name, value }
    }

    /// Which header this is.
    pub fn name(&self) -> HeaderName
        ensures { result ≡ self.now.name }
    {
        self.name
    }

    /// The value.
    pub fn value(&self) -> &[u8]
        ensures bytes { result.now ≡ self.now.value }
        ensures printable { IsTrue (is_printable self.now.value) }
    {
        self.value.as_slice()
    }
}
