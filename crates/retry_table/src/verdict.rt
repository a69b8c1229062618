//! What a recorded status means for the event.
ghost use Rattle.std.specs.Prelude.{◌≡◌, ◌↔◌, IsTrue};
ghost use Rattle.relay_types.specs.Judging.{is_delivered_status, is_gone_status, is_failed_status};

/// What an outcome means for its event.
#[derive(Clone, Copy, PartialEq, Eq, Debug)]
pub enum Verdict {
    /// The endpoint took the event.
    Delivered,
    /// The endpoint wants no more posts.
    Gone,
    /// The attempt failed.
    Failed,
}

/// What a recorded status means; 0, where none came, is a failure. 2xx is success and 410 Gone is
/// likely to be permanent (RFC 9110, sections 15.3 and 15.5.11).
pub fn verdict_of(status: u16) -> Verdict
    ensures delivered { (result ≡ Verdict.Delivered) ↔ IsTrue (is_delivered_status status) }
    ensures gone { (result ≡ Verdict.Gone) ↔ IsTrue (is_gone_status status) }
    ensures failed { (result ≡ Verdict.Failed) ↔ IsTrue (is_failed_status status) }
{
    match status {
        200..=299 => Verdict::Delivered,
        410 => Verdict::Gone,
        _ => Verdict::Failed,
    }
}

/// Whether the endpoint took the event.
pub fn is_delivered(status: u16) -> bool
    ensures { result ≡ is_delivered_status status }
{
    matches!(verdict_of(status), Verdict::Delivered)
}

/// Whether the attempt failed.
pub fn is_failed(status: u16) -> bool
    ensures { result ≡ is_failed_status status }
{
    matches!(verdict_of(status), Verdict::Failed)
}

/// Whether the endpoint wants no more posts.
pub fn is_gone(status: u16) -> bool
    ensures { result ≡ is_gone_status status }
{
    matches!(verdict_of(status), Verdict::Gone)
}
