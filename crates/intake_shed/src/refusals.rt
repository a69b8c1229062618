//! The replies to changes and events that aren't done.
ghost use Rattle.std.specs.Prelude.{◌≡◌};
ghost use Rattle.intake_shed.specs.Replies.{fault_reply, refusal_reply};
ghost use Rattle.intake_shed.specs.declared.refusals.SubmitError.TheVariants as submit;

use crate::reply::Reply;
use delivery::WentBack;
use desk::{Fault, Refusal};

/// Why a change or an event that was waited for isn't reported as done.
#[derive(Clone, Copy, PartialEq, Eq, Debug)]
pub enum SubmitError {
    /// The desk refused it.
    Refused(Refusal),
    /// It waited when the desk halted: it may be done or not. Or the event was settled, and a purge
    /// removed it.
    Unknown,
    /// The desk has fewer settled records than were seen before.
    WentBack,
}

impl From<Refusal> for SubmitError {
    ghost from_gives = { λ refusal fault. fault ≡ submit.Refused refusal };

    fn from(refusal: Refusal) -> SubmitError {
        SubmitError::Refused(refusal)
    }
}

impl From<WentBack> for SubmitError {
    ghost from_gives = { λ _ fault. fault ≡ submit.WentBack };

    fn from(_: WentBack) -> SubmitError {
        SubmitError::WentBack
    }
}

/// The reply to what isn't done. It doesn't allocate.
pub fn refusal_reply(fault: &SubmitError) -> Reply
    ensures { result ≡ refusal_reply fault.now }
{
    match fault {
        SubmitError::Refused(refusal) => fault_reply(refusal.fault),
        SubmitError::Unknown => Reply::refused_now("{\"error\":\"Unknown\"}"),
        SubmitError::WentBack => Reply::refused_now("{\"error\":\"WentBack\"}"),
    }
}

// The desk answers `BatchOut` to a seal alone.
fn fault_reply(fault: Fault) -> Reply
    ensures { result ≡ fault_reply fault }
{
    match fault {
        Fault::Halted => Reply::refused_now("{\"error\":\"Halted\"}"),
        Fault::UnknownEndpoint => Reply::refused(404, "{\"error\":\"UnknownEndpoint\"}"),
        Fault::UnknownTopic => Reply::refused(404, "{\"error\":\"UnknownTopic\"}"),
        Fault::Conflict => Reply::refused(409, "{\"error\":\"Conflict\"}"),
        Fault::Exists => Reply::refused(409, "{\"error\":\"Exists\"}"),
        Fault::EndpointBacklog => Reply::refused_now("{\"error\":\"EndpointBacklog\"}"),
        Fault::Backlog => Reply::refused_now("{\"error\":\"Backlog\"}"),
        Fault::TooManyEndpoints => Reply::refused(409, "{\"error\":\"TooManyEndpoints\"}"),
        Fault::TooManySubscriptions => {
            Reply::refused(409, "{\"error\":\"TooManySubscriptions\"}")
        }
        Fault::WaitingFull => Reply::refused_now("{\"error\":\"WaitingFull\"}"),
        Fault::SeqExhausted => Reply::refused_now("{\"error\":\"SeqExhausted\"}"),
        Fault::BatchOut => Reply::refused_now("{\"error\":\"BatchOut\"}"),
        Fault::OutOfMemory => Reply::out_of_memory(),
    }
}
