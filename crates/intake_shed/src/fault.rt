//! Why a request isn't read.
ghost use Rattle.std.specs.Prelude.{◌≡◌};
ghost use Rattle.intake_shed.specs.Replies.{ask_reply};
ghost use Rattle.intake_shed.specs.declared.fault.RequestError.TheVariants.{OutOfMemory};

use crate::reply::Reply;
use std::alloc::AllocError;

/// Why a request isn't read, in the order of the checks.
#[derive(Clone, Copy, PartialEq, Eq, Debug)]
pub enum RequestError {
    /// The table of requests has no such method and path.
    NotFound,
    /// The path has no name of an endpoint, or of a topic.
    BadName,
    /// The body has more than 65,536 bytes.
    TooLong,
    /// More than one id of an event, or one that is no id.
    BadId,
    /// No JSON object with the members of the route, each of its kind.
    BadBody,
    /// The url is no target.
    BadUrl,
    /// The max is no whole number from 1 to 1000.
    BadMax,
    /// The secrets aren't 1 to 4 secrets.
    BadSecret,
    /// The moment is no whole number from 0 to 2^40.
    BadMoment,
    /// An allocation failed.
    OutOfMemory,
}

impl RequestError {
    /// The reply to the request.
    pub fn reply(self) -> Reply
        ensures { result ≡ ask_reply self }
    {
        match self {
            RequestError::NotFound => Reply::refused(404, "{\"error\":\"NotFound\"}"),
            RequestError::BadName => Reply::refused(400, "{\"error\":\"BadName\"}"),
            RequestError::TooLong => Reply::refused(413, "{\"error\":\"TooLong\"}"),
            RequestError::BadId => Reply::refused(400, "{\"error\":\"BadId\"}"),
            RequestError::BadBody => Reply::refused(400, "{\"error\":\"BadBody\"}"),
            RequestError::BadUrl => Reply::refused(400, "{\"error\":\"BadUrl\"}"),
            RequestError::BadMax => Reply::refused(400, "{\"error\":\"BadMax\"}"),
            RequestError::BadSecret => Reply::refused(400, "{\"error\":\"BadSecret\"}"),
            RequestError::BadMoment => Reply::refused(400, "{\"error\":\"BadMoment\"}"),
            RequestError::OutOfMemory => Reply::out_of_memory(),
        }
    }
}

impl From<AllocError> for RequestError {
    ghost from_gives = { λ _ fault. fault ≡ OutOfMemory };

    fn from(_: AllocError) -> RequestError {
        RequestError::OutOfMemory
    }
}
