//! Why no answer came.
ghost use Rattle.std.specs.Prelude.{◌≡◌, ◌≢◌, ◌↔◌};
ghost use Rattle.hyper_poster.specs.Failures.{IsRefusedHere, of_header_map, of_header_value, of_uri};
ghost use Rattle.hyper_poster.specs.declared.failure.Failure.TheVariants.{Unsent};

use http::header::{HeaderMapError, HeaderValueError};
use http::uri::UriError;
use std::alloc::AllocError;
use std::io;
use std::io::ErrorKind;

/// The process, or the system, has as many open files as it may have, and there is no room for a
/// socket (errno of Linux).
const EMFILE: i32 = 24;

const ENFILE: i32 = 23;

const ENOBUFS: i32 = 105;

// Why no answer came to a request.
#[derive(Clone, Copy)]
pub(crate) enum Failure {
    /// The timeout passed.
    Late,
    /// There was no connection, or it ended or failed before a status.
    Unreached,
    /// It was refused on this side, and nothing was sent.
    Unsent,
}

impl From<AllocError> for Failure {
    ghost from_gives = { λ _ failure. failure ≡ Unsent };

    fn from(_: AllocError) -> Failure {
        Failure::Unsent
    }
}

// A request that `http` doesn't take goes nowhere.
impl From<UriError> for Failure {
    ghost from_gives = { λ error failure. failure ≡ of_uri error };

    fn from(error: UriError) -> Failure {
        match error {
            UriError::OutOfMemory => Failure::Unsent,
            UriError::Invalid(_) => Failure::Unreached,
        }
    }
}

impl From<HeaderValueError> for Failure {
    ghost from_gives = { λ error failure. failure ≡ of_header_value error };

    fn from(error: HeaderValueError) -> Failure {
        match error {
            HeaderValueError::OutOfMemory => Failure::Unsent,
            HeaderValueError::Invalid => Failure::Unreached,
        }
    }
}

impl From<HeaderMapError> for Failure {
    ghost from_gives = { λ error failure. failure ≡ of_header_map error };

    fn from(error: HeaderMapError) -> Failure {
        match error {
            HeaderMapError::OutOfMemory => Failure::Unsent,
            HeaderMapError::MaxSizeReached => Failure::Unreached,
        }
    }
}

impl Failure {
    // What was refused before a connection was asked for.
    pub(crate) fn before(_: io::Error) -> Failure
        ensures { result ≡ Failure.Unsent }
    {
        Failure::Unsent
    }

    // How a refusal by the system counts, once a subscriber was asked for.
    pub(crate) fn of(error: io::Error) -> Failure
        ensures here { (result ≡ Failure.Unsent) ↔ IsRefusedHere error }
        ensures asked { result ≢ Failure.Late }
    {
        match (error.raw_os_error(), error.kind()) {
            (Some(EMFILE | ENFILE | ENOBUFS), _) | (_, ErrorKind::OutOfMemory) => Failure::Unsent,
            _ => Failure::Unreached,
        }
    }
}
