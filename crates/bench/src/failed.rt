//! Why a run ended early.
use desk::Refusal;
use relay_types::ReadFault;
use sqlite::Error;
use std::alloc::AllocError;
use std::io;

/// A run that went wrong, or words that name none.
#[derive(Drop)]
pub(crate) struct Failed;

impl From<AllocError> for Failed {
    fn from(_: AllocError) -> Failed {
        Failed
    }
}

impl From<io::Error> for Failed {
    fn from(_: io::Error) -> Failed {
        Failed
    }
}

impl From<Error> for Failed {
    fn from(_: Error) -> Failed {
        Failed
    }
}

impl From<ReadFault> for Failed {
    fn from(_: ReadFault) -> Failed {
        Failed
    }
}

impl From<Refusal> for Failed {
    fn from(_: Refusal) -> Failed {
        Failed
    }
}
