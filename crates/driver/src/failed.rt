//! Why a run wasn't begun.
use desk::Refusal;
use relay_types::ReadFault;
use std::alloc::AllocError;

/// What a run works on couldn't be made.
#[derive(Drop)]
pub(crate) struct Failed;

impl From<AllocError> for Failed {
    fn from(_: AllocError) -> Failed {
        Failed
    }
}

impl From<ReadFault> for Failed {
    fn from(_: ReadFault) -> Failed {
        Failed
    }
}

impl From<Refusal> for Failed {
    fn from(_: Refusal) -> Failed {
        Failed
    }
}
