//! Why a call changed nothing.

/// The step has more records than there are free places for requests. It comes back.
#[derive(Clone, Copy, PartialEq, Eq, Debug)]
pub struct WaitingFull;

/// Why no batch was sealed.
#[derive(Clone, Copy, PartialEq, Eq, Debug)]
pub enum SealFault {
    /// A batch is out.
    BatchOut,
    /// Memory was refused.
    OutOfMemory,
}

/// What was handed in isn't what is out. It comes back.
#[derive(Clone, Copy, PartialEq, Eq, Debug)]
pub struct WrongTurn;
