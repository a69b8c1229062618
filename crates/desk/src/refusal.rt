//! Why a call changed nothing.
ghost use Rattle.std.specs.Prelude.{◌≡◌};
ghost use Rattle.desk.specs.Faults.{first_fault, out_of_memory_at};

use std::alloc::AllocError;

/// The names of the refusals.
#[derive(Clone, Copy, PartialEq, Eq, Debug)]
pub enum Fault {
    Halted,
    UnknownEndpoint,
    UnknownTopic,
    Conflict,
    Exists,
    EndpointBacklog,
    Backlog,
    TooManyEndpoints,
    TooManySubscriptions,
    WaitingFull,
    SeqExhausted,
    BatchOut,
    OutOfMemory,
}

/// Why a call changed nothing: its number in the call's list of refusals, and its name.
#[derive(Clone, Copy, PartialEq, Eq, Debug)]
pub struct Refusal {
    pub number: u8,
    pub fault: Fault,
}

// Refuses for the first of these faults that is there.
pub(crate) fn check(faults: &[(bool, u8, Fault)]) -> Result<(), Refusal>
    ensures { result ≡ first_fault faults.now }
{
    for (there, number, fault) in faults {
        if *there {
            return Err(Refusal {
                number: *number,
                fault: *fault,
            });
        }
    }
    Ok(())
}

// Refuses by this number where memory was refused.
pub(crate) fn or_out_of_memory<T>(number: u8, made: Result<T, AllocError>) -> Result<T, Refusal>
    ensures { result ≡ out_of_memory_at number made }
{
    match made {
        Ok(value) => Ok(value),
        Err(AllocError) => Err(Refusal {
            number,
            fault: Fault::OutOfMemory,
        }),
    }
}
