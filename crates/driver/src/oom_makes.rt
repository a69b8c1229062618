//! Calls that make what is empty: books, lists, pools, a desk, a log, a limit.
ghost use Rattle.std.specs.Prelude.{◌≡◌};
ghost use Rattle.permits.specs.declared.pool.TheConstants.{PARTS};

use crate::desks::MARK;
use crate::given::FixedValues;
use crate::oom::{CallError, RepeatableCall, try_twice};
use claim_queue::ClaimQueue;
use delivery_book::DeliveryBook;
use desk::Desk;
use endpoint_book::EndpointBook;
use group_commit::Waiting;
use permits::{PARTS, Pool};
use run_log::{LogId, NewLog};
use std::alloc::Global;
use std::io;
use std::marker::Brand;
use std::sync::ledger::{Blank, Ledger};
use vegas::Estimator;

#[derive(Clone, Copy)]
pub(crate) enum MakeCall {
    Deliveries,
    Desk,
    Endpoints,
    Estimator,
    Log,
    Pool,
    Queue,
    Waiting,
}

/// A call, and what it is handed.
#[derive(Clone, Copy)]
struct Makes {
    call: MakeCall,
    given: FixedValues,
}

impl RepeatableCall for Makes {
    fn attempt(&mut self, rt: &HostRuntime) -> Result<u64, CallError> {
        let alloc = rt.alloc();
        match self.call {
            MakeCall::Deliveries => Ok(DeliveryBook::new(alloc).next_seq()),
            MakeCall::Desk => new_desk::<Brand>(alloc, Blank::new(PARTS)),
            MakeCall::Endpoints => Ok(EndpointBook::new(alloc)?.next_seq()),
            MakeCall::Estimator => Ok(u64::from(Estimator::new(alloc, self.given.max)?.limit())),
            MakeCall::Log => new_log(alloc),
            MakeCall::Pool => new_pool::<Brand>(alloc, Blank::new(PARTS)),
            MakeCall::Queue => Ok(ClaimQueue::new(alloc).free_places(self.given.name) as u64),
            MakeCall::Waiting => Ok(Waiting::new(alloc, 0, MARK)?.records()),
        }
    }
}

fn new_pool<L: Ledger>(alloc: Global, blank: Blank) -> Result<u64, CallError>
    requires name { blank.name ≡ L.name }
    requires parts { blank.parts ≡ L.parts }
    requires enough { blank.parts ≡ PARTS }
{
    Ok(Pool::<L>::new(alloc, blank)?.live() as u64)
}

fn new_desk<L: Ledger>(alloc: Global, blank: Blank) -> Result<u64, CallError>
    requires name { blank.name ≡ L.name }
    requires parts { blank.parts ≡ L.parts }
    requires enough { blank.parts ≡ PARTS }
{
    Ok(Desk::<L>::new(alloc, blank, MARK)?.records())
}

fn new_log(alloc: Global) -> Result<u64, CallError> {
    match NewLog::new(alloc) {
        Ok(new_log) => {
            end_log::<Brand>(new_log);
            Ok(0)
        }
        Err(refused) => Err(CallError::from(refused)),
    }
}

// Ends a log that nothing is appended to.
fn end_log<I: LogId>(new_log: NewLog)
    requires { new_log ≡ I.table }
{
    let (_log, _writer) = new_log.named::<I>();
}

/// Makes the call. Whether it was made.
pub(crate) fn try_make(rt: &HostRuntime, call: MakeCall, given: FixedValues) -> io::Result<bool> {
    try_twice(rt, &mut Makes { call, given })
}
