//! Calls on values that are made before.
use crate::failed::Failed;
use crate::given::{FixedValues, body_of, target_of};
use crate::oom::{CallError, RepeatableCall, try_made};
use crate::oom_texts::PUT;
use drill::Event;
use hmac_signer::signature_header;
use relay_types::{Body, Record, Step, Target};
use script_lines::{Call, read_call};
use sound_rows::{Attempt, Delivery, Endpoint, RowNumbers, Topic};
use std::alloc::{AllocError, Global};
use std::io;

#[derive(Clone, Copy)]
pub(crate) enum ShareCall {
    AreSound,
    Body,
    Call,
    Event,
    Header,
    Record,
    Step,
    StepEvent,
    Target,
}

fn done<T: Drop>(shared: Result<T, AllocError>) -> Result<u64, CallError> {
    let _same = shared?;
    Ok(0)
}

impl RepeatableCall for Body {
    fn attempt(&mut self, _: &HostRuntime) -> Result<u64, CallError> {
        Ok(self.share()?.as_bytes().len() as u64)
    }
}

impl RepeatableCall for Target {
    fn attempt(&mut self, _: &HostRuntime) -> Result<u64, CallError> {
        Ok(u64::from(self.share()?.port()))
    }
}

impl RepeatableCall for Record {
    fn attempt(&mut self, _: &HostRuntime) -> Result<u64, CallError> {
        done(self.share())
    }
}

impl RepeatableCall for Step {
    fn attempt(&mut self, _: &HostRuntime) -> Result<u64, CallError> {
        done(self.share())
    }
}

impl RepeatableCall for Call {
    fn attempt(&mut self, _: &HostRuntime) -> Result<u64, CallError> {
        done(self.share())
    }
}

impl RepeatableCall for Event {
    fn attempt(&mut self, _: &HostRuntime) -> Result<u64, CallError> {
        done(self.share())
    }
}

impl RepeatableCall for RowNumbers {
    fn attempt(&mut self, rt: &HostRuntime) -> Result<u64, CallError> {
        Ok(u64::from(self.are_sound(rt.alloc())?))
    }
}

/// An event that is signed.
#[derive(Drop)]
struct Signed {
    given: FixedValues,
    body: Body,
}

impl RepeatableCall for Signed {
    fn attempt(&mut self, rt: &HostRuntime) -> Result<u64, CallError> {
        let FixedValues {
            secrets,
            id,
            at,
            ..
        } = &self.given;
        Ok(signature_header(rt.alloc(), secrets, id, *at, &self.body)?.len() as u64)
    }
}

/// An event at two endpoints.
#[derive(Drop)]
struct Published {
    given: FixedValues,
    body: Body,
}

impl RepeatableCall for Published {
    // How many records the step has.
    fn attempt(&mut self, rt: &HostRuntime) -> Result<u64, CallError> {
        let names = [self.given.name, self.given.other];
        let step = Step::event(rt.alloc(), &names, self.given.id, &self.body, self.given.at)?;
        Ok(step.records().len() as u64)
    }
}

fn signed_of(alloc: Global, given: FixedValues) -> Result<Signed, Failed> {
    let body = body_of(alloc)?;
    Ok(Signed { given, body })
}

fn published_of(alloc: Global, given: FixedValues) -> Result<Published, Failed> {
    let body = body_of(alloc)?;
    Ok(Published { given, body })
}

fn record_of(alloc: Global, given: FixedValues) -> Result<Record, Failed> {
    let target = target_of(alloc)?;
    Ok(Record::Put {
        name: given.name,
        target,
        max: given.max,
        secrets: given.secrets,
    })
}

fn step_of(alloc: Global, given: FixedValues) -> Result<Step, Failed> {
    let record = record_of(alloc, given)?;
    Ok(Step::of(record))
}

fn call_of(alloc: Global) -> Result<Call, Failed> {
    match read_call(alloc, PUT) {
        Ok(call) => Ok(call),
        Err(_) => Err(Failed),
    }
}

fn event_of(alloc: Global) -> Result<Event, Failed> {
    let call = call_of(alloc)?;
    Ok(Event::Line(call))
}

// Those of an endpoint, an event, a failed attempt and a topic.
fn numbers_of(alloc: Global) -> Result<RowNumbers, Failed> {
    let endpoint = Endpoint {
        put: 0,
        enabled: true,
        enabled_by: 0,
        secrets_by: 0,
    };
    let attempt = Attempt {
        seq: 2,
        delivery: 1,
        number: 1,
        status: 500,
    };
    let event = Delivery {
        seq: 1,
        endpoint: 0,
    };
    let topic = Topic {
        endpoint: 0,
        set_by: 3,
    };
    Ok(RowNumbers {
        records: 4,
        endpoints: Vec::from_slice(alloc, &[endpoint])?,
        deliveries: Vec::from_slice(alloc, &[event])?,
        attempts: Vec::from_slice(alloc, &[attempt])?,
        topics: Vec::from_slice(alloc, &[topic])?,
    })
}

/// Makes the call. Whether it was made.
pub(crate) fn try_share(rt: &HostRuntime, call: ShareCall, given: FixedValues) -> io::Result<bool> {
    let alloc = rt.alloc();
    match call {
        ShareCall::AreSound => try_made(rt, numbers_of(alloc)),
        ShareCall::Body => try_made(rt, body_of(alloc)),
        ShareCall::Call => try_made(rt, call_of(alloc)),
        ShareCall::Event => try_made(rt, event_of(alloc)),
        ShareCall::Header => try_made(rt, signed_of(alloc, given)),
        ShareCall::Record => try_made(rt, record_of(alloc, given)),
        ShareCall::Step => try_made(rt, step_of(alloc, given)),
        ShareCall::StepEvent => try_made(rt, published_of(alloc, given)),
        ShareCall::Target => try_made(rt, target_of(alloc)),
    }
}
