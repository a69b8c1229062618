//! Calls that stage in a book, or reserve in the claim queue.
use crate::failed::Failed;
use crate::given::{FixedValues, body_of, target_of};
use crate::oom::{CallError, RepeatableCall, try_made, try_twice};
use claim_queue::ClaimQueue;
use delivery_book::DeliveryBook;
use endpoint_book::EndpointBook;
use relay_types::{Body, MAX_RECORDS, Name, Target};
use std::alloc::Global;
use std::io;

#[derive(Clone, Copy)]
pub(crate) enum BookCall {
    Accept,
    Accepts,
    Put,
    Reserve,
    Restore,
    RestoreTopic,
    Secrets,
    Subscribe,
}

impl RepeatableCall for ClaimQueue {
    fn attempt(&mut self, _: &HostRuntime) -> Result<u64, CallError> {
        let name = Name::read(b"a")?;
        self.reserve(name, 1)?;
        Ok(self.free_places(name) as u64)
    }
}

/// The deliveries, and the body of an event.
#[derive(Drop)]
struct Deliveries {
    call: BookCall,
    given: FixedValues,
    book: DeliveryBook,
    body: Body,
}

impl RepeatableCall for Deliveries {
    fn attempt(&mut self, _: &HostRuntime) -> Result<u64, CallError> {
        match self.call {
            BookCall::Accept => accept(&mut self.book, &self.given, &self.body),
            _ => accept_both(&mut self.book, &self.given, &self.body),
        }
    }

    fn state(&self) -> u64 {
        self.book.next_seq()
    }
}

fn accept(book: &mut DeliveryBook, given: &FixedValues, body: &Body) -> Result<u64, CallError> {
    let seq = book.next_seq();
    if seq >= MAX_RECORDS || book.find(given.name, &given.id).is_some() {
        return Err(CallError::Other);
    }
    book.stage_accept(seq, given.name, given.id, body.share()?, given.at)?;
    Ok(seq)
}

fn accept_both(
    book: &mut DeliveryBook,
    given: &FixedValues,
    body: &Body,
) -> Result<u64, CallError> {
    let names = [given.name, given.other];
    let seq = book.next_seq();
    if MAX_RECORDS - 2 < seq || given.name == given.other {
        return Err(CallError::Other);
    }
    if book.find(given.name, &given.id).is_some() || book.find(given.other, &given.id).is_some() {
        return Err(CallError::Other);
    }
    book.stage_accepts(seq, &names, given.id, body, given.at)?;
    Ok(seq)
}

/// The endpoints, and the URL of one.
#[derive(Drop)]
struct Endpoints {
    call: BookCall,
    given: FixedValues,
    book: EndpointBook,
    target: Target,
}

impl RepeatableCall for Endpoints {
    fn attempt(&mut self, rt: &HostRuntime) -> Result<u64, CallError> {
        match self.call {
            BookCall::Put => put(&mut self.book, &self.given, &self.target),
            BookCall::Subscribe => subscribe(&mut self.book, &self.given),
            call => over_restored(rt.alloc(), call, &self.given, &self.target),
        }
    }

    fn state(&self) -> u64 {
        self.book.next_seq()
    }
}

fn put(book: &mut EndpointBook, given: &FixedValues, target: &Target) -> Result<u64, CallError> {
    let seq = book.next_seq();
    if seq >= MAX_RECORDS || book.contains(given.name) {
        return Err(CallError::Other);
    }
    book.stage_put(seq, given.name, target.share()?, given.max, given.secrets)?;
    Ok(seq)
}

// The endpoint's topic has the name of the other one.
fn subscribe(book: &mut EndpointBook, given: &FixedValues) -> Result<u64, CallError> {
    let seq = book.next_seq();
    if seq >= MAX_RECORDS || book.free_subscriptions() == 0 {
        return Err(CallError::Other);
    }
    book.stage_subscribed(seq, given.other, given.name, true)?;
    Ok(seq)
}

// Over a book of its own, in which nothing waits.
fn over_restored(
    alloc: Global,
    call: BookCall,
    given: &FixedValues,
    target: &Target,
) -> Result<u64, CallError> {
    let mut book = restored(alloc, given, target)?;
    match call {
        BookCall::RestoreTopic => restore_topic(&mut book, given),
        BookCall::Secrets => give(&mut book, given),
        _ => Ok(book.len() as u64),
    }
}

fn restored(
    alloc: Global,
    given: &FixedValues,
    target: &Target,
) -> Result<EndpointBook, CallError> {
    let mut book = EndpointBook::new(alloc)?;
    if book.next_seq() > 0 || book.contains(given.name) {
        return Err(CallError::Other);
    }
    book.restore(
        0,
        given.name,
        target.share()?,
        given.max,
        given.secrets,
        true,
    )?;
    Ok(book)
}

fn restore_topic(book: &mut EndpointBook, given: &FixedValues) -> Result<u64, CallError> {
    if book.free_subscriptions() == 0 {
        return Err(CallError::Other);
    }
    book.restore_subscribed(given.other, given.name, true)?;
    Ok(book.len() as u64)
}

// To an endpoint that is settled. Behind one that waits, a book has room for them.
fn give(book: &mut EndpointBook, given: &FixedValues) -> Result<u64, CallError> {
    let seq = book.next_seq();
    if seq >= MAX_RECORDS || !book.contains(given.name) {
        return Err(CallError::Other);
    }
    book.stage_secrets(seq, given.name, given.secrets)?;
    Ok(seq)
}

fn deliveries_of(alloc: Global, call: BookCall, given: FixedValues) -> Result<Deliveries, Failed> {
    let body = body_of(alloc)?;
    let book = DeliveryBook::new(alloc);
    Ok(Deliveries {
        call,
        given,
        book,
        body,
    })
}

fn endpoints_of(alloc: Global, call: BookCall, given: FixedValues) -> Result<Endpoints, Failed> {
    let target = target_of(alloc)?;
    let book = EndpointBook::new(alloc)?;
    Ok(Endpoints {
        call,
        given,
        book,
        target,
    })
}

/// Makes the call. Whether it was made.
pub(crate) fn try_book(rt: &HostRuntime, call: BookCall, given: FixedValues) -> io::Result<bool> {
    let alloc = rt.alloc();
    match call {
        BookCall::Accept | BookCall::Accepts => try_made(rt, deliveries_of(alloc, call, given)),
        BookCall::Reserve => try_twice(rt, &mut ClaimQueue::new(alloc)),
        _ => try_made(rt, endpoints_of(alloc, call, given)),
    }
}
