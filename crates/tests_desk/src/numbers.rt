//! The books of as many records as there may be.
ghost use Rattle.std.specs.Prelude.{◌≡◌, [], IfOk};
ghost use Rattle.relay_types.specs.declared.limits.TheConstants.{MAX_RECORDS};
ghost use Rattle.endpoint_book.specs.Entries.{flags_in};
ghost use Rattle.spool.specs.Books.{AreSettled};

use crate::given::{body, secrets};
use delivery_book::DeliveryBook;
use endpoint_book::EndpointBook;
use relay_types::{MAX_RECORDS, MaxLimit, Moment, MsgId, Name, Target};
use spool::Books;
use std::alloc::Global;
use std::test::Fail;

fn endpoints(alloc: Global) -> Result<EndpointBook, Fail>
    ensures next { IfOk result (λ book. book.next_seq ≡ MAX_RECORDS) }
    ensures settled { IfOk result (λ book. book.settled_seq ≡ MAX_RECORDS) }
    ensures flags { IfOk result (λ book. flags_in book ≡ 0) }
{
    let name = Name::read(b"a")?;
    let max = MaxLimit::of(100)?;
    let secrets = secrets(alloc, &[b"whsec_MDEyMzQ1Njc4OTAxMjM0NTY3ODkwMTIz"])?;
    let target = Target::read(alloc, b"http://127.0.0.1:9000/hook")?;
    let mut book = EndpointBook::new(alloc)?;
    book.restore(0, name, target, max, secrets, true)?;
    book.settle_to(MAX_RECORDS);
    Ok(book)
}

fn deliveries(alloc: Global) -> Result<DeliveryBook, Fail>
    ensures next { IfOk result (λ book. book.next_seq ≡ MAX_RECORDS) }
    ensures settled { IfOk result (λ book. book.settled_seq ≡ MAX_RECORDS) }
    ensures outcomes { IfOk result (λ book. book.unsettled ≡ []) }
{
    let name = Name::read(b"a")?;
    let id = MsgId::read(b"msg_1")?;
    let at = Moment::of(1000)?;
    let body = body(alloc, b"{}")?;
    let mut book = DeliveryBook::new(alloc);
    book.stage_accept(1, name, id, body, at)?;
    book.settle_to(MAX_RECORDS);
    Ok(book)
}

/// The books of as many records as there may be, among them endpoint `a` and an event of 1000.
pub(crate) fn spent_books(alloc: Global) -> Result<Books, Fail>
    ensures { IfOk result AreSettled }
{
    let clock = Moment::of(999)?;
    Ok(Books {
        endpoints: endpoints(alloc)?,
        deliveries: deliveries(alloc)?,
        records: MAX_RECORDS,
        clock,
    })
}
