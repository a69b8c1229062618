//! The events that the tables hold, read back into a book.
ghost use Rattle.std.specs.Prelude.{◌≡◌, ◌↔◌, ◌==◌, false, List, map, max, None, IfErr, IsTrue, IfSome, OnOk};
ghost use Rattle.std.specs.List.{list_any};
ghost use Rattle.relay_types.specs.declared.limits.TheConstants.{MAX_RECORDS};
ghost use Rattle.relay_types.specs.declared.record.Record.{Record};
ghost use Rattle.relay_types.specs.Legal.{IsLegal};
ghost use Rattle.relay_types.specs.Rows.{rows_of};
ghost use Rattle.delivery_book.specs.Entries.{with_event};
ghost use Rattle.spool_sql.specs.Readable.{IsMemoryFault};
ghost use Rattle.spool_sql.specs.Stored.{delivery_of};
ghost use Rattle.spool_sql.specs.Steps.{IsOfSame, SparesCommit};
ghost use Rattle.spool_load.specs.Loading.{LeavesOpen, Reads, IsRefusedOnly, AreAccepted, Accepts, NextToAccept};
ghost use Rattle.spool_load.specs.Loading.{MayAccept, AreNames, IsNameOf};
ghost use Rattle.spool_sql.specs.Reading.{IsRising};

use crate::deliveries::Deliveries;
use crate::endpoints::NamedPut;
use delivery_book::DeliveryBook;
use relay_types::{MAX_RECORDS, Moment, MsgId, Name};
use spool_sql::{DeliveryRow, RowFault, Seq, next_page, select_deliveries};
use sqlite::{Alter, Error, Transaction};
use std::alloc::Global;

impl Deliveries {
    // Whether the event of this number, endpoint and id may be the next one.
    fn may_accept(&self, seq: u64, name: Name, id: &MsgId) -> bool
        ensures { IsTrue result ↔ MayAccept self.now.book seq name id.now }
    {
        self.book.next_seq() <= seq && self.book.find(name, id).is_none()
    }

    // Takes in the event of this row, for the endpoint of this name.
    fn accept(&mut self, row: DeliveryRow, name: Name) -> Result<(), RowFault>
        ensures book { OnOk result (self.new.book ≡ with_event self.old.book row.seq name row.id row.body row.at) }
        ensures clock { OnOk result (self.new.clock ≡ max self.old.clock row.at) }
        ensures refused { IfErr result (λ fault. MayAccept self.old.book row.seq name row.id → IsMemoryFault fault) }
    {
        let seq = row.seq.get();
        if !self.may_accept(seq, name, &row.id) {
            return Err(RowFault::Unreadable);
        }
        self.book
            .stage_accept(seq, name, row.id, row.body, row.at)
            .map_err(Error::from)?;
        self.clock = self.clock.max(row.at);
        Ok(())
    }
}

// The name of the endpoint with this number, by halves.
pub(crate) fn name_of(names: &[NamedPut], put: u64) -> Option<Name>
    ensures found { IfSome result (IsNameOf names.now put) }
    ensures missing { result ≡ None → IsRising (λ known. known.put) 0 MAX_RECORDS names.now
        → list_any (λ known. known.put == put) names.now ≡ false }
{
    let index = names.partition_point(|known| known.put < put);
    match names.get(index) {
        Some(known) if known.put == put => Some(known.name),
        _ => None,
    }
}

// Takes in the events of a page, whose endpoints have these names.
fn accept_page(
    loaded: &mut Deliveries,
    names: &[NamedPut],
    page: Vec<DeliveryRow>,
) -> Result<(), RowFault>
    ensures found { OnOk result ((records : List Record) → AreNames names.now records
        → Accepts loaded.old loaded.new (map delivery_of page.items) records) }
    ensures refused { IfErr result (λ fault. (records : List Record) → IsLegal records → AreNames names.now records
        → NextToAccept loaded.old (map delivery_of page.items) records → IsMemoryFault fault) }
{
    for row in page {
        let Some(name) = name_of(names, row.endpoint.get()) else {
            return Err(RowFault::Unreadable);
        };
        loaded.accept(row, name)?;
    }
    Ok(())
}

/// The events of the tables, each without an attempt; the endpoints of the tables have these names.
pub fn load_deliveries<S: Alter>(
    tx: &mut Transaction<'_, S>,
    names: &[NamedPut],
    alloc: Global,
) -> Result<Deliveries, RowFault>
    ensures same_reference { IsOfSame tx.old.conn tx.new.conn }
    ensures unchanged { LeavesOpen S.Store tx.old.conn.now tx.new.conn.now result }
    ensures found { Reads S.Store tx.old.conn.now tx.new.conn.now result
        (λ loaded records. AreNames names.now records → AreAccepted loaded records (rows_of records).deliveries) }
    ensures refused { IsRefusedOnly S.Store tx.old.conn.now tx.new.conn.now result (AreNames names.now) }
    ensures spares { SparesCommit S.Store tx.old.conn.now tx.new.conn.now }
{
    let Ok(clock) = Moment::of(0) else {
        unreachable!()
    };
    let mut loaded = Deliveries {
        book: DeliveryBook::new(alloc),
        clock,
    };
    let mut from = 0;
    while from < MAX_RECORDS {
        let page = select_deliveries(tx, Seq::of(from), alloc)?;
        from = next_page(page.last().map(|row| row.seq), from, MAX_RECORDS)?;
        accept_page(&mut loaded, names, page)?;
    }
    Ok(loaded)
}
