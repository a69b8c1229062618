//! The books of what the tables hold.
ghost use Rattle.std.specs.Prelude.{◌≡◌, ◌≢◌, ◌⊎◌, ◌<◌, max, false, List, IsTrue, IfOk, IfErr, IsErr, Err};
ghost use Rattle.sqlite.specs.State.{HasCleanDisk};
ghost use Rattle.sqlite.specs.Held.{state};
ghost use Rattle.relay_types.specs.declared.limits.TheConstants.{MAX_RECORDS};
ghost use Rattle.relay_types.specs.declared.record.Record.{Record};
ghost use Rattle.relay_types.specs.Legal.{IsLegal};
ghost use Rattle.relay_types.specs.Rows.{rows_of};
ghost use Rattle.endpoint_book.specs.Entries.{with_settled as endpoints_settled};
ghost use Rattle.delivery_book.specs.Entries.{with_settled as deliveries_settled};
ghost use Rattle.spool_sql.specs.Steps.{IfClean, IsOfSame, SparesCommit, Stands, SurvivesAs};
ghost use Rattle.spool_load.specs.Loading.{IsRefusedOnly, Reads, WasReadRefusal};
ghost use Rattle.spool.specs.Books.{AreBooks, AreBooksOn, AreSettled, IsLoadRefusal, IsSeen, KeepsOpen, TellsLoad};

use crate::faults::LoadFault;
use delivery_book::DeliveryBook;
use endpoint_book::EndpointBook;
use relay_types::{MAX_RECORDS, Moment};
use spool_load::{
    Deliveries, Endpoints, load_attempts, load_deliveries, load_endpoints, load_topics,
};
use spool_sql::{Cause, RowFault, cause_of, error_of, probe, select_records};
use sqlite::{Alter, Connection, Transaction};
use std::alloc::Global;

/// What a store holds of a history. All of it is settled.
#[derive(Drop)]
pub struct Books {
    /// Its endpoints.
    pub endpoints: EndpointBook,
    /// Its deliveries.
    pub deliveries: DeliveryBook,
    /// How many records it has.
    pub records: u64,
    /// The greatest moment of its events and attempts, 0 where it has none.
    pub clock: Moment,
}

/// Reads the books in one transaction, and looks whether the store is usable after it.
pub(crate) fn load_books<S: Alter>(
    conn: &mut Connection<S>,
    alloc: Global,
) -> Result<Books, LoadFault>
    requires { conn.old.in_transaction ≡ false }
    ensures books { IfClean S.Store conn.old conn.new (λ a _. IfOk result (AreBooksOn a)) }
    ensures settled { IfOk result AreSettled }
    ensures sound { IfClean S.Store conn.old conn.new (λ a b. IfErr result (λ fault.
        (history : List Record) → IsLegal history → Stands a (rows_of history) → IsLoadRefusal a b fault)) }
    ensures tried { result ≢ Err LoadFault.Closed }
    ensures seen { IfClean S.Store conn.old conn.new (λ _ b. IsSeen result → IsTrue b.is_open) }
    ensures stays { IfClean S.Store conn.old conn.new KeepsOpen }
    ensures mode { conn.new.in_transaction ≡ false }
    ensures survives { SurvivesAs S.Store conn.old conn.new (λ _ _. ⊥) }
{
    let read = read_books(conn, alloc);
    end_load(conn, read)
}

// The books, in a transaction that writes nothing.
fn read_books<S: Alter>(conn: &mut Connection<S>, alloc: Global) -> Result<Books, RowFault>
    requires { conn.old.in_transaction ≡ false }
    ensures books { IfClean S.Store conn.old conn.new (λ a _. IfOk result (AreBooksOn a)) }
    ensures settled { IfOk result AreSettled }
    ensures refused { IfClean S.Store conn.old conn.new (λ a b. IfErr result (WasReadRefusal a b)) }
    ensures stays { IfClean S.Store conn.old conn.new KeepsOpen }
    ensures mode { conn.new.in_transaction ≡ false }
    ensures survives { SurvivesAs S.Store conn.old conn.new (λ _ _. ⊥) }
{
    let mut tx = conn.transaction();
    read_tables(&mut tx, alloc)
}

// The books of the tables: first the endpoints with their topics, then the events with their names,
// then what came of these.
fn read_tables<S: Alter>(tx: &mut Transaction<'_, S>, alloc: Global) -> Result<Books, RowFault>
    ensures same_reference { IsOfSame tx.old.conn tx.new.conn }
    ensures found { Reads S.Store tx.old.conn.now tx.new.conn.now result (λ books records. AreBooks books records) }
    ensures refused { IsRefusedOnly S.Store tx.old.conn.now tx.new.conn.now result (λ _. Unit {0}) }
    ensures settled { IfOk result AreSettled }
    ensures spares { SparesCommit S.Store tx.old.conn.now tx.new.conn.now }
{
    let mut endpoints = load_endpoints(tx, alloc)?;
    load_topics(tx, &mut endpoints, alloc)?;
    let mut deliveries = load_deliveries(tx, &endpoints.names, alloc)?;
    load_attempts(tx, &mut deliveries, alloc)?;
    let records = select_records(tx)?;
    settle_books(endpoints, deliveries, records)
}

// The books once so many records are settled.
fn settle_books(
    endpoints: Endpoints,
    deliveries: Deliveries,
    records: u64,
) -> Result<Books, RowFault>
    ensures endpoints { IfOk result (λ books. books.endpoints ≡ endpoints_settled endpoints.book records) }
    ensures deliveries { IfOk result (λ books. books.deliveries ≡ deliveries_settled deliveries.book records) }
    ensures records { IfOk result (λ books. books.records ≡ records) }
    ensures clock { IfOk result (λ books. books.clock ≡ deliveries.clock) }
    ensures settled { IfOk result AreSettled }
    ensures unreadable { IsErr result
        → (records < max endpoints.book.next_seq deliveries.book.next_seq) ⊎ (MAX_RECORDS < records) }
{
    let Endpoints {
        book: mut endpoints,
        names: _,
    } = endpoints;
    let Deliveries {
        book: mut deliveries,
        clock,
    } = deliveries;
    let next = endpoints.next_seq().max(deliveries.next_seq());
    if records < next || MAX_RECORDS < records {
        return Err(RowFault::Unreadable);
    }
    endpoints.settle_to(records);
    deliveries.settle_to(records);
    Ok(Books {
        endpoints,
        deliveries,
        records,
        clock,
    })
}

// What is told of a transaction that read this, after a look at the store where it isn't told as the store's fault.
fn end_load<S: Alter>(
    conn: &mut Connection<S>,
    read: Result<Books, RowFault>,
) -> Result<Books, LoadFault>
    requires { conn.old.in_transaction ≡ false }
    ensures told { TellsLoad (state S.Store conn.old) (state S.Store conn.new) read result }
    ensures seen { IfClean S.Store conn.old conn.new (λ _ b. IsSeen result → IsTrue b.is_open) }
    ensures stays { IfClean S.Store conn.old conn.new KeepsOpen }
    ensures mode { conn.new.in_transaction ≡ false }
    ensures survives { SurvivesAs S.Store conn.old conn.new (λ _ _. ⊥) }
{
    let end = match read {
        Ok(books) => Ok(books),
        Err(fault) => {
            let error = error_of(fault);
            match cause_of(error) {
                Cause::Memory => Err(LoadFault::OutOfMemory),
                Cause::Store | Cause::Other => return Err(LoadFault::Store(error)),
            }
        }
    };
    match probe(conn) {
        Ok(()) => end,
        Err(error) => Err(LoadFault::Store(error)),
    }
}
