//! The endpoints that the tables hold, read back into a book.
ghost use Rattle.std.specs.Prelude.{◌≡◌, ◌↔◌, ◌++◌, [], ◌∷◌, map, IfErr, IsTrue, OnOk};
ghost use Rattle.relay_types.specs.Rows.{rows_of};
ghost use Rattle.endpoint_book.specs.Entries.{restored_entry, with_restored};
ghost use Rattle.spool_sql.specs.Readable.{IsMemoryFault};
ghost use Rattle.spool_sql.specs.Stored.{endpoint_of};
ghost use Rattle.spool_sql.specs.Steps.{IsOfSame, LeavesAll, SparesCommit};
ghost use Rattle.spool_load.specs.Loading.{LeavesOpen, Reads, IsRefusedOnly, AreRestored, Restores, NextToRestore};
ghost use Rattle.spool_load.specs.Loading.{MayRestore, named_put_of};

use endpoint_book::EndpointBook;
use relay_types::{MAX_RECORDS, Name, Secrets};
use spool_sql::{EndpointRow, RowFault, Seq, next_page, select_endpoints, select_secrets};
use sqlite::{Alter, Error, Transaction};
use std::alloc::Global;

/// The number of an endpoint's Put, and its name.
#[derive(Clone, Copy)]
pub struct NamedPut {
    /// The number.
    pub put: u64,
    /// The name.
    pub name: Name,
}

/// The endpoints that were read so far.
#[derive(Drop)]
pub struct Endpoints {
    /// Their book.
    pub book: EndpointBook,
    /// The number of each one's Put and its name, in the order of the numbers.
    pub names: Vec<NamedPut>,
}

impl Endpoints {
    // Whether the endpoint of this number and name may be the next one.
    fn may_restore(&self, put: u64, name: Name) -> bool
        ensures { IsTrue result ↔ MayRestore self.now.book put name }
    {
        self.book.next_seq() <= put && !self.book.contains(name)
    }

    // Takes in the endpoint of this row, which has these secrets.
    fn restore(&mut self, row: EndpointRow, secrets: Secrets) -> Result<(), RowFault>
        requires { self.old.book.changes ≡ [] }
        ensures book { OnOk result (self.new.book ≡ with_restored self.old.book
            (restored_entry row.put row.name row.target row.max secrets row.enabled)) }
        ensures names { OnOk result (self.new.names.items
            ≡ self.old.names.items ++ named_put_of (endpoint_of row) ∷ []) }
        ensures settled { OnOk result (self.new.book.changes ≡ []) }
        ensures refused { IfErr result (λ fault. MayRestore self.old.book row.put row.name → IsMemoryFault fault) }
    {
        let put = row.put.get();
        if !self.may_restore(put, row.name) {
            return Err(RowFault::Unreadable);
        }
        self.names
            .push(NamedPut {
                put,
                name: row.name,
            })
            .map_err(Error::from)?;
        self.book
            .restore(put, row.name, row.target, row.max, secrets, row.enabled)
            .map_err(Error::from)?;
        Ok(())
    }
}

// Takes in the endpoint of this row with the secrets that the table has of it.
fn restore_endpoint<S: Alter>(
    tx: &mut Transaction<'_, S>,
    loaded: &mut Endpoints,
    row: EndpointRow,
    alloc: Global,
) -> Result<(), RowFault>
    requires { loaded.old.book.changes ≡ [] }
    ensures same_reference { IsOfSame tx.old.conn tx.new.conn }
    ensures unchanged { LeavesAll S.Store tx.old.conn.now tx.new.conn.now result }
    ensures found { Reads S.Store tx.old.conn.now tx.new.conn.now result
        (λ _. Restores loaded.old loaded.new (endpoint_of row ∷ [])) }
    ensures refused { IsRefusedOnly S.Store tx.old.conn.now tx.new.conn.now result
        (NextToRestore loaded.old (endpoint_of row ∷ [])) }
    ensures settled { OnOk result (loaded.new.book.changes ≡ []) }
    ensures spares { SparesCommit S.Store tx.old.conn.now tx.new.conn.now }
{
    let found = select_secrets(tx, row.put, alloc)?;
    let Ok(secrets) = Secrets::of(&found) else {
        return Err(RowFault::Unreadable);
    };
    loaded.restore(row, secrets)
}

// Takes in the endpoints of a page.
fn restore_page<S: Alter>(
    tx: &mut Transaction<'_, S>,
    loaded: &mut Endpoints,
    page: Vec<EndpointRow>,
    alloc: Global,
) -> Result<(), RowFault>
    requires { loaded.old.book.changes ≡ [] }
    ensures same_reference { IsOfSame tx.old.conn tx.new.conn }
    ensures unchanged { LeavesOpen S.Store tx.old.conn.now tx.new.conn.now result }
    ensures found { Reads S.Store tx.old.conn.now tx.new.conn.now result
        (λ _. Restores loaded.old loaded.new (map endpoint_of page.items)) }
    ensures refused { IsRefusedOnly S.Store tx.old.conn.now tx.new.conn.now result
        (NextToRestore loaded.old (map endpoint_of page.items)) }
    ensures settled { OnOk result (loaded.new.book.changes ≡ []) }
    ensures spares { SparesCommit S.Store tx.old.conn.now tx.new.conn.now }
{
    for row in page {
        restore_endpoint(tx, loaded, row, alloc)?;
    }
    Ok(())
}

/// The endpoints of the tables, each with its secrets and its flag.
pub fn load_endpoints<S: Alter>(
    tx: &mut Transaction<'_, S>,
    alloc: Global,
) -> Result<Endpoints, RowFault>
    ensures same_reference { IsOfSame tx.old.conn tx.new.conn }
    ensures unchanged { LeavesOpen S.Store tx.old.conn.now tx.new.conn.now result }
    ensures found { Reads S.Store tx.old.conn.now tx.new.conn.now result
        (λ loaded records. AreRestored loaded records (rows_of records).endpoints) }
    ensures refused { IsRefusedOnly S.Store tx.old.conn.now tx.new.conn.now result (λ _. Unit {0}) }
    ensures spares { SparesCommit S.Store tx.old.conn.now tx.new.conn.now }
{
    let mut loaded = Endpoints {
        book: EndpointBook::new(alloc).map_err(Error::from)?,
        names: Vec::new(alloc),
    };
    let mut from = 0;
    while from < MAX_RECORDS {
        let page = select_endpoints(tx, Seq::of(from), alloc)?;
        from = next_page(page.last().map(|row| row.put), from, MAX_RECORDS)?;
        restore_page(tx, &mut loaded, page, alloc)?;
    }
    Ok(loaded)
}
