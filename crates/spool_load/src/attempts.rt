//! The attempts that the tables hold, read back into the book of their events.
ghost use Rattle.std.specs.Prelude.{◌≡◌, false, List, map, max, IsErr, OnOk};
ghost use Rattle.relay_types.specs.declared.record.Record.{Record};
ghost use Rattle.relay_types.specs.Legal.{IsLegal};
ghost use Rattle.relay_types.specs.Rows.{rows_of};
ghost use Rattle.delivery_book.specs.Entries.{may_restore, with_outcome_restored};
ghost use Rattle.spool_sql.specs.Stored.{attempt_of};
ghost use Rattle.spool_sql.specs.Steps.{IsOfSame, SparesCommit};
ghost use Rattle.spool_load.specs.Loading.{LeavesOpen, Reads, IsRefusedOnly, AreAccepted, AreAttempted, Attempts};
ghost use Rattle.spool_load.specs.Loading.{NextToAttempt};

use crate::deliveries::Deliveries;
use relay_types::MAX_RECORDS;
use spool_sql::{AttemptRow, RowFault, Seq, next_page, select_attempts};
use sqlite::{Alter, Transaction};
use std::alloc::Global;

impl Deliveries {
    // Takes in the attempt of this row.
    fn restore(&mut self, row: AttemptRow) -> Result<(), RowFault>
        ensures book { OnOk result (self.new.book
            ≡ with_outcome_restored self.old.book row.delivery row.status row.at) }
        ensures clock { OnOk result (self.new.clock ≡ max self.old.clock row.at) }
        ensures unreadable { IsErr result → may_restore self.old.book row.delivery ≡ false }
    {
        let delivery = row.delivery.get();
        if !self.book.may_restore(delivery) {
            return Err(RowFault::Unreadable);
        }
        self.book.restore_outcome(delivery, row.status, row.at);
        self.clock = self.clock.max(row.at);
        Ok(())
    }
}

// Takes in the attempts of a page.
fn restore_page(loaded: &mut Deliveries, page: Vec<AttemptRow>) -> Result<(), RowFault>
    ensures found { OnOk result ((records : List Record)
        → Attempts loaded.old loaded.new (map attempt_of page.items) records) }
    ensures refused { IsErr result → (records : List Record) → IsLegal records
        → ¬ NextToAttempt loaded.old (map attempt_of page.items) records }
{
    for row in page {
        loaded.restore(row)?;
    }
    Ok(())
}

/// Takes in the attempts of the tables, where all their events were taken in and nothing else.
pub fn load_attempts<S: Alter>(
    tx: &mut Transaction<'_, S>,
    loaded: &mut Deliveries,
    alloc: Global,
) -> Result<(), RowFault>
    ensures same_reference { IsOfSame tx.old.conn tx.new.conn }
    ensures unchanged { LeavesOpen S.Store tx.old.conn.now tx.new.conn.now result }
    ensures found { Reads S.Store tx.old.conn.now tx.new.conn.now result
        (λ _ records. AreAccepted loaded.old records (rows_of records).deliveries → AreAttempted loaded.new records) }
    ensures refused { IsRefusedOnly S.Store tx.old.conn.now tx.new.conn.now result
        (λ records. AreAccepted loaded.old records (rows_of records).deliveries) }
    ensures spares { SparesCommit S.Store tx.old.conn.now tx.new.conn.now }
{
    let mut from = 0;
    while from < MAX_RECORDS {
        let page = select_attempts(tx, Seq::of(from), alloc)?;
        from = next_page(page.last().map(|row| row.seq), from, MAX_RECORDS)?;
        restore_page(loaded, page)?;
    }
    Ok(())
}
