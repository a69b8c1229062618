//! The topics that the tables hold, read back into the book of their endpoints.
ghost use Rattle.std.specs.Prelude.{◌≡◌, List, map, IfErr, IsTrue, OnOk};
ghost use Rattle.relay_types.specs.declared.record.Record.{Record};
ghost use Rattle.relay_types.specs.Legal.{IsLegal};
ghost use Rattle.relay_types.specs.Rows.{rows_of};
ghost use Rattle.endpoint_book.specs.Entries.{with_restored_topic};
ghost use Rattle.endpoint_book.specs.Topics.{has_place};
ghost use Rattle.spool_sql.specs.Readable.{IsMemoryFault};
ghost use Rattle.spool_sql.specs.Stored.{topic_of};
ghost use Rattle.spool_sql.specs.Steps.{IsOfSame, SparesCommit};
ghost use Rattle.spool_load.specs.Loading.{LeavesOpen, Reads, IsRefusedOnly, AreNames, AreRestored, AreSubscribed};
ghost use Rattle.spool_load.specs.Loading.{NextToSubscribe, Subscribes};

use crate::endpoints::Endpoints;
use crate::events::name_of;
use relay_types::{MAX_RECORDS, Name};
use spool_sql::{RowFault, Seq, TopicRow, next_page, select_topics};
use sqlite::{Alter, Error, Transaction};
use std::alloc::Global;

impl Endpoints {
    // Takes in the topic of this row, for the endpoint of this name.
    fn subscribe(&mut self, row: TopicRow, name: Name) -> Result<(), RowFault>
        ensures book { OnOk result (self.new.book
            ≡ with_restored_topic self.old.book row.topic name row.subscribed) }
        ensures names { OnOk result (self.new.names ≡ self.old.names) }
        ensures refused { IfErr result (λ fault. IsTrue (has_place self.old.book.topics row.topic name)
            → IsMemoryFault fault) }
    {
        if !self.book.is_named(row.topic, name) && self.book.free_subscriptions() == 0 {
            return Err(RowFault::Unreadable);
        }
        self.book
            .restore_subscribed(row.topic, name, row.subscribed)
            .map_err(Error::from)?;
        Ok(())
    }
}

// Takes in the topics of a page.
fn subscribe_page(loaded: &mut Endpoints, page: Vec<TopicRow>) -> Result<(), RowFault>
    ensures found { OnOk result ((records : List Record) → IsLegal records → AreNames loaded.old.names.items records
        → Subscribes loaded.old loaded.new (map topic_of page.items) records) }
    ensures refused { IfErr result (λ fault. (records : List Record) → IsLegal records
        → AreNames loaded.old.names.items records
        → NextToSubscribe loaded.old (map topic_of page.items) records → IsMemoryFault fault) }
{
    for row in page {
        let Some(name) = name_of(&loaded.names, row.endpoint.get()) else {
            return Err(RowFault::Unreadable);
        };
        loaded.subscribe(row, name)?;
    }
    Ok(())
}

/// Takes in the topics of the tables, once all endpoints were taken in and nothing else.
pub fn load_topics<S: Alter>(
    tx: &mut Transaction<'_, S>,
    loaded: &mut Endpoints,
    alloc: Global,
) -> Result<(), RowFault>
    ensures same_reference { IsOfSame tx.old.conn tx.new.conn }
    ensures unchanged { LeavesOpen S.Store tx.old.conn.now tx.new.conn.now result }
    ensures found { Reads S.Store tx.old.conn.now tx.new.conn.now result
        (λ _ records. AreRestored loaded.old records (rows_of records).endpoints → AreSubscribed loaded.new records) }
    ensures refused { IsRefusedOnly S.Store tx.old.conn.now tx.new.conn.now result
        (λ records. AreRestored loaded.old records (rows_of records).endpoints) }
    ensures spares { SparesCommit S.Store tx.old.conn.now tx.new.conn.now }
{
    let mut from = 0;
    while from < MAX_RECORDS {
        let page = select_topics(tx, Seq::of(from), alloc)?;
        from = next_page(page.last().map(|row| row.set_by), from, MAX_RECORDS)?;
        subscribe_page(loaded, page)?;
    }
    Ok(())
}
