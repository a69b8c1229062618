//! The index of events by endpoint and id.
ghost use Rattle.std.specs.Prelude.{◌≡◌, ◌&&◌, None, Some, filter, IsTrue, OnErr, OnOk};
ghost use Rattle.relay_types.specs.Values.{Text, is_msg_id};
ghost use Rattle.delivery_book.specs.Entries.{is_kept, is_done_before};
ghost use Rattle.delivery_book.specs.Fields.{AreNew, HasLessKeys, HasMoreKeys, HasNumber, HasSameKeys, key_bytes};
ghost use Rattle.delivery_book.specs.Fields.{number_of};

use crate::entry::Entry;
use crate::small::{KeptId, SharedName};
use arrayvec::ArrayVec;
use relay_types::{MAX_ID_LEN, MAX_NAME_LEN, Moment, MsgId, Name};
use std::alloc::{AllocError, Global};
use std::boxed::BoxedSlice;
use std::collections::BTreeMap;

const MAX_KEY_BYTES: usize = 1 + MAX_NAME_LEN + MAX_ID_LEN;

/// The key of an event: the length of the endpoint's name as one byte, the name, and the id. So no
/// two events have one key.
fn key_of(name: Name, id: &[u8]) -> ArrayVec<u8, MAX_KEY_BYTES>
    requires { IsTrue (is_msg_id id.now) }
    ensures { result.items ≡ key_bytes name id.now }
{
    let name = name.as_bytes();
    let mut key = ArrayVec::new();
    key.push(name.len() as u8);
    key.try_extend_from_slice(name).unwrap();
    key.try_extend_from_slice(id).unwrap();
    key
}

/// The numbers of events. A key takes no more bytes than it has. Keys are ordered by their bytes,
/// since strangers choose the ids: a search compares as few of them whatever they are, where a hash
/// with a fixed seed could be made to collide.
#[derive(Drop)]
pub struct EventIndex {
    numbers: BTreeMap<BoxedSlice<u8>, u64>,
    alloc: Global,
}

impl EventIndex {
    pub(crate) fn new(alloc: Global) -> EventIndex
        ensures { (name id : Text) → number_of result name id ≡ None }
    {
        EventIndex {
            numbers: BTreeMap::new(alloc),
            alloc,
        }
    }

    /// The number of the endpoint's event with this id.
    pub(crate) fn get(&self, name: Name, id: &MsgId) -> Option<u64>
        ensures { result ≡ number_of self.now name id.now }
    {
        self.numbers
            .get(key_of(name, id.as_bytes()).as_slice())
            .copied()
    }

    /// Adds the number of the endpoint's event with this id. An error means that an allocation failed.
    pub(crate) fn insert(
        &mut self,
        name: &SharedName,
        id: &KeptId,
        seq: u64,
    ) -> Result<(), AllocError>
        ensures added { OnOk result (HasNumber self.old name.now id.now (Some seq) self.new) }
        ensures unchanged { OnErr result (HasSameKeys self.old self.new) }
    {
        let bytes = key_of(name.get(), id.as_bytes());
        let key = BoxedSlice::from_slice(self.alloc, bytes.as_slice())?;
        self.numbers.insert(key, seq)?;
        Ok(())
    }

    /// Removes the number of the endpoint's event with this id. It takes no memory.
    fn remove(&mut self, name: &SharedName, id: &KeptId)
        ensures { HasNumber self.old name.now id.now None self.new }
    {
        let key = key_of(name.get(), id.as_bytes());
        let _ = self.numbers.remove(key.as_slice());
    }
}

/// Adds the numbers of these events, all or none: if memory runs out, those that were added are removed again.
pub(crate) fn add_events(index: &mut EventIndex, events: &[Entry]) -> Result<(), AllocError>
    requires { AreNew index.old events.now }
    ensures added { OnOk result (HasMoreKeys index.old events.now index.new) }
    ensures unchanged { OnErr result (HasSameKeys index.old index.new) }
{
    for place in 0..events.len() {
        let event = &events[place];
        if index.insert(&event.name, &event.id, event.seq).is_err() {
            remove_events(index, &events[..place]);
            return Err(AllocError);
        }
    }
    Ok(())
}

/// Removes the numbers of these events. It takes no memory.
fn remove_events(index: &mut EventIndex, events: &[Entry])
    ensures { HasLessKeys index.old events.now index.new }
{
    for event in events {
        index.remove(&event.name, &event.id);
    }
}

/// Removes the numbers of the events that a Purge takes: those that have ended by an attempt before this moment. It
/// takes no memory.
pub(crate) fn remove_done(index: &mut EventIndex, entries: &[Entry], moment: Moment)
    ensures { HasLessKeys index.old (filter (λ e. is_kept e && is_done_before moment e.latest) entries.now) index.new }
{
    for entry in entries {
        if entry.is_done_before(moment) {
            index.remove(&entry.name, &entry.id);
        }
    }
}
