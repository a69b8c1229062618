//! What the book keeps of one event.
ghost use Rattle.std.specs.Prelude.{◌≡◌, ◌+◌, ◌<◌, ◌^◌, ◌&&◌, Some, None, if◌then◌else◌};
ghost use Rattle.delivery_book.specs.Entries.{is_done_before, is_entry_as, is_kept, is_left, is_open, marked};
ghost use Rattle.delivery_book.specs.Entries.{new_entry, row_in};

use crate::progress::Progress;
use crate::row::Row;
use crate::small::{KeptId, OptionalSeq, SharedName};
use relay_types::{Body, Moment, MsgId, Name, State};

/// An event that was taken in, by the record with this number, and what came of it: by all records, and by the settled
/// ones.
#[derive(Drop)]
pub struct Entry {
    pub(crate) seq: u64,
    pub(crate) name: SharedName,
    pub(crate) id: KeptId,
    pub(crate) body: Body,
    pub(crate) at: Moment,
    pub(crate) latest: Progress,
    pub(crate) settled: Progress,
    /// The Purge that took the delivery, while it waits to be settled.
    pub(crate) taken_by: OptionalSeq,
}

impl Entry {
    /// That of an event which the record with this number takes in.
    pub(crate) fn new(seq: u64, name: SharedName, id: KeptId, body: Body, at: Moment) -> Entry
        ensures { result ≡ new_entry seq name id body at }
    {
        let fresh = Progress::fresh(at);
        Entry {
            seq,
            name,
            id,
            body,
            at,
            latest: fresh,
            settled: fresh,
            taken_by: OptionalSeq::none(),
        }
    }

    /// Whether the delivery is pending, and none of its outcomes waits to be settled.
    pub(crate) fn is_open(&self) -> bool
        ensures { result ≡ is_open self.now }
    {
        matches!(self.latest.state(), State::Pending)
            && self.latest.attempts() == self.settled.attempts()
    }

    /// Whether no Purge took the delivery.
    pub(crate) fn is_kept(&self) -> bool
        ensures { result ≡ is_kept self.now }
    {
        self.taken_by.get().is_none()
    }

    /// Whether no Purge below this number took the delivery.
    pub(crate) fn is_left(&self, seq: u64) -> bool
        ensures { result ≡ is_left seq self.now }
    {
        match self.taken_by.get() {
            Some(purge) => seq <= purge,
            None => true,
        }
    }

    /// Whether a Purge takes the delivery: it is kept, and has ended by an attempt before this moment.
    pub(crate) fn is_done_before(&self, moment: Moment) -> bool
        ensures { result ≡ is_kept self.now && is_done_before moment self.now.latest }
    {
        self.is_kept() && self.latest.is_done_before(moment)
    }

    /// The Purge of this number takes the delivery, if it is kept and has ended by an attempt before this moment;
    /// whether it does.
    pub(crate) fn mark(&mut self, seq: u64, moment: Moment) -> bool
        requires { seq + 1 < 2 ^ 64 }
        ensures marked { self.new ≡ marked seq moment self.old }
        ensures took { result ≡ is_kept self.old && is_done_before moment self.old.latest }
    {
        let takes = self.is_done_before(moment);
        if takes {
            self.taken_by = OptionalSeq::of(seq);
        }
        takes
    }

    /// The delivery as all records have it, if no Purge took it.
    pub(crate) fn latest_row(&self) -> Option<Row>
        ensures { result ≡ (if is_kept self.now then Some (row_in self.now.latest self.now) else None) }
    {
        if self.is_kept() {
            Some(self.row(self.latest))
        } else {
            None
        }
    }

    /// Whether it is the endpoint's event with this id.
    pub(crate) fn is_event(&self, name: Name, id: &MsgId) -> bool
        ensures { result ≡ is_entry_as name id.now self.now }
    {
        self.name.get().is(name) && self.id.as_bytes() == id.as_bytes()
    }

    /// The delivery as told where it has come this far.
    pub(crate) fn row(&self, progress: Progress) -> Row
        ensures { result ≡ row_in progress self.now }
    {
        Row {
            endpoint: self.name.get(),
            id: self.id.get(),
            at: self.at,
            attempts: progress.attempts(),
            state: progress.state(),
            due: progress.due(),
            last_status: progress.last_status(),
        }
    }
}

/// An outcome that waits to be settled: its own number, and that of its delivery.
#[derive(Clone, Copy)]
pub struct Unsettled {
    pub(crate) seq: u64,
    pub(crate) delivery: u64,
}
