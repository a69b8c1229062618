//! The entries of one event at several endpoints.
ghost use Rattle.std.specs.Prelude.{◌≡◌, ◌+◌, ◌≤◌, length, IfOk};
ghost use Rattle.relay_types.specs.declared.limits.TheConstants.{MAX_RECORDS};
ghost use Rattle.relay_types.specs.Steps.{accepts};
ghost use Rattle.delivery_book.specs.Entries.{events_from};

use crate::entry::Entry;
use crate::small::{KeptId, Names};
use relay_types::{Body, MAX_RECORDS, Moment, MsgId, Name};
use std::alloc::{AllocError, Global};

/// The entries of one event at these endpoints, in their order. The first has this number, and the others follow it.
pub(crate) fn events_of(
    alloc: Global,
    shared: &mut Names,
    seq: u64,
    names: &[Name],
    id: &MsgId,
    body: &Body,
    at: Moment,
) -> Result<Vec<Entry>, AllocError>
    requires { seq + length names.now ≤ MAX_RECORDS }
    ensures { IfOk result (λ events. events.items ≡ events_from seq (accepts names.now id.now body.now at)) }
{
    let mut events = Vec::with_capacity(alloc, names.len())?;
    for name in names {
        let seq = seq + events.len() as u64;
        let name = shared.share(*name)?;
        let id = KeptId::new(alloc, id)?;
        let body = body.share()?;
        events.push_reserved(Entry::new(seq, name, id, body, at));
    }
    Ok(events)
}
