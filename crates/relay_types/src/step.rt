//! Steps: what is written together or not at all.
ghost use Rattle.std.specs.Prelude.{◌≡◌, ◌↔◌, ◌<◌, ◌≤◌, [], ◌∷◌, length, map, IfOk, IsTrue};
ghost use Rattle.std.specs.List.{list_all};
ghost use Rattle.relay_types.specs.Legal.{is_within_limits};
ghost use Rattle.relay_types.specs.declared.record.Record.TheVariants.{Accept};
ghost use Rattle.relay_types.specs.Steps.{IsStep, accepts};

use crate::body::Body;
use crate::limits::MAX_STEP_RECORDS;
use crate::names::{MsgId, Name};
use crate::numbers::Moment;
use crate::record::Record;
use std::alloc::{AllocError, Global};
use std::marker::Model;
use std::slice;
use std::sync::Arc;

/// What is written together or not at all: one record, or the Accepts of one event at 1 to 256 endpoints. A contract
/// sees the list of its records.
#[derive(Drop)]
pub struct Step {
    held: Held,
}

// One record is in the step itself. Several are shared, so another holder copies none of them.
#[derive(Drop)]
enum Held {
    One(Record),
    Many(Arc<Vec<Record>>),
}

impl Model for Step {
    ghost use Rattle.std.specs.Prelude.{List};
    ghost use Rattle.relay_types.specs.declared.record.Record.{Record};
    ghost use Rattle.relay_types.specs.Steps.{IsStep, held_records};

    ghost Value = { List Record };

    ghost view = { λ a. held_records a.held };

    ghost invariant = { λ a. IsStep (held_records a.held) };
}

impl Step {
    /// The step of this record. It takes no memory.
    pub fn of(entry: Record) -> Step
        ensures record { result ≡ entry ∷ [] }
        ensures limits { IsTrue (is_within_limits entry) }
    {
        Step {
            held: Held::One(entry),
        }
    }

    /// The step of one event at these endpoints, 1 to 256 of them: an Accept for each, in their order. It copies no
    /// body.
    pub fn event(
        alloc: Global,
        names: &[Name],
        id: MsgId,
        body: &Body,
        at: Moment,
    ) -> Result<Step, AllocError>
        requires some { 0 < length names.now }
        requires most { length names.now ≤ MAX_STEP_RECORDS }
        ensures records { IfOk result (λ step. step ≡ accepts names.now id body.now at) }
        ensures limits { IfOk result (λ step. IsTrue (list_all is_within_limits step)) }
    {
        let records = accepts(alloc, names, id, body, at)?;
        let held = Held::Many(Arc::new(alloc, records)?);
        Ok(Step { held })
    }

    /// Its records, in order: 1 to 256.
    pub fn records(&self) -> &[Record]
        ensures records { result.now ≡ self.now }
        ensures step { IsStep self.now }
    {
        match &self.held {
            Held::One(entry) => slice::from_ref(entry),
            Held::Many(records) => records.as_slice(),
        }
    }

    /// Whether two steps have the same records.
    pub fn is(&self, other: &Step) -> bool
        ensures { IsTrue result ↔ (self.now ≡ other.now) }
    {
        are_same(self.records(), other.records())
    }

    /// The same step for another holder. It copies no text, no body and no list.
    pub fn share(&self) -> Result<Step, AllocError>
        ensures { IfOk result (λ same. same ≡ self.now) }
    {
        let held = match &self.held {
            Held::One(entry) => Held::One(entry.share()?),
            Held::Many(records) => Held::Many(Arc::try_clone(records)?),
        };
        Ok(Step { held })
    }
}

// The Accepts of one event at these endpoints.
fn accepts(
    alloc: Global,
    names: &[Name],
    id: MsgId,
    body: &Body,
    at: Moment,
) -> Result<Vec<Record>, AllocError>
    ensures records { IfOk result (λ records. records.items ≡ accepts names.now id body.now at) }
    ensures limits { IfOk result (λ records. IsTrue (list_all is_within_limits records.items)) }
{
    let mut records = Vec::with_capacity(alloc, names.len())?;
    for name in names {
        records.push_reserved(accept(*name, id, body, at)?);
    }
    Ok(records)
}

fn accept(name: Name, id: MsgId, body: &Body, at: Moment) -> Result<Record, AllocError>
    ensures record { IfOk result (λ entry. entry ≡ Accept name id body.now at) }
    ensures limits { IfOk result (λ entry. IsTrue (is_within_limits entry)) }
{
    let body = body.share()?;
    Ok(Record::Accept { name, id, body, at })
}

fn are_same(one: &[Record], other: &[Record]) -> bool
    ensures { IsTrue result ↔ (one.now ≡ other.now) }
{
    if one.len() != other.len() {
        return false;
    }
    for place in 0..one.len() {
        if !one[place].is(&other[place]) {
            return false;
        }
    }
    true
}
