//! Names, ids and numbers as an entry keeps them, in few bytes.
ghost use Rattle.std.specs.Prelude.{◌≡◌, ◌+◌, ◌<◌, ◌^◌, None, Some, IfOk, IsTrue};
ghost use Rattle.relay_types.specs.Values.{is_msg_id};

use crate::keys::EndpointKey;
use relay_types::{MsgId, Name};
use smallvec::SmallVec;
use std::alloc::{AllocError, Global};
use std::collections::HashMap;
use std::marker::Model;
use std::sync::Arc;

/// An id of up to so many bytes takes no allocation.
const SHORT_ID_LEN: usize = 16;

/// The name of an endpoint, which its events share.
#[derive(Drop)]
pub struct SharedName {
    name: Arc<Name>,
}

impl Model for SharedName {
    ghost use Rattle.std.specs.Arc.{arc_value};
    ghost use Rattle.relay_types.specs.Values.{Text};

    ghost Value = { Text };

    ghost view = { λ s. arc_value s.name };
}

impl SharedName {
    fn new(alloc: Global, name: Name) -> Result<SharedName, AllocError>
        ensures { IfOk result (λ shared. shared ≡ name) }
    {
        let name = Arc::new(alloc, name)?;
        Ok(SharedName { name })
    }

    /// The same name for one more event. It takes no memory, and fails only where too many share it.
    fn share(&self) -> Result<SharedName, AllocError>
        ensures { IfOk result (λ shared. shared ≡ self.now) }
    {
        let name = Arc::try_clone(&self.name)?;
        Ok(SharedName { name })
    }

    pub(crate) fn get(&self) -> Name
        ensures { result ≡ self.now }
    {
        *self.name
    }
}

/// The names that events share.
#[derive(Drop)]
pub struct Names {
    each: HashMap<EndpointKey, SharedName>,
    alloc: Global,
}

impl Names {
    pub(crate) fn new(alloc: Global) -> Names {
        Names {
            each: HashMap::new(alloc),
            alloc,
        }
    }

    /// The endpoint's name, to be shared by one more event. An error means that an allocation failed.
    pub(crate) fn share(&mut self, name: Name) -> Result<SharedName, AllocError>
        ensures { IfOk result (λ shared. shared ≡ name) }
    {
        let key = EndpointKey { name };
        match self.each.get(&key) {
            Some(shared) if shared.get().is(name) => return shared.share(),
            _ => {}
        }
        let shared = SharedName::new(self.alloc, name)?;
        self.each.insert(key, shared.share()?)?;
        Ok(shared)
    }
}

/// The id of an event, in as many bytes as it has.
#[derive(Drop)]
pub struct KeptId {
    text: SmallVec<u8, SHORT_ID_LEN>,
}

impl Model for KeptId {
    ghost use Rattle.std.specs.Prelude.{IsTrue};
    ghost use Rattle.relay_types.specs.Values.{Text, is_msg_id};

    ghost Value = { Text };

    ghost view = { λ k. k.text.items };

    ghost invariant = { λ k. IsTrue (is_msg_id k.text.items) };
}

impl KeptId {
    /// The id in a place of its own. An error means that an allocation failed.
    pub(crate) fn new(alloc: Global, id: &MsgId) -> Result<KeptId, AllocError>
        ensures { IfOk result (λ kept. kept ≡ id.now) }
    {
        let text = SmallVec::from_slice(alloc, id.as_bytes())?;
        Ok(KeptId { text })
    }

    pub(crate) fn as_bytes(&self) -> &[u8]
        ensures text { result.now ≡ self.now }
        ensures valid { IsTrue (is_msg_id self.now) }
    {
        self.text.as_slice()
    }

    pub(crate) fn get(&self) -> MsgId
        ensures { result ≡ self.now }
    {
        MsgId::read(self.as_bytes()).unwrap()
    }
}

/// The number of a Purge, or none.
#[derive(Drop)]
pub struct OptionalSeq {
    /// One more than the number; 0 for none.
    above: u64,
}

impl Model for OptionalSeq {
    ghost use Rattle.std.specs.Prelude.{ℕ, ◌-◌, ◌==◌, Option, None, Some, if◌then◌else◌};

    ghost Value = { Option ℕ };

    ghost view = { λ m. if m.above == 0 then None else Some (m.above - 1) };
}

impl OptionalSeq {
    pub(crate) fn none() -> OptionalSeq
        ensures { result ≡ None }
    {
        OptionalSeq { above: 0 }
    }

    pub(crate) fn of(seq: u64) -> OptionalSeq
        requires { seq + 1 < 2 ^ 64 }
        ensures { result ≡ Some seq }
    {
        OptionalSeq { above: seq + 1 }
    }

    pub(crate) fn get(&self) -> Option<u64>
        ensures { result ≡ self.now }
    {
        if self.above == 0 {
            None
        } else {
            Some(self.above - 1)
        }
    }
}
