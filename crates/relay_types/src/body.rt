//! The body of an event.
ghost use Rattle.std.specs.Prelude.{◌≡◌, ◌≤◌, ◌↔◌, length, nat_le, IsTrue, IsOk, IfOk, IfErr};
ghost use Rattle.std.specs.Arc.{arc_value};
ghost use Rattle.relay_types.specs.Values.{is_body};

use crate::fault::ReadFault;
use crate::limits::MAX_BODY_BYTES;
use crate::shared::Shared;
use std::alloc::AllocError;
use std::marker::Model;
use std::sync::Arc;

/// The body of an event: at most 65,536 bytes, which nobody reads. Several holders share them.
#[derive(Drop)]
pub struct Body {
    bytes: Shared,
}

impl Model for Body {
    ghost use Rattle.std.specs.Prelude.{ℕ, List, IsTrue};
    ghost use Rattle.relay_types.specs.Values.{is_body};

    ghost Value = { List ℕ };

    ghost view = { λ a. a.bytes };

    ghost invariant = { λ a. IsTrue (is_body a.bytes) };
}

impl Body {
    /// Takes up to 65,536 bytes. It takes no memory, since the caller's reference is kept.
    pub fn of(bytes: Arc<Vec<u8>>) -> Result<Body, ReadFault>
        ensures valid { IsOk result ↔ IsTrue (is_body (arc_value bytes).items) }
        ensures room { IsOk result ↔ (length (arc_value bytes).items ≤ MAX_BODY_BYTES) }
        ensures value { IfOk result (λ body. body ≡ (arc_value bytes).items) }
        ensures refusal { IfErr result (λ fault. fault ≡ ReadFault.TooLong) }
    {
        if !is_body(bytes.as_slice()) {
            return Err(ReadFault::TooLong);
        }
        Ok(Body {
            bytes: Shared::of(bytes),
        })
    }

    /// The same body for another holder. It copies nothing, and fails only where too many hold it.
    pub fn share(&self) -> Result<Body, AllocError>
        ensures { IfOk result (λ same. same ≡ self.now) }
    {
        let bytes = self.bytes.share()?;
        Ok(Body { bytes })
    }

    /// The bytes.
    pub fn as_bytes(&self) -> &[u8]
        ensures bytes { result.now ≡ self.now }
        ensures valid { IsTrue (is_body self.now) }
        ensures most { length self.now ≤ MAX_BODY_BYTES }
    {
        self.bytes.as_slice()
    }

    /// Whether two bodies have the same bytes.
    pub fn is(&self, other: &Body) -> bool
        ensures { IsTrue result ↔ (self.now ≡ other.now) }
    {
        self.as_bytes() == other.as_bytes()
    }
}

fn is_body(bytes: &[u8]) -> bool
    ensures valid { result ≡ is_body bytes.now }
    ensures room { result ≡ nat_le (length bytes.now) MAX_BODY_BYTES }
{
    bytes.len() <= MAX_BODY_BYTES
}
