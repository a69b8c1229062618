//! Bytes that several values share.
ghost use Rattle.std.specs.Prelude.{◌≡◌, ◌↔◌, IfOk, IsTrue};
ghost use Rattle.std.specs.Arc.{arc_value};

use std::alloc::AllocError;
use std::marker::Model;
use std::sync::Arc;

/// Bytes behind a counted reference, so that a second holder copies none of them. A contract sees their list.
#[derive(Drop)]
pub struct Shared {
    bytes: Arc<Vec<u8>>,
}

impl Model for Shared {
    ghost use Rattle.std.specs.Prelude.{ℕ, List};
    ghost use Rattle.std.specs.Arc.{arc_value};

    ghost Value = { List ℕ };

    ghost view = { λ b. (arc_value b.bytes).items };
}

impl Shared {
    /// The bytes of the vector.
    pub fn of(bytes: Arc<Vec<u8>>) -> Shared
        ensures { result ≡ (arc_value bytes).items }
    {
        Shared { bytes }
    }

    /// The same bytes once more. It takes no memory, and fails only where too many hold them.
    pub fn share(&self) -> Result<Shared, AllocError>
        ensures { IfOk result (λ same. same ≡ self.now) }
    {
        let bytes = Arc::try_clone(&self.bytes)?;
        Ok(Shared { bytes })
    }

    /// The bytes.
    pub fn as_slice(&self) -> &[u8]
        ensures { result.now ≡ self.now }
    {
        self.bytes.as_slice()
    }
}
