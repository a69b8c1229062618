//! Ids of events that are submitted without one.
ghost use Rattle.std.specs.Prelude.{◌≡◌, IfOk, IfSome};
ghost use Rattle.relay_host.specs.Fresh.{IsMadeId, IsMadeOf, made_id};

use arrayvec::ArrayString;
use relay_types::MsgId;
use std::io;
use std::io::ErrorKind;
use std::random::RandomSource;
use uuid::{Builder, Uuid};

/// Gives random bytes. It names those that it may give.
pub trait RandomBytes {
    ghost use Rattle.std.specs.Prelude.{ℕ, List, ⊤};

    ghost gives: { Self → List ℕ → Type 0 } = { λ _ _. ⊤ };

    /// Sixteen bytes, each time others.
    fn sixteen(&self) -> io::Result<[u8; 16]>
        ensures { IfOk result (gives self.now) };
}

// The system's source of random bytes.
#[derive(Clone, Copy)]
struct HostRandom<'a, R> {
    rt: &'a R,
}

impl<R: RandomSource> RandomBytes for HostRandom<'_, R> {
    fn sixteen(&self) -> io::Result<[u8; 16]> {
        let mut bytes = [0; 16];
        self.rt.fill_bytes(&mut bytes)?;
        Ok(bytes)
    }
}

/// An id that nobody used before, as far as chance goes: `msg_` and a UUID of version 4 (RFC 9562,
/// section 5.4), with hyphens and in lower case. It fails if the system's source of random bytes
/// does.
pub fn fresh_id<R: RandomSource>(rt: &R) -> io::Result<MsgId>
    ensures { IfOk result IsMadeId }
{
    fresh_id_from(&HostRandom { rt })
}

/// The same of a source's bytes: all of their bits, except the six that say the version and the
/// variant.
pub fn fresh_id_from<S: RandomBytes>(source: &S) -> io::Result<MsgId>
    ensures { IfOk result (IsMadeOf (S.gives source.now)) }
{
    let bytes = source.sixteen()?;
    match id_of(Builder::from_random_bytes(bytes).into_uuid()) {
        Some(id) => Ok(id),
        None => Err(ErrorKind::InvalidData.into()),
    }
}

// The id of a UUID. Each has one, which is tested.
fn id_of(uuid: Uuid) -> Option<MsgId>
    ensures { IfSome result (λ id. id ≡ made_id uuid) }
{
    let mut text = ArrayString::<64>::from("msg_").ok()?;
    let mut buffer = Uuid::encode_buffer();
    text.try_push_str(uuid.hyphenated().encode_lower(&mut buffer))
        .ok()?;
    MsgId::read(text.as_str().as_bytes()).ok()
}
