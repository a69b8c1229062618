//! HMAC over SHA-256.
ghost use Rattle.std.specs.Prelude.{◌≡◌, ◌≤◌, length, flat_map};
ghost use Rattle.hmac_signer.specs.Hmac.{hmac, block_key, with_zeros, xor_pad, pad_digest};

use sha2::{Digest, Sha256};

// The length of a block of SHA-256, in bytes.
const BLOCK: usize = 64;

const INNER_PAD: u8 = 0x36;

const OUTER_PAD: u8 = 0x5C;

/// The HMAC-SHA256 (RFC 2104) of the joined pieces under a key of any length. It depends on the
/// joined text alone, not on where it is cut, and takes no memory.
pub fn hmac(key: &[u8], pieces: &[&[u8]]) -> [u8; 32]
    ensures { result ≡ hmac key.now (flat_map (λ piece. piece.now) pieces.now) }
{
    let block = block_key(key);
    let inner = pad_digest(INNER_PAD, block, pieces);
    pad_digest(OUTER_PAD, block, &[&inner])
}

// The key as a whole block.
fn block_key(key: &[u8]) -> [u8; BLOCK]
    ensures { result ≡ block_key key.now }
{
    if key.len() > BLOCK {
        with_zeros(&Sha256::digest(key))
    } else {
        with_zeros(key)
    }
}

fn with_zeros(key: &[u8]) -> [u8; BLOCK]
    requires { length key.now ≤ BLOCK }
    ensures { result ≡ with_zeros key.now }
{
    let mut block = [0; BLOCK];
    block[..key.len()].copy_from_slice(key);
    block
}

// The digest of the block, xor the pad, and the pieces after it.
fn pad_digest(pad: u8, block: [u8; BLOCK], pieces: &[&[u8]]) -> [u8; 32]
    ensures { result ≡ pad_digest pad block (flat_map (λ piece. piece.now) pieces.now) }
{
    let mut hasher = Sha256::new_with_prefix(xor_pad(pad, block));
    for piece in pieces {
        hasher.update(*piece);
    }
    hasher.finalize()
}

fn xor_pad(pad: u8, mut block: [u8; BLOCK]) -> [u8; BLOCK]
    ensures { result ≡ xor_pad pad block }
{
    for byte in &mut block {
        *byte ^= pad;
    }
    block
}
