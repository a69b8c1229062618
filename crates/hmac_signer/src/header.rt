//! The header `webhook-signature`.
ghost use Rattle.std.specs.Prelude.{◌≡◌, ◌++◌, codes, flat_map, IfOk, OnOk, IsTrue};
ghost use Rattle.std.specs.String.{string_bytes};
ghost use Rattle.std.specs.List.{list_all};
ghost use Rattle.relay_types.specs.Values.{is_between};
ghost use Rattle.hmac_signer.specs.Signature.{signature_header, signatures, signature};

use crate::mac::hmac;
use base64::engine::general_purpose::STANDARD;
use relay_types::{Body, Moment, MsgId, Secrets};
use std::alloc::{AllocError, Global};

/// The value of the header `webhook-signature` of a post (Standard Webhooks 1.0.0): one signature
/// of `id.timestamp.body` for each secret, the newest first, with one space between. It fails only
/// if an allocation fails.
pub fn signature_header(
    alloc: Global,
    secrets: &Secrets,
    id: &MsgId,
    at: Moment,
    body: &Body,
) -> Result<String, AllocError>
    ensures text { IfOk result (λ text. string_bytes text ≡ signature_header secrets.now id.now at body.now) }
    ensures printable { IfOk result (λ text. IsTrue (list_all (is_between 32 126) (string_bytes text))) }
{
    let timestamp = at.seconds().to_string(alloc)?;
    let content: [&[u8]; 5] = [
        id.as_bytes(),
        b".",
        timestamp.as_bytes(),
        b".",
        body.as_bytes(),
    ];
    signatures(alloc, secrets, &content)
}

// What each secret says of the joined pieces, with a space between each two.
fn signatures(alloc: Global, secrets: &Secrets, pieces: &[&[u8]]) -> Result<String, AllocError>
    ensures { let content = flat_map (λ piece. piece.now) pieces.now in
        IfOk result (λ text. string_bytes text ≡ signatures content secrets.now) }
{
    let mut header = String::new(alloc);
    for place in 0..secrets.count() {
        let Some(secret) = secrets.get(place) else {
            unreachable!()
        };
        if place > 0 {
            header.push(' ')?;
        }
        add_signature(&mut header, secret.as_bytes(), pieces)?;
    }
    Ok(header)
}

// Appends the signature that one secret makes of the joined pieces.
fn add_signature(header: &mut String, secret: &[u8], pieces: &[&[u8]]) -> Result<(), AllocError>
    ensures { let content = flat_map (λ piece. piece.now) pieces.now in
        OnOk result (string_bytes header.new ≡ string_bytes header.old ++ signature content secret.now) }
{
    header.push_str("v1,")?;
    STANDARD.encode_string(&hmac(secret, pieces), header)
}
