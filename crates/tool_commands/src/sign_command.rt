//! `relayd sign`: the signature header of one post.
ghost use Rattle.std.specs.Prelude.{◌≡◌, ◌↔◌, ℕ, List, ◌<◌, ◌≤◌, ◌+◌, ◌++◌, ◌⊎◌, false, length, IsTrue, IfSome, IfOk};
ghost use Rattle.std.specs.Prelude.{IfErr, OnOk, OnErr, vec_len};
ghost use Rattle.std.specs.Io.KnownBytes.{Appends, Keeps};
ghost use Rattle.relay_types.specs.Values.{is_msg_id};
ghost use Rattle.text_lines.specs.Parts.{texts};
ghost use Rattle.text_lines.specs.Words.{AreSecretTexts};
ghost use Rattle.tool_commands.specs.Signs.{AreAsked, IsMomentText, HasIdAndMoment, signed_line, Signs, SignsFront};
ghost use Rattle.tool_commands.specs.Signs.{IsNoBody, WritesSignature, ReportsSignature};
ghost use Rattle.text_lines.specs.Streams.{AppendsFront};

use command_interface::{CommandFault, end};
use hmac_signer::signature_header;
use relay_types::{Body, MAX_BODY_BYTES, Moment, MsgId, ReadFault, Secrets};
use std::alloc::{AllocError, Global};
use std::io::{Read, Write};
use std::sync::Arc;
use text_lines::{
    MAX_READS, StreamFault, extend_within, read_into, read_moment, secrets_of, write_line,
};

const CHUNK: usize = 4096;

/// What is signed beside the body, and by which secrets.
#[derive(Clone, Copy)]
pub struct SignWords {
    pub id: MsgId,
    pub at: Moment,
    pub secrets: Secrets,
}

/// Writes the header's value for the body on the reader, by the id, the moment and the secrets, the
/// newest first: 0 done, 1 an argument isn't what its reader takes, 2 the body is too long, 3 every
/// other fault.
pub fn sign<R: Read, O: Write, E: Write>(
    alloc: Global,
    id: &str,
    at: &str,
    secrets: &[&str],
    input: &mut R,
    output: &mut O,
    errors: &mut E,
) -> u8
    ensures signs { ReportsSignature id.now at.now (texts secrets.now) (R.remaining input.old)
        (O.contents output.old) (O.contents output.new) (E.contents errors.old) (E.contents errors.new) result }
    ensures status { result ≤ 3 }
{
    end(errors, sign_body(alloc, id, at, secrets, input, output))
}

fn sign_body<R: Read, O: Write>(
    alloc: Global,
    id: &str,
    at: &str,
    secrets: &[&str],
    input: &mut R,
    output: &mut O,
) -> Result<(), CommandFault>
    ensures { WritesSignature id.now at.now (texts secrets.now) (R.remaining input.old)
        (O.contents output.old) (O.contents output.new) result }
{
    let asked = read_asked(alloc, id, at, secrets)?;
    Ok(sign_asked(alloc, &asked, input, output)?)
}

// Reads the arguments in their order.
fn read_asked(alloc: Global, id: &str, at: &str, secrets: &[&str]) -> Result<SignWords, ReadFault>
    ensures asked { IfOk result (λ asked. AreAsked id.now at.now (texts secrets.now) asked) }
    ensures bad_id { (result ≡ Err ReadFault.BadId) ↔ (is_msg_id id.now ≡ false) }
    ensures bad_moment { (result ≡ Err ReadFault.BadMoment)
        ↔ (IsTrue (is_msg_id id.now) × ((moment : ℕ) → IsMomentText at.now moment → ⊥)) }
    ensures bad_secret { result ≡ Err ReadFault.BadSecret → HasIdAndMoment id.now at.now
        × ((list : List (List ℕ)) → AreSecretTexts (texts secrets.now) list → ⊥) }
    ensures lacked { result ≡ Err ReadFault.OutOfMemory → HasIdAndMoment id.now at.now }
    ensures refusal { IfErr result (λ fault. (fault ≡ ReadFault.BadId) ⊎ ((fault ≡ ReadFault.BadMoment)
        ⊎ ((fault ≡ ReadFault.BadSecret) ⊎ (fault ≡ ReadFault.OutOfMemory)))) }
{
    Ok(SignWords {
        id: MsgId::read(id.as_bytes())?,
        at: read_moment(at.as_bytes())?,
        secrets: secrets_of(alloc, secrets)?,
    })
}

// Signs the body that the reader gives, and writes the header's value.
fn sign_asked<R: Read, O: Write>(
    alloc: Global,
    asked: &SignWords,
    input: &mut R,
    output: &mut O,
) -> Result<(), StreamFault>
    ensures signed { OnOk result
        (Signs (R.remaining input.old) (O.contents output.old) (O.contents output.new) asked.now) }
    ensures too_long { result ≡ Err StreamFault.TooLong → IsNoBody (R.remaining input.old) }
    ensures cut { result ≡ Err StreamFault.Write
        → SignsFront (R.remaining input.old) (O.contents output.old) (O.contents output.new) asked.now }
    ensures unwritten { IfErr result
        (λ fault. (fault ≡ StreamFault.Write) ⊎ Keeps (O.contents output.old) (O.contents output.new)) }
    ensures faults { IfErr result (λ fault. (fault ≡ StreamFault.TooLong) ⊎ ((fault ≡ StreamFault.Read)
        ⊎ ((fault ≡ StreamFault.Write) ⊎ (fault ≡ StreamFault.OutOfMemory)))) }
{
    let body = read_body(alloc, input)?;
    write_header(alloc, asked, &body, output)
}

// Writes the header of the body and a line feed.
fn write_header<O: Write>(
    alloc: Global,
    asked: &SignWords,
    body: &Body,
    output: &mut O,
) -> Result<(), StreamFault>
    ensures written { OnOk result
        (Appends (O.contents output.old) (O.contents output.new) (signed_line asked.now body.now)) }
    ensures failed { OnErr result
        (AppendsFront (O.contents output.old) (O.contents output.new) (signed_line asked.now body.now)) }
    ensures unwritten { IfErr result (λ fault. (fault ≡ StreamFault.Write)
        ⊎ ((fault ≡ StreamFault.OutOfMemory) × Keeps (O.contents output.old) (O.contents output.new))) }
{
    let header = signature_header(alloc, &asked.secrets, &asked.id, asked.at, body)?;
    write_line(alloc, output, &header)
}

// The body that the reader gives.
fn read_body<R: Read>(alloc: Global, input: &mut R) -> Result<Body, StreamFault>
    ensures whole { IfOk result (λ body. IfSome (R.remaining input.old) (λ bytes. body ≡ bytes)) }
    ensures most { IfOk result (λ body. length body ≤ MAX_BODY_BYTES) }
    ensures too_long { result ≡ Err StreamFault.TooLong
        → IfSome (R.remaining input.old) (λ bytes. MAX_BODY_BYTES < length bytes) }
    ensures faults { IfErr result (λ fault. (fault ≡ StreamFault.TooLong)
        ⊎ ((fault ≡ StreamFault.Read) ⊎ (fault ≡ StreamFault.OutOfMemory))) }
{
    let bytes = read_all(alloc, input)?;
    let bytes = Arc::new(alloc, bytes).map_err(|_| AllocError)?;
    Body::of(bytes).map_err(|_| StreamFault::TooLong)
}

// All bytes of the reader, of which a body has room for.
fn read_all<R: Read>(alloc: Global, input: &mut R) -> Result<Vec<u8>, StreamFault>
    ensures whole { IfOk result (λ bytes. IfSome (R.remaining input.old) (λ body. bytes.items ≡ body)) }
    ensures most { IfOk result (λ bytes. vec_len bytes ≤ MAX_BODY_BYTES) }
    ensures too_long { result ≡ Err StreamFault.TooLong
        → IfSome (R.remaining input.old) (λ body. MAX_BODY_BYTES < length body) }
    ensures faults { IfErr result (λ fault. (fault ≡ StreamFault.TooLong)
        ⊎ ((fault ≡ StreamFault.Read) ⊎ (fault ≡ StreamFault.OutOfMemory))) }
{
    let mut chunk = [0; CHUNK];
    let mut bytes = Vec::new(alloc);
    for _ in 0..MAX_READS {
        let Some(count) = read_into(input, &mut chunk)? else {
            return Ok(bytes);
        };
        extend_within(&mut bytes, &chunk[..count], MAX_BODY_BYTES)?;
    }
    Err(StreamFault::Read)
}
