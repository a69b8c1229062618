//! Lines that are written.
ghost use Rattle.std.specs.Prelude.{◌≡◌, ◌≤◌, ◌⊎◌, length, IfSome, OnOk, OnErr, IfOk, IfErr};
ghost use Rattle.std.specs.Io.KnownBytes.{Appends, Keeps, WriteAppends};
ghost use Rattle.text_lines.specs.Streams.{AppendsFront, with_feed};

use crate::fault::StreamFault;
use crate::limits::MAX_WRITES;
use std::alloc::Global;
use std::fmt::Display;
use std::io::{ErrorKind, Write};

/// Writes the text and a line feed.
pub fn write_line<T: Display, O: Write>(
    alloc: Global,
    output: &mut O,
    text: &T,
) -> Result<(), StreamFault>
    ensures written { OnOk result (IfSome (T.output text.now)
        (λ bytes. Appends (O.contents output.old) (O.contents output.new) (with_feed bytes))) }
    ensures failed { OnErr result (IfSome (T.output text.now)
        (λ bytes. AppendsFront (O.contents output.old) (O.contents output.new) (with_feed bytes))) }
    ensures lacked { result ≡ Err StreamFault.OutOfMemory → Keeps (O.contents output.old) (O.contents output.new) }
    ensures faults { IfErr result (λ fault. (fault ≡ StreamFault.Write) ⊎ (fault ≡ StreamFault.OutOfMemory)) }
{
    let line = format!(in alloc; "{text}\n")?;
    write_bytes(output, line.as_bytes())
}

/// Writes the bytes in their order. Where the writer fails, some of them may be written.
pub fn write_bytes<O: Write>(output: &mut O, bytes: &[u8]) -> Result<(), StreamFault>
    ensures written { OnOk result (Appends (O.contents output.old) (O.contents output.new) bytes.now) }
    ensures failed { OnErr result (AppendsFront (O.contents output.old) (O.contents output.new) bytes.now) }
    ensures fault { IfErr result (λ fault. fault ≡ StreamFault.Write) }
{
    let mut rest = bytes;
    for _ in 0..MAX_WRITES {
        if rest.is_empty() {
            return Ok(());
        }
        let count = write_some(output, rest)?;
        rest = &rest[count..];
    }
    Err(StreamFault::Write)
}

// Writes the next bytes: how many, none of them where the writer was interrupted.
fn write_some<O: Write>(output: &mut O, bytes: &[u8]) -> Result<usize, StreamFault>
    ensures bound { IfOk result (λ count. count ≤ length bytes.now) }
    ensures written { WriteAppends (O.contents output.old) (O.contents output.new) result bytes.now }
    ensures fault { IfErr result (λ fault. fault ≡ StreamFault.Write) }
{
    match output.write(bytes) {
        Ok(0) => Err(StreamFault::Write),
        Ok(count) => Ok(count),
        Err(error) if error.kind() == ErrorKind::Interrupted => Ok(0),
        Err(_) => Err(StreamFault::Write),
    }
}
