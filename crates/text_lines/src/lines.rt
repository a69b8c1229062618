//! The lines of a reader, within bounds.
ghost use Rattle.std.specs.Prelude.{◌≡◌, ◌≢◌, ◌==◌, ◌⊎◌, true, false, ◌≤◌, ◌<◌, ◌+◌, [], ◌∷◌, ◌++◌, length, take, drop};
ghost use Rattle.std.specs.Prelude.{vec_len, IsTrue, IfOk, OnOk, OnErr, IfErr, MatchOption};
ghost use Rattle.std.specs.List.{position};
ghost use Rattle.std.specs.Option.{unwrap_or};
ghost use Rattle.std.specs.Io.KnownBytes.{Consumes, Keeps, IsAtEnd};
ghost use Rattle.text_lines.specs.Streams.{LinesValue, left, has_no_feed, IsFeedAt, TakesPiece, PassesBound, TakesLine};
ghost use Rattle.text_lines.specs.Streams.{IsTooLong};

use crate::fault::StreamFault;
use crate::limits::{MAX_LINE_BYTES, MAX_LINES, MAX_READS};
use std::alloc::{AllocError, Global};
use std::io::{ErrorKind, Read};
use std::marker::Model;

// The bytes of one read.
const CHUNK: usize = 65_536;

/// The lines of a reader, one after another. A line ends in a line feed, which the last one may
/// lack. After a fault no further line comes.
#[derive(Drop)]
pub struct Lines {
    chunk: Vec<u8>,
    at: usize,
    end: usize,
    line: Vec<u8>,
    count: u64,
    reads: u64,
    failed: bool,
}

impl Model for Lines {
    ghost use Rattle.std.specs.Prelude.{◌≤◌, ◌<◌, slice_range, vec_len};
    ghost use Rattle.text_lines.specs.Streams.{LinesValue};
    ghost use Rattle.text_lines.specs.declared.limits.TheConstants.{MAX_LINE_BYTES, MAX_LINES};

    ghost Value = { LinesValue };

    ghost view = { λ a. record {
      pending = slice_range a.chunk.items a.at a.end;
      line = a.line.items;
      count = a.count;
      failed = a.failed;
    } };

    ghost invariant = { λ a. (a.at ≤ a.end) × (a.end ≤ vec_len a.chunk) × (0 < vec_len a.chunk)
        × (vec_len a.line ≤ MAX_LINE_BYTES) × (a.count ≤ MAX_LINES) };
}

impl Lines {
    /// No line yet.
    pub fn new(alloc: Global) -> Result<Lines, AllocError>
        ensures { IfOk result (λ lines. lines ≡ record { pending = []; line = []; count = 0; failed = false }) }
    {
        Ok(Lines {
            chunk: new_chunk(alloc)?,
            at: 0,
            end: 0,
            line: Vec::new(alloc),
            count: 0,
            reads: 0,
            failed: false,
        })
    }

    /// The number of the line, from 1.
    pub fn number(&self) -> u64
        ensures { result ≡ self.now.count }
    {
        self.count
    }

    /// The bytes of the line, without its line feed.
    pub fn line(&self) -> &[u8]
        ensures { result.now ≡ self.now.line }
    {
        self.line.as_slice()
    }

    /// Goes to the next line: `false` where there is none. After a fault each further call answers Read.
    pub fn advance<R: Read>(&mut self, reader: &mut R) -> Result<bool, StreamFault>
        ensures line { result ≡ Ok true → TakesLine
            (left self.old (R.remaining reader.old)) (left self.new (R.remaining reader.new)) self.new.line }
        ensures no_feed { result ≡ Ok true → IsTrue (has_no_feed self.new.line) }
        ensures number { result ≡ Ok true → self.new.count ≡ self.old.count + 1 }
        ensures most_bytes { result ≡ Ok true → length self.new.line ≤ MAX_LINE_BYTES }
        ensures most_lines { result ≡ Ok true → self.new.count ≤ MAX_LINES }
        ensures end { result ≡ Ok false → IsAtEnd (left self.old (R.remaining reader.old)) }
        ensures too_long { result ≡ Err StreamFault.TooLong
            → IsTooLong self.old.count (left self.old (R.remaining reader.old)) }
        ensures faults { IfErr result (λ fault. (fault ≡ StreamFault.TooLong)
            ⊎ ((fault ≡ StreamFault.Read) ⊎ (fault ≡ StreamFault.OutOfMemory))) }
        ensures fails { OnErr result (self.new.failed ≡ true) }
        ensures failed { self.old.failed ≡ true → result ≡ Err StreamFault.Read }
    {
        if self.failed {
            return Err(StreamFault::Read);
        }
        let is_line = self.take_line(reader);
        self.failed = is_line.is_err();
        is_line
    }

    // Takes the next line: `false` where there is none.
    fn take_line<R: Read>(&mut self, reader: &mut R) -> Result<bool, StreamFault>
        ensures line { result ≡ Ok true → TakesLine
            (left self.old (R.remaining reader.old)) (left self.new (R.remaining reader.new)) self.new.line }
        ensures no_feed { result ≡ Ok true → IsTrue (has_no_feed self.new.line) }
        ensures number { result ≡ Ok true → self.new.count ≡ self.old.count + 1 }
        ensures most_bytes { result ≡ Ok true → length self.new.line ≤ MAX_LINE_BYTES }
        ensures most_lines { result ≡ Ok true → self.new.count ≤ MAX_LINES }
        ensures end { result ≡ Ok false → IsAtEnd (left self.old (R.remaining reader.old)) }
        ensures too_long { result ≡ Err StreamFault.TooLong
            → IsTooLong self.old.count (left self.old (R.remaining reader.old)) }
        ensures faults { IfErr result (λ fault. (fault ≡ StreamFault.TooLong)
            ⊎ ((fault ≡ StreamFault.Read) ⊎ (fault ≡ StreamFault.OutOfMemory))) }
    {
        self.line.clear();
        for _ in self.reads..MAX_READS {
            if !self.supply(reader)? {
                return self.take_open_line();
            }
            if self.take_piece()? {
                return self.count_line();
            }
        }
        Err(StreamFault::Read)
    }

    // Reads the next bytes if none are pending: `false` at the reader's end.
    fn supply<R: Read>(&mut self, reader: &mut R) -> Result<bool, StreamFault>
        ensures line { self.new.line ≡ self.old.line }
        ensures number { self.new.count ≡ self.old.count }
        ensures left { OnOk result
            (Keeps (left self.old (R.remaining reader.old)) (left self.new (R.remaining reader.new))) }
        ensures end { result ≡ Ok false → IsAtEnd (left self.new (R.remaining reader.new)) }
        ensures fault { IfErr result (λ fault. fault ≡ StreamFault.Read) }
    {
        if self.at < self.end {
            return Ok(true);
        }
        self.reads = self.reads.saturating_add(1);
        let got = read_into(reader, self.chunk.as_mut_slice())?;
        self.at = 0;
        self.end = got.unwrap_or(0);
        Ok(got.is_some())
    }

    // Takes the pending bytes into the line, up to a line feed: whether there was one.
    fn take_piece(&mut self) -> Result<bool, StreamFault>
        ensures number { self.new.count ≡ self.old.count }
        ensures whole { result ≡ Ok true → TakesPiece self.old self.new }
        ensures part { result ≡ Ok false → (self.new.pending ≡ [])
            × (self.new.line ≡ self.old.line ++ self.old.pending) × IsTrue (has_no_feed self.old.pending) }
        ensures too_long { result ≡ Err StreamFault.TooLong → PassesBound self.old }
        ensures faults { IfErr result
            (λ fault. (fault ≡ StreamFault.TooLong) ⊎ (fault ≡ StreamFault.OutOfMemory)) }
    {
        let rest = &self.chunk[self.at..self.end];
        match next_feed(rest) {
            Some(place) => {
                extend_within(&mut self.line, &rest[..place], MAX_LINE_BYTES)?;
                self.at += place + 1;
                Ok(true)
            }
            None => {
                extend_within(&mut self.line, rest, MAX_LINE_BYTES)?;
                self.at = self.end;
                Ok(false)
            }
        }
    }

    // At the reader's end a line is one more only if it has bytes: whether it has.
    fn take_open_line(&mut self) -> Result<bool, StreamFault>
        ensures line { self.new.line ≡ self.old.line }
        ensures pending { self.new.pending ≡ self.old.pending }
        ensures none { result ≡ Ok false → self.old.line ≡ [] }
        ensures some { result ≡ Ok true → self.old.line ≢ [] }
        ensures number { result ≡ Ok true → self.new.count ≡ self.old.count + 1 }
        ensures bounds { result ≡ Ok true
            → (length self.new.line ≤ MAX_LINE_BYTES) × (self.new.count ≤ MAX_LINES) }
        ensures too_long { IfErr result
            (λ fault. (fault ≡ StreamFault.TooLong) × (MAX_LINES ≤ self.old.count) × (self.old.line ≢ [])) }
    {
        if self.line.is_empty() {
            return Ok(false);
        }
        self.count_line()
    }

    // Counts one line more.
    fn count_line(&mut self) -> Result<bool, StreamFault>
        ensures line { self.new.line ≡ self.old.line }
        ensures pending { self.new.pending ≡ self.old.pending }
        ensures number { IfOk result (λ is_line. (is_line ≡ true) × (self.new.count ≡ self.old.count + 1)) }
        ensures bounds { OnOk result ((length self.new.line ≤ MAX_LINE_BYTES) × (self.new.count ≤ MAX_LINES)) }
        ensures too_long { IfErr result (λ fault. (fault ≡ StreamFault.TooLong) × (MAX_LINES ≤ self.old.count)) }
    {
        if self.count >= MAX_LINES {
            return Err(StreamFault::TooLong);
        }
        self.count += 1;
        Ok(true)
    }
}

// Zeros for one read.
fn new_chunk(alloc: Global) -> Result<Vec<u8>, AllocError>
    ensures { IfOk result (λ chunk. 0 < vec_len chunk) }
{
    vec![in alloc; 0; CHUNK]
}

/// Reads into the chunk: how many bytes, none of them where the reader was interrupted, and `None` at its end.
pub fn read_into<R: Read>(reader: &mut R, chunk: &mut [u8]) -> Result<Option<usize>, StreamFault>
    requires { 0 < length chunk.old }
    ensures fits { IfOk result (λ got. unwrap_or got 0 ≤ length chunk.new) }
    ensures bytes { IfOk result
        (λ got. Consumes (R.remaining reader.old) (R.remaining reader.new) (take (unwrap_or got 0) chunk.new)) }
    ensures end { IfOk result (λ got. MatchOption got (IsAtEnd (R.remaining reader.new)) (λ _. Unit {0})) }
    ensures fault { IfErr result (λ fault. fault ≡ StreamFault.Read) }
{
    match reader.read(chunk) {
        Ok(0) => Ok(None),
        Ok(count) => Ok(Some(count)),
        Err(error) if error.kind() == ErrorKind::Interrupted => Ok(Some(0)),
        Err(_) => Err(StreamFault::Read),
    }
}

// The place of the first line feed.
fn next_feed(bytes: &[u8]) -> Option<usize>
    ensures { MatchOption result (IsTrue (has_no_feed bytes.now)) (λ place. IsFeedAt bytes.now place) }
{
    place_of_feed(bytes)
}

fn place_of_feed(bytes: &[u8]) -> Option<usize>
    ensures { result ≡ position (λ byte. byte == 10) bytes.now }
{
    bytes.iter().position(|byte| *byte == b'\n')
}

/// Puts the piece behind the bytes, unless they are more than this with it.
pub fn extend_within(bytes: &mut Vec<u8>, piece: &[u8], max: usize) -> Result<(), StreamFault>
    requires { vec_len bytes.old ≤ max }
    ensures bytes { OnOk result (bytes.new.items ≡ bytes.old.items ++ piece.now) }
    ensures most { vec_len bytes.new ≤ max }
    ensures too_long { result ≡ Err StreamFault.TooLong → max < vec_len bytes.old + length piece.now }
    ensures bound { max < vec_len bytes.old + length piece.now → result ≡ Err StreamFault.TooLong }
    ensures faults { IfErr result (λ fault. (fault ≡ StreamFault.TooLong) ⊎ (fault ≡ StreamFault.OutOfMemory)) }
    ensures unchanged { OnErr result (bytes.new.items ≡ bytes.old.items) }
{
    if piece.len() > max - bytes.len() {
        return Err(StreamFault::TooLong);
    }
    bytes.extend_from_slice(piece)?;
    Ok(())
}
