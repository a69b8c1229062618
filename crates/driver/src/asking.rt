//! The calls that lines stand for.

use hex::FromHexError;
use relay_types::{Moment, MsgId};
use std::alloc::Global;
use text_lines::{WordFault, is_word, read_moment, split};

/// What a line asks the relay to do.
#[derive(Drop)]
pub(crate) enum Call {
    Ask(Request),
    Turn,
    Halt,
}

/// A request, with the moment and the fresh id of an event.
#[derive(Drop)]
pub(crate) struct Request {
    pub(crate) now: Moment,
    pub(crate) fresh: MsgId,
    /// Its method, its path, its body and each of its ids.
    pub(crate) parts: Vec<Vec<u8>>,
}

/// The call that a line stands for.
pub(crate) fn read_call(alloc: Global, line: &[u8]) -> Result<Call, WordFault> {
    let words = split(alloc, line)?;
    call_of(alloc, words.as_slice())
}

fn call_of(alloc: Global, words: &[&[u8]]) -> Result<Call, WordFault> {
    match words {
        [word] if is_word(word, "turn") => Ok(Call::Turn),
        [word] if is_word(word, "halt") => Ok(Call::Halt),
        [word, now, fresh, parts @ ..] if is_word(word, "ask") => {
            Ok(Call::Ask(read_request(alloc, now, fresh, parts)?))
        }
        _ => Err(WordFault::Bad),
    }
}

fn read_request(
    alloc: Global,
    now: &[u8],
    fresh: &[u8],
    parts: &[&[u8]],
) -> Result<Request, WordFault> {
    if parts.len() < 3 {
        return Err(WordFault::Bad);
    }
    Ok(Request {
        now: read_moment(now)?,
        fresh: MsgId::read(fresh)?,
        parts: read_each(alloc, parts)?,
    })
}

fn read_each(alloc: Global, words: &[&[u8]]) -> Result<Vec<Vec<u8>>, WordFault> {
    let mut each = Vec::new(alloc);
    for word in words {
        if each.push(read_bytes(alloc, word)?).is_err() {
            return Err(WordFault::OutOfMemory);
        }
    }
    Ok(each)
}

/// The bytes of a word in hexadecimal; `-` stands for none.
fn read_bytes(alloc: Global, word: &[u8]) -> Result<Vec<u8>, WordFault> {
    if is_word(word, "-") {
        return Ok(Vec::new(alloc));
    }
    match hex::decode(alloc, word) {
        Ok(bytes) => Ok(bytes),
        Err(FromHexError::OutOfMemory) => Err(WordFault::OutOfMemory),
        Err(_) => Err(WordFault::Bad),
    }
}
