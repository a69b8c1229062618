//! The words of a line.
ghost use Rattle.std.specs.Prelude.{◌≡◌, ◌↔◌, ◌⊎◌, ℕ, ◌<◌, ◌^◌, List, length, false, IsTrue, MatchBool, IfOk, IfErr};
ghost use Rattle.std.specs.Prelude.{IfSome, decimal, map};
ghost use Rattle.relay_types.specs.SecretText.{ReadsSecret};
ghost use Rattle.relay_types.specs.Values.{is_between, is_moment, is_max_limit, is_body};
ghost use Rattle.text_lines.specs.Parts.{HasParts, texts};
ghost use Rattle.text_lines.specs.Words.{ReadSecrets, AreSecretTexts, IsSecretsWord, IsBodyWord, HasBodyLength};
ghost use Rattle.text_lines.specs.WordFaults.{word_fault};
ghost use Rattle.text_lines.specs.declared.words.WordFault.TheVariants.{OutOfMemory};

use hex::FromHexError;
use itoa::Buffer;
use relay_types::{
    Body, MAX_SECRETS, MaxLimit, Moment, MsgId, Name, ReadFault, Secret, Secrets, Target,
};
use std::alloc::{AllocError, Global};
use std::convert::AsSlice;
use std::sync::Arc;

/// Why a line stands for nothing.
#[derive(Clone, Copy, PartialEq, Eq, Debug)]
pub enum WordFault {
    /// It isn't in the form of a line.
    Bad,
    /// Memory was refused.
    OutOfMemory,
}

impl From<AllocError> for WordFault {
    ghost from_gives = { λ _ fault. fault ≡ OutOfMemory };

    fn from(_: AllocError) -> WordFault {
        WordFault::OutOfMemory
    }
}

impl From<ReadFault> for WordFault {
    ghost from_gives = { λ refusal fault. fault ≡ word_fault refusal };

    fn from(fault: ReadFault) -> WordFault {
        match fault {
            ReadFault::OutOfMemory => WordFault::OutOfMemory,
            _ => WordFault::Bad,
        }
    }
}

/// The words of a line, between which one space stands.
pub fn split(alloc: Global, line: &[u8]) -> Result<Vec<&[u8]>, AllocError>
    ensures { IfOk result (λ words. HasParts 32 line.now (texts words.items)) }
{
    split_at(alloc, line, b' ')
}

// The parts of the text, between which the mark stands.
fn split_at(alloc: Global, text: &[u8], mark: u8) -> Result<Vec<&[u8]>, AllocError>
    ensures { IfOk result (λ parts. HasParts mark text.now (texts parts.items)) }
{
    text.split(|byte| *byte == mark).collect(alloc)
}

/// How many words a line has. It takes no memory.
pub fn count_words(line: &[u8]) -> usize
    ensures { (words : List (List ℕ)) → HasParts 32 line.now words → result ≡ length words }
{
    count_parts(line, b' ')
}

// How many parts the text has, between which the mark stands.
fn count_parts(text: &[u8], mark: u8) -> usize
    ensures { (parts : List (List ℕ)) → HasParts mark text.now parts → result ≡ length parts }
{
    text.split(|byte| *byte == mark).count()
}

/// Whether the word is this one.
pub fn is_word(word: &[u8], text: &str) -> bool
    ensures { IsTrue result ↔ (word.now ≡ text.now) }
{
    word == text.as_bytes()
}

/// A number below 2^64 in decimal, without leading zeros.
pub fn read_number(word: &[u8]) -> Option<u64>
    ensures value { IfSome result (λ n. word.now ≡ decimal n) }
    ensures each { (n : ℕ) → n < 2 ^ 64 → word.now ≡ decimal n → result ≡ Some n }
{
    let text = str::from_utf8(word).ok()?;
    let number = text.parse::<u64>().ok()?;
    let mut buffer = Buffer::new();
    (buffer.format(number).as_bytes() == word).then_some(number)
}

/// A moment.
pub fn read_moment(word: &[u8]) -> Result<Moment, ReadFault>
    ensures value { IfOk result (λ moment. word.now ≡ decimal moment) }
    ensures valid { IfOk result (λ moment. IsTrue (is_moment moment)) }
    ensures each { (moment : ℕ)
        → IsTrue (is_moment moment) → word.now ≡ decimal moment → result ≡ Ok moment }
    ensures refusal { IfErr result (λ fault. fault ≡ ReadFault.BadMoment) }
{
    match read_number(word) {
        Some(seconds) => Moment::of(seconds),
        None => Err(ReadFault::BadMoment),
    }
}

/// A maximum limit.
pub fn read_max(word: &[u8]) -> Result<MaxLimit, ReadFault>
    ensures value { IfOk result (λ max. word.now ≡ decimal max) }
    ensures valid { IfOk result (λ max. IsTrue (is_max_limit max)) }
    ensures each { (max : ℕ) → IsTrue (is_max_limit max) → word.now ≡ decimal max → result ≡ Ok max }
    ensures refusal { IfErr result (λ fault. fault ≡ ReadFault.BadMax) }
{
    match read_number(word) {
        Some(limit) => MaxLimit::of(limit),
        None => Err(ReadFault::BadMax),
    }
}

/// One to four secrets, with commas between, the newest first. Memory is taken once the word is read.
pub fn read_secrets(alloc: Global, word: &[u8]) -> Result<Secrets, WordFault>
    ensures value { IfOk result (λ secrets. IsSecretsWord word.now secrets) }
    ensures bad { result ≡ Err WordFault.Bad
        → (secrets : List (List ℕ)) → IsSecretsWord word.now secrets → ⊥ }
    ensures lacked { result ≡ Err WordFault.OutOfMemory
        → (secrets : List (List ℕ)) × IsSecretsWord word.now secrets }
{
    if !is_secrets_word(word) {
        return Err(WordFault::Bad);
    }
    let texts = split_at(alloc, word, b',')?;
    Ok(secrets_of(alloc, texts.as_slice())?)
}

/// Whether the word has one to four secrets, with commas between. It takes no memory.
pub fn is_secrets_word(word: &[u8]) -> bool
    ensures { MatchBool result ((secrets : List (List ℕ)) × IsSecretsWord word.now secrets)
        ((secrets : List (List ℕ)) → IsSecretsWord word.now secrets → ⊥) }
{
    count_parts(word, b',') <= MAX_SECRETS && are_secrets(word)
}

// Whether each part between commas is the text of a secret.
fn are_secrets(word: &[u8]) -> bool
    ensures { MatchBool result
        ((texts : List (List ℕ)) × (secrets : List (List ℕ)) × HasParts 44 word.now texts × ReadSecrets texts secrets)
        ((texts : List (List ℕ)) (secrets : List (List ℕ)) → HasParts 44 word.now texts → ReadSecrets texts secrets → ⊥) }
{
    word.split(|byte| *byte == b',')
        .all(|text| is_secret_text(text))
}

fn is_secret_text(text: &[u8]) -> bool
    ensures { MatchBool result ((secret : List ℕ) × ReadsSecret text.now secret)
        ((secret : List ℕ) → ReadsSecret text.now secret → ⊥) }
{
    Secret::read(text).is_ok()
}

/// The secrets of one to four texts, the newest first. Memory is taken once the texts are read.
pub fn secrets_of<T: AsSlice<u8>>(alloc: Global, texts: &[T]) -> Result<Secrets, ReadFault>
    ensures value { IfOk result (λ secrets. AreSecretTexts (map T.items texts.now) secrets) }
    ensures bad { result ≡ Err ReadFault.BadSecret
        → (secrets : List (List ℕ)) → AreSecretTexts (map T.items texts.now) secrets → ⊥ }
    ensures lacked { result ≡ Err ReadFault.OutOfMemory
        → (secrets : List (List ℕ)) × AreSecretTexts (map T.items texts.now) secrets }
    ensures refusal { IfErr result (λ fault. (fault ≡ ReadFault.BadSecret) ⊎ (fault ≡ ReadFault.OutOfMemory)) }
{
    if !is_count_of_secrets(texts.len()) {
        return Err(ReadFault::BadSecret);
    }
    let secrets = read_each(alloc, texts)?;
    Secrets::of(secrets.as_slice())
}

fn is_count_of_secrets(count: usize) -> bool
    ensures { result ≡ is_between 1 4 count }
{
    (1..=MAX_SECRETS).contains(&count)
}

// The secrets of the texts.
fn read_each<T: AsSlice<u8>>(alloc: Global, texts: &[T]) -> Result<Vec<Secret>, ReadFault>
    ensures value { IfOk result (λ secrets. ReadSecrets (map T.items texts.now) secrets.items) }
    ensures bad { result ≡ Err ReadFault.BadSecret
        → (secrets : List (List ℕ)) → ReadSecrets (map T.items texts.now) secrets → ⊥ }
    ensures lacked { result ≡ Err ReadFault.OutOfMemory
        → (secrets : List (List ℕ)) × ReadSecrets (map T.items texts.now) secrets }
    ensures refusal { IfErr result (λ fault. (fault ≡ ReadFault.BadSecret) ⊎ (fault ≡ ReadFault.OutOfMemory)) }
{
    if !are_read(texts) {
        return Err(ReadFault::BadSecret);
    }
    let mut secrets = Vec::new(alloc);
    for text in texts {
        let secret = Secret::read(text.as_slice())?;
        if secrets.push(secret).is_err() {
            return Err(ReadFault::OutOfMemory);
        }
    }
    Ok(secrets)
}

// Whether each of these is the text of a secret.
fn are_read<T: AsSlice<u8>>(texts: &[T]) -> bool
    ensures { MatchBool result ((secrets : List (List ℕ)) × ReadSecrets (map T.items texts.now) secrets)
        ((secrets : List (List ℕ)) → ReadSecrets (map T.items texts.now) secrets → ⊥) }
{
    for text in texts {
        if !is_secret_text(text.as_slice()) {
            return false;
        }
    }
    true
}

/// The body of an event: two hexadecimal digits of either case for a byte, or `-` for the empty one.
pub fn read_body(alloc: Global, word: &[u8]) -> Result<Body, WordFault>
    ensures value { IfOk result (λ body. IsBodyWord word.now body) }
    ensures valid { IfOk result (λ body. IsTrue (is_body body)) }
    ensures bad { result ≡ Err WordFault.Bad
        → (body : List ℕ) → IsTrue (is_body body) → IsBodyWord word.now body → ⊥ }
    ensures lacked { result ≡ Err WordFault.OutOfMemory → HasBodyLength word.now }
{
    let bytes = read_bytes(alloc, word)?;
    body_of(alloc, bytes)
}

// The bytes of the word.
fn read_bytes(alloc: Global, word: &[u8]) -> Result<Vec<u8>, WordFault>
    ensures value { IfOk result (λ bytes. IsBodyWord word.now bytes.items) }
    ensures bad { result ≡ Err WordFault.Bad → (bytes : List ℕ) → IsBodyWord word.now bytes → ⊥ }
    ensures lacked { result ≡ Err WordFault.OutOfMemory → HasBodyLength word.now }
{
    if word == b"-".as_slice() {
        return Ok(Vec::new(alloc));
    }
    if word.is_empty() {
        return Err(WordFault::Bad);
    }
    match hex::decode(alloc, word) {
        Ok(bytes) => Ok(bytes),
        Err(error) => Err(hex_fault(error)),
    }
}

fn hex_fault(error: FromHexError) -> WordFault
    ensures lacked { error ≡ FromHexError.OutOfMemory → result ≡ WordFault.OutOfMemory }
    ensures alone { result ≡ WordFault.OutOfMemory → error ≡ FromHexError.OutOfMemory }
{
    match error {
        FromHexError::OutOfMemory => WordFault::OutOfMemory,
        _ => WordFault::Bad,
    }
}

fn body_of(alloc: Global, bytes: Vec<u8>) -> Result<Body, WordFault>
    ensures value { IfOk result (λ body. body ≡ bytes.items) }
    ensures valid { IfOk result (λ body. IsTrue (is_body body)) }
    ensures bad { result ≡ Err WordFault.Bad → is_body bytes.items ≡ false }
{
    match Arc::new(alloc, bytes) {
        Ok(bytes) => Ok(Body::of(bytes)?),
        Err(_) => Err(WordFault::OutOfMemory),
    }
}
