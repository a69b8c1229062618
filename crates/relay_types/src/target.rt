//! Where an endpoint listens.
ghost use Rattle.std.specs.Prelude.{◌≡◌, ◌≤◌, ◌↔◌, ◌⊎◌, ◌==◌, length, drop, true, false, IsTrue, IfOk, IfErr};
ghost use Rattle.std.specs.List.{list_all, before_first, position, position_or_len};
ghost use Rattle.relay_types.specs.Values.{is_digit, has_scheme, behind_scheme, authority_of, path_part_of, host_of};
ghost use Rattle.relay_types.specs.Values.{port_part_of, is_request_target};
ghost use Rattle.relay_types.specs.Values.{is_host, is_host_character, is_port, is_port_part, is_path_character};
ghost use Rattle.relay_types.specs.Values.{is_path_mark, is_target};
ghost use Rattle.relay_types.specs.Values.{number_of, number_of_part, path_of_part, port_of, path_of, is_visible};

use crate::fault::ReadFault;
use crate::limits::{MAX_HOST_LEN, MAX_TARGET_BYTES};
use crate::shared::Shared;
use std::alloc::{AllocError, Global};
use std::marker::Model;
use std::sync::Arc;

/// Where an endpoint listens. A contract sees the text as it was given.
#[derive(Drop)]
pub struct Target {
    text: Shared,
}

impl Model for Target {
    ghost use Rattle.std.specs.Prelude.{ℕ, List, IsTrue};
    ghost use Rattle.relay_types.specs.Values.{is_target};

    ghost Value = { List ℕ };

    ghost view = { λ a. a.text };

    ghost invariant = { λ a. IsTrue (is_target a.text) };
}

impl Target {
    /// Reads an `http` URL with a host, perhaps a port, and perhaps a path with its query. It copies the text once, for
    /// which memory can be lacking.
    pub fn read(alloc: Global, text: &[u8]) -> Result<Target, ReadFault>
        ensures value { IfOk result (λ target. target ≡ text.now) }
        ensures invalid { (result ≡ Err ReadFault.BadUrl) ↔ (is_target text.now ≡ false) }
        ensures refusal { IfErr result (λ fault. (fault ≡ ReadFault.BadUrl) ⊎ (fault ≡ ReadFault.OutOfMemory)) }
    {
        if !is_target(text) {
            return Err(ReadFault::BadUrl);
        }
        match share_copy(alloc, text) {
            Ok(text) => Ok(Target { text }),
            Err(_) => Err(ReadFault::OutOfMemory),
        }
    }

    /// The same target for another holder. It copies nothing, and fails only where too many hold it.
    pub fn share(&self) -> Result<Target, AllocError>
        ensures { IfOk result (λ same. same ≡ self.now) }
    {
        let text = self.text.share()?;
        Ok(Target { text })
    }

    /// The text as it was given.
    pub fn as_bytes(&self) -> &[u8]
        ensures text { result.now ≡ self.now }
        ensures valid { IsTrue (is_target self.now) }
        ensures visible { IsTrue (is_visible self.now) }
        ensures most { length self.now ≤ MAX_TARGET_BYTES }
    {
        self.text.as_slice()
    }

    /// Whether two targets have the same text.
    pub fn is(&self, other: &Target) -> bool
        ensures { IsTrue result ↔ (self.now ≡ other.now) }
    {
        self.as_bytes() == other.as_bytes()
    }

    /// The host as written.
    pub fn host(&self) -> &[u8]
        ensures text { result.now ≡ host_of self.now }
        ensures valid { IsTrue (is_host result.now) }
    {
        host(self.as_bytes())
    }

    /// The port, 80 where none is written.
    pub fn port(&self) -> u16
        ensures { result ≡ port_of self.now }
    {
        number_of_part(port_part(self.as_bytes()))
    }

    /// The host, with `:` and the port where one is written: the value of the header `host`.
    pub fn authority(&self) -> &[u8]
        ensures text { result.now ≡ authority_of self.now }
        ensures visible { IsTrue (is_visible result.now) }
    {
        authority(self.as_bytes())
    }

    /// The path with its query as written, `/` where none is written: what a request asks for.
    pub fn path(&self) -> &[u8]
        ensures text { result.now ≡ path_of self.now }
        ensures valid { IsTrue (is_request_target result.now) }
        ensures most { length result.now ≤ MAX_TARGET_BYTES }
        ensures visible { IsTrue (is_visible result.now) }
    {
        path_of_part(path_part(self.as_bytes()))
    }
}

fn share_copy(alloc: Global, text: &[u8]) -> Result<Shared, AllocError>
    ensures { IfOk result (λ shared. shared ≡ text.now) }
{
    let bytes = text.to_vec(alloc)?;
    let bytes = Arc::new(alloc, bytes)?;
    Ok(Shared::of(bytes))
}

fn is_target(text: &[u8]) -> bool
    ensures { result ≡ is_target text.now }
{
    text.len() <= MAX_TARGET_BYTES
        && has_scheme(text)
        && is_host(host(text))
        && is_port_part(port_part(text))
        && are_path_characters(path_part(text))
}

fn has_scheme(text: &[u8]) -> bool
    ensures { result ≡ has_scheme text.now }
{
    if text.len() < 7 {
        return false;
    }
    text[..7].eq_ignore_ascii_case(b"http://")
}

fn behind_scheme(text: &[u8]) -> &[u8]
    ensures { result.now ≡ behind_scheme text.now }
{
    if text.len() < 7 {
        return &[];
    }
    &text[7..]
}

// What stands before the first of these bytes, or the whole text; and what stands from it on.
fn split(text: &[u8], byte: u8) -> (&[u8], &[u8])
    ensures front { result.0.now ≡ before_first (λ c. c == byte) text.now }
    ensures back { result.1.now ≡ drop (length (before_first (λ c. c == byte) text.now)) text.now }
{
    text.split_at(place_of(text, byte))
}

// The place of the first of these bytes, or the length.
fn place_of(text: &[u8], byte: u8) -> usize
    ensures place { result ≡ position_or_len (λ c. c == byte) text.now }
    ensures most { result ≤ length text.now }
{
    find(text, byte).unwrap_or(text.len())
}

fn find(text: &[u8], byte: u8) -> Option<usize>
    ensures { result ≡ position (λ c. c == byte) text.now }
{
    text.iter().position(|c| *c == byte)
}

fn authority(text: &[u8]) -> &[u8]
    ensures { result.now ≡ authority_of text.now }
{
    split(behind_scheme(text), b'/').0
}

fn path_part(text: &[u8]) -> &[u8]
    ensures { result.now ≡ path_part_of text.now }
{
    split(behind_scheme(text), b'/').1
}

fn host(text: &[u8]) -> &[u8]
    ensures { result.now ≡ host_of text.now }
{
    split(authority(text), b':').0
}

fn port_part(text: &[u8]) -> &[u8]
    ensures { result.now ≡ port_part_of text.now }
{
    split(authority(text), b':').1
}

fn is_host(text: &[u8]) -> bool
    ensures { result ≡ is_host text.now }
{
    1 <= text.len() && text.len() <= MAX_HOST_LEN && are_host_characters(text)
}

fn are_host_characters(text: &[u8]) -> bool
    ensures { result ≡ list_all is_host_character text.now }
{
    text.iter().all(|c| is_host_character(*c))
}

fn is_host_character(c: u8) -> bool
    ensures { result ≡ is_host_character c }
{
    matches!(c, b'a'..=b'z' | b'A'..=b'Z' | b'0'..=b'9' | b'.' | b'_' | b'-')
}

fn are_path_characters(text: &[u8]) -> bool
    ensures { result ≡ list_all is_path_character text.now }
{
    text.iter().all(|c| is_path_character(*c))
}

fn is_path_character(c: u8) -> bool
    ensures { result ≡ is_path_character c }
{
    matches!(c, b'a'..=b'z' | b'A'..=b'Z' | b'0'..=b'9') || is_path_mark(c)
}

fn is_path_mark(c: u8) -> bool
    ensures { result ≡ is_path_mark c }
{
    b"-._~!$&'()*+,;=:@/%?".contains(&c)
}

fn is_port_part(part: &[u8]) -> bool
    ensures { result ≡ is_port_part part.now }
{
    match part {
        [] => true,
        [_, digits @ ..] => is_port(digits),
    }
}

fn is_port(digits: &[u8]) -> bool
    ensures { result ≡ is_port digits.now }
{
    1 <= digits.len()
        && digits.len() <= 5
        && are_digits(digits)
        && !digits.starts_with(b"0")
        && number_of(digits) <= 65_535
}

fn are_digits(text: &[u8]) -> bool
    ensures { result ≡ list_all is_digit text.now }
{
    text.iter().all(|c| is_digit(*c))
}

fn is_digit(c: u8) -> bool
    ensures { result ≡ is_digit c }
{
    matches!(c, b'0'..=b'9')
}

// The number that digits write.
fn number_of(digits: &[u8]) -> u32
    requires few { length digits.now ≤ 5 }
    requires digits { IsTrue (list_all is_digit digits.now) }
    ensures { result ≡ number_of digits.now }
{
    let mut number = 0;
    for c in digits {
        number = 10 * number + u32::from(*c - b'0');
    }
    number
}

fn number_of_part(part: &[u8]) -> u16
    requires { IsTrue (is_port_part part.now) }
    ensures { result ≡ number_of_part part.now }
{
    match part {
        [] => 80,
        [_, digits @ ..] => number_of(digits) as u16,
    }
}

fn path_of_part(part: &[u8]) -> &[u8]
    ensures { result.now ≡ path_of_part part.now }
{
    match part {
        [] => b"/",
        _ => part,
    }
}
