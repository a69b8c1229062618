//! The names of endpoints and the ids of events.
ghost use Rattle.std.specs.Prelude.{◌≡◌, ◌↔◌, IsTrue, IsOk, IfOk, IfErr, bytes_eq};
ghost use Rattle.std.specs.List.{list_all};
ghost use Rattle.relay_types.specs.Values.{is_name, is_name_character, is_msg_id, is_msg_id_character, is_visible};

use crate::fault::ReadFault;
use crate::limits::{MAX_ID_LEN, MAX_NAME_LEN};
use crate::short::Short;
use std::marker::Model;

/// The name of an endpoint: 1 to 32 characters of `a-z 0-9 -`.
#[derive(Clone, Copy, PartialEq, Eq)]
pub struct Name {
    text: Short<MAX_NAME_LEN>,
}

impl Model for Name {
    ghost use Rattle.std.specs.Prelude.{ℕ, List, IsTrue};
    ghost use Rattle.relay_types.specs.Values.{is_name};

    ghost Value = { List ℕ };

    ghost view = { λ a. a.text };

    ghost invariant = { λ a. IsTrue (is_name a.text) };

    ghost inverse = { λ bytes. record { text = bytes } };
}

impl Name {
    /// Reads a name. It takes no memory.
    pub fn read(text: &[u8]) -> Result<Name, ReadFault>
        ensures valid { IsOk result ↔ IsTrue (is_name text.now) }
        ensures value { IfOk result (λ name. name ≡ text.now) }
        ensures refusal { IfErr result (λ fault. fault ≡ ReadFault.BadName) }
    {
        if !is_name_text(text) {
            return Err(ReadFault::BadName);
        }
        Ok(Name {
            text: Short::of(text),
        })
    }

    /// The characters.
    pub fn as_bytes(&self) -> &[u8]
        ensures text { result.now ≡ self.now }
        ensures valid { IsTrue (is_name self.now) }
        ensures visible { IsTrue (is_visible self.now) }
    {
        self.text.as_slice()
    }

    /// Whether two names are the same.
    #[inline]
    pub fn is(self, other: Name) -> bool
        ensures same { IsTrue result ↔ (self ≡ other) }
        ensures bytes { result ≡ bytes_eq self other }
    {
        self == other
    }
}

fn is_name_text(text: &[u8]) -> bool
    ensures { result ≡ is_name text.now }
{
    1 <= text.len() && text.len() <= MAX_NAME_LEN && are_name_characters(text)
}

fn are_name_characters(text: &[u8]) -> bool
    ensures { result ≡ list_all is_name_character text.now }
{
    text.iter().all(|c| is_name_character(*c))
}

fn is_name_character(c: u8) -> bool
    ensures { result ≡ is_name_character c }
{
    matches!(c, b'a'..=b'z' | b'0'..=b'9' | b'-')
}

/// The id of an event: 1 to 64 characters of `A-Z a-z 0-9 _ -`.
#[derive(Clone, Copy, PartialEq, Eq)]
pub struct MsgId {
    text: Short<MAX_ID_LEN>,
}

impl Model for MsgId {
    ghost use Rattle.std.specs.Prelude.{ℕ, List, IsTrue};
    ghost use Rattle.relay_types.specs.Values.{is_msg_id};

    ghost Value = { List ℕ };

    ghost view = { λ a. a.text };

    ghost invariant = { λ a. IsTrue (is_msg_id a.text) };

    ghost inverse = { λ bytes. record { text = bytes } };
}

impl MsgId {
    /// Reads an id. It takes no memory.
    pub fn read(text: &[u8]) -> Result<MsgId, ReadFault>
        ensures valid { IsOk result ↔ IsTrue (is_msg_id text.now) }
        ensures value { IfOk result (λ id. id ≡ text.now) }
        ensures refusal { IfErr result (λ fault. fault ≡ ReadFault.BadId) }
    {
        if !is_msg_id_text(text) {
            return Err(ReadFault::BadId);
        }
        Ok(MsgId {
            text: Short::of(text),
        })
    }

    /// The characters.
    pub fn as_bytes(&self) -> &[u8]
        ensures text { result.now ≡ self.now }
        ensures valid { IsTrue (is_msg_id self.now) }
        ensures visible { IsTrue (is_visible self.now) }
    {
        self.text.as_slice()
    }

    /// Whether two ids are the same.
    pub fn is(self, id: MsgId) -> bool
        ensures same { IsTrue result ↔ (self ≡ id) }
        ensures bytes { result ≡ bytes_eq self id }
    {
        self == id
    }
}

fn is_msg_id_text(text: &[u8]) -> bool
    ensures { result ≡ is_msg_id text.now }
{
    1 <= text.len() && text.len() <= MAX_ID_LEN && are_msg_id_characters(text)
}

fn are_msg_id_characters(text: &[u8]) -> bool
    ensures { result ≡ list_all is_msg_id_character text.now }
{
    text.iter().all(|c| is_msg_id_character(*c))
}

fn is_msg_id_character(c: u8) -> bool
    ensures { result ≡ is_msg_id_character c }
{
    matches!(c, b'a'..=b'z' | b'A'..=b'Z' | b'0'..=b'9' | b'_' | b'-')
}
