//! The secrets of endpoints.
ghost use Rattle.std.specs.Prelude.{◌≡◌, ◌↔◌, ◌≤◌, ℕ, List, Ok, Some, length, IsTrue, IsOk, IfOk, IfErr, IfSome};
ghost use Rattle.std.specs.Prelude.{slice_get};
ghost use Rattle.std.specs.String.{string_bytes};
ghost use Rattle.base64.specs.GeneralPurpose.{IsStrict, encode_of};
ghost use Rattle.relay_types.specs.SecretText.{ReadsSecret, IsPaddedOrNot, secret_text};
ghost use Rattle.relay_types.specs.Values.{is_secret, are_secrets, the_secrets, AreFilledInOrder};

use crate::fault::ReadFault;
use crate::limits::{MAX_SECRET_BYTES, MAX_SECRETS, MIN_SECRET_BYTES};
use crate::short::Short;
use base64::engine::general_purpose::{GeneralPurpose, STANDARD, STANDARD_NO_PAD};
use std::alloc::{AllocError, Global};
use std::marker::Model;

/// A secret: 24 to 64 bytes.
#[derive(Clone, Copy, PartialEq, Eq)]
pub struct Secret {
    bytes: Short<MAX_SECRET_BYTES>,
}

impl Model for Secret {
    ghost use Rattle.std.specs.Prelude.{ℕ, List, IsTrue};
    ghost use Rattle.relay_types.specs.Values.{is_secret};

    ghost Value = { List ℕ };

    ghost view = { λ a. a.bytes };

    ghost invariant = { λ a. IsTrue (is_secret a.bytes) };

    ghost inverse = { λ bytes. record { bytes = bytes } };
}

impl Secret {
    /// Takes 24 to 64 bytes. It takes no memory.
    pub fn of(bytes: &[u8]) -> Result<Secret, ReadFault>
        ensures valid { IsOk result ↔ IsTrue (is_secret bytes.now) }
        ensures value { IfOk result (λ secret. secret ≡ bytes.now) }
        ensures refusal { IfErr result (λ fault. fault ≡ ReadFault.BadSecret) }
    {
        if !is_secret(bytes) {
            return Err(ReadFault::BadSecret);
        }
        Ok(Secret {
            bytes: Short::of(bytes),
        })
    }

    /// Reads a secret as it is written (Standard Webhooks 1.0.0): `whsec_` and its base64 (RFC 4648, section 4). The
    /// prefix and the padding may be left out. It takes no memory.
    pub fn read(text: &[u8]) -> Result<Secret, ReadFault>
        ensures value { IfOk result (λ secret. ReadsSecret text.now secret) }
        ensures each { (secret : List ℕ) → ReadsSecret text.now secret → result ≡ Ok secret }
        ensures refusal { IfErr result (λ fault. fault ≡ ReadFault.BadSecret) }
    {
        let encoded = text.strip_prefix(b"whsec_").unwrap_or(text);
        read_base64(encoded).ok_or(ReadFault::BadSecret)
    }

    /// The secret as it is written: `whsec_` and its padded base64.
    pub fn write(&self, alloc: Global) -> Result<String, AllocError>
        ensures { IfOk result (λ text. string_bytes text ≡ secret_text self.now) }
    {
        let mut text = String::new(alloc);
        text.push_str("whsec_")?;
        STANDARD.encode_string(self.as_bytes(), &mut text)?;
        Ok(text)
    }

    /// The bytes.
    pub fn as_bytes(&self) -> &[u8]
        ensures bytes { result.now ≡ self.now }
        ensures valid { IsTrue (is_secret self.now) }
    {
        self.bytes.as_slice()
    }

    /// Whether two secrets are the same.
    pub fn is(self, other: Secret) -> bool
        ensures { IsTrue result ↔ (self ≡ other) }
    {
        self == other
    }
}

fn is_secret(bytes: &[u8]) -> bool
    ensures { result ≡ is_secret bytes.now }
{
    (MIN_SECRET_BYTES..=MAX_SECRET_BYTES).contains(&bytes.len())
}

// The secret whose base64 the text is, with its padding or with none.
fn read_base64(text: &[u8]) -> Option<Secret>
    ensures value { IfSome result (λ secret. IsPaddedOrNot text.now secret) }
    ensures each { (secret : List ℕ) → IsPaddedOrNot text.now secret → result ≡ Some secret }
{
    match decode(text, &STANDARD) {
        Some(secret) => Some(secret),
        None => decode(text, &STANDARD_NO_PAD),
    }
}

// The secret whose encoding the text is.
fn decode(text: &[u8], engine: &GeneralPurpose) -> Option<Secret>
    requires { IsStrict engine.now }
    ensures value { IfSome result (λ secret. IsTrue (is_secret secret) × (text.now ≡ encode_of engine.now secret)) }
    ensures each { (secret : List ℕ) → IsTrue (is_secret secret) → text.now ≡ encode_of engine.now secret
        → result ≡ Some secret }
{
    let mut bytes = [0; MAX_SECRET_BYTES];
    let Ok(len) = engine.decode_slice(text, &mut bytes) else {
        return None;
    };
    Secret::of(&bytes[..len]).ok()
}

/// 1 to 4 secrets, the newest first. A contract sees the list of them.
#[derive(Clone, Copy, PartialEq, Eq)]
pub struct Secrets {
    first: Secret,
    second: Option<Secret>,
    third: Option<Secret>,
    fourth: Option<Secret>,
}

impl Model for Secrets {
    ghost use Rattle.std.specs.Prelude.{ℕ, List, IsTrue};
    ghost use Rattle.relay_types.specs.Values.{are_secrets, the_secrets, AreFilledInOrder, nth_secret, first_secret};
    ghost use Rattle.relay_types.specs.Values.{second_back, third_back, fourth_back};

    ghost Value = { List (List ℕ) };

    ghost view = { λ a. the_secrets a.first a.second a.third a.fourth };

    ghost invariant = { λ a. record {
      in_order : AreFilledInOrder a.second a.third a.fourth;
      valid : IsTrue (are_secrets (the_secrets a.first a.second a.third a.fourth));
    } };

    ghost inverse = { λ list. record {
      first = first_secret list;
      second = nth_secret list 1;
      third = nth_secret list 2;
      fourth = nth_secret list 3;
    } };

    ghost inverse_ok = { λ a h i. record {
      first = a.first;
      second = second_back a.first a.second a.third a.fourth h.in_order i;
      third = third_back a.first a.second a.third a.fourth h.in_order i;
      fourth = fourth_back a.first a.second a.third a.fourth h.in_order i;
    } };
}

impl Secrets {
    /// Takes 1 to 4 secrets, the newest first.
    pub fn of(secrets: &[Secret]) -> Result<Secrets, ReadFault>
        ensures valid { IsOk result ↔ IsTrue (are_secrets secrets.now) }
        ensures value { IfOk result (λ list. list ≡ secrets.now) }
        ensures refusal { IfErr result (λ fault. fault ≡ ReadFault.BadSecret) }
    {
        match secrets {
            [first] => Ok(Secrets::new(*first, None, None, None)),
            [first, second] => Ok(Secrets::new(*first, Some(*second), None, None)),
            [first, second, third] => {
                Ok(Secrets::new(*first, Some(*second), Some(*third), None))
            }
            [first, second, third, fourth] => Ok(Secrets::new(
                *first,
                Some(*second),
                Some(*third),
                Some(*fourth),
            )),
            _ => Err(ReadFault::BadSecret),
        }
    }

    fn new(
        first: Secret,
        second: Option<Secret>,
        third: Option<Secret>,
        fourth: Option<Secret>,
    ) -> Secrets
        requires { AreFilledInOrder second third fourth }
        ensures value { result ≡ the_secrets first second third fourth }
        ensures valid { IsTrue (are_secrets result) }
    {
        Secrets {
            first,
            second,
            third,
            fourth,
        }
    }

    /// How many secrets these are.
    pub fn count(&self) -> usize
        ensures count { result ≡ length self.now }
        ensures valid { IsTrue (are_secrets self.now) }
        ensures least { 1 ≤ length self.now }
        ensures most { length self.now ≤ MAX_SECRETS }
    {
        1 + self.second.is_some() as usize
            + self.third.is_some() as usize
            + self.fourth.is_some() as usize
    }

    /// The secret at this place, 0 for the newest.
    pub fn get(&self, place: usize) -> Option<Secret>
        ensures { result ≡ slice_get self.now place }
    {
        match place {
            0 => Some(self.first),
            1 => self.second,
            2 => self.third,
            3 => self.fourth,
            _ => None,
        }
    }

    /// Whether these are the same secrets in the same order.
    pub fn is(&self, other: &Secrets) -> bool
        ensures { IsTrue result ↔ (self.now ≡ other.now) }
    {
        self.first.is(other.first)
            && is_same_secret(self.second, other.second)
            && is_same_secret(self.third, other.third)
            && is_same_secret(self.fourth, other.fourth)
    }
}

fn is_same_secret(one: Option<Secret>, other: Option<Secret>) -> bool
    ensures { IsTrue result ↔ (one ≡ other) }
{
    one == other
}
