//! Replies.
ghost use Rattle.std.specs.Prelude.{◌≡◌, ℕ, List, true, false, IfOk, string_bytes};
ghost use Rattle.std.specs.Cow.{cow_str_bytes};
ghost use Rattle.intake_shed.specs.Replies.{out_of_memory};
ghost use Rattle.intake_shed.specs.Done.{IsDone};

use std::alloc::AllocError;
use std::borrow::CowStr;
use std::marker::Model;

/// A text of JSON that a reply has as its body. A contract sees its bytes.
#[derive(Drop)]
pub struct ReplyText {
    text: CowStr<'static>,
}

impl Model for ReplyText {
    ghost use Rattle.std.specs.Prelude.{ℕ, List};
    ghost use Rattle.std.specs.Cow.{cow_str_bytes};

    ghost Value = { List ℕ };

    ghost view = { λ a. cow_str_bytes a.text };
}

impl ReplyText {
    /// A text that is part of the program. It doesn't allocate.
    pub fn fixed(text: &'static str) -> ReplyText
        ensures { result ≡ text.now }
    {
        ReplyText {
            text: CowStr::Borrowed(text),
        }
    }

    /// A text that was made.
    pub fn made(text: String) -> ReplyText
        ensures { result ≡ string_bytes text }
    {
        ReplyText {
            text: CowStr::Owned(text),
        }
    }

    /// The text.
    pub fn as_str(&self) -> &str
        ensures { result.now ≡ self.now }
    {
        self.text.as_str()
    }

    /// The text, without a copy: borrowed if it is part of the program, as each refusal's is, or
    /// else as it was made.
    pub fn into_cow(self) -> CowStr<'static>
        ensures { cow_str_bytes result ≡ self }
    {
        self.text
    }
}

/// A reply over HTTP.
#[derive(Drop)]
pub struct Reply {
    /// The status code (RFC 9110, section 15).
    pub status: u16,
    /// Whether the header `Retry-After: 1` goes with it: the request may be made again after a
    /// second.
    pub retry: bool,
    /// The body, of the type `application/json`.
    pub body: ReplyText,
}

impl Reply {
    // The reply of what was done with this text, or out of memory if an allocation for it failed.
    pub(crate) fn done(status: u16, text: Result<String, AllocError>) -> Reply
        ensures { (bytes : List ℕ) → IfOk text (λ made. string_bytes made ≡ bytes) → IsDone status bytes result }
    {
        match text {
            Ok(text) => Reply {
                status,
                retry: false,
                body: ReplyText::made(text),
            },
            Err(AllocError) => Reply::out_of_memory(),
        }
    }

    // The reply if an allocation failed.
    pub(crate) fn out_of_memory() -> Reply
        ensures { result ≡ out_of_memory }
    {
        Reply::refused_now("{\"error\":\"OutOfMemory\"}")
    }

    // The reply of a refusal that is final.
    pub(crate) fn refused(status: u16, text: &'static str) -> Reply
        ensures { result ≡ record { status = status; retry = false; body = text.now } }
    {
        Reply {
            status,
            retry: false,
            body: ReplyText::fixed(text),
        }
    }

    // The reply of a refusal that may be different a second later.
    pub(crate) fn refused_now(text: &'static str) -> Reply
        ensures { result ≡ record { status = 503; retry = true; body = text.now } }
    {
        Reply {
            status: 503,
            retry: true,
            body: ReplyText::fixed(text),
        }
    }
}
