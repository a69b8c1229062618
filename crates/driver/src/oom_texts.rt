//! Calls that read or write texts.
use crate::given::{FixedValues, SECRET, URL};
use crate::oom::{CallError, RepeatableCall, try_twice};
use relay_types::{MaxLimit, Moment, MsgId, Name, Secret, Secrets, Target};
use script_lines::{read_call, read_line};
use std::alloc::Global;
use std::io;
use text_lines::{
    Lines, read_body, read_max, read_moment, read_secrets, secrets_of, split, write_line,
};

const SECRETS: &[u8] =
    b"whsec_ODlhYmNkZWYwMTIzNDU2Nzg5YWJjZGVm,whsec_MDEyMzQ1Njc4OTAxMjM0NTY3ODkwMTIz";

/// A line that puts an endpoint.
pub(crate) const PUT: &[u8] =
    b"put a http://127.0.0.1:9000/hook 100 whsec_MDEyMzQ1Njc4OTAxMjM0NTY3ODkwMTIz";

#[derive(Clone, Copy)]
pub(crate) enum TextCall {
    Call,
    Line,
    LinesAdvance,
    LinesNew,
    ReadBody,
    ReadSecrets,
    Readers,
    SecretWrite,
    SecretsOf,
    Split,
    TargetRead,
    WriteLine,
}

/// A call, and a secret that it is handed.
#[derive(Clone, Copy)]
struct Texts {
    call: TextCall,
    secret: Secret,
}

impl RepeatableCall for Texts {
    fn attempt(&mut self, rt: &HostRuntime) -> Result<u64, CallError> {
        let alloc = rt.alloc();
        match self.call {
            TextCall::Call => call_told(alloc),
            TextCall::Line => line_told(alloc),
            TextCall::LinesAdvance => advance_told(alloc),
            TextCall::LinesNew => Ok(Lines::new(alloc)?.number()),
            TextCall::ReadBody => Ok(read_body(alloc, b"7b7d")?.as_bytes().len() as u64),
            TextCall::ReadSecrets => Ok(read_secrets(alloc, SECRETS)?.count() as u64),
            TextCall::Readers => read_all(),
            TextCall::SecretWrite => Ok(self.secret.write(alloc)?.len() as u64),
            TextCall::SecretsOf => Ok(secrets_of(alloc, &[SECRET])?.count() as u64),
            TextCall::Split => Ok(split(alloc, PUT)?.len() as u64),
            TextCall::TargetRead => Ok(u64::from(Target::read(alloc, URL)?.port())),
            TextCall::WriteLine => {
                write_line(alloc, &mut io::sink(), &"settled 1")?;
                Ok(0)
            }
        }
    }
}

fn line_told(alloc: Global) -> Result<u64, CallError> {
    let _line = read_line(alloc, PUT)?;
    Ok(0)
}

fn call_told(alloc: Global) -> Result<u64, CallError> {
    let _call = read_call(alloc, PUT)?;
    Ok(0)
}

// Each reader that takes no memory: how many secrets were read.
fn read_all() -> Result<u64, CallError> {
    let (_name, _id) = (Name::read(b"a")?, MsgId::read(b"msg_1")?);
    let (_max, _most) = (MaxLimit::of(1)?, read_max(b"1")?);
    let (_at, _later) = (Moment::of(1)?, read_moment(b"1")?);
    let secret = Secret::read(SECRET)?;
    let same = Secret::of(secret.as_bytes())?;
    Ok(Secrets::of(&[secret, same])?.count() as u64)
}

// A line of new lines, since those that were refused answer Read from then on.
fn advance_told(alloc: Global) -> Result<u64, CallError> {
    let mut input: &[u8] = b"seal\n";
    let mut lines = Lines::new(alloc)?;
    lines.advance(&mut input)?;
    Ok(lines.line().len() as u64)
}

/// Makes the call. Whether it was made.
pub(crate) fn try_text(rt: &HostRuntime, call: TextCall, given: FixedValues) -> io::Result<bool> {
    let secret = given.secret;
    try_twice(rt, &mut Texts { call, secret })
}
