//! Which change a body asks for.
ghost use Rattle.std.specs.Prelude.{◌≡◌, ◌⊎◌, false, Err, IsTrue, IfOk, IfErr, codes};
ghost use Rattle.serde_json.specs.Data.{Data, unsigned};
ghost use Rattle.serde_json.specs.View.{view, number_view};
ghost use Rattle.relay_types.specs.Values.{is_target, is_max_limit, is_moment};
ghost use Rattle.text_lines.specs.Parts.{texts};
ghost use Rattle.text_lines.specs.Words.{AreSecretTexts};
ghost use Rattle.intake_shed.specs.RouteTable.{Put, SetSecrets, SetEnabled, SetSubscribed, Retention};
ghost use Rattle.intake_shed.specs.Bodies.{IsJson, SaysCommand, AreNoSecrets, is_before, is_max};
ghost use Rattle.intake_shed.specs.Bodies.{IsBadMember, IsBadPut, IsBadSecrets, IsBadFlag, IsBadBefore, IsBadByValue};
ghost use Rattle.intake_shed.specs.Members.{IsPutOf};
ghost use Rattle.intake_shed.specs.Requests.{route_of_command};

use crate::fault::RequestError;
use crate::members::{flag_of, number_of, read_json, secret_texts, text_of};
use desk::Command;
use relay_types::{MaxLimit, Moment, Name, ReadFault, Secrets, Target};
use serde_json::{Number, Value};
use std::alloc::Global;
use text_lines::secrets_of;

/// A new endpoint.
pub(crate) fn read_put(alloc: Global, name: Name, body: &[u8]) -> Result<Command, RequestError>
    ensures route { IfOk result (λ command. route_of_command command ≡ Put name) }
    ensures says { IfOk result (λ command. (value : Data) × IsJson body.now value × SaysCommand value command) }
    ensures refused { IfErr result (λ why. IsBadByValue IsBadPut body.now why) }
{
    let value = read_json(alloc, body)?;
    put_of(alloc, name, &value)
}

/// Other secrets of an endpoint.
pub(crate) fn read_secrets(alloc: Global, name: Name, body: &[u8]) -> Result<Command, RequestError>
    ensures route { IfOk result (λ command. route_of_command command ≡ SetSecrets name) }
    ensures says { IfOk result (λ command. (value : Data) × IsJson body.now value × SaysCommand value command) }
    ensures refused { IfErr result (λ why. IsBadByValue IsBadSecrets body.now why) }
{
    let value = read_json(alloc, body)?;
    secrets_of_value(alloc, name, &value)
}

/// Whether an endpoint is posted to.
pub(crate) fn read_flag(alloc: Global, name: Name, body: &[u8]) -> Result<Command, RequestError>
    ensures route { IfOk result (λ command. route_of_command command ≡ SetEnabled name) }
    ensures says { IfOk result (λ command. (value : Data) × IsJson body.now value × SaysCommand value command) }
    ensures refused { IfErr result (λ why. IsBadByValue (IsBadFlag (codes "enabled")) body.now why) }
{
    let value = read_json(alloc, body)?;
    let flag = flag_of(&value, "enabled")?;
    Ok(Command::SetEnabled { name, flag })
}

/// Whether an endpoint is subscribed to a topic.
pub(crate) fn read_subscribed(
    alloc: Global,
    topic: Name,
    name: Name,
    body: &[u8],
) -> Result<Command, RequestError>
    ensures route { IfOk result (λ command. route_of_command command ≡ SetSubscribed name topic) }
    ensures says { IfOk result (λ command. (value : Data) × IsJson body.now value × SaysCommand value command) }
    ensures refused { IfErr result (λ why. IsBadByValue (IsBadFlag (codes "subscribed")) body.now why) }
{
    let value = read_json(alloc, body)?;
    let flag = flag_of(&value, "subscribed")?;
    Ok(Command::SetSubscribed { topic, name, flag })
}

/// Events that are done with, the last attempt at each before the moment of the body, are removed.
pub(crate) fn read_purge(alloc: Global, body: &[u8]) -> Result<Command, RequestError>
    ensures route { IfOk result (λ command. route_of_command command ≡ Retention) }
    ensures says { IfOk result (λ command. (value : Data) × IsJson body.now value × SaysCommand value command) }
    ensures refused { IfErr result (λ why. IsBadByValue IsBadBefore body.now why) }
{
    let value = read_json(alloc, body)?;
    purge_of(&value)
}

fn put_of(alloc: Global, name: Name, value: &Value) -> Result<Command, RequestError>
    ensures route { IfOk result (λ command. route_of_command command ≡ Put name) }
    ensures says { IfOk result (λ command. SaysCommand (view value.now) command) }
    ensures refused { IfErr result (λ why. IsBadPut (view value.now) why) }
{
    let url = text_of(value, "url")?;
    let max = number_of(value, "max")?;
    let secrets = secret_texts(alloc, value)?;
    put_of_members(alloc, name, url, max, secrets.as_slice())
}

fn put_of_members(
    alloc: Global,
    name: Name,
    url: &str,
    max: &Number,
    secrets: &[&[u8]],
) -> Result<Command, RequestError>
    ensures command { IfOk result (λ command. IsPutOf name url.now (number_view max.now) (texts secrets.now) command) }
    ensures refused { IfErr result (λ why. IsBadMember url.now (number_view max.now) (texts secrets.now) why) }
{
    Ok(Command::PutEndpoint {
        name,
        target: read_url(alloc, url)?,
        max: read_max(max)?,
        secrets: read_each(alloc, secrets)?,
    })
}

fn secrets_of_value(alloc: Global, name: Name, value: &Value) -> Result<Command, RequestError>
    ensures route { IfOk result (λ command. route_of_command command ≡ SetSecrets name) }
    ensures says { IfOk result (λ command. SaysCommand (view value.now) command) }
    ensures refused { IfErr result (λ why. IsBadSecrets (view value.now) why) }
{
    let texts = secret_texts(alloc, value)?;
    let secrets = read_each(alloc, texts.as_slice())?;
    Ok(Command::SetSecrets { name, secrets })
}

fn purge_of(value: &Value) -> Result<Command, RequestError>
    ensures route { IfOk result (λ command. route_of_command command ≡ Retention) }
    ensures says { IfOk result (λ command. SaysCommand (view value.now) command) }
    ensures refused { IfErr result (λ why. IsBadBefore (view value.now) why) }
{
    let before = number_of(value, "before")?;
    Ok(Command::Purge {
        before: read_before(before)?,
    })
}

fn read_url(alloc: Global, url: &str) -> Result<Target, RequestError>
    ensures value { IfOk result (λ target. (target ≡ url.now) × IsTrue (is_target url.now)) }
    ensures bad { result ≡ Err RequestError.BadUrl → is_target url.now ≡ false }
    ensures faults { IfErr result (λ why. (why ≡ RequestError.BadUrl) ⊎ (why ≡ RequestError.OutOfMemory)) }
{
    match Target::read(alloc, url.as_bytes()) {
        Ok(target) => Ok(target),
        Err(ReadFault::OutOfMemory) => Err(RequestError::OutOfMemory),
        Err(_) => Err(RequestError::BadUrl),
    }
}

fn read_max(max: &Number) -> Result<MaxLimit, RequestError>
    ensures value { IfOk result (λ limit. (number_view max.now ≡ unsigned limit) × IsTrue (is_max_limit limit)) }
    ensures refused { IfErr result (λ why. (why ≡ RequestError.BadMax) × (is_max (number_view max.now) ≡ false)) }
{
    let Some(limit) = max.as_u64() else {
        return Err(RequestError::BadMax);
    };
    match MaxLimit::of(limit) {
        Ok(limit) => Ok(limit),
        Err(_) => Err(RequestError::BadMax),
    }
}

fn read_before(before: &Number) -> Result<Moment, RequestError>
    ensures value { IfOk result (λ moment. (number_view before.now ≡ unsigned moment) × IsTrue (is_moment moment)) }
    ensures refused { IfErr result (λ why. (why ≡ RequestError.BadMoment)
        × (is_before (number_view before.now) ≡ false)) }
{
    let Some(seconds) = before.as_u64() else {
        return Err(RequestError::BadMoment);
    };
    match Moment::of(seconds) {
        Ok(moment) => Ok(moment),
        Err(_) => Err(RequestError::BadMoment),
    }
}

fn read_each(alloc: Global, secrets: &[&[u8]]) -> Result<Secrets, RequestError>
    ensures value { IfOk result (λ read. AreSecretTexts (texts secrets.now) read) }
    ensures bad { result ≡ Err RequestError.BadSecret → AreNoSecrets (texts secrets.now) }
    ensures faults { IfErr result (λ why. (why ≡ RequestError.BadSecret) ⊎ (why ≡ RequestError.OutOfMemory)) }
{
    match secrets_of(alloc, secrets) {
        Ok(secrets) => Ok(secrets),
        Err(ReadFault::OutOfMemory) => Err(RequestError::OutOfMemory),
        Err(_) => Err(RequestError::BadSecret),
    }
}
