//! Which request asks for what.
ghost use Rattle.std.specs.Prelude.{◌≡◌, ◌≤◌, false, length, IsTrue, IfOk, IfErr, OnOk};
ghost use Rattle.std.specs.Arc.{arc_value};
ghost use Rattle.relay_types.specs.Values.{is_name};
ghost use Rattle.text_lines.specs.Parts.{texts};
ghost use Rattle.intake_shed.specs.Requests.{AsksFor, IsRefusal, IsRefusedFor, IsNotReadFor, IsReadAs, IsRefusedWith};
ghost use Rattle.intake_shed.specs.Requests.{FailsOnRoute, AgreesWithBody, route_of_asked};
ghost use Rattle.intake_shed.specs.Requests.{passes_checks, is_within_limit, bytes_of, has_one_id, id_of};
ghost use Rattle.intake_shed.specs.Routes.{route_value};
ghost use Rattle.intake_shed.specs.declared.ask.Asked.{Asked};
ghost use Rattle.intake_shed.specs.declared.fault.RequestError.{RequestError};

use crate::ask::{Ask, AskBody, Asked};
use crate::changes::{read_flag, read_purge, read_put, read_secrets, read_subscribed};
use crate::fault::RequestError;
use crate::reply::Reply;
use crate::routes::{Route, read_route};
use relay_types::{Body, MAX_BODY_BYTES, MsgId, Name};
use std::alloc::{AllocError, Global};
use std::sync::Arc;

/// What a request asks for, or the reply that refuses it: the first check that fails decides, and
/// only an allocation may fail before it. An event without an id gets the fresh one.
pub fn read_ask(alloc: Global, ask: &Ask<'_>, fresh: MsgId) -> Result<Asked, Reply>
    ensures asked { IfOk result (λ asked. AsksFor ask.now fresh asked) }
    ensures asks { (asked : Asked) → AsksFor ask.now fresh asked → IsReadAs result asked }
    ensures refused { IfErr result (λ reply. IsRefusal ask.now reply) }
    ensures refuses { (why : RequestError) → IsRefusedFor ask.now why → IsRefusedWith result why }
{
    match read(alloc, ask, fresh) {
        Ok(asked) => Ok(asked),
        Err(fault) => Err(fault.reply()),
    }
}

fn read(alloc: Global, ask: &Ask<'_>, fresh: MsgId) -> Result<Asked, RequestError>
    ensures asked { IfOk result (λ asked. AsksFor ask.now fresh asked) }
    ensures refused { IfErr result (λ why. IsNotReadFor ask.now why) }
{
    match read_route(ask.method, ask.path) {
        Some(route) => read_on(alloc, route, ask, fresh),
        None => Err(RequestError::NotFound),
    }
}

// What a request on this route asks for.
fn read_on(
    alloc: Global,
    route: Route<'_>,
    ask: &Ask<'_>,
    fresh: MsgId,
) -> Result<Asked, RequestError>
    ensures route { IfOk result (λ asked. route_of_asked asked ≡ route_value route.entry) }
    ensures passes { OnOk result (IsTrue (passes_checks (route_value route.entry) ask.now)) }
    ensures says { IfOk result (λ asked. AgreesWithBody ask.now fresh asked) }
    ensures refused { IfErr result (λ why. FailsOnRoute (route_value route.entry) ask.now why) }
{
    match route {
        Route::Put(name) => {
            let name = read_name(name)?;
            let body = body_within_limit(&ask.body)?;
            Ok(Asked::Change(read_put(alloc, name, body)?))
        }
        Route::SetSecrets(name) => {
            let name = read_name(name)?;
            let body = body_within_limit(&ask.body)?;
            Ok(Asked::Change(read_secrets(alloc, name, body)?))
        }
        Route::SetEnabled(name) => {
            let name = read_name(name)?;
            let body = body_within_limit(&ask.body)?;
            Ok(Asked::Change(read_flag(alloc, name, body)?))
        }
        Route::SetSubscribed(name, topic) => {
            let name = read_name(name)?;
            let topic = read_name(topic)?;
            let body = body_within_limit(&ask.body)?;
            Ok(Asked::Change(read_subscribed(alloc, topic, name, body)?))
        }
        Route::Submit(name) => {
            let name = read_name(name)?;
            let body = body_within_limit(&ask.body)?;
            let id = read_id(ask.ids, fresh)?;
            Ok(Asked::Post {
                name,
                id,
                body: copy_body(alloc, body)?,
            })
        }
        Route::Publish(topic) => {
            let topic = read_name(topic)?;
            let body = body_within_limit(&ask.body)?;
            let id = read_id(ask.ids, fresh)?;
            Ok(Asked::Publish {
                topic,
                id,
                body: copy_body(alloc, body)?,
            })
        }
        Route::Retention => {
            let body = body_within_limit(&ask.body)?;
            Ok(Asked::Change(read_purge(alloc, body)?))
        }
        Route::Totals => {
            body_within_limit(&ask.body)?;
            Ok(Asked::Totals)
        }
        Route::Endpoint(name) => {
            let name = read_name(name)?;
            body_within_limit(&ask.body)?;
            Ok(Asked::Endpoint(name))
        }
        Route::Event(name, id) => {
            let name = read_name(name)?;
            body_within_limit(&ask.body)?;
            Ok(Asked::Event(name, MsgId::read(id).map_err(|_| RequestError::BadId)?))
        }
    }
}

// The name of the endpoint, or of the topic.
fn read_name(name: &[u8]) -> Result<Name, RequestError>
    ensures value { IfOk result (λ read. read ≡ name.now) }
    ensures passes { OnOk result (IsTrue (is_name name.now)) }
    ensures refused { IfErr result (λ why. (why ≡ RequestError.BadName) × (is_name name.now ≡ false)) }
{
    match Name::read(name) {
        Ok(name) => Ok(name),
        Err(_) => Err(RequestError::BadName),
    }
}

// The bytes of a body that is within the limit.
fn body_within_limit<'a>(body: &AskBody<'a>) -> Result<&'a [u8], RequestError>
    ensures bytes { IfOk result (λ bytes. bytes.now ≡ bytes_of body.now) }
    ensures passes { OnOk result (IsTrue (is_within_limit body.now)) }
    ensures refused { IfErr result (λ why. (why ≡ RequestError.TooLong) × (is_within_limit body.now ≡ false)) }
{
    match *body {
        AskBody::Whole(bytes) if bytes.len() <= MAX_BODY_BYTES => Ok(bytes),
        AskBody::Whole(_) | AskBody::TooLong => Err(RequestError::TooLong),
    }
}

// The id of an event: at most one is given.
fn read_id(ids: &[&[u8]], fresh: MsgId) -> Result<MsgId, RequestError>
    ensures value { IfOk result (λ id. id ≡ id_of (texts ids.now) fresh) }
    ensures passes { OnOk result (IsTrue (has_one_id (texts ids.now))) }
    ensures refused { IfErr result (λ why. (why ≡ RequestError.BadId) × (has_one_id (texts ids.now) ≡ false)) }
{
    match ids {
        [] => Ok(fresh),
        [id] => match MsgId::read(id) {
            Ok(id) => Ok(id),
            Err(_) => Err(RequestError::BadId),
        },
        _ => Err(RequestError::BadId),
    }
}

// The body of an event, which is within the limit.
fn copy_body(alloc: Global, bytes: &[u8]) -> Result<Body, RequestError>
    requires { length bytes.now ≤ MAX_BODY_BYTES }
    ensures value { IfOk result (λ body. body ≡ bytes.now) }
    ensures refused { IfErr result (λ why. why ≡ RequestError.OutOfMemory) }
{
    let Ok(body) = Body::of(share_copy(alloc, bytes)?) else {
        unreachable!()
    };
    Ok(body)
}

fn share_copy(alloc: Global, bytes: &[u8]) -> Result<Arc<Vec<u8>>, AllocError>
    ensures { IfOk result (λ shared. (arc_value shared).items ≡ bytes.now) }
{
    let copy = bytes.to_vec(alloc)?;
    let shared = Arc::new(alloc, copy)?;
    Ok(shared)
}
