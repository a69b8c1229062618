//! The members of a body of JSON.
ghost use Rattle.std.specs.Prelude.{◌≡◌, ℕ, List, Bool, None, Err, IfOk, IfSome, IfErr};
ghost use Rattle.text_lines.specs.Parts.{texts};
ghost use Rattle.serde_json.specs.Data.{Data, Num};
ghost use Rattle.serde_json.specs.View.{view, number_view, items_view};
ghost use Rattle.intake_shed.specs.Bodies.{IsJson, HasSecrets, HasFlag, strings};
ghost use Rattle.intake_shed.specs.Members.{HasTextMember, HasNumberMember, IsBodyFault};

use crate::fault::RequestError;
use serde_json::{Number, Value};
use std::alloc::Global;

/// The value of a body.
pub(crate) fn read_json(alloc: Global, body: &[u8]) -> Result<Value, RequestError>
    ensures value { IfOk result (λ value. IsJson body.now (view value)) }
    ensures bad { result ≡ Err RequestError.BadBody → (value : Data) → ¬ IsJson body.now value }
    ensures faults { IsBodyFault result }
{
    match Value::from_slice(alloc, body) {
        Ok(value) => Ok(value),
        Err(error) if error.is_memory() => Err(RequestError::OutOfMemory),
        Err(_) => Err(RequestError::BadBody),
    }
}

/// The text that is the member of this name.
pub(crate) fn text_of<'a>(value: &'a Value, name: &str) -> Result<&'a str, RequestError>
    ensures value { IfOk result (λ text. HasTextMember (view value.now) name.now text.now) }
    ensures bad { result ≡ Err RequestError.BadBody → (text : List ℕ) → ¬ HasTextMember (view value.now) name.now text }
    ensures faults { IsBodyFault result }
{
    value
        .get(name)
        .and_then(Value::as_str)
        .ok_or(RequestError::BadBody)
}

/// The number that is the member of this name.
pub(crate) fn number_of<'a>(value: &'a Value, name: &str) -> Result<&'a Number, RequestError>
    ensures value { IfOk result (λ n. HasNumberMember (view value.now) name.now (number_view n.now)) }
    ensures bad { result ≡ Err RequestError.BadBody → (n : Num) → ¬ HasNumberMember (view value.now) name.now n }
    ensures faults { IsBodyFault result }
{
    value
        .get(name)
        .and_then(Value::as_number)
        .ok_or(RequestError::BadBody)
}

/// The flag that is the member of this name.
pub(crate) fn flag_of(value: &Value, name: &str) -> Result<bool, RequestError>
    ensures value { IfOk result (λ flag. HasFlag (view value.now) name.now flag) }
    ensures bad { result ≡ Err RequestError.BadBody → (flag : Bool) → ¬ HasFlag (view value.now) name.now flag }
    ensures faults { IsBodyFault result }
{
    value
        .get(name)
        .and_then(Value::as_bool)
        .ok_or(RequestError::BadBody)
}

/// The texts of secrets.
pub(crate) fn secret_texts(alloc: Global, value: &Value) -> Result<Vec<&[u8]>, RequestError>
    ensures value { IfOk result (λ list. HasSecrets (view value.now) (texts list.items)) }
    ensures bad { result ≡ Err RequestError.BadBody → (list : List (List ℕ)) → ¬ HasSecrets (view value.now) list }
    ensures faults { IsBodyFault result }
{
    let list = value
        .get("secrets")
        .and_then(Value::as_array)
        .ok_or(RequestError::BadBody)?;
    texts_of(alloc, list.as_slice())
}

fn texts_of(alloc: Global, values: &[Value]) -> Result<Vec<&[u8]>, RequestError>
    ensures value { IfOk result (λ list. items_view values.now ≡ strings (texts list.items)) }
    ensures bad { result ≡ Err RequestError.BadBody → (list : List (List ℕ))
        → ¬ (items_view values.now ≡ strings list) }
    ensures faults { IsBodyFault result }
{
    let mut texts = Vec::new(alloc);
    for value in values {
        let text = value.as_str().ok_or(RequestError::BadBody)?;
        if texts.push(text.as_bytes()).is_err() {
            return Err(RequestError::OutOfMemory);
        }
    }
    Ok(texts)
}
