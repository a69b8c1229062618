//! What stands in a page, where it isn't a number.
ghost use Rattle.std.specs.Prelude.{◌≡◌, IsTrue};
ghost use Rattle.relay_types.specs.Values.{is_visible};
ghost use Rattle.serde_json.specs.View.{view};
ghost use Rattle.status.specs.Pages.{due_of, or_null, state_name};

use relay_types::{MsgId, Name, State, Target};
use serde_json::Value;

/// When the next attempt is due, in seconds since the epoch: `null` unless the delivery is pending.
pub(crate) fn due_value(state: State, due: Option<u64>) -> Value
    ensures { view result ≡ or_null (due_of state due) }
{
    match state {
        State::Pending => Value::from(due),
        State::Delivered | State::Exhausted => Value::Null,
    }
}

/// The status of the last attempt: `null` where there is none, 0 where it had no answer.
pub(crate) fn status_value(last_status: Option<u16>) -> Value
    ensures { view result ≡ or_null last_status }
{
    Value::from(last_status)
}

/// The name of a state.
pub(crate) fn state_name(state: State) -> &'static str
    ensures { result.now ≡ state_name state }
{
    match state {
        State::Pending => "pending",
        State::Delivered => "delivered",
        State::Exhausted => "exhausted",
    }
}

/// The characters of a name.
pub(crate) fn name_text(name: &Name) -> &str
    ensures { result.now ≡ name.now }
{
    visible_text(name.as_bytes())
}

/// The characters of an id.
pub fn id_text(id: &MsgId) -> &str
    ensures { result.now ≡ id.now }
{
    visible_text(id.as_bytes())
}

/// The characters of a target.
pub(crate) fn url_text(url: &Target) -> &str
    ensures { result.now ≡ url.now }
{
    visible_text(url.as_bytes())
}

fn visible_text(text: &[u8]) -> &str
    requires { IsTrue (is_visible text.now) }
    ensures { result.now ≡ text.now }
{
    match str::from_utf8(text) {
        Ok(text) => text,
        Err(_) => unreachable!(),
    }
}
