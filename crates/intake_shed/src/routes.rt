//! The route of a method and a path in the table of requests.
ghost use Rattle.std.specs.Prelude.{◌≡◌, ◌≤◌, ◌==◌, ◌++◌, None, IfSome, IsTrue, codes, length};
ghost use Rattle.std.specs.List.{before_first, position, position_or_len};
ghost use Rattle.text_lines.specs.Parts.{has_no};
ghost use Rattle.intake_shed.specs.RouteTable.{RouteValue, IsRouteOf, before_query};
ghost use Rattle.intake_shed.specs.Routes.{route_value, IsAfterName, StartsAt};

use text_lines::is_word;

/// A route of the table of requests, with the parts of the path.
#[derive(Clone, Copy)]
pub(crate) enum Route<'a> {
    Put(&'a [u8]),
    SetSecrets(&'a [u8]),
    SetEnabled(&'a [u8]),
    SetSubscribed(&'a [u8], &'a [u8]),
    Submit(&'a [u8]),
    Publish(&'a [u8]),
    Retention,
    Totals,
    Endpoint(&'a [u8]),
    Event(&'a [u8], &'a [u8]),
}

/// The route of this method and path.
pub(crate) fn read_route<'a>(method: &[u8], path: &'a [u8]) -> Option<Route<'a>>
    ensures some { IfSome result (λ route. IsRouteOf (route_value route) method.now (before_query path.now)) }
    ensures none { result ≡ None → (value : RouteValue) → ¬ IsRouteOf value method.now (before_query path.now) }
{
    read_path(method, split(path, b'?').0)
}

// The route of this method and path, which has no query.
fn read_path<'a>(method: &[u8], path: &'a [u8]) -> Option<Route<'a>>
    ensures some { IfSome result (λ route. IsRouteOf (route_value route) method.now path.now) }
    ensures none { result ≡ None → (value : RouteValue) → ¬ IsRouteOf value method.now path.now }
{
    if is_word(path, "/v1/status") {
        return is_word(method, "GET").then_some(Route::Totals);
    }
    if is_word(path, "/v1/retention") {
        return is_word(method, "PUT").then_some(Route::Retention);
    }
    if let Some(named) = path.strip_prefix(b"/v1/topics/") {
        return read_topic(method, named);
    }
    let named = path.strip_prefix(b"/v1/endpoints/")?;
    let (name, rest) = split(named, b'/');
    read_after_name(method, name, rest)
}

// The route of this method, and of a topic's path from its name on.
fn read_topic<'a>(method: &[u8], named: &'a [u8]) -> Option<Route<'a>>
    ensures some { IfSome result
        (λ route. IsRouteOf (route_value route) method.now (codes "/v1/topics/" ++ named.now)) }
    ensures none { result ≡ None → (value : RouteValue)
        → ¬ IsRouteOf value method.now (codes "/v1/topics/" ++ named.now) }
{
    let (topic, rest) = split(named, b'/');
    let is_publish = is_word(method, "POST") && is_word(rest, "/events");
    is_publish.then_some(Route::Publish(topic))
}

// The route of this method, of the endpoint of this name, and of what follows the name.
fn read_after_name<'a>(method: &[u8], name: &'a [u8], rest: &'a [u8]) -> Option<Route<'a>>
    requires name { IsTrue (has_no 47 name.now) }
    requires rest { StartsAt 47 rest.now }
    ensures some { IfSome result (λ route. IsAfterName (route_value route) method.now name.now rest.now) }
    ensures none { result ≡ None → (value : RouteValue) → ¬ IsAfterName value method.now name.now rest.now }
{
    if is_word(method, "PUT") {
        read_put(name, rest)
    } else if is_word(method, "POST") {
        is_word(rest, "/events").then_some(Route::Submit(name))
    } else if is_word(method, "GET") {
        read_get(name, rest)
    } else {
        None
    }
}

fn read_put<'a>(name: &'a [u8], rest: &'a [u8]) -> Option<Route<'a>>
    ensures some { IfSome result (λ route. IsAfterName (route_value route) (codes "PUT") name.now rest.now) }
    ensures none { result ≡ None → (value : RouteValue) → ¬ IsAfterName value (codes "PUT") name.now rest.now }
{
    if rest.is_empty() {
        Some(Route::Put(name))
    } else if is_word(rest, "/secrets") {
        Some(Route::SetSecrets(name))
    } else if is_word(rest, "/enabled") {
        Some(Route::SetEnabled(name))
    } else {
        let topic = rest.strip_prefix(b"/topics/")?;
        has_no(topic, b'/').then_some(Route::SetSubscribed(name, topic))
    }
}

fn read_get<'a>(name: &'a [u8], rest: &'a [u8]) -> Option<Route<'a>>
    ensures some { IfSome result (λ route. IsAfterName (route_value route) (codes "GET") name.now rest.now) }
    ensures none { result ≡ None → (value : RouteValue) → ¬ IsAfterName value (codes "GET") name.now rest.now }
{
    if rest.is_empty() {
        return Some(Route::Endpoint(name));
    }
    let id = rest.strip_prefix(b"/events/")?;
    has_no(id, b'/').then_some(Route::Event(name, id))
}

// Whether the byte isn't in the text.
fn has_no(text: &[u8], byte: u8) -> bool
    ensures { result ≡ has_no byte text.now }
{
    text.iter().all(|c| !(*c == byte))
}

// The text before the first of these bytes, or the whole text; and the text from it on.
fn split(text: &[u8], byte: u8) -> (&[u8], &[u8])
    ensures front { result.0.now ≡ before_first (λ c. c == byte) text.now }
    ensures whole { text.now ≡ result.0.now ++ result.1.now }
    ensures clean { IsTrue (has_no byte result.0.now) }
    ensures rest { StartsAt byte result.1.now }
{
    text.split_at(place_of(text, byte))
}

// The place of the first of these bytes, or the length.
fn place_of(text: &[u8], byte: u8) -> usize
    ensures place { result ≡ position_or_len (λ c. c == byte) text.now }
    ensures most { result ≤ length text.now }
{
    find(text, byte).unwrap_or(text.len())
}

fn find(text: &[u8], byte: u8) -> Option<usize>
    ensures { result ≡ position (λ c. c == byte) text.now }
{
    text.iter().position(|c| *c == byte)
}
