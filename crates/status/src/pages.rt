//! The three pages. Each is compact JSON, an object whose members stand in the order of their names.
ghost use Rattle.std.specs.Prelude.{◌≡◌, IfOk};
ghost use Rattle.std.specs.String.{string_bytes};
ghost use Rattle.serde_json.specs.View.{view};
ghost use Rattle.desk.specs.Queries.{shown};
ghost use Rattle.status.specs.Pages.{totals_page, endpoint_page, event_page, totals_text, endpoint_text, event_text};

use crate::words::{due_value, id_text, name_text, state_name, status_value, url_text};
use delivery_book::Row;
use desk::{EndpointPage, Totals};
use serde_json::{Value, json};
use std::alloc::{AllocError, Global};

/// The page of all endpoints and events. It fails only if it lacks memory.
pub fn totals_text(alloc: Global, page: &Totals) -> Result<String, AllocError>
    ensures { IfOk result (λ text. string_bytes text ≡ totals_text page.now) }
{
    totals_value(alloc, page)?.to_string(alloc)
}

fn totals_value(alloc: Global, page: &Totals) -> Result<Value, AllocError>
    ensures { IfOk result (λ value. view value ≡ totals_page page.now) }
{
    json!(in alloc; {
        "delivered": page.delivered,
        "endpoints": page.endpoints,
        "exhausted": page.exhausted,
        "pending": page.pending,
        "records": page.records,
    })
}

/// The page of an endpoint: how many of its deliveries are in each state, whether it is enabled, its maximum limit, how
/// many secrets it has, and its URL as it was given. It fails only if it lacks memory.
pub fn endpoint_text(alloc: Global, page: &EndpointPage<'_>) -> Result<String, AllocError>
    ensures { IfOk result (λ text. string_bytes text ≡ endpoint_text (shown page.now)) }
{
    endpoint_value(alloc, page)?.to_string(alloc)
}

fn endpoint_value(alloc: Global, page: &EndpointPage<'_>) -> Result<Value, AllocError>
    ensures { IfOk result (λ value. view value ≡ endpoint_page (shown page.now)) }
{
    json!(in alloc; {
        "delivered": page.delivered,
        "enabled": page.enabled,
        "exhausted": page.exhausted,
        "max": page.max.get(),
        "name": name_text(&page.name),
        "pending": page.pending,
        "secrets": page.secrets,
        "url": url_text(page.url),
    })
}

/// The page of an event: its moments are in seconds since the epoch. `due` is `null` unless the
/// delivery is pending; `last_status` is `null` before the first attempt ended, and 0 where the
/// last one had no answer. It fails only if an allocation fails.
pub fn event_text(alloc: Global, page: &Row) -> Result<String, AllocError>
    ensures { IfOk result (λ text. string_bytes text ≡ event_text page.now) }
{
    event_value(alloc, page)?.to_string(alloc)
}

fn event_value(alloc: Global, page: &Row) -> Result<Value, AllocError>
    ensures { IfOk result (λ value. view value ≡ event_page page.now) }
{
    json!(in alloc; {
        "at": page.at.seconds(),
        "attempts": page.attempts,
        "due": due_value(page.state, page.due),
        "endpoint": name_text(&page.endpoint),
        "id": id_text(&page.id),
        "last_status": status_value(page.last_status),
        "state": state_name(page.state),
    })
}
