//! The endpoints, as their rows show them.
ghost use Rattle.std.specs.Prelude.{◌≡◌, IfOk, IsTrue, true};
ghost use Rattle.relay_types.specs.Values.{is_target};
ghost use Rattle.sound_tables.specs.Reading.{IsReadAs};
ghost use Rattle.sound_tables.specs.Shown.{ShowsNumbers};

use crate::reading::Reading;
use crate::value::{flag_at, number_at, text_at};
use relay_types::{MaxLimit, Name, ReadFault, Target};
use sound_rows::Endpoint;
use sqlite::Row;
use std::alloc::{AllocError, Global};

impl Reading for Endpoint {
    ghost use Rattle.sound_tables.specs.Shown.{ShowsEndpoint};

    ghost is_shown = { ShowsEndpoint };

    fn read(row: &Row, alloc: Global) -> Result<Option<Endpoint>, AllocError> {
        let Some(url) = text_at(row, 2) else {
            return Ok(None);
        };
        if !is_target(url, alloc)? {
            return Ok(None);
        }
        Ok(endpoint_in(row))
    }
}

// The endpoint that the row shows, whatever its target is.
fn endpoint_in(row: &Row) -> Option<Endpoint>
    ensures { IsReadAs ShowsNumbers row.now result }
{
    let put = number_at(row, 0)?;
    Name::read(text_at(row, 1)?).ok()?;
    MaxLimit::of(number_at(row, 3)?).ok()?;
    let enabled = flag_at(row, 4)?;
    let enabled_by = number_at(row, 5)?;
    let secrets_by = number_at(row, 6)?;
    Some(Endpoint {
        put,
        enabled,
        enabled_by,
        secrets_by,
    })
}

fn is_target(text: &[u8], alloc: Global) -> Result<bool, AllocError>
    ensures { IfOk result (λ is. is ≡ is_target text.now) }
{
    match Target::read(alloc, text) {
        Ok(_) => Ok(true),
        Err(ReadFault::OutOfMemory) => Err(AllocError),
        Err(_) => Ok(false),
    }
}
