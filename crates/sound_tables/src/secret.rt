//! The secrets, as their rows show them.
ghost use Rattle.sound_tables.specs.Reading.{IsReadAs};
ghost use Rattle.sound_tables.specs.Shown.{ShowsSecret};

use crate::reading::Reading;
use crate::value::{blob_at, int_at, number_at};
use sqlite::Row;
use std::alloc::{AllocError, Global};

/// Where a secret stands: its rowid, the number of its endpoint's record, and its place among that endpoint's secrets.
#[derive(Clone, Copy)]
pub(crate) struct Secret {
    pub rowid: i64,
    pub endpoint: u64,
    pub place: u64,
}

impl Reading for Secret {
    ghost use Rattle.sound_tables.specs.Shown.{ShowsSecret};

    ghost is_shown = { ShowsSecret };

    fn read(row: &Row, _: Global) -> Result<Option<Secret>, AllocError> {
        Ok(secret_in(row))
    }
}

fn secret_in(row: &Row) -> Option<Secret>
    ensures { IsReadAs ShowsSecret row.now result }
{
    let rowid = int_at(row, 0)?;
    let endpoint = number_at(row, 1)?;
    let place = number_at(row, 2)?;
    relay_types::Secret::of(blob_at(row, 3)?).ok()?;
    Some(Secret {
        rowid,
        endpoint,
        place,
    })
}
