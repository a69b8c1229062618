//! What `meta` tells of the tables, as its row shows it.
ghost use Rattle.sound_tables.specs.Reading.{IsReadAs};
ghost use Rattle.sound_tables.specs.Shown.{ShowsMeta};

use crate::reading::Reading;
use crate::value::{int_at, text_at};
use sqlite::Row;
use std::alloc::{AllocError, Global};

/// The row of the relay's `meta`: its key, the version of the tables and how many records they
/// hold, as they stand there.
#[derive(Clone, Copy)]
pub(crate) struct Meta {
    pub key: i64,
    pub version: i64,
    pub records: i64,
}

impl Reading for Meta {
    ghost use Rattle.sound_tables.specs.Shown.{ShowsMeta};

    ghost is_shown = { ShowsMeta };

    fn read(row: &Row, _: Global) -> Result<Option<Meta>, AllocError> {
        Ok(meta_in(row))
    }
}

fn meta_in(row: &Row) -> Option<Meta>
    ensures { IsReadAs ShowsMeta row.now result }
{
    let key = int_at(row, 0)?;
    if text_at(row, 1)? != b"webhook-relay".as_slice() {
        return None;
    }
    let version = int_at(row, 2)?;
    let records = int_at(row, 3)?;
    Some(Meta {
        key,
        version,
        records,
    })
}
