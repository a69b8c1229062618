//! The attempts, as their rows show them.
ghost use Rattle.sound_tables.specs.Reading.{IsReadAs};
ghost use Rattle.sound_tables.specs.Shown.{ShowsAttempt};

use crate::reading::Reading;
use crate::value::number_at;
use relay_types::Moment;
use sound_rows::Attempt;
use sqlite::Row;
use std::alloc::{AllocError, Global};

impl Reading for Attempt {
    ghost use Rattle.sound_tables.specs.Shown.{ShowsAttempt};

    ghost is_shown = { ShowsAttempt };

    fn read(row: &Row, _: Global) -> Result<Option<Attempt>, AllocError> {
        Ok(attempt_in(row))
    }
}

fn attempt_in(row: &Row) -> Option<Attempt>
    ensures { IsReadAs ShowsAttempt row.now result }
{
    let seq = number_at(row, 0)?;
    let delivery = number_at(row, 1)?;
    let number = number_at(row, 2)?;
    let status = u16::try_from(number_at(row, 3)?).ok()?;
    Moment::of(number_at(row, 4)?).ok()?;
    Some(Attempt {
        seq,
        delivery,
        number,
        status,
    })
}
