//! The events, as their rows show them.
ghost use Rattle.std.specs.Prelude.{◌≡◌};
ghost use Rattle.relay_types.specs.Values.{is_body};
ghost use Rattle.sound_tables.specs.Reading.{IsReadAs};
ghost use Rattle.sound_tables.specs.Shown.{ShowsDelivery};

use crate::reading::Reading;
use crate::value::{blob_at, number_at, text_at};
use relay_types::{MAX_BODY_BYTES, Moment, MsgId};
use sound_rows::Delivery;
use sqlite::Row;
use std::alloc::{AllocError, Global};

impl Reading for Delivery {
    ghost use Rattle.sound_tables.specs.Shown.{ShowsDelivery};

    ghost is_shown = { ShowsDelivery };

    fn read(row: &Row, _: Global) -> Result<Option<Delivery>, AllocError> {
        Ok(delivery_in(row))
    }
}

fn delivery_in(row: &Row) -> Option<Delivery>
    ensures { IsReadAs ShowsDelivery row.now result }
{
    let seq = number_at(row, 0)?;
    let endpoint = number_at(row, 1)?;
    MsgId::read(text_at(row, 2)?).ok()?;
    Moment::of(number_at(row, 3)?).ok()?;
    if !is_body(blob_at(row, 4)?) {
        return None;
    }
    Some(Delivery { seq, endpoint })
}

fn is_body(bytes: &[u8]) -> bool
    ensures { result ≡ is_body bytes.now }
{
    bytes.len() <= MAX_BODY_BYTES
}
