//! Whether endpoints are subscribed to topics, as the rows show it.
ghost use Rattle.std.specs.Prelude.{◌≡◌, IfOk, map};
ghost use Rattle.sound_tables.specs.Checks.{AreInTurn, numbers_of};
ghost use Rattle.sound_tables.specs.Reading.{IsReadAs};
ghost use Rattle.sound_tables.specs.Shown.{ShowsTopic};

use crate::reading::Reading;
use crate::value::{flag_at, int_at, number_at, text_at};
use relay_types::Name;
use sqlite::Row;
use std::alloc::{AllocError, Global};

/// A topic of an endpoint: its rowid, the number of the endpoint's record, and that of the record that decides whether
/// the endpoint is subscribed.
#[derive(Clone, Copy)]
pub(crate) struct Topic {
    pub rowid: i64,
    pub endpoint: u64,
    pub set_by: u64,
}

impl Reading for Topic {
    ghost use Rattle.sound_tables.specs.Shown.{ShowsTopic};

    ghost is_shown = { ShowsTopic };

    fn read(row: &Row, _: Global) -> Result<Option<Topic>, AllocError> {
        Ok(topic_in(row))
    }
}

fn topic_in(row: &Row) -> Option<Topic>
    ensures { IsReadAs ShowsTopic row.now result }
{
    let rowid = int_at(row, 0)?;
    Name::read(text_at(row, 1)?).ok()?;
    let endpoint = number_at(row, 2)?;
    flag_at(row, 3)?;
    let set_by = number_at(row, 4)?;
    Some(Topic {
        rowid,
        endpoint,
        set_by,
    })
}

/// The numbers of the topics, in the order of the records that decide them. An error is want of
/// memory.
pub(crate) fn numbers_in_turn(
    topics: &[Topic],
    alloc: Global,
) -> Result<Vec<sound_rows::Topic>, AllocError>
    ensures { IfOk result (λ numbers. AreInTurn topics.now numbers.items) }
{
    let mut numbers = numbers_of(topics, alloc)?;
    numbers.sort_unstable_by_key(|topic| topic.set_by);
    Ok(numbers)
}

fn numbers_of(topics: &[Topic], alloc: Global) -> Result<Vec<sound_rows::Topic>, AllocError>
    ensures { IfOk result (λ numbers. numbers.items ≡ map numbers_of topics.now) }
{
    let mut numbers = Vec::new(alloc);
    for topic in topics {
        numbers.push(sound_rows::Topic {
            endpoint: topic.endpoint,
            set_by: topic.set_by,
        })?;
    }
    Ok(numbers)
}
