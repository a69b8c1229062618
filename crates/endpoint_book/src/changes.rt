//! What isn't settled.
ghost use Rattle.std.specs.Prelude.{◌≡◌, count_by, filter, vec_capacity};
ghost use Rattle.endpoint_book.specs.Entries.{is_flag, is_put, is_from};
ghost use Rattle.endpoint_book.specs.Fields.{SettlesBelow};

use crate::entries::Entries;
use crate::entry::Change;

/// How many of the changes are flags.
pub(crate) fn count_flags(changes: &[Change]) -> usize
    ensures { result ≡ count_by is_flag changes.now }
{
    changes.iter().filter(|change| change.is_flag()).count()
}

/// How many of the changes are Puts.
pub(crate) fn count_puts(changes: &[Change]) -> usize
    ensures { result ≡ count_by is_put changes.now }
{
    changes.iter().filter(|change| change.is_put()).count()
}

/// Settles the changes below this number.
pub(crate) fn settle_below(entries: &mut Entries, changes: &[Change], seq: u64)
    ensures { SettlesBelow seq changes.now entries.old entries.new }
{
    for change in changes {
        if change.seq < seq {
            entries.settle(*change);
        }
    }
}

/// Keeps the changes from this number on.
pub(crate) fn keep_from(changes: &mut Vec<Change>, seq: u64)
    ensures changes { changes.new.items ≡ filter (is_from seq) changes.old.items }
    ensures capacity { vec_capacity changes.new ≡ vec_capacity changes.old }
{
    changes.retain(|change| seq <= change.seq);
}
