//! Where the entries stand.
ghost use Rattle.std.specs.Prelude.{◌≡◌, ◌≤◌, ◌<◌, length, true, Some, is_some, option_copied, slice_index_or};
ghost use Rattle.delivery_book.specs.declared.entry.Entry.{Entry};
ghost use Rattle.delivery_book.specs.Entries.{entry_at};
ghost use Rattle.delivery_book.specs.Fields.{IsAscending, FirstBelow, RestFrom};

use crate::entry::Entry;

/// How many entries stand below this number, by halves.
pub(crate) fn count_below(entries: &[Entry], seq: u64) -> usize
    requires { IsAscending entries.now }
    ensures within { result ≤ length entries.now }
    ensures below { FirstBelow result seq entries.now }
    ensures above { RestFrom result seq entries.now }
{
    entries.partition_point(|entry| entry.seq < seq)
}

/// Where the entry of this number stands, by halves.
pub(crate) fn index_of(entries: &[Entry], seq: u64) -> usize
    requires order { IsAscending entries.now }
    requires there { is_some (entry_at entries.now seq) ≡ true }
    ensures within { result < length entries.now }
    ensures found { (d : Entry) → entry_at entries.now seq ≡ Some (slice_index_or entries.now result d) }
    ensures number { (d : Entry) → (slice_index_or entries.now result d).seq ≡ seq }
{
    count_below(entries, seq)
}

/// The entry of this number, by halves.
pub(crate) fn entry_at(entries: &[Entry], seq: u64) -> Option<&Entry>
    requires { IsAscending entries.now }
    ensures { option_copied result ≡ entry_at entries.now seq }
{
    let index = count_below(entries, seq);
    if index < entries.len() && entries[index].seq == seq {
        Some(&entries[index])
    } else {
        None
    }
}
