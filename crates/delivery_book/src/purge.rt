//! What a Purge takes, and gives up.
ghost use Rattle.std.specs.Prelude.{◌≡◌, ◌+◌, ◌*◌, ◌<◌, ◌≤◌, ◌^◌, ◌&&◌, ◌⊎◌, true, false, nat_lt, min, [], length, map};
ghost use Rattle.std.specs.Prelude.{filter, vec_capacity};
ghost use Rattle.std.specs.List.{list_any};
ghost use Rattle.std.specs.Option.{option_map_or};
ghost use Rattle.delivery_book.specs.declared.entry.Entry.{Entry};
ghost use Rattle.delivery_book.specs.Entries.{is_done_before, is_kept, is_left, marked};
ghost use Rattle.delivery_book.specs.Fields.{AreFirst, IsNamed, is_not_before};

use crate::entry::Entry;
use relay_types::Moment;

/// Has the Purge of this number take each delivery that has ended by an attempt before this moment; whether it took
/// one.
pub(crate) fn mark_done(entries: &mut [Entry], seq: u64, moment: Moment) -> bool
    requires { seq + 1 < 2 ^ 64 }
    ensures marked { entries.new ≡ map (marked seq moment) entries.old }
    ensures took { result ≡ list_any (λ e. is_kept e && is_done_before moment e.latest) entries.old }
{
    let mut took = false;
    for entry in entries.iter_mut() {
        took |= entry.mark(seq, moment);
    }
    took
}

/// The least number of a Purge that took one of the entries.
pub(crate) fn first_purge(entries: &[Entry]) -> Option<u64>
    ensures first { AreFirst result entries.now }
    ensures named { IsNamed result entries.now }
{
    let mut first = None;
    for entry in entries {
        first = earlier(first, entry.taken_by.get());
    }
    first
}

/// The earlier of two Purges, where `None` is none.
pub(crate) fn earlier(one: Option<u64>, other: Option<u64>) -> Option<u64>
    ensures first { (entry : Entry) → is_not_before one entry ≡ true → is_not_before result entry ≡ true }
    ensures second { (entry : Entry) → is_not_before other entry ≡ true → is_not_before result entry ≡ true }
    ensures one_of { (result ≡ one) ⊎ (result ≡ other) }
{
    match (one, other) {
        (Some(a), Some(b)) => Some(a.min(b)),
        (Some(a), None) => Some(a),
        (None, other) => other,
    }
}

/// Whether there is a number, and it is below this one.
pub(crate) fn is_below(number: Option<u64>, seq: u64) -> bool
    ensures { result ≡ option_map_or (λ n. nat_lt n seq) number false }
{
    match number {
        Some(number) => number < seq,
        None => false,
    }
}

/// Gives up the entries that Purges below this number took. It keeps room for twice what is left, and none if nothing
/// is; more only if a smaller block can't be had.
pub(crate) fn keep_left(entries: &mut Vec<Entry>, seq: u64)
    ensures left { entries.new.items ≡ filter (is_left seq) entries.old.items }
    ensures room { min (2 * length entries.new.items) (vec_capacity entries.old) ≤ vec_capacity entries.new }
    ensures no_more { vec_capacity entries.new ≤ vec_capacity entries.old }
    ensures none { entries.new.items ≡ [] → vec_capacity entries.new ≡ 0 }
{
    entries.retain(|entry| entry.is_left(seq));
    entries.shrink_to(entries.len().saturating_mul(2));
}
