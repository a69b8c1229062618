//! The first deliveries of the endpoints that have room, in the order of their keys.
ghost use Rattle.std.specs.Prelude.{◌≡◌, ◌+◌, ◌<◌, ◌≤◌, ◌||◌, ◌&&◌, not, true, false, length, position, vec_len};
ghost use Rattle.std.specs.Prelude.{vec_capacity, IsTrue, IfSome};
ghost use Rattle.std.specs.List.{list_any};
ghost use Rattle.std.specs.List.Sorted.{IsPartitionPoint};
ghost use Rattle.claim_queue.specs.Queues.{same_pair};
ghost use Rattle.claim_queue.specs.Lanes.{AreInOrder, Renews, absent, comes_before, is_the, key_of};

use crate::pairs::{Pair, QueueKey};

// The place of the pair.
fn position_of(firsts: &[Pair], pair: &Pair) -> Option<usize>
    ensures { result ≡ position (same_pair pair.now) firsts.now }
{
    firsts.iter().position(|held| held.is(pair))
}

// Lets the pair go.
fn let_go(firsts: &mut Vec<Pair>, pair: Pair)
    requires held { IsTrue (list_any (same_pair pair) firsts.old.items) }
    requires order { AreInOrder firsts.old.items }
    ensures order { AreInOrder firsts.new.items }
    ensures pairs { (other : Pair) → list_any (same_pair other) firsts.new.items
        ≡ (list_any (same_pair other) firsts.old.items && not (same_pair other pair)) }
    ensures len { vec_len firsts.new + 1 ≡ vec_len firsts.old }
    ensures capacity { vec_capacity firsts.new ≡ vec_capacity firsts.old }
{
    if let Some(place) = position_of(firsts, &pair) {
        firsts.remove(place);
    }
}

// Lets the pair go that was the first of an endpoint.
fn leave(firsts: &mut Vec<Pair>, old: Option<Pair>)
    requires held { IfSome old (λ pair. IsTrue (list_any (same_pair pair) firsts.old.items)) }
    requires order { AreInOrder firsts.old.items }
    ensures order { AreInOrder firsts.new.items }
    ensures pairs { (other : Pair) → list_any (same_pair other) firsts.new.items
        ≡ (list_any (same_pair other) firsts.old.items && not (is_the old other)) }
    ensures len { vec_len firsts.new + 1 ≤ vec_len firsts.old + absent old }
    ensures capacity { vec_capacity firsts.new ≡ vec_capacity firsts.old }
{
    if let Some(pair) = old {
        let_go(firsts, pair);
    }
}

// How many of the pairs come before this key. The search goes by halves.
fn place_of(firsts: &[Pair], key: QueueKey) -> usize
    requires { AreInOrder firsts.now }
    ensures bound { result ≤ length firsts.now }
    ensures point { IsPartitionPoint (λ held. comes_before (key_of held) key ≡ true)
        (λ held. comes_before (key_of held) key ≡ false) firsts.now result }
{
    firsts.partition_point(|held| held.key().comes_before(key))
}

// Holds the pair from now on, at the place of its key.
fn hold(firsts: &mut Vec<Pair>, pair: Pair)
    requires unheld { list_any (same_pair pair) firsts.old.items ≡ false }
    requires place { vec_len firsts.old < vec_capacity firsts.old }
    requires order { AreInOrder firsts.old.items }
    ensures order { AreInOrder firsts.new.items }
    ensures pairs { (other : Pair) → list_any (same_pair other) firsts.new.items
        ≡ (list_any (same_pair other) firsts.old.items || same_pair other pair) }
    ensures len { vec_len firsts.new ≡ vec_len firsts.old + 1 }
    ensures capacity { vec_capacity firsts.new ≡ vec_capacity firsts.old }
{
    let place = place_of(firsts, pair.key());
    let _ = firsts.insert(place, pair);
}

// Holds the pair that is the first of an endpoint.
fn enter(firsts: &mut Vec<Pair>, new: Option<Pair>)
    requires unheld { IfSome new (λ pair. list_any (same_pair pair) firsts.old.items ≡ false) }
    requires place { vec_len firsts.old < vec_capacity firsts.old }
    requires order { AreInOrder firsts.old.items }
    ensures order { AreInOrder firsts.new.items }
    ensures pairs { (other : Pair) → list_any (same_pair other) firsts.new.items
        ≡ (list_any (same_pair other) firsts.old.items || is_the new other) }
    ensures len { vec_len firsts.new + absent new ≤ vec_len firsts.old + 1 }
    ensures capacity { vec_capacity firsts.new ≡ vec_capacity firsts.old }
{
    if let Some(pair) = new {
        hold(firsts, pair);
    }
}

// Whether both are the same pair.
fn is_same(old: &Option<Pair>, new: &Option<Pair>) -> bool
    ensures { IsTrue result → (new.now ≡ old.now) }
{
    match (old, new) {
        (Some(old), Some(new)) => new.is(old),
        _ => false,
    }
}

// Holds the pair that is the first of an endpoint now, in place of the one that was. It takes no memory.
pub(crate) fn renew(firsts: &mut Vec<Pair>, old: Option<Pair>, new: Option<Pair>)
    requires held { IfSome old (λ pair. IsTrue (list_any (same_pair pair) firsts.old.items)) }
    requires unheld { IfSome new (λ pair. list_any (same_pair pair) firsts.old.items ≡ is_the old pair) }
    requires place { vec_len firsts.old + absent old ≤ vec_capacity firsts.old }
    requires order { AreInOrder firsts.old.items }
    ensures order { AreInOrder firsts.new.items }
    ensures pairs { Renews old new firsts.old.items firsts.new.items }
    ensures len { vec_len firsts.new + absent new ≤ vec_len firsts.old + absent old }
    ensures capacity { vec_capacity firsts.new ≡ vec_capacity firsts.old }
{
    if is_same(&old, &new) {
        return;
    }
    leave(firsts, old);
    enter(firsts, new);
}
