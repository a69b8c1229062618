//! A keeper whose file has to be where it was opened.
ghost use Rattle.std.specs.Prelude.{◌≡◌, ◌⊎◌, ◌↔◌, false, Some, IsTrue, IfOk, IfErr, Err};
ghost use Rattle.spool.specs.Commits.{HandsBack, IsDoubt};
ghost use Rattle.spool.specs.declared.faults.Unchanged.{Unchanged};
ghost use Rattle.delivery.specs.Keepers.{AdvancesNext, HistoryAfterCommit};
ghost use Rattle.relay_host.specs.FileGuards.{keeper_of, place_of, refusal_at, last_check_of};

use crate::place::{FileCheck, Place};
use delivery::Keeper;
use spool::{Batch, CommitEnd, Receipt, Unchanged};

/// A keeper that commits while what was opened is at its place. Otherwise it hands the batch back,
/// as out of turn or as out of memory.
#[derive(Drop)]
pub struct FileGuard<K: Keeper + Drop, P: Place + Drop> {
    keeper: K,
    place: P,
    last_check: FileCheck,
}

impl<K: Keeper + Drop, P: Place + Drop> FileGuard<K, P> {
    /// The keeper of what was opened at the place.
    pub fn new(keeper: K, place: P) -> FileGuard<K, P>
        ensures keeper { keeper_of result ≡ keeper }
        ensures place { place_of result ≡ place }
        ensures check { last_check_of result ≡ FileCheck.Stands }
    {
        FileGuard {
            keeper,
            place,
            last_check: FileCheck::Stands,
        }
    }

    /// The keeper, whatever its place is.
    pub fn into_keeper(self) -> K
        ensures { result ≡ keeper_of self }
    {
        self.keeper
    }

    /// What the last look found; before the first one, that the file is there.
    pub fn last_check(&self) -> FileCheck
        ensures { result ≡ last_check_of self.now }
    {
        self.last_check
    }
}

// Why a batch is handed back if a look finds this.
fn refusal_at(check: FileCheck) -> Option<Unchanged>
    ensures { result ≡ refusal_at check }
{
    match check {
        FileCheck::Stands => None,
        FileCheck::Gone | FileCheck::Unseen => Some(Unchanged::OutOfTurn),
        FileCheck::OutOfMemory => Some(Unchanged::OutOfMemory),
    }
}

impl<K: Keeper + Drop, P: Place + Drop> Keeper for FileGuard<K, P> {
    ghost is_clean = { λ k. K.is_clean k.keeper };

    ghost holds = { λ k records. K.holds k.keeper records };

    ghost in_doubt = { λ k records more. K.in_doubt k.keeper records more };

    ghost closed = { λ k. K.closed k.keeper };

    ghost next = { λ k. K.next k.keeper };

    fn commit(&mut self, batch: Batch) -> Result<Receipt, CommitEnd>
        ensures receipt { IfOk result (λ receipt. receipt ≡ batch) }
        ensures handed_back { IfErr result (HandsBack batch) }
        ensures closed { (result ≡ Err (CommitEnd.Unchanged batch Unchanged.Closed)) ↔ IsTrue
            (K.closed (keeper_of self.old)) }
        ensures doubt { IsTrue (K.closed (keeper_of self.new)) ↔ (IsTrue (K.closed (keeper_of self.old))
            ⊎ IsDoubt result) }
        ensures counts { AdvancesNext K.next (keeper_of self.old) (keeper_of self.new) batch result }
        ensures clean { K.is_clean (keeper_of self.new) → K.is_clean (keeper_of self.old) }
        ensures history { K.is_clean (keeper_of self.new)
            → HistoryAfterCommit K.holds K.in_doubt (keeper_of self.old) (keeper_of self.new) batch result }
        ensures looked { K.closed (keeper_of self.old) ≡ false
            → P.finds (place_of self.old) (place_of self.new) (last_check_of self.new) }
        ensures refused { K.closed (keeper_of self.old) ≡ false → (why : Unchanged)
            → refusal_at (last_check_of self.new) ≡ Some why → result ≡ Err (CommitEnd.Unchanged batch why) }
    {
        if self.keeper.is_closed() {
            return self.keeper.commit(batch);
        }
        self.last_check = self.place.look();
        match refusal_at(self.last_check) {
            Some(why) => Err(CommitEnd::Unchanged(batch, why)),
            None => self.keeper.commit(batch),
        }
    }

    fn is_closed(&self) -> bool {
        self.keeper.is_closed()
    }
}
