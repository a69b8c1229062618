//! How far its holder has seen records settled.
ghost use Rattle.std.specs.Prelude.{◌≡◌, ◌<◌, ◌≤◌, ◌↔◌, max, IfErr, IsOk, OnErr, OnOk};
ghost use Rattle.desk.specs.Desks.{IsCore};

use desk::Desk;
use std::marker::Model;
use std::sync::ledger::Ledger;

/// The desk has fewer settled records than were seen before.
#[derive(Clone, Copy, PartialEq, Eq, Debug)]
pub struct WentBack {
    pub seen: u64,
    pub found: u64,
}

/// The greatest count of settled records that its holder has seen. It never goes down.
#[derive(Drop)]
pub struct Pass {
    seen: u64,
}

impl Model for Pass {
    ghost use Rattle.std.specs.Prelude.{ℕ};

    ghost Value = { ℕ };

    ghost view = { λ p. p.seen };
}

impl Pass {
    /// Nothing was seen yet.
    pub fn new() -> Pass
        ensures { result ≡ 0 }
    {
        Pass { seen: 0 }
    }

    /// How many settled records were seen.
    pub fn seen(&self) -> u64
        ensures { result ≡ self.now }
    {
        self.seen
    }

    /// Sees how many records are settled at the desk, or says that they are fewer than before.
    pub fn look<L: Ledger>(&mut self, desk: &Desk<L>) -> Result<(), WentBack>
        ensures back { IsOk result ↔ (self.old ≤ desk.now.waiting.settled) }
        ensures seen { OnOk result (self.new ≡ desk.now.waiting.settled) }
        ensures told { IfErr result (λ told. (told.seen ≡ self.old) × (told.found ≡ desk.now.waiting.settled)) }
        ensures same { OnErr result (self.new ≡ self.old) }
        ensures core { IsCore desk.now }
    {
        let found = desk.settled_records();
        if found < self.seen {
            return Err(WentBack {
                seen: self.seen,
                found,
            });
        }
        self.seen = found;
        Ok(())
    }
}
