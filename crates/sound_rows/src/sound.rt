//! The check of all rows.
ghost use Rattle.std.specs.Prelude.{◌≡◌, false, IfOk};
ghost use Rattle.relay_types.specs.Rows.{Rows};
ghost use Rattle.relay_types.specs.Sound.{AreKeyed, are_sound};
ghost use Rattle.sound_rows.specs.RowNumbers.{AreAscending, AreNumbersOf, AreValues, kept};

use crate::numbers::RowNumbers;
use crate::turns::are_in_turn;
use std::alloc::{AllocError, Global};

impl RowNumbers {
    /// Whether rows with these numbers are such as a legal history has, if the values in them keep their rules and the
    /// tables keep their keys. It takes memory for what came of each event. With so few endpoints its time is in
    /// proportion to `n log n`. An error means that an allocation failed.
    pub fn are_sound(&self, alloc: Global) -> Result<bool, AllocError>
        ensures order { IfOk result (λ answer. ¬ AreAscending (kept self.now) → answer ≡ false) }
        ensures sound { IfOk result (λ answer. (rows : Rows)
            → AreNumbersOf self.now rows → AreKeyed rows → AreValues rows → answer ≡ are_sound rows) }
    {
        if !self.are_below() {
            return Ok(false);
        }
        if !self.are_ascending() {
            return Ok(false);
        }
        if !self.have_places() {
            return Ok(false);
        }
        are_in_turn(&self.attempts, alloc)
    }
}
