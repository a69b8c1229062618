//! The player of scripts: the runner between two lines, also after stops.
ghost use Rattle.std.specs.Prelude.{IsTrue};
ghost use Rattle.drill.specs.Players.{is_there};

use crate::runner::Runner;
use sqlite::{Alter, Connection};
use std::sync::ledger::Ledger;

/// What answers the lines of a script.
pub(crate) struct Player<L: Ledger, S: Alter> {
    pub(crate) state: State<L, S>,
    ghost there: { IsTrue (is_there state) },
}

/// The state of a script.
pub(crate) enum State<L: Ledger, S: Alter> {
    /// The store is open.
    Open(Runner<L, S>),
    /// The store wasn't opened again.
    Shut(Connection<S>),
    /// A line is being answered.
    Between,
}
