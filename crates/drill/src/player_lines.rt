//! The lines of a script, as the player takes them.
ghost use Rattle.std.specs.Prelude.{◌≡◌, ◌≢◌, false, Err, IfOk};
ghost use Rattle.script_lines.specs.declared.call.Line.TheVariants as as_line;
ghost use Rattle.recovery.specs.Left.{IsCleanAt};
ghost use Rattle.drill.specs.Replays.{IsConnOf, IsStateClean, AnswersLine};
ghost use Rattle.drill.specs.declared.player.State.TheVariants.{Open};

use crate::player::{Player, State};
use crate::runner::Runner;
use script_lines::{Call, Reply};
use sqlite::{Alter, Connection};
use std::alloc::Global;
use std::mem;
use std::sync::ledger::Ledger;
use text_lines::LineFault;

impl<L: Ledger, S: Alter> Player<L, S> {
    pub(crate) fn of(runner: Runner<L, S>) -> Player<L, S>
        ensures { result.state ≡ Open runner }
    {
        Player {
            state: State::Open(runner),
        }
    }

    // Makes one call.
    pub(crate) fn call(&mut self, alloc: Global, event: Call) -> Result<Reply, LineFault>
        ensures takes { IsStateClean S.Store self.new.state
            → IfOk result (λ reply. AnswersLine S.Store self.old.state (as_line.Call event) reply self.new.state) }
        ensures fault { result ≢ Err LineFault.Bad }
        ensures clean { IsStateClean S.Store self.new.state → IsStateClean S.Store self.old.state }
    {
        match &mut self.state {
            State::Open(runner) => Ok(runner.call(alloc, event)?),
            State::Shut(_) | State::Between => Err(LineFault::Lost),
        }
    }

    // Closes the desk with all that is out, and opens the store again.
    pub(crate) fn stop(&mut self, alloc: Global) -> Result<Reply, LineFault>
        ensures takes { IsStateClean S.Store self.new.state
            → IfOk result (λ reply. AnswersLine S.Store self.old.state as_line.Stop reply self.new.state) }
        ensures fault { result ≢ Err LineFault.Bad }
        ensures clean { IsStateClean S.Store self.new.state → IsStateClean S.Store self.old.state }
    {
        let (state, told) = match mem::replace(&mut self.state, State::Between) {
            State::Open(runner) => match runner.reopen(alloc) {
                Ok((runner, reply)) => (State::Open(runner), Ok(reply)),
                Err((conn, fault)) => (State::Shut(conn), Err(fault)),
            },
            other => (other, Err(LineFault::Lost)),
        };
        // An assignment would drop the old state, and a runner can't be dropped.
        match mem::replace(&mut self.state, state) {
            State::Between => told,
            _other => unreachable!(),
        }
    }

    // The connection of this state.
    pub(crate) fn close(self) -> Connection<S>
        ensures same { IsConnOf S.Store self.state result }
        ensures clean { IsCleanAt S.Store result → IsStateClean S.Store self.state }
        ensures mode { result.in_transaction ≡ false }
    {
        let Player { state } = self;
        match state {
            State::Open(runner) => runner.close().1,
            State::Shut(conn) => conn,
            State::Between => unreachable!(),
        }
    }
}
