//! Scripts: each line is a call of the desk or a commit of the store.
ghost use Rattle.std.specs.Prelude.{◌≡◌, false, Err, IsTrue};
ghost use Rattle.permits.specs.declared.pool.TheConstants.{PARTS};
ghost use Rattle.sqlite.specs.Held.{state};
ghost use Rattle.spool.specs.Opening.{has_ours};
ghost use Rattle.text_lines.specs.Ends.{IsBetweenLines};
ghost use Rattle.recovery.specs.Left.{IsCleanAt, HasNoTable};
ghost use Rattle.drill.specs.Replays.{Replays, KeepsRun, AnswersText, IsStateClean, IsUnopened};
ghost use Rattle.drill.specs.Restarts.{IsNoLine};

use crate::player::Player;
use crate::runner::start;
use permits::PARTS;
use script_lines::{Line, Reply, read_line};
use sqlite::{Alter, Connection};
use std::alloc::Global;
use std::io::{Read, Write};
use std::marker::Brand;
use std::sync::ledger::{Blank, Ledger};
use text_lines::{Answerer, LineFault, StreamFault, answer_lines};

impl<L: Ledger, S: Alter> Answerer for Player<L, S> {
    type Reply = Reply;

    ghost Answers = { AnswersText S.Store };

    ghost IsNoLine = { IsNoLine };

    ghost IsClean = { λ player. IsStateClean S.Store player.state };

    ghost MayLose = { Unit {0} };

    fn answer(&mut self, alloc: Global, line: &[u8]) -> Result<Reply, LineFault> {
        match read_line(alloc, line)? {
            Line::Call(event) => self.call(alloc, event),
            Line::Stop => self.stop(alloc),
        }
    }
}

/// Runs the script that the reader gives over a store without tables, and writes a reply for each
/// line. A stop closes the desk with all that is out and opens the store again, under the next
/// mark. If that fails, the script ends as `Lost` or out of memory. A store that has one of the
/// relay's tables, or whose connection is in a transaction, is `Lost`, unless an allocation failed
/// first; nothing is written. The connection comes back, outside a transaction if it was outside
/// one. If the script ended between two lines, the connection has the rows that its commits wrote.
pub fn replay<S: Alter, I: Read, O: Write>(
    alloc: Global,
    input: &mut I,
    output: &mut O,
    conn: Connection<S>,
    mark: u64,
) -> (Connection<S>, Result<(), StreamFault>)
    ensures replays { IsCleanAt S.Store result.0 → HasNoTable S.Store conn
        → Replays (I.remaining input.old) (O.contents output.old) (O.contents output.new) result.1 }
    ensures rows { IsCleanAt S.Store result.0 → HasNoTable S.Store conn → IsBetweenLines result.1
        → KeepsRun S.Store result.0 (I.remaining input.old) (O.contents output.old) (O.contents output.new) result.1 }
    ensures clean { IsCleanAt S.Store result.0 → IsCleanAt S.Store conn }
    ensures mode { conn.in_transaction ≡ false → result.0.in_transaction ≡ false }
    ensures busy { IsTrue conn.in_transaction
        → (result ≡ (conn, Err StreamFault.Lost)) × (output.new ≡ output.old) }
    ensures taken { IsTrue (has_ours (state S.Store conn).now.schema)
        → IsUnopened result.1 × (output.new ≡ output.old) }
{
    replay_with::<Brand, S, I, O>(alloc, Blank::new(PARTS), input, output, conn, mark)
}

// The script over a ledger of its own.
fn replay_with<L: Ledger, S: Alter, I: Read, O: Write>(
    alloc: Global,
    blank: Blank,
    input: &mut I,
    output: &mut O,
    conn: Connection<S>,
    mark: u64,
) -> (Connection<S>, Result<(), StreamFault>)
    requires name { blank.name ≡ L.name }
    requires parts { blank.parts ≡ L.parts }
    requires enough { blank.parts ≡ PARTS }
    ensures replays { IsCleanAt S.Store result.0 → HasNoTable S.Store conn
        → Replays (I.remaining input.old) (O.contents output.old) (O.contents output.new) result.1 }
    ensures rows { IsCleanAt S.Store result.0 → HasNoTable S.Store conn → IsBetweenLines result.1
        → KeepsRun S.Store result.0 (I.remaining input.old) (O.contents output.old) (O.contents output.new) result.1 }
    ensures clean { IsCleanAt S.Store result.0 → IsCleanAt S.Store conn }
    ensures mode { conn.in_transaction ≡ false → result.0.in_transaction ≡ false }
    ensures busy { IsTrue conn.in_transaction
        → (result ≡ (conn, Err StreamFault.Lost)) × (output.new ≡ output.old) }
    ensures taken { IsTrue (has_ours (state S.Store conn).now.schema)
        → IsUnopened result.1 × (output.new ≡ output.old) }
{
    match start::<L, S>(alloc, blank, conn, mark) {
        Ok(runner) => {
            let mut player = Player::of(runner);
            let end = answer_lines(alloc, &mut player, input, output);
            (player.close(), end)
        }
        Err((conn, fault)) => (conn, Err(fault)),
    }
}
