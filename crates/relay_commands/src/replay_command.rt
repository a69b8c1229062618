//! `relayd replay`: the replies to a script over a store in memory.
ghost use Rattle.std.specs.Prelude.{◌≤◌};
ghost use Rattle.relay_commands.specs.Replays.{WritesReplies, ReportsReplay};

use command_interface::{CommandFault, end};
use sqlite::Connection;
use std::alloc::Global;
use std::io::{Read, Write};

/// Runs the script on the reader over a store in memory, and writes its replies: 0 done, 2 what was
/// read, 3 every other fault.
pub fn replay<R: Read, O: Write, E: Write>(
    alloc: Global,
    input: &mut R,
    output: &mut O,
    errors: &mut E,
) -> u8
    ensures replays { ReportsReplay (R.remaining input.old) (O.contents output.old) (O.contents output.new)
        (E.contents errors.old) (E.contents errors.new) result }
    ensures status { result ≤ 3 }
{
    end(errors, run_script(alloc, input, output))
}

fn run_script<R: Read, O: Write>(
    alloc: Global,
    input: &mut R,
    output: &mut O,
) -> Result<(), CommandFault>
    ensures { WritesReplies (R.remaining input.old) (O.contents output.old) (O.contents output.new) result }
{
    let conn = Connection::open_in_memory(alloc)?;
    let (_, end) = drill::replay(alloc, input, output, conn, 0);
    Ok(end?)
}
