//! How a run begins.
ghost use Rattle.std.specs.Prelude.{◌≡◌, [], List, length};
ghost use Rattle.relay_types.specs.declared.record.Record.{Record};
ghost use Rattle.desk.specs.Desks.{StandsFor};
ghost use Rattle.desk.specs.World.{World, settled_records};

use crate::keeper::Keeper;
use crate::logged_keeper::LoggedKeeper;
use crate::shared::Shared;
use desk::Desk;
use run_log::{LogId, NewLog};
use std::sync::ledger::Ledger;

/// Begins a run with two empty logs, of what is committed and of what is staged: the desk, to be shared by threads, and
/// the keeper, to be handed to the committer. The logs go on from what the desk has settled, and their first record has
/// the keeper's next number. It takes no memory.
pub fn begin_run<L: Ledger, I: LogId, K: Keeper + Drop>(
    new_log: NewLog,
    new_staged: NewLog,
    desk: Desk<L>,
    keeper: K,
) -> (Shared<L, I>, LoggedKeeper<I, K>)
    requires table { new_log ≡ I.table }
    requires staged { new_staged ≡ I.staged }
    requires start { I.start ≡ K.next keeper }
    requires base { (base : List Record) → I.is_base base
        → (length base ≡ I.start) × (w : World) × StandsFor desk w × (settled_records w ≡ base) }
    ensures keeper { result.1.keeper ≡ keeper }
    ensures writer { result.1.writer ≡ [] }
{
    let (log, mut writer) = new_log.named::<I>();
    let prefix = writer.prefix(&log);
    (
        Shared::new(log, new_staged, desk, prefix),
        LoggedKeeper::new(keeper, writer),
    )
}
