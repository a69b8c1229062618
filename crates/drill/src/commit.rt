//! A commit of the batch that is held.
ghost use Rattle.std.specs.Prelude.{◌≡◌};
ghost use Rattle.drill.specs.Cores.{IsOfBatch};
ghost use Rattle.drill.specs.Runners.{CommitsNext, unchanged_reply};
ghost use Rattle.recovery.specs.Left.{IsCleanAt};

use crate::held::Held;
use script_lines::{Fault, Reply};
use spool::{Batch, CommitEnd, Unchanged, Vault};
use sqlite::Alter;

// Commits the batch: returns what is held then, and the reply.
pub(crate) fn commit_batch<S: Alter>(vault: &mut Vault<S>, batch: Batch) -> (Held, Reply)
    ensures mark { vault.new.mark ≡ vault.old.mark }
    ensures held { IsOfBatch batch result.0 }
    ensures commits { IsCleanAt S.Store vault.new.conn
        → CommitsNext S.Store vault.old vault.new batch result.0 result.1 }
    ensures clean { IsCleanAt S.Store vault.new.conn → IsCleanAt S.Store vault.old.conn }
{
    match vault.commit(batch) {
        Ok(receipt) => {
            let to = vault.next();
            (Held::Receipt(receipt), Reply::Committed { to })
        }
        Err(CommitEnd::Unchanged(batch, why)) => (Held::Batch(batch), unchanged_reply(why)),
        Err(CommitEnd::Doubtful(doubt, _)) => (
            Held::Doubt(doubt),
            Reply::Refused {
                number: 5,
                fault: Fault::Store,
            },
        ),
    }
}

fn unchanged_reply(why: Unchanged) -> Reply
    ensures { result ≡ unchanged_reply why }
{
    let (number, fault) = match why {
        Unchanged::Closed => (1, Fault::Closed),
        Unchanged::OutOfTurn => (2, Fault::OutOfTurn),
        Unchanged::Illegal => (3, Fault::Illegal),
        Unchanged::OutOfMemory => (4, Fault::OutOfMemory),
    };
    Reply::Refused { number, fault }
}
