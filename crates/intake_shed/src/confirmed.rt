//! Changes that are confirmed.
ghost use Rattle.std.specs.Prelude.{◌≡◌, ◌<◌, ◌↔◌, IsSome, IsTrue, IfSome};
ghost use Rattle.delivery.specs.Logs.{HasChange};
ghost use Rattle.intake_shed.specs.Acks.{confirmed_of};

use delivery::{Keeper, Locked, LoggedKeeper, StagedChange};
use desk::{CommandTicket, Desk, Told};
use run_log::{Log, LogId, Prefix};
use std::marker::Model;
use std::sync::ledger::Ledger;

/// Shows that a change is settled, and that its record is in the log of the run. `Confirmed::of`
/// alone makes it.
#[derive(Drop)]
pub struct Confirmed<I: LogId> {
    change: StagedChange<I>,
    prefix: Prefix<I>,
}

impl<I: LogId> Model for Confirmed<I> {
    ghost use Rattle.delivery.specs.Logs.{ChangeValue, HasChange};
    ghost use Rattle.intake_shed.specs.Acks.{confirmed_of};

    ghost Value = { ChangeValue };

    ghost view = { λ c. confirmed_of c.change c.prefix };

    ghost invariant = { λ c. HasChange I.is_base (confirmed_of c.change c.prefix) c.prefix };
}

impl<I: LogId> Confirmed<I> {
    /// The confirmation of a change that is settled.
    pub fn of<L: Ledger>(
        log: &Log<I>,
        locked: &mut Locked<L, I>,
        change: StagedChange<I>,
    ) -> Option<Confirmed<I>>
        ensures settled { IsSome result ↔ (change.seq < locked.old.desk.waiting.settled) }
        ensures value { IfSome result (λ confirmed. confirmed ≡ confirmed_of change locked.old.prefix) }
        ensures same { locked.new ≡ locked.old }
    {
        if !is_settled(locked.desk(), &change.ticket()) {
            return None;
        }
        let mut change = change;
        locked.compare(&mut change);
        let prefix = locked.settled_prefix(log);
        Some(Confirmed { change, prefix })
    }

    /// The number of the change's record, which is in the log that the keeper committed.
    pub fn compare<K: Keeper + Drop>(self, log: &Log<I>, logged: &mut LoggedKeeper<I, K>) -> u64
        ensures logged { HasChange I.is_base self logged.old.writer }
        ensures seq { result ≡ self.seq }
        ensures keeper { logged.new.keeper ≡ logged.old.keeper }
        ensures writer { logged.new.writer ≡ logged.old.writer }
    {
        let Confirmed { change, prefix } = self;
        logged.compare(log, prefix);
        change.ticket().seq
    }

    /// The number of the change's record, at which the log has it.
    pub fn seq(&self) -> u64
        ensures value { result ≡ self.now.seq }
        ensures logged { HasChange I.is_base self.now self.now.prefix }
    {
        self.change.ticket().seq
    }
}

// Whether the change is settled.
fn is_settled<L: Ledger>(desk: &Desk<L>, ticket: &CommandTicket) -> bool
    ensures { IsTrue result ↔ (ticket.now.seq < desk.now.waiting.settled) }
{
    desk.told_command(ticket) == Told::Settled
}
