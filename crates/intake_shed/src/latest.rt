//! The latest acknowledgement.
ghost use Rattle.std.specs.Prelude.{◌≡◌, ◌≤◌, ◌⊎◌, Some, None, IfSome, IsSomeAnd};

use crate::ack::Ack;
use run_log::LogId;
use std::marker::Model;

/// The acknowledgement with the greatest number of those that were kept, if there is one. Contracts
/// see it as that.
#[derive(Drop)]
pub struct LatestAck<I: LogId> {
    latest: Option<Ack<I>>,
}

impl<I: LogId> Model for LatestAck<I> {
    ghost use Rattle.std.specs.Prelude.{Option};
    ghost use Rattle.intake_shed.specs.Acks.{AckValue};

    ghost Value = { Option AckValue };

    ghost view = { λ l. l.latest };
}

impl<I: LogId> LatestAck<I> {
    /// None was kept yet.
    pub fn new() -> LatestAck<I>
        ensures { result ≡ None }
    {
        LatestAck { latest: None }
    }

    /// Keeps the acknowledgement, unless one with a greater number was kept.
    pub fn keep(&mut self, ack: Ack<I>)
        ensures greatest { IsSomeAnd self.new (λ latest. (ack.seq ≤ latest.seq)
            × IfSome self.old (λ kept. kept.seq ≤ latest.seq)) }
        ensures either { (self.new ≡ Some ack) ⊎ (self.new ≡ self.old) }
    {
        self.latest = Some(later(self.latest.take(), ack));
    }

    /// The acknowledgement that was kept. None is kept from then on.
    pub fn take(&mut self) -> Option<Ack<I>>
        ensures value { result ≡ self.old }
        ensures none { self.new ≡ None }
    {
        self.latest.take()
    }
}

// The one with the greater number.
fn later<I: LogId>(kept: Option<Ack<I>>, ack: Ack<I>) -> Ack<I>
    ensures greatest { (ack.seq ≤ result.seq) × IfSome kept (λ kept. kept.seq ≤ result.seq) }
    ensures either { (result ≡ ack) ⊎ (kept ≡ Some result) }
{
    match kept {
        Some(kept) if ack.seq() <= kept.seq() => kept,
        _ => ack,
    }
}
