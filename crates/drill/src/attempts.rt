//! Attempts: which begins, and what came of one.
ghost use Rattle.std.specs.Prelude.{◌≡◌, ◌==◌, position};
ghost use Rattle.script_lines.specs.declared.call.Call.TheVariants as on;
ghost use Rattle.drill.specs.Moves.{answer_to};
ghost use Rattle.drill.specs.Cores.{CoreAnswers, HasRoom, IsCore, TakesRoom};

use crate::calls::Core;
use crate::replies::{permit_reply, refusal_reply, spent_reply};
use permits::{Foreign, Permit};
use relay_types::Moment;
use retry_table::PostResult;
use script_lines::Reply;
use std::sync::ledger::Ledger;

impl<L: Ledger> Core<L> {
    // Holds the permit of the attempt that may begin.
    pub(crate) fn claim(&mut self, now: Moment) -> Reply
        requires { HasRoom self.old 1 1 }
        ensures answers { CoreAnswers self.old (λ s. answer_to s (on.Claim now)) result self.new }
        ensures room { TakesRoom 1 self.old self.new }
    {
        match self.desk.claim(now) {
            Ok(Some(job)) => {
                let reply = permit_reply(&job);
                self.permits.push_reserved(job.into_permit());
                reply
            }
            Ok(None) => Reply::NothingDue,
            Err(refusal) => refusal_reply(refusal),
        }
    }

    // Gives the permit of the delivery back, with what came of its post.
    pub(crate) fn spend(&mut self, delivery: u64, now: Moment, post: PostResult) -> Reply
        requires { IsCore self.old }
        ensures answers { CoreAnswers self.old (λ s. answer_to s (on.Spend delivery now post)) result self.new }
        ensures room { TakesRoom 1 self.old self.new }
    {
        let Some(place) = place_of(&self.permits, delivery) else {
            return Reply::NoPermit;
        };
        let permit = self.permits.remove(place);
        match self.desk.spend(permit, post, now) {
            Ok(spent) => spent_reply(spent),
            Err((_permit, Foreign)) => unreachable!(),
        }
    }
}

// The place of the delivery's permit.
fn place_of<L: Ledger>(permits: &[Permit<L>], delivery: u64) -> Option<usize>
    ensures { result ≡ position (λ row. row.delivery == delivery) permits.now }
{
    permits
        .iter()
        .position(|permit| permit.delivery() == delivery)
}
