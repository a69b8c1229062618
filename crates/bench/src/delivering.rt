//! Events that are posted: each is claimed and spent with status 200, and the outcomes are committed 256 at a time.
ghost use Rattle.std.specs.Prelude.{◌≡◌, None, position};
ghost use Rattle.permits.specs.Rows.{same_row};

use crate::batches::{BATCH, commit_waiting};
use crate::failed::Failed;
use crate::times::{Times, add, since};
use desk::Desk;
use permits::{Foreign, Permit};
use relay_types::Moment;
use retry_table::{PostResult, Status};
use spool::Vault;
use sqlite::Alter;
use std::sync::ledger::Ledger;
use std::time::Instant;

/// The round trip of each post, in microseconds.
const ROUND_TRIP: u64 = 100_000;

/// Posts as many events, which are pending and due at this moment.
pub(crate) fn deliver<L: Ledger, S: Alter>(
    rt: &HostRuntime,
    began: Instant,
    desk: &mut Desk<L>,
    vault: &mut Vault<S>,
    (count, now): (u32, Moment),
    times: &mut Times,
) -> Result<(), Failed> {
    for batch in 0..count.div_ceil(BATCH) {
        let posts = count.saturating_sub(batch.saturating_mul(BATCH)).min(BATCH);
        post_each(rt, began, desk, (posts, now), times)?;
        if times.first_claims.is_zero() {
            times.first_claims = times.claiming;
        }
        commit_waiting(rt, began, desk, vault, &mut times.outcomes)?;
    }
    Ok(())
}

fn post_each<L: Ledger>(
    rt: &HostRuntime,
    began: Instant,
    desk: &mut Desk<L>,
    (count, now): (u32, Moment),
    times: &mut Times,
) -> Result<(), Failed> {
    for _ in 0..count {
        post(rt, began, desk, now, times)?;
    }
    Ok(())
}

/// Posts the event that is next.
#[tactic(auto, using(desk::proofs::RowLaws::given_out))]
fn post<L: Ledger>(
    rt: &HostRuntime,
    began: Instant,
    desk: &mut Desk<L>,
    now: Moment,
    times: &mut Times,
) -> Result<(), Failed> {
    let outcome = answered()?;
    let from = since(rt, began);
    let Some(job) = desk.claim(now)? else {
        return Err(Failed);
    };
    let claimed = since(rt, began);
    spend(desk, job.into_permit(), outcome, now);
    add(&mut times.claiming, from, claimed);
    add(&mut times.spending, claimed, since(rt, began));
    Ok(())
}

fn spend<L: Ledger>(desk: &mut Desk<L>, permit: Permit<L>, outcome: PostResult, now: Moment)
    requires { position (same_row permit) desk.old.live ≡ None → ⊥ }
{
    match desk.spend(permit, outcome, now) {
        Ok(_) => {}
        Err((_permit, Foreign)) => unreachable!(),
    }
}

fn answered() -> Result<PostResult, Failed> {
    match Status::of(200) {
        Some(status) => Ok(PostResult::Answered {
            status,
            rtt: ROUND_TRIP,
        }),
        None => Err(Failed),
    }
}
