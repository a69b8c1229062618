//! Runs of a desk over a store that is to have no table.
ghost use Rattle.std.specs.Prelude.{◌≡◌};
ghost use Rattle.permits.specs.declared.pool.TheConstants.{PARTS};

use crate::batches::{MARK, commit_waiting, created, give};
use crate::failed::Failed;
use crate::submitting::{Plan, put_each, submit_all};
use crate::times::{Times, add, print_lines, since};
use desk::{Command, Desk};
use permits::PARTS;
use relay_types::Moment;
use spool::Vault;
use sqlite::{Alter, Connection};
use std::marker::Brand;
use std::sync::ledger::{Blank, Ledger};
use std::time::Instant;

/// When the first events end, and when those of the second half of a purge do.
const EARLY: u64 = 1000;

const LATE: u64 = 2000;

/// What is done at the desk.
#[derive(Clone, Copy)]
pub(crate) enum Work {
    /// Events are submitted and posted.
    Submit(Plan),
    /// Twice as many are, the second half later, and the first half is purged.
    Purge(Plan),
}

/// Does the work, and prints how many microseconds each part took: of submissions after how many records are settled,
/// of a purge after how many delivered events it leaves.
pub(crate) fn print_work<S: Alter + Drop>(
    rt: &HostRuntime,
    began: Instant,
    conn: Connection<S>,
    work: Work,
) -> Result<(), Failed> {
    let mut times = Times::ZERO;
    let count = work_over(rt, began, conn, work, &mut times)?;
    match work {
        Work::Submit(_) => print_submissions(rt, count, &times),
        Work::Purge(_) => print_purge(rt, count, &times),
    }
}

fn print_submissions(rt: &HostRuntime, settled: u64, times: &Times) -> Result<(), Failed> {
    print_lines(
        rt,
        &[
            ("settled", u128::from(settled)),
            ("staging", times.staging.as_micros()),
            ("submissions sealing", times.submissions.sealing.as_micros()),
            (
                "submissions committing",
                times.submissions.committing.as_micros(),
            ),
            ("claiming", times.claiming.as_micros()),
            ("first claims", times.first_claims.as_micros()),
            ("spending", times.spending.as_micros()),
            ("outcomes sealing", times.outcomes.sealing.as_micros()),
            ("outcomes committing", times.outcomes.committing.as_micros()),
        ],
    )
}

fn print_purge(rt: &HostRuntime, left: u64, times: &Times) -> Result<(), Failed> {
    print_lines(
        rt,
        &[
            ("left", u128::from(left)),
            ("purge staging", times.staging.as_micros()),
            ("purge sealing", times.outcomes.sealing.as_micros()),
            ("purge committing", times.outcomes.committing.as_micros()),
        ],
    )
}

fn work_over<S: Alter + Drop>(
    rt: &HostRuntime,
    began: Instant,
    conn: Connection<S>,
    work: Work,
    times: &mut Times,
) -> Result<u64, Failed> {
    let mut vault = created(conn)?;
    work_with::<Brand, S>(rt, began, Blank::new(PARTS), &mut vault, work, times)
}

fn work_with<L: Ledger, S: Alter>(
    rt: &HostRuntime,
    began: Instant,
    blank: Blank,
    vault: &mut Vault<S>,
    work: Work,
    times: &mut Times,
) -> Result<u64, Failed>
    requires name { blank.name ≡ L.name }
    requires parts { blank.parts ≡ L.parts }
    requires enough { blank.parts ≡ PARTS }
{
    let mut desk = Desk::<L>::new(rt.alloc(), blank, MARK)?;
    work_at(rt, began, &mut desk, vault, work, times)
}

/// How many records are settled, or how many delivered events are left.
fn work_at<L: Ledger, S: Alter>(
    rt: &HostRuntime,
    began: Instant,
    desk: &mut Desk<L>,
    vault: &mut Vault<S>,
    work: Work,
    times: &mut Times,
) -> Result<u64, Failed> {
    match work {
        Work::Submit(plan) => submit(rt, began, desk, vault, plan, times),
        Work::Purge(plan) => purge(rt, began, desk, vault, plan, times),
    }
}

/// Puts the endpoints, and submits and posts the events.
fn submit<L: Ledger, S: Alter>(
    rt: &HostRuntime,
    began: Instant,
    desk: &mut Desk<L>,
    vault: &mut Vault<S>,
    plan: Plan,
    times: &mut Times,
) -> Result<u64, Failed> {
    put_each(rt.alloc(), desk, plan.endpoints)?;
    commit_waiting(rt, began, desk, vault, &mut Times::ZERO.submissions)?;
    submit_all(rt, began, desk, vault, plan, (0, Moment::of(EARLY)?), times)?;
    Ok(desk.settled_records())
}

/// Does that twice, and removes the events that ended at the first moment.
fn purge<L: Ledger, S: Alter>(
    rt: &HostRuntime,
    began: Instant,
    desk: &mut Desk<L>,
    vault: &mut Vault<S>,
    plan: Plan,
    times: &mut Times,
) -> Result<u64, Failed> {
    submit(rt, began, desk, vault, plan, &mut Times::ZERO)?;
    let before = Moment::of(LATE)?;
    submit_all(
        rt,
        began,
        desk,
        vault,
        plan,
        (plan.events, before),
        &mut Times::ZERO,
    )?;
    let from = since(rt, began);
    give(desk, Command::Purge { before })?;
    add(&mut times.staging, from, since(rt, began));
    commit_waiting(rt, began, desk, vault, &mut times.outcomes)?;
    Ok(desk.totals().delivered)
}
