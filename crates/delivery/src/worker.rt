//! One round of a worker: it claims an attempt, posts it with the lock free, and spends its permit.
ghost use Rattle.std.specs.Prelude.{◌≡◌, ◌≤◌, IfOk};
ghost use Rattle.delivery.specs.Rounds.{IsPostedBy, Reports, request_of};

use crate::clock::Clock;
use crate::pass::{Pass, WentBack};
use crate::shared::Shared;
use desk::{Job, Post, Spent};
use retry_table::PostResult;
use run_log::LogId;
use std::alloc::{AllocError, Global};
use std::sync::Wait;
use std::sync::ledger::Ledger;
use webhook_request::{Outgoing, Poster};

/// How a round ended.
#[derive(Drop)]
pub enum Round {
    /// What a claim gave was posted as this request, with this result, and the permit of the attempt was spent.
    Posted {
        post: Post,
        request: Outgoing,
        result: PostResult,
        spent: Spent,
    },
    /// Nothing is to be posted at this moment.
    Idle,
    /// The desk is halted.
    Halted,
    /// The end was asked for.
    Closing,
    /// Memory was refused. No permit is kept.
    NoMemory,
    /// The desk has fewer settled records than the pass has seen.
    WentBack(WentBack),
}

// What a claim under the lock gave: a job, or how the round ends without one.
pub(crate) enum Claimed<L: Ledger> {
    Job(Job<L>),
    RoundOver(Round),
}

/// Claims the attempt that is due first, posts it with the lock free, and spends its permit by the result. A job whose
/// request lacks memory is spent as unsent.
pub fn worker_round<L: Ledger, I: LogId, P: Poster, C: Clock, R: Wait>(
    rt: &R,
    alloc: Global,
    shared: &Shared<L, I>,
    poster: &P,
    clock: &C,
    pass: &mut Pass,
) -> Round
    ensures posted { IsPostedBy (P.may_answer poster.now) result }
    ensures reports { Reports pass.old pass.new result }
    ensures pass { pass.old ≤ pass.new }
{
    let job = match shared.claim(rt, clock.now(), pass) {
        Claimed::Job(job) => job,
        Claimed::RoundOver(round) => return round,
    };
    let (permit, post) = job.into_parts();
    let Ok(request) = request_of(alloc, &post) else {
        let _spent = shared.spend(rt, permit, &PostResult::Unsent, clock.now());
        return Round::NoMemory;
    };
    let result = poster.post(&request);
    let spent = shared.spend(rt, permit, &result, clock.now());
    Round::Posted {
        post,
        request,
        result,
        spent,
    }
}

/// The request of the attempt. It shares the event's bytes with the post, and fails only if an allocation fails.
pub fn request_of(alloc: Global, post: &Post) -> Result<Outgoing, AllocError>
    ensures { IfOk result (λ outgoing. outgoing ≡ request_of post.now) }
{
    Outgoing::build(
        alloc,
        post.target(),
        &post.secrets(),
        post.id(),
        post.moment(),
        post.body(),
    )
}
