//! How the desk chooses what is posted next, and how it learns what came of it.
ghost use Rattle.std.specs.Prelude.{◌≡◌, ◌<◌, ◌≤◌, ◌+◌, ◌∷◌, ◌++◌, [], None, Some, ℕ, length, option_map, position};
ghost use Rattle.std.specs.Prelude.{remove, ◌↔◌, IsErr, IsTrue, IfErr, IfNone, IfOk, IfSome, OnErr};
ghost use Rattle.relay_types.specs.declared.limits.TheConstants.{MAX_RECORDS};
ghost use Rattle.group_commit.specs.Waits.{batch_out, record_count};
ghost use Rattle.relay_types.specs.Legal.{is_status};
ghost use Rattle.delivery_book.specs.Entries.{takes_outcome};
ghost use Rattle.permits.specs.Rows.{next_row, same_row};
ghost use Rattle.desk.specs.Faults.{may_refuse_claim};
ghost use Rattle.desk.specs.Claims.{choice, claim, status_in, status_of};
ghost use Rattle.desk.specs.Desks.{HasOutcome, IsMove, IsPostOf, OverWorlds, Spends, Starts, TakesOutcome, attempt_in};
ghost use Rattle.desk.specs.Desks.{is_exhausted_in, may_start, may_start_at, with_job, with_live};

use crate::desk::Desk;
use crate::job::{Job, Post};
use crate::limiter::{limit_of, sample};
use crate::queue_sync::{dequeue, enqueue, update_room};
use crate::refusal::{Fault, Refusal, check, or_out_of_memory};
use crate::spent::Spent;
use delivery_book::DeliveryBook;
use endpoint_book::EndpointBook;
use group_commit::Waiting;
use permits::{Foreign, Permit, Row};
use relay_types::{Moment, Name, Record, State, Step};
use retry_table::{PostResult, Verdict, judge, verdict_of};
use std::alloc::AllocError;
use std::sync::ledger::Ledger;

impl<L: Ledger> Desk<L> {
    /// The next attempt: at the delivery that is due first, of those that wait for one, whose
    /// endpoint is enabled and has fewer attempts under way than its limit. `None` where there is
    /// none at this moment.
    pub fn claim(&mut self, now: Moment) -> Result<Option<Job<L>>, Refusal>
        ensures moves { IsMove self.old (λ w. claim w now) result self.new }
        ensures names { IfErr result (λ why. IsTrue (may_refuse_claim why.fault)) }
        ensures mark { self.new.waiting.mark ≡ self.old.waiting.mark }
        ensures live { IfOk result (λ given. self.new.live ≡ with_job self.old.live given) }
        ensures out { batch_out self.new.waiting ≡ batch_out self.old.waiting }
        ensures err { OnErr result (self.new ≡ self.old) }
    {
        check(&[(self.halted, 1, Fault::Halted)])?;
        let at = self.moment(now);
        let Some(delivery) = self.next(at) else {
            self.clock = at;
            return Ok(None);
        };
        check(&[(self.are_seqs_spent(), 2, Fault::SeqExhausted)])?;
        let job = or_out_of_memory(3, self.start(at, delivery))?;
        Ok(Some(job))
    }

    // The delivery that is next, where there is a place for the outcome of one more attempt.
    fn next(&self, at: Moment) -> Option<u64>
        ensures choice { OverWorlds self.now (λ w. result ≡ choice w at) }
        ensures ready { IfSome result (λ delivery. IsTrue (may_start self.now delivery)) }
    {
        if self.pool.live() >= self.waiting.free_outcomes() {
            return None;
        }
        match self.queue.next(at.seconds()) {
            Some((_, delivery)) => Some(delivery),
            None => None,
        }
    }

    // The steps that can fail for memory come first.
    fn start(&mut self, at: Moment, delivery: u64) -> Result<Job<L>, AllocError>
        requires ready { IsTrue (may_start self.old delivery) }
        requires room { record_count self.old.waiting + length self.old.live < MAX_RECORDS }
        ensures starts { IfOk result (λ job. Starts self.old at delivery job self.new) }
        ensures live { IfOk result (λ job. self.new.live ≡ self.old.live ++ job.row ∷ []) }
        ensures out { self.new.waiting ≡ self.old.waiting }
        ensures mark { self.new.waiting.mark ≡ self.old.waiting.mark }
        ensures err { OnErr result (self.new ≡ self.old) }
    {
        let post = self.post_of(at, delivery)?;
        let permit = self.permit_for(post.endpoint, delivery);
        self.clock = at;
        Ok(Job { permit, post })
    }

    // What is posted at the delivery's next attempt. It copies no text and no body.
    fn post_of(&self, at: Moment, delivery: u64) -> Result<Post, AllocError>
        requires { IsTrue (may_start self.now delivery) }
        ensures endpoint { IfOk result (λ post. IsTrue (may_start_at self.now post.endpoint delivery)) }
        ensures delivery { IfOk result (λ post. post.delivery ≡ delivery) }
        ensures post { IfOk result (λ post. OverWorlds self.now (λ w. IsPostOf w at delivery post)) }
    {
        let Some(row) = self.deliveries.row(delivery) else {
            unreachable!()
        };
        let Some(body) = self.deliveries.body(delivery) else {
            unreachable!()
        };
        let Some(target) = self.endpoints.target(row.endpoint) else {
            unreachable!()
        };
        let Some(secrets) = self.endpoints.secrets(row.endpoint) else {
            unreachable!()
        };
        Ok(Post {
            endpoint: row.endpoint,
            delivery,
            id: row.id,
            attempt: row.attempts + 1,
            at,
            target: target.share()?,
            secrets,
            body: body.share()?,
        })
    }

    // A permit for the delivery, which is one of the endpoint.
    fn permit_for(&mut self, endpoint: Name, delivery: u64) -> Permit<L>
        requires ready { IsTrue (may_start_at self.old endpoint delivery) }
        requires room { record_count self.old.waiting + length self.old.live < MAX_RECORDS }
        ensures permit { result ≡ next_row endpoint delivery self.old.live }
        ensures live { self.new ≡ with_live self.old (next_row endpoint delivery self.old.live) }
    {
        let limit = limit_of(&self.limiters, endpoint);
        let Ok(permit) = self.pool.acquire(endpoint, delivery, limit) else {
            unreachable!()
        };
        dequeue(&mut self.queue, &self.deliveries, delivery);
        update_room(
            &mut self.queue,
            &self.endpoints,
            &self.limiters,
            &self.pool,
            endpoint,
        );
        permit
    }

    /// Takes the permit of an attempt that is over, with what came of its post. After a halt there
    /// is neither a sample nor an outcome. It takes no memory.
    pub fn spend(
        &mut self,
        permit: Permit<L>,
        post: PostResult,
        now: Moment,
    ) -> Result<Spent, (Permit<L>, Foreign)>
        ensures moves { Spends self.old permit post now result self.new }
        ensures row { IfOk result (λ spent. spent.row ≡ permit) }
        ensures post { IfOk result (λ spent. spent.post ≡ post) }
        ensures recorded { IfOk result (λ spent. status_in spent ≡ status_of self.old.halted post) }
        ensures exhausted { IfOk result
            (λ spent. spent.exhausted ≡ is_exhausted_in self.new.deliveries permit.delivery) }
        ensures back { IfErr result (λ back. back.0 ≡ permit) }
        ensures foreign { IsErr result ↔ (position (same_row permit) self.old.live ≡ None) }
        ensures live { (place : ℕ) → position (same_row permit) self.old.live ≡ Some place
            → self.new.live ≡ remove self.old.live place }
        ensures out { batch_out self.new.waiting ≡ batch_out self.old.waiting }
        ensures mark { self.new.waiting.mark ≡ self.old.waiting.mark }
        ensures err { OnErr result (self.new ≡ self.old) }
    {
        let at = self.moment(now);
        let row = self.pool.give_back(permit)?;
        let (_, status) = judge(&post);
        let staged = if self.halted {
            None
        } else {
            self.clock = at;
            sample(&mut self.limiters, &row, &post);
            stage_status(
                &mut self.waiting,
                &mut self.endpoints,
                &mut self.deliveries,
                &row,
                status,
                at,
            )
        };
        let limit = limit_of(&self.limiters, row.endpoint);
        enqueue(&mut self.queue, &self.deliveries, row.delivery);
        update_room(
            &mut self.queue,
            &self.endpoints,
            &self.limiters,
            &self.pool,
            row.endpoint,
        );
        Ok(Spent {
            row,
            post,
            staged,
            limit,
            in_flight: self.pool.in_flight(row.endpoint),
            exhausted: is_exhausted(&self.deliveries, row.delivery),
        })
    }
}

// The outcome of an attempt waits, where its post has a status.
fn stage_status(
    waiting: &mut Waiting,
    endpoints: &mut EndpointBook,
    deliveries: &mut DeliveryBook,
    row: &Row,
    status: Option<u16>,
    at: Moment,
) -> Option<u64>
    requires status { IfSome status (λ status. IsTrue (is_status status)) }
    requires ready { TakesOutcome waiting.old endpoints.old deliveries.old row.now }
    ensures staged { result ≡ option_map (λ _. record_count waiting.old) status }
    ensures out { batch_out waiting.new ≡ batch_out waiting.old }
    ensures some { IfSome status
        (HasOutcome waiting.old endpoints.old deliveries.old row.now at waiting.new endpoints.new deliveries.new) }
    ensures none { IfNone status ((waiting.new ≡ waiting.old) × (endpoints.new ≡ endpoints.old)
        × (deliveries.new ≡ deliveries.old)) }
{
    match status {
        Some(status) => Some(stage_outcome(waiting, endpoints, deliveries, row, status, at)),
        None => None,
    }
}

// The outcome of an attempt waits. One that says that its endpoint is gone disables it.
fn stage_outcome(
    waiting: &mut Waiting,
    endpoints: &mut EndpointBook,
    deliveries: &mut DeliveryBook,
    row: &Row,
    status: u16,
    at: Moment,
) -> u64
    requires status { IsTrue (is_status status) }
    requires ready { TakesOutcome waiting.old endpoints.old deliveries.old row.now }
    ensures seq { result ≡ record_count waiting.old }
    ensures out { batch_out waiting.new ≡ batch_out waiting.old }
    ensures staged { HasOutcome waiting.old endpoints.old deliveries.old row.now at waiting.new endpoints.new
        deliveries.new status }
{
    let seq = waiting.records();
    let attempt = next_attempt(deliveries, row.delivery);
    deliveries.stage_outcome(seq, row.delivery, status, at);
    waiting.stage_outcome(Step::of(Record::Outcome {
        delivery: row.delivery,
        attempt,
        status,
        at,
    }));
    if let Verdict::Gone = verdict_of(status) {
        endpoints.stage_gone(seq, row.endpoint);
    }
    seq
}

// The number of the delivery's next attempt.
fn next_attempt(deliveries: &DeliveryBook, delivery: u64) -> u64
    requires few { deliveries.now.next_seq ≤ MAX_RECORDS }
    requires free { IsTrue (takes_outcome deliveries.now delivery) }
    ensures { result ≡ attempt_in deliveries.now delivery }
{
    match deliveries.row(delivery) {
        Some(row) => row.attempts + 1,
        None => 1,
    }
}

// Whether the delivery is given up.
fn is_exhausted(deliveries: &DeliveryBook, delivery: u64) -> bool
    ensures { result ≡ is_exhausted_in deliveries.now delivery }
{
    match deliveries.row(delivery) {
        Some(row) => matches!(row.state, State::Exhausted),
        None => false,
    }
}
