//! Steps in the order in which they came, with places for requests and for outcomes.
ghost use Rattle.std.specs.Prelude.{◌≡◌, ◌≤◌, ◌<◌, ◌+◌, [], ◌∷◌, ◌++◌, true, false, length, take, drop, slice_get};
ghost use Rattle.std.specs.Prelude.{option_map, ◌↔◌, IsTrue, IfOk};
ghost use Rattle.relay_types.specs.Records.{records_of};
ghost use Rattle.relay_types.specs.declared.limits.TheConstants.{MAX_STEP_RECORDS};
ghost use Rattle.group_commit.specs.Steps.{is_request, is_outcome, is_outcome_record, requests_in, outcomes_in};
ghost use Rattle.group_commit.specs.Steps.{fitting};

use crate::limits::{MAX_WAITING_OUTCOMES, MAX_WAITING_REQUESTS};
use relay_types::{Record, Step};
use std::alloc::{AllocError, Global};
use std::collections::VecDeque;
use std::marker::Model;

// It counts the records of requests and the outcomes among its steps.
#[derive(Drop)]
pub(crate) struct Queue {
    steps: VecDeque<Step>,
    requests: usize,
    outcomes: usize,
}

impl Model for Queue {
    ghost use Rattle.std.specs.VecDeque.{deque_len, deque_capacity};
    ghost use Rattle.relay_types.specs.Records.{History};
    ghost use Rattle.group_commit.specs.Steps.{IsQueue};

    ghost Value = { History };

    ghost view = { λ q. q.steps.items };

    ghost invariant = { λ q. IsQueue q.requests q.outcomes (deque_len q.steps) (deque_capacity q.steps) q.steps.items };
}

impl Queue {
    // All places, and no step.
    pub(crate) fn new(alloc: Global) -> Result<Queue, AllocError>
        ensures { IfOk result (λ queue. queue ≡ []) }
    {
        let places = MAX_WAITING_REQUESTS + MAX_WAITING_OUTCOMES;
        let steps = VecDeque::with_capacity(alloc, places)?;
        Ok(Queue {
            steps,
            requests: 0,
            outcomes: 0,
        })
    }

    pub(crate) fn len(&self) -> usize
        ensures { result ≡ length self.now }
    {
        self.steps.len()
    }

    // How many records of requests.
    #[tactic(auto, using(crate::proofs::StepLaws::records_count))]
    pub(crate) fn requests(&self) -> usize
        ensures count { result ≡ requests_in self.now }
        ensures most { result ≤ MAX_WAITING_REQUESTS }
        ensures others { length (records_of self.now) ≤ result + MAX_WAITING_OUTCOMES }
    {
        self.requests
    }

    // How many outcomes.
    #[tactic(auto, using(crate::proofs::StepLaws::records_count))]
    pub(crate) fn outcomes(&self) -> usize
        ensures count { result ≡ outcomes_in self.now }
        ensures most { result ≤ MAX_WAITING_OUTCOMES }
        ensures others { length (records_of self.now) ≤ result + MAX_WAITING_REQUESTS }
    {
        self.outcomes
    }

    pub(crate) fn get(&self, place: usize) -> Option<&Step>
        ensures { option_map (λ step. step.now) result ≡ slice_get self.now place }
    {
        self.steps.get(place)
    }

    // A request, at the end.
    pub(crate) fn push_request(&mut self, step: Step)
        requires kind { IsTrue (is_request step) }
        requires most { length step ≤ MAX_STEP_RECORDS }
        requires place { requests_in self.old + length step ≤ MAX_WAITING_REQUESTS }
        ensures { self.new ≡ self.old ++ step ∷ [] }
    {
        let records = step.records().len();
        self.steps.push_back_reserved(step);
        self.requests += records;
    }

    // An outcome, at the end.
    #[tactic(auto, using(crate::proofs::StepLaws::records_count))]
    pub(crate) fn push_outcome(&mut self, step: Step)
        requires kind { IsTrue (is_outcome step) }
        requires place { outcomes_in self.old < MAX_WAITING_OUTCOMES }
        ensures staged { self.new ≡ self.old ++ step ∷ [] }
        ensures few { length (records_of self.old) < MAX_WAITING_REQUESTS + MAX_WAITING_OUTCOMES }
    {
        self.steps.push_back_reserved(step);
        self.outcomes += 1;
    }

    // How many of the first steps have at most so many records together.
    pub(crate) fn fitting(&self, most: usize) -> usize
        ensures count { result ≡ fitting most self.now }
        ensures some { 0 < length self.now → MAX_STEP_RECORDS ≤ most → 0 < result }
    {
        fitting(&self.steps, most)
    }

    // The first steps for another holder, so many at most. It copies no body.
    pub(crate) fn share_first(&self, alloc: Global, most: usize) -> Result<Vec<Step>, AllocError>
        ensures { IfOk result (λ first. first.items ≡ take most self.now) }
    {
        share_first(alloc, &self.steps, most)
    }

    // Whether these are the first steps.
    pub(crate) fn begins_with(&self, front: &[Step]) -> bool
        ensures { IsTrue result ↔ (front.now ≡ take (length front.now) self.now) }
    {
        begins_with(&self.steps, front)
    }

    // Lets the first steps go.
    pub(crate) fn drop_first(&mut self, count: usize)
        ensures { self.new ≡ drop count self.old }
    {
        for _ in 0..count {
            self.pop();
        }
    }

    // Lets the first step go.
    fn pop(&mut self)
        ensures { self.new ≡ drop 1 self.old }
    {
        let Some(step) = self.steps.pop_front() else {
            return;
        };
        if is_outcome(&step) {
            self.outcomes -= 1;
        } else {
            self.requests -= step.records().len();
        }
    }
}

// Whether the step is an outcome.
pub(crate) fn is_outcome(step: &Step) -> bool
    ensures { result ≡ is_outcome step.now }
{
    let records = step.records();
    records.len() == 1 && is_outcome_record(&records[0])
}

fn is_outcome_record(entry: &Record) -> bool
    ensures { result ≡ is_outcome_record entry.now }
{
    matches!(entry, Record::Outcome { .. })
}

fn fitting(steps: &VecDeque<Step>, most: usize) -> usize
    ensures { result ≡ fitting most steps.now.items }
{
    let mut room = most;
    for place in 0..steps.len() {
        let records = steps[place].records().len();
        if records > room {
            return place;
        }
        room -= records;
    }
    steps.len()
}

fn share_first(alloc: Global, steps: &VecDeque<Step>, most: usize) -> Result<Vec<Step>, AllocError>
    ensures { IfOk result (λ first. first.items ≡ take most steps.now.items) }
{
    let count = most.min(steps.len());
    let mut first = Vec::with_capacity(alloc, count)?;
    for place in 0..count {
        first.push_reserved(steps[place].share()?);
    }
    Ok(first)
}

fn begins_with(steps: &VecDeque<Step>, front: &[Step]) -> bool
    ensures { IsTrue result ↔ (front.now ≡ take (length front.now) steps.now.items) }
{
    if front.len() > steps.len() {
        return false;
    }
    for place in 0..front.len() {
        if !steps[place].is(&front[place]) {
            return false;
        }
    }
    true
}
