//! How the desk takes an event for the subscribers of a topic.
ghost use Rattle.std.specs.Prelude.{◌≡◌, ◌≢◌, ◌<◌, ◌≤◌, ◌+◌, length, map, false, count_by, nat_lt, All, AllPairs};
ghost use Rattle.std.specs.Prelude.{IsTrue};
ghost use Rattle.std.specs.Prelude.{IfOk, IfErr, OnOk, OnErr};
ghost use Rattle.std.specs.List.{list_all, list_any};
ghost use Rattle.std.specs.Result.{result_map_both};
ghost use Rattle.relay_types.specs.declared.limits.TheConstants.{MAX_RECORDS, MAX_STEP_RECORDS};
ghost use Rattle.relay_types.specs.Deliveries.{deliveries};
ghost use Rattle.relay_types.specs.Legal.{is_within_limits};
ghost use Rattle.relay_types.specs.Steps.{accepts};
ghost use Rattle.endpoint_book.specs.Topics.{is_on};
ghost use Rattle.group_commit.specs.declared.limits.TheConstants.{MAX_WAITING_REQUESTS};
ghost use Rattle.group_commit.specs.Steps.{is_request, requests_in};
ghost use Rattle.group_commit.specs.Waits.{batch_out, record_count, with_step};
ghost use Rattle.desk.specs.Faults.{may_refuse_publish};
ghost use Rattle.desk.specs.World.{all_records};
ghost use Rattle.desk.specs.Moves.{lacking, pending_among, publish, publish_faults, new_publish_faults};
ghost use Rattle.desk.specs.declared.limits.TheConstants.{MAX_PENDING_ALL};
ghost use Rattle.desk.specs.Desks.{IsMove, Checks, KeepsOut, OverWorlds, has_full_backlog_in, is_against_in};
ghost use Rattle.desk.specs.Desks.{HasMorePlaces, HasPlaceFor, is_full_in, is_lacking_in, lacking_in, lacks_in};
ghost use Rattle.desk.specs.Desks.{names_in};
ghost use Rattle.desk.specs.Desks.{subscribed_in, ticket_by, with_publish};

use crate::desk::Desk;
use crate::limits::{MAX_PENDING, MAX_PENDING_ALL};
use crate::refusal::{Fault, Refusal, check, or_out_of_memory};
use crate::ticket::Ticket;
use claim_queue::ClaimQueue;
use delivery_book::DeliveryBook;
use group_commit::Waiting;
use relay_types::{Body, MAX_RECORDS, MAX_STEP_RECORDS, Moment, MsgId, Name, Step};
use std::alloc::AllocError;
use std::sync::ledger::Ledger;

impl<L: Ledger> Desk<L> {
    /// Takes an event for the subscribers of a topic: those that don't know the id get it, in one step. There is one
    /// ticket for each subscriber, in the order of their Puts. A refusal changes nothing; tickets of known events can
    /// lack memory too.
    pub fn publish(
        &mut self,
        now: Moment,
        topic: Name,
        id: MsgId,
        body: Body,
    ) -> Result<Vec<Ticket>, Refusal>
        ensures moves { IsMove self.old (λ w. publish w now topic id body)
            (result_map_both (λ tickets. tickets.items) (λ why. why) result) self.new }
        ensures names { IfErr result (λ why. IsTrue (may_refuse_publish why.fault)) }
        ensures mark { self.new.waiting.mark ≡ self.old.waiting.mark }
        ensures out { KeepsOut self.old self.new }
        ensures err { OnErr result (self.new ≡ self.old) }
    {
        self.check_publish(topic, &id, &body)?;
        let at = self.moment(now);
        let lacking = self.count_lacking(topic, &id);
        if lacking == 0 {
            let tickets = or_out_of_memory(8, self.tickets(topic, id))?;
            self.clock = at;
            return Ok(tickets);
        }
        self.check_new_publish(topic, &id, lacking)?;
        or_out_of_memory(8, self.stage_publish(at, topic, id, &body))
    }

    fn check_publish(&self, topic: Name, id: &MsgId, body: &Body) -> Result<(), Refusal>
        ensures faults { Checks self.now (λ w. publish_faults w topic id.now body.now) result }
        ensures names { IfErr result (λ why. IsTrue (may_refuse_publish why.fault)) }
    {
        check(&[
            (self.halted, 1, Fault::Halted),
            (!self.has_subscriber(topic), 2, Fault::UnknownTopic),
            (self.has_conflict(topic, id, body), 3, Fault::Conflict),
        ])
    }

    fn has_subscriber(&self, topic: Name) -> bool
        ensures { result ≡ list_any (is_on self.now.endpoints.topics topic) (names_in self.now.endpoints) }
    {
        self.endpoints
            .names()
            .iter()
            .any(|name| self.endpoints.is_subscribed(topic, *name))
    }

    // Whether the endpoint is a subscriber that knows other bytes by this id.
    fn is_against(&self, topic: Name, name: Name, id: &MsgId, body: &Body) -> bool
        ensures { result ≡ is_against_in self.now topic id.now body.now name }
    {
        self.endpoints.is_subscribed(topic, name)
            && self.is_conflict(self.deliveries.find(name, id), body)
    }

    // Whether a subscriber knows other bytes by this id.
    fn has_conflict(&self, topic: Name, id: &MsgId, body: &Body) -> bool
        ensures { result ≡ list_any (is_against_in self.now topic id.now body.now) (names_in self.now.endpoints) }
    {
        self.endpoints
            .names()
            .iter()
            .any(|name| self.is_against(topic, *name, id, body))
    }

    // Whether the endpoint is a subscriber that knows no event by this id.
    fn is_lacking(&self, topic: Name, name: Name, id: &MsgId) -> bool
        ensures { result ≡ is_lacking_in self.now topic id.now name }
    {
        self.endpoints.is_subscribed(topic, name) && self.deliveries.find(name, id).is_none()
    }

    // How many subscribers don't know the id.
    fn count_lacking(&self, topic: Name, id: &MsgId) -> usize
        ensures { result ≡ count_by (is_lacking_in self.now topic id.now) (names_in self.now.endpoints) }
    {
        self.endpoints
            .names()
            .iter()
            .filter(|name| self.is_lacking(topic, **name, id))
            .count()
    }

    // The subscribers that don't know the id.
    fn lacking(&self, topic: Name, id: &MsgId) -> Result<Vec<Name>, AllocError>
        ensures value { IfOk result (λ names. names.items ≡ lacking_in self.now topic id.now) }
        ensures apart { AllPairs (λ a b. a ≢ b) (names_in self.now.endpoints) }
    {
        self.endpoints
            .names()
            .iter()
            .copied()
            .filter(|name| self.is_lacking(topic, *name, id))
            .collect(*self.limiters.allocator())
    }

    // Refuses an event that so many subscribers don't know.
    fn check_new_publish(&self, topic: Name, id: &MsgId, events: usize) -> Result<(), Refusal>
        requires { events ≡ length (lacking_in self.now topic id.now) }
        ensures faults { Checks self.now (λ w. new_publish_faults w (lacking w topic id.now)) result }
        ensures names { IfErr result (λ why. IsTrue (may_refuse_publish why.fault)) }
        ensures few { OnOk result (list_any (is_full_in self.now topic id.now) (names_in self.now.endpoints) ≡ false) }
        ensures most { OnOk result (events ≤ MAX_STEP_RECORDS) }
        ensures place { OnOk result (requests_in self.now.waiting.waiting + events ≤ MAX_WAITING_REQUESTS) }
        ensures room { OnOk result (record_count self.now.waiting + length self.now.live + events ≤ MAX_RECORDS) }
    {
        check(&[
            (self.has_full_backlog(topic, id), 4, Fault::EndpointBacklog),
            (self.has_backlog(events), 5, Fault::Backlog),
            (self.lacks_places(events), 6, Fault::WaitingFull),
            (self.lacks_seqs(events), 7, Fault::SeqExhausted),
        ])
    }

    // Whether the endpoint is a subscriber that doesn't know the id, and too many of its events are pending.
    fn is_full(&self, topic: Name, name: Name, id: &MsgId) -> bool
        ensures { result ≡ is_full_in self.now topic id.now name }
    {
        self.is_lacking(topic, name, id) && self.deliveries.pending(name) >= MAX_PENDING
    }

    // Whether too many events are pending at a subscriber that doesn't know the id.
    fn has_full_backlog(&self, topic: Name, id: &MsgId) -> bool
        ensures { result ≡ list_any (is_full_in self.now topic id.now) (names_in self.now.endpoints) }
    {
        self.endpoints
            .names()
            .iter()
            .any(|name| self.is_full(topic, *name, id))
    }

    // Whether more events than may be pending would be, with so many new ones.
    fn has_backlog(&self, events: usize) -> bool
        ensures { OverWorlds self.now (λ w. result
            ≡ nat_lt MAX_PENDING_ALL (pending_among (all_records w) (deliveries (all_records w)) + events)) }
    {
        self.deliveries.pending_all().saturating_add(events as u64) > MAX_PENDING_ALL
    }

    // Whether so many new events can't wait in one step, which takes a place for each.
    fn lacks_places(&self, events: usize) -> bool
        ensures few { result ≡ false → events ≤ MAX_STEP_RECORDS }
        ensures place { result ≡ false → requests_in self.now.waiting.waiting + events ≤ MAX_WAITING_REQUESTS }
        ensures full { events ≤ MAX_STEP_RECORDS
            → result ≡ nat_lt MAX_WAITING_REQUESTS (requests_in self.now.waiting.waiting + events) }
    {
        events > MAX_STEP_RECORDS || events > self.waiting.free_requests()
    }

    // Whether so many new events need more numbers than there are, where each permit that is out needs one.
    fn lacks_seqs(&self, events: usize) -> bool
        ensures { result ≡ nat_lt MAX_RECORDS (record_count self.now.waiting + length self.now.live + events) }
    {
        let taken = self.waiting.records() + self.pool.live() as u64;
        taken.saturating_add(events as u64) > MAX_RECORDS
    }

    // The ticket of the event that the endpoint knows by this id. If it knows none, the number is 0.
    fn ticket(&self, name: Name, id: MsgId) -> Ticket
        ensures { result ≡ ticket_by self.now.deliveries id name }
    {
        let seq = self.deliveries.find(name, &id).unwrap_or(0);
        Ticket { seq, name, id }
    }

    // A ticket for each subscriber, in the order of their Puts. If it doesn't know the id, the number is 0.
    fn tickets(&self, topic: Name, id: MsgId) -> Result<Vec<Ticket>, AllocError>
        ensures { IfOk result (λ tickets. tickets.items
            ≡ map (ticket_by self.now.deliveries id) (subscribed_in self.now.endpoints topic)) }
    {
        self.endpoints
            .names()
            .iter()
            .copied()
            .filter(|name| self.endpoints.is_subscribed(topic, *name))
            .map(|name| self.ticket(name, id))
            .collect(*self.limiters.allocator())
    }

    // Gives each ticket the number by which its event is known now.
    fn number(&self, tickets: &mut [Ticket])
        ensures { tickets.new ≡ map (λ t. ticket_by self.now.deliveries t.id t.name) tickets.old }
    {
        for ticket in tickets.iter_mut() {
            *ticket = self.ticket(ticket.name, ticket.id);
        }
    }

    // Stages the event at those that don't know the id. What can fail for memory comes first.
    fn stage_publish(
        &mut self,
        at: Moment,
        topic: Name,
        id: MsgId,
        body: &Body,
    ) -> Result<Vec<Ticket>, AllocError>
        requires some { 0 < length (lacking_in self.old topic id) }
        requires most { length (lacking_in self.old topic id) ≤ MAX_STEP_RECORDS }
        requires few { list_any (is_full_in self.old topic id) (names_in self.old.endpoints) ≡ false }
        requires place { requests_in self.old.waiting.waiting + length (lacking_in self.old topic id)
            ≤ MAX_WAITING_REQUESTS }
        requires room { record_count self.old.waiting + length self.old.live + length (lacking_in self.old topic id)
            ≤ MAX_RECORDS }
        ensures tickets { IfOk result (λ tickets. tickets.items
            ≡ map (ticket_by self.new.deliveries id) (subscribed_in self.old.endpoints topic)) }
        ensures staged { OnOk result (self.new ≡ with_publish self.old (lacking_in self.old topic id) id body.now at) }
        ensures out { batch_out self.new.waiting ≡ batch_out self.old.waiting }
        ensures limits { OnOk result
            (IsTrue (list_all is_within_limits (accepts (lacking_in self.old topic id) id body.now at))) }
        ensures apart { OnOk result (AllPairs (λ a b. a ≢ b) (lacking_in self.old topic id)) }
        ensures err { OnErr result (self.new ≡ self.old) }
    {
        let mut tickets = self.tickets(topic, id)?;
        let names = self.lacking(topic, &id)?;
        self.stage_accepts(names.as_slice(), id, body, at)?;
        self.number(tickets.as_mut_slice());
        Ok(tickets)
    }

    // The events at these endpoints, which don't know the id, wait in one step.
    fn stage_accepts(
        &mut self,
        names: &[Name],
        id: MsgId,
        body: &Body,
        at: Moment,
    ) -> Result<(), AllocError>
        requires apart { AllPairs (λ a b. a ≢ b) names.now }
        requires unknown { All (λ name. IsTrue (lacks_in self.old.deliveries id name)) names.now }
        requires some { 0 < length names.now }
        requires most { length names.now ≤ MAX_STEP_RECORDS }
        requires few { list_any (has_full_backlog_in self.old.deliveries) names.now ≡ false }
        requires place { requests_in self.old.waiting.waiting + length names.now ≤ MAX_WAITING_REQUESTS }
        requires room { record_count self.old.waiting + length self.old.live + length names.now ≤ MAX_RECORDS }
        ensures staged { OnOk result (self.new ≡ with_publish self.old names.now id body.now at) }
        ensures out { batch_out self.new.waiting ≡ batch_out self.old.waiting }
        ensures limits { OnOk result (IsTrue (list_all is_within_limits (accepts names.now id body.now at))) }
        ensures err { OnErr result (self.new ≡ self.old) }
    {
        let seq = self.waiting.records();
        let step = Step::event(*self.limiters.allocator(), names, id, body, at)?;
        reserve_each(&mut self.queue, &self.deliveries, names)?;
        self.deliveries.stage_accepts(seq, names, id, body, at)?;
        self.clock = at;
        push_event(&mut self.waiting, step);
        Ok(())
    }
}

// Makes a place for one more event of each of these endpoints.
fn reserve_each(
    queue: &mut ClaimQueue,
    deliveries: &DeliveryBook,
    names: &[Name],
) -> Result<(), AllocError>
    requires few { list_any (has_full_backlog_in deliveries.now) names.now ≡ false }
    ensures more { HasMorePlaces queue.old queue.new }
    ensures each { OnOk result (All (HasPlaceFor queue.new deliveries.now) names.now) }
{
    for name in names {
        let pending = deliveries.pending(*name) as usize;
        queue.reserve(*name, pending + 1)?;
    }
    Ok(())
}

// An event waits. There is a place for each of its records.
fn push_event(waiting: &mut Waiting, step: Step)
    requires kind { IsTrue (is_request step) }
    requires place { requests_in waiting.old.waiting + length step ≤ MAX_WAITING_REQUESTS }
    requires room { record_count waiting.old + length step ≤ MAX_RECORDS }
    ensures staged { waiting.new ≡ with_step waiting.old step }
    ensures out { batch_out waiting.new ≡ batch_out waiting.old }
{
    let Ok(()) = waiting.stage_request(step) else {
        unreachable!()
    };
}
