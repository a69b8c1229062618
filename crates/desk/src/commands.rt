//! How the desk changes endpoints, and removes events that are done with.
ghost use Rattle.std.specs.Prelude.{◌≡◌, ◌<◌, ◌+◌, length, false, not, IsTrue, IfOk, IfErr, OnOk, OnErr};
ghost use Rattle.relay_types.specs.declared.limits.TheConstants.{MAX_RECORDS};
ghost use Rattle.relay_types.specs.declared.record.Record.TheVariants as on;
ghost use Rattle.relay_types.specs.Legal.{is_within_limits};
ghost use Rattle.endpoint_book.specs.declared.limits.TheConstants.{MAX_FLAGS};
ghost use Rattle.endpoint_book.specs.Book.{Stages};
ghost use Rattle.endpoint_book.specs.Entries.{is_known};
ghost use Rattle.endpoint_book.specs.Topics.{has_place};
ghost use Rattle.delivery_book.specs.Book.{Takes};
ghost use Rattle.group_commit.specs.declared.limits.TheConstants.{MAX_WAITING_REQUESTS};
ghost use Rattle.group_commit.specs.Steps.{requests_in};
ghost use Rattle.group_commit.specs.Waits.{batch_out, record_count};
ghost use Rattle.desk.specs.Faults.{may_refuse, may_refuse_put, may_refuse_set, may_refuse_subscribe, may_refuse_purge};
ghost use Rattle.desk.specs.Moves.{are_pairs_spent, change, put_faults, set_faults, subscribe_faults, purge_faults};
ghost use Rattle.desk.specs.Desks.{IsMove, Checks, KeepsOut, OverWorlds, with_put, with_secrets, with_enabled};
ghost use Rattle.desk.specs.Desks.{with_subscribed, with_purged};

use crate::command::Command;
use crate::desk::{Desk, push_request};
use crate::limiter::Limiter;
use crate::queue_sync::update_room;
use crate::refusal::{Fault, Refusal, check, or_out_of_memory};
use crate::ticket::CommandTicket;
use relay_types::{MAX_ENDPOINTS, MaxLimit, Moment, Name, Record, Secrets, Target};
use std::alloc::AllocError;
use std::sync::ledger::Ledger;
use vegas::Estimator;

impl<L: Ledger> Desk<L> {
    /// Changes an endpoint, or removes events that are done with.
    pub fn command(&mut self, command: Command) -> Result<CommandTicket, Refusal>
        ensures moves { IsMove self.old (λ w. change w command) result self.new }
        ensures names { IfErr result (λ why. IsTrue (may_refuse command why.fault)) }
        ensures mark { self.new.waiting.mark ≡ self.old.waiting.mark }
        ensures out { KeepsOut self.old self.new }
        ensures err { OnErr result (self.new ≡ self.old) }
    {
        match command {
            Command::PutEndpoint {
                name,
                target,
                max,
                secrets,
            } => self.put_endpoint(name, target, max, secrets),
            Command::SetSecrets { name, secrets } => self.set_secrets(name, secrets),
            Command::SetEnabled { name, flag } => self.set_enabled(name, flag),
            Command::SetSubscribed { topic, name, flag } => self.set_subscribed(topic, name, flag),
            Command::Purge { before } => self.purge(before),
        }
    }

    fn put_endpoint(
        &mut self,
        name: Name,
        target: Target,
        max: MaxLimit,
        secrets: Secrets,
    ) -> Result<CommandTicket, Refusal>
        ensures moves { IsMove self.old (λ w. change w (Command.PutEndpoint name target max secrets)) result self.new }
        ensures names { IfErr result (λ why. IsTrue (may_refuse_put why.fault)) }
        ensures mark { self.new.waiting.mark ≡ self.old.waiting.mark }
        ensures out { KeepsOut self.old self.new }
        ensures err { OnErr result (self.new ≡ self.old) }
    {
        self.check_put(name)?;
        or_out_of_memory(7, self.stage_put(name, target, max, secrets))
    }

    fn set_secrets(&mut self, name: Name, secrets: Secrets) -> Result<CommandTicket, Refusal>
        ensures moves { IsMove self.old (λ w. change w (Command.SetSecrets name secrets)) result self.new }
        ensures names { IfErr result (λ why. IsTrue (may_refuse_set why.fault)) }
        ensures mark { self.new.waiting.mark ≡ self.old.waiting.mark }
        ensures out { KeepsOut self.old self.new }
        ensures err { OnErr result (self.new ≡ self.old) }
    {
        self.check_set(name)?;
        or_out_of_memory(7, self.stage_secrets(name, secrets))
    }

    fn set_enabled(&mut self, name: Name, flag: bool) -> Result<CommandTicket, Refusal>
        ensures moves { IsMove self.old (λ w. change w (Command.SetEnabled name flag)) result self.new }
        ensures names { IfErr result (λ why. IsTrue (may_refuse_set why.fault)) }
        ensures mark { self.new.waiting.mark ≡ self.old.waiting.mark }
        ensures out { KeepsOut self.old self.new }
        ensures err { OnErr result (self.new ≡ self.old) }
    {
        self.check_set(name)?;
        Ok(self.stage_enabled(name, flag))
    }

    fn set_subscribed(
        &mut self,
        topic: Name,
        name: Name,
        flag: bool,
    ) -> Result<CommandTicket, Refusal>
        ensures moves { IsMove self.old (λ w. change w (Command.SetSubscribed topic name flag)) result self.new }
        ensures names { IfErr result (λ why. IsTrue (may_refuse_subscribe why.fault)) }
        ensures mark { self.new.waiting.mark ≡ self.old.waiting.mark }
        ensures out { KeepsOut self.old self.new }
        ensures err { OnErr result (self.new ≡ self.old) }
    {
        self.check_subscribe(topic, name)?;
        or_out_of_memory(7, self.stage_subscribed(topic, name, flag))
    }

    fn purge(&mut self, before: Moment) -> Result<CommandTicket, Refusal>
        ensures moves { IsMove self.old (λ w. change w (Command.Purge before)) result self.new }
        ensures names { IfErr result (λ why. IsTrue (may_refuse_purge why.fault)) }
        ensures mark { self.new.waiting.mark ≡ self.old.waiting.mark }
        ensures out { KeepsOut self.old self.new }
        ensures err { OnErr result (self.new ≡ self.old) }
    {
        self.check_purge()?;
        Ok(self.stage_purge(before))
    }

    fn check_put(&self, name: Name) -> Result<(), Refusal>
        ensures faults { Checks self.now (λ w. put_faults w name) result }
        ensures names { IfErr result (λ why. IsTrue (may_refuse_put why.fault)) }
        ensures place { OnOk result (requests_in self.now.waiting.waiting < MAX_WAITING_REQUESTS) }
        ensures room { OnOk result (record_count self.now.waiting + length self.now.live < MAX_RECORDS) }
        ensures unknown { OnOk result (is_known self.now.endpoints name ≡ false) }
    {
        check(&[
            (self.halted, 1, Fault::Halted),
            (self.endpoints.contains(name), 3, Fault::Exists),
            (
                self.endpoints.len() >= MAX_ENDPOINTS,
                4,
                Fault::TooManyEndpoints,
            ),
            (self.waiting.free_requests() == 0, 5, Fault::WaitingFull),
            (self.are_seqs_spent(), 6, Fault::SeqExhausted),
        ])
    }

    fn check_set(&self, name: Name) -> Result<(), Refusal>
        ensures faults { Checks self.now (λ w. set_faults w name) result }
        ensures names { IfErr result (λ why. IsTrue (may_refuse_set why.fault)) }
        ensures place { OnOk result (requests_in self.now.waiting.waiting < MAX_WAITING_REQUESTS) }
        ensures room { OnOk result (record_count self.now.waiting + length self.now.live < MAX_RECORDS) }
        ensures free { OnOk result (record_count self.now.waiting < self.now.waiting.settled + MAX_FLAGS) }
        ensures known { OnOk result (IsTrue (is_known self.now.endpoints name)) }
    {
        check(&[
            (self.halted, 1, Fault::Halted),
            (!self.endpoints.contains(name), 2, Fault::UnknownEndpoint),
            (self.waiting.free_requests() == 0, 5, Fault::WaitingFull),
            (self.are_seqs_spent(), 6, Fault::SeqExhausted),
        ])
    }

    fn check_subscribe(&self, topic: Name, name: Name) -> Result<(), Refusal>
        ensures faults { Checks self.now (λ w. subscribe_faults w topic name) result }
        ensures names { IfErr result (λ why. IsTrue (may_refuse_subscribe why.fault)) }
        ensures place { OnOk result (requests_in self.now.waiting.waiting < MAX_WAITING_REQUESTS) }
        ensures room { OnOk result (record_count self.now.waiting + length self.now.live < MAX_RECORDS) }
        ensures known { OnOk result (IsTrue (is_known self.now.endpoints name)) }
        ensures free { OnOk result (IsTrue (has_place self.now.endpoints.topics topic name)) }
    {
        check(&[
            (self.halted, 1, Fault::Halted),
            (!self.endpoints.contains(name), 2, Fault::UnknownEndpoint),
            (
                self.lacks_place(topic, name),
                8,
                Fault::TooManySubscriptions,
            ),
            (self.waiting.free_requests() == 0, 5, Fault::WaitingFull),
            (self.are_seqs_spent(), 6, Fault::SeqExhausted),
        ])
    }

    fn check_purge(&self) -> Result<(), Refusal>
        ensures faults { Checks self.now (λ w. purge_faults w) result }
        ensures names { IfErr result (λ why. IsTrue (may_refuse_purge why.fault)) }
        ensures place { OnOk result (requests_in self.now.waiting.waiting < MAX_WAITING_REQUESTS) }
        ensures room { OnOk result (record_count self.now.waiting + length self.now.live < MAX_RECORDS) }
    {
        check(&[
            (self.halted, 1, Fault::Halted),
            (self.waiting.free_requests() == 0, 5, Fault::WaitingFull),
            (self.are_seqs_spent(), 6, Fault::SeqExhausted),
        ])
    }

    // Whether no record named the topic and the endpoint, and there is no room for another pair.
    fn lacks_place(&self, topic: Name, name: Name) -> bool
        ensures place { result ≡ not (has_place self.now.endpoints.topics topic name) }
        ensures stands { OverWorlds self.now (λ w. result ≡ are_pairs_spent w topic name) }
    {
        !self.endpoints.is_named(topic, name) && self.endpoints.free_subscriptions() == 0
    }

    // The steps that can fail for memory come first.
    fn stage_put(
        &mut self,
        name: Name,
        target: Target,
        max: MaxLimit,
        secrets: Secrets,
    ) -> Result<CommandTicket, AllocError>
        requires place { requests_in self.old.waiting.waiting < MAX_WAITING_REQUESTS }
        requires room { record_count self.old.waiting + length self.old.live < MAX_RECORDS }
        requires unknown { is_known self.old.endpoints name ≡ false }
        ensures ticket { IfOk result (λ ticket. ticket.seq ≡ record_count self.old.waiting) }
        ensures staged { OnOk result (self.new ≡ with_put self.old name target max secrets) }
        ensures out { batch_out self.new.waiting ≡ batch_out self.old.waiting }
        ensures limits { OnOk result (IsTrue (is_within_limits (on.Put name target max secrets))) }
        ensures err { OnErr result (self.new ≡ self.old) }
    {
        let seq = self.waiting.records();
        let kept = target.share()?;
        self.limiters.reserve(1)?;
        let estimator = Estimator::new(*self.limiters.allocator(), max)?;
        self.queue.reserve(name, 0)?;
        self.endpoints.stage_put(seq, name, kept, max, secrets)?;
        self.limiters.push_reserved(Limiter {
            endpoint: name,
            estimator,
        });
        update_room(
            &mut self.queue,
            &self.endpoints,
            &self.limiters,
            &self.pool,
            name,
        );
        push_request(
            &mut self.waiting,
            Record::Put {
                name,
                target,
                max,
                secrets,
            },
        );
        Ok(CommandTicket { seq })
    }

    fn stage_secrets(&mut self, name: Name, secrets: Secrets) -> Result<CommandTicket, AllocError>
        requires place { requests_in self.old.waiting.waiting < MAX_WAITING_REQUESTS }
        requires room { record_count self.old.waiting + length self.old.live < MAX_RECORDS }
        requires known { IsTrue (is_known self.old.endpoints name) }
        ensures ticket { IfOk result (λ ticket. ticket.seq ≡ record_count self.old.waiting) }
        ensures staged { OnOk result (self.new ≡ with_secrets self.old name secrets) }
        ensures out { batch_out self.new.waiting ≡ batch_out self.old.waiting }
        ensures limits { OnOk result (IsTrue (is_within_limits (on.Secrets name secrets))) }
        ensures err { OnErr result (self.new ≡ self.old) }
    {
        let seq = self.waiting.records();
        self.endpoints.stage_secrets(seq, name, secrets)?;
        push_request(&mut self.waiting, Record::Secrets { name, secrets });
        Ok(CommandTicket { seq })
    }

    fn stage_subscribed(
        &mut self,
        topic: Name,
        name: Name,
        flag: bool,
    ) -> Result<CommandTicket, AllocError>
        requires place { requests_in self.old.waiting.waiting < MAX_WAITING_REQUESTS }
        requires room { record_count self.old.waiting + length self.old.live < MAX_RECORDS }
        requires free { IsTrue (has_place self.old.endpoints.topics topic name) }
        ensures ticket { IfOk result (λ ticket. ticket.seq ≡ record_count self.old.waiting) }
        ensures staged { OnOk result (self.new ≡ with_subscribed self.old topic name flag) }
        ensures stands { OnOk result (Stages self.old.endpoints self.new.endpoints (record_count self.old.waiting)
            (on.Subscribed topic name flag)) }
        ensures out { batch_out self.new.waiting ≡ batch_out self.old.waiting }
        ensures limits { OnOk result (IsTrue (is_within_limits (on.Subscribed topic name flag))) }
        ensures err { OnErr result (self.new ≡ self.old) }
    {
        let seq = self.waiting.records();
        self.endpoints.stage_subscribed(seq, topic, name, flag)?;
        push_request(&mut self.waiting, Record::Subscribed { topic, name, flag });
        Ok(CommandTicket { seq })
    }

    fn stage_enabled(&mut self, name: Name, flag: bool) -> CommandTicket
        requires place { requests_in self.old.waiting.waiting < MAX_WAITING_REQUESTS }
        requires room { record_count self.old.waiting + length self.old.live < MAX_RECORDS }
        requires known { IsTrue (is_known self.old.endpoints name) }
        requires free { record_count self.old.waiting < self.old.waiting.settled + MAX_FLAGS }
        ensures ticket { result.seq ≡ record_count self.old.waiting }
        ensures staged { self.new ≡ with_enabled self.old name flag }
        ensures out { batch_out self.new.waiting ≡ batch_out self.old.waiting }
        ensures limits { IsTrue (is_within_limits (on.Enabled name flag)) }
    {
        let seq = self.waiting.records();
        self.endpoints.stage_enabled(seq, name, flag);
        update_room(
            &mut self.queue,
            &self.endpoints,
            &self.limiters,
            &self.pool,
            name,
        );
        push_request(&mut self.waiting, Record::Enabled { name, flag });
        CommandTicket { seq }
    }

    fn stage_purge(&mut self, before: Moment) -> CommandTicket
        requires place { requests_in self.old.waiting.waiting < MAX_WAITING_REQUESTS }
        requires room { record_count self.old.waiting + length self.old.live < MAX_RECORDS }
        ensures ticket { result.seq ≡ record_count self.old.waiting }
        ensures staged { self.new ≡ with_purged self.old before }
        ensures out { batch_out self.new.waiting ≡ batch_out self.old.waiting }
        ensures stands { Takes self.old.deliveries (record_count self.old.waiting)
            (on.Purge before) self.new.deliveries }
        ensures limits { IsTrue (is_within_limits (on.Purge before)) }
    {
        let seq = self.waiting.records();
        self.deliveries.stage_purge(seq, before);
        push_request(&mut self.waiting, Record::Purge { before });
        CommandTicket { seq }
    }
}
