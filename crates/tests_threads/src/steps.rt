//! What a thread does with a desk that others share, step for step.

use crate::asked::{Request, is_answered};
use crate::crowd::{are_each_delivered, submit_each, work};
use crate::given::{body, disable, id, moment, name, now, purge};
use crate::seen::{Seen, TURNS, count, have_come, pause, wait_a_turn};
use crate::stand_ins::{Standing, Subscriber, Way};
use delivery::{Pass, Round, Shared, worker_round};
use desk::{Command, CommandTicket, Desk, Ticket, Told};
use retry_table::Spend;
use run_log::LogId;
use std::alloc::Global;
use std::process::Abort;
use std::sync::Wait;
use std::sync::ledger::Ledger;
use std::time::{Clock, Duration, Instant};

/// What a round comes to.
pub(crate) enum Turn {
    /// It is posted, its spend is a success, and nothing of the endpoint is under way then.
    Posted,
    /// It is posted, its spend is a success, and one other of the endpoint may be under way then.
    Met,
    /// It is posted, its spend is ignored, and nothing of the endpoint is under way then.
    Ignored,
    Idle,
    /// It is as for `Posted`, or as for `Idle`.
    PostedOrIdle,
    Closing,
}

/// What a thread does, and what is so then.
pub(crate) enum Step {
    /// The others go on for a while.
    Pause,
    /// An event of endpoint `a` is taken with this id and this number.
    Submit(&'static [u8], u64),
    /// An event for topic `t` is taken with this id and, at its first subscriber, this number.
    Publish(&'static [u8], u64),
    /// Endpoint `a` is disabled, with this number.
    Disable(u64),
    /// A Purge before 1001 is taken, with this number.
    Purge(u64),
    /// The end is asked for.
    Finish,
    /// A round at this moment.
    Round(u64, Way, Turn),
    /// The pass looks at the desk.
    Look,
    /// So many settled records were seen.
    Saw(u64),
    /// The thread rests.
    Rest,
    /// One more has come to an end.
    End,
    /// It waits until the event with this number and this id is settled, or the desk is halted:
    /// then nothing is known of it.
    Told(u64, &'static [u8]),
    /// The same of an event with these two numbers, at endpoints `a` and `b`.
    ToldBoth([u64; 2], &'static [u8]),
    /// The event of endpoint `a` with this number and this id is settled.
    Kept(u64, &'static [u8]),
    /// It waits for the event of endpoint `a` with this number and this id, which a Purge takes: nothing is known of it
    /// then.
    Gone(u64, &'static [u8]),
    /// It waits for an event with these two numbers, at endpoints `a` and `b`, of which a Purge takes the first.
    GoneAtOne([u64; 2], &'static [u8]),
    /// The same of a command.
    ToldCommand(u64),
    /// It waits until there are so many records.
    Staged(u64),
    /// It waits until so many records are settled.
    Settled(u64),
    /// It waits until so many commits have begun.
    Begun(u64),
    /// It waits until so many have come to an end.
    Ended(u64),
    /// A request is answered with this status, with `Retry-After: 1` or without it, and with this text.
    Ask(Request, u16, bool, &'static str),
    /// The events of this submitter are acknowledged one by one.
    SubmitEach(u64),
    /// A worker works until the end.
    Work,
    /// It waits until so many events are delivered.
    Delivered(u64),
    /// The events of so many submitters are delivered, each at its first attempt.
    EachDelivered(u64),
}

/// What a thread has.
#[derive(Drop)]
pub(crate) struct Place<'a, L: Ledger, I: LogId, R> {
    pub(crate) rt: &'a R,
    pub(crate) alloc: Global,
    pub(crate) shared: &'a Shared<L, I>,
    pub(crate) seen: &'a Seen,
}

impl<L: Ledger, I: LogId, R: Wait + Clock + Abort> Place<'_, L, I, R> {
    /// Takes the steps one after another.
    pub(crate) fn walk(&self, steps: &[Step]) {
        let mut pass = Pass::new();
        for (place, step) in steps.iter().enumerate() {
            let is = self.does(step, &mut pass)
                && self.has_come(step)
                && self.has_served(step, &mut pass);
            let case = self.seen.case;
            assert!(self.rt; is, "case {case}, step {place}");
        }
    }

    // Makes a change.
    fn does(&self, step: &Step, pass: &mut Pass) -> bool {
        match step {
            Step::Pause => pause(self.rt),
            Step::Submit(text, seq) => return self.is_submitted(text, *seq),
            Step::Publish(text, seq) => return self.is_published(text, *seq),
            Step::Disable(seq) => return self.is_taken(disable(self.rt), *seq),
            Step::Purge(seq) => return self.is_taken(purge(self.rt), *seq),
            Step::Finish => self.shared.finish(self.rt),
            Step::Rest => self.rest(pass),
            Step::Look => return self.shared.look(self.rt, pass).is_ok(),
            Step::Saw(seen) => return pass.seen() == *seen,
            Step::End => {
                count(&self.seen.ended);
            }
            _ => {}
        }
        true
    }

    // Waits until something is so.
    fn has_come(&self, step: &Step) -> bool {
        match step {
            Step::Told(seq, text) => self.is_told(*seq, text),
            Step::ToldBoth(seqs, text) => self.are_told(*seqs, text),
            Step::Kept(seq, text) => self.is_kept(*seq, text),
            Step::Gone(seq, text) => self.is_gone(*seq, text),
            Step::GoneAtOne(seqs, text) => self.is_gone_at_one(*seqs, text),
            Step::ToldCommand(seq) => self.is_command_told(*seq),
            Step::Staged(wanted) => have_staged(self, *wanted),
            Step::Settled(wanted) => self.are_settled(*wanted),
            Step::Begun(wanted) => have_come(self.rt, &self.seen.commits, *wanted),
            Step::Ended(wanted) => have_come(self.rt, &self.seen.ended, *wanted),
            Step::Delivered(wanted) => self.are_delivered(*wanted),
            _ => true,
        }
    }

    // Asks for an answer, or posts.
    fn has_served(&self, step: &Step, pass: &mut Pass) -> bool {
        match step {
            Step::Round(seconds, way, turn) => self.is_round(*seconds, way, turn, pass),
            Step::Ask(request, status, retry, text) => {
                let is = is_answered(&self.answer_to(request, pass), *status, *retry, text);
                count(&self.seen.ended);
                is
            }
            Step::SubmitEach(submitter) => submit_each(self, *submitter, pass),
            Step::Work => work(self, pass),
            Step::EachDelivered(submitters) => are_each_delivered(self, *submitters),
            _ => true,
        }
    }

    fn is_submitted(&self, text: &[u8], seq: u64) -> bool {
        let (name, id) = (name(self.rt, b"a"), id(self.rt, text));
        let body = body(self.rt, self.alloc);
        match self.shared.submit(self.rt, now(self.rt), name, id, body) {
            Ok(ticket) => {
                count(&self.seen.staged);
                ticket.seq == seq
            }
            Err(_) => false,
        }
    }

    fn is_published(&self, text: &[u8], seq: u64) -> bool {
        let (topic, id) = (name(self.rt, b"t"), id(self.rt, text));
        let body = body(self.rt, self.alloc);
        match self.shared.publish(self.rt, now(self.rt), topic, id, body) {
            Ok(published) => {
                count(&self.seen.staged);
                matches!(published.tickets().first(), Some(ticket) if ticket.seq == seq)
            }
            Err(_) => false,
        }
    }

    fn is_taken(&self, command: Command, seq: u64) -> bool {
        match self.shared.command(self.rt, command) {
            Ok(change) => change.ticket().seq == seq,
            Err(_) => false,
        }
    }

    // Rests, and counts whether that took less than half a second.
    fn rest(&self, pass: &Pass) {
        if self.rests_shortly(pass) {
            count(&self.seen.short);
        }
    }

    fn rests_shortly(&self, pass: &Pass) -> bool {
        let Ok(began) = Instant::now(self.rt) else {
            return false;
        };
        self.shared.rest(self.rt, pass);
        match began.elapsed(self.rt) {
            Ok(taken) => taken < Duration::from_millis(500),
            Err(_) => false,
        }
    }

    fn is_told(&self, seq: u64, text: &[u8]) -> bool {
        let ticket = self.ticket(seq, b"a", text);
        let locked = self.shared.wait_for(self.rt, &ticket);
        locked.desk().told(&ticket) == wanted_of(locked.desk())
    }

    fn is_kept(&self, seq: u64, text: &[u8]) -> bool {
        let ticket = self.ticket(seq, b"a", text);
        let locked = self.shared.wait_for(self.rt, &ticket);
        locked.desk().told(&ticket) == Told::Settled
    }

    fn is_gone(&self, seq: u64, text: &[u8]) -> bool {
        let ticket = self.ticket(seq, b"a", text);
        let locked = self.shared.wait_for(self.rt, &ticket);
        locked.desk().told(&ticket) == Told::Unknown
            && locked.desk().settled_body(&ticket).is_none()
            && !locked.desk().is_halted()
    }

    fn is_gone_at_one(&self, seqs: [u64; 2], text: &[u8]) -> bool {
        let tickets = [
            self.ticket(seqs[0], b"a", text),
            self.ticket(seqs[1], b"b", text),
        ];
        let locked = self.shared.wait_for_all(self.rt, &tickets);
        locked.desk().told(&tickets[0]) == Told::Unknown
            && locked.desk().told(&tickets[1]) == Told::Settled
    }

    fn are_told(&self, seqs: [u64; 2], text: &[u8]) -> bool {
        let tickets = [
            self.ticket(seqs[0], b"a", text),
            self.ticket(seqs[1], b"b", text),
        ];
        let locked = self.shared.wait_for_all(self.rt, &tickets);
        let wanted = wanted_of(locked.desk());
        tickets
            .iter()
            .all(|ticket| locked.desk().told(ticket) == wanted)
    }

    fn ticket(&self, seq: u64, endpoint: &[u8], text: &[u8]) -> Ticket {
        Ticket {
            seq,
            name: name(self.rt, endpoint),
            id: id(self.rt, text),
        }
    }

    fn is_command_told(&self, seq: u64) -> bool {
        let ticket = CommandTicket { seq };
        let locked = self.shared.wait_for_command(self.rt, &ticket);
        locked.desk().told_command(&ticket) == wanted_of(locked.desk())
    }

    fn are_settled(&self, wanted: u64) -> bool {
        let mut pass = Pass::new();
        for _ in 0..TURNS {
            if self.shared.look(self.rt, &mut pass).is_ok() && pass.seen() >= wanted {
                return true;
            }
            wait_a_turn(self.rt);
        }
        false
    }

    fn are_delivered(&self, wanted: u64) -> bool {
        let mut pass = Pass::new();
        for _ in 0..5 * TURNS {
            if self.delivered(&mut pass) >= wanted {
                return true;
            }
            wait_a_turn(self.rt);
        }
        false
    }

    // How many events are delivered.
    fn delivered(&self, pass: &mut Pass) -> u64 {
        match self.shared.look(self.rt, pass) {
            Ok(locked) => locked.desk().totals().delivered,
            Err(_) => 0,
        }
    }

    /// A round at this moment, of a subscriber that answers in this way.
    pub(crate) fn round(&self, seconds: u64, way: &Way, pass: &mut Pass) -> Round {
        let clock = Standing(moment(self.rt, seconds));
        let subscriber = Subscriber {
            way,
            shared: self.shared,
            seen: self.seen,
            rt: self.rt,
        };
        worker_round(self.rt, self.alloc, self.shared, &subscriber, &clock, pass)
    }

    fn is_round(&self, seconds: u64, way: &Way, turn: &Turn, pass: &mut Pass) -> bool {
        let round = self.round(seconds, way, pass);
        match turn {
            Turn::Posted => is_spent(&round, Spend::Success, 0),
            Turn::Met => is_spent(&round, Spend::Success, 1),
            Turn::Ignored => is_spent(&round, Spend::Ignored, 0),
            Turn::Idle => matches!(round, Round::Idle),
            Turn::PostedOrIdle => {
                matches!(round, Round::Idle) || is_spent(&round, Spend::Success, 0)
            }
            Turn::Closing => matches!(round, Round::Closing),
        }
    }
}

/// Waits until there are so many records.
pub(crate) fn have_staged<L: Ledger, I: LogId, R: Wait + Clock>(
    place: &Place<'_, L, I, R>,
    wanted: u64,
) -> bool {
    let mut pass = Pass::new();
    for _ in 0..TURNS {
        if records(place, &mut pass) >= wanted {
            return true;
        }
        wait_a_turn(place.rt);
    }
    false
}

fn records<L: Ledger, I: LogId, R: Wait>(place: &Place<'_, L, I, R>, pass: &mut Pass) -> u64 {
    match place.shared.look(place.rt, pass) {
        Ok(locked) => locked.desk().records(),
        Err(_) => 0,
    }
}

// What is known of what was staged, and is waited for no more.
fn wanted_of<L: Ledger>(desk: &Desk<L>) -> Told {
    if desk.is_halted() {
        Told::Unknown
    } else {
        Told::Settled
    }
}

// Whether it was posted and spent so, and so many at most are under way then.
fn is_spent(round: &Round, spend: Spend, most: u32) -> bool {
    match round {
        Round::Posted { spent, .. } => spent.spend() == spend && spent.in_flight() <= most,
        _ => false,
    }
}
