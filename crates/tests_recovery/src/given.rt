//! All that a desk gives to be posted, as a text.

use desk::{Command, Desk, Job};
use permits::{Foreign, Permit};
use relay_types::{Moment, Name, Secret, Secrets};
use retry_table::PostResult;
use spool::OpenFault;
use std::alloc::Global;
use std::process::Abort;
use std::sync::ledger::Ledger;

/// A text that is added to.
#[derive(Drop)]
pub(crate) struct Text {
    pub(crate) told: String,
}

impl Text {
    pub(crate) fn new(alloc: Global) -> Text {
        Text {
            told: String::new(alloc),
        }
    }

    fn add(&mut self, rt: &impl Abort, what: &str) {
        self.told.push_str(what).expect(rt, "memory");
    }

    fn add_number(&mut self, rt: &impl Abort, what: &str, number: u64) {
        write!(self.told, "{what} {number} ").expect(rt, "memory");
    }

    pub(crate) fn add_fault(&mut self, rt: &impl Abort, fault: OpenFault) {
        write!(self.told, "{fault}").expect(rt, "memory");
    }

    pub(crate) fn is(&self, told: &str) -> bool {
        self.told.as_str() == told
    }

    fn add_bytes(&mut self, rt: &impl Abort, what: &str, bytes: &[u8]) {
        write!(self.told, "{what} {bytes:?} ").expect(rt, "memory");
    }
}

fn add_secret(rt: &impl Abort, text: &mut Text, secret: Option<Secret>) {
    match secret {
        Some(secret) => text.add_bytes(rt, "secret", secret.as_bytes()),
        None => text.add(rt, "no secret "),
    }
}

fn add_secrets(rt: &impl Abort, text: &mut Text, secrets: Secrets) {
    for place in 0..4 {
        add_secret(rt, text, secrets.get(place));
    }
}

fn add_job<L: Ledger>(rt: &impl Abort, text: &mut Text, job: &Job<L>) {
    text.add_number(rt, "\nevent", job.permit().delivery());
    text.add_number(rt, "attempt", job.attempt());
    text.add_number(rt, "at", job.moment().seconds());
    text.add_bytes(rt, "for", job.endpoint().as_bytes());
    text.add_bytes(rt, "id", job.id().as_bytes());
    text.add_bytes(rt, "to", job.target().as_bytes());
    add_secrets(rt, text, job.secrets());
    text.add_bytes(rt, "body", job.body().as_bytes());
}

pub(crate) fn spend<L: Ledger>(
    rt: &impl Abort,
    desk: &mut Desk<L>,
    permit: Permit<L>,
    post: PostResult,
    now: Moment,
) {
    match desk.spend(permit, post, now) {
        Ok(_) => {}
        Err((_permit, Foreign)) => panic!(rt; "the permit is foreign"),
    }
}

/// Makes the next attempt at this moment, if there is one. It reaches nobody.
fn add_next<L: Ledger>(rt: &impl Abort, desk: &mut Desk<L>, now: Moment, text: &mut Text) {
    if let Some(job) = desk.claim(now).expect(rt, "a claim") {
        add_job(rt, text, &job);
        spend(rt, desk, job.into_permit(), PostResult::Unreached, now);
    }
}

fn enable<L: Ledger>(rt: &impl Abort, desk: &mut Desk<L>, letter: u8) {
    let name = Name::read(&[letter]).expect(rt, "a name");
    let _ = desk.command(Command::SetEnabled { name, flag: true });
}

/// Adds all that the desk gives to be posted once each endpoint is enabled and everything is due, and the number of its
/// next record then. Of an event whose outcome waits nothing more is given.
pub(crate) fn add_given<L: Ledger>(rt: &impl Abort, desk: &mut Desk<L>, text: &mut Text) {
    for letter in b'a'..b'e' {
        enable(rt, desk, letter);
    }
    let due = Moment::of(1_000_000_000).expect(rt, "a moment");
    for _ in 0..20 {
        add_next(rt, desk, due, text);
    }
    text.add_number(rt, "\nthen", desk.records());
}
