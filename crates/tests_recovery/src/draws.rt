//! Random calls of a desk: what it takes makes a legal history.
ghost use Rattle.std.specs.Prelude.{◌<◌};

use crate::given::spend;
use desk::{Command, Desk};
use group_commit::WrongTurn;
use relay_types::{Body, MaxLimit, Moment, MsgId, Name, Secret, Secrets, Target};
use retry_table::{PostResult, Status};
use spool::{Batch, Receipt, Vault};
use sqlite::Alter;
use std::alloc::Global;
use std::process::Abort;
use std::sync::Arc;
use std::sync::ledger::Ledger;

/// How many calls a history is drawn of. One that is refused changes nothing.
const DRAWS: u32 = 100;

/// By how much a call is later than the one before.
static LATER: [u64; 4] = [0, 7, 400, 90_000];

const BYTES: &[u8] = b"xxxxxxxx";

/// Numbers of a linear congruential generator, with the constants of Knuth's MMIX, and the moment of the last call.
#[derive(Drop)]
pub(crate) struct Numbers {
    pub(crate) first: u64,
    last: u64,
    seconds: u64,
}

impl Numbers {
    pub(crate) fn from(first: u64) -> Numbers {
        Numbers {
            first,
            last: first,
            seconds: 1000,
        }
    }

    pub(crate) fn below(&mut self, bound: u64) -> u64
        requires { 0 < bound }
        ensures { result < bound }
    {
        self.last = self
            .last
            .wrapping_mul(6_364_136_223_846_793_005)
            .wrapping_add(1_442_695_040_888_963_407);
        (self.last >> 33) % bound
    }
}

/// One of four names.
fn draw_name(rt: &impl Abort, numbers: &mut Numbers) -> Name {
    let letter = b'a' + numbers.below(4) as u8;
    Name::read(&[letter]).expect(rt, "a name")
}

fn draw_secret(rt: &impl Abort, alloc: Global, numbers: &mut Numbers) -> Secret {
    let byte = numbers.below(256) as u8;
    let mut key = Vec::new(alloc);
    key.resize(24, byte).expect(rt, "memory");
    Secret::of(&key).expect(rt, "a secret")
}

/// One to four secrets.
fn draw_secrets(rt: &impl Abort, alloc: Global, numbers: &mut Numbers) -> Secrets {
    let mut all = Vec::new(alloc);
    for _ in 0..4 {
        let secret = draw_secret(rt, alloc, numbers);
        all.push(secret).expect(rt, "memory");
    }
    let count = numbers.below(4) as usize + 1;
    let list = all.get(..count).expect(rt, "secrets");
    Secrets::of(list).expect(rt, "secrets")
}

fn draw_url(numbers: &mut Numbers) -> &'static [u8] {
    if numbers.below(2) == 0 {
        b"http://h/"
    } else {
        b"HTTP://127.0.0.1:9000/hook"
    }
}

/// The maximum is below the first limit at one endpoint in four.
fn draw_put(
    rt: &impl Abort,
    alloc: Global,
    numbers: &mut Numbers,
    (name, url, secrets): (Name, &[u8], Secrets),
) -> Command {
    Command::PutEndpoint {
        name,
        target: Target::read(alloc, url).expect(rt, "a target"),
        max: MaxLimit::of(numbers.below(80) + 1).expect(rt, "a maximum"),
        secrets,
    }
}

fn draw_command(rt: &impl Abort, alloc: Global, numbers: &mut Numbers) -> Command {
    let name = draw_name(rt, numbers);
    let secrets = draw_secrets(rt, alloc, numbers);
    let url = draw_url(numbers);
    let flag = numbers.below(4) > 0;
    match numbers.below(8) {
        0 | 1 => draw_put(rt, alloc, numbers, (name, url, secrets)),
        2 => Command::SetSecrets { name, secrets },
        3 | 4 => Command::SetSubscribed {
            topic: draw_name(rt, numbers),
            name,
            flag,
        },
        _ => Command::SetEnabled { name, flag },
    }
}

/// One of three ids.
fn draw_id(rt: &impl Abort, numbers: &mut Numbers) -> MsgId {
    let place = b'0' + numbers.below(3) as u8;
    MsgId::read(&[b'M', place]).expect(rt, "an id")
}

/// Up to 8 bytes.
fn draw_body(rt: &impl Abort, alloc: Global, numbers: &mut Numbers) -> Body {
    let len = numbers.below(9) as usize;
    let bytes = BYTES.get(..len).unwrap_or(BYTES);
    let bytes = Vec::from_slice(alloc, bytes).expect(rt, "memory");
    let bytes = Arc::new(alloc, bytes).expect(rt, "memory");
    Body::of(bytes).expect(rt, "a body")
}

/// One of three events of an endpoint.
fn submit<L: Ledger>(
    rt: &impl Abort,
    alloc: Global,
    desk: &mut Desk<L>,
    numbers: &mut Numbers,
    now: Moment,
) {
    let name = draw_name(rt, numbers);
    let id = draw_id(rt, numbers);
    let body = draw_body(rt, alloc, numbers);
    let _ = desk.submit(now, name, id, body);
}

/// One of three events for the subscribers of a topic.
fn publish<L: Ledger>(
    rt: &impl Abort,
    alloc: Global,
    desk: &mut Desk<L>,
    numbers: &mut Numbers,
    now: Moment,
) {
    let topic = draw_name(rt, numbers);
    let id = draw_id(rt, numbers);
    let body = draw_body(rt, alloc, numbers);
    let _ = desk.publish(now, topic, id, body);
}

fn answered(rt: &impl Abort, number: u16, rtt: u64) -> PostResult {
    let status = Status::of(number).expect(rt, "a status");
    PostResult::Answered { status, rtt }
}

/// One post in twelve delivers.
fn draw_post(rt: &impl Abort, numbers: &mut Numbers) -> PostResult {
    let rtt = 90_000 + numbers.below(20_000);
    match numbers.below(12) {
        0 => answered(rt, 204, rtt),
        1 => answered(rt, 410, rtt),
        2 => answered(rt, 503, rtt),
        3 => answered(rt, 302, rtt),
        4 => answered(rt, 429, rtt),
        5 => answered(rt, 600, rtt),
        6 => PostResult::TimedOut { rtt },
        7 => PostResult::Unreached,
        8 => PostResult::Unsent,
        _ => answered(rt, 500, rtt),
    }
}

/// Makes the next attempt, where there is one.
fn attempt<L: Ledger>(rt: &impl Abort, desk: &mut Desk<L>, numbers: &mut Numbers, now: Moment) {
    let post = draw_post(rt, numbers);
    if let Some(job) = desk.claim(now).expect(rt, "a claim") {
        spend(rt, desk, job.into_permit(), post, now);
    }
}

fn command<L: Ledger>(rt: &impl Abort, alloc: Global, desk: &mut Desk<L>, numbers: &mut Numbers) {
    let command = draw_command(rt, alloc, numbers);
    let _ = desk.command(command);
}

/// Removes what is done with before a moment that lies up to a day back.
fn purge<L: Ledger>(rt: &impl Abort, desk: &mut Desk<L>, numbers: &mut Numbers) {
    let back = LATER[numbers.below(4) as usize];
    let seconds = numbers.seconds.saturating_sub(back).saturating_add(1);
    let before = Moment::of(seconds).expect(rt, "a moment");
    let _ = desk.command(Command::Purge { before });
}

fn call<L: Ledger>(
    rt: &impl Abort,
    alloc: Global,
    desk: &mut Desk<L>,
    numbers: &mut Numbers,
    now: Moment,
) {
    match numbers.below(10) {
        0 | 1 => command(rt, alloc, desk, numbers),
        2 | 3 => submit(rt, alloc, desk, numbers, now),
        4 => publish(rt, alloc, desk, numbers, now),
        5 => purge(rt, desk, numbers),
        _ => attempt(rt, desk, numbers, now),
    }
}

fn written<S: Alter>(rt: &impl Abort, vault: &mut Vault<S>, batch: Batch) -> Receipt {
    match vault.commit(batch) {
        Ok(receipt) => receipt,
        Err(_end) => panic!(rt; "the commit was refused"),
    }
}

fn settle<L: Ledger>(rt: &impl Abort, desk: &mut Desk<L>, receipt: Receipt) {
    match desk.settle(receipt) {
        Ok(_) => {}
        Err((_receipt, WrongTurn)) => panic!(rt; "the receipt was refused"),
    }
}

/// Seals what waits, commits it and settles it.
fn turn<L: Ledger, S: Alter>(rt: &impl Abort, desk: &mut Desk<L>, vault: &mut Vault<S>) {
    match desk.seal() {
        Ok(Some(batch)) => settle(rt, desk, written(rt, vault, batch)),
        Ok(None) => {}
        Err(_) => panic!(rt; "a seal was refused"),
    }
}

fn draw_moment(rt: &impl Abort, numbers: &mut Numbers) -> Moment {
    let later = LATER[numbers.below(4) as usize];
    numbers.seconds = numbers.seconds.saturating_add(later);
    Moment::of(numbers.seconds).expect(rt, "a moment")
}

/// Makes random calls, and settles all that came of them.
pub(crate) fn draw<L: Ledger, S: Alter>(
    rt: &impl Abort,
    alloc: Global,
    desk: &mut Desk<L>,
    vault: &mut Vault<S>,
    numbers: &mut Numbers,
) {
    for _ in 0..DRAWS {
        let now = draw_moment(rt, numbers);
        call(rt, alloc, desk, numbers, now);
        if numbers.below(3) == 0 {
            turn(rt, desk, vault);
        }
    }
    turn(rt, desk, vault);
}
