//! What is made of the results of posts, and the delays after failures.

use crate::cases::holds;
use retry_table::{
    Measured, PostResult, Spend, Status, Verdict, delay_after, judge, measure, verdict_of,
};
use std::process::Abort;

/// The statuses of a range, how the attempt is spent and what it comes to.
#[derive(Clone, Copy)]
struct Range(u16, u16, Spend, Verdict);

const RANGES: [Range; 9] = [
    Range(100, 199, Spend::Success, Verdict::Failed),
    Range(200, 299, Spend::Success, Verdict::Delivered),
    Range(300, 409, Spend::Success, Verdict::Failed),
    Range(410, 410, Spend::Success, Verdict::Gone),
    Range(411, 428, Spend::Success, Verdict::Failed),
    Range(429, 429, Spend::Dropped, Verdict::Failed),
    Range(430, 501, Spend::Success, Verdict::Failed),
    Range(502, 504, Spend::Dropped, Verdict::Failed),
    Range(505, 999, Spend::Success, Verdict::Failed),
];

fn answered(rt: &impl Abort, number: u16) -> PostResult {
    let status = Status::of(number).expect(rt, "a status");
    PostResult::Answered { status, rtt: 7 }
}

fn is_judged(post: PostResult, spend: Spend, recorded: Option<u16>) -> bool {
    judge(&post) == (spend, recorded)
}

fn is_verdict(number: u16, verdict: Verdict) -> bool {
    verdict_of(number) == verdict
}

/// How many statuses there are in the range, each of which is judged so.
fn judge_range(rt: &impl Abort, range: Range) -> usize {
    let Range(first, last, spend, verdict) = range;
    let mut seen = 0_usize;
    for number in first..=last {
        holds(
            rt,
            is_judged(answered(rt, number), spend, Some(number)),
            number as usize,
        );
        holds(rt, is_verdict(number, verdict), number as usize);
        seen = seen.saturating_add(1);
    }
    seen
}

#[test]
fn every_status(rt: HostRuntime) {
    let mut seen = 0_usize;
    for range in RANGES.iter() {
        seen = seen.saturating_add(judge_range(&rt, *range));
    }
    holds(&rt, seen == 900, seen);
}

/// Results without a status.
#[derive(Clone, Copy)]
struct Lost(PostResult, Spend, Option<u16>, Option<Measured>);

const LOST: [Lost; 3] = [
    Lost(
        PostResult::TimedOut { rtt: 9 },
        Spend::Dropped,
        Some(0),
        Some(Measured {
            rtt: 9,
            dropped: true,
        }),
    ),
    Lost(PostResult::Unreached, Spend::Ignored, Some(0), None),
    Lost(PostResult::Unsent, Spend::Ignored, None, None),
];

fn is_measured(post: PostResult, wanted: Option<Measured>) -> bool {
    measure(&post) == wanted
}

fn is_lost(lost: &Lost) -> bool {
    is_judged(lost.0, lost.1, lost.2) && is_measured(lost.0, lost.3)
}

#[test]
fn results_without_a_status(rt: HostRuntime) {
    for (place, lost) in LOST.iter().enumerate() {
        holds(&rt, is_lost(lost), place);
    }
    holds(&rt, is_verdict(0, Verdict::Failed), 3);
}

/// Whether an answer of this status was dropped.
#[derive(Clone, Copy)]
struct Told(u16, bool);

const TOLD: [Told; 4] = [
    Told(200, false),
    Told(410, false),
    Told(500, false),
    Told(503, true),
];

#[test]
fn what_an_estimator_is_told(rt: HostRuntime) {
    for (place, told) in TOLD.iter().enumerate() {
        let Told(number, dropped) = *told;
        let wanted = Some(Measured { rtt: 7, dropped });
        holds(&rt, is_measured(answered(&rt, number), wanted), place);
    }
}

/// A number, and whether it is a status.
#[derive(Clone, Copy)]
struct Border(u16, bool);

const BORDERS: [Border; 7] = [
    Border(0, false),
    Border(99, false),
    Border(1000, false),
    Border(u16::MAX, false),
    Border(100, true),
    Border(200, true),
    Border(999, true),
];

fn is_status(number: u16, wanted: bool) -> bool {
    match Status::of(number) {
        Some(status) => wanted && status.get() == number,
        None => !wanted,
    }
}

#[test]
fn borders_of_a_status(rt: HostRuntime) {
    for (place, border) in BORDERS.iter().enumerate() {
        let Border(number, wanted) = *border;
        holds(&rt, is_status(number, wanted), place);
    }
}

/// The delay after so many failures, and the moment of the attempt behind it where the first was at 1000.
#[derive(Clone, Copy)]
struct Delay(u32, u32, u32);

const DELAYS: [Delay; 9] = [
    Delay(1, 5, 1005),
    Delay(2, 300, 1305),
    Delay(3, 1800, 3105),
    Delay(4, 7200, 10305),
    Delay(5, 18000, 28305),
    Delay(6, 36000, 64305),
    Delay(7, 50400, 114705),
    Delay(8, 72000, 186705),
    Delay(9, 86400, 273105),
];

fn seconds_after(rt: &impl Abort, failures: u32) -> u32 {
    assert!(rt; 1 <= failures && failures <= 9);
    delay_after(failures)
}

#[test]
fn delays(rt: HostRuntime) {
    let mut moment = 1000_u32;
    for (place, delay) in DELAYS.iter().enumerate() {
        let Delay(failures, wanted, at) = *delay;
        let seconds = seconds_after(&rt, failures);
        moment = moment.saturating_add(seconds);
        holds(&rt, seconds == wanted && moment == at, place);
    }
}
