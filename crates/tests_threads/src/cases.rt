//! A case: a desk and a vault over a new store, threads that share the desk, and what is so after their end.
ghost use Rattle.std.specs.Prelude.{◌≡◌, List};
ghost use Rattle.relay_types.specs.declared.record.Record.{Record};

use crate::crowd::NAMES;
use crate::given::{Before, MARK, are_done, holds, name};
use crate::seen::{Seen, TURNS, count, pause, so_far, wait_a_turn};
use crate::stand_ins::{Spot, Watched};
use crate::steps::{Place, Step, have_staged};
use delivery::{CommitterEnd, HaltCause, Keeper, LoggedKeeper, Pass, begin_run, committer_run};
use desk::Desk;
use permits::PARTS;
use recovery::audit;
use relay_host::FileGuard;
use run_log::{LogId, NewLog};
use spool::Vault;
use sqlite::{Alter, Connection, FileStore, Files, Options};
use sqlite_disk::{Fuse, Memory};
use std::alloc::Global;
use std::marker::Brand;
use std::process::Abort;
use std::sync::ledger::{Blank, Ledger};
use std::sync::{Arc, Wait};
use std::thread;
use std::thread::Threads;
use std::time::Clock;

/// When the committer of the vault runs, and how its keeper commits.
pub(crate) enum Committer {
    /// None runs.
    Without,
    /// It runs from the first on.
    Runs,
    /// It begins a while later.
    Late,
    /// It begins once there are so many records.
    After(u64),
    /// Its first commit is held until an event is taken meanwhile, and a while longer.
    Held,
    /// The end is asked for before it begins, and so many commits are refused as out of memory.
    Lacking(u32),
    /// It runs from the first on, and so many commits are refused for lack of memory before each that isn't.
    LackingEach(u32),
    /// What its vault has open doesn't stand at its place any more.
    TakenAway,
    /// It begins a while later, and its first commit is refused as out of memory.
    RefusedOnce,
    /// It begins a while later, and each of its commits is refused as out of memory.
    Refused,
    /// It begins once the end was asked for, and each of its commits is refused as out of memory.
    RefusedAtEnd,
}

impl Committer {
    // How many of its commits are refused as out of memory.
    fn refusals(&self) -> u32 {
        match self {
            Committer::Lacking(refusals) | Committer::LackingEach(refusals) => *refusals,
            Committer::RefusedOnce => 1,
            Committer::Refused | Committer::RefusedAtEnd => u32::MAX,
            _ => 0,
        }
    }

    // How many are refused again after each commit.
    fn refusals_again(&self) -> u32 {
        match self {
            Committer::LackingEach(refusals) => *refusals,
            _ => 0,
        }
    }
}

/// How the committer of the vault came to its end.
#[derive(Clone, Copy, PartialEq, Eq)]
pub(crate) enum Ending {
    Without,
    Finished,
    Halted,
    OutOfMemory,
    OutOfTurn,
    Store,
    Otherwise,
}

/// What is so after the end of all threads.
#[derive(Clone, Copy)]
pub(crate) struct Found {
    /// Whether the store took all that was to be settled before.
    pub(crate) has_begun: bool,
    pub(crate) ending: Ending,
    /// How many records are settled, how many there are, and whether the desk is halted.
    pub(crate) settled: u64,
    pub(crate) records: u64,
    pub(crate) is_halted: bool,
    /// Whether the vault has as many records as are settled, and tells of them what the desk tells.
    pub(crate) is_kept: bool,
    /// Whether the vault is closed.
    pub(crate) is_closed: bool,
    /// Whether no permit is out.
    pub(crate) are_back: bool,
    /// How many commits there were, and during how many a record was staged.
    pub(crate) commits: u64,
    pub(crate) meetings: u64,
    /// How many posts there were.
    pub(crate) posts: u64,
    /// How many rests were short.
    pub(crate) short: u64,
}

/// What is done before threads share the desk, which committer the vault has, and what each thread does.
pub(crate) struct Course {
    pub(crate) before: &'static [Before],
    pub(crate) committer: Committer,
    pub(crate) threads: &'static [&'static [Step]],
}

fn ending_of(end: CommitterEnd) -> Ending {
    match end {
        CommitterEnd::Finished => Ending::Finished,
        CommitterEnd::Halted(HaltCause::Halted) => Ending::Halted,
        CommitterEnd::Halted(HaltCause::OutOfMemory) => Ending::OutOfMemory,
        CommitterEnd::Halted(HaltCause::OutOfTurn) => Ending::OutOfTurn,
        CommitterEnd::Halted(HaltCause::Store(_)) => Ending::Store,
        CommitterEnd::Halted(_) => Ending::Otherwise,
    }
}

// Waits until the end was asked for.
fn wait_for_end<L: Ledger, I: LogId, R: Wait + Clock>(place: &Place<'_, L, I, R>) {
    let mut pass = Pass::new();
    for _ in 0..TURNS {
        if is_closing(place, &mut pass) {
            return;
        }
        wait_a_turn(place.rt);
    }
}

fn is_closing<L: Ledger, I: LogId, R: Wait>(place: &Place<'_, L, I, R>, pass: &mut Pass) -> bool {
    match place.shared.look(place.rt, pass) {
        Ok(locked) => locked.is_closing(),
        Err(_) => false,
    }
}

// Runs the committer of the vault to its end, if one runs.
fn run_committer<L: Ledger, I: LogId, K: Keeper + Drop, R: Wait + Clock>(
    place: &Place<'_, L, I, R>,
    logged: LoggedKeeper<I, K>,
    committer: &Committer,
) -> (LoggedKeeper<I, K>, Ending) {
    match committer {
        Committer::Without => return (logged, Ending::Without),
        Committer::Late | Committer::RefusedOnce | Committer::Refused => pause(place.rt),
        Committer::After(records) => {
            have_staged(place, *records);
        }
        Committer::Lacking(_) => place.shared.finish(place.rt),
        Committer::RefusedAtEnd => wait_for_end(place),
        Committer::Runs | Committer::LackingEach(_) | Committer::Held | Committer::TakenAway => {}
    }
    let (logged, end) = committer_run(place.rt, place.shared, logged);
    count(&place.seen.ended);
    (logged, ending_of(end.how()))
}

// Runs a thread for each table of steps, and the committer on this one.
fn run_all<
    L: Ledger + Send + Sync,
    I: LogId + Send + Sync,
    K: Keeper + Drop,
    R: Threads + Wait + Clock + Abort + Copy + Sync,
>(
    place: &Place<'_, L, I, R>,
    logged: LoggedKeeper<I, K>,
    course: &Course,
) -> (LoggedKeeper<I, K>, Ending) {
    let rt = place.rt;
    thread::scope(thread::scope_env(), rt, move |scope| {
        for steps in course.threads {
            let started = scope.spawn(move || place.walk(steps));
            holds(rt, started.is_ok(), "a thread starts");
        }
        run_committer(place, logged, &course.committer)
    })
}

// Whether no permit of the endpoints is out.
fn are_back<L: Ledger>(rt: &impl Abort, desk: &Desk<L>) -> bool {
    for text in &NAMES {
        if let Some(limits) = desk.limits(name(rt, text)) {
            if limits.in_flight > 0 {
                return false;
            }
        }
    }
    true
}

// What is so of a desk and its vault.
fn find<L: Ledger, S: Alter>(
    rt: &impl Abort,
    alloc: Global,
    desk: &Desk<L>,
    vault: &mut Vault<S>,
    seen: &Seen,
) -> Found {
    let settled = desk.settled_records();
    Found {
        has_begun: true,
        ending: Ending::Without,
        settled,
        records: desk.records(),
        is_halted: desk.is_halted(),
        is_kept: vault.next() == settled && audit(alloc, vault, desk).is_ok(),
        is_closed: vault.is_closed(),
        are_back: are_back(rt, desk),
        commits: so_far(&seen.commits),
        meetings: so_far(&seen.meetings),
        posts: so_far(&seen.posts),
        short: so_far(&seen.short),
    }
}

const NOTHING: Found = Found {
    has_begun: false,
    ending: Ending::Without,
    settled: 0,
    records: 0,
    is_halted: false,
    is_kept: false,
    is_closed: false,
    are_back: false,
    commits: 0,
    meetings: 0,
    posts: 0,
    short: 0,
};

// A run with logs of this id, of which nothing is proved.
fn run_named<
    L: Ledger + Send + Sync,
    I: LogId + Send + Sync,
    K: Keeper + Drop,
    R: Threads + Wait + Clock + Abort + Copy + Sync,
>(
    rt: &R,
    alloc: Global,
    new_log: NewLog,
    new_staged: NewLog,
    desk: Desk<L>,
    keeper: K,
    course: &Course,
    seen: &Seen,
) -> (Desk<L>, K, Ending)
    requires table { new_log ≡ I.table }
    requires staged { new_staged ≡ I.staged }
    requires start { I.start ≡ K.next keeper }
    requires no_base { (base : List Record) → I.is_base base → ⊥ }
{
    let (shared, logged) = begin_run::<L, I, K>(new_log, new_staged, desk, keeper);
    let place = Place {
        rt,
        alloc,
        shared: &shared,
        seen,
    };
    let (logged, ending) = run_all(&place, logged, course);
    (shared.into_desk(), logged.into_keeper(), ending)
}

fn run<L: Ledger + Send + Sync, S: Alter + Drop, R: Threads + Wait + Clock + Abort + Copy + Sync>(
    rt: &R,
    alloc: Global,
    desk: Desk<L>,
    vault: Vault<S>,
    course: &Course,
    case: usize,
) -> Found {
    let new_log = NewLog::new(alloc).expect(rt, "memory");
    let new_staged = NewLog::new(alloc).expect(rt, "memory");
    let seen = Arc::new(alloc, Seen::new(case)).expect(rt, "memory");
    let is_gone = matches!(course.committer, Committer::TakenAway);
    let watched = Watched {
        keeper: FileGuard::new(vault, Spot { is_gone }),
        refusals: course.committer.refusals(),
        again: course.committer.refusals_again(),
        holds_first: matches!(course.committer, Committer::Held),
        seen: seen.clone().expect(rt, "a count of owners"),
        rt: *rt,
    };
    let (desk, watched, ending) = run_named::<L, Brand, _, R>(
        rt, alloc, new_log, new_staged, desk, watched, course, &seen,
    );
    let mut vault = watched.keeper.into_keeper();
    let found = find(rt, alloc, &desk, &mut vault, &seen);
    Found { ending, ..found }
}

fn begin<L: Ledger + Send + Sync, S: Alter + Drop, R: Threads + Wait + Clock + Abort + Copy + Sync>(
    rt: &R,
    alloc: Global,
    desk: Desk<L>,
    vault: Vault<S>,
    course: &Course,
    case: usize,
) -> Found {
    let (mut desk, mut vault) = (desk, vault);
    if are_done(rt, alloc, &mut desk, &mut vault, course.before) {
        run(rt, alloc, desk, vault, course, case)
    } else {
        NOTHING
    }
}

fn open<L: Ledger + Send + Sync, S: Alter + Drop, R: Threads + Wait + Clock + Abort + Copy + Sync>(
    rt: &R,
    alloc: Global,
    blank: Blank,
    conn: Connection<S>,
    course: &Course,
    case: usize,
) -> Found
    requires name { blank.name ≡ L.name }
    requires parts { blank.parts ≡ L.parts }
    requires enough { blank.parts ≡ PARTS }
{
    assert!(rt; conn.is_autocommit());
    let Ok(vault) = Vault::create(conn, MARK) else {
        return NOTHING;
    };
    let desk = Desk::<L>::new(alloc, blank, MARK).expect(rt, "memory");
    begin(rt, alloc, desk, vault, course, case)
}

fn over<S: Alter + Drop, R: Threads + Wait + Clock + Abort + Copy + Sync>(
    rt: &R,
    alloc: Global,
    conn: Connection<S>,
    course: &Course,
    case: usize,
) -> Found {
    open::<Brand, S, R>(rt, alloc, Blank::new(PARTS), conn, course, case)
}

/// The course over the store of files, whose bytes are kept in memory. Its log takes so many calls.
pub(crate) fn in_files<R: Threads + Wait + Clock + Abort + Copy + Sync>(
    rt: &R,
    alloc: Global,
    calls: u64,
    course: &Course,
    case: usize,
) -> Found {
    let files = Files {
        log: Fuse::new(Memory::new(alloc), calls),
        db: Fuse::new(Memory::new(alloc), u64::MAX),
    };
    match Connection::open_files(alloc, files, Options::new(7)) {
        Ok(conn) => over::<FileStore<Fuse<Memory>>, R>(rt, alloc, conn, course, case),
        Err((_, _)) => NOTHING,
    }
}
