//! The opening of the file, during which the operator is told that it goes on.
ghost use Rattle.std.specs.Prelude.{◌≡◌};
ghost use Rattle.permits.specs.declared.pool.TheConstants.{PARTS};

use crate::operator_log::{LogLine, print_log_line};
use desk::Desk;
use permits::PARTS;
use recovery::open_path;
use spool::{OpenFault, Vault};
use sqlite::{FileFrom, FileStore, Unknown};
use std::alloc::AllocGlobal;
use std::io::Eprint;
use std::sync::ledger::{Blank, Ledger};
use std::sync::{Condvar, CondvarTimeouts, Mutex, Wait};
use std::thread;
use std::thread::Threads;
use std::time::{Clock, Duration};

const MARK: u64 = 0;

/// The operator is told of an opening every so many seconds.
const PROGRESS_SECONDS: u64 = 5;

// Whether an opening is over. It changes only under the lock, so the thread that tells misses no change.
#[derive(Drop)]
struct Progress {
    is_over: Mutex<bool>,
    changed: Condvar,
}

/// Opens the file, as `open_path` does. Until it is open a thread tells the operator for how long
/// it has lasted. Without memory for the thread it is opened all the same.
pub(crate) fn open_with_progress<L, R>(
    host: &HostRuntime,
    rt: &R,
    blank: Blank,
    file: &str,
) -> Result<(Desk<L>, Vault<FileStore<FileFrom<Unknown>>>), OpenFault>
where
    L: Ledger,
    R: Wait + Threads + Clock + AllocGlobal + Eprint + Sync,
    requires name { blank.name ≡ L.name }
    requires parts { blank.parts ≡ L.parts }
    requires enough { blank.parts ≡ PARTS }
{
    let progress = Progress::new();
    let shared = &progress;
    thread::scope(
        thread::scope_env(),
        rt,
        move |scope|
            requires name { blank.name ≡ L.name }
            requires parts { blank.parts ≡ L.parts }
            requires enough { blank.parts ≡ PARTS }
        {
            let _told = scope.spawn(move || shared.log_until_open(rt));
            let opened = open_path::<L, Unknown>(host, blank, file, Unknown, MARK);
            shared.end(rt);
            opened
        },
    )
}

impl Progress {
    fn new() -> Progress {
        Progress {
            is_over: Mutex::new(false),
            changed: Condvar::new(),
        }
    }

    fn end<R: Wait>(&self, rt: &R) {
        *self.is_over.lock(rt) = true;
        self.changed.notify_all();
    }

    // Whether it is over within so long.
    fn is_over_within<R: Wait + Clock>(&self, rt: &R, limit: Duration) -> bool {
        let is_over = self.is_over.lock(rt);
        let (is_over, _timed) = self
            .changed
            .wait_timeout_while(rt, is_over, limit, |is_over| !*is_over);
        *is_over
    }

    fn log_until_open<R: Wait + Clock + AllocGlobal + Eprint>(&self, rt: &R) {
        let mut seconds = PROGRESS_SECONDS;
        for _ in rt.forever() {
            if self.is_over_within(rt, Duration::from_secs(PROGRESS_SECONDS)) {
                return;
            }
            print_log_line(rt, rt.alloc(), &LogLine::Opening { seconds });
            seconds = seconds.saturating_add(PROGRESS_SECONDS);
        }
    }
}
