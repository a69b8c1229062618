//! What the threads of a relay share.
ghost use Rattle.std.specs.Sync.Mutex.{mutex_guard_value};
ghost use Rattle.desk.specs.Desks.{IsCore};

use delivery::{Locked, Pass, Shared};
use intake_shed::LatestAck;
use run_log::LogId;
use std::alloc::{AllocError, Global};
use std::sync::atomic::{AtomicBool, AtomicU64, Ordering};
use std::sync::ledger::Ledger;
use std::sync::{Arc, Mutex, MutexGuard, Wait};

/// What the threads of a relay share.
#[derive(Drop)]
pub(crate) struct Relay<L: Ledger, I: LogId> {
    pub(crate) shared: Arc<Shared<L, I>>,
    /// For each thread that takes requests, its acknowledgement with the greatest number.
    pub(crate) latest: Vec<Arc<Mutex<LatestAck<I>>>>,
    /// How many requests were answered.
    pub(crate) answered: Arc<AtomicU64>,
    lacks_thread: AtomicBool,
    // How many threads take requests.
    running: AtomicU64,
}

impl<L: Ledger, I: LogId> Relay<L, I> {
    // A relay of which so many threads will take requests.
    pub(crate) fn new(
        alloc: Global,
        shared: Shared<L, I>,
        intake: u64,
    ) -> Result<Relay<L, I>, AllocError> {
        let mut latest = Vec::new(alloc);
        for _ in 0..intake {
            latest.push(Arc::new(alloc, Mutex::new(LatestAck::new()))?)?;
        }
        Ok(Relay {
            shared: Arc::new(alloc, shared)?,
            latest,
            answered: Arc::new(alloc, AtomicU64::new(0))?,
            lacks_thread: AtomicBool::new(false),
            running: AtomicU64::new(0),
        })
    }

    // A thread couldn't be started: the relay ends.
    pub(crate) fn fail_to_start<R: Wait>(&self, rt: &R) {
        self.lacks_thread.store(true, Ordering::SeqCst);
        self.shared.finish(rt);
    }

    // A thread is about to take requests.
    pub(crate) fn start(&self) {
        self.running.fetch_add(1, Ordering::SeqCst);
    }

    // It takes none any more.
    pub(crate) fn stop(&self) {
        self.running.fetch_sub(1, Ordering::SeqCst);
    }

    // How many threads take requests.
    pub(crate) fn running(&self) -> u64 {
        self.running.load(Ordering::SeqCst)
    }

    pub(crate) fn lacks_thread(&self) -> bool {
        self.lacks_thread.load(Ordering::SeqCst)
    }

    // The desk, to be looked at. A new pass has seen nothing, so the desk can't have gone back.
    pub(crate) fn look<R: Wait>(&self, rt: &R) -> MutexGuard<'_, Locked<L, I>>
        ensures { IsCore (mutex_guard_value result).desk }
    {
        let Ok(locked) = self.shared.look(rt, &mut Pass::new()) else {
            unreachable!()
        };
        locked
    }

    pub(crate) fn is_closing<R: Wait>(&self, rt: &R) -> bool {
        self.look(rt).is_closing()
    }

    // Ends the relay once so many requests are answered, 0 for never.
    pub(crate) fn end_after<R: Wait>(&self, rt: &R, requests: u64) {
        if requests > 0 && self.answered.load(Ordering::SeqCst) >= requests {
            self.shared.finish(rt);
        }
    }
}
