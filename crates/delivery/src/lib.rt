//! The threads that share a desk: those who submit, a round of a worker, and the committer.
#![tactic(auto)]

mod clock;
mod committer;
mod keeper;
mod locked;
mod logged_keeper;
mod pass;
mod run;
mod shared;
mod staged;
mod worker;

pub use crate::clock::Clock;
pub use crate::committer::{CommitterEnd, HaltCause, MAX_REFUSALS, PAUSE_MILLIS, committer_run};
pub use crate::keeper::Keeper;
pub use crate::locked::{Ended, Locked};
pub use crate::logged_keeper::{Committed, LoggedKeeper};
pub use crate::pass::{Pass, WentBack};
pub use crate::run::begin_run;
pub use crate::shared::{REST_SECONDS, Shared};
pub use crate::staged::{Published, StagedChange};
pub use crate::worker::{Round, request_of, worker_round};
