//! Runs of the relay's core by a script: each line is a call of the desk or a commit of the store,
//! and is answered by its reply.
#![tactic(auto)]

mod attempts;
mod batches;
mod calls;
mod commit;
mod events;
mod held;
mod player;
mod player_lines;
mod prepared;
mod queries;
mod replies;
mod requests;
mod runner;
mod runs;
mod scripts;
mod theorems;
mod tickets;
mod unrecorded;

pub use crate::events::{Event, Look, Reply};
pub use crate::runs::{World, run};
pub use crate::scripts::replay;
pub use crate::theorems::{
    calls_change_places_with_commits, calls_keep_what_was_shown, refusals_of_moves,
    restarts_keep_what_was_shown, runs_go_on, runs_keep_counts_in_order, served_runs_are_computed,
    stops_keep_what_was_shown,
};
pub use crate::unrecorded::attempts_are_pending_again;
