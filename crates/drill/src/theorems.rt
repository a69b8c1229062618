//! What follows from the definitions alone.
ghost use Rattle.drill.specs.AfterCrashes.{CallsKeepWhatWasShown, RestartsKeepWhatWasShown, RunsGoOn};
ghost use Rattle.drill.specs.AfterCrashes.{StopsKeepWhatWasShown};
ghost use Rattle.drill.specs.Refusals.{RefusalsOfMoves};
ghost use Rattle.drill.specs.Runs.{AreServedRunsComputed};
ghost use Rattle.drill.specs.BesideCommit.{CallsChangePlacesWithCommits, RunsKeepCountsInOrder};

use sqlite::Alter;
use std::sync::ledger::Ledger;

/// A law of scripts: the replies of a run are those that the moves compute, if none of them reports
/// out of memory or a fault of the store.
pub fn served_runs_are_computed()
    ensures { AreServedRunsComputed }
{}

/// A law of threads: commits commute with other threads' calls. Moving a commit before or after
/// calls that stage, claim, spend or look changes no reply, no last session and nothing that may
/// survive a crash. None of these calls shows a record of the batch.
pub fn calls_change_places_with_commits()
    ensures { CallsChangePlacesWithCommits }
{}

/// That law's condition holds for each session that a run reaches: no more steps are settled than
/// are sealed, and no more are sealed than there are.
pub fn runs_keep_counts_in_order()
    ensures { RunsKeepCountsInOrder }
{}

/// A law of refusals: no call of a run is refused as Closed, OutOfTurn or Illegal. Only a halt
/// while a receipt is out is refused as WrongTurn.
pub fn refusals_of_moves()
    ensures { RefusalsOfMoves }
{}

/// A law of runs: a run loses no step, and what is settled stays settled.
pub fn runs_go_on()
    ensures { RunsGoOn }
{}

/// A law of restarts: what was once shown as settled stays. Whatever survives a crash of a later
/// run has the same records in the same places, however many restarts lie between.
pub fn restarts_keep_what_was_shown()
    ensures { RestartsKeepWhatWasShown }
{}

/// The same law for scripts, whose stops are lines.
pub fn stops_keep_what_was_shown()
    ensures { StopsKeepWhatWasShown }
{}

/// The same by the contracts of `run`, of the `reopen` that follows a crash, and of the `run` after
/// it.
pub fn calls_keep_what_was_shown<L: Ledger, S: Alter>()
    ensures { CallsKeepWhatWasShown L S.Store }
{}
