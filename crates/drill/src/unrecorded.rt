//! What follows from the definitions alone about attempts whose outcome isn't settled.
ghost use Rattle.drill.specs.Worlds.{AreAttemptsPendingAgain};

/// A law of runs from an opening: in whatever survives a crash, each event with an attempt whose
/// outcome isn't there is pending, under its endpoint and its id, and has only one such attempt.
pub fn attempts_are_pending_again()
    ensures { AreAttemptsPendingAgain }
{}
