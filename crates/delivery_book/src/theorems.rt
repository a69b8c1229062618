//! Laws that contracts rest on.
ghost use Rattle.delivery_book.specs.Laws.{OthersLeave, RestoredStand};

/// Records of endpoints need no call of the book. It represents the history with a Put, Secrets, Enabled or Subscribed
/// added as it did before.
pub fn endpoint_records_leave()
    ensures { OthersLeave }
{}

/// A book in which the events of a history were taken in and their outcomes restored stands for the history once it is
/// settled to its end.
pub fn restored_books_stand()
    ensures { RestoredStand }
{}
