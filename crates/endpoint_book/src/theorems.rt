//! Laws that contracts rest on.
ghost use Rattle.endpoint_book.specs.Laws.{OthersLeave, IdleLeave, RestoredStand};

/// Accepts, Purges, and Outcomes that don't say that the endpoint is gone, need no call of the book. It represents the
/// history with one of them added as it did before.
pub fn other_records_leave()
    ensures { OthersLeave }
{}

/// Nor does any record need one that leaves each endpoint as it was, as one that enables what is enabled.
pub fn idle_records_leave()
    ensures { IdleLeave }
{}

/// A book in which the endpoints of a history were restored, each as the whole history left it, stands for the history
/// once it is settled to its end.
pub fn restored_books_stand()
    ensures { RestoredStand }
{}
