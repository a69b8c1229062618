//! What was read so far of the events and their attempts.
ghost use Rattle.std.specs.Prelude.{◌≡◌, []};

use delivery_book::DeliveryBook;
use relay_types::Moment;

/// The events that were read so far, and the greatest moment of all rows that were.
#[derive(Drop)]
pub struct Deliveries {
    /// Their book. No outcome waits in it.
    pub book: DeliveryBook,
    /// That moment.
    pub clock: Moment,
    ghost none_waits: { book.unsettled ≡ [] },
}
