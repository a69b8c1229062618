//! Where a delivery stands.

/// Where a delivery stands: an event is pending until a post delivered it or the tenth post failed.
#[derive(Clone, Copy, PartialEq, Eq, Debug)]
pub enum State {
    Pending,
    Delivered,
    Exhausted,
}
