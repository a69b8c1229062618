//! Who tells the moment.
use relay_types::Moment;

/// Tells the moment, in seconds since the Unix epoch.
pub trait Clock {
    fn now(&self) -> Moment;
}
