//! Moments by the system's clock.
ghost use Rattle.std.specs.Prelude.{◌≡◌, min};
ghost use Rattle.relay_types.specs.declared.limits.TheConstants.{MAX_MOMENT};
ghost use Rattle.relay_host.specs.Clocks.{runtime_of};

use delivery::Clock;
use relay_types::{MAX_MOMENT, Moment};
use std::time::{Clock as SystemClock, SystemTime};

/// The system's clock. If it can't be read, or is before 1970, the moment is 0. After the greatest
/// moment it is that one.
#[derive(Clone, Copy)]
pub struct HostClock<'a, R> {
    rt: &'a R,
}

impl<'a, R> HostClock<'a, R> {
    /// The clock of this runtime.
    pub fn new(rt: &'a R) -> HostClock<'a, R>
        ensures { runtime_of result ≡ rt.now }
    {
        HostClock { rt }
    }
}

impl<R: SystemClock> Clock for HostClock<'_, R> {
    fn now(&self) -> Moment {
        moment_of(seconds(self.rt).unwrap_or(0))
    }
}

// Seconds since the Unix epoch, if the clock can be read.
fn seconds<R: SystemClock>(rt: &R) -> Option<u64> {
    let now = SystemTime::now(rt).ok()?;
    let since = now.duration_since(SystemTime::UNIX_EPOCH).ok()?;
    Some(since.as_secs())
}

/// The moment so many seconds after the Unix epoch, or the greatest one.
pub fn moment_of(seconds: u64) -> Moment
    ensures { result ≡ min seconds MAX_MOMENT }
{
    match Moment::of(seconds.min(MAX_MOMENT)) {
        Ok(moment) => moment,
        Err(_) => unreachable!(),
    }
}
