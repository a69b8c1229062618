//! How long to wait after a failure.
ghost use Rattle.std.specs.Prelude.{◌≡◌, ◌≤◌};
ghost use Rattle.relay_types.specs.Judging.{delay_after};

const DELAYS: [u32; 9] = [5, 300, 1800, 7200, 18000, 36000, 50400, 72000, 86400];

/// The seconds from an event's failed outcome number `failures` to its next attempt. The tenth
/// failure has no delay, since no attempt follows it.
pub fn delay_after(failures: u32) -> u32
    requires first { 1 ≤ failures }
    requires ninth { failures ≤ 9 }
    ensures { result ≡ delay_after failures }
{
    DELAYS[failures as usize - 1]
}
