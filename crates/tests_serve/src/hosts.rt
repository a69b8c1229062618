//! Ids of given bytes, and moments by given clocks.

use crate::given::holds;
use delivery::Clock;
use relay_host::{HostClock, RandomBytes, fresh_id, fresh_id_from, moment_of};
use std::io::{self, ErrorKind};
use std::process::Abort;
use std::test::Fail;
use std::time::{Clock as SystemClock, Duration};

/// The bytes of the example of RFC 9562 (appendix A.3), with other bits in place of the six that
/// say the version and the variant.
const BYTES: [u8; 16] = [
    0x91, 0x91, 0x08, 0xf7, 0x52, 0xd1, 0xf3, 0x20, 0xdb, 0xac, 0xf8, 0x47, 0xdb, 0x41, 0x48, 0xa8,
];

const ID: &[u8] = b"msg_919108f7-52d1-4320-9bac-f847db4148a8";

#[derive(Drop)]
struct Given;

impl RandomBytes for Given {
    fn sixteen(&self) -> io::Result<[u8; 16]> {
        Ok(BYTES)
    }
}

#[derive(Drop)]
struct Exhausted;

impl RandomBytes for Exhausted {
    fn sixteen(&self) -> io::Result<[u8; 16]> {
        Err(ErrorKind::WouldBlock.into())
    }
}

fn is_id(rt: &impl Abort) -> io::Result<()> {
    let id = fresh_id_from(&Given)?;
    holds(rt, id.as_bytes() == ID, "the id of the given bytes");
    holds(
        rt,
        fresh_id_from(&Exhausted).is_err(),
        "no id without bytes",
    );
    Ok(())
}

#[test]
fn an_id_has_the_bits_of_its_source(rt: HostRuntime) -> Result<(), Fail> {
    Ok(is_id(&rt)?)
}

#[test]
fn ids_are_different(rt: HostRuntime) -> Result<(), Fail> {
    holds(&rt, fresh_id(&rt)? != fresh_id(&rt)?, "another id");
    Ok(())
}

/// The greatest moment.
const GREATEST: u64 = 1_099_511_627_776;

#[test]
fn a_moment_stays_in_its_bounds(rt: HostRuntime) {
    holds(&rt, moment_of(0).seconds() == 0, "the epoch");
    holds(&rt, moment_of(1_000).seconds() == 1_000, "a moment");
    holds(
        &rt,
        moment_of(GREATEST).seconds() == GREATEST,
        "the greatest",
    );
    holds(
        &rt,
        moment_of(u64::MAX).seconds() == GREATEST,
        "a later one",
    );
}

/// A clock that says so many milliseconds since 1970, or can't be read.
#[derive(Drop)]
struct Standing(Option<u64>);

impl SystemClock for Standing {
    fn monotonic(&self) -> io::Result<Duration> {
        Ok(Duration::ZERO)
    }

    fn since_1970(&self) -> io::Result<Duration> {
        match self.0 {
            Some(millis) => Ok(Duration::from_millis(millis)),
            None => Err(ErrorKind::Unsupported.into()),
        }
    }
}

// The moment by such a clock.
fn moment_by(millis: Option<u64>) -> u64 {
    HostClock::new(&Standing(millis)).now().seconds()
}

#[test]
fn a_clock_says_whole_seconds(rt: HostRuntime) {
    holds(&rt, moment_by(Some(1_000_900)) == 1_000, "whole seconds");
    holds(&rt, moment_by(None) == 0, "a clock that can't be read");
    let later = moment_by(Some(2_000_000_000_000_000));
    holds(&rt, later == GREATEST, "after the greatest moment");
}
