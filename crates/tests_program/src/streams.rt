// A writer in memory that takes little at a call, is interrupted or fails.

use std::alloc::Global;
use std::io::{self, ErrorKind, Write};
use std::process::Abort;

// How the calls of a writer end.
#[derive(Clone, Copy)]
pub(crate) struct Calls {
    // The most bytes of a call.
    most: usize,
    // How many calls don't fail.
    good: u32,
    // Which of them is interrupted, from 1.
    interrupted: u32,
    made: u32,
}

impl Calls {
    const WHOLE: Calls = Calls {
        most: usize::MAX,
        good: u32::MAX,
        interrupted: 0,
        made: 0,
    };

    // At most so many bytes at a call, and then a failure after so many calls.
    pub(crate) fn of(most: usize, good: u32) -> Calls {
        Calls {
            most,
            good,
            ..Calls::WHOLE
        }
    }

    // One byte at a call, of which this one is interrupted.
    pub(crate) fn slow(interrupted: u32) -> Calls {
        Calls {
            most: 1,
            interrupted,
            ..Calls::WHOLE
        }
    }

    // How many bytes the next call has room for.
    fn next(&mut self) -> io::Result<usize> {
        self.made = self.made.saturating_add(1);
        if self.made == self.interrupted {
            return Err(io::Error::from(ErrorKind::Interrupted));
        }
        if self.made > self.good {
            return Err(io::Error::from(ErrorKind::BrokenPipe));
        }
        Ok(self.most)
    }
}

#[derive(Drop)]
pub(crate) struct Writer {
    pub(crate) bytes: Vec<u8>,
    calls: Calls,
}

impl Writer {
    pub(crate) fn new(alloc: Global, calls: Calls) -> Writer {
        Writer {
            bytes: Vec::new(alloc),
            calls,
        }
    }
}

impl Write for Writer {
    fn write(&mut self, buf: &[u8]) -> io::Result<usize> {
        let count = self.calls.next()?.min(buf.len());
        self.bytes.extend_from_slice(&buf[..count])?;
        Ok(count)
    }

    fn flush(&mut self) -> io::Result<()> {
        Ok(())
    }
}

pub(crate) fn holds(rt: &impl Abort, is: bool, what: &str, place: usize) {
    assert!(rt; is, "{what} at {place}");
}
