// How a command ends: the line of its fault, through writers that take little or nothing; no secret is refused.

use crate::streams::{Calls, Writer, holds};
use command_interface::{CommandFault, StoreFault, end};
use relay_types::ReadFault;
use std::alloc::{AllocError, Global};
use std::process::Abort;
use text_lines::{StreamFault, secrets_of, write_bytes};

/// How a writer takes its calls, and what it has of `staged 0` once it has failed.
#[derive(Clone, Copy)]
struct Cut {
    most: usize,
    good: u32,
    written: &'static str,
}

static CUTS: &[Cut] = &[
    Cut {
        most: 3,
        good: 2,
        written: "staged",
    },
    Cut {
        most: 100,
        good: 0,
        written: "",
    },
    // it takes no byte
    Cut {
        most: 0,
        good: u32::MAX,
        written: "",
    },
];

#[test]
fn ends_where_a_writer_fails(rt: HostRuntime) {
    for (place, cut) in CUTS.iter().enumerate() {
        let mut output = Writer::new(rt.alloc(), Calls::of(cut.most, cut.good));
        let written = write_bytes(&mut output, b"staged 0");
        holds(&rt, written == Err(StreamFault::Write), "fault", place);
        let is_cut = output.bytes.as_slice() == cut.written.as_bytes();
        holds(&rt, is_cut, "written", place);
    }
}

// A command line always has a secret.
#[test]
fn refuses_no_secret(rt: HostRuntime) {
    let none: &[&[u8]] = &[];
    let read = secrets_of(rt.alloc(), none);
    let is_refused = matches!(read, Err(ReadFault::BadSecret));
    holds(&rt, is_refused, "secrets", 0);
}

// The longest line.
static LAST_LINE: StreamFault = StreamFault::BadLine(u64::MAX);

fn tells(alloc: Global, rt: &impl Abort, fault: CommandFault, text: &str, status: u8) {
    let mut errors = Writer::new(alloc, Calls::slow(3));
    holds(rt, end(&mut errors, Err(fault)) == status, text, 0);
    holds(rt, errors.bytes.as_slice() == text.as_bytes(), text, 1);
}

// The faults that no other test tells.
#[test]
fn tells_each_fault(rt: HostRuntime) {
    tells(
        rt.alloc(),
        &rt,
        CommandFault::Ended(LAST_LINE),
        "relayd: line 18446744073709551615: bad line\n",
        2,
    );
    let alloc = rt.alloc();
    let lost = CommandFault::Ended(StreamFault::Lost);
    tells(alloc, &rt, lost, "relayd: Lost\n", 3);
    let no_memory = CommandFault::from(AllocError);
    tells(alloc, &rt, no_memory, "relayd: OutOfMemory\n", 3);
    tells_store(&rt, alloc, StoreFault::Busy, "relayd: Busy\n");
    tells_store(&rt, alloc, StoreFault::CannotOpen, "relayd: CannotOpen\n");
    tells_store(&rt, alloc, StoreFault::Corrupt, "relayd: Corrupt\n");
    tells_store(&rt, alloc, StoreFault::Full, "relayd: Full\n");
}

fn tells_store(rt: &impl Abort, alloc: Global, fault: StoreFault, text: &str) {
    tells(alloc, rt, CommandFault::Store(fault), text, 3);
}
