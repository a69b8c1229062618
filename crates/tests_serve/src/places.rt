//! Files that can't be looked at, or are taken away, and why a relay halts.

use crate::given::holds;
use delivery::HaltCause;
use relay_host::{FileCheck, FilePlace, Place, fresh_id};
use relay_serve::halt_text;
use std::alloc::{Allocator, Global};
use std::fs::{self, File, Files, Metadata, OpenOptions};
use std::io::{self, Empty, ErrorKind};
use std::os::unix::fs::{MetadataExt, symlink};
use std::process::Abort;
use std::str;
use std::sync::atomic::{AtomicBool, AtomicU64, Ordering};
use std::test::Fail;
use std::time::{Clock, Duration};

/// A file that is at its path, maybe with a log, once so many looks at it were refused with this
/// number (errno of Linux), and a clock by which nobody waits.
#[derive(Drop)]
struct Hidden {
    number: i32,
    refusals: AtomicU64,
    slept: AtomicU64,
    has_log: AtomicBool,
}

fn hidden_by(number: i32) -> Hidden {
    Hidden {
        number,
        refusals: AtomicU64::new(0),
        slept: AtomicU64::new(0),
        has_log: AtomicBool::new(false),
    }
}

impl Files for Hidden {
    type File = File;

    type Dir = Empty;

    fn open_file(&self, _how: &OpenOptions, _path: &str) -> io::Result<File> {
        Err(ErrorKind::Unsupported.into())
    }

    fn open_dir(&self, _path: &str) -> io::Result<Empty> {
        Err(ErrorKind::Unsupported.into())
    }

    fn metadata(&self, path: &str) -> io::Result<Metadata> {
        if path.ends_with("-wal") {
            return if self.has_log.load(Ordering::SeqCst) {
                Ok(Metadata::of_file(0))
            } else {
                Err(ErrorKind::NotFound.into())
            };
        }
        let left = self.refusals.load(Ordering::SeqCst);
        if left == 0 {
            return Ok(Metadata::of_file(4096));
        }
        self.refusals.store(left - 1, Ordering::SeqCst);
        Err(io::Error::from_raw_os_error(self.number))
    }

    fn symlink_metadata(&self, path: &str) -> io::Result<Metadata> {
        self.metadata(path)
    }

    fn copy(&self, _from: &str, _to: &str) -> io::Result<u64> {
        Err(ErrorKind::Unsupported.into())
    }

    fn rename(&self, _from: &str, _to: &str) -> io::Result<()> {
        Err(ErrorKind::Unsupported.into())
    }

    fn remove_file(&self, _path: &str) -> io::Result<()> {
        Err(ErrorKind::Unsupported.into())
    }

    fn create_dir(&self, _path: &str) -> io::Result<()> {
        Err(ErrorKind::Unsupported.into())
    }

    fn remove_dir(&self, _path: &str) -> io::Result<()> {
        Err(ErrorKind::Unsupported.into())
    }

    fn remove_dir_all<B: Allocator>(&self, _alloc: B, _path: &str) -> io::Result<()> {
        Err(ErrorKind::Unsupported.into())
    }
}

impl Clock for Hidden {
    fn monotonic(&self) -> io::Result<Duration> {
        Ok(Duration::ZERO)
    }

    fn since_1970(&self) -> io::Result<Duration> {
        Ok(Duration::ZERO)
    }

    fn sleep(&self, duration: Duration) {
        let millis = u64::try_from(duration.as_millis()).unwrap_or(0);
        self.slept.fetch_add(millis, Ordering::SeqCst);
    }
}

/// How many looks are refused once the file is known, with which number, and what the next look
/// finds, after so many milliseconds.
struct Case {
    name: &'static str,
    refusals: u64,
    number: i32,
    finds: FileCheck,
    slept: u64,
}

static CASES: [Case; 9] = [
    Case {
        name: "nothing is refused",
        refusals: 0,
        number: 0,
        finds: FileCheck::Stands,
        slept: 0,
    },
    Case {
        name: "a folder without rights, for a moment",
        refusals: 3,
        number: 13,
        finds: FileCheck::Stands,
        slept: 300,
    },
    Case {
        name: "a disk that doesn't answer, for ten seconds",
        refusals: 100,
        number: 5,
        finds: FileCheck::Stands,
        slept: 10_000,
    },
    Case {
        name: "a disk that doesn't answer any more",
        refusals: 1000,
        number: 5,
        finds: FileCheck::Unseen,
        slept: 10_000,
    },
    Case {
        name: "a handle of another file server",
        refusals: 1000,
        number: 116,
        finds: FileCheck::Unseen,
        slept: 10_000,
    },
    Case {
        name: "no file",
        refusals: 1,
        number: 2,
        finds: FileCheck::Gone,
        slept: 0,
    },
    Case {
        name: "a file in place of its folder",
        refusals: 1,
        number: 20,
        finds: FileCheck::Gone,
        slept: 0,
    },
    Case {
        name: "links in a ring",
        refusals: 1,
        number: 40,
        finds: FileCheck::Gone,
        slept: 0,
    },
    Case {
        name: "no memory",
        refusals: 1,
        number: 12,
        finds: FileCheck::OutOfMemory,
        slept: 0,
    },
];

fn look<R: Abort>(rt: &R, alloc: Global, case: &Case) -> io::Result<()> {
    let files = hidden_by(case.number);
    let mut place = FilePlace::new(&files, alloc, "relay.db")?;
    place.remember();
    files.refusals.store(case.refusals, Ordering::SeqCst);
    holds(rt, place.look() == case.finds, case.name);
    holds(
        rt,
        files.slept.load(Ordering::SeqCst) == case.slept,
        case.name,
    );
    Ok(())
}

#[test]
fn a_file_that_is_hidden_is_looked_at_again(rt: HostRuntime) -> Result<(), Fail> {
    for case in &CASES {
        look(&rt, rt.alloc(), case)?;
    }
    Ok(())
}

/// Whether there is a log when the place is remembered, at a look and at a second one, and what that finds.
struct LogCase {
    logs: (bool, bool, bool),
    finds: FileCheck,
}

static LOGS: [LogCase; 5] = [
    LogCase {
        logs: (false, false, false),
        finds: FileCheck::Stands,
    },
    LogCase {
        logs: (true, true, true),
        finds: FileCheck::Stands,
    },
    LogCase {
        logs: (true, true, false),
        finds: FileCheck::Gone,
    },
    LogCase {
        logs: (false, true, true),
        finds: FileCheck::Stands,
    },
    LogCase {
        logs: (false, true, false),
        finds: FileCheck::Gone,
    },
];

// What the second look finds.
fn look_twice(alloc: Global, case: &LogCase) -> io::Result<FileCheck> {
    let files = hidden_by(0);
    let mut place = FilePlace::new(&files, alloc, "relay.db")?;
    files.has_log.store(case.logs.0, Ordering::SeqCst);
    place.remember();
    files.has_log.store(case.logs.1, Ordering::SeqCst);
    let _seen = place.look();
    files.has_log.store(case.logs.2, Ordering::SeqCst);
    Ok(place.look())
}

#[test]
fn a_log_belongs_to_its_file(rt: HostRuntime) -> Result<(), Fail> {
    for (place, case) in LOGS.iter().enumerate() {
        let found = look_twice(rt.alloc(), case)?;
        assert!(rt; found == case.finds, "the log of case {place}");
    }
    Ok(())
}

// What a look finds once another file took the place of the one that was remembered.
fn replaced<F: Files + Clock>(
    files: &F,
    alloc: Global,
    path: &str,
    other: &str,
) -> io::Result<FileCheck> {
    fs::write(files, path, "a")?;
    let mut place = FilePlace::new(files, alloc, path)?;
    place.remember();
    fs::write(files, other, "b")?;
    fs::rename(files, other, path)?;
    let found = place.look();
    fs::remove_file(files, path)?;
    Ok(found)
}

#[test]
fn a_file_that_is_replaced_is_gone(rt: HostRuntime) -> Result<(), Fail> {
    let id = fresh_id(&rt)?;
    let name = str::from_utf8(id.as_bytes())?;
    let path = format!(in rt.alloc(); "/tmp/{name}")?;
    let other = format!(in rt.alloc(); "/tmp/{name}.other")?;
    let found = replaced(&rt, rt.alloc(), path.as_str(), other.as_str())?;
    holds(&rt, found == FileCheck::Gone, "another file is at the path");
    Ok(())
}

/// Where the link at the path leads when it is remembered and at the next look, and what that
/// finds. Both files have the same number.
struct LinkCase {
    name: &'static str,
    leads: (&'static str, &'static str),
    finds: FileCheck,
}

static LINKS: [LinkCase; 2] = [
    LinkCase {
        name: "another link to the same file",
        leads: ("/proc", "/proc"),
        finds: FileCheck::Stands,
    },
    LinkCase {
        name: "a file on another device",
        leads: ("/proc", "/sys"),
        finds: FileCheck::Gone,
    },
];

// Whether the two files have one number.
fn are_alike<F: Files>(files: &F, leads: (&str, &str)) -> io::Result<bool> {
    Ok(fs::metadata(files, leads.0)?.ino() == fs::metadata(files, leads.1)?.ino())
}

// What a look finds once the link at the path leads to another file than the one that was remembered.
fn led<F: Files + Clock>(
    files: &F,
    alloc: Global,
    path: &str,
    leads: (&str, &str),
) -> io::Result<FileCheck> {
    symlink(files, leads.0, path)?;
    let mut place = FilePlace::new(files, alloc, path)?;
    place.remember();
    fs::remove_file(files, path)?;
    symlink(files, leads.1, path)?;
    let found = place.look();
    fs::remove_file(files, path)?;
    Ok(found)
}

#[test]
fn a_file_on_another_device_is_another(rt: HostRuntime) -> Result<(), Fail> {
    let id = fresh_id(&rt)?;
    let name = str::from_utf8(id.as_bytes())?;
    let path = format!(in rt.alloc(); "/tmp/{name}")?;
    for case in &LINKS {
        holds(&rt, are_alike(&rt, case.leads)?, "they have one number");
        let found = led(&rt, rt.alloc(), path.as_str(), case.leads)?;
        holds(&rt, found == case.finds, case.name);
    }
    Ok(())
}

/// Why a committer gave up, what the last look found, and what the operator reads.
struct HaltCase {
    cause: HaltCause,
    check: FileCheck,
    told: &'static str,
}

static HALTS: [HaltCase; 7] = [
    HaltCase {
        cause: HaltCause::OutOfTurn,
        check: FileCheck::Stands,
        told: "a batch was out of turn",
    },
    HaltCase {
        cause: HaltCause::OutOfTurn,
        check: FileCheck::Gone,
        told: "the file isn't the one that was opened",
    },
    HaltCase {
        cause: HaltCause::OutOfTurn,
        check: FileCheck::Unseen,
        told: "the file can't be looked at",
    },
    HaltCase {
        cause: HaltCause::OutOfMemory,
        check: FileCheck::OutOfMemory,
        told: "out of memory nine times in a row",
    },
    HaltCase {
        cause: HaltCause::Closed,
        check: FileCheck::Gone,
        told: "the result of an earlier commit is unknown",
    },
    HaltCase {
        cause: HaltCause::Illegal,
        check: FileCheck::Stands,
        told: "a record is invalid after those in the store",
    },
    HaltCase {
        cause: HaltCause::Halted,
        check: FileCheck::Stands,
        told: "the relay had halted before",
    },
];

#[test]
fn a_halt_is_told_by_its_cause(rt: HostRuntime) {
    for case in &HALTS {
        let told = halt_text(case.cause, case.check);
        holds(&rt, told == case.told, case.told);
    }
}
