//! Whether a file is still where it was opened.
ghost use Rattle.std.specs.Prelude.{◌≡◌, ◌↔◌, ◌⊎◌, true, false, None, IsSome, IfOk, IfErr};
ghost use Rattle.std.specs.IoError.{error_kind};
ghost use Rattle.relay_host.specs.FileGuards.{IsPlaceOf, IsCheckOf};
ghost use Rattle.relay_host.specs.FileChecks.{check_of_error};
ghost use Rattle.relay_host.specs.declared.place.FileCheck.{FileCheck};

use std::alloc::{AllocError, Global};
use std::fs::Files;
use std::io::{self, ErrorKind};
use std::os::unix::fs::MetadataExt;
use std::time::{Clock, Duration};
use std::{fs, thread};

/// How often a file that can't be seen is looked at, and with which pause between: for ten seconds.
const LOOKS: u32 = 101;

const PAUSE_MILLIS: u64 = 100;

/// What a look at a place finds.
#[derive(Clone, Copy, PartialEq, Eq, Debug)]
pub enum FileCheck {
    /// What was opened is there.
    Stands,
    /// Nothing is there, or something else.
    Gone,
    /// The system doesn't show it, for example because rights are missing or it doesn't answer.
    Unseen,
    /// An allocation failed.
    OutOfMemory,
}

/// A place at which something was opened. It names what a look may find, and its state after that.
pub trait Place {
    ghost use Rattle.std.specs.Prelude.{⊤};
    ghost use Rattle.relay_host.specs.declared.place.FileCheck.{FileCheck};

    ghost finds: { Self → Self → FileCheck → Type 0 } = { λ _ _ _. ⊤ };

    /// Looks what is there now.
    fn look(&mut self) -> FileCheck
        ensures { finds self.old self.new result };
}

/// A file and its log at their paths. Device and number, as `stat` gives them (POSIX.1-2017),
/// distinguish them from others. If the path leads to the file by a link, its log isn't looked at.
#[derive(Drop)]
pub struct FilePlace<'a, F: Files + Clock> {
    files: &'a F,
    path: &'a str,
    log_path: String,
    is_known: bool,
    file: Option<Node>,
    log: Option<Node>,
}

// Which file something is: its device, and its number there.
#[derive(Clone, Copy, PartialEq, Eq)]
struct Node {
    device: u64,
    number: u64,
}

impl<'a, F: Files + Clock> FilePlace<'a, F> {
    /// The place of a file that isn't opened yet.
    pub fn new(files: &'a F, alloc: Global, path: &'a str) -> Result<FilePlace<'a, F>, AllocError>
        ensures { IfOk result (IsPlaceOf path.now) }
    {
        let log_path = format!(in alloc; "{path}-wal")?;
        Ok(FilePlace {
            files,
            path,
            log_path,
            is_known: false,
            file: None,
            log: None,
        })
    }

    /// Takes what is there now for what was opened. If it can't be seen, the next look takes it. It
    /// changes the same as a look.
    pub fn remember(&mut self)
        ensures { (check : FileCheck) × IsCheckOf self.old self.new check }
    {
        let _seen = self.look();
    }

    // One look.
    fn glance(&mut self) -> FileCheck
        ensures { IsCheckOf self.old self.new result }
    {
        match (
            node_at(self.files, self.path),
            node_at(self.files, self.log_path.as_str()),
        ) {
            (Ok(file), Ok(log)) => self.sees(file, log),
            (Err(unseen), _) | (_, Err(unseen)) => unseen,
        }
    }

    // Compares what is there with what was opened.
    fn sees(&mut self, file: Option<Node>, log: Option<Node>) -> FileCheck
        ensures file_path { self.new.path ≡ self.old.path }
        ensures log_path { self.new.log_path ≡ self.old.log_path }
        ensures known { self.new.is_known ≡ true }
        ensures first { self.old.is_known ≡ false → self.new.file ≡ file }
        ensures file { self.old.is_known ≡ true → self.new.file ≡ self.old.file }
        ensures first_log { self.old.log ≡ None → self.new.log ≡ log }
        ensures log { IsSome self.old.log → self.new.log ≡ self.old.log }
        ensures stands { (result ≡ FileCheck.Stands) ↔ (IsSome self.new.file × (self.new.file ≡ file)
            × (self.new.log ≡ log)) }
        ensures gone { (result ≡ FileCheck.Stands) ⊎ (result ≡ FileCheck.Gone) }
    {
        if !self.is_known {
            self.is_known = true;
            self.file = file;
        }
        if self.log.is_none() {
            self.log = log;
        }
        if self.file.is_some() && self.file == file && self.log == log {
            FileCheck::Stands
        } else {
            FileCheck::Gone
        }
    }
}

impl<F: Files + Clock> Place for FilePlace<'_, F> {
    ghost use Rattle.relay_host.specs.FileGuards.{IsCheckOf};

    ghost finds = { IsCheckOf };

    /// The first look that finds out what is there takes that for what was opened. A log that
    /// wasn't there before is the file's own from then on. A file that can't be seen is looked at
    /// again, for ten seconds at most.
    fn look(&mut self) -> FileCheck {
        for _ in 1..LOOKS {
            match self.glance() {
                FileCheck::Unseen => thread::sleep(self.files, Duration::from_millis(PAUSE_MILLIS)),
                check => return check,
            }
        }
        self.glance()
    }
}

// Which file is at the path, if one is, or why that can't be found out.
fn node_at<F: Files>(files: &F, path: &str) -> Result<Option<Node>, FileCheck>
    ensures { IfErr result (λ check. (check ≡ FileCheck.Unseen) ⊎ (check ≡ FileCheck.OutOfMemory)) }
{
    match fs::metadata(files, path) {
        Ok(found) => Ok(Some(Node {
            device: found.dev(),
            number: found.ino(),
        })),
        Err(error) => match check_of_error(error) {
            FileCheck::Gone => Ok(None),
            unseen => Err(unseen),
        },
    }
}

// What an error of a look means: that nothing is at the path, or that what is there can't be seen.
fn check_of_error(error: io::Error) -> FileCheck
    ensures { result ≡ check_of_error (error_kind error) }
{
    match error.kind() {
        ErrorKind::NotFound | ErrorKind::NotADirectory | ErrorKind::FilesystemLoop =>
            FileCheck::Gone,
        ErrorKind::OutOfMemory => FileCheck::OutOfMemory,
        _ => FileCheck::Unseen,
    }
}
