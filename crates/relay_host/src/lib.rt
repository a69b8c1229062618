//! What the system gives a relay: ids that nobody used before, the moment, and whether its file is
//! still at its path.
#![tactic(auto)]

mod file_guard;
mod fresh;
mod moment;
mod place;

pub use crate::file_guard::FileGuard;
pub use crate::fresh::{RandomBytes, fresh_id, fresh_id_from};
pub use crate::moment::{HostClock, moment_of};
pub use crate::place::{FileCheck, FilePlace, Place};
