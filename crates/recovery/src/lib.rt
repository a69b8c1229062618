//! Openings, which give a desk and a vault of one world, and the audit that compares the two later.
#![tactic(auto)]

mod audited;
mod audits;
mod file;
mod opening;
mod reading;
mod reopening;

pub use crate::audited::{Audited, audit_shown};
pub use crate::audits::{AuditFault, audit};
pub use crate::file::{connect, is_new_file, open, open_path};
pub use crate::opening::create;
pub use crate::reopening::reopen;
