//! What came of a post, and what follows from it: what its permit is spent as, what it tells of the
//! endpoint's speed, which status is recorded, what that status means for the event, and how long
//! to wait after a failure. Nothing here takes memory.
#![tactic(auto)]

mod delay;
mod post;
mod status;
mod verdict;

pub use crate::delay::delay_after;
pub use crate::post::{Measured, PostResult, Spend, judge, measure};
pub use crate::status::{Status, is_status};
pub use crate::verdict::{Verdict, is_delivered, is_failed, is_gone, verdict_of};
