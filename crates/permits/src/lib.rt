//! Permits to post. A pool hands one out for each attempt that may run and takes it back once the
//! attempt is over. A permit can't be dropped, copied or made anywhere else, and holds one unit of
//! a ledger whose book stands in its pool.
#![tactic(auto)]

mod permit;
mod pool;
mod refusal;
mod row;

pub use crate::permit::Permit;
pub use crate::pool::{MAX_PERMITS, PARTS, Pool};
pub use crate::refusal::{Foreign, Refused};
pub use crate::row::Row;
