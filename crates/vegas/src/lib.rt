//! An adaptive concurrency limit: how many posts may be in flight to one endpoint, moved by the
//! round trips that it sees.
//!
//! The rule follows VegasLimit of Netflix concurrency-limits with smoothing 1, which brings the
//! window rule of TCP Vegas (Brakmo and Peterson, IEEE JSAC 13, 1995) to requests. It is computed
//! in whole numbers, with no rounding but the queue's, which is rounded up. The starting limit of
//! 20, the range of round trips, the probe after 30 samples for each of the limit, the handling of
//! the first sample, and the step with its thresholds of one, three and six steps are this
//! project's own choice.
//!
//! An estimator explains its limit: it keeps its last samples, and the numbers before them.
#![tactic(auto)]

mod estimator;
mod limits;
mod rules;
mod sample;
mod state;

pub use crate::estimator::Estimator;
pub use crate::limits::{FIRST_LIMIT, LAST_SAMPLES, MAX_ROUND_TRIP, SAMPLES_BY_LIMIT};
pub use crate::sample::Sample;
pub use crate::state::State;
