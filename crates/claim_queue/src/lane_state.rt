//! What is kept of each endpoint.
use relay_types::Name;

/// What is kept of an endpoint: whether it has room for one more attempt, and how many more of its
/// deliveries there is a place for.
#[derive(Clone, Copy)]
pub struct LaneState {
    pub(crate) endpoint: Name,
    pub(crate) room: bool,
    pub(crate) free: usize,
}
