//! The desk's own limits. Those of histories are told by `relay_types`.

/// The most pending events of an endpoint.
pub const MAX_PENDING: u64 = 10_000;

/// The most pending events of all endpoints.
pub const MAX_PENDING_ALL: u64 = 50_000;
