//! What the book tells of an endpoint.

use relay_types::{MaxLimit, Name, Target};

/// An endpoint as the settled records have it.
#[derive(Clone, Copy)]
pub struct EndpointView<'a> {
    pub name: Name,
    pub target: &'a Target,
    pub max: MaxLimit,
    pub enabled: bool,
    /// How many secrets it has.
    pub secrets: usize,
}
