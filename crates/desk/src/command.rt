//! The changes of an endpoint.
use relay_types::{MaxLimit, Moment, Name, Secrets, Target};

/// A change of an endpoint.
#[derive(Drop)]
pub enum Command {
    /// A new endpoint.
    PutEndpoint {
        name: Name,
        target: Target,
        max: MaxLimit,
        secrets: Secrets,
    },
    /// Other secrets in place of those that it has.
    SetSecrets {
        name: Name,
        secrets: Secrets,
    },
    /// Whether it is posted to.
    SetEnabled {
        name: Name,
        flag: bool,
    },
    /// Whether it is subscribed to the topic.
    SetSubscribed {
        topic: Name,
        name: Name,
        flag: bool,
    },
    /// Events that are done with, the last attempt at each before this moment, are removed once this is settled. Their
    /// ids are free at once.
    Purge {
        before: Moment,
    },
}
