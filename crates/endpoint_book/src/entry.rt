//! What the book keeps of one endpoint, and of one record that isn't settled.
ghost use Rattle.std.specs.Prelude.{◌≡◌};
ghost use Rattle.endpoint_book.specs.Entries.{now_of, is_flag, is_put};

use relay_types::{MaxLimit, Name, Secrets, Target};

/// What records change of an endpoint, as pages show it.
#[derive(Clone, Copy)]
pub struct Shown {
    pub(crate) enabled: bool,
    /// How many secrets it has.
    pub(crate) secrets: usize,
}

/// An endpoint as all records have it, and what the settled ones show of it, once its Put is settled.
#[derive(Drop)]
pub struct Entry {
    pub(crate) put: u64,
    pub(crate) name: Name,
    pub(crate) target: Target,
    pub(crate) max: MaxLimit,
    pub(crate) enabled: bool,
    pub(crate) secrets: Secrets,
    pub(crate) settled: Option<Shown>,
}

impl Entry {
    pub(crate) fn now(&self) -> Shown
        ensures { result ≡ now_of self.now }
    {
        Shown {
            enabled: self.enabled,
            secrets: self.secrets.count(),
        }
    }
}

/// What a record did to an endpoint.
#[derive(Clone, Copy)]
pub enum Kind {
    /// It put the endpoint.
    Put,
    /// It gave new secrets.
    Secrets,
    /// It enabled or disabled the endpoint.
    Flag,
}

/// A record that changed this endpoint and isn't settled, and what the endpoint shows after it.
#[derive(Clone, Copy)]
pub struct Change {
    pub(crate) seq: u64,
    pub(crate) name: Name,
    pub(crate) kind: Kind,
    pub(crate) shown: Shown,
}

impl Change {
    pub(crate) fn is_flag(&self) -> bool
        ensures { result ≡ is_flag self.now }
    {
        matches!(self.kind, Kind::Flag)
    }

    pub(crate) fn is_put(&self) -> bool
        ensures { result ≡ is_put self.now }
    {
        matches!(self.kind, Kind::Put)
    }
}
