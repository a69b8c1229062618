//! The versions of the tables.
ghost use Rattle.std.specs.Prelude.{◌≡◌, pos};
ghost use Rattle.sound_tables.specs.Versions.{number_of};

/// A version of the relay's tables.
#[derive(Clone, Copy)]
pub(crate) enum Version {
    /// Version 1: five tables.
    First,
    /// Version 2: the same, and `topics`.
    Second,
}

impl Version {
    /// Its number in `meta`.
    pub(crate) fn number(self) -> i64
        ensures { result ≡ pos (number_of self) }
    {
        match self {
            Version::First => 1,
            Version::Second => 2,
        }
    }
}
