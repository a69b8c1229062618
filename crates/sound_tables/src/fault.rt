//! Why tables aren't adopted.
use sqlite::Error;

/// Why tables aren't adopted. They are as they were.
#[derive(Clone, Copy)]
pub enum TableFault {
    /// `meta` hasn't exactly one row, or its row isn't the relay's.
    NotOurs,
    /// The tables are of a later version.
    NewerVersion,
    /// The tables are of an older version.
    OldVersion,
    /// The version is below 1, or the rows aren't such as a legal history has.
    Damaged,
    /// A statement was refused.
    Failed(Error),
}
