//! The limit of the book.

/// The most records that enable or disable endpoints and aren't settled.
pub const MAX_FLAGS: usize = 1024;
