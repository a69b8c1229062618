//! The bounds of what is read and written.

/// The most bytes of a line, its line feed not counted.
pub const MAX_LINE_BYTES: usize = 140_000;

/// The most lines of a reader.
pub const MAX_LINES: u64 = 1_000_000;

/// The most reads that are asked of a reader.
pub const MAX_READS: u64 = 1 << 32;

/// The most writes that are asked of a writer for one text.
pub const MAX_WRITES: u64 = 1 << 32;
