//! How many entries or children a node has.

/// The most that a node has.
pub const MAX_FILL: usize = 16;

/// The fewest that a node has other than the root, and how many of 17 go left.
pub const MIN_FILL: usize = 8;
