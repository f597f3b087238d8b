//! How many bytes a file may have that a command takes.
use sql_text::MAX_SCRIPT_BYTES;

/// A seed file has the identifier and the seed.
pub const SEED_LIMIT: u64 = 48;

/// A key file has 56 bytes, or isn't one.
pub const KEY_LIMIT: u64 = 64;

/// A longer script is refused as a text.
pub const SCRIPT_LIMIT: u64 = MAX_SCRIPT_BYTES as u64;

pub const JOURNAL_LIMIT: u64 = 1_073_741_824;

/// One more than a client accepts.
pub const REPLY_LIMIT: u64 = 67_108_865;
