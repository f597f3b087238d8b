//! The limits of texts. The definitions have each under the same name in small letters.

/// Bytes of a text that is a query or a batch.
pub const MAX_SQL_BYTES: usize = 65_536;

/// Bytes of a text that is a script.
pub const MAX_SCRIPT_BYTES: usize = 16_777_216;

/// Levels of NOT and parentheses in a condition.
pub const MAX_NESTING: usize = 32;

/// Columns that a query names in its SELECT list.
pub const MAX_ITEMS: usize = 64;
