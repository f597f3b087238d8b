//! The limit of frames that no other format has. The definitions have it under the same name in
//! small letters.

/// Bytes of a query's text.
pub const MAX_QUERY: usize = 65_536;
