//! Texts of which lines spell the bytes.
use crate::no_answer::NoAnswer;
use sql_text::parse_query;
use std::alloc::Global;
use vo_spec::QueryText;

/// The query whose text the bytes are.
pub fn query_in(alloc: Global, text: &[u8]) -> Result<QueryText, NoAnswer> {
    match str::from_utf8(text) {
        Ok(text) => parse_query(alloc, text).or(Err(NoAnswer::NoSuchLine)),
        Err(_) => Err(NoAnswer::NoSuchLine),
    }
}
