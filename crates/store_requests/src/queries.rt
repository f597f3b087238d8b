//! The query that the body of a request is.
ghost use Rattle.std.specs.Prelude.{◌≡◌, ◌≢◌, None, IfOk, IsOk, option_map};
ghost use Rattle.vo_spec.specs.Conditions.{query_of};
ghost use Rattle.store_requests.specs.Texts.{query_in};

use sql_text::{SqlFault, parse_query};
use std::alloc::{AllocError, Global};
use vo_spec::QueryText;

/// None where the bytes are no text, or it is no query.
pub fn read_query(alloc: Global, body: &[u8]) -> Result<Option<QueryText>, AllocError>
    ensures { IfOk result (λ query. option_map query_of query ≡ query_in body.now) }
{
    match std::str::from_utf8(body) {
        Ok(text) => query_of_text(alloc, text),
        Err(_) => Ok(None),
    }
}

fn query_of_text(alloc: Global, text: &str) -> Result<Option<QueryText>, AllocError>
    ensures { IfOk result (λ query. option_map query_of query ≡ query_in text.now) }
{
    match parse_query(alloc, text) {
        Ok(query) => Ok(Some(query)),
        Err(fault) => without_query(fault),
    }
}

/// There is no query where a text has a fault, but for want of memory.
fn without_query(fault: SqlFault) -> Result<Option<QueryText>, AllocError>
    ensures none { IfOk result (λ query. (query ≡ None) × (fault ≢ SqlFault.Memory)) }
    ensures told { fault ≢ SqlFault.Memory → IsOk result }
{
    match fault {
        SqlFault::Memory => Err(AllocError),
        _ => Ok(None),
    }
}
