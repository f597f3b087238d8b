//! The bodies of frames that hold records and versions, both ways.
ghost use Rattle.std.specs.Prelude.{◌≡◌, ◌+◌, ◌≤◌, length, Vec, option_map, IfOk};
ghost use Rattle.vo_spec.specs.Journals.{max_signature};
ghost use Rattle.row_bytes.specs.Fields.{Found};
ghost use Rattle.store_requests.specs.Bodies.{install_bytes, install_in, standing_bytes, standing_at, standing_in, version_in, query_at_bytes, query_at_in};

use row_bytes::Cursor;
use std::alloc::{AllocError, Global};
use version_record::{record_bytes, take_record};
use vo_spec::{MAX_SIGNATURE, Record, u32_bytes, u64_bytes};

/// A record and its signature, as the body of a request has them.
#[derive(Debug, Drop)]
pub struct SignedBody<'b> {
    pub rec: Record,
    pub signature: &'b [u8],
}

/// The body of the request to install a version.
#[tactic(auto, unfolding(crate::specs::Bodies::install_bytes))]
pub fn install_body(alloc: Global, rec: &Record, signature: &[u8]) -> Result<Vec<u8>, AllocError>
    requires { length signature.now ≤ max_signature }
    ensures bytes { IfOk result (λ body. body.items ≡ install_bytes rec.now signature.now) }
    ensures short { IfOk result (λ body. length body.items ≤ 64 + max_signature) }
{
    let mut body = Vec::new(alloc);
    body.extend_from_slice(&record_bytes(rec))?;
    body.extend_from_slice(&u32_bytes(signature.len() as u32))?;
    body.extend_from_slice(signature)?;
    Ok(body)
}

/// The record and the signature that the body of a request to install is.
#[tactic(auto, unfolding(crate::specs::Bodies::install_in))]
pub fn read_install(body: &[u8]) -> Option<SignedBody<'_>>
    ensures { option_map (λ read. (read.rec, read.signature.now)) result ≡ install_in body.now }
{
    let mut cursor = Cursor::new(body);
    let rec = take_record(&mut cursor)?;
    let signature = cursor.take_block()?;
    if cursor.is_empty() && signature.len() <= MAX_SIGNATURE {
        Some(SignedBody { rec, signature })
    } else {
        None
    }
}

/// The body that says which record a store stands at.
#[tactic(auto, unfolding(crate::specs::Bodies::standing_bytes))]
pub fn standing_body(alloc: Global, standing: &Option<Record>) -> Result<Vec<u8>, AllocError>
    ensures bytes { IfOk result (λ body. body.items ≡ standing_bytes standing.now) }
    ensures short { IfOk result (λ body. length body.items ≤ 61) }
{
    let mut body = Vec::new(alloc);
    match standing {
        None => body.push(0)?,
        Some(rec) => {
            body.push(1)?;
            body.extend_from_slice(&record_bytes(rec))?;
        }
    }
    Ok(body)
}

/// The record that a store stands at, by the body that says so.
#[tactic(auto, unfolding(crate::specs::Bodies::standing_in))]
pub fn read_standing(body: &[u8]) -> Option<Option<Record>>
    ensures { result ≡ standing_in body.now }
{
    let mut cursor = Cursor::new(body);
    let standing = take_standing(&mut cursor)?;
    if cursor.is_empty() {
        Some(standing)
    } else {
        None
    }
}

#[tactic(auto, unfolding(crate::specs::Bodies::standing_at))]
fn take_standing(cursor: &mut Cursor<'_>) -> Option<Option<Record>>
    ensures { Found (λ standing. standing) result cursor.old cursor.new (standing_at cursor.old) }
{
    let mut ahead = cursor.copy();
    let standing = match ahead.take_byte()? {
        0 => None,
        1 => Some(take_record(&mut ahead)?),
        _ => return None,
    };
    *cursor = ahead;
    Some(standing)
}

/// The version that the body of an answer to an install is.
#[tactic(auto, unfolding(crate::specs::Bodies::version_in))]
pub fn read_version(body: &[u8]) -> Option<u64>
    ensures { result ≡ version_in body.now }
{
    let mut cursor = Cursor::new(body);
    let version = cursor.take_u64()?;
    if cursor.is_empty() {
        Some(version)
    } else {
        None
    }
}

/// A version and the text of a query of it, as the body of a request has them.
#[derive(Clone, Copy, Debug)]
pub struct QueryAtBody<'b> {
    pub version: u64,
    pub text: &'b [u8],
}

/// The body of the request that asks a query, given as text, of a version.
#[tactic(auto, unfolding(crate::specs::Bodies::query_at_bytes))]
pub fn query_at_body(alloc: Global, version: u64, text: &[u8]) -> Result<Vec<u8>, AllocError>
    ensures bytes { IfOk result (λ body. body.items ≡ query_at_bytes version text.now) }
    ensures size { IfOk result (λ body. length body.items ≡ 8 + length text.now) }
{
    let mut body = Vec::new(alloc);
    body.extend_from_slice(&u64_bytes(version))?;
    body.extend_from_slice(text)?;
    Ok(body)
}

/// The version and the text that the body of such a request is. The text may be no query.
#[tactic(auto, unfolding(crate::specs::Bodies::query_at_in))]
pub fn read_query_at(body: &[u8]) -> Option<QueryAtBody<'_>>
    ensures { option_map (λ read. (read.version, read.text.now)) result ≡ query_at_in body.now }
{
    let mut cursor = Cursor::new(body);
    let version = cursor.take_u64()?;
    Some(QueryAtBody {
        version,
        text: cursor.rest(),
    })
}
