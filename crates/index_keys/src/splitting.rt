//! Index keys split back into the value's bytes and the row's key.
ghost use Rattle.std.specs.Prelude.{◌≡◌, ◌==◌, false, slice_get};
ghost use Rattle.std.specs.Option.{option_map_or};
ghost use Rattle.index_laws.specs.Indexes.{indexed_value, is_index_key, primary_key, value_length};

use row_bytes::is_key_of;
use vo_spec::{Kind, MAX_KEY};

/// How many bytes at the front are the value's.
fn value_length(kind: Kind, bytes: &[u8]) -> usize
    ensures { result ≡ value_length kind bytes.now }
{
    match kind {
        Kind::Int => 8,
        Kind::Text => place_of_zero(bytes),
        Kind::Bool => 1,
    }
}

/// The place of the first zero, or else how many bytes there are.
fn place_of_zero(bytes: &[u8]) -> usize
    ensures place { result ≡ value_length Kind.Text bytes.now }
{
    let mut place = 0;
    for byte in bytes {
        if *byte == 0 {
            return place;
        }
        place += 1;
    }
    place
}

/// The key bytes of the indexed value, at the front of an index key.
pub fn indexed_value(kind: Kind, bytes: &[u8]) -> &[u8]
    ensures { result.now ≡ indexed_value kind bytes.now }
{
    let end = value_length(kind, bytes).min(bytes.len());
    &bytes[..end]
}

/// The row's key, at the end of an index key.
pub fn primary_key(kind: Kind, bytes: &[u8]) -> &[u8]
    ensures { result.now ≡ primary_key kind bytes.now }
{
    let begin = value_length(kind, bytes).saturating_add(1).min(bytes.len());
    &bytes[begin..]
}

/// Whether a zero stands at this place.
fn has_zero(bytes: &[u8], place: usize) -> bool
    ensures { result ≡ option_map_or (λ b. b == 0) (slice_get bytes.now place) false }
{
    match bytes.get(place) {
        Some(byte) => *byte == 0,
        None => false,
    }
}

/// Whether the bytes are a key of an index on a column of the one kind, in a table whose key is of
/// the other.
#[tactic(auto, using(crate::proofs::KeyTests::as_asked, crate::proofs::KeyTests::too_long))]
pub fn is_index_key(kind: Kind, key_kind: Kind, bytes: &[u8]) -> bool
    ensures { result ≡ is_index_key kind key_kind bytes.now }
{
    if bytes.len() > MAX_KEY {
        return false;
    }
    is_key_of(kind, indexed_value(kind, bytes))
        && has_zero(bytes, value_length(kind, bytes))
        && is_key_of(key_kind, primary_key(kind, bytes))
}
