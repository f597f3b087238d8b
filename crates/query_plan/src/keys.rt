//! The values that keys spell, whatever bytes they have.
ghost use Rattle.std.specs.Prelude.{◌≡◌, slice_index};
ghost use Rattle.vo_spec.specs.declared.values.Kind.{Kind as KeyKind};
ghost use Rattle.vo_spec.specs.Lent.{value_of};
ghost use Rattle.vo_spec.specs.Values.{value_of_key};

use vo_spec::{Kind, ValueRef};

fn byte_at(key: &[u8], place: usize) -> u8
    ensures { result ≡ slice_index key.now place }
{
    match key.get(place) {
        Some(byte) => *byte,
        None => 0,
    }
}

/// The number of the first eight bytes, which are 0 where there are no more.
#[tactic(auto, unfolding(vo_spec::specs::Bytes::u64_of))]
fn int_of_key(key: &[u8]) -> ValueRef<'_>
    ensures { value_of result ≡ value_of_key KeyKind.Int key.now }
{
    let bytes = [
        byte_at(key, 0),
        byte_at(key, 1),
        byte_at(key, 2),
        byte_at(key, 3),
        byte_at(key, 4),
        byte_at(key, 5),
        byte_at(key, 6),
        byte_at(key, 7),
    ];
    match row_bytes::read_key(Kind::Int, &bytes) {
        Ok(ValueRef::Int(number)) => ValueRef::Int(number),
        Ok(_) | Err(_) => ValueRef::Int(0),
    }
}

/// The value of this kind whose key it is. Keys of the shape of their column are read so; others
/// have some value too.
pub fn value_of_key(kind: Kind, key: &[u8]) -> ValueRef<'_>
    ensures { value_of result ≡ value_of_key kind key.now }
{
    match kind {
        Kind::Int => int_of_key(key),
        Kind::Text => ValueRef::Text(key),
        Kind::Bool => ValueRef::Bool(!key.is_empty()),
    }
}
