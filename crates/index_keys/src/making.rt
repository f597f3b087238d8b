//! Index keys made of their parts.
ghost use Rattle.std.specs.Prelude.{◌≡◌, ◌++◌, ◌∷◌, IfOk};
ghost use Rattle.vo_spec.specs.Values.{key_of};
ghost use Rattle.index_laws.specs.Indexes.{index_key};

use row_bytes::key_of;
use std::alloc::{AllocError, Global};
use vo_spec::{Key, Value};

/// The key of a row's entry in an index on the column of this value.
pub fn index_key(alloc: Global, value: &Value, key: &Key) -> Result<Key, AllocError>
    ensures { IfOk result (λ made. made ≡ index_key (key_of value.now) key.now) }
{
    let value = key_of(alloc, value)?;
    joined_key(alloc, &value, 0, key.as_bytes())
}

/// A key of these bytes, a byte behind them, and the rest behind that.
pub(crate) fn joined_key(
    alloc: Global,
    front: &Key,
    byte: u8,
    rest: &[u8],
) -> Result<Key, AllocError>
    ensures { IfOk result (λ key. key ≡ front.now ++ byte ∷ rest.now) }
{
    let mut bytes = Vec::from_slice(alloc, front.as_bytes())?;
    bytes.push(byte)?;
    bytes.extend_from_slice(rest)?;
    Ok(Key::from_vec(bytes))
}
