//! The bounds within which an index is read for a comparison.
ghost use Rattle.std.specs.Prelude.{◌≡◌, ◌++◌, ◌∷◌, [], IfOk};
ghost use Rattle.vo_spec.specs.declared.keys.Bound.TheVariants.{Inclusive, Exclusive};
ghost use Rattle.vo_spec.specs.Values.{key_of};
ghost use Rattle.index_laws.specs.Indexes.{index_keys_that};

use crate::making::joined_key;
use row_bytes::key_of;
use std::alloc::{AllocError, Global};
use vo_spec::{Bound, Cmp, Interval, Key, Value};

/// The index keys of the values that compare so with this one, whatever the rows' keys are. `<>`
/// bounds nothing.
pub fn index_keys_that(alloc: Global, op: Cmp, value: &Value) -> Result<Interval, AllocError>
    ensures { IfOk result (λ keys. keys ≡ index_keys_that op (key_of value.now)) }
{
    let key = key_of(alloc, value)?;
    let (low, high) = match op {
        Cmp::Eq => (first_of(alloc, &key)?, below_next(alloc, &key)?),
        Cmp::Ne => (Bound::Absent, Bound::Absent),
        Cmp::Lt => (Bound::Absent, below_first(alloc, &key)?),
        Cmp::Le => (Bound::Absent, below_next(alloc, &key)?),
        Cmp::Gt => (next_after(alloc, &key)?, Bound::Absent),
        Cmp::Ge => (first_of(alloc, &key)?, Bound::Absent),
    };
    Ok(Interval { low, high })
}

/// From the first index key of a value on.
fn first_of(alloc: Global, key: &Key) -> Result<Bound, AllocError>
    ensures { IfOk result (λ bound. bound ≡ Inclusive (key.now ++ 0 ∷ [])) }
{
    Ok(Bound::Inclusive(joined_key(alloc, key, 0, &[])?))
}

/// From behind the last index key of a value on.
fn next_after(alloc: Global, key: &Key) -> Result<Bound, AllocError>
    ensures { IfOk result (λ bound. bound ≡ Inclusive (key.now ++ 1 ∷ [])) }
{
    Ok(Bound::Inclusive(joined_key(alloc, key, 1, &[])?))
}

/// Up to the first index key of a value, that one left out.
fn below_first(alloc: Global, key: &Key) -> Result<Bound, AllocError>
    ensures { IfOk result (λ bound. bound ≡ Exclusive (key.now ++ 0 ∷ [])) }
{
    Ok(Bound::Exclusive(joined_key(alloc, key, 0, &[])?))
}

/// Up to the last index key of a value.
fn below_next(alloc: Global, key: &Key) -> Result<Bound, AllocError>
    ensures { IfOk result (λ bound. bound ≡ Exclusive (key.now ++ 1 ∷ [])) }
{
    Ok(Bound::Exclusive(joined_key(alloc, key, 1, &[])?))
}
