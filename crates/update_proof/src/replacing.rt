//! Items put in the place of others.
ghost use Rattle.std.specs.Prelude.{◌≡◌, ◌<◌, length, slice_set, IfOk};
ghost use Rattle.std.specs.Result.{IsOkAnd};

use std::alloc::AllocError;

/// The items with this in the place of the one of this number, if it could be made. What is let go
/// of is spelled out here alone, for all kinds of items.
pub fn with_item<T: Drop>(
    items: Vec<T>,
    place: usize,
    item: Result<T, AllocError>,
) -> Result<Vec<T>, AllocError>
    requires { place < length items.items }
    ensures value { IfOk result (λ all. IsOkAnd item (λ x.
        all.items ≡ slice_set items.items place x)) }
    ensures count { IfOk result (λ all. length all.items ≡ length items.items) }
{
    let mut items = items;
    items[place] = item?;
    Ok(items)
}
