//! Lists with some of their items exchanged for others.
ghost use Rattle.std.specs.Prelude.{◌≡◌, ◌≤◌, [], ◌∷◌, ◌++◌, length, take, drop, IfOk};

use crate::try_clone::{TryClone, extend_cloned};
use std::alloc::{AllocError, Global};

/// The items with those from `from` up to `to` exchanged for others.
pub fn replace_range<T: TryClone + Drop>(
    alloc: Global,
    items: &[T],
    from: usize,
    to: usize,
    others: Vec<T>,
) -> Result<Vec<T>, AllocError>
    requires order { from ≤ to }
    requires end { to ≤ length items.now }
    ensures { IfOk result (λ new. new.items ≡ take from items.now ++ others.items
        ++ drop to items.now) }
{
    let mut new = Vec::with_capacity(alloc, items.len().saturating_add(others.len()))?;
    extend_cloned(alloc, &items[..from], &mut new)?;
    let mut new = append(new, others)?;
    extend_cloned(alloc, &items[to..], &mut new)?;
    Ok(new)
}

/// The items with this in the place of those from `from` up to `to`.
pub fn with_item<T: TryClone + Drop>(
    alloc: Global,
    items: &[T],
    from: usize,
    to: usize,
    item: T,
) -> Result<Vec<T>, AllocError>
    requires order { from ≤ to }
    requires end { to ≤ length items.now }
    ensures { IfOk result (λ new. new.items ≡ take from items.now ++ item ∷ drop to items.now) }
{
    replace_range(alloc, items, from, to, list_of_one(alloc, item)?)
}

/// A list of one item.
pub fn list_of_one<T: Drop>(alloc: Global, item: T) -> Result<Vec<T>, AllocError>
    ensures { IfOk result (λ list. list.items ≡ item ∷ []) }
{
    let mut list = Vec::with_capacity(alloc, 1)?;
    list.push(item)?;
    Ok(list)
}

/// A list of two.
pub fn list_of_two<T: Drop>(alloc: Global, first: T, second: T) -> Result<Vec<T>, AllocError>
    ensures { IfOk result (λ list. list.items ≡ first ∷ second ∷ []) }
{
    let mut list = Vec::with_capacity(alloc, 2)?;
    list.push(first)?;
    list.push(second)?;
    Ok(list)
}

/// The items of both, those of the second after those of the first.
pub fn append<T: Drop>(first: Vec<T>, second: Vec<T>) -> Result<Vec<T>, AllocError>
    ensures { IfOk result (λ all. all.items ≡ first.items ++ second.items) }
{
    let mut all = first;
    let mut second = second;
    all.append(&mut second)?;
    Ok(all)
}

/// The item of a list of one.
pub fn single_item<T: Drop>(items: Vec<T>) -> T
    requires { length items.items ≡ 1 }
    ensures { items.items ≡ result ∷ [] }
{
    let mut items = items;
    match items.pop() {
        Some(item) => item,
        None => unreachable!(),
    }
}
