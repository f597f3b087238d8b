//! Lists of shared items, and such lists with a part exchanged.
ghost use Rattle.std.specs.Prelude.{◌≡◌, ◌≤◌, ◌++◌, map, take, drop, length, OnOk, IfOk};

use std::alloc::{AllocError, Global};
use std::rc::Rc;

/// Puts the same items at the end.
fn share<T: Drop>(out: &mut Vec<Rc<T>>, items: &[Rc<T>]) -> Result<(), AllocError>
    ensures { OnOk result (map (λ x. x.value) out.new.items ≡ map (λ x. x.value) out.old.items
        ++ map (λ x. x.value) items.now) }
{
    for item in items {
        out.push(item.clone()?)?;
    }
    Ok(())
}

/// The items with those from `from` up to `to` exchanged for others. The others are shared, none is
/// copied.
pub(crate) fn replace_range<T: Drop>(
    alloc: Global,
    items: &[Rc<T>],
    from: usize,
    to: usize,
    others: &[Rc<T>],
) -> Result<Vec<Rc<T>>, AllocError>
    requires order { from ≤ to }
    requires end { to ≤ length items.now }
    ensures { IfOk result (λ new. map (λ x. x.value) new.items
        ≡ take from (map (λ x. x.value) items.now) ++ map (λ x. x.value) others.now
        ++ drop to (map (λ x. x.value) items.now)) }
{
    let mut out = Vec::new(alloc);
    out.reserve(items.len())?;
    share(&mut out, &items[..from])?;
    share(&mut out, others)?;
    share(&mut out, &items[to..])?;
    Ok(out)
}
