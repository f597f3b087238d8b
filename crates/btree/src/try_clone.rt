//! What can be had once more, shared or copied, unless memory is wanting.
ghost use Rattle.std.specs.Prelude.{◌≡◌, ◌++◌, IfOk, OnOk};

use std::alloc::{AllocError, Global};

/// A copy that may want memory. What is shared is shared once more.
pub trait TryClone: Sized {
    fn try_clone(&self, alloc: Global) -> Result<Self, AllocError>
        ensures { IfOk result (λ same. same ≡ self.now) };
}

/// Puts copies of these items at the end.
pub fn extend_cloned<T: TryClone + Drop>(
    alloc: Global,
    from: &[T],
    into: &mut Vec<T>,
) -> Result<(), AllocError>
    ensures { OnOk result (into.new.items ≡ into.old.items ++ from.now) }
{
    for item in from {
        into.push(item.try_clone(alloc)?)?;
    }
    Ok(())
}

/// Copies of these items.
pub fn try_clone_all<T: TryClone + Drop>(alloc: Global, items: &[T]) -> Result<Vec<T>, AllocError>
    ensures { IfOk result (λ same. same.items ≡ items.now) }
{
    let mut same = Vec::with_capacity(alloc, items.len())?;
    extend_cloned(alloc, items, &mut same)?;
    Ok(same)
}
