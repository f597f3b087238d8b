//! The changes of parts of totals trees.
ghost use Rattle.std.specs.Prelude.{◌≡◌, IfOk};
ghost use Rattle.vo_spec.specs.Fits.{FitsKey};
ghost use Rattle.totals_laws.specs.TotalsTrees.{FitsTotals};
ghost use Rattle.totals_laws.specs.TotalsChanges.{tree_with, tree_with_value, tree_without};
ghost use Rattle.mb_update.specs.ChangeResults.{ChangesTo};
ghost use Rattle.mb_sum.specs.Views.{part_of};

use crate::parts::{PartTotals, TotalChild};
use crate::updates::TotalsUpdates;
use btree::{insert, remove, set};
use std::alloc::{AllocError, Global};
use totals_laws::TotalEntry;
use vo_spec::{Key, KeyPart, UpdateFault};

/// An entry whose key is a copy of this.
fn entry_of<'b>(alloc: Global, key: &Key, value: i64) -> Result<TotalEntry<'b>, AllocError>
    ensures { IfOk result (λ entry. entry ≡ record { key = key.now; value = value }) }
{
    let key = KeyPart::owned(key.copy(alloc)?);
    Ok(TotalEntry { key, value })
}

fn put_entry<'b>(
    alloc: Global,
    tree: &PartTotals<'b>,
    entry: TotalEntry<'b>,
) -> Result<PartTotals<'b>, UpdateFault>
    requires { FitsTotals (part_of tree.now) }
    ensures { ChangesTo part_of result
        (tree_with entry.entry.key entry.entry.value (part_of tree.now)) }
{
    match insert::<TotalChild<'b>>(alloc, tree, entry) {
        Ok(root) => Ok(root.tree),
        Err(fault) => Err(fault),
    }
}

fn set_entry<'b>(
    alloc: Global,
    tree: &PartTotals<'b>,
    key: &[u8],
    entry: TotalEntry<'b>,
) -> Result<PartTotals<'b>, UpdateFault>
    requires within { FitsTotals (part_of tree.now) }
    requires same { entry.key ≡ key.now }
    ensures { ChangesTo part_of result
        (tree_with_value key.now entry.entry.value (part_of tree.now)) }
{
    match set::<TotalChild<'b>>(alloc, tree, key, entry) {
        Ok(root) => Ok(root.tree),
        Err(fault) => Err(fault),
    }
}

fn remove_entry<'b>(
    alloc: Global,
    tree: &PartTotals<'b>,
    key: &[u8],
) -> Result<PartTotals<'b>, UpdateFault>
    requires { FitsTotals (part_of tree.now) }
    ensures { ChangesTo part_of result (tree_without key.now (part_of tree.now)) }
{
    match remove::<TotalChild<'b>>(alloc, tree, key) {
        Ok(root) => Ok(root.tree),
        Err(fault) => Err(fault),
    }
}

/// The new tree is a copy of what is open.
impl<'b> TotalsUpdates for PartTotals<'b> {
    type Change = PartTotals<'b>;

    ghost tree = { part_of };

    ghost changed = { part_of };

    ghost CanChange = { λ tree. FitsTotals (part_of tree) };

    fn put(&self, alloc: Global, key: &Key, value: i64) -> Result<PartTotals<'b>, UpdateFault>
        requires fits { FitsKey key.now }
        requires within { FitsTotals (part_of self.now) }
        ensures change { ChangesTo part_of result (tree_with key.now value (part_of self.now)) }
        ensures within { IfOk result (λ change. FitsTotals (part_of change)) }
    {
        let entry = entry_of(alloc, key, value)?;
        put_entry(alloc, self, entry)
    }

    fn set(&self, alloc: Global, key: &Key, value: i64) -> Result<PartTotals<'b>, UpdateFault>
        requires fits { FitsKey key.now }
        requires within { FitsTotals (part_of self.now) }
        ensures change { ChangesTo part_of result
            (tree_with_value key.now value (part_of self.now)) }
        ensures within { IfOk result (λ change. FitsTotals (part_of change)) }
    {
        let entry = entry_of(alloc, key, value)?;
        set_entry(alloc, self, key.as_bytes(), entry)
    }

    fn remove(&self, alloc: Global, key: &Key) -> Result<PartTotals<'b>, UpdateFault>
        requires { FitsTotals (part_of self.now) }
        ensures change { ChangesTo part_of result (tree_without key.now (part_of self.now)) }
        ensures within { IfOk result (λ change. FitsTotals (part_of change)) }
    {
        remove_entry(alloc, self, key.as_bytes())
    }
}
