//! The changes of parts of trees.
ghost use Rattle.std.specs.Prelude.{◌≡◌, map, IfOk};
ghost use Rattle.vo_spec.specs.Cells.{whole_entry};
ghost use Rattle.vo_spec.specs.Fits.{FitsKey, FitsPart, FitsRow, FitsRowPart};
ghost use Rattle.vo_spec.specs.Inserts.{tree_with_entry};
ghost use Rattle.vo_spec.specs.Removes.{tree_without_key, tree_with_cells};
ghost use Rattle.mb_tree.specs.View.{part_of};
ghost use Rattle.mb_update.specs.ChangeResults.{ChangesTo};
ghost use Rattle.mb_update.specs.RowParts.{entry_of as entry_with_key, tree_with_part};
ghost use Rattle.mb_update.specs.Sets.{change_of, FitsSets};

use crate::ops::SetCell;
use crate::part_rows::{entry_of, entry_with, exchange_row, put_entry};
use crate::updates::Updates;
use btree::{find, insert, remove, set};
use mb_tree::PartTree;
use std::alloc::Global;
use vo_spec::{Key, PartEntry, Row, RowPart, UpdateFault};

/// The part with this entry.
fn insert_entry<'b>(
    alloc: Global,
    tree: &PartTree<'b>,
    entry: PartEntry<'b>,
) -> Result<PartTree<'b>, UpdateFault>
    requires { FitsPart (part_of tree.now) }
    ensures { ChangesTo part_of result (tree_with_entry entry.entry (part_of tree.now)) }
{
    insert::<PartTree<'b>>(alloc, tree, entry)
}

/// The part with these cells in the row of this key.
fn replace_cells<'b>(
    alloc: Global,
    tree: &PartTree<'b>,
    key: &[u8],
    sets: &[SetCell],
) -> Result<PartTree<'b>, UpdateFault>
    requires { FitsPart (part_of tree.now) }
    ensures { ChangesTo part_of result
        (tree_with_cells key.now (map change_of sets.now) (part_of tree.now)) }
{
    match find::<PartTree<'b>>(tree, key) {
        Ok(old) => match entry_with(alloc, old, sets) {
            Ok(entry) => set::<PartTree<'b>>(alloc, tree, key, entry),
            Err(fault) => Err(fault),
        },
        Err(fault) => Err(fault),
    }
}

/// The part with a copy of this in the place of the row of this key.
fn set_row<'b>(
    alloc: Global,
    tree: &PartTree<'b>,
    key: &[u8],
    part: &RowPart<'_>,
) -> Result<PartTree<'b>, UpdateFault>
    requires { FitsPart (part_of tree.now) }
    ensures { ChangesTo part_of result (tree_with_part key.now part.now (part_of tree.now)) }
{
    match find::<PartTree<'b>>(tree, key) {
        Ok(old) => {
            let entry = exchange_row(alloc, old, part)?;
            set::<PartTree<'b>>(alloc, tree, key, entry)
        },
        Err(fault) => Err(fault),
    }
}

/// The part without the row of this key.
fn remove_row<'b>(
    alloc: Global,
    tree: &PartTree<'b>,
    key: &[u8],
) -> Result<PartTree<'b>, UpdateFault>
    requires { FitsPart (part_of tree.now) }
    ensures { ChangesTo part_of result (tree_without_key key.now (part_of tree.now)) }
{
    remove::<PartTree<'b>>(alloc, tree, key)
}

/// The new tree is a copy of what is open, and shows every cell that the change gives.
impl<'b> Updates for PartTree<'b> {
    type Change = PartTree<'b>;

    ghost tree = { part_of };

    ghost changed = { part_of };

    ghost CanInsert = { λ tree. FitsPart (part_of tree) };

    ghost CanChange = { λ tree. FitsPart (part_of tree) };

    ghost CanHold = { FitsRowPart };

    fn insert(&self, alloc: Global, row: &Row) -> Result<PartTree<'b>, UpdateFault>
        requires fits { FitsRow row.now }
        requires room { FitsPart (part_of self.now) }
        ensures change { ChangesTo part_of result
            (tree_with_entry (whole_entry row.now) (part_of self.now)) }
        ensures within { IfOk result (λ change. FitsPart (part_of change)) }
    {
        let entry = entry_of(alloc, row)?;
        insert_entry(alloc, self, entry)
    }

    fn replace(
        &self,
        alloc: Global,
        key: &Key,
        sets: &[SetCell],
    ) -> Result<PartTree<'b>, UpdateFault>
        requires fits { FitsSets sets.now }
        requires within { FitsPart (part_of self.now) }
        ensures change { ChangesTo part_of result
            (tree_with_cells key.now (map change_of sets.now) (part_of self.now)) }
        ensures within { IfOk result (λ change. FitsPart (part_of change)) }
    {
        replace_cells(alloc, self, key.as_bytes(), sets)
    }

    fn remove(&self, alloc: Global, key: &Key) -> Result<PartTree<'b>, UpdateFault>
        requires { FitsPart (part_of self.now) }
        ensures change { ChangesTo part_of result (tree_without_key key.now (part_of self.now)) }
        ensures within { IfOk result (λ change. FitsPart (part_of change)) }
    {
        remove_row(alloc, self, key.as_bytes())
    }

    fn put(&self, alloc: Global, key: &Key, part: &RowPart<'_>) -> Result<PartTree<'b>, UpdateFault>
        requires key { FitsKey key.now }
        requires part { FitsRowPart part.now }
        requires room { FitsPart (part_of self.now) }
        ensures change { ChangesTo part_of result
            (tree_with_entry (entry_with_key key.now part.now) (part_of self.now)) }
        ensures within { IfOk result (λ change. FitsPart (part_of change)) }
    {
        let entry = put_entry(alloc, key, part)?;
        insert_entry(alloc, self, entry)
    }

    fn set(&self, alloc: Global, key: &Key, part: &RowPart<'_>) -> Result<PartTree<'b>, UpdateFault>
        requires part { FitsRowPart part.now }
        requires within { FitsPart (part_of self.now) }
        ensures change { ChangesTo part_of result
            (tree_with_part key.now part.now (part_of self.now)) }
        ensures within { IfOk result (λ change. FitsPart (part_of change)) }
    {
        set_row(alloc, self, key.as_bytes(), part)
    }
}
