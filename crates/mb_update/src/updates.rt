//! Trees that change.
ghost use Rattle.std.specs.Prelude.{◌≡◌, map};
ghost use Rattle.vo_spec.specs.declared.cells.RowPart.{RowPart as PlainPart};
ghost use Rattle.vo_spec.specs.Cells.{whole_entry};
ghost use Rattle.vo_spec.specs.Trees.{RowTree};
ghost use Rattle.vo_spec.specs.Fits.{FitsKey, FitsRow};
ghost use Rattle.vo_spec.specs.Inserts.{tree_with_entry};
ghost use Rattle.vo_spec.specs.Removes.{tree_without_key, tree_with_cells};
ghost use Rattle.mb_update.specs.ChangeResults.{ChangesTo};
ghost use Rattle.mb_update.specs.RowParts.{entry_of, tree_with_part};
ghost use Rattle.mb_update.specs.Sets.{change_of, FitsSets};

use crate::ops::SetCell;
use std::alloc::Global;
use vo_spec::{Key, Row, RowPart, UpdateFault};

/// A tree, whole or in part. A change of it gives a new tree and leaves this one as it is.
pub trait Updates {
    type Change;

    ghost tree: { Self → RowTree };

    ghost changed: { Self.Change → RowTree };

    ghost CanInsert: { Self → Type 0 };

    ghost CanChange: { Self → Type 0 };

    ghost CanHold: { PlainPart → Type 0 };

    /// The tree with this row.
    fn insert(&self, alloc: Global, row: &Row) -> Result<Self::Change, UpdateFault>
        requires fits { FitsRow row.now }
        requires room { CanInsert self.now }
        ensures { ChangesTo changed result
            (tree_with_entry (whole_entry row.now) (tree self.now)) };

    /// The tree with these cells in the row of this key. A cell that the row hasn't is passed over.
    fn replace(
        &self,
        alloc: Global,
        key: &Key,
        sets: &[SetCell],
    ) -> Result<Self::Change, UpdateFault>
        requires fits { FitsSets sets.now }
        requires within { CanChange self.now }
        ensures { ChangesTo changed result
            (tree_with_cells key.now (map change_of sets.now) (tree self.now)) };

    /// The tree without the row of this key.
    fn remove(&self, alloc: Global, key: &Key) -> Result<Self::Change, UpdateFault>
        requires { CanChange self.now }
        ensures { ChangesTo changed result (tree_without_key key.now (tree self.now)) };

    /// The tree with an entry of this key and this row, of which as much is shown as there.
    fn put(&self, alloc: Global, key: &Key, part: &RowPart<'_>) -> Result<Self::Change, UpdateFault>
        requires key { FitsKey key.now }
        requires part { CanHold part.now }
        requires room { CanInsert self.now }
        ensures { ChangesTo changed result
            (tree_with_entry (entry_of key.now part.now) (tree self.now)) };

    /// The tree with this in the place of the row of this key, whatever of that is shown.
    fn set(&self, alloc: Global, key: &Key, part: &RowPart<'_>) -> Result<Self::Change, UpdateFault>
        requires part { CanHold part.now }
        requires within { CanChange self.now }
        ensures { ChangesTo changed result (tree_with_part key.now part.now (tree self.now)) };
}
