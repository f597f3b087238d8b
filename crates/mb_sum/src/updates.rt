//! Totals trees that change.
ghost use Rattle.std.specs.Prelude.{◌≡◌, IfOk};
ghost use Rattle.vo_spec.specs.Fits.{FitsKey};
ghost use Rattle.totals_laws.specs.TotalsTrees.{TotalsPart};
ghost use Rattle.totals_laws.specs.TotalsChanges.{tree_with, tree_with_value, tree_without};
ghost use Rattle.mb_update.specs.ChangeResults.{ChangesTo};

use std::alloc::Global;
use vo_spec::{Key, UpdateFault};

/// A totals tree, whole or in part. A change of it gives a new tree and leaves this one as it is.
pub trait TotalsUpdates {
    type Change;

    ghost tree: { Self → TotalsPart };

    ghost changed: { Self.Change → TotalsPart };

    ghost CanChange: { Self → Type 0 };

    /// The tree with an entry of this key and value.
    fn put(&self, alloc: Global, key: &Key, value: i64) -> Result<Self::Change, UpdateFault>
        requires fits { FitsKey key.now }
        requires within { CanChange self.now }
        ensures { ChangesTo changed result (tree_with key.now value (tree self.now)) };

    /// The tree with this value in the entry of the key.
    fn set(&self, alloc: Global, key: &Key, value: i64) -> Result<Self::Change, UpdateFault>
        requires fits { FitsKey key.now }
        requires within { CanChange self.now }
        ensures { ChangesTo changed result (tree_with_value key.now value (tree self.now)) };

    /// The tree without the entry of this key.
    fn remove(&self, alloc: Global, key: &Key) -> Result<Self::Change, UpdateFault>
        requires { CanChange self.now }
        ensures { ChangesTo changed result (tree_without key.now (tree self.now)) };
}
