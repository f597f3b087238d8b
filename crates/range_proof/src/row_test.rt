//! Conditions on the rows that a scan gives.
ghost use Rattle.std.specs.Prelude.{◌≡◌, ℕ, List, Some, false};
ghost use Rattle.vo_spec.specs.declared.values.Value.{Value as PlainValue};
ghost use Rattle.vo_spec.specs.Scans.{values_in};
ghost use Rattle.vo_spec.specs.Pruning.{hides_any};
ghost use Rattle.vo_spec.specs.Cuts.{RowCondition};

use mb_tree::RowEntry;

/// A condition, asked of rows as they stand in a tree, so that none is copied.
pub trait RowTest {
    /// The cells that the condition may read.
    ghost columns: { Self → List ℕ };

    /// Whether a row that a scan for these cells gives meets the condition.
    ghost meets: { Self → RowCondition };

    /// Whether the entry's row meets the condition, where it shows these cells.
    fn meets<'r, E: RowEntry>(&'r self, entry: &'r E) -> bool
        requires { hides_any (columns self.now) (E.entry entry.now).row ≡ false }
        ensures { (values : List PlainValue)
            → values_in (E.entry entry.now).row (columns self.now) ≡ Some values
            → result ≡ meets self.now
            (record { key = (E.entry entry.now).key; values = values }) };
}
