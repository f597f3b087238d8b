//! Laws of scans: of a whole tree a scan is a filter of its rows, and of a part of a tree no other.

ghost use Rattle.std.specs.Prelude.{◌≡◌, ◌⊎◌, List, map, filter, None, Some};
ghost use Rattle.vo_spec.specs.declared.needs.Need.{Need};
ghost use Rattle.vo_spec.specs.declared.values.Row.{Row};
ghost use Rattle.vo_spec.specs.Trees.{RowTree, Prunes};
ghost use Rattle.vo_spec.specs.Scans.{in_interval, seen};
ghost use Rattle.vo_spec.specs.Representation.{Represents};
ghost use Rattle.vo_laws.specs.Columns.{HaveColumns, seen_row};

/// Of a tree that stands for rows, a scan for a need gives the rows with their keys in its
/// interval, where these have its columns. Of a part of a tree it misses something, or gives what
/// it gives of the tree.
pub fn scans_filter_the_rows()
    ensures whole { (need : Need) (t : RowTree) (rows : List Row) → Represents t rows
        → HaveColumns rows need
        → let inside : List Row = filter (λ row. in_interval need.interval row.key) rows in
        seen need t ≡ Some (map (seen_row need.columns) inside) }
    ensures part { (need : Need) (p t : RowTree) → Prunes p t
        → (seen need p ≡ None) ⊎ (seen need p ≡ seen need t) }
{}
