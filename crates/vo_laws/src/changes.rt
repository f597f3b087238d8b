//! Laws of changes of whole trees: what they make of a tree that stands for rows, and their proofs.

ghost use Rattle.std.specs.Prelude.{◌≡◌, ℕ, List, false, map};
ghost use Rattle.vo_spec.specs.declared.values.Row.{Row};
ghost use Rattle.vo_spec.specs.Tables.{CellChange, without_row, changed_row};
ghost use Rattle.vo_spec.specs.Cells.{whole_entry};
ghost use Rattle.vo_spec.specs.Trees.{RowTree};
ghost use Rattle.vo_spec.specs.Inserts.{tree_with_entry, insert_is_missing, insert_has_surplus, insert_proof};
ghost use Rattle.vo_spec.specs.Removes.{tree_without_key, tree_with_cells, remove_proof, replace_proof};
ghost use Rattle.vo_spec.specs.Representation.{Represents};
ghost use Rattle.vo_laws.specs.Changing.{Changes, Inserts};
ghost use Rattle.vo_laws.specs.UpdateProofs.{IsUpdateProof, lacks, replace_is_missing, replace_has_surplus, remove_is_missing, remove_has_surplus};

/// A whole tree is one after a change too, and stands for the rows as the change makes them of
/// those before. An insertion is refused only where a row has the key, a removal or a replacement
/// only where none has it.
pub fn trees_stand_after_changes()
    ensures inserted { (row : Row) (t : RowTree) (rows : List Row) → Represents t rows
        → Inserts row rows (tree_with_entry (whole_entry row) t) }
    ensures removed { (key : List ℕ) (t : RowTree) (rows : List Row) → Represents t rows
        → Changes key rows (without_row key rows) (tree_without_key key t) }
    ensures replaced { (key : List ℕ) (changes : List CellChange) (t : RowTree) (rows : List Row)
        → Represents t rows
        → Changes key rows (map (changed_row key changes) rows) (tree_with_cells key changes t) }
{}

/// Each change of a tree that stands for rows has a proof, a part of the tree that lacks nothing
/// and has no surplus, and the change can be worked on it.
pub fn changes_have_proofs()
    ensures insertion { (key : List ℕ) (t : RowTree) (rows : List Row) → Represents t rows
        → IsUpdateProof (insert_is_missing key) (insert_has_surplus key) t (insert_proof key t) }
    ensures replacement { (key : List ℕ) (t : RowTree) (rows : List Row) → Represents t rows
        → IsUpdateProof (replace_is_missing key) (replace_has_surplus key) t (replace_proof key t) }
    ensures removal { (key : List ℕ) (t : RowTree) (rows : List Row) → Represents t rows
        → IsUpdateProof (remove_is_missing key) (remove_has_surplus key) t (remove_proof key t) }
    ensures inserted { (row : Row) (t : RowTree) (rows : List Row) → Represents t rows
        → lacks (tree_with_entry (whole_entry row) (insert_proof row.key t)) ≡ false }
    ensures replaced { (key : List ℕ) (changes : List CellChange) (t : RowTree) (rows : List Row)
        → Represents t rows → lacks (tree_with_cells key changes (replace_proof key t)) ≡ false }
    ensures removed { (key : List ℕ) (t : RowTree) (rows : List Row) → Represents t rows
        → lacks (tree_without_key key (remove_proof key t)) ≡ false }
{}
