//! Changes of parts of trees agree with those of the trees.
ghost use Rattle.vo_spec.specs.declared.cells.PartEntry.{PartEntry};
ghost use Rattle.vo_spec.specs.declared.cells.RowPart.{RowPart};
ghost use Rattle.vo_spec.specs.declared.values.Row.{Row};
ghost use Rattle.vo_spec.specs.Cells.{whole_entry, EntryPrunes, RowPrunes};
ghost use Rattle.vo_spec.specs.Trees.{RowTree, Prunes};
ghost use Rattle.vo_spec.specs.Inserts.{tree_with_entry};
ghost use Rattle.std.specs.Prelude.{ℕ, List};
ghost use Rattle.vo_spec.specs.Tables.{CellChange};
ghost use Rattle.vo_spec.specs.Removes.{tree_without_key, tree_with_cells};
ghost use Rattle.mb_update.specs.ChangeResults.{GoesOnPruning};
ghost use Rattle.mb_update.specs.RowParts.{tree_with_part};

/// Where a part prunes a tree, an insertion into the part is Missing, or it has the fault of the
/// insertion into the tree, or it gives what prunes the tree that comes of that. So it is where the
/// part's new entry has some of its cells hidden, or is the digest of its row.
pub fn insertions_agree()
    ensures row { (row : Row) (p t : RowTree) → Prunes p t
        → GoesOnPruning (tree_with_entry (whole_entry row) p)
        (tree_with_entry (whole_entry row) t) }
    ensures entry { (e f : PartEntry) (p t : RowTree) → EntryPrunes e f → Prunes p t
        → GoesOnPruning (tree_with_entry e p) (tree_with_entry f t) }
{}

/// So it is with a removal.
pub fn removals_agree()
    ensures { (key : List ℕ) (p t : RowTree) → Prunes p t
        → GoesOnPruning (tree_without_key key p) (tree_without_key key t) }
{}

/// And with a replacement of some cells.
pub fn replacements_agree()
    ensures { (key : List ℕ) (changes : List CellChange) (p t : RowTree) → Prunes p t
        → GoesOnPruning (tree_with_cells key changes p) (tree_with_cells key changes t) }
{}

/// And with another row in the place of one, where the part gets what prunes the tree's new row, as
/// its digest does.
pub fn exchanges_agree()
    ensures { (key : List ℕ) (r s : RowPart) (p t : RowTree) → RowPrunes r s → Prunes p t
        → GoesOnPruning (tree_with_part key r p) (tree_with_part key s t) }
{}
