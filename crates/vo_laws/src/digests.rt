//! Laws of digests: they are the same whatever is hidden.

ghost use Rattle.std.specs.Prelude.{◌≡◌, ℕ, List};
ghost use Rattle.vo_spec.specs.declared.cells.RowPart.{RowPart};
ghost use Rattle.vo_spec.specs.declared.cells.PartEntry.{PartEntry};
ghost use Rattle.vo_spec.specs.Cells.{RowPrunes, EntryPrunes, row_digest, entry_bytes};
ghost use Rattle.vo_spec.specs.Pruning.{shown_row};
ghost use Rattle.vo_spec.specs.Trees.{RowTree, Prunes, digest};

/// A row's digest is the same whichever of its cells are shown, and a tree's whichever of its
/// subtrees, rows and cells are open.
pub fn digests_are_kept()
    ensures row { (r s : RowPart) → RowPrunes r s → row_digest r ≡ row_digest s }
    ensures columns { (columns : List ℕ) (row : RowPart)
        → row_digest (shown_row columns row) ≡ row_digest row }
    ensures entry { (e f : PartEntry) → EntryPrunes e f → entry_bytes e ≡ entry_bytes f }
    ensures tree { (p t : RowTree) → Prunes p t → digest p ≡ digest t }
{}
