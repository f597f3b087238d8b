//! Changes of parts of trees agree with those of the trees, in any family.
ghost use Rattle.std.specs.Prelude.{ℕ, List, Result};
ghost use Rattle.vo_spec.specs.declared.trees.UpdateFault.{UpdateFault};
ghost use Rattle.vo_spec.specs.Parts.{Part, Family, PrunesBy};
ghost use Rattle.vo_spec.specs.Inserts.{inserted_by};
ghost use Rattle.vo_spec.specs.Removes.{removed_by, edited_by};
ghost use Rattle.btree.specs.Agreement.{AgreesWithTree};
ghost use Rattle.btree.specs.Pruning.{KeepsKeys, KeepsAnnotations};

/// A family of trees, and what it is that one of its entries prunes another.
pub trait PruningFamily {
    ghost Plain: { Type 0 };

    ghost Annotation: { Type 0 };

    ghost family: { Family Plain Annotation };

    ghost EntryPrunes: { Plain → Plain → Type 0 };

    ghost same_key: { KeepsKeys family EntryPrunes };

    ghost same_annotation: { KeepsAnnotations family EntryPrunes };
}

/// Where a part prunes a tree, an insertion into the part is Missing, or it has the fault of the
/// insertion into the tree, or it gives what prunes the tree that comes of that.
pub fn insertions_agree<F: PruningFamily>()
    ensures { (e f : F.Plain) (p t : Part F.Plain F.Annotation) → F.EntryPrunes e f
        → PrunesBy F.family F.EntryPrunes p t
        → AgreesWithTree (PrunesBy F.family F.EntryPrunes) (inserted_by F.family e p)
        (inserted_by F.family f t) }
{}

/// So it is with a removal.
pub fn removals_agree<F: PruningFamily>()
    ensures { (key : List ℕ) (p t : Part F.Plain F.Annotation) → PrunesBy F.family F.EntryPrunes p t
        → AgreesWithTree (PrunesBy F.family F.EntryPrunes) (removed_by F.family key p)
        (removed_by F.family key t) }
{}

/// And with a replacement, where what comes in the place of an entry agrees with what comes in the
/// place of one that it prunes.
pub fn replacements_agree<F: PruningFamily>()
    ensures { (edit other : F.Plain → Result F.Plain UpdateFault) (key : List ℕ)
        (p t : Part F.Plain F.Annotation)
        → ((e f : F.Plain) → F.EntryPrunes e f → AgreesWithTree F.EntryPrunes (edit e) (other f))
        → PrunesBy F.family F.EntryPrunes p t
        → AgreesWithTree (PrunesBy F.family F.EntryPrunes) (edited_by F.family edit key p)
        (edited_by F.family other key t) }
{}
