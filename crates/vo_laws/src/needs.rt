//! Laws of the proofs of needs: a tree has one.

ghost use Rattle.std.specs.Prelude.{◌≡◌, List};
ghost use Rattle.std.specs.List.{AllByRecursion};
ghost use Rattle.vo_spec.specs.declared.needs.Need.{Need};
ghost use Rattle.vo_spec.specs.declared.values.Row.{Row};
ghost use Rattle.vo_spec.specs.Trees.{RowTree, Prunes};
ghost use Rattle.vo_spec.specs.Pruning.{IsCanonical, prune_tree};
ghost use Rattle.vo_spec.specs.Representation.{Represents};
ghost use Rattle.vo_laws.specs.Columns.{HaveColumns};

/// What a tree has open for some needs prunes it, and is canonical where the tree stands for rows
/// that have the columns of the needs; and no other part of the tree is canonical.
pub fn needs_have_one_proof()
    ensures prunes { (needs : List Need) (t : RowTree) → Prunes (prune_tree needs t) t }
    ensures canonical { (needs : List Need) (t : RowTree) (rows : List Row) → Represents t rows
        → AllByRecursion (HaveColumns rows) needs → IsCanonical needs (prune_tree needs t) }
    ensures only { (needs : List Need) (p t : RowTree) → Prunes p t → IsCanonical needs p
        → p ≡ prune_tree needs t }
{}
