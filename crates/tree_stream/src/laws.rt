//! What the summary of a tree's bytes is, in the terms of trees and their proofs.
ghost use Rattle.std.specs.Prelude.{◌≡◌, ℕ, List, [], ◌∷◌, ◌++◌, Some, false};
ghost use Rattle.vo_spec.specs.declared.needs.Need.{Need};
ghost use Rattle.vo_spec.specs.declared.tables.Schema.{Schema};
ghost use Rattle.vo_spec.specs.Bytes.{IsBytes};
ghost use Rattle.vo_spec.specs.Checks.{has_shape};
ghost use Rattle.vo_spec.specs.Fits.{FitsPart, FitsTree};
ghost use Rattle.vo_spec.specs.Pruning.{has_surplus, is_missing};
ghost use Rattle.vo_spec.specs.Scans.{seen};
ghost use Rattle.vo_spec.specs.Trees.{RowTree, digest};
ghost use Rattle.vo_spec.specs.TreeBytes.{tree_bytes};
ghost use Rattle.tree_stream.specs.declared.findings.Summary.{Summary};
ghost use Rattle.tree_stream.specs.declared.target.Target.{Target};
ghost use Rattle.tree_stream.specs.Findings.{Rises, findings_in, target_of};
ghost use Rattle.tree_stream.specs.Remaining.{summary};
ghost use Rattle.tree_stream.specs.Summaries.{summary_of_tree};

/// A summary is read exactly where the encoding of a tree that keeps the limits is in front: the
/// tree's digest, and what is found in it.
pub fn trees_have_their_summary()
    ensures again { (target : Target) (tree : RowTree) (rest : List ℕ) → FitsTree tree
        → summary_of_tree target (tree_bytes tree ++ rest)
        ≡ Some (summary (digest tree) (findings_in target tree), rest) }
    ensures only { (target : Target) (bytes : List ℕ) (found : Summary) (rest : List ℕ)
        → IsBytes bytes → summary_of_tree target bytes ≡ Some (found, rest)
        → (tree : RowTree) × FitsTree tree × (bytes ≡ tree_bytes tree ++ rest)
        × (found ≡ summary (digest tree) (findings_in target tree)) }
{}

/// What is found for a need says whether the tree is missing something or has a surplus, and if it
/// is of the table's shape. Where nothing is missing and there is no surplus, the rows are those
/// that the scan gives, if the need's columns are in rising order.
pub fn findings_judge_proofs()
    ensures missing { (need : Need) (schema : Schema) (tree : RowTree) → FitsPart tree
        → is_missing (need ∷ []) tree ≡ (findings_in (target_of need schema) tree).is_missing }
    ensures surplus { (need : Need) (schema : Schema) (tree : RowTree) → FitsPart tree
        → has_surplus (need ∷ []) tree ≡ (findings_in (target_of need schema) tree).has_surplus }
    ensures shape { (need : Need) (schema : Schema) (tree : RowTree) → FitsPart tree
        → has_shape schema tree ≡ (findings_in (target_of need schema) tree).has_shape }
    ensures rows { (need : Need) (schema : Schema) (tree : RowTree) → FitsPart tree
        → Rises 0 need.columns
        → is_missing (need ∷ []) tree ≡ false → has_surplus (need ∷ []) tree ≡ false
        → seen need tree ≡ Some (findings_in (target_of need schema) tree).rows }
{}
