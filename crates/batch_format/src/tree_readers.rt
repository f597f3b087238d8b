//! What reading part trees from the front of bytes gives, as definitions: the trees whose encoding
//! stands there.
ghost use Rattle.std.specs.Prelude.{◌≡◌, ℕ, List, ◌++◌, Some};
ghost use Rattle.vo_spec.specs.Bytes.{IsBytes};
ghost use Rattle.vo_spec.specs.Fits.{FitsTree, max_levels};
ghost use Rattle.vo_spec.specs.Trees.{RowTree};
ghost use Rattle.vo_spec.specs.TreeBytes.{tree_bytes};
ghost use Rattle.batch_format.specs.TreeReading.{tree_at};

/// A tree is read exactly where its encoding is in front.
pub fn trees_are_read()
    ensures found { (bytes rest : List ℕ) (tree : RowTree) → IsBytes bytes
        → tree_at max_levels bytes ≡ Some (tree, rest)
        → FitsTree tree × (bytes ≡ tree_bytes tree ++ rest) }
    ensures again { (tree : RowTree) (rest : List ℕ) → FitsTree tree
        → tree_at max_levels (tree_bytes tree ++ rest) ≡ Some (tree, rest) }
{}
