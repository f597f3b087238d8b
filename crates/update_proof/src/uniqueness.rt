//! A tree has one proof of a change.
ghost use Rattle.std.specs.Prelude.{◌≡◌, ℕ, false, List};
ghost use Rattle.vo_spec.specs.Trees.{RowTree, Prunes};
ghost use Rattle.vo_spec.specs.Inserts.{insert_is_missing, insert_has_surplus, insert_proof};
ghost use Rattle.vo_spec.specs.Removes.{remove_proof, replace_proof};
ghost use Rattle.update_proof.specs.Proving.{replace_is_missing, replace_has_surplus, remove_is_missing, remove_has_surplus};

/// Of the parts of a tree, the proof of a change is the one in which nothing is missing and nothing
/// is open that the change doesn't look at.
pub fn proofs_are_unique()
    ensures insertion { (key : List ℕ) (p t : RowTree) → insert_is_missing key p ≡ false
        → insert_has_surplus key p ≡ false → Prunes p t → p ≡ insert_proof key t }
    ensures replacement { (key : List ℕ) (p t : RowTree) → replace_is_missing key p ≡ false
        → replace_has_surplus key p ≡ false → Prunes p t → p ≡ replace_proof key t }
    ensures removal { (key : List ℕ) (p t : RowTree) → remove_is_missing key p ≡ false
        → remove_has_surplus key p ≡ false → Prunes p t → p ≡ remove_proof key t }
{}
