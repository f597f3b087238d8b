//! Proofs have one reading.

ghost use Rattle.std.specs.Prelude.{◌≡◌, ℕ, List, Ok};
ghost use Rattle.vo_spec.specs.declared.tables.Command.{Command};
ghost use Rattle.vo_spec.specs.Trees.{RowTree};
ghost use Rattle.vo_spec.specs.Replies.{AreProofs};
ghost use Rattle.owner_roots.specs.declared.owner_fault.OwnerFault.{OwnerFault};
ghost use Rattle.owner_roots.specs.declared.roots.Roots.{Roots};
ghost use Rattle.std.specs.Prelude.{Result};
ghost use Rattle.owner_roots.specs.Next.{NextOf};

/// Bytes are the proofs of one list of trees at most, so an owner has one answer to them.
pub fn proofs_have_one_reading()
    ensures trees { (bytes : List ℕ) (ps qs : List RowTree) → AreProofs bytes ps
        → AreProofs bytes qs → ps ≡ qs }
    ensures answer { (roots : Roots) (commands : List Command) (bytes : List ℕ)
        (a b : Result Roots OwnerFault) → NextOf roots commands bytes a
        → NextOf roots commands bytes b → a ≡ b }
{}
