//! Laws of the journals that an owner has written.

ghost use Rattle.std.specs.Prelude.{◌≡◌, ◌↔◌, ℕ, ◌+◌, ◌<◌, List, [], ◌∷◌, ◌++◌, take, length, slice_get, Some, Ok};
ghost use Rattle.vo_spec.specs.declared.records.Entry.{Entry};
ghost use Rattle.vo_spec.specs.declared.tables.Command.{Command};
ghost use Rattle.owner_roots.specs.declared.roots.Roots.{Roots};
ghost use Rattle.owner_roots.specs.Next.{NextOf};
ghost use Rattle.owner_roots.specs.Owners.{AreOwned, AreOwnedTo, IsFirstEntry, IsNextEntry, first_roots};

/// Journals of an owner grow entry by entry, and what stands before an entry is such a journal too.
/// The roots behind the last entry have its version, which is its number.
pub fn owned_journals_grow_by_entries()
    ensures first { (key : List ℕ) (e : Entry) (behind : Roots) → AreOwnedTo key (e ∷ []) behind
        ↔ (IsFirstEntry key e × (first_roots ≡ behind)) }
    ensures grows { (key : List ℕ) (es : List Entry) (e : Entry) (behind : Roots) → 0 < length es
        → AreOwnedTo key (es ++ e ∷ []) behind
        ↔ ((before : Roots) × AreOwnedTo key es before × IsNextEntry key before e behind) }
    ensures owned { (key : List ℕ) (es : List Entry) → 0 < length es
        → AreOwned key es ↔ ((behind : Roots) × AreOwnedTo key es behind) }
    ensures front { (key : List ℕ) (n : ℕ) (es : List Entry) → AreOwned key es
        → AreOwned key (take n es) }
    ensures next_version { (before : Roots) (batch : List Command) (proofs : List ℕ) (after : Roots)
        → NextOf before batch proofs (Ok after) → after.version ≡ before.version + 1 }
    ensures version { (key : List ℕ) (es : List Entry) (behind : Roots) → AreOwnedTo key es behind
        → behind.version + 1 ≡ length es }
    ensures number { (key : List ℕ) (es : List Entry) (version : ℕ) (e : Entry) → AreOwned key es
        → slice_get es version ≡ Some e → e.rec.version ≡ version }
{}
