//! Laws of totals trees, of their proofs for intervals, and of what these answer.

ghost use Rattle.std.specs.Prelude.{◌≡◌, ◌⊎◌, ◌+◌, ◌*◌, ◌^◌, ◌<◌, ◌≤◌, ℕ, ℤ, FitsSigned, Ok, List, Option, Some, None, filter, length, true, false};
ghost use Rattle.std.specs.Int.{w64};
ghost use Rattle.vo_spec.specs.declared.keys.Interval.{Interval};
ghost use Rattle.vo_spec.specs.Parts.{levels, entries};
ghost use Rattle.vo_spec.specs.Scans.{in_interval, visits};
ghost use Rattle.vo_spec.specs.Representation.{IsTree};
ghost use Rattle.totals_laws.specs.declared.totals.TotalEntry.{TotalEntry};
ghost use Rattle.totals_laws.specs.TotalsTrees.{
  TotalsPart,
  AreCounted,
  AreEntries,
  FitsTotalEntry,
  FitsTotals,
  HoldsTotals,
  Prunes,
  StandsFor,
  digest,
  sum_of_values,
  totals_family,
};
ghost use Rattle.btree.specs.Agreement.{AgreesWithTree};
ghost use Rattle.totals_laws.specs.TotalsChanges.{
  PutsEntry,
  SetsValue,
  RemovesEntry,
  tree_with,
  tree_with_value,
  tree_without,
};
ghost use Rattle.totals_laws.specs.TotalsCollisions.{AreFound};
ghost use Rattle.totals_laws.specs.TotalsProofs.{
  IsCanonical,
  answer,
  child_end,
  is_missing,
  open_nodes,
  prune_totals,
};

/// In a whole totals tree each parent holds of each child the number of the child's entries, and
/// their sum.
pub fn parents_hold_totals()
    ensures { (t : TotalsPart) → IsTree totals_family t → HoldsTotals t }
{}

/// A part of a tree that stands for some entries, in which nothing is missing for an interval,
/// answers how many of the entries have their keys in the interval, and their sum.
pub fn parts_give_the_totals()
    ensures count { (interval : Interval) (p t : TotalsPart) (es : List TotalEntry) → StandsFor t es
        → AreEntries es → Prunes p t → is_missing interval p ≡ false
        → let inside : List TotalEntry = filter (λ e. in_interval interval e.key) es in
        (answer interval p).count ≡ length inside }
    ensures sum { (interval : Interval) (p t : TotalsPart) (es : List TotalEntry) → StandsFor t es
        → AreEntries es → Prunes p t → is_missing interval p ≡ false
        → let inside : List TotalEntry = filter (λ e. in_interval interval e.key) es in
        (answer interval p).sum ≡ sum_of_values inside }
{}

/// What a tree has open for an interval prunes it, and so has its digest; it is canonical; no other
/// part of the tree is; and it has two open nodes on each level at most, of which there are eleven
/// at most, and one root.
pub fn totals_have_one_proof()
    ensures prunes { (interval : Interval) (t : TotalsPart) → Prunes (prune_totals interval t) t }
    ensures digest { (p t : TotalsPart) → Prunes p t → digest p ≡ digest t }
    ensures canonical { (interval : Interval) (t : TotalsPart) → IsTree totals_family t
        → IsCanonical interval (prune_totals interval t) }
    ensures only { (interval : Interval) (p t : TotalsPart) → Prunes p t → IsCanonical interval p
        → p ≡ prune_totals interval t }
    ensures paths { (interval : Interval) (t : TotalsPart) → IsTree totals_family t
        → open_nodes (prune_totals interval t) + 1 ≤ 2 * levels t }
    ensures few { (interval : Interval) (t : TotalsPart) → IsTree totals_family t
        → length (entries t) < 2 ^ 32 → open_nodes (prune_totals interval t) ≤ 21 }
{}

/// What becomes of a tree that stands for some entries stands for what becomes of these.
pub fn trees_stand_after_changes()
    ensures put { (e : TotalEntry) (t : TotalsPart) (es : List TotalEntry) → StandsFor t es
        → PutsEntry e es (tree_with e.key e.value t) }
    ensures set { (key : List ℕ) (value : ℤ) (t : TotalsPart) (es : List TotalEntry)
        → StandsFor t es → SetsValue key value es (tree_with_value key value t) }
    ensures remove { (key : List ℕ) (t : TotalsPart) (es : List TotalEntry) → StandsFor t es
        → RemovesEntry key es (tree_without key t) }
{}

/// Where a part prunes a tree, a change of the part is Missing, or it has the fault of the same
/// change of the tree, or it gives what prunes the tree that comes of that.
pub fn changes_of_parts_agree()
    ensures put { (key : List ℕ) (value : ℤ) (p t : TotalsPart) → Prunes p t
        → AgreesWithTree Prunes (tree_with key value p) (tree_with key value t) }
    ensures set { (key : List ℕ) (value : ℤ) (p t : TotalsPart) → Prunes p t
        → AgreesWithTree Prunes (tree_with_value key value p) (tree_with_value key value t) }
    ensures remove { (key : List ℕ) (p t : TotalsPart) → Prunes p t
        → AgreesWithTree Prunes (tree_without key p) (tree_without key t) }
{}

/// A change of a part keeps it within the limits of its bytes.
pub fn changes_keep_limits()
    ensures put { (key : List ℕ) (value : ℤ) (p q : TotalsPart)
        → FitsTotalEntry (record { key = key; value = value }) → FitsTotals p
        → tree_with key value p ≡ Ok q → FitsTotals q }
    ensures set { (key : List ℕ) (value : ℤ) (p q : TotalsPart) → FitsSigned w64 value
        → FitsTotals p → tree_with_value key value p ≡ Ok q → FitsTotals q }
    ensures remove { (key : List ℕ) (p q : TotalsPart) → FitsTotals p → tree_without key p ≡ Ok q
        → FitsTotals q }
{}

/// Of a part and a whole tree of one digest the part prunes the tree, or the preimages of two nodes
/// that stand at one place of them are two different byte strings of one digest.
pub fn parts_prune_or_collide()
    ensures { (p t : TotalsPart) → FitsTotals p → AreCounted p → FitsTotals t
        → IsTree totals_family t → digest p ≡ digest t → Prunes p t ⊎ AreFound p t }
{}

/// Two parts of one digest that are both the proof for one interval are the same, or the preimages
/// of two nodes that stand at one place of them are two different byte strings of one digest.
pub fn proofs_are_one_or_collide()
    ensures { (interval : Interval) (p q : TotalsPart) → FitsTotals p → FitsTotals q → AreCounted p
        → AreCounted q → IsCanonical interval p → IsCanonical interval q → digest p ≡ digest q
        → (p ≡ q) ⊎ AreFound p q }
{}

/// A child of a node that is met is met by the separators in the node alone, where a missing one
/// lets it pass, as it is by where it begins and ends.
pub fn children_are_met_by_own_separators()
    ensures first { (interval : Interval) (lower end s : Option (List ℕ))
        → visits interval lower end ≡ true
        → visits interval lower (child_end s end) ≡ visits interval None s }
    ensures later { (interval : Interval) (lower end s : Option (List ℕ)) (x : List ℕ)
        → visits interval lower end ≡ true
        → visits interval (Some x) (child_end s end) ≡ visits interval (Some x) s }
{}
