//! Two parts of trees that have one digest.
ghost use Rattle.std.specs.Prelude.{◌≡◌, ◌≢◌, List, ◌∷◌, ◌++◌, true, false, IfOk};
ghost use Rattle.vo_spec.specs.declared.needs.Need.{Need as ScanNeed};
ghost use Rattle.vo_spec.specs.Fits.{FitsPart};
ghost use Rattle.vo_spec.specs.Trees.{RowTree, digest};
ghost use Rattle.vo_spec.specs.Scans.{seen};
ghost use Rattle.vo_spec.specs.Pruning.{IsCanonical, is_missing};
ghost use Rattle.mb_tree.specs.View.{part_of};
ghost use Rattle.tree_collide.specs.Agreements.{SameOrFound, ToldAre};
ghost use Rattle.tree_collide.specs.Alike.{AreAlike};
ghost use Rattle.tree_collide.specs.Preimages.{ArePreimages};
ghost use Rattle.vo_spec.specs.Walks.{AreOneWalk, if_ended, walk};

use crate::twin_nodes::collision_of_twins;
use mb_tree::PartTree;
use std::alloc::{AllocError, Global};
use vo_spec::{Need, Twins};

/// Whether the two give one walk for the need; if not, what shows two byte strings of one digest.
/// All that both have open is compared, so that the walks for any other need are one too.
pub fn agree_walk(
    alloc: Global,
    first: &PartTree<'_>,
    second: &PartTree<'_>,
    need: &Need,
) -> Result<Twins, AllocError>
    requires fits { FitsPart (part_of first.now) }
    requires second_fits { FitsPart (part_of second.now) }
    requires same { digest (part_of first.now) ≡ digest (part_of second.now) }
    ensures walk { IfOk result (λ twins. SameOrFound twins
        (AreOneWalk (walk need.now (part_of first.now)) (walk need.now (part_of second.now)))
        (part_of first.now ≢ part_of second.now)) }
    ensures strings { IfOk result (λ twins.
        ToldAre twins (ArePreimages (part_of first.now) (part_of second.now))) }
{
    compare_parts(alloc, first, second)
}

/// Whether the two, each the proof of some tree for the needs, are the same; if not, what shows two
/// byte strings of one digest.
pub fn agree_two(
    alloc: Global,
    first: &PartTree<'_>,
    second: &PartTree<'_>,
    needs: &[Need],
) -> Result<Twins, AllocError>
    requires fits { FitsPart (part_of first.now) }
    requires second_fits { FitsPart (part_of second.now) }
    requires same { digest (part_of first.now) ≡ digest (part_of second.now) }
    requires canonical { IsCanonical needs.now (part_of first.now) }
    requires second_canonical { IsCanonical needs.now (part_of second.now) }
    ensures same { IfOk result (λ twins.
        SameOrFound twins (part_of first.now ≡ part_of second.now)
        (part_of first.now ≢ part_of second.now)) }
    ensures strings { IfOk result (λ twins.
        ToldAre twins (ArePreimages (part_of first.now) (part_of second.now))) }
{
    compare_parts(alloc, first, second)
}

fn compare_parts(
    alloc: Global,
    first: &PartTree<'_>,
    second: &PartTree<'_>,
) -> Result<Twins, AllocError>
    requires fits { FitsPart (part_of first.now) }
    requires second_fits { FitsPart (part_of second.now) }
    requires same { digest (part_of first.now) ≡ digest (part_of second.now) }
    ensures alike { IfOk result (λ twins.
        SameOrFound twins (AreAlike (part_of first.now) (part_of second.now))
        (AreAlike (part_of first.now) (part_of second.now) → ⊥)) }
    ensures strings { IfOk result (λ twins.
        ToldAre twins (ArePreimages (part_of first.now) (part_of second.now))) }
{
    match collision_of_twins(alloc, first, second)? {
        None => Ok(Twins::Same),
        Some(found) => Ok(Twins::Collides(found)),
    }
}

/// A walk has an end exactly where a scan misses nothing, and its rows are then what the scan
/// gives. So the walk for one of the needs of a tree that misses nothing for them has an end, and
/// where two walks that are one have ends, the scans give the same.
pub fn walks_show_what_is_seen()
    ensures seen { (need : ScanNeed) (p : RowTree) → seen need p ≡ if_ended (walk need p) }
    ensures complete { (before : List ScanNeed) (need : ScanNeed) (after : List ScanNeed)
        (p : RowTree) → is_missing (before ++ need ∷ after) p ≡ false
        → (walk need p).has_end ≡ true }
    ensures same { (need : ScanNeed) (p q : RowTree) → AreOneWalk (walk need p) (walk need q)
        → (walk need p).has_end ≡ true → (walk need q).has_end ≡ true
        → seen need p ≡ seen need q }
{}
