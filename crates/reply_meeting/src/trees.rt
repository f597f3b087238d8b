//! The trees of two replies, each of them the proof for its needs.
ghost use Rattle.std.specs.Prelude.{◌≡◌, length, map, IfOk};
ghost use Rattle.std.specs.List.{AllZip};
ghost use Rattle.vo_spec.specs.Pruning.{IsCanonical};
ghost use Rattle.mb_tree.specs.View.{part_of};
ghost use Rattle.tree_collide.specs.Agreements.{HoldsOrCollides};
ghost use Rattle.tree_collide.specs.Preimages.{AreOfTrees};
ghost use Rattle.reply_meeting.specs.Comparing.{AreTwins};

use mb_tree::PartTree;
use std::alloc::{AllocError, Global};
use tree_collide::{Twins, agree_two};
use vo_spec::{Collision, List, Need};

/// None where the trees are the same, else two byte strings of one digest.
pub(crate) fn compare_proofs(
    alloc: Global,
    needs: &[List<Need>],
    first: &[PartTree<'_>],
    second: &[PartTree<'_>],
) -> Result<Option<Collision>, AllocError>
    requires count { length first.now ≡ length second.now }
    requires needs_count { length needs.now ≡ length first.now }
    requires twins { AllZip AreTwins (map part_of first.now) (map part_of second.now) }
    requires canonical { AllZip IsCanonical needs.now (map part_of first.now) }
    requires second_canonical { AllZip IsCanonical needs.now (map part_of second.now) }
    ensures { IfOk result (λ found.
        HoldsOrCollides found (map part_of first.now ≡ map part_of second.now)
        (AreOfTrees (map part_of first.now) (map part_of second.now))) }
{
    for (place, tree) in first.iter().enumerate() {
        match agree_two(alloc, tree, &second[place], needs[place].as_slice())? {
            Twins::Same => {},
            Twins::Collides(found) => return Ok(Some(found)),
        }
    }
    Ok(None)
}
