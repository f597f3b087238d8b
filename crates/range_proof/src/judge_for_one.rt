//! Whether a part of a tree is the proof for the only need that visits it.
ghost use Rattle.std.specs.Prelude.{◌≡◌, [], ◌∷◌};
ghost use Rattle.vo_spec.specs.Pruning.{is_missing_by, is_missing_in, has_surplus_by, has_surplus_in, walk_for};
ghost use Rattle.mb_tree.specs.View.{part_of, parts_of};
ghost use Rattle.range_proof.specs.Judging.{JudgesOrMissing};

use crate::active_needs::ActiveNeeds;
use crate::judging::judge_node;
use crate::leaves::judge_entries;
use crate::separators::separator_at;
use key_intervals::visits_from;
use mb_tree::PartTree;
use std::alloc::Global;
use vo_spec::{KeyPart, Need, ScanFault};

#[cycle(judge)]
fn judge_for_one<'k>(
    alloc: Global,
    tree: &'k PartTree<'_>,
    needs: &ActiveNeeds<'_, 'k>,
    need: &Need,
) -> Result<bool, ScanFault>
    ensures { let walk = walk_for needs.now.all in
        JudgesOrMissing result (is_missing_by walk (need.now ∷ []) (part_of tree.now))
        (has_surplus_by walk (need.now ∷ []) (part_of tree.now)) }
{
    match tree {
        PartTree::Stub(_) => Err(ScanFault::Missing),
        PartTree::Leaf(entries) => judge_entries(alloc, entries.as_slice(), needs),
        PartTree::Inner {
            separators,
            children,
        } => judge_children_for_one(
            alloc,
            separators.as_slice(),
            children.as_slice(),
            needs,
            need,
        ),
    }
}

/// The node's children, of which the only active need goes on to some. What they are to show goes
/// by all needs, as ever.
#[cycle(judge)]
pub fn judge_children_for_one<'k>(
    alloc: Global,
    separators: &'k [KeyPart<'_>],
    children: &'k [PartTree<'_>],
    needs: &ActiveNeeds<'_, 'k>,
    need: &Need,
) -> Result<bool, ScanFault>
    ensures { let walk = walk_for needs.now.all in let s = need.now ∷ [] in
        JudgesOrMissing result (is_missing_in walk s None separators.now (parts_of children.now))
        (has_surplus_in walk s None separators.now (parts_of children.now)) }
{
    let mut surplus = false;
    let mut is_past = false;
    let mut lower = None;
    for (place, child) in children.iter().enumerate() {
        let upper = separator_at(separators, place);
        let judged = if visits_from(is_past, &need.interval, lower, upper) {
            is_past = true;
            judge_for_one(alloc, child, needs, need)
        } else {
            judge_unvisited(alloc, child, needs)
        };
        match judged {
            Ok(more) => surplus = surplus || more,
            Err(fault) => return Err(fault),
        }
        lower = upper;
    }
    Ok(surplus)
}

/// A child that no need visits. Nearly all are stubs, as they are to be.
#[cycle(judge)]
fn judge_unvisited<'k>(
    alloc: Global,
    child: &'k PartTree<'_>,
    needs: &ActiveNeeds<'_, 'k>,
) -> Result<bool, ScanFault>
    ensures { let walk = walk_for needs.now.all in
        JudgesOrMissing result (is_missing_by walk [] (part_of child.now))
        (has_surplus_by walk [] (part_of child.now)) }
{
    match child {
        PartTree::Stub(_) => Ok(false),
        PartTree::Leaf(_) | PartTree::Inner { .. } => {
            judge_node(alloc, child, &needs.none_active(alloc))
        },
    }
}
