//! Whether a part of a tree is the proof for some needs.
ghost use Rattle.std.specs.Prelude.{◌≡◌, not};
ghost use Rattle.vo_spec.specs.Pruning.{
  is_missing,
  has_surplus,
  is_missing_by,
  is_missing_in,
  has_surplus_by,
  has_surplus_in,
  walk_for,
};
ghost use Rattle.mb_tree.specs.View.{part_of, parts_of};
ghost use Rattle.range_proof.specs.Judging.{JudgesOrMissing};

use crate::active_needs::ActiveNeeds;
use crate::judge_for_one::judge_children_for_one;
use crate::leaves::judge_entries;
use crate::need_lists::lend_needs;
use crate::separators::separator_at;
use mb_tree::PartTree;
use std::alloc::Global;
use vo_spec::{KeyPart, Need, ScanFault};

/// Whether the part is the proof for these needs, as far as it alone can tell: with nothing
/// missing, true exactly where nothing is there beyond what is needed.
pub fn is_canonical(alloc: Global, tree: &PartTree<'_>, needs: &[Need]) -> Result<bool, ScanFault>
    ensures { JudgesOrMissing result (is_missing needs.now (part_of tree.now))
        (not (has_surplus needs.now (part_of tree.now))) }
{
    let all = lend_needs(alloc, needs)?;
    let active = ActiveNeeds::at_root(alloc, &all)?;
    Ok(!judge_node(alloc, tree, &active)?)
}

#[cycle(judge)]
pub fn judge_node<'k>(
    alloc: Global,
    tree: &'k PartTree<'_>,
    needs: &ActiveNeeds<'_, 'k>,
) -> Result<bool, ScanFault>
    ensures { let walk = walk_for needs.now.all in let s = needs.now.active in
        JudgesOrMissing result (is_missing_by walk s (part_of tree.now))
        (has_surplus_by walk s (part_of tree.now)) }
{
    match tree {
        PartTree::Stub(_) => {
            if needs.is_empty() {
                Ok(false)
            } else {
                Err(ScanFault::Missing)
            }
        },
        PartTree::Leaf(entries) => {
            let surplus = judge_entries(alloc, entries.as_slice(), needs)?;
            Ok(needs.is_empty() || surplus)
        },
        PartTree::Inner {
            separators,
            children,
        } => {
            let surplus = judge_children(alloc, separators.as_slice(), children.as_slice(), needs)?;
            Ok(needs.is_empty() || surplus)
        },
    }
}

/// The node's children. Most nodes far from the root have one active need alone, which needs no
/// lists.
#[cycle(judge)]
fn judge_children<'k>(
    alloc: Global,
    separators: &'k [KeyPart<'_>],
    children: &'k [PartTree<'_>],
    needs: &ActiveNeeds<'_, 'k>,
) -> Result<bool, ScanFault>
    ensures { let walk = walk_for needs.now.all in let s = needs.now.active in
        JudgesOrMissing result (is_missing_in walk s None separators.now (parts_of children.now))
        (has_surplus_in walk s None separators.now (parts_of children.now)) }
{
    match needs.single_need() {
        Some(need) => judge_children_for_one(alloc, separators, children, needs, need),
        None => judge_each(alloc, separators, children, needs),
    }
}

#[cycle(judge)]
fn judge_each<'k>(
    alloc: Global,
    separators: &'k [KeyPart<'_>],
    children: &'k [PartTree<'_>],
    needs: &ActiveNeeds<'_, 'k>,
) -> Result<bool, ScanFault>
    ensures { let walk = walk_for needs.now.all in let s = needs.now.active in
        JudgesOrMissing result (is_missing_in walk s None separators.now (parts_of children.now))
        (has_surplus_in walk s None separators.now (parts_of children.now)) }
{
    let mut surplus = false;
    let mut lower = None;
    for (place, child) in children.iter().enumerate() {
        let upper = separator_at(separators, place);
        let below = needs.descend(alloc, lower, upper)?;
        match judge_node(alloc, child, &below) {
            Ok(more) => surplus = surplus || more,
            Err(fault) => return Err(fault),
        }
        lower = upper;
    }
    Ok(surplus)
}
