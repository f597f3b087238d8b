//! The proof that the only need has which visits a node.
ghost use Rattle.std.specs.Prelude.{◌≡◌, [], ◌∷◌, map, IfOk};
ghost use Rattle.vo_spec.specs.Trees.{row_family, open_parts};
ghost use Rattle.vo_spec.specs.Pruning.{pruned_by, pruned_in, walk_for};
ghost use Rattle.mb_tree.specs.View.{part_of};

use crate::active_needs::ActiveNeeds;
use crate::nodes::{prune_entries, separator_at};
use key_intervals::visits_from;
use mb_tree::{Children, Node, PartTree, Subtree, TreeKey, inner_part};
use std::alloc::{AllocError, Global};
use vo_spec::Need;

#[cycle(prune_for_one)]
fn prune_for_one<'b>(
    alloc: Global,
    subtree: &'b Subtree,
    needs: &ActiveNeeds<'_, 'b>,
    need: &Need,
) -> Result<PartTree<'b>, AllocError>
    ensures { IfOk result (λ part. part_of part
        ≡ pruned_by (walk_for needs.now.all) row_family (need.now ∷ []) subtree.now) }
{
    match subtree.node() {
        Node::Leaf(entries) => Ok(PartTree::Leaf(prune_entries(alloc, entries, needs)?)),
        Node::Inner {
            separators,
            children,
        } => {
            let children = prune_children_for_one(alloc, separators, children, needs, need)?;
            inner_part(alloc, separators, children)
        },
    }
}

/// The node's children, of which the only active need goes on to some. What they show goes by all
/// needs, as ever.
#[cycle(prune_for_one)]
pub fn prune_children_for_one<'b>(
    alloc: Global,
    separators: &'b [TreeKey],
    children: &'b [Subtree],
    needs: &ActiveNeeds<'_, 'b>,
    need: &Need,
) -> Result<Children<'b>, AllocError>
    ensures { IfOk result (λ parts. parts
        ≡ pruned_in (walk_for needs.now.all) row_family (need.now ∷ []) None separators.now
        (open_parts children.now)) }
{
    let mut parts = Vec::with_capacity(alloc, children.len())?;
    let mut is_past = false;
    let mut lower = None;
    for (place, child) in children.iter().enumerate() {
        let upper = separator_at(separators, place);
        if visits_from(is_past, &need.interval, lower, upper) {
            parts.push(prune_for_one(alloc, child, needs, need)?)?;
            is_past = true;
        } else {
            parts.push(PartTree::Stub(child.node_digest()))?;
        }
        lower = upper;
    }
    Ok(Children::from_vec(parts))
}
