//! The proof for some needs that a whole tree has.
ghost use Rattle.std.specs.Prelude.{◌≡◌, true, map, IfOk};
ghost use Rattle.vo_spec.specs.Trees.{row_family, open_parts};
ghost use Rattle.vo_spec.specs.Pruning.{prune_tree, pruned_by, pruned_in, walk_for, is_any};
ghost use Rattle.mb_tree.specs.View.{part_of};

use crate::active_needs::ActiveNeeds;
use crate::need_lists::lend_needs;
use crate::nodes::{prune_entries, separator_at};
use crate::prune_for_one::prune_children_for_one;
use mb_tree::{Children, Node, PartTree, Subtree, Tree, TreeKey, inner_part};
use std::alloc::{AllocError, Global};
use vo_spec::Need;

/// The part of the tree that is the proof for these needs.
pub fn prune<'b>(alloc: Global, tree: &'b Tree, needs: &[Need]) -> Result<PartTree<'b>, AllocError>
    ensures { IfOk result (λ part. part_of part ≡ prune_tree needs.now tree.now) }
{
    let all = lend_needs(alloc, needs)?;
    let active = ActiveNeeds::at_root(alloc, &all)?;
    if active.is_empty() {
        return Ok(PartTree::Stub(tree.root().node_digest()));
    }
    open_subtree(alloc, tree.root(), &active)
}

#[cycle(prune)]
fn open_subtree<'b>(
    alloc: Global,
    subtree: &'b Subtree,
    needs: &ActiveNeeds<'_, 'b>,
) -> Result<PartTree<'b>, AllocError>
    requires { is_any needs.now.active ≡ true }
    ensures { IfOk result (λ part. part_of part
        ≡ pruned_by (walk_for needs.now.all) row_family needs.now.active subtree.now) }
{
    match subtree.node() {
        Node::Leaf(entries) => Ok(PartTree::Leaf(prune_entries(alloc, entries, needs)?)),
        Node::Inner {
            separators,
            children,
        } => {
            let children = prune_children(alloc, separators, children, needs)?;
            inner_part(alloc, separators, children)
        },
    }
}

/// The node's children. Most nodes far from the root have one active need alone, which needs no
/// lists.
#[cycle(prune)]
fn prune_children<'b>(
    alloc: Global,
    separators: &'b [TreeKey],
    children: &'b [Subtree],
    needs: &ActiveNeeds<'_, 'b>,
) -> Result<Children<'b>, AllocError>
    ensures { IfOk result (λ parts. parts
        ≡ pruned_in (walk_for needs.now.all) row_family needs.now.active None separators.now
        (open_parts children.now)) }
{
    match needs.single_need() {
        Some(need) => prune_children_for_one(alloc, separators, children, needs, need),
        None => prune_each(alloc, separators, children, needs),
    }
}

#[cycle(prune)]
fn prune_each<'b>(
    alloc: Global,
    separators: &'b [TreeKey],
    children: &'b [Subtree],
    needs: &ActiveNeeds<'_, 'b>,
) -> Result<Children<'b>, AllocError>
    ensures { IfOk result (λ parts. parts
        ≡ pruned_in (walk_for needs.now.all) row_family needs.now.active None separators.now
        (open_parts children.now)) }
{
    let mut parts = Vec::with_capacity(alloc, children.len())?;
    let mut lower = None;
    for (place, child) in children.iter().enumerate() {
        let upper = separator_at(separators, place);
        let mut active = Vec::new(alloc);
        needs.push_active(&mut active, lower, upper)?;
        if active.is_empty() {
            parts.push(PartTree::Stub(child.node_digest()))?;
        } else {
            let below = needs.at_child(active, lower, upper);
            parts.push(open_subtree(alloc, child, &below)?)?;
        }
        lower = upper;
    }
    Ok(Children::from_vec(parts))
}
