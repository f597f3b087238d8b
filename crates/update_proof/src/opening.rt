//! What of a tree must be open for a change.
ghost use Rattle.std.specs.Prelude.{◌≡◌, ◌≤◌, ◌<◌, ◌+◌, length, map, IfOk};
ghost use Rattle.vo_spec.specs.Parts.{inner};
ghost use Rattle.vo_spec.specs.Trees.{open_parts};
ghost use Rattle.vo_spec.specs.Inserts.{insert_proof as proof_of_insertion};
ghost use Rattle.vo_spec.specs.Removes.{remove_proof as proof_of_removal, replace_proof as proof_of_replacement};
ghost use Rattle.mb_tree.specs.View.{part_of};
ghost use Rattle.update_proof.specs.Changes.{change_proof, with_sibling};
ghost use Rattle.update_proof.specs.Proving.{update_proof};

use crate::change::{Change, change_of, key_of, step_of};
use crate::opening_rows::open_rows;
use crate::replacing::with_item;
use crate::stubs::{hash_subtrees, open_node};
use btree::{Step, sibling_of};
use mb_tree::{Children, Node, PartTree, Subtree, Tree, TreeKey, inner_part};
use mb_update::Op;
use std::alloc::{AllocError, Global};

/// The proof of the change: what of the tree it looks at, and no more.
pub fn prune_update<'b>(
    alloc: Global,
    tree: &'b Tree,
    op: &Op<'_>,
) -> Result<PartTree<'b>, AllocError>
    ensures { IfOk result (λ part. part_of part ≡ update_proof op.now tree.now) }
{
    open_along(alloc, tree.root(), key_of(op), change_of(op))
}

/// The part of the tree that an insertion of this key looks at. Its keys are lent by the tree.
pub fn insert_proof<'b>(
    alloc: Global,
    tree: &'b Tree,
    key: &[u8],
) -> Result<PartTree<'b>, AllocError>
    ensures { IfOk result (λ part. part_of part ≡ proof_of_insertion key.now tree.now) }
{
    open_along(alloc, tree.root(), key, Change::Insertion)
}

/// The part of the tree that a replacement in the row of this key looks at. Its keys are lent by
/// the tree.
pub fn replace_proof<'b>(
    alloc: Global,
    tree: &'b Tree,
    key: &[u8],
) -> Result<PartTree<'b>, AllocError>
    ensures { IfOk result (λ part. part_of part ≡ proof_of_replacement key.now tree.now) }
{
    open_along(alloc, tree.root(), key, Change::Replacement)
}

/// The part of the tree that a removal of this key looks at. Its keys are lent by the tree.
pub fn remove_proof<'b>(
    alloc: Global,
    tree: &'b Tree,
    key: &[u8],
) -> Result<PartTree<'b>, AllocError>
    ensures { IfOk result (λ part. part_of part ≡ proof_of_removal key.now tree.now) }
{
    open_along(alloc, tree.root(), key, Change::Removal)
}

/// The subtree with the path to the key's leaf open, and the siblings of the nodes that are left
/// underfull.
#[cycle(open_along)]
fn open_along<'b>(
    alloc: Global,
    subtree: &'b Subtree,
    key: &[u8],
    change: Change,
) -> Result<PartTree<'b>, AllocError>
    ensures { IfOk result (λ part. part_of part ≡ change_proof change key.now subtree.now) }
{
    match subtree.node() {
        Node::Leaf(entries) => Ok(PartTree::Leaf(open_rows(alloc, entries, key, change)?)),
        Node::Inner {
            separators,
            children,
        } => {
            let children = open_children(alloc, separators, children, key, change)?;
            inner_part(alloc, separators, children)
        },
    }
}

#[cycle(open_along)]
fn open_children<'b>(
    alloc: Global,
    separators: &[TreeKey],
    children: &'b [Subtree],
    key: &[u8],
    change: Change,
) -> Result<Children<'b>, AllocError>
    requires least { 2 ≤ length children.now }
    requires between { length separators.now + 1 ≡ length children.now }
    ensures { IfOk result (λ parts. inner separators.now parts
        ≡ change_proof change key.now (inner separators.now (open_parts children.now))) }
{
    let step = step_of(change, separators, children, key);
    let closed = hash_subtrees(alloc, children)?;
    let child = open_along(alloc, &children[step.child], key, change);
    let parts = with_item(closed, step.child, child)?;
    open_sibling(alloc, children, step, parts)
}

/// The parts with the node of the sibling of the step's child in its place, if it is opened.
fn open_sibling<'b>(
    alloc: Global,
    children: &'b [Subtree],
    step: Step,
    parts: Vec<PartTree<'b>>,
) -> Result<Children<'b>, AllocError>
    requires at { step.child < length children.now }
    requires least { 2 ≤ length children.now }
    requires same { length parts.items ≡ length children.now }
    ensures { IfOk result (λ all. all ≡ open_parts (with_sibling step.child step.opens_sibling
        children.now (map part_of parts.entry.items))) }
{
    if !step.opens_sibling {
        return Ok(Children::from_vec(parts));
    }
    let sibling = sibling_of(step.child);
    let node = open_node(alloc, &children[sibling]);
    Ok(Children::from_vec(with_item(parts, sibling, node)?))
}
