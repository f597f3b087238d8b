//! Nodes of part trees against those of whole trees.
ghost use Rattle.std.specs.Prelude.{◌≡◌, true, length, IfOk};
ghost use Rattle.vo_spec.specs.Cells.{EntryPrunes};
ghost use Rattle.vo_spec.specs.Parts.{PrunesEach};
ghost use Rattle.vo_spec.specs.Trees.{digest, Prunes, row_family, open_parts};
ghost use Rattle.vo_spec.specs.Fits.{FitsPart, FitsEach, FitsEntry};
ghost use Rattle.mb_tree.specs.View.{part_of, parts_of};
ghost use Rattle.mb_tree.specs.Whole.{whole_of};
ghost use Rattle.tree_collide.specs.Agreements.{HoldsOrCollides, HoldsOrFound, FoundAre, IsLike, SameNodes, is_open};
ghost use Rattle.tree_collide.specs.Preimages.{ArePreimages, BelowNodes, NodesIn};

use crate::comparison::compare;
use crate::entries::collision_of_entries;
use crate::pruning::prunes;
use mb_tree::{Node, PartTree, Subtree, Tree};
use std::alloc::{AllocError, Global};
use vo_spec::{Agreement, Collision};

/// Whether the part prunes the tree, whose digest is the same; if not, what shows two byte strings
/// of one digest.
pub fn agree(alloc: Global, part: &PartTree<'_>, tree: &Tree) -> Result<Agreement, AllocError>
    requires fits { FitsPart (part_of part.now) }
    requires same { digest (part_of part.now) ≡ digest tree.now }
    ensures prunes { IfOk result (λ agreement.
        HoldsOrFound agreement (Prunes (part_of part.now) tree.now)) }
    ensures strings { IfOk result (λ agreement.
        FoundAre agreement (ArePreimages (part_of part.now) tree.now)) }
{
    if prunes(part, tree.root()) {
        return Ok(Agreement::Prunes);
    }
    match collision_of_subtree(alloc, part, tree.root())? {
        None => Ok(Agreement::Prunes),
        Some(found) => Ok(Agreement::Collides(found)),
    }
}

#[cycle(agree)]
fn collision_of_subtree(
    alloc: Global,
    part: &PartTree<'_>,
    subtree: &Subtree,
) -> Result<Option<Collision>, AllocError>
    requires fits { FitsPart (part_of part.now) }
    requires same { digest (part_of part.now) ≡ digest subtree.now }
    ensures { IfOk result (λ found. HoldsOrCollides found (Prunes (part_of part.now) subtree.now)
        (ArePreimages (part_of part.now) subtree.now)) }
{
    match part {
        PartTree::Stub(_) => Ok(None),
        PartTree::Leaf(_) => collision_of_node(alloc, part, subtree),
        PartTree::Inner { .. } => collision_of_node(alloc, part, subtree),
    }
}

#[cycle(agree)]
#[tactic(auto, using(crate::proofs::Reading::like, crate::proofs::Keeping::preimage_kept, crate::proofs::Keeping::open_hash, crate::proofs::Children::node_open, crate::proofs::Strings::node_strings, crate::proofs::Strings::of_below))]
fn collision_of_node(
    alloc: Global,
    part: &PartTree<'_>,
    subtree: &Subtree,
) -> Result<Option<Collision>, AllocError>
    requires open { is_open (part_of part.now) ≡ true }
    requires fits { FitsPart (part_of part.now) }
    requires same { digest (part_of part.now) ≡ digest subtree.now }
    ensures { IfOk result (λ found. HoldsOrCollides found (Prunes (part_of part.now) subtree.now)
        (ArePreimages (part_of part.now) subtree.now)) }
{
    let node = subtree.node();
    let first = part.preimage(alloc)?;
    let second = subtree.preimage(alloc)?;
    match compare(first, second) {
        Some(found) => Ok(Some(found)),
        None => collision_below(alloc, part, node),
    }
}

#[cycle(agree)]
#[tactic(auto, using(crate::proofs::Children::entry_count, crate::proofs::Children::child_count))]
fn collision_below(
    alloc: Global,
    part: &PartTree<'_>,
    node: &Node,
) -> Result<Option<Collision>, AllocError>
    requires fits { FitsPart (part_of part.now) }
    requires same { IsLike (part_of part.now) (whole_of node.now) }
    ensures { IfOk result (λ found. HoldsOrCollides found
        (Prunes (part_of part.now) (whole_of node.now))
        (BelowNodes (part_of part.now) (whole_of node.now))) }
{
    match (part, node) {
        (PartTree::Leaf(parts), Node::Leaf(entries)) => {
            collision_of_entries(alloc, parts.as_slice(), entries)
        },
        (
            PartTree::Inner { children, .. },
            Node::Inner {
                children: subtrees,
                ..
            },
        ) => { collision_of_children(alloc, children.as_slice(), subtrees) },
        _ => unreachable!(),
    }
}

#[cycle(agree)]
fn collision_of_children(
    alloc: Global,
    parts: &[PartTree<'_>],
    subtrees: &[Subtree],
) -> Result<Option<Collision>, AllocError>
    requires count { length parts.now ≡ length subtrees.now }
    requires fit { FitsEach FitsEntry (parts_of parts.now) }
    requires same { SameNodes (parts_of parts.now) (open_parts subtrees.now) }
    ensures { IfOk result (λ found.
        let ps = parts_of parts.now in let ts = open_parts subtrees.now in
        HoldsOrCollides found (PrunesEach row_family EntryPrunes ps ts) (NodesIn ps ts)) }
{
    for (place, part) in parts.iter().enumerate() {
        let found = collision_of_subtree(alloc, part, &subtrees[place])?;
        if found.is_some() {
            return Ok(found);
        }
    }
    Ok(None)
}
