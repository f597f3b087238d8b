//! Parts of totals trees against whole ones.
ghost use Rattle.std.specs.Prelude.{◌≡◌, true, length, map, IfOk};
ghost use Rattle.btree.specs.Nodes.{parts_from};
ghost use Rattle.vo_spec.specs.Parts.{PrunesEach};
ghost use Rattle.vo_spec.specs.Fits.{FitsEach};
ghost use Rattle.totals_laws.specs.TotalsTrees.{
  AreCounted,
  EachCounted,
  FitsTotalEntry,
  FitsTotals,
  Prunes,
  SameEntry,
  digest,
  preimage,
  totals_family,
};
ghost use Rattle.totals_laws.specs.TotalsCollisions.{ArePreimages, ArePreimagesIn, SameChildren, is_open};
ghost use Rattle.mb_sum.specs.Agreements.{HoldsOrShows, PrunesOrShows};
ghost use Rattle.mb_sum.specs.Views.{part_of, parts_of};
ghost use Rattle.mb_sum.specs.Whole.{whole_kid, whole_of};

use crate::parts::{PartTotals, TotalChild};
use crate::tree::TotalsTree;
use crate::whole::{TotalsNode, TotalsSubtree};
use std::alloc::{AllocError, Global};
use vo_spec::{Agreement, Collision};

/// Whether the part prunes the tree, whose digest is the same; if not, what shows two byte strings
/// of one digest.
pub fn agree_totals(
    alloc: Global,
    part: &PartTotals<'_>,
    tree: &TotalsTree,
) -> Result<Agreement, AllocError>
    requires fits { FitsTotals (part_of part.now) }
    requires counted { AreCounted (part_of part.now) }
    requires same { digest (part_of part.now) ≡ digest tree.now }
    ensures { IfOk result (λ agreement. PrunesOrShows agreement (Prunes (part_of part.now) tree.now)
        (ArePreimages (part_of part.now) tree.now)) }
{
    match collision_of_subtree(alloc, part, tree.root())? {
        None => Ok(Agreement::Prunes),
        Some(found) => Ok(Agreement::Collides(found)),
    }
}

#[cycle(agree)]
fn collision_of_subtree(
    alloc: Global,
    part: &PartTotals<'_>,
    subtree: &TotalsSubtree,
) -> Result<Option<Collision>, AllocError>
    requires fits { FitsTotals (part_of part.now) }
    requires counted { AreCounted (part_of part.now) }
    requires same { digest (part_of part.now) ≡ digest subtree.now }
    ensures { IfOk result (λ found. HoldsOrShows found (Prunes (part_of part.now) subtree.now)
        (ArePreimages (part_of part.now) subtree.now)) }
{
    match part {
        PartTotals::Stub(_) => Ok(None),
        PartTotals::Leaf(_) => collision_of_node(alloc, part, subtree),
        PartTotals::Inner { .. } => collision_of_node(alloc, part, subtree),
    }
}

#[cycle(agree)]
fn collision_of_node(
    alloc: Global,
    part: &PartTotals<'_>,
    subtree: &TotalsSubtree,
) -> Result<Option<Collision>, AllocError>
    requires open { is_open (part_of part.now) ≡ true }
    requires fits { FitsTotals (part_of part.now) }
    requires counted { AreCounted (part_of part.now) }
    requires same { digest (part_of part.now) ≡ digest subtree.now }
    ensures { IfOk result (λ found. HoldsOrShows found (Prunes (part_of part.now) subtree.now)
        (ArePreimages (part_of part.now) subtree.now)) }
{
    let node = subtree.node();
    let _digest = subtree.node_digest();
    let first = part.preimage(alloc)?;
    let second = subtree.preimage(alloc)?;
    if first.as_slice() != second.as_slice() {
        return Ok(Some(Collision::new(first, second)));
    }
    collision_below(alloc, part, node)
}

#[cycle(agree)]
fn collision_below(
    alloc: Global,
    part: &PartTotals<'_>,
    node: &TotalsNode,
) -> Result<Option<Collision>, AllocError>
    requires open { is_open (part_of part.now) ≡ true }
    requires fits { FitsTotals (part_of part.now) }
    requires counted { AreCounted (part_of part.now) }
    requires node_fits { FitsTotals (whole_of node.now) }
    requires same { preimage (part_of part.now) ≡ preimage (whole_of node.now) }
    ensures { IfOk result (λ found. HoldsOrShows found
        (Prunes (part_of part.now) (whole_of node.now))
        (ArePreimages (part_of part.now) (whole_of node.now))) }
{
    match (part, node) {
        (
            PartTotals::Inner { children, .. },
            TotalsNode::Inner {
                children: subtrees,
                ..
            },
        ) => collision_of_children(alloc, children.as_slice(), subtrees),
        (PartTotals::Inner { .. }, TotalsNode::Leaf(_)) => Ok(None),
        (PartTotals::Leaf(_), _) => Ok(None),
        (PartTotals::Stub(_), _) => Ok(None),
    }
}

#[cycle(agree)]
fn collision_of_children(
    alloc: Global,
    parts: &[TotalChild<'_>],
    subtrees: &[TotalsSubtree],
) -> Result<Option<Collision>, AllocError>
    requires count { length parts.now ≡ length subtrees.now }
    requires fit { FitsEach FitsTotalEntry (parts_of parts.now) }
    requires counted { EachCounted (parts_of parts.now) }
    requires same { SameChildren (parts_of parts.now) (parts_from (map whole_kid subtrees.now)) }
    ensures { IfOk result (λ found.
        let ps = parts_of parts.now in let ts = parts_from (map whole_kid subtrees.now) in
        HoldsOrShows found (PrunesEach totals_family SameEntry ps ts) (ArePreimagesIn ps ts)) }
{
    for (place, part) in parts.iter().enumerate() {
        let found = collision_of_subtree(alloc, &part.tree, &subtrees[place])?;
        if found.is_some() {
            return Ok(found);
        }
    }
    Ok(None)
}
