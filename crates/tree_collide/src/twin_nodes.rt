//! Nodes of one part of a tree against those of another.
ghost use Rattle.std.specs.Prelude.{◌≡◌, true, length, IfOk};
ghost use Rattle.vo_spec.specs.Trees.{digest};
ghost use Rattle.vo_spec.specs.Fits.{FitsPart, FitsEach, FitsEntry};
ghost use Rattle.mb_tree.specs.View.{part_of, parts_of};
ghost use Rattle.tree_collide.specs.Agreements.{HoldsOrCollides, IsLike, SameNodes, is_open as stands_open};
ghost use Rattle.tree_collide.specs.Alike.{AreAlike, EachAlike};
ghost use Rattle.tree_collide.specs.Preimages.{ArePreimages, BelowNodes, NodesIn};

use crate::comparison::compare;
use crate::likeness::is_like;
use crate::same_parts::are_same;
use crate::twin_rows::collision_of_twin_entries;
use mb_tree::PartTree;
use std::alloc::{AllocError, Global};
use vo_spec::Collision;

/// None where the two show the same wherever both are open, else a collision of what they hash.
#[cycle(twins)]
#[tactic(auto, using(crate::proofs::OneTree::alike_itself, crate::proofs::OneTree::closed_first, crate::proofs::OneTree::closed_second))]
pub fn collision_of_twins(
    alloc: Global,
    first: &PartTree<'_>,
    second: &PartTree<'_>,
) -> Result<Option<Collision>, AllocError>
    requires fits { FitsPart (part_of first.now) }
    requires second_fits { FitsPart (part_of second.now) }
    requires same { digest (part_of first.now) ≡ digest (part_of second.now) }
    ensures { IfOk result (λ found.
        HoldsOrCollides found (AreAlike (part_of first.now) (part_of second.now))
        (ArePreimages (part_of first.now) (part_of second.now))) }
{
    if are_same(first, second) {
        return Ok(None);
    }
    if is_open(first) && is_open(second) {
        collision_of_open_nodes(alloc, first, second)
    } else {
        Ok(None)
    }
}

fn is_open(part: &PartTree<'_>) -> bool
    ensures { result ≡ stands_open (part_of part.now) }
{
    match part {
        PartTree::Stub(_) => false,
        PartTree::Leaf(_) | PartTree::Inner { .. } => true,
    }
}

#[cycle(twins)]
#[tactic(auto, using(crate::proofs::Reading::like, crate::proofs::Sharing::preimage_alike, crate::proofs::Keeping::open_hash, crate::proofs::Strings::node_strings, crate::proofs::Strings::of_below))]
fn collision_of_open_nodes(
    alloc: Global,
    first: &PartTree<'_>,
    second: &PartTree<'_>,
) -> Result<Option<Collision>, AllocError>
    requires open { stands_open (part_of first.now) ≡ true }
    requires second_open { stands_open (part_of second.now) ≡ true }
    requires fits { FitsPart (part_of first.now) }
    requires second_fits { FitsPart (part_of second.now) }
    requires same { digest (part_of first.now) ≡ digest (part_of second.now) }
    ensures { IfOk result (λ found.
        HoldsOrCollides found (AreAlike (part_of first.now) (part_of second.now))
        (ArePreimages (part_of first.now) (part_of second.now))) }
{
    if is_like(first, second) {
        return collision_below_nodes(alloc, first, second);
    }
    let one = first.preimage(alloc)?;
    let other = second.preimage(alloc)?;
    Ok(compare(one, other))
}

#[cycle(twins)]
#[tactic(auto, using(crate::proofs::TwinSteps::twin_entry_count))]
fn collision_below_nodes(
    alloc: Global,
    first: &PartTree<'_>,
    second: &PartTree<'_>,
) -> Result<Option<Collision>, AllocError>
    requires fits { FitsPart (part_of first.now) }
    requires second_fits { FitsPart (part_of second.now) }
    requires same { IsLike (part_of first.now) (part_of second.now) }
    ensures { IfOk result (λ found.
        HoldsOrCollides found (AreAlike (part_of first.now) (part_of second.now))
        (BelowNodes (part_of first.now) (part_of second.now))) }
{
    match (first, second) {
        (PartTree::Leaf(entries), PartTree::Leaf(others)) => {
            collision_of_twin_entries(alloc, entries.as_slice(), others.as_slice())
        },
        (
            PartTree::Inner { children, .. },
            PartTree::Inner {
                children: others,
                ..
            },
        ) => { collision_of_twin_children(alloc, children.as_slice(), others.as_slice()) },
        _ => unreachable!(),
    }
}

#[cycle(twins)]
fn collision_of_twin_children(
    alloc: Global,
    first: &[PartTree<'_>],
    second: &[PartTree<'_>],
) -> Result<Option<Collision>, AllocError>
    requires count { length first.now ≡ length second.now }
    requires fit { FitsEach FitsEntry (parts_of first.now) }
    requires second_fit { FitsEach FitsEntry (parts_of second.now) }
    requires same { SameNodes (parts_of first.now) (parts_of second.now) }
    ensures { IfOk result (λ found.
        HoldsOrCollides found (EachAlike (parts_of first.now) (parts_of second.now))
        (NodesIn (parts_of first.now) (parts_of second.now))) }
{
    for (place, child) in first.iter().enumerate() {
        let found = collision_of_twins(alloc, child, &second[place])?;
        if found.is_some() {
            return Ok(found);
        }
    }
    Ok(None)
}
