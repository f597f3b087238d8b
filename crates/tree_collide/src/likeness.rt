//! Whether two open nodes hash the same string, by what stands in them: what is the same in both is
//! not hashed for it.
ghost use Rattle.std.specs.Prelude.{◌≡◌, ◌↔◌, IsTrue, All};
ghost use Rattle.vo_spec.specs.Cells.{row_digest as row_digest_of};
ghost use Rattle.vo_spec.specs.Trees.{digest};
ghost use Rattle.vo_spec.specs.Fits.{FitsEach, FitsEntry, FitsPart, FitsRowPart};
ghost use Rattle.mb_tree.specs.View.{part_of, parts_of};
ghost use Rattle.tree_collide.specs.Agreements.{IsLike, SameEntries, SameNodes};

use crate::same_parts::{are_same, are_same_lists, is_same_key, is_same_row};
use attr_digest::row_digest;
use mb_tree::PartTree;
use vo_spec::{PartEntry, RowPart};

/// Whether the two are of one kind, with the same keys or separators and the same digests.
pub fn is_like(first: &PartTree<'_>, second: &PartTree<'_>) -> bool
    requires fits { FitsPart (part_of first.now) }
    requires second_fits { FitsPart (part_of second.now) }
    ensures { IsTrue result ↔ IsLike (part_of first.now) (part_of second.now) }
{
    match (first, second) {
        (PartTree::Leaf(entries), PartTree::Leaf(others)) => {
            are_like_entries(entries.as_slice(), others.as_slice())
        },
        (
            PartTree::Inner {
                separators,
                children,
            },
            PartTree::Inner {
                separators: other_separators,
                children: others,
            },
        ) => {
            are_same_lists(
                separators.as_slice(),
                other_separators.as_slice(),
                is_same_key,
            ) && have_same_digests(children.as_slice(), others.as_slice())
        },
        _ => false,
    }
}

#[tactic(auto, using(crate::proofs::TwinSteps::twin_entry_count))]
fn are_like_entries(first: &[PartEntry<'_>], second: &[PartEntry<'_>]) -> bool
    requires fit { All FitsEntry first.now }
    requires second_fit { All FitsEntry second.now }
    ensures { IsTrue result ↔ SameEntries first.now second.now }
{
    if first.len() != second.len() {
        return false;
    }
    for (place, entry) in first.iter().enumerate() {
        if !is_like_entry(entry, &second[place]) {
            return false;
        }
    }
    true
}

fn is_like_entry(first: &PartEntry<'_>, second: &PartEntry<'_>) -> bool
    requires fits { FitsEntry first.now }
    requires second_fits { FitsEntry second.now }
    ensures { IsTrue result ↔ ((first.now.key ≡ second.now.key)
        × (row_digest_of first.now.row ≡ row_digest_of second.now.row)) }
{
    is_same_key(&first.key, &second.key) && has_same_row_digest(&first.row, &second.row)
}

fn has_same_row_digest(first: &RowPart<'_>, second: &RowPart<'_>) -> bool
    requires fits { FitsRowPart first.now }
    requires second_fits { FitsRowPart second.now }
    ensures { IsTrue result ↔ (row_digest_of first.now ≡ row_digest_of second.now) }
{
    is_same_row(first, second) || row_digest(first) == row_digest(second)
}

#[tactic(auto, using(crate::proofs::TwinSteps::twin_child_count, mb_tree::proofs::PartLaws::child_fits))]
fn have_same_digests(first: &[PartTree<'_>], second: &[PartTree<'_>]) -> bool
    requires fit { FitsEach FitsEntry (parts_of first.now) }
    requires second_fit { FitsEach FitsEntry (parts_of second.now) }
    ensures { IsTrue result ↔ SameNodes (parts_of first.now) (parts_of second.now) }
{
    if first.len() != second.len() {
        return false;
    }
    for (place, child) in first.iter().enumerate() {
        if !has_same_digest(child, &second[place]) {
            return false;
        }
    }
    true
}

fn has_same_digest(first: &PartTree<'_>, second: &PartTree<'_>) -> bool
    requires fits { FitsPart (part_of first.now) }
    requires second_fits { FitsPart (part_of second.now) }
    ensures { IsTrue result ↔ (digest (part_of first.now) ≡ digest (part_of second.now)) }
{
    are_same(first, second) || first.node_digest() == second.node_digest()
}
