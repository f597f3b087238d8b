//! Another entry in the place of one.
ghost use Rattle.std.specs.Prelude.{◌≡◌, ◌≤◌, ◌+◌, Ok, length, map};
ghost use Rattle.vo_spec.specs.Parts.{leaf, inner};
ghost use Rattle.vo_spec.specs.Fits.{max_fill};
ghost use Rattle.vo_spec.specs.Removes.{edited_by};
ghost use Rattle.btree.specs.Answers.{Answers};
ghost use Rattle.btree.specs.Nodes.{parts_from, IsNewKid};
ghost use Rattle.btree.specs.Shapes.{IsShaped, AreShaped};

use crate::keyed_item::{position_above, position_of};
use crate::lists::with_item;
use crate::node::{Contents, NodeView, TreeNode};
use crate::try_clone::try_clone_all;
use std::alloc::Global;
use vo_spec::UpdateFault;

/// The tree with this in the place of the first entry of the key in the leaf to which the search
/// for it goes.
#[cycle(set)]
pub fn set<N: TreeNode>(
    alloc: Global,
    tree: &N::Tree,
    key: &[u8],
    entry: N::Entry,
) -> Result<N, UpdateFault>
    requires { IsShaped (N.seen tree.now) }
    ensures { Answers (IsNewKid N.family N.kid) result
        (edited_by N.family (λ _. Ok (N.entry entry)) key.now (N.seen tree.now)) }
{
    match N::open(tree) {
        NodeView::Stub(_) => Err(UpdateFault::Missing),
        NodeView::Leaf(entries) => set_in_leaf(alloc, entries, key, entry),
        NodeView::Inner {
            separators,
            children,
        } => set_in_child(alloc, separators, children, key, entry),
    }
}

fn set_in_leaf<N: TreeNode>(
    alloc: Global,
    entries: &[N::Entry],
    key: &[u8],
    entry: N::Entry,
) -> Result<N, UpdateFault>
    requires { length entries.now ≤ max_fill }
    ensures { Answers (IsNewKid N.family N.kid) result
        (edited_by N.family (λ _. Ok (N.entry entry)) key.now (leaf (map N.entry entries.now))) }
{
    let place = position_of(entries, key);
    if place >= entries.len() {
        return Err(UpdateFault::NoRow);
    }
    let entries = with_item(alloc, entries, place, place + 1, entry)?;
    Ok(N::close(alloc, Contents::Leaf(entries))?)
}

#[cycle(set)]
fn set_in_child<N: TreeNode>(
    alloc: Global,
    separators: &[N::Key],
    children: &[N],
    key: &[u8],
    entry: N::Entry,
) -> Result<N, UpdateFault>
    requires least { 2 ≤ length children.now }
    requires most { length children.now ≤ max_fill }
    requires between { length separators.now + 1 ≡ length children.now }
    requires shaped { AreShaped (parts_from (map N.kid children.now)) }
    ensures { Answers (IsNewKid N.family N.kid) result
        (edited_by N.family (λ _. Ok (N.entry entry)) key.now
        (inner (map N.Key.key separators.now) (parts_from (map N.kid children.now)))) }
{
    let place = position_above(separators, key);
    match set::<N>(alloc, children[place].tree(), key, entry) {
        Ok(child) => {
            let children = with_item(alloc, children, place, place + 1, child)?;
            let separators = try_clone_all(alloc, separators)?;
            Ok(N::close(
                alloc,
                Contents::Inner {
                    separators,
                    children,
                },
            )?)
        },
        Err(fault) => Err(fault),
    }
}
