//! Removal.
ghost use Rattle.std.specs.Prelude.{◌≡◌, ◌≤◌, ◌+◌, [], ◌∷◌, length, map, IfOk};
ghost use Rattle.vo_spec.specs.Parts.{leaf, inner};
ghost use Rattle.vo_spec.specs.Fits.{max_fill};
ghost use Rattle.vo_spec.specs.Removes.{shrink, removed_by, settled_root};
ghost use Rattle.btree.specs.Answers.{Answers};
ghost use Rattle.btree.specs.Nodes.{parts_from, contents_of, IsContents};
ghost use Rattle.btree.specs.Shapes.{IsShaped, AreShaped, IsWithin};

use crate::keyed_item::{position_above, position_of};
use crate::lists::{replace_range, single_item};
use crate::node::{Contents, NodeView, TreeNode};
use crate::rebalance::rebalance;
use std::alloc::{AllocError, Global};
use vo_spec::UpdateFault;

/// The tree without the first entry of this key in the leaf to which the search for it goes. A node
/// that is left underfull borrows from its sibling or is merged with it.
pub fn remove<N: TreeNode>(alloc: Global, tree: &N::Tree, key: &[u8]) -> Result<N, UpdateFault>
    requires { IsShaped (N.seen tree.now) }
    ensures { Answers (λ node t. (N.kid node).1 ≡ t) result
        (removed_by N.family key.now (N.seen tree.now)) }
{
    match remove_below::<N>(alloc, tree, key) {
        Ok(contents) => Ok(root_of(alloc, contents)?),
        Err(fault) => Err(fault),
    }
}

/// What is left of the tree's root, which may be underfull.
#[cycle(remove)]
fn remove_below<N: TreeNode>(
    alloc: Global,
    tree: &N::Tree,
    key: &[u8],
) -> Result<Contents<N::Key, N::Entry, N>, UpdateFault>
    requires { IsShaped (N.seen tree.now) }
    ensures value { Answers (IsContents N.Key.key N.entry N.kid) result
        (shrink N.family key.now (N.seen tree.now)) }
    ensures loose { IfOk result (λ contents.
        IsWithin 1 (contents_of N.Key.key N.entry N.kid contents)) }
{
    match N::open(tree) {
        NodeView::Stub(_) => Err(UpdateFault::Missing),
        NodeView::Leaf(entries) => remove_in_leaf::<N>(alloc, entries, key),
        NodeView::Inner {
            separators,
            children,
        } => remove_in_child(alloc, separators, children, key),
    }
}

fn remove_in_leaf<N: TreeNode>(
    alloc: Global,
    entries: &[N::Entry],
    key: &[u8],
) -> Result<Contents<N::Key, N::Entry, N>, UpdateFault>
    requires { length entries.now ≤ max_fill }
    ensures value { Answers (IsContents N.Key.key N.entry N.kid) result
        (shrink N.family key.now (leaf (map N.entry entries.now))) }
    ensures loose { IfOk result (λ contents.
        IsWithin 1 (contents_of N.Key.key N.entry N.kid contents)) }
{
    let place = position_of(entries, key);
    if place >= entries.len() {
        return Err(UpdateFault::NoRow);
    }
    let others = replace_range(alloc, entries, place, place + 1, Vec::new(alloc))?;
    Ok(Contents::Leaf(others))
}

#[cycle(remove)]
fn remove_in_child<N: TreeNode>(
    alloc: Global,
    separators: &[N::Key],
    children: &[N],
    key: &[u8],
) -> Result<Contents<N::Key, N::Entry, N>, UpdateFault>
    requires least { 2 ≤ length children.now }
    requires most { length children.now ≤ max_fill }
    requires between { length separators.now + 1 ≡ length children.now }
    requires shaped { AreShaped (parts_from (map N.kid children.now)) }
    ensures value { Answers (IsContents N.Key.key N.entry N.kid) result
        (shrink N.family key.now (inner (map N.Key.key separators.now)
        (parts_from (map N.kid children.now)))) }
    ensures loose { IfOk result (λ contents.
        IsWithin 1 (contents_of N.Key.key N.entry N.kid contents)) }
{
    let place = position_above(separators, key);
    match remove_below::<N>(alloc, children[place].tree(), key) {
        Ok(child) => rebalance(alloc, separators, children, place, child),
        Err(fault) => Err(fault),
    }
}

/// The root of these contents: one of one child gives way to it.
fn root_of<N: TreeNode>(
    alloc: Global,
    contents: Contents<N::Key, N::Entry, N>,
) -> Result<N, AllocError>
    requires { IsWithin 1 (contents_of N.Key.key N.entry N.kid contents) }
    ensures { IfOk result (λ root. (N.kid root).1
        ≡ settled_root (contents_of N.Key.key N.entry N.kid contents)) }
{
    match contents {
        Contents::Leaf(entries) => N::close(alloc, Contents::Leaf(entries)),
        Contents::Inner {
            separators,
            children,
        } => root_of_inner(alloc, separators, children),
    }
}

fn root_of_inner<N: TreeNode>(
    alloc: Global,
    separators: Vec<N::Key>,
    children: Vec<N>,
) -> Result<N, AllocError>
    requires least { 1 ≤ length children.items }
    requires most { length children.items ≤ max_fill }
    requires between { length separators.items + 1 ≡ length children.items }
    ensures { IfOk result (λ root. (N.kid root).1
        ≡ settled_root (inner (map N.Key.key separators.items)
        (parts_from (map N.kid children.items)))) }
{
    if children.len() == 1 {
        return Ok(single_item(children));
    }
    N::close(
        alloc,
        Contents::Inner {
            separators,
            children,
        },
    )
}
