//! Insertion.
ghost use Rattle.std.specs.Prelude.{◌≡◌, ◌≤◌, ◌+◌, [], ◌∷◌, length, map, IfOk};
ghost use Rattle.vo_spec.specs.Parts.{leaf, inner};
ghost use Rattle.vo_spec.specs.Fits.{max_fill};
ghost use Rattle.vo_spec.specs.Inserts.{Insertion, grow, inserted_by, root_of as root_of_insertion};
ghost use Rattle.btree.specs.Answers.{Answers};
ghost use Rattle.btree.specs.Nodes.{parts_from, AreSiblings};
ghost use Rattle.btree.specs.Shapes.{IsShaped, AreShaped};

use crate::contents::put_siblings;
use crate::keyed_item::{KeyedItem, has_key, position_above};
use crate::lists::{single_item, with_item};
use crate::node::{Contents, NodeView, TreeNode};
use crate::siblings::Siblings;
use crate::split::split;
use std::alloc::{AllocError, Global};
use vo_spec::UpdateFault;

/// The tree with this entry before the first of a greater key.
pub fn insert<N: TreeNode>(alloc: Global, tree: &N::Tree, entry: N::Entry) -> Result<N, UpdateFault>
    requires { IsShaped (N.seen tree.now) }
    ensures { Answers (λ node t. (N.kid node).1 ≡ t) result
        (inserted_by N.family (N.entry entry) (N.seen tree.now)) }
{
    match insert_below::<N>(alloc, tree, entry) {
        Ok(siblings) => Ok(root_of(alloc, siblings)?),
        Err(fault) => Err(fault),
    }
}

/// What comes in the place of the tree's root.
#[cycle(insert)]
fn insert_below<N: TreeNode>(
    alloc: Global,
    tree: &N::Tree,
    entry: N::Entry,
) -> Result<Siblings<N::Key, N>, UpdateFault>
    requires { IsShaped (N.seen tree.now) }
    ensures { Answers (AreSiblings N.family N.Key.key N.kid) result
        (grow N.family (N.entry entry) (N.seen tree.now)) }
{
    match N::open(tree) {
        NodeView::Stub(_) => Err(UpdateFault::Missing),
        NodeView::Leaf(entries) => insert_in_leaf::<N>(alloc, entries, entry),
        NodeView::Inner {
            separators,
            children,
        } => insert_in_child(alloc, separators, children, entry),
    }
}

fn insert_in_leaf<N: TreeNode>(
    alloc: Global,
    entries: &[N::Entry],
    entry: N::Entry,
) -> Result<Siblings<N::Key, N>, UpdateFault>
    requires { length entries.now ≤ max_fill }
    ensures { Answers (AreSiblings N.family N.Key.key N.kid) result
        (grow N.family (N.entry entry) (leaf (map N.entry entries.now))) }
{
    if has_key(entries, entry.key_bytes()) {
        return Err(UpdateFault::DuplicateKey);
    }
    let place = position_above(entries, entry.key_bytes());
    let all = with_item(alloc, entries, place, place, entry)?;
    Ok(split::<N>(alloc, Contents::Leaf(all))?)
}

#[cycle(insert)]
fn insert_in_child<N: TreeNode>(
    alloc: Global,
    separators: &[N::Key],
    children: &[N],
    entry: N::Entry,
) -> Result<Siblings<N::Key, N>, UpdateFault>
    requires least { 2 ≤ length children.now }
    requires most { length children.now ≤ max_fill }
    requires between { length separators.now + 1 ≡ length children.now }
    requires shaped { AreShaped (parts_from (map N.kid children.now)) }
    ensures { Answers (AreSiblings N.family N.Key.key N.kid) result
        (grow N.family (N.entry entry)
        (inner (map N.Key.key separators.now) (parts_from (map N.kid children.now)))) }
{
    let place = position_above(separators, entry.key_bytes());
    match insert_below::<N>(alloc, children[place].tree(), entry) {
        Ok(siblings) => {
            let contents = put_siblings(alloc, separators, children, place, place, siblings)?;
            Ok(split::<N>(alloc, contents)?)
        },
        Err(fault) => Err(fault),
    }
}

/// The root that these make: one that was split gets a new root of two children.
fn root_of<N: TreeNode>(alloc: Global, siblings: Siblings<N::Key, N>) -> Result<N, AllocError>
    requires some { 1 ≤ length siblings.nodes.items }
    requires most { length siblings.nodes.items ≤ 2 }
    requires between { length siblings.separators.items + 1 ≡ length siblings.nodes.items }
    ensures { IfOk result (λ root. (insertion : Insertion N.Plain N.Annotation)
        → AreSiblings N.family N.Key.key N.kid siblings insertion
        → (N.kid root).1 ≡ root_of_insertion N.family insertion) }
{
    if siblings.nodes.len() == 1 {
        return Ok(single_item(siblings.nodes));
    }
    N::close(
        alloc,
        Contents::Inner {
            separators: siblings.separators,
            children: siblings.nodes,
        },
    )
}
