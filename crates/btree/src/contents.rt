//! The contents of nodes: how many, a node's once more, and a node made of what has come in its
//! children's places.
ghost use Rattle.std.specs.Prelude.{◌≡◌, ◌≤◌, ◌<◌, length, map, IfOk};
ghost use Rattle.vo_spec.specs.Inserts.{Insertion};
ghost use Rattle.btree.specs.Nodes.{contents_of, AreSiblings};
ghost use Rattle.btree.specs.Splices.{node_of, splice};
ghost use Rattle.btree.specs.Shapes.{size_of};

use crate::lists::replace_range;
use crate::node::{Contents, TreeNode};
use crate::siblings::Siblings;
use std::alloc::{AllocError, Global};

/// How many entries or children there are.
pub fn fill_of<N: TreeNode>(contents: &Contents<N::Key, N::Entry, N>) -> usize
    ensures { result ≡ size_of (contents_of N.Key.key N.entry N.kid contents.now) }
{
    match contents {
        Contents::Leaf(entries) => entries.len(),
        Contents::Inner { children, .. } => children.len(),
    }
}

/// The contents of an inner node with these in the place of its children with the numbers from
/// `from` to `to`.
pub fn put_siblings<N: TreeNode>(
    alloc: Global,
    separators: &[N::Key],
    children: &[N],
    from: usize,
    to: usize,
    siblings: Siblings<N::Key, N>,
) -> Result<Contents<N::Key, N::Entry, N>, AllocError>
    requires order { from ≤ to }
    requires keys { to ≤ length separators.now }
    requires children { to < length children.now }
    ensures { IfOk result (λ contents. (insertion : Insertion N.Plain N.Annotation)
        → AreSiblings N.family N.Key.key N.kid siblings insertion
        → contents_of N.Key.key N.entry N.kid contents
        ≡ node_of (splice N.family from to (map N.Key.key separators.now)
        (map N.kid children.now) insertion)) }
{
    let separators = replace_range(alloc, separators, from, to, siblings.separators)?;
    let children = replace_range(alloc, children, from, to + 1, siblings.nodes)?;
    Ok(Contents::Inner {
        separators,
        children,
    })
}
