//! Two nodes made one.
ghost use Rattle.std.specs.Prelude.{◌≡◌, ◌∷◌, ◌++◌, map, IfOk};
ghost use Rattle.vo_spec.specs.Parts.{stub};
ghost use Rattle.btree.specs.Answers.{Answers};
ghost use Rattle.btree.specs.Nodes.{contents_of, IsContents};
ghost use Rattle.btree.specs.Splices.{merge_nodes, open_node};

use crate::lists::append;
use crate::node::{Contents, NodeView, TreeNode};
use crate::try_clone::{TryClone, try_clone_all};
use std::alloc::{AllocError, Global};
use vo_spec::UpdateFault;

/// The contents of the tree's root once more.
pub fn clone_contents<N: TreeNode>(
    alloc: Global,
    tree: &N::Tree,
) -> Result<Contents<N::Key, N::Entry, N>, UpdateFault>
    ensures { Answers (IsContents N.Key.key N.entry N.kid) result (open_node (N.seen tree.now)) }
{
    match N::open(tree) {
        NodeView::Stub(_) => Err(UpdateFault::Missing),
        NodeView::Leaf(entries) => Ok(Contents::Leaf(try_clone_all(alloc, entries)?)),
        NodeView::Inner {
            separators,
            children,
        } => {
            let separators = try_clone_all(alloc, separators)?;
            let children = try_clone_all(alloc, children)?;
            Ok(Contents::Inner {
                separators,
                children,
            })
        },
    }
}

/// The entries or children of both, with the separator that stood between them.
pub fn merge<N: TreeNode>(
    alloc: Global,
    first: Contents<N::Key, N::Entry, N>,
    separator: &N::Key,
    second: Contents<N::Key, N::Entry, N>,
) -> Result<Contents<N::Key, N::Entry, N>, UpdateFault>
    ensures { Answers (IsContents N.Key.key N.entry N.kid) result
        (merge_nodes (contents_of N.Key.key N.entry N.kid first) (N.Key.key separator.now)
        (contents_of N.Key.key N.entry N.kid second)) }
{
    match first {
        Contents::Leaf(entries) => match second {
            Contents::Leaf(others) => Ok(Contents::Leaf(append(entries, others)?)),
            Contents::Inner { .. } => Err(UpdateFault::Missing),
        },
        Contents::Inner {
            separators,
            children,
        } => match second {
            Contents::Leaf(_) => Err(UpdateFault::Missing),
            Contents::Inner {
                separators: keys,
                children: others,
            } => {
                let separators = join_lists(alloc, separators, separator, keys)?;
                let children = append(children, others)?;
                Ok(Contents::Inner {
                    separators,
                    children,
                })
            },
        },
    }
}

/// The items of both lists, with a copy of this one between them.
fn join_lists<T: TryClone + Drop>(
    alloc: Global,
    before: Vec<T>,
    item: &T,
    after: Vec<T>,
) -> Result<Vec<T>, AllocError>
    ensures { IfOk result (λ all. all.items ≡ before.items ++ item.now ∷ after.items) }
{
    let mut all = before;
    all.push(item.try_clone(alloc)?)?;
    append(all, after)
}
