//! Parts of trees as trees that the work on trees is done on: what is open of them is copied.
ghost use Rattle.std.specs.Prelude.{◌≡◌, IfOk};
ghost use Rattle.vo_spec.specs.declared.cells.PartEntry.{PartEntry as PlainEntry};
ghost use Rattle.vo_spec.specs.Trees.{row_family};
ghost use Rattle.btree.specs.Nodes.{new_kid};
ghost use Rattle.btree.specs.Shapes.{IsWithin};
ghost use Rattle.mb_tree.specs.declared.parts.PartTree.TheVariants.{Leaf, Inner};
ghost use Rattle.mb_tree.specs.View.{part_of, parts_of, part_contents, part_kid};

use crate::parts::{Children, PartTree};
use btree::{Contents, NodeView, TreeNode, TryClone, try_clone_all};
use std::alloc::{AllocError, Global};
use vo_spec::{KeyPart, List, PartEntry};

impl TryClone for PartTree<'_> {
    fn try_clone(&self, alloc: Global) -> Result<Self, AllocError> {
        clone_tree(alloc, self)
    }
}

#[cycle(clone_tree)]
fn clone_tree<'b>(alloc: Global, tree: &PartTree<'b>) -> Result<PartTree<'b>, AllocError>
    ensures { IfOk result (λ copy. copy ≡ tree.now) }
{
    match tree {
        PartTree::Stub(digest) => Ok(PartTree::Stub(*digest)),
        PartTree::Leaf(entries) => clone_leaf(alloc, entries.as_slice()),
        PartTree::Inner {
            separators,
            children,
        } => {
            let copies = clone_children(alloc, children.as_slice())?;
            inner_with(alloc, separators.as_slice(), copies)
        },
    }
}

fn clone_leaf<'b>(alloc: Global, entries: &[PartEntry<'b>]) -> Result<PartTree<'b>, AllocError>
    ensures { IfOk result (λ copy. copy ≡ Leaf entries.now) }
{
    let entries = try_clone_all(alloc, entries)?;
    Ok(PartTree::Leaf(List::from_vec(entries)))
}

/// The inner node of these children and copies of these separators.
fn inner_with<'b>(
    alloc: Global,
    separators: &[KeyPart<'b>],
    children: Children<'b>,
) -> Result<PartTree<'b>, AllocError>
    ensures { IfOk result (λ node. node ≡ Inner separators.now children.entry) }
{
    let separators = try_clone_all(alloc, separators)?;
    Ok(PartTree::Inner {
        separators: List::from_vec(separators),
        children,
    })
}

#[cycle(clone_tree)]
fn clone_children<'b>(alloc: Global, children: &[PartTree<'b>]) -> Result<Children<'b>, AllocError>
    ensures { IfOk result (λ copies. copies ≡ parts_of children.now) }
{
    let mut copies = Vec::with_capacity(alloc, children.len())?;
    for child in children {
        copies.push(clone_tree(alloc, child)?)?;
    }
    Ok(Children::from_vec(copies))
}

impl<'b> TreeNode for PartTree<'b> {
    type Tree = PartTree<'b>;

    type Key = KeyPart<'b>;

    type Entry = PartEntry<'b>;

    ghost Plain = { PlainEntry };

    ghost Annotation = { Unit {0} };

    ghost family = { row_family };

    ghost entry = { λ entry. entry };

    ghost seen = { part_of };

    ghost kid = { part_kid };

    fn tree(&self) -> &PartTree<'b> {
        self
    }

    fn open<'a>(tree: &'a PartTree<'b>) -> NodeView<'a, KeyPart<'b>, PartEntry<'b>, PartTree<'b>> {
        match tree {
            PartTree::Stub(digest) => NodeView::Stub(*digest),
            PartTree::Leaf(entries) => NodeView::Leaf(entries.as_slice()),
            PartTree::Inner {
                separators,
                children,
            } => NodeView::Inner {
                separators: separators.as_slice(),
                children: children.as_slice(),
            },
        }
    }

    fn close(
        _alloc: Global,
        contents: Contents<KeyPart<'b>, PartEntry<'b>, PartTree<'b>>,
    ) -> Result<PartTree<'b>, AllocError>
        requires { IsWithin 2 (part_contents contents) }
        ensures { IfOk result (λ node. part_kid node
            ≡ new_kid row_family (part_contents contents.entry)) }
    {
        match contents {
            Contents::Leaf(entries) => Ok(PartTree::Leaf(List::from_vec(entries))),
            Contents::Inner {
                separators,
                children,
            } => Ok(PartTree::Inner {
                separators: List::from_vec(separators),
                children: Children::from_vec(children),
            }),
        }
    }

    fn separator(alloc: Global, first: &PartEntry<'b>) -> Result<KeyPart<'b>, AllocError> {
        first.key.try_clone(alloc)
    }

    ghost entry_key = { λ e i. e.key };
}
