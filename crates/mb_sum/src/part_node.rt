//! Parts of totals trees as trees that the work on trees is done on: what is open is copied.
ghost use Rattle.std.specs.Prelude.{◌≡◌, IfOk};
ghost use Rattle.btree.specs.Nodes.{new_kid};
ghost use Rattle.btree.specs.Shapes.{IsWithin};
ghost use Rattle.totals_laws.specs.declared.totals.TotalEntry.{TotalEntry as PlainEntry};
ghost use Rattle.totals_laws.specs.declared.totals.Totals.{Totals as PlainTotals};
ghost use Rattle.totals_laws.specs.TotalsTrees.{totals_family};
ghost use Rattle.mb_sum.specs.declared.parts.PartTotals.TheVariants.{Leaf, Inner};
ghost use Rattle.mb_sum.specs.Views.{part_of, parts_of, part_contents, part_kid};

use crate::parts::{PartTotals, TotalChild, TotalChildren};
use crate::sums::{Counted, totals_of_children, totals_of_entries};
use btree::{Contents, NodeView, TreeNode, TryClone, try_clone_all};
use std::alloc::{AllocError, Global};
use totals_laws::{TotalEntry, Totals};
use vo_spec::{KeyPart, List};

impl TryClone for TotalChild<'_> {
    fn try_clone(&self, alloc: Global) -> Result<Self, AllocError> {
        let tree = clone_tree(alloc, &self.tree)?;
        Ok(TotalChild {
            totals: self.totals,
            tree,
        })
    }
}

impl Counted for TotalChild<'_> {
    ghost child = { part_kid };

    fn totals(&self) -> Totals {
        self.totals
    }
}

#[cycle(clone_tree)]
fn clone_tree<'b>(alloc: Global, tree: &PartTotals<'b>) -> Result<PartTotals<'b>, AllocError>
    ensures { IfOk result (λ copy. copy ≡ tree.now) }
{
    match tree {
        PartTotals::Stub(digest) => Ok(PartTotals::Stub(*digest)),
        PartTotals::Leaf(entries) => clone_leaf(alloc, entries.as_slice()),
        PartTotals::Inner {
            separators,
            children,
        } => {
            let copies = clone_children(alloc, children.as_slice())?;
            inner_with(alloc, separators.as_slice(), copies)
        },
    }
}

fn clone_leaf<'b>(alloc: Global, entries: &[TotalEntry<'b>]) -> Result<PartTotals<'b>, AllocError>
    ensures { IfOk result (λ copy. copy ≡ Leaf entries.now) }
{
    let entries = try_clone_all(alloc, entries)?;
    Ok(PartTotals::Leaf(List::from_vec(entries)))
}

/// The inner node of these children and copies of these separators.
fn inner_with<'b>(
    alloc: Global,
    separators: &[KeyPart<'b>],
    children: TotalChildren<'b>,
) -> Result<PartTotals<'b>, AllocError>
    ensures { IfOk result (λ node. node ≡ Inner separators.now children.entry) }
{
    let separators = try_clone_all(alloc, separators)?;
    Ok(PartTotals::Inner {
        separators: List::from_vec(separators),
        children,
    })
}

#[cycle(clone_tree)]
fn clone_children<'b>(
    alloc: Global,
    children: &[TotalChild<'b>],
) -> Result<TotalChildren<'b>, AllocError>
    ensures { IfOk result (λ copies. copies ≡ parts_of children.now) }
{
    let mut copies = Vec::with_capacity(alloc, children.len())?;
    for child in children {
        let tree = clone_tree(alloc, &child.tree)?;
        copies.push(TotalChild {
            totals: child.totals,
            tree,
        })?;
    }
    Ok(TotalChildren::from_vec(copies))
}

impl<'b> TreeNode for TotalChild<'b> {
    type Tree = PartTotals<'b>;

    type Key = KeyPart<'b>;

    type Entry = TotalEntry<'b>;

    ghost Plain = { PlainEntry };

    ghost Annotation = { PlainTotals };

    ghost family = { totals_family };

    ghost entry = { λ entry. entry };

    ghost seen = { part_of };

    ghost kid = { part_kid };

    fn tree(&self) -> &PartTotals<'b> {
        &self.tree
    }

    fn open<'a>(
        tree: &'a PartTotals<'b>,
    ) -> NodeView<'a, KeyPart<'b>, TotalEntry<'b>, TotalChild<'b>> {
        match tree {
            PartTotals::Stub(digest) => NodeView::Stub(*digest),
            PartTotals::Leaf(entries) => NodeView::Leaf(entries.as_slice()),
            PartTotals::Inner {
                separators,
                children,
            } => NodeView::Inner {
                separators: separators.as_slice(),
                children: children.as_slice(),
            },
        }
    }

    fn close(
        _alloc: Global,
        contents: Contents<KeyPart<'b>, TotalEntry<'b>, TotalChild<'b>>,
    ) -> Result<TotalChild<'b>, AllocError>
        requires { IsWithin 2 (part_contents contents) }
        ensures { IfOk result (λ node. part_kid node
            ≡ new_kid totals_family (part_contents contents.entry)) }
    {
        match contents {
            Contents::Leaf(entries) => Ok(TotalChild {
                totals: totals_of_entries(&entries),
                tree: PartTotals::Leaf(List::from_vec(entries)),
            }),
            Contents::Inner {
                separators,
                children,
            } => Ok(TotalChild {
                totals: totals_of_children(&children),
                tree: PartTotals::Inner {
                    separators: List::from_vec(separators),
                    children: TotalChildren::from_vec(children),
                },
            }),
        }
    }

    fn separator(alloc: Global, first: &TotalEntry<'b>) -> Result<KeyPart<'b>, AllocError> {
        first.key.try_clone(alloc)
    }

    ghost entry_key = { λ e i. e.key };
}
