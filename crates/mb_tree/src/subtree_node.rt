//! Whole trees as trees that the work on trees is done on: they share what they have in common.
ghost use Rattle.std.specs.Prelude.{◌≡◌, IfOk};
ghost use Rattle.vo_spec.specs.declared.cells.PartEntry.{PartEntry as PlainEntry};
ghost use Rattle.vo_spec.specs.Cells.{whole_entry};
ghost use Rattle.vo_spec.specs.Trees.{row_family};
ghost use Rattle.btree.specs.Nodes.{new_kid};
ghost use Rattle.btree.specs.Shapes.{IsWithin};
ghost use Rattle.mb_tree.specs.Whole.{whole_contents, whole_kid};

use crate::entries::TreeEntry;
use crate::subtrees::{Node, Subtree};
use crate::tree_key::TreeKey;
use btree::{Contents, KeyedItem, NodeView, TreeNode, TryClone};
use std::alloc::{AllocError, Global};

impl TryClone for TreeKey {
    fn try_clone(&self, _alloc: Global) -> Result<Self, AllocError> {
        self.share()
    }
}

impl KeyedItem for TreeKey {
    ghost key = { λ separator. separator };

    fn key_bytes(&self) -> &[u8] {
        self.as_bytes()
    }
}

impl TryClone for TreeEntry {
    fn try_clone(&self, _alloc: Global) -> Result<Self, AllocError> {
        self.share()
    }
}

impl KeyedItem for TreeEntry {
    ghost key = { λ entry. entry.key };

    fn key_bytes(&self) -> &[u8] {
        self.key().as_bytes()
    }
}

impl TryClone for Subtree {
    fn try_clone(&self, _alloc: Global) -> Result<Self, AllocError> {
        self.share()
    }
}

impl TreeNode for Subtree {
    type Tree = Subtree;

    type Key = TreeKey;

    type Entry = TreeEntry;

    ghost Plain = { PlainEntry };

    ghost Annotation = { Unit {0} };

    ghost family = { row_family };

    ghost entry = { whole_entry };

    ghost seen = { λ tree. tree };

    ghost kid = { whole_kid };

    fn tree(&self) -> &Subtree {
        self
    }

    fn open<'a>(tree: &'a Subtree) -> NodeView<'a, TreeKey, TreeEntry, Subtree> {
        match tree.node() {
            Node::Leaf(entries) => NodeView::Leaf(entries),
            Node::Inner {
                separators,
                children,
            } => NodeView::Inner {
                separators,
                children,
            },
        }
    }

    fn close(
        alloc: Global,
        contents: Contents<TreeKey, TreeEntry, Subtree>,
    ) -> Result<Subtree, AllocError>
        requires { IsWithin 2 (whole_contents contents) }
        ensures { IfOk result (λ node. whole_kid node
            ≡ new_kid row_family (whole_contents contents)) }
    {
        match contents {
            Contents::Leaf(entries) => Subtree::leaf(alloc, entries),
            Contents::Inner {
                separators,
                children,
            } => Subtree::inner(alloc, separators, children),
        }
    }

    fn separator(_alloc: Global, first: &TreeEntry) -> Result<TreeKey, AllocError> {
        first.share_key()
    }

    ghost entry_key = { λ e i. e.key };
}
