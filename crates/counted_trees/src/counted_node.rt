//! Counted trees as trees that the work on trees is done on.
ghost use Rattle.std.specs.Prelude.{◌≡◌, ℕ, map, IfOk};
ghost use Rattle.btree.specs.Nodes.{parts_from, new_kid};
ghost use Rattle.btree.specs.Shapes.{AreShaped, IsWithin};
ghost use Rattle.counted_trees.specs.Counts.{PlainEntry, counted_family, count_in, kid};
ghost use Rattle.counted_trees.specs.Views.{counted_contents, entry_of, tree_of};

use crate::entry::{Entry, NumberKey};
use crate::subtree::{Node, Subtree};
use btree::{Contents, NodeView, TreeNode};
use std::alloc::{AllocError, Global};

impl TreeNode for Subtree {
    type Tree = Node;

    type Key = NumberKey;

    type Entry = Entry;

    ghost Plain = { PlainEntry };

    ghost Annotation = { ℕ };

    ghost family = { counted_family };

    ghost entry = { entry_of };

    ghost seen = { tree_of };

    ghost kid = { kid };

    fn tree(&self) -> &Node {
        self.node()
    }

    fn open<'a>(tree: &'a Node) -> NodeView<'a, NumberKey, Entry, Subtree> {
        match tree {
            Node::Stub(digest) => NodeView::Stub(*digest),
            Node::Leaf(entries) => NodeView::Leaf(entries),
            Node::Inner {
                separators,
                children,
            } => NodeView::Inner {
                separators,
                children,
            },
        }
    }

    fn close(
        alloc: Global,
        contents: Contents<NumberKey, Entry, Subtree>,
    ) -> Result<Subtree, AllocError>
        requires { IsWithin 2 (counted_contents contents) }
        ensures { IfOk result (λ node. kid node
            ≡ new_kid counted_family (counted_contents contents)) }
    {
        match contents {
            Contents::Leaf(entries) => {
                Subtree::new(alloc, entries.len() as u64, Node::Leaf(entries))
            },
            Contents::Inner {
                separators,
                children,
            } => {
                let count = count_below(&children);
                let node = Node::Inner {
                    separators,
                    children,
                };
                Subtree::new(alloc, count, node)
            },
        }
    }

    fn separator(_alloc: Global, first: &Entry) -> Result<NumberKey, AllocError> {
        Ok(first.key)
    }

    ghost entry_key = { λ e i. e.key.bytes };
}

/// How many entries are below these children, or the most that a count holds where there are more.
fn count_below(children: &[Subtree]) -> u64
    ensures value { result ≡ count_in (parts_from (map kid children.now)) }
    ensures shaped { AreShaped (parts_from (map kid children.now)) }
{
    let mut count = 0u64;
    for child in children {
        count = count.saturating_add(child.count());
    }
    count
}
