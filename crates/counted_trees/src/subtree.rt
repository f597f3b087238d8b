//! The nodes of counted trees.
ghost use Rattle.std.specs.Prelude.{◌≡◌, IfOk};
ghost use Rattle.vo_spec.specs.Parts.{stub};
ghost use Rattle.btree.specs.Shapes.{IsShaped};
ghost use Rattle.counted_trees.specs.Views.{tree_of};

use crate::entry::{Entry, NumberKey};
use btree::TryClone;
use std::alloc::{AllocError, Global};
use std::marker::Model;
use std::rc::Rc;
use vo_spec::Digest;

/// A node and all below it, and how many entries that has. Trees share the nodes that they have in
/// common.
#[cycle(subtree)]
#[derive(Drop)]
pub struct Subtree {
    count: u64,
    node: Rc<Node>,
}

#[cycle(subtree)]
#[derive(Drop)]
pub enum Node {
    Stub(Digest),
    Leaf(Vec<Entry>),
    Inner {
        separators: Vec<NumberKey>,
        children: Vec<Subtree>,
    },
}

impl Model for Subtree {
    ghost use Rattle.counted_trees.specs.Counts.{PlainSubtree, coded_subtree};

    ghost Value = { PlainSubtree };

    ghost coded = { coded_subtree };

    ghost use Rattle.vo_spec.specs.Parts.{levels};
    ghost use Rattle.btree.specs.Shapes.{IsShaped};
    ghost use Rattle.counted_trees.specs.Views.{tree_of};

    ghost view = { λ subtree. record { count = subtree.count; tree = tree_of subtree.node.value } };

    ghost invariant = { λ subtree. IsShaped (tree_of subtree.node.value) };

    ghost size = { λ subtree. levels subtree.tree };

    ghost use Rattle.std.proofs.Common.{arith};
    ghost use Rattle.counted_trees.specs.Sizes.{node_falls};

    ghost size_decreases = { λ subtree h. omega (arith, node_falls subtree.node.value) };
}

impl Subtree {
    /// A node with this count of what is below it.
    pub fn new(alloc: Global, count: u64, node: Node) -> Result<Subtree, AllocError>
        requires { IsShaped (tree_of node) }
        ensures { IfOk result (λ subtree. subtree ≡ record { count = count; tree = tree_of node }) }
    {
        let node = Rc::new(alloc, node)?;
        Ok(Subtree { count, node })
    }

    pub fn count(&self) -> u64
        ensures value { result ≡ self.now.count }
        ensures shaped { IsShaped self.now.tree }
    {
        self.count
    }

    /// The node without what is below it.
    pub fn node(&self) -> &Node
        ensures value { tree_of result.now ≡ self.now.tree }
        ensures shaped { IsShaped (tree_of result.now) }
    {
        self.node.as_ref()
    }
}

impl TryClone for Subtree {
    fn try_clone(&self, _alloc: Global) -> Result<Subtree, AllocError> {
        Ok(Subtree {
            count: self.count,
            node: self.node.clone()?,
        })
    }
}
