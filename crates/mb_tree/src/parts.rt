//! Parts of trees, as a proof has them.
ghost use Rattle.std.specs.Prelude.{◌≡◌, length};
ghost use Rattle.mb_tree.specs.View.{parts_of};

use std::marker::Model;
use vo_spec::{Digest, KeyPart, List, PartEntry};

/// A tree of which some subtrees are digests alone. The keys and texts are lent by what the tree
/// was read from, or owned where an update put them.
#[cycle(part)]
#[derive(Drop)]
pub enum PartTree<'b> {
    Stub(Digest),
    Leaf(List<PartEntry<'b>>),
    Inner {
        separators: List<KeyPart<'b>>,
        children: Children<'b>,
    },
}

/// The children of a node, which contracts see as parts of trees.
#[cycle(part)]
#[derive(Drop)]
pub struct Children<'b> {
    items: Vec<PartTree<'b>>,
}

impl<'b> Model for Children<'b> {
    ghost use Rattle.vo_spec.specs.Trees.{RowTrees};
    ghost use Rattle.mb_tree.specs.Codes.{coded_trees};

    ghost Value = { RowTrees };

    ghost coded = { coded_trees };

    ghost use Rattle.vo_spec.specs.Parts.{levels_in};
    ghost use Rattle.mb_tree.specs.View.{parts_of};

    ghost view = { λ children. parts_of children.items.items };

    ghost size = { levels_in };

    ghost use Rattle.std.proofs.Common.{arith};
    ghost use Rattle.mb_tree.specs.Sizes.{children_fall};

    ghost size_decreases = { λ children h. omega (arith, children_fall children.items.items) };
}

impl<'b> Children<'b> {
    pub fn from_vec(items: Vec<PartTree<'b>>) -> Children<'b>
        ensures { result ≡ parts_of items.entry.items }
    {
        Children { items }
    }

    pub fn as_slice(&self) -> &[PartTree<'b>]
        ensures { parts_of result.now ≡ self.now }
    {
        self.items.as_slice()
    }
}
