//! What the work on trees asks of a node.
ghost use Rattle.std.specs.Prelude.{◌≡◌, IfOk};
ghost use Rattle.vo_spec.specs.Parts.{Part, Family};
ghost use Rattle.btree.specs.Nodes.{Kid, view_of, contents_of, new_kid};
ghost use Rattle.btree.specs.Shapes.{IsWithin};

use crate::keyed_item::KeyedItem;
use crate::try_clone::TryClone;
use std::alloc::{AllocError, Global};
use vo_spec::Digest;

/// What a node has, lent.
#[derive(Drop)]
pub enum NodeView<'a, K, E, N> {
    Stub(Digest),
    Leaf(&'a [E]),
    Inner {
        separators: &'a [K],
        children: &'a [N],
    },
}

/// What a node is to have, or has left. It may be too little for a node.
#[derive(Drop)]
pub enum Contents<K, E, N> {
    Leaf(Vec<E>),
    Inner {
        separators: Vec<K>,
        children: Vec<N>,
    },
}

/// A root or a child of a node: a tree, and what its parent holds beside it. A kind of tree says
/// how its nodes are opened and made, and the work does the rest.
pub trait TreeNode: TryClone + Sized + Drop {
    /// The tree alone.
    type Tree;

    /// A separator.
    type Key: TryClone + KeyedItem + Drop;

    /// An entry of a leaf.
    type Entry: TryClone + KeyedItem + Drop;

    ghost Plain: { Type 0 };

    ghost Annotation: { Type 0 };

    ghost family: { Family Plain Annotation };

    ghost entry: { Self.Entry → Plain };

    ghost seen: { Self.Tree → Part Plain Annotation };

    ghost kid: { Self → Kid Plain Annotation };

    fn tree(&self) -> &Self::Tree
        ensures { seen result.now ≡ (kid self.now).1 };

    /// The node at the tree's root.
    fn open<'a>(tree: &'a Self::Tree) -> NodeView<'a, Self::Key, Self::Entry, Self>
        ensures { view_of Self.Key.key entry kid result ≡ seen tree.now };

    /// The node of these contents, with what a parent holds of it made anew.
    fn close(
        alloc: Global,
        contents: Contents<Self::Key, Self::Entry, Self>,
    ) -> Result<Self, AllocError>
        requires { IsWithin 2 (contents_of Self.Key.key entry kid contents) }
        ensures { IfOk result (λ node. kid node
            ≡ new_kid family (contents_of Self.Key.key entry kid contents)) };

    /// The separator before a leaf whose first entry is this.
    fn separator(alloc: Global, first: &Self::Entry) -> Result<Self::Key, AllocError>
        ensures { IfOk result (λ key. Self.Key.key key ≡ family.key (entry first.now)) };

    ghost entry_key: { (e : Self.Entry) → Self.Entry.key e ≡ family.key (entry e) };
}
