//! The bytes whose digests are those of nodes.
ghost use Rattle.std.specs.Prelude.{◌≡◌, ◌≤◌, length, All, IfOk};
ghost use Rattle.vo_spec.specs.Trees.{preimage};
ghost use Rattle.vo_spec.specs.Fits.{FitsPart, max_fill};
ghost use Rattle.mb_tree.specs.View.{part_of};
ghost use Rattle.mb_tree.specs.Layouts.{leaf_layout, inner_layout};

use crate::layout::{INNER_TAG, LEAF_TAG, NodeItem, write_inner, write_leaf};
use crate::parts::PartTree;
use crate::subtrees::{Node, Subtree};
use std::alloc::{AllocError, Global};

impl PartTree<'_> {
    /// The bytes whose digest is that of the tree. A stub has none.
    #[tactic(auto, using(crate::proofs::PartLaws::count_parts_of, crate::proofs::Layouts::part_inner, crate::proofs::Layouts::parts_fit))]
    pub fn preimage(&self, alloc: Global) -> Result<Vec<u8>, AllocError>
        requires { FitsPart (part_of self.now) }
        ensures { IfOk result (λ bytes. bytes.items ≡ preimage (part_of self.now)) }
    {
        match self {
            PartTree::Stub(_) => Ok(Vec::new(alloc)),
            PartTree::Leaf(entries) => leaf_preimage(alloc, LEAF_TAG, entries.as_slice()),
            PartTree::Inner {
                separators,
                children,
            } => inner_preimage(alloc, INNER_TAG, separators.as_slice(), children.as_slice()),
        }
    }
}

impl Subtree {
    /// The bytes whose digest is that of the subtree.
    #[tactic(auto, using(crate::proofs::Layouts::whole_leaf, crate::proofs::Layouts::whole_inner))]
    pub fn preimage(&self, alloc: Global) -> Result<Vec<u8>, AllocError>
        ensures value { IfOk result (λ bytes. bytes.items ≡ preimage self.now) }
        ensures fits { IfOk result (λ _. FitsPart self.now) }
    {
        match self.node() {
            Node::Leaf(entries) => leaf_preimage(alloc, LEAF_TAG, entries),
            Node::Inner {
                separators,
                children,
            } => inner_preimage(alloc, INNER_TAG, separators, children),
        }
    }
}

/// The preimage of a leaf with this first byte.
pub fn leaf_preimage<E: NodeItem>(
    alloc: Global,
    tag: u8,
    entries: &[E],
) -> Result<Vec<u8>, AllocError>
    requires count { length entries.now ≤ max_fill }
    requires can { All E.CanWrite entries.now }
    ensures value { IfOk result (λ bytes. bytes.items ≡ leaf_layout tag E.bytes entries.now) }
    ensures fits { IfOk result (λ _. All E.Fits entries.now) }
{
    let mut bytes = Vec::new(alloc);
    write_leaf(&mut bytes, tag, entries)?;
    Ok(bytes)
}

/// The preimage of an inner node with this first byte.
pub fn inner_preimage<K: NodeItem, C: NodeItem>(
    alloc: Global,
    tag: u8,
    separators: &[K],
    children: &[C],
) -> Result<Vec<u8>, AllocError>
    requires count { length children.now ≤ max_fill }
    requires can_keys { All K.CanWrite separators.now }
    requires can { All C.CanWrite children.now }
    ensures value { IfOk result (λ bytes. bytes.items
        ≡ inner_layout tag K.bytes C.bytes separators.now children.now) }
    ensures fits { IfOk result (λ _. All K.Fits separators.now × All C.Fits children.now) }
{
    let mut bytes = Vec::new(alloc);
    write_inner(&mut bytes, tag, separators, children)?;
    Ok(bytes)
}
