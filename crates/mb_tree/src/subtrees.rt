//! The nodes of whole trees, each with all below it.
ghost use Rattle.std.specs.Prelude.{◌≡◌, ◌+◌, ◌≤◌, length, map, All, IfOk};
ghost use Rattle.vo_spec.specs.Cells.{whole_entry};
ghost use Rattle.vo_spec.specs.Parts.{leaf, inner};
ghost use Rattle.vo_spec.specs.Trees.{digest, open_parts};
ghost use Rattle.vo_spec.specs.Fits.{FitsPart, FitsKey, max_fill};
ghost use Rattle.btree.specs.Shapes.{IsWithin};
ghost use Rattle.mb_tree.specs.Whole.{whole_of};

use crate::entries::TreeEntry;
use crate::hashing::leaf_digest;
use crate::layout::{INNER_TAG, LEAF_TAG, write_inner_head};
use crate::node_hasher::NodeHasher;
use crate::tree_key::TreeKey;
use btree::try_clone_all;
use std::alloc::{AllocError, Global};
use std::marker::Model;
use std::rc::Rc;
use vo_spec::Digest;

/// A node and all below it. Trees share the subtrees that they have in common. Contracts see it as
/// a tree, as they see parts of trees. Its digest is kept once it is worked, so that a node which
/// the next change replaces need not be hashed.
#[cycle(subtree)]
#[derive(Drop)]
pub struct Subtree {
    digest: Option<Digest>,
    node: Rc<Node>,
}

#[cycle(subtree)]
#[derive(Drop)]
pub enum Node {
    Leaf(Vec<TreeEntry>),
    Inner {
        separators: Vec<TreeKey>,
        children: Vec<Subtree>,
    },
}

impl Model for Subtree {
    ghost use Rattle.vo_spec.specs.Trees.{RowTree};
    ghost use Rattle.mb_tree.specs.Codes.{coded_tree};

    ghost Value = { RowTree };

    ghost coded = { coded_tree };

    ghost use Rattle.vo_spec.specs.Parts.{levels};
    ghost use Rattle.mb_tree.specs.NodeDigests.{IsSubtree};
    ghost use Rattle.mb_tree.specs.Whole.{whole_of};

    ghost view = { λ subtree. whole_of subtree.node.value };

    ghost invariant = { λ subtree. IsSubtree subtree.digest (whole_of subtree.node.value) };

    ghost size = { levels };

    ghost use Rattle.std.proofs.Common.{arith};
    ghost use Rattle.mb_tree.specs.WholeSizes.{node_falls};

    ghost size_decreases = { λ subtree h. omega (arith, node_falls subtree.node.value) };
}

impl Subtree {
    /// A leaf of these entries.
    pub fn leaf(alloc: Global, entries: Vec<TreeEntry>) -> Result<Subtree, AllocError>
        requires { length entries.items ≤ max_fill }
        ensures { IfOk result (λ subtree. subtree ≡ leaf (map whole_entry entries.items)) }
    {
        Ok(Subtree {
            digest: None,
            node: Rc::new(alloc, Node::Leaf(entries))?,
        })
    }

    /// An inner node of these children, with the separators between them.
    #[tactic(auto, using(crate::proofs::SubtreeLaws::count_open_parts))]
    pub fn inner(
        alloc: Global,
        separators: Vec<TreeKey>,
        children: Vec<Subtree>,
    ) -> Result<Subtree, AllocError>
        requires least { 2 ≤ length children.items }
        requires most { length children.items ≤ max_fill }
        requires between { length separators.items + 1 ≡ length children.items }
        ensures { IfOk result (λ subtree. subtree
            ≡ inner separators.items (open_parts children.items)) }
    {
        Ok(Subtree {
            digest: None,
            node: Rc::new(
                alloc,
                Node::Inner {
                    separators,
                    children,
                },
            )?,
        })
    }

    /// The same subtree once more.
    pub fn share(&self) -> Result<Subtree, AllocError>
        ensures { IfOk result (λ subtree. subtree ≡ self.now) }
    {
        Ok(Subtree {
            digest: self.digest,
            node: self.node.clone()?,
        })
    }

    /// The digest of the subtree. It takes no memory, and no work where it is kept.
    #[cycle(subtree_digest)]
    pub fn node_digest(&self) -> Digest
        ensures value { result ≡ digest self.now }
        ensures fits { FitsPart self.now }
    {
        match self.digest {
            Some(digest) => digest,
            None => digest_of_node(self.node()),
        }
    }

    /// The same subtree, with its digest kept.
    fn keep_digest(self) -> Subtree
        ensures { result ≡ self }
    {
        let digest = self.node_digest();
        Subtree {
            digest: Some(digest),
            node: self.node,
        }
    }

    /// The same subtree, with the digests of all its nodes kept, each of which is hashed once.
    #[cycle(keep_digests)]
    pub fn with_digests(&self, alloc: Global) -> Result<Subtree, AllocError>
        ensures { IfOk result (λ subtree. subtree ≡ self.now) }
    {
        if self.digest.is_some() {
            return self.share();
        }
        match self.node() {
            Node::Leaf(_) => Ok(self.share()?.keep_digest()),
            Node::Inner {
                separators,
                children,
            } => inner_with_digests(alloc, separators, children),
        }
    }

    /// The node without what is below it.
    pub fn node(&self) -> &Node
        ensures value { whole_of result.now ≡ self.now }
        ensures within { IsWithin 2 self.now }
    {
        self.node.as_ref()
    }
}

#[tactic(auto, using(crate::proofs::Layouts::whole_leaf))]
#[cycle(subtree_digest)]
fn digest_of_node(node: &Node) -> Digest
    requires { IsWithin 2 (whole_of node.now) }
    ensures value { result ≡ digest (whole_of node.now) }
    ensures fits { FitsPart (whole_of node.now) }
{
    match node {
        Node::Leaf(entries) => leaf_digest(LEAF_TAG, entries),
        Node::Inner {
            separators,
            children,
        } => inner_digest(separators, children),
    }
}

// Adds the children's digests itself: it is in one cycle with `node_digest`, of which a call
// through `NodeItem` could not be a part.
#[tactic(auto, using(crate::proofs::SubtreeLaws::count_open_parts, crate::proofs::SubtreeLaws::child_bytes_open_parts))]
#[cycle(subtree_digest)]
fn inner_digest(separators: &[TreeKey], children: &[Subtree]) -> Digest
    requires { length children.now ≤ max_fill }
    ensures value { result ≡ digest (inner separators.now (open_parts children.now)) }
    ensures keys { All FitsKey separators.now }
    ensures fits { All FitsPart children.now }
{
    let mut hasher = NodeHasher::new();
    let Ok(()) = write_inner_head(&mut hasher, INNER_TAG, separators, children.len());
    for child in children {
        hasher.add(child.node_digest().as_bytes());
    }
    hasher.end()
}

#[tactic(auto, using(crate::proofs::SubtreeLaws::count_open_parts))]
#[cycle(keep_digests)]
fn inner_with_digests(
    alloc: Global,
    separators: &[TreeKey],
    children: &[Subtree],
) -> Result<Subtree, AllocError>
    requires { IsWithin 2 (inner separators.now (open_parts children.now)) }
    ensures { IfOk result (λ subtree. subtree ≡ inner separators.now (open_parts children.now)) }
{
    let children = children_with_digests(alloc, children)?;
    let separators = try_clone_all(alloc, separators)?;
    Ok(Subtree::inner(alloc, separators, children)?.keep_digest())
}

#[cycle(keep_digests)]
fn children_with_digests(alloc: Global, children: &[Subtree]) -> Result<Vec<Subtree>, AllocError>
    ensures { IfOk result (λ same. same.items ≡ children.now) }
{
    let mut same = Vec::with_capacity(alloc, children.len())?;
    for child in children {
        same.push(child.with_digests(alloc)?)?;
    }
    Ok(same)
}
