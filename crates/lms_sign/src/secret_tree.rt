//! The secret keys of trees, with all their nodes.
ghost use Rattle.std.specs.Prelude.{◌≡◌, ◌+◌, ◌*◌, ◌<◌, ◌≤◌, length, IfOk};
ghost use Rattle.vo_spec.specs.LmsSets.{height_of, leaves_of};
ghost use Rattle.vo_spec.specs.SecretTrees.{tree_of, tree_node, public_of_tree};
ghost use Rattle.lms_sign.specs.Kept.{AreNodes, IsKept};

use crate::lms_key::LmsKey;
use crate::nodes::{inner_node, leaf_node};
use lm_ots::public_of;
use std::alloc::{AllocError, Global};
use std::marker::Model;
use vo_spec::{Digest, LmsType, OtsType};

/// A secret key of one tree, of height 10 at most, with all its nodes; contracts see its
/// identifier, seed and parameter sets.
#[derive(Drop)]
pub struct SecretTree {
    pub(crate) id: [u8; 16],
    pub(crate) seed: [u8; 32],
    pub(crate) ots: OtsType,
    pub(crate) lms: LmsType,
    nodes: Vec<Digest>,
}

impl Model for SecretTree {
    ghost use Rattle.vo_spec.specs.SecretTrees.{SecretTree, tree_of};
    ghost use Rattle.lms_sign.specs.Kept.{IsKept};

    ghost Value = { SecretTree };

    ghost view = { λ tree. tree_of tree.id tree.seed tree.ots tree.lms };

    ghost invariant = { λ tree. IsKept tree.id tree.seed tree.ots tree.lms tree.nodes.items };
}

// Node `r`, from the nodes above it in number: a leaf from its one-time key, any other from its
// children.
fn next_node(
    id: &[u8; 16],
    seed: &[u8; 32],
    ots: OtsType,
    lms: LmsType,
    nodes: &[Digest],
    r: u32,
) -> Digest
    requires low { height_of lms ≤ 10 }
    requires number { length nodes.now + r + 1 ≡ 2 * leaves_of lms }
    requires are { AreNodes (tree_of id.now seed.now ots lms) nodes.now }
    requires first { 0 < r }
    ensures { result ≡ tree_node (tree_of id.now seed.now ots lms) r }
{
    let leaves = 1 << lms.height();
    if r >= leaves {
        return leaf_node(id, r, &public_of(id, r - leaves, ots, seed));
    }
    let left = (2 * (leaves - r) - 1) as usize;
    inner_node(id, r, &nodes[left], &nodes[left - 1])
}

// All nodes of a tree, from the last one down.
fn all_nodes(
    alloc: Global,
    id: &[u8; 16],
    seed: &[u8; 32],
    ots: OtsType,
    lms: LmsType,
) -> Result<Vec<Digest>, AllocError>
    requires { height_of lms ≤ 10 }
    ensures { IfOk result (λ nodes. IsKept id.now seed.now ots lms nodes.items) }
{
    let end = 2 << lms.height();
    let mut nodes = Vec::with_capacity(alloc, end as usize - 1)?;
    for k in 1..end {
        let node = next_node(id, seed, ots, lms, &nodes, end - k);
        nodes.push(node)?;
    }
    Ok(nodes)
}

impl SecretTree {
    /// Makes the tree, which takes a one-time key for each of its 2^h leaves.
    pub fn make(
        alloc: Global,
        id: [u8; 16],
        seed: [u8; 32],
        ots: OtsType,
        lms: LmsType,
    ) -> Result<SecretTree, AllocError>
        requires { height_of lms ≤ 10 }
        ensures value { IfOk result (λ tree. tree ≡ tree_of id seed ots lms) }
        ensures sixteen { IfOk result (λ tree. length tree.id ≡ 16) }
    {
        let nodes = all_nodes(alloc, &id, &seed, ots, lms)?;
        Ok(SecretTree {
            id,
            seed,
            ots,
            lms,
            nodes,
        })
    }

    /// An equal tree.
    pub fn copy(&self, alloc: Global) -> Result<SecretTree, AllocError>
        ensures { IfOk result (λ tree. tree ≡ self.now) }
    {
        let nodes = Vec::from_slice(alloc, &self.nodes)?;
        Ok(SecretTree {
            id: self.id,
            seed: self.seed,
            ots: self.ots,
            lms: self.lms,
            nodes,
        })
    }

    /// The tree's identifier I.
    pub fn id(&self) -> &[u8; 16]
        ensures value { result.now ≡ self.now.id }
        ensures sixteen { length self.now.id ≡ 16 }
    {
        &self.id
    }

    /// The seed of which the tree's secrets are made.
    pub fn seed(&self) -> &[u8; 32]
        ensures { result.now ≡ self.now.seed }
    {
        &self.seed
    }

    /// The parameter set of its one-time keys.
    pub fn ots(&self) -> OtsType
        ensures { result ≡ self.now.ots }
    {
        self.ots
    }

    /// The height of the tree: 5 or 10.
    pub fn height(&self) -> u32
        ensures value { result ≡ height_of self.now.lms }
        ensures low { result ≤ 10 }
    {
        self.lms.height()
    }

    /// How many leaves the tree has: 32 or 1,024.
    pub fn leaves(&self) -> u32
        ensures value { result ≡ leaves_of self.now.lms }
        ensures few { result ≤ 1024 }
    {
        1 << self.lms.height()
    }

    /// Node `r` of the tree: the root is node 1, and the children of node `r` are `2r` and `2r +
    /// 1`.
    pub fn node(&self, r: u32) -> Digest
        requires first { 0 < r }
        requires last { r < 2 * leaves_of self.now.lms }
        ensures { result ≡ tree_node self.now r }
    {
        let last = (2 << self.lms.height()) - 1;
        self.nodes[(last - r) as usize]
    }

    /// The public key.
    pub fn key(&self) -> LmsKey
        ensures { result ≡ public_of_tree self.now }
    {
        let root = self.node(1);
        LmsKey {
            lms: self.lms,
            ots: self.ots,
            id: self.id,
            root,
        }
    }
}
