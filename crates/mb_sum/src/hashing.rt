//! Digests and preimages of totals trees, whole and in part.
ghost use Rattle.std.specs.Prelude.{◌≡◌, ◌≤◌, ◌++◌, ◌/◌, ◌%◌, ◌^◌, length, map, All, IfOk, OnOk};
ghost use Rattle.btree.specs.Nodes.{parts_from};
ghost use Rattle.btree.specs.Shapes.{IsWithin};
ghost use Rattle.row_bytes.specs.Writing.{Writes};
ghost use Rattle.vo_spec.specs.Parts.{inner};
ghost use Rattle.vo_spec.specs.Fits.{FitsKey, FitsEach, max_fill};
ghost use Rattle.totals_laws.specs.TotalsTrees.{
  FitsTotalEntry,
  FitsTotals,
  digest,
  preimage,
  sum_bytes,
  total_entry_bytes,
  totals_bytes,
  totals_of,
};
ghost use Rattle.mb_sum.specs.Views.{part_of, parts_of};
ghost use Rattle.mb_sum.specs.Whole.{whole_kid, whole_of};

use crate::parts::{PartTotals, TotalChild};
use crate::whole::{TotalsNode, TotalsSubtree, TreeTotal};
use mb_tree::{
    NodeHasher, NodeItem, TreeKey, inner_preimage, leaf_digest, leaf_preimage, write_inner,
    write_inner_head, write_key,
};
use row_bytes::ByteSink;
use std::alloc::{AllocError, Global};
use totals_laws::Totals;
use vo_spec::{Digest, KeyPart, u64_bytes};

/// The first bytes of leaves and of inner nodes.
const LEAF_TAG: u8 = 6;

const INNER_TAG: u8 = 7;

/// The halves of a sum of 128 bits.
const HALF: u128 = 18_446_744_073_709_551_616;

fn high_half(bits: u128) -> u64
    ensures { result ≡ bits / 2 ^ 64 }
{
    (bits / HALF) as u64
}

fn low_half(bits: u128) -> u64
    ensures { result ≡ bits % 2 ^ 64 }
{
    (bits % HALF) as u64
}

fn write_sum<W: ByteSink>(writer: &mut W, sum: i128) -> Result<(), W::Fault>
    ensures { OnOk result (Writes W.HoldsBytes writer.old writer.new (sum_bytes sum)) }
{
    let bits = sum.cast_unsigned();
    writer.write(&u64_bytes(high_half(bits)))?;
    writer.write(&u64_bytes(low_half(bits)))
}

/// What a parent's preimage has of a child behind its digest.
fn write_totals<W: ByteSink>(writer: &mut W, totals: Totals) -> Result<(), W::Fault>
    ensures { OnOk result (Writes W.HoldsBytes writer.old writer.new (totals_bytes totals)) }
{
    writer.write(&u64_bytes(totals.count))?;
    write_sum(writer, totals.sum)
}

fn write_child<W: ByteSink>(writer: &mut W, digest: Digest, totals: Totals) -> Result<(), W::Fault>
    ensures { OnOk result (Writes W.HoldsBytes writer.old writer.new
        (digest ++ totals_bytes totals)) }
{
    writer.write(digest.as_bytes())?;
    write_totals(writer, totals)
}

// Parts.

impl PartTotals<'_> {
    /// The digest of the tree. It takes no memory.
    #[tactic(auto, using(crate::proofs::Children::count_parts_of))]
    #[cycle(node_digest)]
    pub fn node_digest(&self) -> Digest
        requires { FitsTotals (part_of self.now) }
        ensures { result ≡ digest (part_of self.now) }
    {
        match self {
            PartTotals::Stub(digest) => *digest,
            PartTotals::Leaf(entries) => leaf_digest(LEAF_TAG, entries.as_slice()),
            PartTotals::Inner {
                separators,
                children,
            } => inner_digest(separators.as_slice(), children.as_slice()),
        }
    }
}

#[cycle(node_digest)]
fn inner_digest(separators: &[KeyPart<'_>], children: &[TotalChild<'_>]) -> Digest
    requires count { length children.now ≤ max_fill }
    requires keys { All FitsKey separators.now }
    requires fits { FitsEach FitsTotalEntry (parts_of children.now) }
    ensures { result ≡ digest (inner separators.now (parts_of children.now)) }
{
    let mut hasher = NodeHasher::new();
    let Ok(()) = write_inner_head(&mut hasher, INNER_TAG, separators, children.len());
    for child in children {
        let digest = child.tree.node_digest();
        let Ok(()) = write_child(&mut hasher, digest, child.totals);
    }
    hasher.end()
}

// Whole trees.

impl NodeItem for TreeTotal {
    ghost bytes = { total_entry_bytes };

    ghost Fits = { FitsTotalEntry };

    fn write_to<W: ByteSink>(&self, writer: &mut W) -> Result<(), W::Fault> {
        write_key(writer, self.key().as_bytes())?;
        writer.write(&u64_bytes(self.value().cast_unsigned()))
    }
}

impl NodeItem for TotalsSubtree {
    ghost bytes = { λ tree. digest tree ++ totals_bytes (totals_of tree) };

    ghost Fits = { FitsTotals };

    fn write_to<W: ByteSink>(&self, writer: &mut W) -> Result<(), W::Fault> {
        write_child(writer, self.node_digest(), self.totals())
    }
}

/// The digest of a node whose children keep theirs.
pub fn digest_of_node(node: &TotalsNode) -> Digest
    requires { IsWithin 2 (whole_of node.now) }
    ensures value { result ≡ digest (whole_of node.now) }
    ensures fits { FitsTotals (whole_of node.now) }
{
    match node {
        TotalsNode::Leaf(entries) => leaf_digest(LEAF_TAG, entries),
        TotalsNode::Inner {
            separators,
            children,
        } => digest_of_inner(separators, children),
    }
}

fn digest_of_inner(separators: &[TreeKey], children: &[TotalsSubtree]) -> Digest
    requires { length children.now ≤ max_fill }
    ensures value { result ≡ digest (inner separators.now
        (parts_from (map whole_kid children.now))) }
    ensures keys { All FitsKey separators.now }
    ensures fits { All FitsTotals children.now }
{
    let mut hasher = NodeHasher::new();
    let Ok(()) = write_inner(&mut hasher, INNER_TAG, separators, children);
    hasher.end()
}

// Preimages.

impl NodeItem for TotalChild<'_> {
    ghost bytes = { λ child. digest (part_of child.tree) ++ totals_bytes child.totals };

    ghost CanWrite = { λ child. FitsTotals (part_of child.tree) };

    fn write_to<W: ByteSink>(&self, writer: &mut W) -> Result<(), W::Fault> {
        write_child(writer, self.tree.node_digest(), self.totals)
    }
}

impl PartTotals<'_> {
    /// The bytes whose digest is that of the tree. A stub has none.
    #[tactic(auto, using(crate::proofs::Children::count_parts_of))]
    pub fn preimage(&self, alloc: Global) -> Result<Vec<u8>, AllocError>
        requires { FitsTotals (part_of self.now) }
        ensures { IfOk result (λ bytes. bytes.items ≡ preimage (part_of self.now)) }
    {
        match self {
            PartTotals::Stub(_) => Ok(Vec::new(alloc)),
            PartTotals::Leaf(entries) => leaf_preimage(alloc, LEAF_TAG, entries.as_slice()),
            PartTotals::Inner {
                separators,
                children,
            } => preimage_of_inner(alloc, separators.as_slice(), children.as_slice()),
        }
    }
}

#[tactic(auto, using(crate::proofs::WholeNodes::part_inner, crate::proofs::WholeNodes::parts_fit))]
fn preimage_of_inner(
    alloc: Global,
    separators: &[KeyPart<'_>],
    children: &[TotalChild<'_>],
) -> Result<Vec<u8>, AllocError>
    requires count { length children.now ≤ max_fill }
    requires keys { All FitsKey separators.now }
    requires fits { FitsEach FitsTotalEntry (parts_of children.now) }
    ensures { IfOk result (λ bytes. bytes.items
        ≡ preimage (inner separators.now (parts_of children.now))) }
{
    inner_preimage(alloc, INNER_TAG, separators, children)
}

impl TotalsSubtree {
    /// The bytes whose digest is that of the subtree.
    pub fn preimage(&self, alloc: Global) -> Result<Vec<u8>, AllocError>
        ensures { IfOk result (λ bytes. bytes.items ≡ preimage self.now) }
    {
        preimage_of_node(alloc, self.node())
    }
}

#[tactic(auto, using(crate::proofs::WholeNodes::whole_inner))]
fn preimage_of_node(alloc: Global, node: &TotalsNode) -> Result<Vec<u8>, AllocError>
    requires { IsWithin 2 (whole_of node.now) }
    ensures { IfOk result (λ bytes. bytes.items ≡ preimage (whole_of node.now)) }
{
    match node {
        TotalsNode::Leaf(entries) => leaf_preimage(alloc, LEAF_TAG, entries),
        TotalsNode::Inner {
            separators,
            children,
        } => inner_preimage(alloc, INNER_TAG, separators, children),
    }
}
