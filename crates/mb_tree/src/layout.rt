//! The preimages of nodes, laid out once for all trees and for all that they are written to.
ghost use Rattle.std.specs.Prelude.{◌≡◌, ℕ, List, [], ◌∷◌, ◌≤◌, length, flat_map, All, OnOk};
ghost use Rattle.vo_spec.specs.Bytes.{string};
ghost use Rattle.vo_spec.specs.Fits.{FitsKey, max_fill};
ghost use Rattle.row_bytes.specs.Writing.{Writes};
ghost use Rattle.mb_tree.specs.Layouts.{leaf_layout, head_layout, inner_layout};

use row_bytes::ByteSink;
use vo_spec::u16_bytes;

/// The first byte of a leaf and of an inner node, in trees of rows.
pub const LEAF_TAG: u8 = 3;

pub const INNER_TAG: u8 = 4;

/// An entry, a separator or a child of a node.
pub trait NodeItem {
    // what the node's preimage has of it
    ghost bytes: { Self → List ℕ };

    // what a caller must know of it
    ghost CanWrite: { Self → Type 0 } = { λ _. Unit {0} };

    // what its type knows of it
    ghost Fits: { Self → Type 0 } = { λ _. Unit {0} };

    fn write_to<W: ByteSink>(&self, writer: &mut W) -> Result<(), W::Fault>
        requires { CanWrite self.now }
        ensures value { OnOk result (Writes W.HoldsBytes writer.old writer.new (bytes self.now)) }
        ensures fits { OnOk result (Fits self.now) };
}

/// A leaf is its first byte, the count of its entries and these.
pub fn write_leaf<W: ByteSink, E: NodeItem>(
    writer: &mut W,
    tag: u8,
    entries: &[E],
) -> Result<(), W::Fault>
    requires count { length entries.now ≤ max_fill }
    requires can { All E.CanWrite entries.now }
    ensures value { OnOk result
        (Writes W.HoldsBytes writer.old writer.new (leaf_layout tag E.bytes entries.now)) }
    ensures fits { OnOk result (All E.Fits entries.now) }
{
    write_start(writer, tag, entries.len())?;
    write_items(writer, entries)
}

/// An inner node is its first byte, the count of its children, its separators and its
/// children's digests.
pub fn write_inner<W: ByteSink, K: NodeItem, C: NodeItem>(
    writer: &mut W,
    tag: u8,
    separators: &[K],
    children: &[C],
) -> Result<(), W::Fault>
    requires count { length children.now ≤ max_fill }
    requires can_keys { All K.CanWrite separators.now }
    requires can { All C.CanWrite children.now }
    ensures value { OnOk result (Writes W.HoldsBytes writer.old writer.new
        (inner_layout tag K.bytes C.bytes separators.now children.now)) }
    ensures keys { OnOk result (All K.Fits separators.now) }
    ensures fits { OnOk result (All C.Fits children.now) }
{
    write_inner_head(writer, tag, separators, children.len())?;
    write_items(writer, children)
}

/// What an inner node has before the digests of its children.
pub fn write_inner_head<W: ByteSink, K: NodeItem>(
    writer: &mut W,
    tag: u8,
    separators: &[K],
    children: usize,
) -> Result<(), W::Fault>
    requires count { children ≤ max_fill }
    requires can { All K.CanWrite separators.now }
    ensures value { OnOk result
        (Writes W.HoldsBytes writer.old writer.new
        (head_layout tag K.bytes separators.now children)) }
    ensures fits { OnOk result (All K.Fits separators.now) }
{
    write_start(writer, tag, children)?;
    write_items(writer, separators)
}

fn write_start<W: ByteSink>(writer: &mut W, tag: u8, count: usize) -> Result<(), W::Fault>
    requires { count ≤ max_fill }
    ensures { OnOk result (Writes W.HoldsBytes writer.old writer.new (tag ∷ count ∷ [])) }
{
    writer.write(&[tag, count as u8])
}

fn write_items<W: ByteSink, I: NodeItem>(writer: &mut W, items: &[I]) -> Result<(), W::Fault>
    requires { All I.CanWrite items.now }
    ensures value { OnOk result
        (Writes W.HoldsBytes writer.old writer.new (flat_map I.bytes items.now)) }
    ensures fits { OnOk result (All I.Fits items.now) }
{
    for item in items {
        item.write_to(writer)?;
    }
    Ok(())
}

/// A key or separator stands behind its length.
// Inlined: asked of each entry and each separator.
#[inline(always)]
pub fn write_key<W: ByteSink>(writer: &mut W, key: &[u8]) -> Result<(), W::Fault>
    requires { FitsKey key.now }
    ensures { OnOk result (Writes W.HoldsBytes writer.old writer.new (string key.now)) }
{
    writer.write(&u16_bytes(key.len() as u16))?;
    writer.write(key)
}
