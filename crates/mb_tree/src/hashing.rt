//! Digests of leaves.
ghost use Rattle.std.specs.Prelude.{◌≡◌, ◌≤◌, length, All};
ghost use Rattle.vo_spec.specs.Sha256.{sha256};
ghost use Rattle.vo_spec.specs.Fits.{max_fill};
ghost use Rattle.mb_tree.specs.Layouts.{leaf_layout};

use crate::layout::{NodeItem, write_leaf};
use crate::node_hasher::NodeHasher;
use vo_spec::Digest;

/// The digest of a leaf of these entries, whose preimage has this first byte.
pub fn leaf_digest<E: NodeItem>(tag: u8, entries: &[E]) -> Digest
    requires count { length entries.now ≤ max_fill }
    requires can { All E.CanWrite entries.now }
    ensures value { result ≡ sha256 (leaf_layout tag E.bytes entries.now) }
    ensures fits { All E.Fits entries.now }
{
    let mut hasher = NodeHasher::new();
    let Ok(()) = write_leaf(&mut hasher, tag, entries);
    hasher.end()
}
