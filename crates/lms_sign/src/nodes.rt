//! The nodes of a tree, as digests of what lies below them.
ghost use Rattle.std.specs.Prelude.{◌≡◌, OnOk};
ghost use Rattle.row_bytes.specs.Writing.{Writes};
ghost use Rattle.vo_spec.specs.Lms.{leaf_text, leaf_node, inner_text, inner_node, parent};
ghost use Rattle.lms_sign.specs.Paths.{parent_text};

use lm_ots::write_prefix;
use row_bytes::ByteSink;
use tagged_hash::Hasher;
use vo_spec::Digest;

// What the texts of a leaf and of an inner node begin with, after the node's name (RFC 8554,
// section 5.3).
const D_LEAF: u16 = 0x8282;

const D_INTR: u16 = 0x8383;

/// Writes what is hashed for the leaf at node `r`, from its one-time public key.
pub fn write_leaf_text<S: ByteSink>(
    sink: &mut S,
    id: &[u8; 16],
    r: u32,
    key: &Digest,
) -> Result<(), S::Fault>
    ensures { OnOk result (Writes S.HoldsBytes sink.old sink.new (leaf_text id.now r key.now)) }
{
    write_prefix(sink, id, r, D_LEAF)?;
    sink.write(key.as_bytes())
}

/// The leaf at node `r`, from its one-time public key.
pub fn leaf_node(id: &[u8; 16], r: u32, key: &Digest) -> Digest
    ensures { result ≡ leaf_node id.now r key.now }
{
    let mut hasher = Hasher::new();
    let Ok(()) = write_leaf_text(&mut hasher, id, r, key);
    hasher.end()
}

// Writes what is hashed for the inner node `r`, from its two children.
fn write_inner_text<S: ByteSink>(
    sink: &mut S,
    id: &[u8; 16],
    r: u32,
    left: &Digest,
    right: &Digest,
) -> Result<(), S::Fault>
    ensures { OnOk result
        (Writes S.HoldsBytes sink.old sink.new (inner_text id.now r left.now right.now)) }
{
    write_prefix(sink, id, r, D_INTR)?;
    sink.write(left.as_bytes())?;
    sink.write(right.as_bytes())
}

/// The inner node `r`, from its two children.
pub(crate) fn inner_node(id: &[u8; 16], r: u32, left: &Digest, right: &Digest) -> Digest
    ensures { result ≡ inner_node id.now r left.now right.now }
{
    let mut hasher = Hasher::new();
    let Ok(()) = write_inner_text(&mut hasher, id, r, left, right);
    hasher.end()
}

/// Writes what is hashed for the node above node `r`, from `r`'s digest and its sibling's.
#[tactic(auto, unfolding(crate::specs::Paths::parent_text))]
pub fn write_parent_text<S: ByteSink>(
    sink: &mut S,
    id: &[u8; 16],
    r: u32,
    node: &Digest,
    sibling: &Digest,
) -> Result<(), S::Fault>
    ensures { OnOk result
        (Writes S.HoldsBytes sink.old sink.new (parent_text id.now r node.now sibling.now)) }
{
    if r % 2 == 1 {
        write_inner_text(sink, id, r / 2, sibling, node)
    } else {
        write_inner_text(sink, id, r / 2, node, sibling)
    }
}

/// The node above node `r`, from `r`'s digest and its sibling's.
#[tactic(auto, using(crate::proofs::Parents::parent_hashed))]
pub(crate) fn parent(id: &[u8; 16], r: u32, node: &Digest, sibling: &Digest) -> Digest
    ensures { result ≡ parent id.now r node.now sibling.now }
{
    let mut hasher = Hasher::new();
    let Ok(()) = write_parent_text(&mut hasher, id, r, node, sibling);
    hasher.end()
}
