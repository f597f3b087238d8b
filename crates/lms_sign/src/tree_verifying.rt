//! Verifying the signature of a tree.
ghost use Rattle.std.specs.Prelude.{◌≡◌, ◌+◌, ◌*◌, ◌≤◌, ◌<◌, IfSome, IsTrue, is_some, length};
ghost use Rattle.vo_spec.specs.Ots.{is_ots_form};
ghost use Rattle.vo_spec.specs.OtsSets.{ots_signature_len};
ghost use Rattle.vo_spec.specs.LmsSets.{height_of, lms_signature_len};
ghost use Rattle.vo_spec.specs.Lms.{climb, path_at, is_lms_form, ots_part, is_valid_under, tree_valid, lms_candidate};

use crate::lms_key::LmsKey;
use crate::nodes::{leaf_node, parent};
use lm_ots::{candidate, digest_at, u32_at};
use vo_spec::{Digest, LmsType, OtsType};

/// The length of a signature by keys of these sets, in bytes.
pub(crate) fn signature_len(lms: LmsType, ots: OtsType) -> usize
    ensures { result ≡ lms_signature_len lms ots }
{
    8 + ots.signature_len() + 32 * lms.height() as usize
}

// The signature has the length and the typecode of the sets, and its leaf is one of the tree's.
#[tactic(auto, unfolding(vo_spec::specs::Lms::is_lms_form))]
fn is_form(lms: LmsType, ots: OtsType, signature: &[u8]) -> bool
    ensures { result ≡ is_lms_form lms ots signature.now }
{
    signature.len() == signature_len(lms, ots)
        && u32_at(signature, 4 + ots.signature_len()) == lms.code()
        && u32_at(signature, 0) < 1 << lms.height()
}

/// The digest of a signature's path at a level.
#[tactic(auto, unfolding(vo_spec::specs::Lms::path_at))]
pub fn path_at(ots: OtsType, signature: &[u8], level: u32) -> Digest
    requires { 8 + ots_signature_len ots + 32 * level + 32 ≤ length signature.now }
    ensures { result ≡ path_at ots signature.now level }
{
    digest_at(signature, 8 + ots.signature_len() + 32 * level as usize)
}

/// The node that is so many levels above the leaf at node `r`, along the signature's path.
pub fn node_above(
    id: &[u8; 16],
    ots: OtsType,
    r: u32,
    leaf: &Digest,
    signature: &[u8],
    levels: u32,
) -> Digest
    requires path { 8 + ots_signature_len ots + 32 * levels ≤ length signature.now }
    requires few { levels ≤ 25 }
    ensures { result ≡ climb id.now r (path_at ots signature.now) leaf.now levels }
{
    let mut node = *leaf;
    for level in 0..levels {
        node = parent(id, r >> level, &node, &path_at(ots, signature, level));
    }
    node
}

/// The one-time signature inside a signature.
#[tactic(auto, unfolding(vo_spec::specs::Lms::ots_part))]
pub fn ots_part(ots: OtsType, signature: &[u8]) -> &[u8]
    requires { 4 + ots_signature_len ots ≤ length signature.now }
    ensures { result.now ≡ ots_part ots signature.now }
{
    &signature[4..4 + ots.signature_len()]
}

// The root that the signature leads to (RFC 8554, algorithm 6a), if the one-time signature has its
// form.
fn candidate_root(
    lms: LmsType,
    ots: OtsType,
    id: &[u8; 16],
    message: &[u8],
    signature: &[u8],
) -> Option<Digest>
    requires { IsTrue (is_lms_form lms ots signature.now) }
    ensures form { is_some result ≡ is_ots_form ots (ots_part ots signature.now) }
    ensures value { IfSome result (λ root. root
        ≡ lms_candidate lms ots id.now message.now signature.now) }
{
    let q = u32_at(signature, 0);
    let Some(key) = candidate(id, q, ots, message, ots_part(ots, signature)) else {
        return None;
    };
    let r = (1 << lms.height()) + q;
    let leaf = leaf_node(id, r, &key);
    Some(node_above(id, ots, r, &leaf, signature, lms.height()))
}

// The signature is valid under a key of these parts.
#[tactic(auto, unfolding(vo_spec::specs::Lms::is_valid_under))]
fn is_valid_under(
    lms: LmsType,
    ots: OtsType,
    id: &[u8; 16],
    root: &Digest,
    message: &[u8],
    signature: &[u8],
) -> bool
    ensures { result ≡ is_valid_under lms ots id.now root.now message.now signature.now }
{
    if !is_form(lms, ots, signature) {
        return false;
    }
    match candidate_root(lms, ots, id, message, signature) {
        Some(found) => found == *root,
        None => false,
    }
}

/// The signature of the message is valid under the tree's key (RFC 8554, algorithm 6).
pub(crate) fn verify_tree(key: &LmsKey, message: &[u8], signature: &[u8]) -> bool
    ensures { result ≡ tree_valid key.now message.now signature.now }
{
    is_valid_under(key.lms, key.ots, &key.id, &key.root, message, signature)
}
