//! The parts of a forged signature against the owner's, from the root down to the chains.
ghost use Rattle.std.specs.Prelude.{◌≡◌, ◌<◌, length, IfOk, IsTrue};
ghost use Rattle.vo_spec.specs.Sha256.{sha256};
ghost use Rattle.vo_spec.specs.LmsSets.{height_of, leaves_of, lms_signature_len};
ghost use Rattle.vo_spec.specs.Ots.{is_ots_form};
ghost use Rattle.vo_spec.specs.Lms.{ots_part};
ghost use Rattle.vo_spec.specs.SecretTrees.{tree_node};
ghost use Rattle.lms_forge.specs.Places.{forged_node, forged_key_text};
ghost use Rattle.lms_forge.specs.Parts.{PartsCompared};

use crate::chains::compare_chains;
use crate::comparison::compare;
use crate::paths::{compare_leaf, compare_path};
use crate::texts::{forged_key_text, own_key_text};
use lms_sign::{SecretTree, ots_part};
use std::alloc::{AllocError, Global};
use tagged_hash::digest_of;
use vo_spec::Collision;

/// Compares all that is hashed on the way from a signature that leads to the root, but for the
/// message: these are the digits that it signs.
pub(crate) fn compare_parts(
    alloc: Global,
    tree: &SecretTree,
    q: u32,
    digits: &[u8; 34],
    signature: &[u8],
) -> Result<Option<Collision>, AllocError>
    requires whole { length signature.now ≡ lms_signature_len tree.now.lms tree.now.ots }
    requires leaf { q < leaves_of tree.now.lms }
    requires form { IsTrue (is_ots_form tree.now.ots (ots_part tree.now.ots signature.now)) }
    requires root { forged_node tree.now q signature.now
        (sha256 (forged_key_text tree.now q digits.now (ots_part tree.now.ots signature.now)))
        (height_of tree.now.lms) ≡ tree_node tree.now 1 }
    ensures { IfOk result (PartsCompared tree.now q digits.now signature.now) }
{
    let part = ots_part(tree.ots(), signature);
    let forged = forged_key_text(alloc, tree, q, digits, part)?;
    let own = own_key_text(alloc, tree, q)?;
    let key = digest_of(&forged);
    if let Some(found) = compare_path(alloc, tree, q, signature, &key)? {
        return Ok(Some(found));
    }
    if let Some(found) = compare_leaf(alloc, tree, q, &key, &digest_of(&own))? {
        return Ok(Some(found));
    }
    if let Some(found) = compare(forged, own) {
        return Ok(Some(found));
    }
    compare_chains(alloc, tree, q, digits, part)
}
