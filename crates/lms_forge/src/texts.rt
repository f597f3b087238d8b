//! What is hashed at the places of a path and of a leaf, as bytes.
ghost use Rattle.std.specs.Prelude.{◌≡◌, IfOk, IsTrue};
ghost use Rattle.vo_spec.specs.Ots.{message_text, step_text, is_ots_form};
ghost use Rattle.vo_spec.specs.Lms.{leaf_text};
ghost use Rattle.lms_sign.specs.Paths.{parent_text};
ghost use Rattle.lms_forge.specs.Places.{forged_key_text, own_key_text};

use lm_ots::{write_candidate_text, write_message_text, write_public_text, write_step_text};
use lms_sign::{SecretTree, write_leaf_text, write_parent_text};
use std::alloc::{AllocError, Global};
use vo_spec::Digest;

/// What is hashed for the node above node `r`.
pub(crate) fn parent_text(
    alloc: Global,
    tree: &SecretTree,
    r: u32,
    node: &Digest,
    sibling: &Digest,
) -> Result<Vec<u8>, AllocError>
    ensures { IfOk result (λ text. text.items ≡ parent_text tree.now.id r node.now sibling.now) }
{
    let mut text = Vec::new(alloc);
    write_parent_text(&mut text, tree.id(), r, node, sibling)?;
    Ok(text)
}

/// What is hashed for the leaf at node `r`.
pub(crate) fn leaf_text(
    alloc: Global,
    tree: &SecretTree,
    r: u32,
    key: &Digest,
) -> Result<Vec<u8>, AllocError>
    ensures { IfOk result (λ text. text.items ≡ leaf_text tree.now.id r key.now) }
{
    let mut text = Vec::new(alloc);
    write_leaf_text(&mut text, tree.id(), r, key)?;
    Ok(text)
}

/// What is hashed for the one-time public key that a signature leads to.
pub(crate) fn forged_key_text(
    alloc: Global,
    tree: &SecretTree,
    q: u32,
    digits: &[u8; 34],
    part: &[u8],
) -> Result<Vec<u8>, AllocError>
    requires { IsTrue (is_ots_form tree.now.ots part.now) }
    ensures { IfOk result (λ text. text.items ≡ forged_key_text tree.now q digits.now part.now) }
{
    let mut text = Vec::new(alloc);
    write_candidate_text(&mut text, tree.id(), q, tree.ots(), digits, part)?;
    Ok(text)
}

/// What the owner hashes for a leaf's one-time public key.
pub(crate) fn own_key_text(alloc: Global, tree: &SecretTree, q: u32) -> Result<Vec<u8>, AllocError>
    ensures { IfOk result (λ text. text.items ≡ own_key_text tree.now q) }
{
    let mut text = Vec::new(alloc);
    write_public_text(&mut text, tree.id(), q, tree.ots(), tree.seed())?;
    Ok(text)
}

/// What is hashed for a message's digest.
pub(crate) fn message_text(
    alloc: Global,
    tree: &SecretTree,
    q: u32,
    random: &Digest,
    message: &[u8],
) -> Result<Vec<u8>, AllocError>
    ensures { IfOk result (λ text. text.items
        ≡ message_text tree.now.id q random.now message.now) }
{
    let mut text = Vec::new(alloc);
    write_message_text(&mut text, tree.id(), q, random, message)?;
    Ok(text)
}

/// What is hashed at step `j` of chain `i`.
pub(crate) fn step_text(
    alloc: Global,
    tree: &SecretTree,
    q: u32,
    i: u16,
    j: u8,
    value: &Digest,
) -> Result<Vec<u8>, AllocError>
    ensures { IfOk result (λ text. text.items ≡ step_text tree.now.id q i j value.now) }
{
    let mut text = Vec::new(alloc);
    write_step_text(&mut text, tree.id(), q, i, j, value)?;
    Ok(text)
}
