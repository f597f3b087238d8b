//! The path of a forged signature against the owner's tree, from the root down to the leaf.
ghost use Rattle.std.specs.Prelude.{◌≡◌, ◌+◌, ◌/◌, ◌^◌, ◌<◌, length, IfOk};
ghost use Rattle.vo_spec.specs.LmsSets.{height_of, leaves_of, lms_signature_len};
ghost use Rattle.vo_spec.specs.Lms.{leaf_text};
ghost use Rattle.vo_spec.specs.SecretTrees.{tree_node};
ghost use Rattle.vo_spec.specs.Sha256.{sha256};
ghost use Rattle.lms_forge.specs.Comparing.{Compared, ComparedBelow};
ghost use Rattle.lms_forge.specs.Places.{leaf_number, forged_node, forged_above, own_above};

use crate::comparison::compare;
use crate::texts::{leaf_text, parent_text};
use lms_sign::{SecretTree, leaf_node, node_above, path_at, sibling_of};
use std::alloc::{AllocError, Global};
use vo_spec::{Collision, Digest};

// The node so many levels above leaf `q` that the signature leads to, from the leaf's one-time key.
fn forged_node(tree: &SecretTree, q: u32, signature: &[u8], key: &Digest, level: u32) -> Digest
    requires whole { length signature.now ≡ lms_signature_len tree.now.lms tree.now.ots }
    requires leaf { q < leaves_of tree.now.lms }
    requires level { level < height_of tree.now.lms }
    ensures { result ≡ forged_node tree.now q signature.now key.now level }
{
    let r = tree.leaves() + q;
    let leaf = leaf_node(tree.id(), r, key);
    node_above(tree.id(), tree.ots(), r, &leaf, signature, level)
}

// What is hashed above that node.
fn forged_above(
    alloc: Global,
    tree: &SecretTree,
    q: u32,
    signature: &[u8],
    key: &Digest,
    level: u32,
) -> Result<Vec<u8>, AllocError>
    requires whole { length signature.now ≡ lms_signature_len tree.now.lms tree.now.ots }
    requires leaf { q < leaves_of tree.now.lms }
    requires level { level < height_of tree.now.lms }
    ensures { IfOk result (λ text. text.items
        ≡ forged_above tree.now q signature.now key.now level) }
{
    let r = (tree.leaves() + q) >> level;
    let node = forged_node(tree, q, signature, key, level);
    parent_text(
        alloc,
        tree,
        r,
        &node,
        &path_at(tree.ots(), signature, level),
    )
}

// What the owner hashes above the node so many levels above leaf `q`.
fn own_above(alloc: Global, tree: &SecretTree, q: u32, level: u32) -> Result<Vec<u8>, AllocError>
    requires leaf { q < leaves_of tree.now.lms }
    requires level { level < height_of tree.now.lms }
    ensures { IfOk result (λ text. text.items ≡ own_above tree.now q level) }
{
    let r = (tree.leaves() + q) >> level;
    parent_text(alloc, tree, r, &tree.node(r), &tree.node(sibling_of(r)))
}

// The two, where they have one digest.
fn compare_above(
    alloc: Global,
    tree: &SecretTree,
    q: u32,
    signature: &[u8],
    key: &Digest,
    level: u32,
) -> Result<Option<Collision>, AllocError>
    requires whole { length signature.now ≡ lms_signature_len tree.now.lms tree.now.ots }
    requires leaf { q < leaves_of tree.now.lms }
    requires level { level < height_of tree.now.lms }
    requires agree { forged_node tree.now q signature.now key.now (level + 1)
        ≡ tree_node tree.now (leaf_number tree.now q / 2 ^ (level + 1)) }
    ensures { IfOk result (Compared (forged_above tree.now q signature.now key.now level)
        (own_above tree.now q level)) }
{
    let first = forged_above(alloc, tree, q, signature, key, level)?;
    let second = own_above(alloc, tree, q, level)?;
    Ok(compare(first, second))
}

/// Compares what is hashed along the path, where the signature leads to the root.
pub(crate) fn compare_path(
    alloc: Global,
    tree: &SecretTree,
    q: u32,
    signature: &[u8],
    key: &Digest,
) -> Result<Option<Collision>, AllocError>
    requires whole { length signature.now ≡ lms_signature_len tree.now.lms tree.now.ots }
    requires leaf { q < leaves_of tree.now.lms }
    requires root { forged_node tree.now q signature.now key.now (height_of tree.now.lms)
        ≡ tree_node tree.now 1 }
    ensures { IfOk result (ComparedBelow (forged_above tree.now q signature.now key.now)
        (own_above tree.now q) (height_of tree.now.lms)) }
{
    for done in 0..tree.height() {
        let level = tree.height() - 1 - done;
        let found = compare_above(alloc, tree, q, signature, key, level)?;
        if found.is_some() {
            return Ok(found);
        }
    }
    Ok(None)
}

/// Compares what is hashed at leaf `q` of its one-time key, and of the owner's.
pub(crate) fn compare_leaf(
    alloc: Global,
    tree: &SecretTree,
    q: u32,
    key: &Digest,
    own: &Digest,
) -> Result<Option<Collision>, AllocError>
    requires leaf { q < leaves_of tree.now.lms }
    requires agree { sha256 (leaf_text tree.now.id (leaf_number tree.now q) key.now)
        ≡ sha256 (leaf_text tree.now.id (leaf_number tree.now q) own.now) }
    ensures { IfOk result (Compared (leaf_text tree.now.id (leaf_number tree.now q) key.now)
        (leaf_text tree.now.id (leaf_number tree.now q) own.now)) }
{
    let r = tree.leaves() + q;
    let first = leaf_text(alloc, tree, r, key)?;
    let second = leaf_text(alloc, tree, r, own)?;
    Ok(compare(first, second))
}
