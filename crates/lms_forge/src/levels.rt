//! Which leaf a forged signature is by, and what explains it.
ghost use Rattle.std.specs.Prelude.{◌≡◌, ◌≢◌, Some, None, IfOk, IsTrue, Contains, if◌then◌else◌};
ghost use Rattle.vo_spec.specs.declared.signatures.Levels.TheVariants.{Two};
ghost use Rattle.vo_spec.specs.Bytes.{u32_at};
ghost use Rattle.vo_spec.specs.Records.{record_bytes};
ghost use Rattle.vo_spec.specs.LmsSets.{leaves_of};
ghost use Rattle.vo_spec.specs.Lms.{tree_valid};
ghost use Rattle.vo_spec.specs.Keys.{leaf_by, leaf_of, lms_valid, pair_valid};
ghost use Rattle.vo_spec.specs.SecretTrees.{public_of_tree};
ghost use Rattle.vo_spec.specs.Secret.{public_of_secret};
ghost use Rattle.lms_forge.specs.Forgeries.{forgery, forgery_by, forgery_of, has_signed_below, signed_at};
ghost use Rattle.lms_forge.specs.Explaining.{Explains};

use crate::explanation::Explanation;
use crate::leaves::explain_leaf;
use crate::signed::{has_signed_below, record_at, told_to_fit};
use lms_sign::{Pair, SecretKey, SecretTree, pair_of};
use std::alloc::{AllocError, Global};
use version_record::record_bytes;
use vo_spec::{Levels, Record};

// Explains the signature of a record by a leaf of this tree, where the leaf is that of the record's
// version.
fn explain_record(
    alloc: Global,
    tree: &SecretTree,
    level: u8,
    leaf: u32,
    signed: &[Record],
    rec: &Record,
    signature: &[u8],
) -> Result<Explanation, AllocError>
    requires valid { IsTrue (tree_valid (public_of_tree tree.now) (record_bytes rec.now) signature.now) }
    requires leaf { u32_at signature.now 0 ≡ leaf }
    requires absent { Contains signed.now rec.now → ⊥ }
    ensures { IfOk result (Explains (forgery tree.now level leaf (record_bytes rec.now) signature.now
        (signed_at signed.now rec.now.version))) }
{
    let message = record_bytes(rec);
    match record_at(signed, rec.version) {
        Some(own) => {
            told_to_fit(rec);
            told_to_fit(own);
            let released = record_bytes(own);
            explain_leaf(
                alloc,
                tree,
                level,
                leaf,
                &message,
                signature,
                Some(&released),
            )
        }
        None => explain_leaf(alloc, tree, level, leaf, &message, signature, None),
    }
}

// Explains the upper tree's signature of a key that isn't the owner's of that lower tree.
fn explain_upper(
    alloc: Global,
    tree: &SecretTree,
    u: u32,
    own_key: &[u8],
    signed: &[Record],
    pair: Pair<'_>,
) -> Result<Explanation, AllocError>
    requires valid { IsTrue (tree_valid (public_of_tree tree.now) pair.key.now pair.upper.now) }
    requires leaf { u32_at pair.upper.now 0 ≡ u }
    requires foreign { pair.key.now ≢ own_key.now }
    ensures { IfOk result (Explains (forgery tree.now 0 u pair.entry.key.now pair.entry.upper.now
        (if has_signed_below signed.now (leaves_of tree.now.lms) u then Some own_key.now
        else None))) }
{
    let released = if has_signed_below(signed, u64::from(tree.leaves()), u64::from(u)) {
        Some(own_key)
    } else {
        None
    };
    explain_leaf(alloc, tree, 0, u, pair.key, pair.upper, released)
}

// What explains a signature of two levels.
fn explain_pair(
    alloc: Global,
    key: &SecretKey,
    signed: &[Record],
    rec: &Record,
    signature: &[u8],
) -> Result<Explanation, AllocError>
    requires valid { IsTrue (pair_valid (public_of_tree key.now.tree) (record_bytes rec.now) signature.now) }
    requires leaf { leaf_by Two (public_of_tree key.now.tree) signature.now ≡ Some rec.now.version }
    requires absent { Contains signed.now rec.now → ⊥ }
    ensures { IfOk result (Explains (forgery_by Two key.now.tree signed.now rec.now signature.now)) }
{
    let tree = key.tree();
    let leaves = u64::from(tree.leaves());
    let u = (rec.version / leaves) as u32;
    let Some(pair) = pair_of(&tree.key(), signature) else {
        unreachable!()
    };
    let lower = key.lower_tree(alloc, u)?;
    let own_key = lower.key().put_onto(Vec::new(alloc))?;
    if pair.key != own_key.as_slice() {
        return explain_upper(alloc, tree, u, &own_key, signed, pair);
    }
    let leaf = (rec.version % leaves) as u32;
    explain_record(alloc, &lower, 1, leaf, signed, rec, pair.lower)
}

/// What explains that a record's signature is valid under the key's public key, by the leaf of the
/// record's version, though the record is none of those that the owner signed: a collision, or, if
/// there is none anywhere on the way from the signature to the root, a value of a chain that the
/// owner did not release. Where more records of a version were signed, the first of them counts.
/// Want of memory is the only error.
pub fn explain(
    alloc: Global,
    key: &SecretKey,
    signed: &[Record],
    rec: &Record,
    signature: &[u8],
) -> Result<Explanation, AllocError>
    requires valid { IsTrue (lms_valid (public_of_secret key.now) (record_bytes rec.now)
        signature.now) }
    requires leaf { leaf_of (public_of_secret key.now) signature.now ≡ Some rec.now.version }
    requires absent { Contains signed.now rec.now → ⊥ }
    ensures { IfOk result (Explains (forgery_of key.now signed.now rec.now signature.now)) }
{
    match key.levels() {
        Levels::One => {
            let leaf = rec.version as u32;
            explain_record(alloc, key.tree(), 0, leaf, signed, rec, signature)
        }
        Levels::Two => explain_pair(alloc, key, signed, rec, signature),
    }
}
