//! Signatures of records that were not signed, made with the owner's seed, and what explains them.
use crate::{Explanation, explain};
use lm_ots::{chain, coef, digest_at, digits_of, randomizer_of, secret};
use lms_sign::{SecretKey, SecretTree, ots_part, pair_of, verify};
use std::alloc::{AllocError, Global};
use std::test::Fail;
use version_record::record_bytes;
use vo_spec::{Digest, LmsType, Magic, OtsType, Record, u32_bytes};

fn record(version: u64, catalog: u8) -> Record {
    Record {
        magic: Magic::Vrec,
        id: [7; 16],
        version,
        catalog: Digest::new([catalog; 32]),
    }
}

/// What explains the signature, if it is one of which an explanation may be asked.
fn explained(
    alloc: Global,
    key: &SecretKey,
    signed: &[Record],
    rec: &Record,
    signature: &[u8],
) -> Result<Option<Explanation>, AllocError> {
    let public = key.public();
    if !verify(&public, &record_bytes(rec), signature)
        || public.leaf_of(signature) != Some(rec.version)
        || signed.contains(rec)
    {
        return Ok(None);
    }
    Ok(Some(explain(alloc, key, signed, rec, signature)?))
}

/// A message that the owner signed by a leaf, and the tree's signature of it.
#[derive(Clone, Copy)]
struct Own<'a> {
    message: &'a [u8],
    signature: &'a [u8],
}

/// The step and the value of chain `i` that the owner's signature shows, or the end of the chain.
fn known_value(tree: &SecretTree, leaf: u32, i: u16, own: Option<Own<'_>>) -> (u32, Digest) {
    let ots = tree.ots();
    let last = (1 << ots.width()) - 1;
    let start = secret(tree.id(), leaf, i, tree.seed());
    let end = (last, chain(tree.id(), leaf, i, 0, last, &start));
    let Some(own) = own else {
        return end;
    };
    if own.signature.len() < 4 + ots.signature_len() || i >= ots.count() {
        return end;
    }
    let part = ots_part(ots, own.signature);
    let at = 36 + 32 * i as usize;
    if part.len() < at + 32 {
        return end;
    }
    let digits = digits_of(tree.id(), leaf, ots, &randomizer_of(part), own.message);
    (coef(&digits, i as usize, ots.width()), digest_at(part, at))
}

/// It is a chain of this leaf, and its bytes lead to what is known of the chain.
fn is_chain(
    told: &Option<Explanation>,
    level: u8,
    leaf: u32,
    tree: &SecretTree,
    own: Option<Own<'_>>,
) -> bool {
    match told {
        Some(
            Explanation::Chain {
                level: of_level,
                leaf: of_leaf,
                chain: i,
                step,
                bytes,
            },
        ) => {
            let (last, value) = known_value(tree, leaf, *i, own);
            let from = u32::from(*step);
            *of_level == level
                && *of_leaf == leaf
                && from < last
                && last <= 255
                && chain(tree.id(), leaf, *i, from, last, bytes) == value
        }
        _ => false,
    }
}

/// A record of version 3 is explained by what was signed at that version, and by nothing else.
fn is_explained(alloc: Global, ots: OtsType) -> Result<bool, Fail> {
    let key = SecretKey::make(alloc, [1; 16], [2; 32], ots, 5)?;
    let signed = [record(2, 0), record(3, 1), record(4, 2)];
    let rec = record(3, 9);
    let signature = key.sign(alloc, 3, &record_bytes(&rec))?;
    let message = record_bytes(&signed[1]);
    let signed_own = key.sign(alloc, 3, &message)?;
    let own = Own {
        message: &message,
        signature: &signed_own,
    };
    let told = explained(alloc, &key, &signed, &rec, &signature)?;
    let alone = explained(alloc, &key, &signed[..1], &rec, &signature)?;
    Ok(is_chain(&told, 0, 3, key.tree(), Some(own)) && is_chain(&alone, 0, 3, key.tree(), None))
}

#[test]
fn by_one_level(rt: HostRuntime) -> Result<(), Fail> {
    assert!(rt; is_explained(rt.alloc(), OtsType::W8)?);
    assert!(rt; is_explained(rt.alloc(), OtsType::W1)?);
    Ok(())
}

/// Of two levels, one by a leaf of the owner's lower tree is explained by what was signed there.
fn is_explained_below(alloc: Global) -> Result<bool, Fail> {
    let key = SecretKey::make_hss(alloc, [1; 16], [2; 32], OtsType::W1, 5)?;
    let signed = [record(37, 1)];
    let rec = record(37, 9);
    let message = record_bytes(&signed[0]);
    let signature = key.sign(alloc, 37, &record_bytes(&rec))?;
    let signed_own = key.sign(alloc, 37, &message)?;
    let lower = key.lower_tree(alloc, 1)?;
    let told = explained(alloc, &key, &signed, &rec, &signature)?;
    let Some(pair) = pair_of(&key.tree().key(), &signed_own) else {
        return Ok(false);
    };
    let own = Own {
        message: &message,
        signature: pair.lower,
    };
    Ok(is_chain(&told, 1, 5, &lower, Some(own)))
}

/// A signature of two levels, by leaf `q` of a tree that leaf `u` of the key's tree signed.
fn sign_through(
    alloc: Global,
    key: &SecretKey,
    u: u32,
    lower: &SecretTree,
    q: u32,
    message: &[u8],
) -> Result<Vec<u8>, AllocError> {
    let mut signature = Vec::from_slice(alloc, &u32_bytes(1))?;
    if u >= key.tree().leaves() || q >= lower.leaves() {
        return Ok(signature);
    }
    let lower_key = lower.key().put_onto(Vec::new(alloc))?;
    signature = key.tree().sign_onto(signature, u, &lower_key)?;
    signature.extend_from_slice(&lower_key)?;
    lower.sign_onto(signature, q, message)
}

/// One by a leaf of another lower tree is explained by the key that the upper tree's leaf signed,
/// where a version in that tree was signed.
fn is_explained_above(alloc: Global) -> Result<bool, Fail> {
    let key = SecretKey::make_hss(alloc, [1; 16], [2; 32], OtsType::W1, 5)?;
    let foreign = SecretTree::make(alloc, [3; 16], [4; 32], OtsType::W1, LmsType::H5)?;
    let rec = record(37, 9);
    let signature = sign_through(alloc, &key, 1, &foreign, 5, &record_bytes(&rec))?;
    let signed = [record(40, 1)];
    let signed_own = key.sign(alloc, 40, &record_bytes(&signed[0]))?;
    let told = explained(alloc, &key, &signed, &rec, &signature)?;
    let alone = explained(alloc, &key, &[], &rec, &signature)?;
    let Some(pair) = pair_of(&key.tree().key(), &signed_own) else {
        return Ok(false);
    };
    let own = Own {
        message: pair.key,
        signature: pair.upper,
    };
    Ok(is_chain(&told, 0, 1, key.tree(), Some(own)) && is_chain(&alone, 0, 1, key.tree(), None))
}

#[test]
fn by_two_levels(rt: HostRuntime) -> Result<(), Fail> {
    assert!(rt; is_explained_below(rt.alloc())?);
    assert!(rt; is_explained_above(rt.alloc())?);
    Ok(())
}
