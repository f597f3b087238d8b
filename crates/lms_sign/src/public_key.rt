//! Public keys of one level and of two, as their bytes.
ghost use Rattle.std.specs.Prelude.{◌≡◌, ◌≢◌, ◌+◌, ◌≤◌, ◌↔◌, [], length, is_some, IfOk, IfSome};
ghost use Rattle.vo_spec.specs.declared.signatures.Levels.TheVariants.{One, Two};
ghost use Rattle.vo_spec.specs.Keys.{key_id, leaf_by, leaf_of, leaf_count, key_signature_len, is_public_key, IsUnknownSet};

use crate::lms_key::LmsKey;
use lm_ots::u32_at;
use std::alloc::{AllocError, Global};
use std::marker::Model;
use thiserror::Error;
use vo_spec::{Levels, u32_bytes};

/// Why bytes are no public key.
#[derive(Clone, Copy, Debug, PartialEq, Eq, Error)]
pub enum KeyFault {
    /// They are neither 56 nor 60 bytes.
    #[error("a key of another length")]
    Length,
    /// A typecode names no parameter set, or the number of levels isn't 2.
    #[error("a key of an unknown set")]
    UnknownSet,
}

/// A public key; contracts see its bytes: 56 of one level (RFC 8554, section 5.3), 60 of two
/// (section 6.1).
#[derive(Clone, Copy, Debug)]
pub struct PublicKey {
    pub(crate) levels: Levels,
    pub(crate) tree: LmsKey,
}

impl Model for PublicKey {
    ghost use Rattle.std.specs.Prelude.{◌≡◌, List, ℕ, length};
    ghost use Rattle.vo_spec.specs.Keys.{key_bytes, levels_of, key_tree};
    ghost use Rattle.vo_laws.proofs.KeyLaws.{levels_read_back, key_tree-key_bytes};

    ghost Value = { List ℕ };

    ghost view = { λ key. key_bytes key.levels key.tree };

    ghost invariant = { λ key. length key.tree ≡ 56 };

    ghost inverse = { λ bytes. record { levels = levels_of bytes; tree = key_tree bytes } };

    ghost inverse_ok = { λ key whole. λ i. record {
      levels = levels_read_back key.levels key.tree whole i;
      tree = key_tree-key_bytes key.levels key.tree whole i;
    } };
}

// The number that a key of two levels begins with.
const TWO_LEVELS: u32 = 2;

// The key of one level that 56 bytes are, if they are one.
fn read_one(bytes: &[u8]) -> Option<PublicKey>
    requires { length bytes.now ≡ 56 }
    ensures key { IfSome result (λ key. key ≡ bytes.now) }
    ensures named { is_some result ≡ is_public_key bytes.now }
{
    let tree = LmsKey::read(bytes)?;
    Some(PublicKey {
        levels: Levels::One,
        tree,
    })
}

// The key of two levels that 60 bytes are, if they are one.
fn read_two(bytes: &[u8]) -> Option<PublicKey>
    requires { length bytes.now ≡ 60 }
    ensures key { IfSome result (λ key. key ≡ bytes.now) }
    ensures named { is_some result ≡ is_public_key bytes.now }
{
    if u32_at(bytes, 0) != TWO_LEVELS {
        return None;
    }
    let tree = LmsKey::read(&bytes[4..])?;
    Some(PublicKey {
        levels: Levels::Two,
        tree,
    })
}

// The leaf that the signature of one tree says it is by.
fn one_leaf(signature: &[u8]) -> Option<u64>
    ensures { result ≡ leaf_by One [] signature.now }
{
    if signature.len() < 4 {
        return None;
    }
    Some(u64::from(u32_at(signature, 0)))
}

// The leaf that a signature of two levels says it is by, under the upper tree's key.
fn pair_leaf(upper: &LmsKey, signature: &[u8]) -> Option<u64>
    ensures { result ≡ leaf_by Two upper.now signature.now }
{
    let at = 60 + upper.signature_len();
    if signature.len() < at + 4 {
        return None;
    }
    let first = u64::from(u32_at(signature, 4)) * upper.leaves();
    Some(first + u64::from(u32_at(signature, at)))
}

impl PublicKey {
    /// The key that the bytes are.
    #[tactic(auto, unfolding(vo_spec::specs::Keys::IsUnknownSet))]
    pub fn read(bytes: &[u8]) -> Result<PublicKey, KeyFault>
        ensures ok { IfOk result (λ key. key ≡ bytes.now) }
        ensures length { (result ≡ Err KeyFault.Length)
            ↔ (length bytes.now ≢ 56) × (length bytes.now ≢ 60) }
        ensures unknown { (result ≡ Err KeyFault.UnknownSet) ↔ IsUnknownSet bytes.now }
    {
        let found = match bytes.len() {
            56 => read_one(bytes),
            60 => read_two(bytes),
            _ => return Err(KeyFault::Length),
        };
        found.ok_or(KeyFault::UnknownSet)
    }

    /// The key's bytes.
    pub fn bytes(&self, alloc: Global) -> Result<Vec<u8>, AllocError>
        ensures { IfOk result (λ bytes. bytes.items ≡ self.now) }
    {
        let mut bytes = Vec::with_capacity(alloc, 60)?;
        if self.levels == Levels::Two {
            bytes.extend_from_slice(&u32_bytes(TWO_LEVELS))?;
        }
        self.tree.put_onto(bytes)
    }

    /// The identifier I of the key's tree, of the upper one where there are two levels.
    pub fn id(&self) -> &[u8; 16]
        ensures { result.now ≡ key_id self.now }
    {
        self.tree.id()
    }

    /// How many messages the key's leaves sign.
    pub fn leaf_count(&self) -> u64
        ensures { result ≡ leaf_count self.now }
    {
        let leaves = self.tree.leaves();
        match self.levels {
            Levels::One => leaves,
            Levels::Two => leaves * leaves,
        }
    }

    /// The length of the key's signatures, in bytes.
    pub fn signature_len(&self) -> usize
        ensures { result ≡ key_signature_len self.now }
    {
        let len = self.tree.signature_len();
        match self.levels {
            Levels::One => len,
            Levels::Two => 60 + 2 * len,
        }
    }

    /// The leaf that a signature says it is by, those of the lower trees numbered through; None
    /// where it is too short to say so. Nothing is said of whether the signature is valid.
    pub fn leaf_of(&self, signature: &[u8]) -> Option<u64>
        ensures { result ≡ leaf_of self.now signature.now }
    {
        match self.levels {
            Levels::One => one_leaf(signature),
            Levels::Two => pair_leaf(&self.tree, signature),
        }
    }
}
