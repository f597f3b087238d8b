//! Secret keys of one level and of two.
ghost use Rattle.std.specs.Prelude.{◌≡◌, ◌+◌, ◌*◌, ◌<◌, ◌≤◌, ◌⊎◌, ℕ, List, Some, IfOk, IsTrue};
ghost use Rattle.vo_spec.specs.declared.signatures.Levels.TheVariants.{One, Two};
ghost use Rattle.vo_spec.specs.LmsSets.{height_of, leaves_of};
ghost use Rattle.vo_spec.specs.Keys.{leaf_of, lms_valid};
ghost use Rattle.vo_spec.specs.Secret.{secret_of, lms_of_height, lower_tree, public_of_secret, secret_leaves, lms_signature};

use crate::lower_tree::{LowerTree, make_lower};
use crate::public_key::PublicKey;
use crate::secret_tree::SecretTree;
use std::alloc::{AllocError, Global};
use std::marker::Model;
use vo_spec::{Levels, LmsType, OtsType};

/// A secret key with its tree, the upper one where there are two levels, and at most one lower tree
/// that it keeps; contracts see its identifier, seed, parameter sets and levels.
#[derive(Drop)]
pub struct SecretKey {
    pub(crate) tree: SecretTree,
    pub(crate) levels: Levels,
    pub(crate) lower: Option<LowerTree>,
}

impl Model for SecretKey {
    ghost use Rattle.vo_spec.specs.Secret.{Secret};
    ghost use Rattle.lms_sign.specs.Lower.{Keeps};

    ghost Value = { Secret };

    ghost view = { λ key. record { tree = key.tree; levels = key.levels } };

    ghost invariant = { λ key. Keeps key.tree key.lower };
}

impl SecretKey {
    // The key of so many levels whose tree, the upper one of two, has these parts.
    fn make_levels(
        alloc: Global,
        levels: Levels,
        id: [u8; 16],
        seed: [u8; 32],
        ots: OtsType,
        h: u32,
    ) -> Result<SecretKey, AllocError>
        requires { (h ≡ 5) ⊎ (h ≡ 10) }
        ensures value { IfOk result (λ key. key ≡ secret_of levels id seed ots (lms_of_height h)) }
        ensures valid { IfOk result (λ key. (q : ℕ) (message : List ℕ) → q < secret_leaves key
            → IsTrue (lms_valid (public_of_secret key) message (lms_signature key q message))) }
        ensures by { IfOk result (λ key. (q : ℕ) (message : List ℕ) → q < secret_leaves key
            → leaf_of (public_of_secret key) (lms_signature key q message) ≡ Some q) }
    {
        let lms = if h == 10 { LmsType::H10 } else { LmsType::H5 };
        Ok(SecretKey {
            tree: SecretTree::make(alloc, id, seed, ots, lms)?,
            levels,
            lower: None,
        })
    }

    /// Makes a key of one level, which takes a one-time key for each of its 2^h leaves.
    pub fn make(
        alloc: Global,
        id: [u8; 16],
        seed: [u8; 32],
        ots: OtsType,
        h: u32,
    ) -> Result<SecretKey, AllocError>
        requires { (h ≡ 5) ⊎ (h ≡ 10) }
        ensures value { IfOk result (λ key. key ≡ secret_of One id seed ots (lms_of_height h)) }
        ensures valid { IfOk result (λ key. (q : ℕ) (message : List ℕ) → q < secret_leaves key
            → IsTrue (lms_valid (public_of_secret key) message (lms_signature key q message))) }
        ensures by { IfOk result (λ key. (q : ℕ) (message : List ℕ) → q < secret_leaves key
            → leaf_of (public_of_secret key) (lms_signature key q message) ≡ Some q) }
    {
        SecretKey::make_levels(alloc, Levels::One, id, seed, ots, h)
    }

    /// Makes a key of two levels, whose trees have 2^h leaves each: it takes a one-time key for
    /// each leaf of the upper tree.
    pub fn make_hss(
        alloc: Global,
        id: [u8; 16],
        seed: [u8; 32],
        ots: OtsType,
        h: u32,
    ) -> Result<SecretKey, AllocError>
        requires { (h ≡ 5) ⊎ (h ≡ 10) }
        ensures value { IfOk result (λ key. key ≡ secret_of Two id seed ots (lms_of_height h)) }
        ensures valid { IfOk result (λ key. (q : ℕ) (message : List ℕ) → q < secret_leaves key
            → IsTrue (lms_valid (public_of_secret key) message (lms_signature key q message))) }
        ensures by { IfOk result (λ key. (q : ℕ) (message : List ℕ) → q < secret_leaves key
            → leaf_of (public_of_secret key) (lms_signature key q message) ≡ Some q) }
    {
        SecretKey::make_levels(alloc, Levels::Two, id, seed, ots, h)
    }

    /// An equal key, which keeps no lower tree.
    pub fn copy(&self, alloc: Global) -> Result<SecretKey, AllocError>
        ensures value { IfOk result (λ key. key ≡ self.now) }
        ensures valid { IfOk result (λ key. (q : ℕ) (message : List ℕ) → q < secret_leaves key
            → IsTrue (lms_valid (public_of_secret key) message (lms_signature key q message))) }
        ensures by { IfOk result (λ key. (q : ℕ) (message : List ℕ) → q < secret_leaves key
            → leaf_of (public_of_secret key) (lms_signature key q message) ≡ Some q) }
    {
        Ok(SecretKey {
            tree: self.tree.copy(alloc)?,
            levels: self.levels,
            lower: None,
        })
    }

    /// How many levels the key has.
    pub fn levels(&self) -> Levels
        ensures { result ≡ self.now.levels }
    {
        self.levels
    }

    /// The key's tree, the upper one where there are two levels.
    pub fn tree(&self) -> &SecretTree
        ensures { result.now ≡ self.now.tree }
    {
        &self.tree
    }

    /// The tree below leaf `u` of the upper tree, made anew.
    pub fn lower_tree(&self, alloc: Global, u: u32) -> Result<SecretTree, AllocError>
        ensures { IfOk result (λ lower. lower ≡ lower_tree self.now.tree u) }
    {
        make_lower(alloc, &self.tree, u)
    }

    /// How many messages the key's leaves sign.
    pub fn leaf_count(&self) -> u64
        ensures value { result ≡ secret_leaves self.now }
        ensures few { result ≤ 1048576 }
    {
        let leaves = u64::from(self.tree.leaves());
        match self.levels {
            Levels::One => leaves,
            Levels::Two => leaves * leaves,
        }
    }

    /// The public key. Whatever a leaf of the secret key signs is valid under it, by that leaf.
    pub fn public(&self) -> PublicKey
        ensures value { result ≡ public_of_secret self.now }
        ensures valid { (q : ℕ) (message : List ℕ) → q < secret_leaves self.now
            → IsTrue (lms_valid result message (lms_signature self.now q message)) }
        ensures by { (q : ℕ) (message : List ℕ) → q < secret_leaves self.now
            → leaf_of result (lms_signature self.now q message) ≡ Some q }
    {
        PublicKey {
            levels: self.levels,
            tree: self.tree.key(),
        }
    }
}
