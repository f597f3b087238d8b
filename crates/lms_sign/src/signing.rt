//! Signing a message by a leaf of a key.
ghost use Rattle.std.specs.Prelude.{◌≡◌, ◌/◌, ◌<◌, ◌≤◌, ◌↔◌, length, IfOk, IsTrue, Some};
ghost use Rattle.vo_spec.specs.declared.signatures.Levels.TheVariants.{Two};
ghost use Rattle.vo_spec.specs.LmsSets.{leaves_of};
ghost use Rattle.vo_spec.specs.Keys.{lms_valid, leaf_of, key_signature_len};
ghost use Rattle.vo_spec.specs.Secret.{signature_by, lms_signature, public_of_secret, secret_leaves};
ghost use Rattle.lms_sign.specs.declared.signing.SignFault.TheVariants.{Memory};

use crate::lower_tree::LowerTree;
use crate::secret_key::SecretKey;
use std::alloc::{AllocError, Global};
use thiserror::Error;
use vo_spec::Levels;

/// Why a message is not signed.
#[derive(Clone, Copy, Debug, PartialEq, Eq, Error)]
pub enum SignFault {
    /// The key has no such leaf.
    #[error("no such leaf")]
    Leaf,
    #[error("out of memory")]
    Memory,
}

impl From<AllocError> for SignFault {
    ghost from_gives = { λ _ fault. fault ≡ Memory };

    fn from(_error: AllocError) -> SignFault {
        SignFault::Memory
    }
}

impl SecretKey {
    // The number of the lower tree that has the leaf.
    fn tree_number(&self, q: u64) -> u32
        requires { q < secret_leaves self.now }
        ensures value { result ≡ q / leaves_of self.now.tree.lms }
        ensures inside { result < leaves_of self.now.tree.lms }
    {
        (q / u64::from(self.tree.leaves())) as u32
    }

    // The signature of two levels of the message, by a leaf that the key has.
    fn sign_pair(&self, alloc: Global, q: u64, message: &[u8]) -> Result<Vec<u8>, AllocError>
        requires { q < secret_leaves self.now }
        ensures { IfOk result (λ signature. signature.items
            ≡ signature_by Two self.now.tree q message.now) }
    {
        let u = self.tree_number(q);
        let leaf = (q % u64::from(self.tree.leaves())) as u32;
        match &self.lower {
            Some(lower) if lower.number == u => lower.sign(alloc, leaf, message),
            _ => LowerTree::make(alloc, &self.tree, u)?.sign(alloc, leaf, message),
        }
    }

    // The signature of the message by a leaf that the key has.
    fn sign_by_leaf(&self, alloc: Global, q: u64, message: &[u8]) -> Result<Vec<u8>, AllocError>
        requires { q < secret_leaves self.now }
        ensures value { IfOk result (λ signature. signature.items
            ≡ lms_signature self.now q message.now) }
        ensures sixteen { length self.now.tree.id ≡ 16 }
    {
        match self.levels {
            Levels::One => self.tree.sign_onto(Vec::new(alloc), q as u32, message),
            Levels::Two => self.sign_pair(alloc, q, message),
        }
    }

    /// Makes the lower tree that leaf `q` is in, and keeps it in place of the one that was kept,
    /// unless it is that: signing by its leaves then costs no tree. A key of one level has none.
    pub fn keep_tree_of(&mut self, alloc: Global, q: u64) -> Result<(), AllocError>
        requires { q < secret_leaves self.old }
        ensures { self.new ≡ self.old }
    {
        if self.levels == Levels::One {
            return Ok(());
        }
        let u = self.tree_number(q);
        let is_kept = match &self.lower {
            Some(lower) => lower.number == u,
            None => false,
        };
        if !is_kept {
            self.lower = Some(LowerTree::make(alloc, &self.tree, u)?);
        }
        Ok(())
    }

    /// The signature of the message by leaf `q`, those of the lower trees numbered through (RFC
    /// 8554, sections 5.4 and 6.2), a function of key, leaf and message. Nothing here keeps a leaf
    /// from signing two messages. With two levels a tree is made where the leaf's isn't kept.
    pub fn sign(&self, alloc: Global, q: u64, message: &[u8]) -> Result<Vec<u8>, SignFault>
        ensures leaf { (result ≡ Err SignFault.Leaf) ↔ (secret_leaves self.now ≤ q) }
        ensures bytes { IfOk result
            (λ signature. signature.items ≡ lms_signature self.now q message.now) }
        ensures valid { IfOk result
            (λ signature. IsTrue (lms_valid
            (public_of_secret self.now) message.now signature.items)) }
        ensures by { IfOk result (λ signature. leaf_of (public_of_secret self.now) signature.items
            ≡ Some q) }
        ensures len { IfOk result (λ signature. length signature.items
            ≡ key_signature_len (public_of_secret self.now)) }
    {
        if q >= self.leaf_count() {
            return Err(SignFault::Leaf);
        }
        Ok(self.sign_by_leaf(alloc, q, message)?)
    }
}
