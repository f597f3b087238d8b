//! The public keys of trees, as their bytes.
ghost use Rattle.std.specs.Prelude.{◌≡◌, ◌+◌, ◌++◌, ◌==◌, ◌&&◌, ◌≤◌, length, is_some, IfOk, IfSome, Some};
ghost use Rattle.vo_spec.specs.Bytes.{id_at, u32_at};
ghost use Rattle.vo_spec.specs.Lms.{tree_lms, tree_ots, tree_id, tree_leaves, tree_signature_len};
ghost use Rattle.vo_spec.specs.Keys.{names_sets};

use crate::tree_verifying::signature_len;
use lm_ots::{digest_at, u32_at};
use std::alloc::AllocError;
use std::marker::Model;
use vo_spec::{Digest, LmsType, OtsType, u32_bytes};

/// The public key of a tree; contracts see its 56 bytes (RFC 8554, section 5.3).
#[derive(Clone, Copy, Debug)]
pub struct LmsKey {
    pub(crate) lms: LmsType,
    pub(crate) ots: OtsType,
    pub(crate) id: [u8; 16],
    pub(crate) root: Digest,
}

impl Model for LmsKey {
    ghost use Rattle.std.specs.Prelude.{List, ℕ};
    ghost use Rattle.vo_spec.specs.Lms.{tree_key_bytes, tree_id, tree_root};
    ghost use Rattle.lms_sign.specs.KeyParts.{HasLengths, lms_in, ots_in, parts_read_back};

    ghost Value = { List ℕ };

    ghost view = { λ key. tree_key_bytes key.lms key.ots key.id key.root };

    ghost invariant = { λ key. HasLengths key.id key.root };

    ghost inverse = { λ bytes. record {
      lms = lms_in bytes;
      ots = ots_in bytes;
      id = tree_id bytes;
      root = tree_root bytes;
    } };

    ghost inverse_ok = { λ key lengths. let read =
        parts_read_back key.lms key.ots key.id key.root lengths in
        λ i. record {
          lms = read.lms_is i;
          ots = read.ots_is i;
          id = read.id_is i;
          root = read.root_is i;
        } };
}

// The identifier that the 16 bytes from `at` on are.
#[tactic(auto, unfolding(vo_spec::specs::Bytes::id_at))]
fn id_at(bytes: &[u8], at: usize) -> [u8; 16]
    requires { at + 16 ≤ length bytes.now }
    ensures { result ≡ id_at bytes.now at }
{
    let mut id = [0; 16];
    id.copy_from_slice(&bytes[at..at + 16]);
    id
}

impl LmsKey {
    // The key that 56 bytes are, whose typecodes name these sets.
    fn of_sets(lms: LmsType, ots: OtsType, bytes: &[u8]) -> LmsKey
        requires whole { length bytes.now ≡ 56 }
        requires lms { tree_lms bytes.now ≡ Some lms }
        requires ots { tree_ots bytes.now ≡ Some ots }
        ensures { result ≡ bytes.now }
    {
        LmsKey {
            lms,
            ots,
            id: id_at(bytes, 8),
            root: digest_at(bytes, 24),
        }
    }

    /// The key that 56 bytes are, if their typecodes name sets.
    pub fn read(bytes: &[u8]) -> Option<LmsKey>
        requires { length bytes.now ≡ 56 }
        ensures key { IfSome result (λ key. key ≡ bytes.now) }
        ensures named { is_some result ≡ names_sets bytes.now }
    {
        let lms = LmsType::of(u32_at(bytes, 0))?;
        let ots = OtsType::of(u32_at(bytes, 4))?;
        Some(LmsKey::of_sets(lms, ots, bytes))
    }

    fn lms_code(&self) -> u32
        ensures { result ≡ u32_at self.now 0 }
    {
        self.lms.code()
    }

    fn ots_code(&self) -> u32
        ensures { result ≡ u32_at self.now 4 }
    {
        self.ots.code()
    }

    // The bytes begin with this key's typecodes.
    fn is_alike(&self, bytes: &[u8]) -> bool
        requires { length bytes.now ≡ 56 }
        ensures { result ≡ (u32_at bytes.now 0 == u32_at self.now 0)
            && (u32_at bytes.now 4 == u32_at self.now 4) }
    {
        u32_at(bytes, 0) == self.lms_code() && u32_at(bytes, 4) == self.ots_code()
    }

    /// The key that 56 bytes are, if its sets are this one's.
    pub fn read_alike(&self, bytes: &[u8]) -> Option<LmsKey>
        requires { length bytes.now ≡ 56 }
        ensures key { IfSome result (λ key. key ≡ bytes.now) }
        ensures alike { is_some result ≡ (u32_at bytes.now 0 == u32_at self.now 0)
            && (u32_at bytes.now 4 == u32_at self.now 4) }
    {
        if !self.is_alike(bytes) {
            return None;
        }
        Some(LmsKey::of_sets(self.lms, self.ots, bytes))
    }

    /// The bytes with the key's 56 behind them.
    pub fn put_onto(&self, mut bytes: Vec<u8>) -> Result<Vec<u8>, AllocError>
        ensures { IfOk result (λ put. put.items ≡ bytes.items ++ self.now) }
    {
        bytes.extend_from_slice(&u32_bytes(self.lms.code()))?;
        bytes.extend_from_slice(&u32_bytes(self.ots.code()))?;
        bytes.extend_from_slice(&self.id)?;
        bytes.extend_from_slice(self.root.as_bytes())?;
        Ok(bytes)
    }

    /// The identifier I of the tree.
    pub fn id(&self) -> &[u8; 16]
        ensures { result.now ≡ tree_id self.now }
    {
        &self.id
    }

    /// How many leaves the tree has.
    pub fn leaves(&self) -> u64
        ensures value { result ≡ tree_leaves self.now }
        ensures few { result ≤ 33554432 }
    {
        1 << self.lms.height()
    }

    /// The length of the tree's signatures, in bytes.
    pub fn signature_len(&self) -> usize
        ensures value { result ≡ tree_signature_len self.now }
        ensures short { result ≤ 9324 }
    {
        signature_len(self.lms, self.ots)
    }
}
