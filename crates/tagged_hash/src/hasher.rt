//! A digest of pieces that come one after another.
ghost use Rattle.std.specs.Prelude.{◌≡◌, ℕ, List, [], ◌++◌};
ghost use Rattle.vo_spec.specs.Sha256.{sha256};
ghost use Rattle.tagged_hash.specs.Holding.{HoldsBytes};

use row_bytes::ByteSink;
use sha2::{Digest as _, Sha256};
use std::convert::Infallible;
use vo_spec::Digest;

/// A hasher of the pieces that were added, joined.
#[derive(Drop)]
pub struct Hasher {
    inner: Sha256,
}

#[tactic(auto, unfolding(crate::specs::Holding::HoldsBytes))]
impl Hasher {
    /// A hasher of no bytes.
    pub fn new() -> Hasher
        ensures { HoldsBytes result [] }
    {
        Hasher {
            inner: Sha256::new(),
        }
    }

    /// Adds a piece.
    pub fn add(&mut self, piece: &[u8])
        ensures { (bytes : List ℕ) → HoldsBytes self.old bytes
            → HoldsBytes self.new (bytes ++ piece.now) }
    {
        self.inner.update(piece);
    }

    /// The digest of all pieces.
    pub fn end(self) -> Digest
        ensures { (bytes : List ℕ) → HoldsBytes self bytes → result ≡ sha256 bytes }
    {
        Digest::new(self.inner.finalize())
    }
}

impl ByteSink for Hasher {
    type Fault = Infallible;

    ghost HoldsBytes = { HoldsBytes };

    fn write(&mut self, bytes: &[u8]) -> Result<(), Infallible> {
        self.add(bytes);
        Ok(())
    }
}
