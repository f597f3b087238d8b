//! The digest of bytes whose pieces come one after another.
ghost use Rattle.std.specs.Prelude.{◌≡◌, [], ◌++◌};
ghost use Rattle.vo_spec.specs.Sha256.{sha256};

use crate::{ByteLog, Piece};
use sha2::{Digest as _, Sha256};
use std::marker::Model;
use vo_spec::Digest;

/// A hasher, which contracts see as the bytes hashed so far. They are not kept.
#[derive(Drop)]
pub struct RunningHash {
    inner: Sha256,
    hashed: ByteLog,
}

impl Model for RunningHash {
    ghost use Rattle.std.specs.Prelude.{List, ℕ};
    ghost use Rattle.sha2.specs.Hashers.{Holds256};

    ghost Value = { List ℕ };

    ghost view = { λ hasher. hasher.hashed.bytes };

    ghost invariant = { λ hasher. Holds256 hasher.inner hasher.hashed.bytes };
}

impl RunningHash {
    /// A hasher of no bytes.
    pub fn new() -> RunningHash
        ensures { result ≡ [] }
    {
        RunningHash {
            inner: Sha256::new(),
            hashed: ByteLog::empty(),
        }
    }

    /// Hashes a piece behind the others.
    pub fn add(&mut self, piece: &[u8])
        ensures { self.new ≡ self.old ++ piece.now }
    {
        self.inner.update(piece);
        self.hashed = self.hashed.with_piece(&Piece { bytes: piece });
    }

    /// The digest of all that was hashed.
    pub fn digest(self) -> Digest
        ensures { result ≡ sha256 self }
    {
        let RunningHash { inner, .. } = self;
        Digest::new(inner.finalize())
    }
}
