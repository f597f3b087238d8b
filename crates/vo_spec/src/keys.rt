//! Keys, and intervals of them.
ghost use Rattle.std.specs.Prelude.{◌≡◌, IfOk};
ghost use Rattle.std.specs.Cmp.Lexicographic.{slice_cmp};
ghost use Rattle.std.specs.Ordering.{nat_cmp};

use std::alloc::{AllocError, Global};
use std::cmp::Ordering;
use std::marker::Model;

/// The bytes of a key, which order it: those of a BIGINT are big-endian with the sign bit flipped,
/// those of a TEXT are its own.
#[derive(Debug, Drop)]
pub struct Key {
    bytes: Vec<u8>,
}

impl Model for Key {
    ghost use Rattle.std.specs.Prelude.{List, ℕ};

    ghost Value = { List ℕ };

    ghost view = { λ key. key.bytes.items };
}

impl Key {
    pub fn from_vec(bytes: Vec<u8>) -> Key
        ensures { result ≡ bytes.items }
    {
        Key { bytes }
    }

    pub fn as_bytes(&self) -> &[u8]
        ensures { result.now ≡ self.now }
    {
        self.bytes.as_slice()
    }

    /// The same key once more.
    pub fn copy(&self, alloc: Global) -> Result<Key, AllocError>
        ensures { IfOk result (λ key. key ≡ self.now) }
    {
        Ok(Key {
            bytes: Vec::from_slice(alloc, self.as_bytes())?,
        })
    }

    /// The order of the bytes.
    pub fn cmp(&self, other: &Key) -> Ordering
        ensures { result ≡ slice_cmp nat_cmp self.now other.now }
    {
        self.as_bytes().cmp(other.as_bytes())
    }
}

/// One end of an interval.
#[derive(Debug, Drop)]
pub enum Bound {
    Absent,
    Inclusive(Key),
    Exclusive(Key),
}

/// The keys between two bounds.
#[derive(Debug, Drop)]
pub struct Interval {
    pub low: Bound,
    pub high: Bound,
}
