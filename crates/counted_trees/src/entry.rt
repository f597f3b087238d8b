//! Numbers, each with a number as its key.
ghost use Rattle.std.specs.Prelude.{◌≡◌};
ghost use Rattle.vo_spec.specs.Bytes.{u32_bytes as bytes_of};

use btree::{KeyedItem, TryClone};
use std::alloc::{AllocError, Global};
use vo_spec::u32_bytes;

/// A number as its four bytes, the highest first, so that keys go as their numbers.
#[derive(Clone, Copy)]
pub struct NumberKey {
    bytes: [u8; 4],
}

impl NumberKey {
    pub fn new(number: u32) -> NumberKey
        ensures { result.bytes ≡ bytes_of number }
    {
        NumberKey {
            bytes: u32_bytes(number),
        }
    }
}

/// An entry of a leaf.
#[derive(Clone, Copy)]
pub struct Entry {
    pub key: NumberKey,
    pub value: u64,
}

impl TryClone for NumberKey {
    fn try_clone(&self, _alloc: Global) -> Result<NumberKey, AllocError> {
        Ok(*self)
    }
}

impl KeyedItem for NumberKey {
    ghost key = { λ key. key.bytes };

    fn key_bytes(&self) -> &[u8] {
        &self.bytes
    }
}

impl TryClone for Entry {
    fn try_clone(&self, _alloc: Global) -> Result<Entry, AllocError> {
        Ok(*self)
    }
}

impl KeyedItem for Entry {
    ghost key = { λ entry. entry.key.bytes };

    fn key_bytes(&self) -> &[u8] {
        &self.key.bytes
    }
}
