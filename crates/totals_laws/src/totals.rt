//! Entries of totals trees, and what some entries come to.
ghost use Rattle.std.specs.Prelude.{◌≡◌, IfOk};
ghost use Rattle.vo_spec.specs.Fits.{FitsKey};
ghost use Rattle.totals_laws.specs.TotalsTrees.{total_entry_bytes};

use btree::{KeyedItem, TryClone};
use mb_tree::{NodeItem, write_key};
use row_bytes::ByteSink;
use std::alloc::{AllocError, Global};
use vo_spec::{KeyPart, u64_bytes};

/// How many entries there are, and the sum of their values.
#[derive(Clone, Copy, PartialEq, Eq, Debug)]
pub struct Totals {
    pub count: u64,
    pub sum: i128,
}

/// An entry of a leaf: the key of a row, and its value in the column that is summed.
#[derive(Drop)]
pub struct TotalEntry<'b> {
    pub key: KeyPart<'b>,
    pub value: i64,
}

impl TryClone for TotalEntry<'_> {
    fn try_clone(&self, alloc: Global) -> Result<Self, AllocError> {
        let key = self.key.try_clone(alloc)?;
        Ok(TotalEntry {
            key,
            value: self.value,
        })
    }
}

impl KeyedItem for TotalEntry<'_> {
    ghost key = { λ entry. entry.key };

    fn key_bytes(&self) -> &[u8] {
        self.key.as_bytes()
    }
}

impl NodeItem for TotalEntry<'_> {
    ghost bytes = { total_entry_bytes };

    ghost CanWrite = { λ entry. FitsKey entry.key };

    fn write_to<W: ByteSink>(&self, writer: &mut W) -> Result<(), W::Fault> {
        write_key(writer, self.key.as_bytes())?;
        writer.write(&u64_bytes(self.value.cast_unsigned()))
    }
}
