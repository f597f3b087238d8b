//! Entries of parts of trees of rows, once more: the copies own their keys and values.
ghost use Rattle.std.specs.Prelude.{◌≡◌, IfOk};

use crate::keyed_item::KeyedItem;
use crate::try_clone::{TryClone, try_clone_all};
use std::alloc::{AllocError, Global};
use vo_spec::{Cell, CellValue, Key, KeyPart, List, PartEntry, RowPart};

impl TryClone for KeyPart<'_> {
    fn try_clone(&self, alloc: Global) -> Result<Self, AllocError> {
        Ok(KeyPart::owned(Key::from_vec(Vec::from_slice(alloc, self.as_bytes())?)))
    }
}

impl TryClone for Cell<'_> {
    fn try_clone(&self, alloc: Global) -> Result<Self, AllocError> {
        match self {
            Cell::Shown(value) => {
                let value = value.as_ref().to_value(alloc)?;
                Ok(Cell::Shown(CellValue::owned(value)))
            },
            Cell::Hidden(digest) => Ok(Cell::Hidden(*digest)),
        }
    }
}

impl TryClone for RowPart<'_> {
    fn try_clone(&self, alloc: Global) -> Result<Self, AllocError> {
        match self {
            RowPart::Digest(digest) => Ok(RowPart::Digest(*digest)),
            RowPart::Cells(cells) => {
                let cells = try_clone_all(alloc, cells.as_slice())?;
                Ok(RowPart::Cells(List::from_vec(cells)))
            },
        }
    }
}

impl TryClone for PartEntry<'_> {
    fn try_clone(&self, alloc: Global) -> Result<Self, AllocError> {
        let row = self.row.try_clone(alloc)?;
        let key = self.key.try_clone(alloc)?;
        Ok(PartEntry { key, row })
    }
}

impl KeyedItem for KeyPart<'_> {
    ghost key = { λ separator. separator };

    fn key_bytes(&self) -> &[u8] {
        self.as_bytes()
    }
}

impl KeyedItem for PartEntry<'_> {
    ghost key = { λ entry. entry.key };

    fn key_bytes(&self) -> &[u8] {
        self.key.as_bytes()
    }
}
