//! The rows of whole trees.
ghost use Rattle.std.specs.Prelude.{◌≡◌, IfOk};
ghost use Rattle.vo_spec.specs.Cells.{row_digest as row_digest_of, whole_row};
ghost use Rattle.vo_spec.specs.Fits.{FitsCells, FitsKey, FitsRow};

use crate::tree_key::TreeKey;
use attr_digest::whole_row_digest;
use std::alloc::{AllocError, Global};
use std::marker::Model;
use std::rc::Rc;
use vo_spec::{Digest, Key, List, Row, Value, copy_values};

/// The values of a row without its key, with the digest of the row.
#[derive(Drop)]
pub struct HashedCells {
    values: List<Value>,
    digest: Digest,
}

impl Model for HashedCells {
    ghost use Rattle.std.specs.Prelude.{List};
    ghost use Rattle.vo_spec.specs.declared.values.Value.{Value as Plain};
    ghost use Rattle.mb_tree.specs.NodeDigests.{IsHashed};

    ghost Value = { List Plain };

    ghost view = { λ cells. cells.values };

    ghost invariant = { λ cells. IsHashed cells.values cells.digest };
}

impl HashedCells {
    pub fn new(values: List<Value>) -> HashedCells
        requires { FitsCells values }
        ensures { result ≡ values }
    {
        let digest = whole_row_digest(values.as_slice());
        HashedCells { values, digest }
    }

    pub fn values(&self) -> &[Value]
        ensures value { result.now ≡ self.now }
        ensures fits { FitsCells self.now }
    {
        self.values.as_slice()
    }

    pub fn digest(&self) -> Digest
        ensures value { result ≡ row_digest_of (whole_row self.now) }
        ensures fits { FitsCells self.now }
    {
        self.digest
    }
}

/// An entry of a whole tree, which contracts see as its row. Trees that have the row in common
/// share it.
#[derive(Drop)]
pub struct TreeEntry {
    key: TreeKey,
    cells: Rc<HashedCells>,
}

impl Model for TreeEntry {
    ghost use Rattle.vo_spec.specs.declared.values.Row.{Row as PlainRow};

    ghost Value = { PlainRow };

    ghost view = { λ entry. record { key = entry.key; cells = entry.cells.value } };
}

impl TreeEntry {
    /// The row's entry, by a copy of the row.
    pub fn new(alloc: Global, row: &Row) -> Result<TreeEntry, AllocError>
        requires { FitsRow row.now }
        ensures { IfOk result (λ entry. entry ≡ row.now) }
    {
        let key = TreeKey::new(alloc, row.key.copy(alloc)?)?;
        TreeEntry::of_parts(alloc, key, copy_values(alloc, row.cells.as_slice())?)
    }

    /// The row's entry, of which nothing is copied.
    pub fn of_row(alloc: Global, row: Row) -> Result<TreeEntry, AllocError>
        requires { FitsRow row }
        ensures { IfOk result (λ entry. entry ≡ row) }
    {
        let Row { key, cells } = row;
        TreeEntry::of_parts(alloc, TreeKey::new(alloc, key)?, cells)
    }

    /// The entry of a row with this key and these values behind it, of which nothing is copied.
    pub fn of_parts(
        alloc: Global,
        key: TreeKey,
        cells: List<Value>,
    ) -> Result<TreeEntry, AllocError>
        requires { FitsCells cells }
        ensures { IfOk result (λ entry. entry ≡ record { key = key; cells = cells }) }
    {
        let cells = Rc::new(alloc, HashedCells::new(cells))?;
        Ok(TreeEntry { key, cells })
    }

    pub fn key(&self) -> &Key
        ensures value { result.now ≡ self.now.key }
        ensures fits { FitsKey self.now.key }
    {
        self.key.as_key()
    }

    pub fn cells(&self) -> &HashedCells
        ensures { result.now ≡ self.now.cells }
    {
        self.cells.as_ref()
    }

    /// The same entry once more.
    pub fn share(&self) -> Result<TreeEntry, AllocError>
        ensures { IfOk result (λ entry. entry ≡ self.now) }
    {
        Ok(TreeEntry {
            key: self.key.share()?,
            cells: self.cells.clone()?,
        })
    }

    /// The entry's key once more.
    pub fn share_key(&self) -> Result<TreeKey, AllocError>
        ensures { IfOk result (λ key. key ≡ self.now.key) }
    {
        self.key.share()
    }
}
