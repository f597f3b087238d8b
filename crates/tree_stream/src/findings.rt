//! What is found in a tree that is read for a target.
ghost use Rattle.std.specs.Prelude.{◌≡◌, ◌-◌, ◌^◌, length, min};
ghost use Rattle.tree_stream.specs.Keeping.{rows_bytes};

use crate::held::rows_length;
use vo_spec::{Digest, List, SeenRow, Value};

/// What is found in a tree, or in a part of one.
#[derive(Debug, Drop)]
pub struct Findings {
    /// A node or a cell that the target reads is hidden.
    pub is_missing: bool,
    /// A node or a cell that the target doesn't read is shown.
    pub has_surplus: bool,
    /// The leaves' keys, the counts of cells and the kinds of shown cells are those of the table.
    pub has_shape: bool,
    /// Of each entry with its key in the interval: the key, and the values of named columns.
    pub rows: List<SeenRow>,
}

/// A tree's digest, and what is found in the tree.
#[derive(Debug, Drop)]
pub struct Summary {
    pub digest: Digest,
    pub findings: Findings,
}

impl Summary {
    /// How many bytes the keys of the rows have, and their values as they are encoded.
    pub fn held(&self) -> usize
        ensures { result ≡ min (length (rows_bytes self.now.findings.rows)) (2 ^ 64 - 1) }
    {
        rows_length(self.findings.rows.as_slice())
    }
}

/// What is found in the cells of one row, with the values of named columns.
#[derive(Drop)]
pub(crate) struct CellFindings {
    pub is_missing: bool,
    pub has_surplus: bool,
    pub has_shape: bool,
    pub values: List<Value>,
}
