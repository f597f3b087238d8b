//! The cells of a row, and how an UPDATE changes them.
ghost use Rattle.std.specs.Prelude.{◌≡◌, IfOk};
ghost use Rattle.vo_spec.specs.Tables.{cell_number, column_number, cell_changes, changed_cells};

use crate::columns::column_number;
use std::alloc::{AllocError, Global};
use vo_spec::{List, Schema, SetPart, Value, copy_values};

/// The place of a column's cell, its number among those that aren't the key.
pub fn cell_number(key: usize, column: usize) -> usize
    ensures { result ≡ cell_number key column }
{
    if column < key {
        column
    } else {
        column.saturating_sub(1)
    }
}

/// The cells as the parts of a SET change them.
pub(crate) fn changed_cells(
    alloc: Global,
    schema: &Schema,
    sets: &[SetPart],
    cells: &[Value],
) -> Result<List<Value>, AllocError>
    ensures { IfOk result (λ new. new
        ≡ changed_cells (cell_changes schema.now sets.now) cells.now) }
{
    let mut changed = copy_values(alloc, cells)?.into_vec();
    for part in sets {
        let column = column_number(schema.columns.as_slice(), part.column.as_bytes());
        let at = cell_number(schema.key as usize, column);
        if at < changed.len() {
            changed[at] = part.value.copy(alloc)?;
        }
    }
    Ok(List::from_vec(changed))
}
