//! Entries of parts of trees: those that are put, and those with another row or other cells.
ghost use Rattle.std.specs.Prelude.{◌≡◌, ◌++◌, map, slice_set, IfOk, OnOk};
ghost use Rattle.vo_spec.specs.declared.cells.Cell.TheVariants.{Shown};
ghost use Rattle.vo_spec.specs.Cells.{whole_cells, whole_entry};
ghost use Rattle.vo_spec.specs.Removes.{set_row, set_cells};
ghost use Rattle.mb_update.specs.ChangeResults.{ChangesTo};
ghost use Rattle.mb_update.specs.RowParts.{entry_of as entry_with_key};
ghost use Rattle.mb_update.specs.Sets.{change_of};

use crate::ops::SetCell;
use crate::row_copies::copy_row;
use btree::{TryClone, try_clone_all};
use std::alloc::{AllocError, Global};
use vo_spec::{Cell, CellValue, Key, KeyPart, List, PartEntry, Row, RowPart, UpdateFault, Value};

/// The row as an entry, with every cell shown.
pub fn entry_of<'b>(alloc: Global, row: &Row) -> Result<PartEntry<'b>, AllocError>
    ensures { IfOk result (λ entry. entry ≡ whole_entry row.now) }
{
    let key = KeyPart::owned(row.key.copy(alloc)?);
    let cells = cells_of(alloc, row.cells.as_slice())?;
    let row = RowPart::Cells(cells);
    Ok(PartEntry { key, row })
}

fn cells_of<'b>(alloc: Global, values: &[Value]) -> Result<List<Cell<'b>>, AllocError>
    ensures { IfOk result (λ cells. cells ≡ whole_cells values.now) }
{
    let mut cells = Vec::with_capacity(alloc, values.len())?;
    push_shown(alloc, values, &mut cells)?;
    Ok(List::from_vec(cells))
}

/// Puts the values at the end, as cells that are shown.
fn push_shown<'b>(
    alloc: Global,
    values: &[Value],
    cells: &mut Vec<Cell<'b>>,
) -> Result<(), AllocError>
    ensures { OnOk result (cells.new.items ≡ cells.old.items ++ whole_cells values.now) }
{
    for value in values {
        cells.push(shown_cell(alloc, value)?)?;
    }
    Ok(())
}

/// A cell that shows a copy of the value.
fn shown_cell<'b>(alloc: Global, value: &Value) -> Result<Cell<'b>, AllocError>
    ensures { IfOk result (λ cell. cell ≡ Shown value.now) }
{
    Ok(Cell::Shown(CellValue::owned(value.copy(alloc)?)))
}

/// The entry of this key with a copy of this row.
pub fn put_entry<'b>(
    alloc: Global,
    key: &Key,
    part: &RowPart<'_>,
) -> Result<PartEntry<'b>, AllocError>
    ensures { IfOk result (λ entry. entry ≡ entry_with_key key.now part.now) }
{
    let key = KeyPart::owned(key.copy(alloc)?);
    let row = copy_row(alloc, part)?;
    Ok(PartEntry { key, row })
}

/// The entry with a copy of this row in the place of its own.
pub fn exchange_row<'b>(
    alloc: Global,
    entry: &PartEntry<'b>,
    part: &RowPart<'_>,
) -> Result<PartEntry<'b>, AllocError>
    ensures { IfOk result (λ new. new ≡ entry_with_key entry.now.key part.now) }
{
    let key = entry.key.try_clone(alloc)?;
    let row = copy_row(alloc, part)?;
    Ok(PartEntry { key, row })
}

/// The entry with these cells in its row, which must stand as cells. A set of a column that isn't
/// there changes nothing.
pub fn entry_with<'b>(
    alloc: Global,
    entry: &PartEntry<'b>,
    sets: &[SetCell],
) -> Result<PartEntry<'b>, UpdateFault>
    ensures { ChangesTo (λ e. e) result (set_row (map change_of sets.now) entry.now) }
{
    match &entry.row {
        RowPart::Digest(_) => Err(UpdateFault::Missing),
        RowPart::Cells(cells) => {
            let cells = cells_with(alloc, cells.as_slice(), sets)?;
            let row = RowPart::Cells(List::from_vec(cells));
            let key = entry.key.try_clone(alloc)?;
            Ok(PartEntry { key, row })
        },
    }
}

fn cells_with<'b>(
    alloc: Global,
    cells: &[Cell<'b>],
    sets: &[SetCell],
) -> Result<Vec<Cell<'b>>, AllocError>
    ensures { IfOk result (λ new. new.items ≡ set_cells (map change_of sets.now) cells.now) }
{
    let mut new = try_clone_all(alloc, cells)?;
    set_all(alloc, &mut new, sets)?;
    Ok(new)
}

fn set_all<'b>(alloc: Global, cells: &mut Vec<Cell<'b>>, sets: &[SetCell]) -> Result<(), AllocError>
    ensures { OnOk result (cells.new.items ≡ set_cells (map change_of sets.now) cells.old.items) }
{
    for set in sets {
        set_cell(alloc, cells, set)?;
    }
    Ok(())
}

fn set_cell<'b>(alloc: Global, cells: &mut Vec<Cell<'b>>, set: &SetCell) -> Result<(), AllocError>
    ensures { OnOk result (cells.new.items
        ≡ slice_set cells.old.items set.now.column (Shown set.now.value)) }
{
    let column = usize::from(set.column);
    if column < cells.len() {
        cells[column] = shown_cell(alloc, &set.value)?;
    }
    Ok(())
}
