//! Rows that are given as parts, copied: as they are, and as the values that they show.
ghost use Rattle.std.specs.Prelude.{◌≡◌, [], ◌∷◌, ◌++◌, IfOk, OnOk};
ghost use Rattle.vo_spec.specs.Representation.{shown_values, values_of_row};

use std::alloc::{AllocError, Global};
use vo_spec::{Cell, CellValue, List, RowPart, Value};

/// The same row, which lends nothing.
pub fn copy_row<'b>(alloc: Global, row: &RowPart<'_>) -> Result<RowPart<'b>, AllocError>
    ensures { IfOk result (λ copy. copy ≡ row.now) }
{
    match row {
        RowPart::Digest(digest) => Ok(RowPart::Digest(*digest)),
        RowPart::Cells(cells) => Ok(RowPart::Cells(copy_cells(alloc, cells.as_slice())?)),
    }
}

fn copy_cells<'b>(alloc: Global, cells: &[Cell<'_>]) -> Result<List<Cell<'b>>, AllocError>
    ensures { IfOk result (λ copies. copies ≡ cells.now) }
{
    let mut copies = Vec::with_capacity(alloc, cells.len())?;
    push_copies(alloc, cells, &mut copies)?;
    Ok(List::from_vec(copies))
}

/// Puts copies of the cells at the end.
fn push_copies<'b>(
    alloc: Global,
    cells: &[Cell<'_>],
    copies: &mut Vec<Cell<'b>>,
) -> Result<(), AllocError>
    ensures { OnOk result (copies.new.items ≡ copies.old.items ++ cells.now) }
{
    for cell in cells {
        copies.push(copy_cell(alloc, cell)?)?;
    }
    Ok(())
}

fn copy_cell<'b>(alloc: Global, cell: &Cell<'_>) -> Result<Cell<'b>, AllocError>
    ensures { IfOk result (λ copy. copy ≡ cell.now) }
{
    match cell {
        Cell::Shown(value) => {
            let value = value.as_ref().to_value(alloc)?;
            Ok(Cell::Shown(CellValue::owned(value)))
        },
        Cell::Hidden(digest) => Ok(Cell::Hidden(*digest)),
    }
}

/// The values of the row's cells that are shown.
pub fn values_of(alloc: Global, row: &RowPart<'_>) -> Result<List<Value>, AllocError>
    ensures { IfOk result (λ values. values ≡ values_of_row row.now) }
{
    match row {
        RowPart::Digest(_) => Ok(List::new(alloc)),
        RowPart::Cells(cells) => shown_in(alloc, cells.as_slice()),
    }
}

fn shown_in(alloc: Global, cells: &[Cell<'_>]) -> Result<List<Value>, AllocError>
    ensures { IfOk result (λ values. values ≡ shown_values cells.now) }
{
    let mut values = Vec::with_capacity(alloc, cells.len())?;
    push_values(alloc, cells, &mut values)?;
    Ok(List::from_vec(values))
}

/// Puts the values that are shown at the end.
fn push_values(alloc: Global, cells: &[Cell<'_>], values: &mut Vec<Value>) -> Result<(), AllocError>
    ensures { OnOk result (values.new.items ≡ values.old.items ++ shown_values cells.now) }
{
    for cell in cells {
        push_value(alloc, cell, values)?;
    }
    Ok(())
}

fn push_value(alloc: Global, cell: &Cell<'_>, values: &mut Vec<Value>) -> Result<(), AllocError>
    ensures { OnOk result (values.new.items ≡ values.old.items ++ shown_values (cell.now ∷ [])) }
{
    match cell {
        Cell::Shown(value) => {
            values.push(value.as_ref().to_value(alloc)?)?;
            Ok(())
        },
        Cell::Hidden(_) => Ok(()),
    }
}
