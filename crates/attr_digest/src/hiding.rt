//! Rows with some of their cells hidden.
ghost use Rattle.std.specs.Prelude.{◌≡◌, IfOk};
ghost use Rattle.vo_spec.specs.declared.cells.Cell.TheVariants.{Shown};
ghost use Rattle.vo_spec.specs.declared.cells.RowPart.TheVariants.{Cells};
ghost use Rattle.vo_spec.specs.Cells.{whole_cells};
ghost use Rattle.vo_spec.specs.Values.{FitsValue};
ghost use Rattle.vo_spec.specs.Pruning.{shown_cell, shown_cells};
ghost use Rattle.vo_spec.specs.Fits.{FitsCells, FitsRow};

use crate::hashing::attr_digest;
use std::alloc::{AllocError, Global};
use vo_spec::{Cell, CellValue, List, Row, RowPart, Value};

/// The row with the cells of these columns shown, and all others hidden.
pub fn hide<'b>(alloc: Global, row: &'b Row, shown: &[u8]) -> Result<RowPart<'b>, AllocError>
    requires { FitsRow row.now }
    ensures { IfOk result (λ part. part
        ≡ Cells (shown_cells shown.now 0 (whole_cells row.now.cells))) }
{
    let cells = hide_cells(alloc, row.cells.as_slice(), shown)?;
    Ok(RowPart::Cells(cells))
}

/// The values as cells, those of these columns shown, and all others hidden.
pub fn hide_cells<'b>(
    alloc: Global,
    values: &'b [Value],
    shown: &[u8],
) -> Result<List<Cell<'b>>, AllocError>
    requires { FitsCells values.now }
    ensures { IfOk result (λ cells. cells ≡ shown_cells shown.now 0 (whole_cells values.now)) }
{
    let mut cells = Vec::with_capacity(alloc, values.len())?;
    for (column, value) in values.iter().enumerate() {
        cells.push(cell_of(column as u8, value, shown))?;
    }
    Ok(List::from_vec(cells))
}

fn cell_of<'b>(column: u8, value: &'b Value, shown: &[u8]) -> Cell<'b>
    requires { FitsValue value.now }
    ensures { result ≡ shown_cell shown.now column (Shown value.now) }
{
    if shown.contains(&column) {
        Cell::Shown(CellValue::lent(value.as_ref()))
    } else {
        Cell::Hidden(attr_digest(column, value.as_ref()))
    }
}
