//! Values and cells as bytes.
ghost use Rattle.std.specs.Prelude.{IfOk};
ghost use Rattle.vo_spec.specs.Lent.{value_of};
ghost use Rattle.vo_spec.specs.Fits.{FitsCell, FitsCells, FitsRowPart};
ghost use Rattle.vo_spec.specs.Values.{FitsValue};

use crate::arguments::digest_in;
use line_pieces::NoAnswer;
use row_bytes::{Cursor, take_value};
use std::alloc::Global;
use vo_spec::{Cell, CellValue, Digest, List, MAX_CELLS, RowPart, Value, ValueRef};

fn next_value<'b>(cursor: &mut Cursor<'b>) -> Result<ValueRef<'b>, NoAnswer>
    ensures { IfOk result (λ value. FitsValue (value_of value)) }
{
    match take_value(cursor) {
        Ok(value) => Ok(value),
        Err(_) => Err(NoAnswer::NoSuchLine),
    }
}

/// The value that all the bytes are.
pub fn read_value(bytes: &[u8]) -> Result<ValueRef<'_>, NoAnswer>
    ensures { IfOk result (λ value. FitsValue (value_of value)) }
{
    let mut cursor = Cursor::new(bytes);
    let value = next_value(&mut cursor)?;
    if cursor.is_empty() {
        Ok(value)
    } else {
        Err(NoAnswer::NoSuchLine)
    }
}

/// The values of a row that strings are, one each.
pub fn read_values(alloc: Global, strings: &[Vec<u8>]) -> Result<List<Value>, NoAnswer>
    ensures { IfOk result (λ values. FitsCells values) }
{
    let mut values = Vec::new(alloc);
    for string in strings {
        if values.len() >= MAX_CELLS {
            return Err(NoAnswer::NoSuchLine);
        }
        values.push(read_value(string)?.to_value(alloc)?)?;
    }
    Ok(List::from_vec(values))
}

/// The cell that the bytes are: a digest behind `00`, or a value behind `01`.
pub fn read_cell(bytes: &[u8]) -> Result<Cell<'_>, NoAnswer>
    ensures { IfOk result (λ cell. FitsCell cell) }
{
    match bytes.split_first() {
        Some((0, digest)) => Ok(Cell::Hidden(digest_in(digest)?)),
        Some((1, value)) => Ok(Cell::Shown(CellValue::lent(read_value(value)?))),
        _ => Err(NoAnswer::NoSuchLine),
    }
}

/// The row of cells that strings are, one each.
pub fn read_row(alloc: Global, strings: &[Vec<u8>]) -> Result<RowPart<'_>, NoAnswer>
    ensures { IfOk result (λ part. FitsRowPart part) }
{
    let mut cells = Vec::new(alloc);
    for string in strings {
        if cells.len() >= MAX_CELLS {
            return Err(NoAnswer::NoSuchLine);
        }
        cells.push(read_cell(string)?)?;
    }
    Ok(RowPart::Cells(List::from_vec(cells)))
}
