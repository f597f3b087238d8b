//! Calls of values and rows.
ghost use Rattle.vo_spec.specs.Fits.{FitsCells, FitsRow, FitsRowPart};

use crate::arguments::{byte_of, digest_in};
use crate::hashing::hex_digest;
use crate::reading::{read_cell, read_row, read_value, read_values};
use attr_digest::{
    add_value, attr_digest, cell_digest, hide as hide_columns, hide_cells as hide_columns_of,
    row_digest, whole_row_digest,
};
use line_pieces::{NoAnswer, form_of};
use std::alloc::Global;
use tagged_hash::Hasher;
use vo_spec::{Cell, Key, Row, RowPart, Value};

/// The digest of a value's bytes.
pub fn value(alloc: Global, strings: &[Vec<u8>]) -> Result<String, NoAnswer> {
    let [value] = strings else {
        return Err(NoAnswer::NoSuchLine);
    };
    let mut hasher = Hasher::new();
    add_value(&mut hasher, read_value(value)?);
    hex_digest(alloc, hasher.end())
}

/// The digest of a value in a column.
pub fn attribute(alloc: Global, strings: &[Vec<u8>]) -> Result<String, NoAnswer> {
    let [column, value] = strings else {
        return Err(NoAnswer::NoSuchLine);
    };
    hex_digest(alloc, attr_digest(byte_of(column)?, read_value(value)?))
}

/// The digest of a cell in a column.
pub fn cell(alloc: Global, strings: &[Vec<u8>]) -> Result<String, NoAnswer> {
    let [column, cell] = strings else {
        return Err(NoAnswer::NoSuchLine);
    };
    hex_digest(alloc, cell_digest(byte_of(column)?, &read_cell(cell)?))
}

/// The digest of a row of these cells.
pub fn row(alloc: Global, strings: &[Vec<u8>]) -> Result<String, NoAnswer> {
    digest_text(alloc, read_row(alloc, strings)?)
}

/// The digest of a row, which is let go of.
fn digest_text(alloc: Global, row: RowPart<'_>) -> Result<String, NoAnswer>
    requires { FitsRowPart row }
{
    let digest = row_digest(&row);
    drop(row);
    hex_digest(alloc, digest)
}

/// The digest of a row that is closed to this one.
pub fn closed_row(alloc: Global, strings: &[Vec<u8>]) -> Result<String, NoAnswer> {
    let [digest] = strings else {
        return Err(NoAnswer::NoSuchLine);
    };
    digest_text(alloc, RowPart::Digest(digest_in(digest)?))
}

/// The digest of a row of these values.
pub fn whole_row(alloc: Global, strings: &[Vec<u8>]) -> Result<String, NoAnswer> {
    let values = read_values(alloc, strings)?;
    let digest = whole_row_digest(values.as_slice());
    drop(values);
    hex_digest(alloc, digest)
}

/// The cells of a row of these values, behind the columns that are shown.
pub fn hide(alloc: Global, strings: &[Vec<u8>]) -> Result<String, NoAnswer> {
    let [columns, values @ ..] = strings else {
        return Err(NoAnswer::NoSuchLine);
    };
    let cells = read_values(alloc, values)?;
    let key = Key::from_vec(Vec::new(alloc));
    let row = Row { key, cells };
    let text = hide_row(alloc, &row, columns);
    drop(row);
    text
}

fn hide_row(alloc: Global, row: &Row, columns: &[u8]) -> Result<String, NoAnswer>
    requires { FitsRow row.now }
{
    let part = hide_columns(alloc, row, columns)?;
    let text = part_text(alloc, &part);
    drop(part);
    text
}

fn part_text(alloc: Global, part: &RowPart<'_>) -> Result<String, NoAnswer> {
    match part {
        RowPart::Digest(digest) => hex_digest(alloc, *digest),
        RowPart::Cells(cells) => cells_text(alloc, cells.as_slice()),
    }
}

/// The same by the values alone.
pub fn hide_cells(alloc: Global, strings: &[Vec<u8>]) -> Result<String, NoAnswer> {
    let [columns, values @ ..] = strings else {
        return Err(NoAnswer::NoSuchLine);
    };
    let values = read_values(alloc, values)?;
    let text = hide_values(alloc, values.as_slice(), columns);
    drop(values);
    text
}

fn hide_values(alloc: Global, values: &[Value], columns: &[u8]) -> Result<String, NoAnswer>
    requires { FitsCells values.now }
{
    let cells = hide_columns_of(alloc, values, columns)?;
    let text = cells_text(alloc, cells.as_slice());
    drop(cells);
    text
}

/// How many cells there are, and each as its value or its digest.
fn cells_text(alloc: Global, cells: &[Cell<'_>]) -> Result<String, NoAnswer> {
    let mut line = format!(in alloc; "{}", cells.len())?;
    put_cells(alloc, &mut line, cells)?;
    Ok(line)
}

fn put_cells(alloc: Global, line: &mut String, cells: &[Cell<'_>]) -> Result<(), NoAnswer> {
    for cell in cells {
        line.push(' ')?;
        line.push_str(&cell_text(alloc, cell)?)?;
    }
    Ok(())
}

fn cell_text(alloc: Global, cell: &Cell<'_>) -> Result<String, NoAnswer> {
    match cell {
        Cell::Shown(value) => Ok(form_of(alloc, &value.as_ref())?),
        Cell::Hidden(digest) => hex_digest(alloc, *digest),
    }
}
