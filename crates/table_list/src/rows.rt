//! The rows of a table, by rising key, and what is made of them.
ghost use Rattle.std.specs.Prelude.{◌≡◌, ◌≤◌, length, map, IfOk};
ghost use Rattle.std.specs.List.{position_or_len};
ghost use Rattle.vo_spec.specs.Values.{key_lt};
ghost use Rattle.vo_spec.specs.Tables.{has_row, put_row, without_row, changed_row, cell_changes};

use crate::cells::changed_cells;
use crate::copies::{copy_row, copy_rows};
use std::alloc::{AllocError, Global};
use vo_spec::{Key, List, Row, Schema, SetPart};

pub(crate) fn has_row(rows: &[Row], key: &[u8]) -> bool
    ensures { result ≡ has_row key.now rows.now }
{
    rows.iter().any(|row| row.key.as_bytes() == key)
}

/// How many rows stand before the first of a greater key.
fn place_of(row: &Row, rows: &[Row]) -> usize
    ensures number { result ≡ position_or_len (λ r. key_lt row.now.key r.key) rows.now }
    ensures bound { result ≤ length rows.now }
{
    let mut at = 0;
    for other in rows {
        if row.key.cmp(&other.key).is_lt() {
            return at;
        }
        at += 1;
    }
    at
}

/// The rows with one more, before the first of a greater key.
#[tactic(auto, using(crate::proofs::PutLaws::row_put))]
pub(crate) fn put_row(alloc: Global, row: Row, rows: &[Row]) -> Result<List<Row>, AllocError>
    ensures { IfOk result (λ new. new ≡ put_row row rows.now) }
{
    let at = place_of(&row, rows);
    let mut new = copy_rows(alloc, rows)?.into_vec();
    new.insert(at, row)?;
    Ok(List::from_vec(new))
}

/// The rows but for those of the key.
pub(crate) fn without_row(alloc: Global, key: &[u8], rows: &[Row]) -> Result<List<Row>, AllocError>
    ensures { IfOk result (λ new. new ≡ without_row key.now rows.now) }
{
    let mut new = Vec::new(alloc);
    for row in rows {
        if row.key.as_bytes() != key {
            new.push(copy_row(alloc, row)?)?;
        }
    }
    Ok(List::from_vec(new))
}

/// The row as a SET changes the row of the key.
fn changed_row(
    alloc: Global,
    schema: &Schema,
    sets: &[SetPart],
    key: &[u8],
    row: &Row,
) -> Result<Row, AllocError>
    ensures { IfOk result (λ new. new
        ≡ changed_row key.now (cell_changes schema.now sets.now) row.now) }
{
    if row.key.as_bytes() != key {
        return copy_row(alloc, row);
    }
    Ok(Row {
        key: row.key.copy(alloc)?,
        cells: changed_cells(alloc, schema, sets, row.cells.as_slice())?,
    })
}

/// The rows with that of the key changed by a SET.
pub(crate) fn update_row(
    alloc: Global,
    schema: &Schema,
    sets: &[SetPart],
    key: &[u8],
    rows: &[Row],
) -> Result<List<Row>, AllocError>
    ensures { IfOk result (λ new. new
        ≡ map (changed_row key.now (cell_changes schema.now sets.now)) rows.now) }
{
    let mut new = Vec::new(alloc);
    for row in rows {
        new.push(changed_row(alloc, schema, sets, key, row)?)?;
    }
    Ok(List::from_vec(new))
}
