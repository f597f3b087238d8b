//! Which columns of a row the needs name, and whether a part of the row has these and no others.
ghost use Rattle.std.specs.Prelude.{◌≡◌, [], ◌∷◌, map, IfOk};
ghost use Rattle.vo_spec.specs.Pruning.{
  needed_columns as named_by,
  has_column as is_among,
  hides_any as does_hide,
  row_has_surplus as has_surplus_by,
  shows_surplus as does_show,
};
ghost use Rattle.range_proof.specs.Lending.{lent_need};

use key_intervals::in_interval;
use mb_tree::RowEntry;
use std::alloc::{AllocError, Global};
use vo_spec::{Cell, Need, RowPart};

/// The columns that the needs name whose intervals have the key.
pub fn named_columns(alloc: Global, needs: &[&Need], key: &[u8]) -> Result<Vec<u8>, AllocError>
    ensures { IfOk result (λ columns. columns.items ≡ named_by (map lent_need needs.now) key.now) }
{
    let mut columns = Vec::new(alloc);
    for need in needs {
        if in_interval(&need.interval, key) {
            columns.extend_from_slice(need.columns.as_slice())?;
        }
    }
    Ok(columns)
}

/// The columns that the need names, if its interval has the key.
pub fn columns_at<'n>(need: &'n Need, key: &[u8]) -> &'n [u8]
    ensures { result.now ≡ named_by (need.now ∷ []) key.now }
{
    if in_interval(&need.interval, key) {
        need.columns.as_slice()
    } else {
        &[]
    }
}

/// Whether the entry's row hides one of these columns.
pub fn hides_any<E: RowEntry>(columns: &[u8], entry: &E) -> bool
    ensures { result ≡ does_hide columns.now (E.entry entry.now).row }
{
    for column in columns {
        if entry.shown_value(*column).is_none() {
            return true;
        }
    }
    false
}

/// Whether the row shows a cell of none of these columns, or stands as cells though there are none.
pub fn row_has_surplus(columns: &[u8], row: &RowPart<'_>) -> bool
    ensures { result ≡ has_surplus_by columns.now row.now }
{
    match row {
        RowPart::Digest(_) => false,
        RowPart::Cells(cells) => columns.is_empty() || shows_unneeded(columns, cells.as_slice()),
    }
}

fn shows_unneeded(columns: &[u8], cells: &[Cell<'_>]) -> bool
    ensures { result ≡ does_show columns.now 0 cells.now }
{
    for (column, cell) in cells.iter().enumerate() {
        if let Cell::Shown(_) = cell {
            if !has_column(columns, column) {
                return true;
            }
        }
    }
    false
}

fn has_column(columns: &[u8], column: usize) -> bool
    ensures { result ≡ is_among columns.now column }
{
    columns.iter().any(|c| usize::from(*c) == column)
}
