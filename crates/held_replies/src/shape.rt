//! Whether a tree is of its table's schema.
ghost use Rattle.std.specs.Prelude.{◌≡◌, remove};
ghost use Rattle.vo_spec.specs.Checks.{cell_fits, cells_fit, has_shape};
ghost use Rattle.mb_tree.specs.View.{part_of};

use mb_tree::PartTree;
use table_list::may_show;
use tree_shape::{RowForm, entries_have_form};
use vo_spec::{Cell, Column, RowPart, Schema};

/// Whether the keys of the tree's leaves are keys of the schema, its rows have the schema's cells,
/// and those that are shown are of their columns' kinds, NULL in nullable columns alone.
pub(crate) fn has_shape(schema: &Schema, tree: &PartTree<'_>) -> bool
    ensures { result ≡ has_shape schema.now (part_of tree.now) }
{
    entries_have_form::<FittingRows>(schema, tree)
}

/// Rows with the schema's cells, of which those that are shown are of their columns' kinds.
struct FittingRows;

impl RowForm for FittingRows {
    ghost use Rattle.vo_spec.specs.Checks.{row_fits};

    ghost row_form = { row_fits };

    fn has_row_form(schema: &Schema, row: &RowPart<'_>) -> bool {
        match row {
            RowPart::Digest(_) => true,
            RowPart::Cells(cells) => row_cells_fit(schema, cells.as_slice()),
        }
    }
}

/// Whether the cells are those of the columns but the key.
#[tactic(auto, using(crate::proofs::CellLaws::parted_fit, crate::proofs::CellLaws::short_of_columns, crate::proofs::CellLaws::no_column_removed))]
fn row_cells_fit(schema: &Schema, cells: &[Cell<'_>]) -> bool
    ensures { result ≡ cells_fit (remove schema.now.columns schema.now.key) cells.now }
{
    let columns = schema.columns.as_slice();
    let key = schema.key as usize;
    if columns.len() <= key {
        return cells_fit(columns, cells);
    }
    if cells.len() < key {
        return false;
    }
    cells_fit(&columns[..key], &cells[..key]) && cells_fit(&columns[key + 1..], &cells[key..])
}

/// Whether there is a cell for each column, those that are shown of what it may have.
#[tactic(auto, using(crate::proofs::CellLaws::unlike_lengths))]
fn cells_fit(columns: &[Column], cells: &[Cell<'_>]) -> bool
    ensures { result ≡ cells_fit columns.now cells.now }
{
    if columns.len() != cells.len() {
        return false;
    }
    for (number, column) in columns.iter().enumerate() {
        if !cell_fits(column, &cells[number]) {
            return false;
        }
    }
    true
}

fn cell_fits(column: &Column, cell: &Cell<'_>) -> bool
    ensures { result ≡ cell_fits column.now cell.now }
{
    match cell {
        Cell::Shown(value) => may_show(column, value.as_ref()),
        Cell::Hidden(_) => true,
    }
}
