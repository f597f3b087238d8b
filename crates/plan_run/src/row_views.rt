//! Rows that a scan gave, as the value of each column.
ghost use Rattle.std.specs.Prelude.{◌≡◌, ◌==◌, ℕ};
ghost use Rattle.std.specs.List.{position_or_len};
ghost use Rattle.vo_spec.specs.declared.values.Value.{Value as Plain};
ghost use Rattle.vo_spec.specs.Lent.{value_of};
ghost use Rattle.vo_spec.specs.Needs.{seen_row_view};

use query_plan::{RowView, value_at, value_of_key};
use table_list::{cell_number, kind_at};
use vo_spec::{Schema, SeenRow, ValueRef};

/// A row that was seen, as the values of its columns: those in its key and in the need's cells.
#[derive(Clone, Copy)]
pub struct SeenRowView<'r> {
    pub schema: &'r Schema,
    pub cells: &'r [u8],
    pub row: &'r SeenRow,
}

impl RowView for SeenRowView<'_> {
    ghost row_view = { λ seen. seen_row_view seen.schema.now seen.cells.now seen.row.now };

    fn field(&self, column: usize) -> ValueRef<'_> {
        let key = self.schema.key as usize;
        if column == key {
            let kind = kind_at(self.schema.columns.as_slice(), column);
            value_of_key(kind, self.row.key.as_bytes())
        } else {
            let place = place_in_need(self.cells, cell_number(key, column));
            value_at(self.row.values.as_slice(), place)
        }
    }
}

/// The place of the cell among those of a need, or else how many there are.
fn place_in_need(cells: &[u8], cell: usize) -> usize
    ensures { result ≡ position_or_len (λ c. c == cell) cells.now }
{
    let mut place = 0;
    for found in cells {
        if usize::from(*found) == cell {
            return place;
        }
        place += 1;
    }
    place
}
