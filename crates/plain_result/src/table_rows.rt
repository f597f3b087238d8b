//! Rows of plain tables, as the value of each column.
ghost use Rattle.std.specs.Prelude.{◌≡◌};
ghost use Rattle.vo_spec.specs.Results.{row_view_of};

use query_plan::{RowView, value_at, value_of_key};
use table_list::{cell_number, kind_at};
use vo_spec::{Row, Schema, ValueRef};

/// A row of a plain table.
#[derive(Clone, Copy)]
pub(crate) struct TableRow<'t> {
    pub(crate) schema: &'t Schema,
    pub(crate) row: &'t Row,
}

impl RowView for TableRow<'_> {
    ghost row_view = { λ r. row_view_of r.schema.now r.row.now };

    fn field(&self, column: usize) -> ValueRef<'_> {
        let key = self.schema.key as usize;
        if column == key {
            let kind = kind_at(self.schema.columns.as_slice(), column);
            return value_of_key(kind, self.row.key.as_bytes());
        }
        value_at(self.row.cells.as_slice(), cell_number(key, column))
    }
}
