//! Rows as they stand in a tree, as the value of each column.
ghost use Rattle.std.specs.Prelude.{◌≡◌, unwrap_or};
ghost use Rattle.vo_spec.specs.Lent.{value_of};
ghost use Rattle.vo_spec.specs.Tables.{no_value};
ghost use Rattle.vo_spec.specs.Cells.{value_in};
ghost use Rattle.plan_run.specs.EntryViews.{named_value as value_among, entry_view};

use mb_tree::RowEntry;
use query_plan::{RowView, value_of_key};
use table_list::{cell_number, kind_at};
use vo_spec::{Schema, ValueRef};

/// The row of an entry, as the values of its columns: those in its key and in these cells.
#[derive_where(Clone, Copy)]
pub(crate) struct EntryView<'r, E> {
    pub schema: &'r Schema,
    pub cells: &'r [u8],
    pub entry: &'r E,
}

impl<E: RowEntry> RowView for EntryView<'_, E> {
    ghost row_view = { λ view. entry_view view.schema.now view.cells.now (E.entry view.entry.now) };

    fn field(&self, column: usize) -> ValueRef<'_> {
        let key = self.schema.key as usize;
        if column == key {
            let kind = kind_at(self.schema.columns.as_slice(), column);
            value_of_key(kind, self.entry.entry_key())
        } else {
            named_value(self.entry, self.cells, cell_number(key, column))
        }
    }
}

fn value_or_false<E: RowEntry>(entry: &E, cell: u8) -> ValueRef<'_>
    ensures { value_of result ≡ unwrap_or (value_in (E.entry entry.now).row cell) no_value }
{
    match entry.shown_value(cell) {
        Some(value) => value,
        None => ValueRef::Bool(false),
    }
}

/// The value of the cell, if it is one of these.
fn named_value<'r, E: RowEntry>(entry: &'r E, cells: &[u8], cell: usize) -> ValueRef<'r>
    ensures { value_of result ≡ value_among (E.entry entry.now).row cells.now cell }
{
    for found in cells {
        if usize::from(*found) == cell {
            return value_or_false(entry, *found);
        }
    }
    ValueRef::Bool(false)
}
