//! Plain tables, as a query reads them.
ghost use Rattle.std.specs.Prelude.{◌≡◌, map, IfOk};
ghost use Rattle.vo_spec.specs.Tables.{table_header_of, rows_named};
ghost use Rattle.vo_spec.specs.Results.{row_view_of};
ghost use Rattle.query_binding.specs.HeldSources.{bound_source_seen};
ghost use Rattle.plain_result.specs.RowViews.{view_of_row};

use crate::table_rows::TableRow;
use query_plan::{BoundSource, Schemas};
use std::alloc::{AllocError, Global};
use table_list::table_named;
use vo_spec::{Row, Schema, Table};

/// A list of plain tables.
#[derive(Clone, Copy)]
pub(crate) struct TableSlice<'t> {
    pub(crate) tables: &'t [Table],
}

impl Schemas for TableSlice<'_> {
    ghost table_headers = { λ t. map table_header_of t.tables.now };

    fn schema(&self, name: &[u8]) -> Option<&Schema> {
        match table_named(self.tables, name) {
            Some(table) => Some(&table.schema),
            None => None,
        }
    }
}

fn views_of_rows<'t>(
    alloc: Global,
    schema: &'t Schema,
    rows: &'t [Row],
) -> Result<Vec<TableRow<'t>>, AllocError>
    ensures { IfOk result (λ row_views. map view_of_row row_views.items
        ≡ map (row_view_of schema.now) rows.now) }
{
    let mut row_views = Vec::with_capacity(alloc, rows.len())?;
    for row in rows {
        row_views.push(TableRow { schema, row })?;
    }
    Ok(row_views)
}

/// The rows of the source's table, by the source's schema.
pub(crate) fn row_views_of<'t>(
    alloc: Global,
    tables: &'t [Table],
    bound_source: BoundSource<'t>,
) -> Result<Vec<TableRow<'t>>, AllocError>
    ensures { IfOk result (λ row_views. map view_of_row row_views.items
        ≡ map (row_view_of (bound_source_seen bound_source.entry).schema)
        (rows_named (bound_source_seen bound_source.entry).table tables.now)) }
{
    match table_named(tables, bound_source.table.as_bytes()) {
        Some(table) => views_of_rows(alloc, bound_source.schema, table.rows.as_slice()),
        None => Ok(Vec::new(alloc)),
    }
}
