//! Values, rows and tables once more.
ghost use Rattle.std.specs.Prelude.{◌≡◌, ◌++◌, IfOk, OnOk};

use crate::columns::copy_columns;
use std::alloc::{AllocError, Global};
use vo_spec::{List, Row, Schema, Table, Value, copy_values};

/// Puts copies of the values at the end.
pub(crate) fn copy_onto(
    alloc: Global,
    out: &mut Vec<Value>,
    values: &[Value],
) -> Result<(), AllocError>
    ensures { OnOk result (out.new.items ≡ out.old.items ++ values.now) }
{
    for value in values {
        out.push(value.copy(alloc)?)?;
    }
    Ok(())
}

pub(crate) fn copy_row(alloc: Global, row: &Row) -> Result<Row, AllocError>
    ensures { IfOk result (λ copy. copy ≡ row.now) }
{
    Ok(Row {
        key: row.key.copy(alloc)?,
        cells: copy_values(alloc, row.cells.as_slice())?,
    })
}

pub(crate) fn copy_rows(alloc: Global, rows: &[Row]) -> Result<List<Row>, AllocError>
    ensures { IfOk result (λ copies. copies ≡ rows.now) }
{
    let mut copies = Vec::with_capacity(alloc, rows.len())?;
    for row in rows {
        copies.push(copy_row(alloc, row)?)?;
    }
    Ok(List::from_vec(copies))
}

pub fn copy_schema(alloc: Global, schema: &Schema) -> Result<Schema, AllocError>
    ensures { IfOk result (λ copy. copy ≡ schema.now) }
{
    Ok(Schema {
        columns: copy_columns(alloc, schema.columns.as_slice())?,
        key: schema.key,
    })
}

pub(crate) fn copy_table(alloc: Global, table: &Table) -> Result<Table, AllocError>
    ensures { IfOk result (λ copy. copy ≡ table.now) }
{
    Ok(Table {
        name: table.name.copy(alloc)?,
        schema: copy_schema(alloc, &table.schema)?,
        rows: copy_rows(alloc, table.rows.as_slice())?,
    })
}

pub(crate) fn copy_tables(alloc: Global, tables: &[Table]) -> Result<Vec<Table>, AllocError>
    ensures { IfOk result (λ copies. copies.items ≡ tables.now) }
{
    let mut copies = Vec::with_capacity(alloc, tables.len())?;
    for table in tables {
        copies.push(copy_table(alloc, table)?)?;
    }
    Ok(copies)
}
