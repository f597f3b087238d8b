//! Copies of a catalog's tables.
ghost use Rattle.std.specs.Prelude.{◌≡◌, IfOk};

use std::alloc::{AllocError, Global};
use table_list::copy_schema;
use vo_spec::CatalogTable;

fn copy_table(alloc: Global, table: &CatalogTable) -> Result<CatalogTable, AllocError>
    ensures { IfOk result (λ copy. copy ≡ table.now) }
{
    Ok(CatalogTable {
        name: table.name.copy(alloc)?,
        schema: copy_schema(alloc, &table.schema)?,
        rows: table.rows,
        root: table.root,
    })
}

pub(crate) fn copy_tables(
    alloc: Global,
    tables: &[CatalogTable],
) -> Result<Vec<CatalogTable>, AllocError>
    ensures { IfOk result (λ copy. copy.items ≡ tables.now) }
{
    let mut copy = Vec::with_capacity(alloc, tables.len())?;
    for table in tables {
        copy.push(copy_table(alloc, table)?)?;
    }
    Ok(copy)
}
