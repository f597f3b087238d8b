//! The plain tables for which trees stand.
ghost use Rattle.std.specs.Prelude.{◌≡◌, map, IfOk};
ghost use Rattle.stored_tables.specs.View.{stored_in, stored_of};
ghost use Rattle.stored_tables.specs.Plain.{plain_table};

use crate::table::StoredTable;
use std::alloc::{AllocError, Global};
use std::rc::Rc;
use table_list::copy_schema;
use vo_spec::Table;

fn plain_table(alloc: Global, table: &StoredTable) -> Result<Table, AllocError>
    ensures { IfOk result (λ plain. plain ≡ plain_table (stored_of table.now)) }
{
    Ok(Table {
        name: table.name.copy(alloc)?,
        schema: copy_schema(alloc, &table.schema)?,
        rows: table.tree.rows(alloc)?,
    })
}

pub(crate) fn plain_tables(
    alloc: Global,
    tables: &[Rc<StoredTable>],
) -> Result<Vec<Table>, AllocError>
    ensures { IfOk result (λ plain. plain.items ≡ map plain_table (stored_in tables.now)) }
{
    let mut plain = Vec::with_capacity(alloc, tables.len())?;
    for table in tables {
        plain.push(plain_table(alloc, table)?)?;
    }
    Ok(plain)
}
