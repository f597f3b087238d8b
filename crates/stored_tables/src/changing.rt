//! Tables with one of them new, changed or dropped.
ghost use Rattle.std.specs.Prelude.{◌≡◌, ◌<◌, ◌≤◌, ◌+◌, ◌++◌, ◌∷◌, not, bytes_eq, length, take, drop, filter, IfOk};
ghost use Rattle.vo_spec.specs.Batches.{max_columns};
ghost use Rattle.vo_spec.specs.Honest.{put_stored};
ghost use Rattle.stored_tables.specs.View.{stored_in, stored_of};
ghost use Rattle.stored_tables.specs.Working.{made_stored};

use crate::positions::place_for;
use crate::sharing::replace_range;
use crate::table::StoredTable;
use mb_tree::Tree;
use std::alloc::{AllocError, Global};
use std::rc::Rc;
use table_list::new_schema;
use vo_spec::{Column, Name};

/// The table that a CREATE makes.
pub(crate) fn new_table(
    alloc: Global,
    name: &Name,
    columns: &[Column],
    key: &Name,
) -> Result<StoredTable, AllocError>
    requires { length columns.now ≤ max_columns }
    ensures { IfOk result (λ table. stored_of table ≡ made_stored name.now columns.now key.now) }
{
    let schema = new_schema(alloc, columns, key.as_bytes())?;
    Ok(StoredTable {
        name: Rc::new(alloc, name.copy(alloc)?)?,
        schema: Rc::new(alloc, schema)?,
        tree: Tree::new(alloc)?,
    })
}

/// The tables with a new one.
pub(crate) fn with_table(
    alloc: Global,
    tables: &[Rc<StoredTable>],
    table: StoredTable,
) -> Result<Vec<Rc<StoredTable>>, AllocError>
    ensures { IfOk result (λ new. stored_in new.items
        ≡ put_stored (stored_of table) (stored_in tables.now)) }
{
    let at = place_for(tables, &table);
    let table = [Rc::new(alloc, table)?];
    Ok(replace_range(alloc, tables, at, at, &table)?)
}

/// The tables but for those of this name.
pub(crate) fn without_table(
    alloc: Global,
    tables: &[Rc<StoredTable>],
    name: &[u8],
) -> Result<Vec<Rc<StoredTable>>, AllocError>
    ensures { IfOk result (λ new. stored_in new.items
        ≡ filter (λ s. not (bytes_eq s.name name.now)) (stored_in tables.now)) }
{
    let mut others = Vec::new(alloc);
    for table in tables {
        if table.name.as_bytes() != name {
            others.push(table.clone()?)?;
        }
    }
    Ok(others)
}

/// The tables with another in the place of one.
pub(crate) fn replace_table(
    alloc: Global,
    tables: &[Rc<StoredTable>],
    at: usize,
    table: StoredTable,
) -> Result<Vec<Rc<StoredTable>>, AllocError>
    requires { at < length tables.now }
    ensures { IfOk result (λ new. stored_in new.items
        ≡ take at (stored_in tables.now) ++ stored_of table
        ∷ drop (at + 1) (stored_in tables.now)) }
{
    let table = [Rc::new(alloc, table)?];
    Ok(replace_range(alloc, tables, at, at + 1, &table)?)
}
