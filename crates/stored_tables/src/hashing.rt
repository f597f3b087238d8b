//! Tables whose trees keep the digests of their nodes.
ghost use Rattle.std.specs.Prelude.{◌≡◌, IfOk};
ghost use Rattle.stored_tables.specs.View.{stored_in, stored_of};
ghost use Rattle.stored_tables.specs.Representation.{IsStanding};

use crate::table::StoredTable;
use std::alloc::{AllocError, Global};
use std::rc::Rc;

fn hash_table(alloc: Global, table: &StoredTable) -> Result<StoredTable, AllocError>
    ensures { IfOk result (λ same. stored_of same ≡ stored_of table.now) }
{
    Ok(StoredTable {
        name: table.name.clone()?,
        schema: table.schema.clone()?,
        tree: table.tree.with_digests(alloc)?,
    })
}

/// The table hashed, if it has this name or no name is given.
fn hash_named(
    alloc: Global,
    table: &Rc<StoredTable>,
    name: Option<&[u8]>,
) -> Result<Rc<StoredTable>, AllocError>
    ensures { IfOk result (λ same. stored_of same.value ≡ stored_of table.now.value) }
{
    match name {
        Some(name) if table.name.as_bytes() != name => table.clone(),
        _ => Ok(Rc::new(alloc, hash_table(alloc, table)?)?),
    }
}

fn hash_each(
    alloc: Global,
    tables: &[Rc<StoredTable>],
    name: Option<&[u8]>,
) -> Result<Vec<Rc<StoredTable>>, AllocError>
    ensures { IfOk result (λ same. stored_in same.items ≡ stored_in tables.now) }
{
    let mut same = Vec::with_capacity(alloc, tables.len())?;
    for table in tables {
        same.push(hash_named(alloc, table, name)?)?;
    }
    Ok(same)
}

/// The same tables, the one of this name hashed, or all of them.
pub(crate) fn hash_tables(
    alloc: Global,
    tables: &[Rc<StoredTable>],
    name: Option<&[u8]>,
) -> Result<Vec<Rc<StoredTable>>, AllocError>
    requires { IsStanding (stored_in tables.now) }
    ensures same { IfOk result (λ same. stored_in same.items ≡ stored_in tables.now) }
    ensures standing { IfOk result (λ same. IsStanding (stored_in same.items)) }
{
    hash_each(alloc, tables, name)
}
