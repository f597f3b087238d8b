//! What catalogs hold of tables.
ghost use Rattle.std.specs.Prelude.{◌≡◌, [], ◌∷◌, ◌++◌, ℕ, List, map, IfOk};
ghost use Rattle.vo_spec.specs.declared.records.CatalogTable.{CatalogTable as PlainTable};
ghost use Rattle.vo_spec.specs.Honest.{catalog_of};
ghost use Rattle.vo_spec.specs.Records.{FitsCatalog, FitsCatalogTable, FitsRecord, record_of};
ghost use Rattle.version_record.specs.Hashing.{HoldsTables};
ghost use Rattle.stored_tables.specs.Plain.{catalog_table};
ghost use Rattle.stored_tables.specs.View.{stored_in, stored_of};

use crate::table::StoredTable;
use std::alloc::{AllocError, Global};
use std::rc::Rc;
use table_list::copy_schema;
use version_record::CatalogHasher;
use vo_spec::{CatalogTable, Record};

fn catalog_table(alloc: Global, table: &StoredTable) -> Result<CatalogTable, AllocError>
    ensures { IfOk result (λ made. made ≡ catalog_table (stored_of table.now)) }
{
    Ok(CatalogTable {
        name: table.name.copy(alloc)?,
        schema: copy_schema(alloc, &table.schema)?,
        rows: table.tree.row_count(),
        root: table.tree.node_digest(),
    })
}

pub(crate) fn catalog_tables(
    alloc: Global,
    tables: &[Rc<StoredTable>],
) -> Result<Vec<CatalogTable>, AllocError>
    ensures { IfOk result (λ made. made.items ≡ map catalog_table (stored_in tables.now)) }
{
    let mut made = Vec::with_capacity(alloc, tables.len())?;
    for table in tables {
        made.push(catalog_table(alloc, table)?)?;
    }
    Ok(made)
}

/// Hashes what a catalog says of a table.
fn hash_stored(hasher: &mut CatalogHasher, table: &StoredTable)
    requires { FitsCatalogTable (catalog_table (stored_of table.now)) }
    ensures { (count : ℕ) → (tables : List PlainTable) → HoldsTables hasher.old count tables
        → HoldsTables hasher.new count (tables ++ catalog_table (stored_of table.now) ∷ []) }
{
    let tree = &table.tree;
    hasher.add_table(
        &table.name,
        &table.schema,
        tree.row_count(),
        &tree.node_digest(),
    );
}

/// The record of these tables as this version. Their catalog isn't made for it.
pub(crate) fn record_of(tables: &[Rc<StoredTable>], id: [u8; 16], version: u64) -> Record
    requires { FitsCatalog (catalog_of (stored_in tables.now)) }
    ensures value { result ≡ record_of id version (catalog_of (stored_in tables.now)) }
    ensures fits { FitsRecord result }
{
    let mut hasher = CatalogHasher::new(tables.len() as u16);
    for table in tables {
        hash_stored(&mut hasher, table);
    }
    hasher.record(id, version)
}
