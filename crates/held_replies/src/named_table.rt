//! The table of a name.
ghost use Rattle.std.specs.Prelude.{◌≡◌, option_map};
ghost use Rattle.vo_spec.specs.Checks.{table_named};

use vo_spec::{CatalogTable, Name};

/// The catalog's table of this name, if there is one.
pub fn table_named<'r>(tables: &'r [CatalogTable], name: &Name) -> Option<&'r CatalogTable>
    ensures { option_map (λ t. t.now) result
        ≡ table_named name.now (record { tables = tables.now }) }
{
    for table in tables {
        if table.name.as_bytes() == name.as_bytes() {
            return Some(table);
        }
    }
    None
}
