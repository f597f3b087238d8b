//! The tables of a catalog, as queries find them by their names.
ghost use Rattle.std.specs.Prelude.{◌≡◌, map, drop, option_map};
ghost use Rattle.vo_spec.specs.Tables.{table_header_named};
ghost use Rattle.vo_spec.specs.Records.{table_headers as table_headers_of};
ghost use Rattle.query_binding.specs.Catalogs.{schema_named};

use crate::schemas::Schemas;
use vo_spec::{Catalog, CatalogTable, Schema};

impl Schemas for Catalog {
    ghost table_headers = { λ catalog. table_headers_of catalog };

    fn schema(&self, name: &[u8]) -> Option<&Schema> {
        find_schema(self.tables.as_slice(), name)
    }
}

/// The schema of the first table of this name.
fn find_schema<'c>(tables: &'c [CatalogTable], name: &[u8]) -> Option<&'c Schema>
    ensures { option_map (λ s. s.now) result ≡ schema_named name.now tables.now }
{
    for table in tables {
        if table.name.as_bytes() == name {
            return Some(&table.schema);
        }
    }
    None
}
