//! Where a catalog's tables stand, and why it refuses commands.
ghost use Rattle.std.specs.Prelude.{◌≡◌, ◌≤◌, length, map, option_map, slice_get};
ghost use Rattle.vo_spec.specs.Values.{key_lt};
ghost use Rattle.vo_spec.specs.Tables.{refusal};
ghost use Rattle.table_list.specs.TableHeaders.{table_header_seen};
ghost use Rattle.owner_roots.specs.Next.{table_header, place_for, table_number};

use table_list::{TableHeaderRef, command_name, first_refusal};
use vo_spec::{CatalogTable, Command, CommandFault};

/// The number of the table of this name, or else how many there are.
pub(crate) fn table_number(tables: &[CatalogTable], name: &[u8]) -> usize
    ensures place { result ≡ table_number name.now tables.now }
    ensures bound { result ≤ length tables.now }
{
    let mut place = 0;
    for table in tables {
        if table.name.as_bytes() == name {
            return place;
        }
        place += 1;
    }
    place
}

fn is_before(name: &[u8], other: &[u8]) -> bool
    ensures { result ≡ key_lt name.now other.now }
{
    name.cmp(other).is_lt()
}

/// The number of the first table of a greater name, or else how many there are.
pub(crate) fn place_for(tables: &[CatalogTable], name: &[u8]) -> usize
    ensures place { result ≡ place_for name.now tables.now }
    ensures bound { result ≤ length tables.now }
{
    let mut place = 0;
    for table in tables {
        if is_before(name, table.name.as_bytes()) {
            return place;
        }
        place += 1;
    }
    place
}

fn table_header_of(table: &CatalogTable) -> TableHeaderRef<'_>
    ensures { table_header_seen result ≡ table_header table.now }
{
    TableHeaderRef {
        name: table.name.as_bytes(),
        schema: &table.schema,
        count: table.rows,
    }
}

/// The table of this name.
fn table_named<'t>(tables: &'t [CatalogTable], name: &[u8]) -> Option<&'t CatalogTable>
    ensures { option_map (λ t. t.now) result
        ≡ slice_get tables.now (table_number name.now tables.now) }
{
    tables.get(table_number(tables, name))
}

/// Why the catalog refuses a command.
pub(crate) fn refusal(tables: &[CatalogTable], command: &Command) -> Option<CommandFault>
    ensures { result ≡ refusal command.now (map table_header tables.now) }
{
    match table_named(tables, command_name(command)) {
        Some(table) => first_refusal(command, Some(table_header_of(table)), tables.len()),
        None => first_refusal(command, None, tables.len()),
    }
}
