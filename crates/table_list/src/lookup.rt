//! The plain table of a name, and the name that a command has.
ghost use Rattle.std.specs.Prelude.{◌≡◌, option_map};
ghost use Rattle.vo_spec.specs.Tables.{table_header_of, table_named};
ghost use Rattle.table_list.specs.TableHeaders.{command_name, table_header_seen};

use crate::refusal::TableHeaderRef;
use vo_spec::{Command, Table};

/// The first table of this name.
pub fn table_named<'t>(tables: &'t [Table], name: &[u8]) -> Option<&'t Table>
    ensures { option_map (λ t. t.now) result ≡ table_named name.now tables.now }
{
    for table in tables {
        if table.name.as_bytes() == name {
            return Some(table);
        }
    }
    None
}

pub(crate) fn table_header_of(table: &Table) -> TableHeaderRef<'_>
    ensures { table_header_seen result ≡ table_header_of table.now }
{
    TableHeaderRef {
        name: table.name.as_bytes(),
        schema: &table.schema,
        count: table.rows.len() as u64,
    }
}

/// The name of the table that the command names.
pub fn command_name(command: &Command) -> &[u8]
    ensures { result.now ≡ command_name command.now }
{
    match command {
        Command::Create { name, .. } => name.as_bytes(),
        Command::Drop { name } => name.as_bytes(),
        Command::Insert { name, .. } => name.as_bytes(),
        Command::Update { name, .. } => name.as_bytes(),
        Command::Delete { name, .. } => name.as_bytes(),
    }
}
