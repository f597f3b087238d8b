//! Commands that are refused without a look at the rows.
ghost use Rattle.std.specs.Prelude.{◌≡◌, map};
ghost use Rattle.vo_spec.specs.Tables.{refusal};
ghost use Rattle.vo_spec.specs.Honest.{stored_table_header};
ghost use Rattle.stored_tables.specs.View.{stored_in};

use crate::positions::table_position;
use crate::table::StoredTable;
use std::rc::Rc;
use table_list::{command_name, first_refusal};
use vo_spec::{Command, CommandFault};

pub(crate) fn fault_of(tables: &[Rc<StoredTable>], command: &Command) -> Option<CommandFault>
    ensures { result ≡ refusal command.now (map stored_table_header (stored_in tables.now)) }
{
    match table_position(tables, command_name(command)) {
        Some(place) => first_refusal(command, Some(place.table.table_header()), tables.len()),
        None => first_refusal(command, None, tables.len()),
    }
}
