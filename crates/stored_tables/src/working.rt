//! What commands make of tables.
ghost use Rattle.std.specs.Prelude.{◌≡◌, ◌≤◌, IsTrue, None, length, map, IfOk};
ghost use Rattle.vo_spec.specs.declared.tables.Command.TheVariants.{Create};
ghost use Rattle.vo_spec.specs.Tables.{refusal};
ghost use Rattle.vo_spec.specs.Batches.{FitsCommand, max_columns};
ghost use Rattle.vo_spec.specs.Honest.{changed_trees, stored_table_header, work};
ghost use Rattle.table_list.specs.Changes.{Returns};
ghost use Rattle.stored_tables.specs.View.{stored_in};
ghost use Rattle.stored_tables.specs.Representation.{IsStanding};
ghost use Rattle.row_works.specs.Operations.{changes_rows};

use crate::changing::{new_table, replace_table, with_table, without_table};
use crate::positions::table_position;
use crate::refusing::fault_of;
use crate::row_changes::change_table;
use crate::table::StoredTable;
use std::alloc::Global;
use std::rc::Rc;
use table_list::{ApplyFault, command_name};
use vo_spec::{Column, Command, Name};

fn create_table(
    alloc: Global,
    tables: &[Rc<StoredTable>],
    name: &Name,
    columns: &[Column],
    key: &Name,
) -> Result<Vec<Rc<StoredTable>>, ApplyFault>
    requires { length columns.now ≤ max_columns }
    ensures { Returns (λ new. stored_in new.items) result
        (changed_trees (Create name.now columns.now key.now) (stored_in tables.now)) }
{
    let table = new_table(alloc, name, columns, key)?;
    Ok(with_table(alloc, tables, table)?)
}

/// The tables with what the command changes of the rows of its table.
fn change_rows(
    alloc: Global,
    tables: &[Rc<StoredTable>],
    command: &Command,
) -> Result<Vec<Rc<StoredTable>>, ApplyFault>
    requires standing { IsStanding (stored_in tables.now) }
    requires fits { FitsCommand command.now }
    requires rows { IsTrue (changes_rows command.now) }
    requires allowed { refusal command.now (map stored_table_header (stored_in tables.now)) ≡ None }
    ensures { Returns (λ new. stored_in new.items) result
        (changed_trees command.now (stored_in tables.now)) }
{
    match table_position(tables, command_name(command)) {
        None => unreachable!(),
        Some(place) => match change_table(alloc, place.table, command) {
            Ok(table) => Ok(replace_table(alloc, tables, place.at, table)?),
            Err(fault) => Err(fault),
        },
    }
}

/// The tables after a command that isn't refused without a look at the rows.
#[tactic(auto, unfolding(vo_spec::specs::Batches::FitsCommand))]
fn change_tables(
    alloc: Global,
    tables: &[Rc<StoredTable>],
    command: &Command,
) -> Result<Vec<Rc<StoredTable>>, ApplyFault>
    requires standing { IsStanding (stored_in tables.now) }
    requires fits { FitsCommand command.now }
    requires allowed { refusal command.now (map stored_table_header (stored_in tables.now)) ≡ None }
    ensures { Returns (λ new. stored_in new.items) result
        (changed_trees command.now (stored_in tables.now)) }
{
    match command {
        Command::Create { name, columns, key } => {
            create_table(alloc, tables, name, columns.as_slice(), key)
        },
        Command::Drop { name } => Ok(without_table(alloc, tables, name.as_bytes())?),
        Command::Insert { .. } | Command::Update { .. } | Command::Delete { .. } => {
            change_rows(alloc, tables, command)
        },
    }
}

/// The tables after a command.
#[tactic(auto, using(crate::proofs::WorkLaws::work_allowed, crate::proofs::WorkLaws::work_refused))]
pub(crate) fn apply_command(
    alloc: Global,
    tables: &[Rc<StoredTable>],
    command: &Command,
) -> Result<Vec<Rc<StoredTable>>, ApplyFault>
    requires standing { IsStanding (stored_in tables.now) }
    requires fits { FitsCommand command.now }
    ensures answer { Returns (λ new. stored_in new.items) result
        (work command.now (stored_in tables.now)) }
    ensures standing { IfOk result (λ new. IsStanding (stored_in new.items)) }
{
    match fault_of(tables, command) {
        Some(fault) => Err(ApplyFault::Refused(fault)),
        None => change_tables(alloc, tables, command),
    }
}
