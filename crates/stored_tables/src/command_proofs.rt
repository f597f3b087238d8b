//! What of a table's tree a command looks at.
ghost use Rattle.std.specs.Prelude.{◌≡◌, IfOk};
ghost use Rattle.std.specs.List.{AllByRecursion};
ghost use Rattle.vo_spec.specs.Fits.{FitsTree};
ghost use Rattle.vo_spec.specs.Honest.{command_proof, proof_on};
ghost use Rattle.stored_tables.specs.View.{proof_list, stored_in, stored_of};
ghost use Rattle.stored_tables.specs.Representation.{IsStanding};

use crate::positions::table_position;
use crate::table::StoredTable;
use mb_tree::PartTree;
use row_bytes::key_of;
use std::alloc::{AllocError, Global};
use std::rc::Rc;
use table_list::{command_name, key_at};
use update_proof::{insert_proof, remove_proof, replace_proof};
use vo_spec::Command;

pub(crate) fn proof_of<'t>(
    alloc: Global,
    tables: &'t [Rc<StoredTable>],
    command: &Command,
) -> Result<Option<PartTree<'t>>, AllocError>
    requires standing { IsStanding (stored_in tables.now) }
    ensures honest { IfOk result (λ proof. proof_list proof
        ≡ command_proof command.now (stored_in tables.now)) }
    ensures fits { IfOk result (λ proof. AllByRecursion FitsTree (proof_list proof)) }
{
    match table_position(tables, command_name(command)) {
        None => Ok(None),
        Some(place) => proof_on(alloc, place.table, command),
    }
}

/// What of the table's tree the command looks at.
fn proof_on<'t>(
    alloc: Global,
    table: &'t StoredTable,
    command: &Command,
) -> Result<Option<PartTree<'t>>, AllocError>
    ensures { IfOk result (λ proof. proof_list proof ≡ proof_on command.now (stored_of table.now)) }
{
    match command {
        Command::Create { .. } | Command::Drop { .. } => Ok(None),
        Command::Insert { values, .. } => {
            let key = key_at(alloc, values.as_slice(), table.schema.key as usize)?;
            Ok(Some(insert_proof(alloc, &table.tree, key.as_bytes())?))
        },
        Command::Update { value, .. } => {
            let key = key_of(alloc, value)?;
            Ok(Some(replace_proof(alloc, &table.tree, key.as_bytes())?))
        },
        Command::Delete { value, .. } => {
            let key = key_of(alloc, value)?;
            Ok(Some(remove_proof(alloc, &table.tree, key.as_bytes())?))
        },
    }
}
