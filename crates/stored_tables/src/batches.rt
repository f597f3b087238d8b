//! What batches make of tables.
ghost use Rattle.std.specs.Prelude.{◌≡◌, ◌≤◌, List, Ok, length, IfOk};
ghost use Rattle.std.specs.List.{AllByRecursion};
ghost use Rattle.vo_spec.specs.Batches.{FitsCommand, max_commands};
ghost use Rattle.vo_spec.specs.declared.tables.Table.{Table as PlainTable};
ghost use Rattle.vo_spec.specs.Honest.{RepresentTables, work_all};
ghost use Rattle.table_list.specs.BatchResults.{BatchGives};
ghost use Rattle.stored_tables.specs.View.{stored_in};
ghost use Rattle.stored_tables.specs.Representation.{IsStanding};
ghost use Rattle.vo_spec.specs.Tables.{apply_batch as apply_plain};
ghost use Rattle.vo_laws.specs.FittingTables.{FitTables};
ghost use Rattle.stored_tables.specs.Working.{work_from};
ghost use Rattle.stored_tables.specs.Plain.{GivesPlain};

use crate::hashing::hash_tables;
use crate::sharing::replace_range;
use crate::table::StoredTable;
use crate::working::apply_command;
use std::alloc::{AllocError, Global};
use std::rc::Rc;
use table_list::{ApplyFault, BatchFault};
use vo_spec::Command;

/// The same tables once more.
pub(crate) fn share_tables(
    alloc: Global,
    tables: &[Rc<StoredTable>],
) -> Result<Vec<Rc<StoredTable>>, AllocError>
    requires { IsStanding (stored_in tables.now) }
    ensures same { IfOk result (λ new. stored_in new.items ≡ stored_in tables.now) }
    ensures standing { IfOk result (λ new. IsStanding (stored_in new.items)) }
{
    Ok(replace_range(alloc, tables, 0, 0, &[])?)
}

/// The tables after a list of commands. Their nodes are hashed when all are done: what a later
/// command replaces never is.
fn apply_commands(
    alloc: Global,
    tables: &[Rc<StoredTable>],
    commands: &[Command],
) -> Result<Vec<Rc<StoredTable>>, BatchFault>
    requires standing { IsStanding (stored_in tables.now) }
    requires fits { AllByRecursion FitsCommand commands.now }
    requires count { length commands.now ≤ max_commands }
    ensures answer { BatchGives (λ new. stored_in new.items) result
        (work_from 0 commands.now (stored_in tables.now)) }
    ensures standing { IfOk result (λ new. IsStanding (stored_in new.items)) }
{
    let mut new = share_tables(alloc, tables)?;
    for (index, command) in commands.iter().enumerate() {
        match apply_command(alloc, new.as_slice(), command) {
            Ok(next) => new = next,
            Err(ApplyFault::Refused(fault)) => {
                let index = index as u64;
                return Err(BatchFault::Command { index, fault });
            },
            Err(ApplyFault::Memory) => return Err(BatchFault::Memory),
        }
    }
    Ok(hash_tables(alloc, &new, None)?)
}

/// The tables after a batch, and what that says of the plain tables for which they stand.
pub(crate) fn apply_batch(
    alloc: Global,
    tables: &[Rc<StoredTable>],
    commands: &[Command],
) -> Result<Vec<Rc<StoredTable>>, BatchFault>
    requires standing { IsStanding (stored_in tables.now) }
    requires fits { AllByRecursion FitsCommand commands.now }
    requires count { length commands.now ≤ max_commands }
    ensures answer { BatchGives (λ new. stored_in new.items) result
        (work_from 0 commands.now (stored_in tables.now)) }
    ensures standing { IfOk result (λ new. IsStanding (stored_in new.items)) }
    ensures done { IfOk result (λ new. work_all commands.now (stored_in tables.now)
        ≡ Ok (stored_in new.items)) }
    ensures plain { (plain : List PlainTable) → RepresentTables (stored_in tables.now) plain
        → FitTables plain
        → GivesPlain (λ new. stored_in new.items) result (apply_plain commands.now plain) }
{
    apply_commands(alloc, tables, commands)
}
