//! Tables, and what commands and batches make of them.
ghost use Rattle.std.specs.Prelude.{◌≡◌, ◌≤◌, [], length, OnErr};
ghost use Rattle.std.specs.List.{AllByRecursion};
ghost use Rattle.vo_spec.specs.Tables.{apply, apply_batch};
ghost use Rattle.vo_spec.specs.Batches.{FitsCommand, FitsBatch, max_commands};
ghost use Rattle.table_list.specs.BatchResults.{BatchGives};
ghost use Rattle.table_list.specs.Changes.{Returns};

use crate::commands::apply_command;
use crate::copies::copy_tables;
use crate::fault::{ApplyFault, BatchFault};
use std::alloc::Global;
use std::marker::Model;
use vo_spec::{Batch, Command, Table};

/// Plain tables, which contracts see as the list of them.
#[derive(Drop)]
pub struct Tables {
    tables: Vec<Table>,
}

impl Model for Tables {
    ghost use Rattle.std.specs.Prelude.{List};
    ghost use Rattle.vo_spec.specs.declared.tables.Table.{Table};

    ghost Value = { List Table };

    ghost view = { λ t. t.tables.items };
}

impl Tables {
    /// No tables.
    pub fn new(alloc: Global) -> Tables
        ensures { result ≡ [] }
    {
        Tables {
            tables: Vec::new(alloc),
        }
    }

    /// The tables in their order.
    pub fn as_slice(&self) -> &[Table]
        ensures { result.now ≡ self.now }
    {
        self.tables.as_slice()
    }
}

/// Applies a command. A refused one leaves the tables, and so does want of memory.
pub fn apply(alloc: Global, tables: &mut Tables, command: &Command) -> Result<(), ApplyFault>
    requires { FitsCommand command.now }
    ensures answer { Returns (λ _. tables.new) result (apply command.now tables.old) }
    ensures err { OnErr result (tables.new ≡ tables.old) }
{
    let new = apply_command(alloc, tables.tables.as_slice(), command)?;
    tables.tables = new;
    Ok(())
}

/// The tables after commands in turn.
fn apply_commands(
    alloc: Global,
    tables: &[Table],
    commands: &[Command],
) -> Result<Vec<Table>, BatchFault>
    requires fits { AllByRecursion FitsCommand commands.now }
    requires count { length commands.now ≤ max_commands }
    ensures { BatchGives (λ new. new.items) result (apply_batch commands.now tables.now) }
{
    let mut new = copy_tables(alloc, tables)?;
    for (index, command) in commands.iter().enumerate() {
        match apply_command(alloc, new.as_slice(), command) {
            Ok(next) => new = next,
            Err(ApplyFault::Refused(fault)) => {
                let index = index as u64;
                return Err(BatchFault::Command { index, fault });
            }
            Err(ApplyFault::Memory) => return Err(BatchFault::Memory),
        }
    }
    Ok(new)
}

/// Applies the commands of a batch, all or none. A refused batch leaves the tables, and so does
/// want of memory.
pub fn apply_batch(alloc: Global, tables: &mut Tables, batch: &Batch) -> Result<(), BatchFault>
    requires { FitsBatch batch.now.commands }
    ensures answer { BatchGives (λ _. tables.new) result
        (apply_batch batch.now.commands tables.old) }
    ensures err { OnErr result (tables.new ≡ tables.old) }
{
    let new = apply_commands(alloc, tables.tables.as_slice(), batch.commands.as_slice())?;
    tables.tables = new;
    Ok(())
}
