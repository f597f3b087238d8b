//! Copies of batches and entries.
ghost use Rattle.std.specs.Prelude.{◌≡◌, IfOk};

use std::alloc::{AllocError, Global};
use table_list::copy_columns;
use vo_spec::{Batch, Command, Entry, List, Name, SetPart, Value, copy_values};

fn copy_set(alloc: Global, set: &SetPart) -> Result<SetPart, AllocError>
    ensures { IfOk result (λ copy. copy ≡ set.now) }
{
    Ok(SetPart {
        column: set.column.copy(alloc)?,
        value: set.value.copy(alloc)?,
    })
}

fn copy_sets(alloc: Global, sets: &[SetPart]) -> Result<List<SetPart>, AllocError>
    ensures { IfOk result (λ copy. copy ≡ sets.now) }
{
    let mut copy = Vec::with_capacity(alloc, sets.len())?;
    for set in sets {
        copy.push(copy_set(alloc, set)?)?;
    }
    Ok(List::from_vec(copy))
}

fn copy_update(
    alloc: Global,
    name: &Name,
    sets: &[SetPart],
    column: &Name,
    value: &Value,
) -> Result<Command, AllocError>
    ensures { IfOk result (λ copy. copy ≡ Command.Update name.now sets.now column.now value.now) }
{
    Ok(Command::Update {
        name: name.copy(alloc)?,
        sets: copy_sets(alloc, sets)?,
        column: column.copy(alloc)?,
        value: value.copy(alloc)?,
    })
}

fn copy_command(alloc: Global, command: &Command) -> Result<Command, AllocError>
    ensures { IfOk result (λ copy. copy ≡ command.now) }
{
    match command {
        Command::Create { name, columns, key } => Ok(Command::Create {
            name: name.copy(alloc)?,
            columns: copy_columns(alloc, columns.as_slice())?,
            key: key.copy(alloc)?,
        }),
        Command::Drop { name } => Ok(Command::Drop {
            name: name.copy(alloc)?,
        }),
        Command::Insert { name, values } => Ok(Command::Insert {
            name: name.copy(alloc)?,
            values: copy_values(alloc, values.as_slice())?,
        }),
        Command::Update {
            name,
            sets,
            column,
            value,
        } => copy_update(alloc, name, sets.as_slice(), column, value),
        Command::Delete {
            name,
            column,
            value,
        } => Ok(Command::Delete {
            name: name.copy(alloc)?,
            column: column.copy(alloc)?,
            value: value.copy(alloc)?,
        }),
    }
}

pub(crate) fn copy_batch(alloc: Global, batch: &Batch) -> Result<Batch, AllocError>
    ensures { IfOk result (λ copy. copy.commands ≡ batch.now.commands) }
{
    let commands = batch.commands.as_slice();
    let mut copy = Vec::with_capacity(alloc, commands.len())?;
    for command in commands {
        copy.push(copy_command(alloc, command)?)?;
    }
    Ok(Batch {
        commands: List::from_vec(copy),
    })
}

/// A copy of an entry.
pub fn copy_entry(alloc: Global, entry: &Entry) -> Result<Entry, AllocError>
    ensures { IfOk result (λ copy. copy ≡ entry.now) }
{
    let batch = copy_batch(alloc, &entry.batch)?;
    let proofs = Vec::from_slice(alloc, entry.proofs.as_slice())?;
    let signature = Vec::from_slice(alloc, entry.signature.as_slice())?;
    Ok(Entry {
        batch,
        proofs: List::from_vec(proofs),
        rec: entry.rec,
        signature: List::from_vec(signature),
    })
}
