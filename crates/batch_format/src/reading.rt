//! Reading batches.
ghost use Rattle.std.specs.Prelude.{◌≡◌, List, IfOk, Some};
ghost use Rattle.vo_spec.specs.declared.tables.Command.{Command as Plain};
ghost use Rattle.vo_spec.specs.Batches.{IsBatch};
ghost use Rattle.row_bytes.specs.Fields.{FoundOr, times, count_at};
ghost use Rattle.row_bytes.specs.Fields.{name_at as a_name_at};
ghost use Rattle.batch_format.specs.BatchReading.{any_value_at, set_at, values_at, sets_at, create_at, drop_at, insert_at, update_at, delete_at, command_at, commands_at, batch_of, BatchRead};

use row_bytes::{Cursor, ReadFault, take_columns, take_count, take_value};
use std::alloc::Global;
use vo_spec::{Batch, Command, List, MAX_BATCH_BYTES, MAX_COMMANDS, Name, SetPart, Value};

#[tactic(auto, unfolding(crate::specs::BatchReading::any_value_at))]
fn take_any_value(alloc: Global, cursor: &mut Cursor<'_>) -> Result<Value, ReadFault>
    ensures { FoundOr (λ value. value) result cursor.old cursor.new (any_value_at cursor.old) }
{
    let mut ahead = cursor.copy();
    let value = take_value(&mut ahead).or(Err(ReadFault::BadForm))?;
    let value = value.to_value(alloc)?;
    *cursor = ahead;
    Ok(value)
}

fn take_name(alloc: Global, cursor: &mut Cursor<'_>) -> Result<Name, ReadFault>
    ensures { FoundOr (λ name. name) result cursor.old cursor.new (a_name_at cursor.old) }
{
    let mut ahead = cursor.copy();
    let name = ahead.take_name().ok_or(ReadFault::BadForm)?;
    let name = Name::from_vec(Vec::from_slice(alloc, name)?);
    *cursor = ahead;
    Ok(name)
}

#[tactic(auto, unfolding(crate::specs::BatchReading::set_at))]
fn take_set(alloc: Global, cursor: &mut Cursor<'_>) -> Result<SetPart, ReadFault>
    ensures { FoundOr (λ part. part) result cursor.old cursor.new (set_at cursor.old) }
{
    let mut ahead = cursor.copy();
    let column = take_name(alloc, &mut ahead)?;
    let value = take_any_value(alloc, &mut ahead)?;
    *cursor = ahead;
    Ok(SetPart { column, value })
}

fn each_value(alloc: Global, cursor: &mut Cursor<'_>, count: u8) -> Result<Vec<Value>, ReadFault>
    ensures { FoundOr (λ values. values.items) result cursor.old cursor.new
        (times any_value_at count cursor.old) }
{
    let mut ahead = cursor.copy();
    let mut values = Vec::new(alloc);
    for _ in 0..count {
        match take_any_value(alloc, &mut ahead) {
            Ok(value) => values.push(value)?,
            Err(fault) => return Err(fault),
        }
    }
    *cursor = ahead;
    Ok(values)
}

fn each_set(alloc: Global, cursor: &mut Cursor<'_>, count: u8) -> Result<Vec<SetPart>, ReadFault>
    ensures { FoundOr (λ sets. sets.items) result cursor.old cursor.new
        (times set_at count cursor.old) }
{
    let mut ahead = cursor.copy();
    let mut sets = Vec::new(alloc);
    for _ in 0..count {
        match take_set(alloc, &mut ahead) {
            Ok(part) => sets.push(part)?,
            Err(fault) => return Err(fault),
        }
    }
    *cursor = ahead;
    Ok(sets)
}

#[tactic(auto, unfolding(crate::specs::BatchReading::values_at))]
fn take_values(alloc: Global, cursor: &mut Cursor<'_>) -> Result<List<Value>, ReadFault>
    ensures { FoundOr (λ values. values) result cursor.old cursor.new (values_at cursor.old) }
{
    let mut ahead = cursor.copy();
    let count = take_count(&mut ahead).ok_or(ReadFault::BadForm)?;
    let values = each_value(alloc, &mut ahead, count)?;
    *cursor = ahead;
    Ok(List::from_vec(values))
}

#[tactic(auto, unfolding(crate::specs::BatchReading::sets_at))]
fn take_sets(alloc: Global, cursor: &mut Cursor<'_>) -> Result<List<SetPart>, ReadFault>
    ensures { FoundOr (λ sets. sets) result cursor.old cursor.new (sets_at cursor.old) }
{
    let mut ahead = cursor.copy();
    let count = take_count(&mut ahead).ok_or(ReadFault::BadForm)?;
    let sets = each_set(alloc, &mut ahead, count)?;
    *cursor = ahead;
    Ok(List::from_vec(sets))
}

#[tactic(auto, unfolding(crate::specs::BatchReading::create_at))]
fn take_create(alloc: Global, cursor: &mut Cursor<'_>) -> Result<Command, ReadFault>
    ensures { FoundOr (λ command. command) result cursor.old cursor.new (create_at cursor.old) }
{
    let mut ahead = cursor.copy();
    let name = take_name(alloc, &mut ahead)?;
    let columns = take_columns(alloc, &mut ahead)?;
    let key = take_name(alloc, &mut ahead)?;
    *cursor = ahead;
    Ok(Command::Create { name, columns, key })
}

#[tactic(auto, unfolding(crate::specs::BatchReading::drop_at))]
fn take_drop(alloc: Global, cursor: &mut Cursor<'_>) -> Result<Command, ReadFault>
    ensures { FoundOr (λ command. command) result cursor.old cursor.new (drop_at cursor.old) }
{
    let mut ahead = cursor.copy();
    let name = take_name(alloc, &mut ahead)?;
    *cursor = ahead;
    Ok(Command::Drop { name })
}

#[tactic(auto, unfolding(crate::specs::BatchReading::insert_at))]
fn take_insert(alloc: Global, cursor: &mut Cursor<'_>) -> Result<Command, ReadFault>
    ensures { FoundOr (λ command. command) result cursor.old cursor.new (insert_at cursor.old) }
{
    let mut ahead = cursor.copy();
    let name = take_name(alloc, &mut ahead)?;
    let values = take_values(alloc, &mut ahead)?;
    *cursor = ahead;
    Ok(Command::Insert { name, values })
}

#[tactic(auto, unfolding(crate::specs::BatchReading::update_at))]
fn take_update(alloc: Global, cursor: &mut Cursor<'_>) -> Result<Command, ReadFault>
    ensures { FoundOr (λ command. command) result cursor.old cursor.new (update_at cursor.old) }
{
    let mut ahead = cursor.copy();
    let name = take_name(alloc, &mut ahead)?;
    let sets = take_sets(alloc, &mut ahead)?;
    let column = take_name(alloc, &mut ahead)?;
    let value = take_any_value(alloc, &mut ahead)?;
    *cursor = ahead;
    Ok(Command::Update {
        name,
        sets,
        column,
        value,
    })
}

#[tactic(auto, unfolding(crate::specs::BatchReading::delete_at))]
fn take_delete(alloc: Global, cursor: &mut Cursor<'_>) -> Result<Command, ReadFault>
    ensures { FoundOr (λ command. command) result cursor.old cursor.new (delete_at cursor.old) }
{
    let mut ahead = cursor.copy();
    let name = take_name(alloc, &mut ahead)?;
    let column = take_name(alloc, &mut ahead)?;
    let value = take_any_value(alloc, &mut ahead)?;
    *cursor = ahead;
    Ok(Command::Delete {
        name,
        column,
        value,
    })
}

#[tactic(auto, unfolding(crate::specs::BatchReading::command_at, row_bytes::specs::Reading::byte_at))]
fn take_command(alloc: Global, cursor: &mut Cursor<'_>) -> Result<Command, ReadFault>
    ensures { FoundOr (λ command. command) result cursor.old cursor.new (command_at cursor.old) }
{
    let mut ahead = cursor.copy();
    let command = match ahead.take_byte() {
        Some(1) => take_create(alloc, &mut ahead),
        Some(2) => take_drop(alloc, &mut ahead),
        Some(3) => take_insert(alloc, &mut ahead),
        Some(4) => take_update(alloc, &mut ahead),
        Some(5) => take_delete(alloc, &mut ahead),
        _ => Err(ReadFault::BadForm),
    }?;
    *cursor = ahead;
    Ok(command)
}

fn each_command(
    alloc: Global,
    cursor: &mut Cursor<'_>,
    count: u16,
) -> Result<Vec<Command>, ReadFault>
    ensures { FoundOr (λ commands. commands.items) result cursor.old cursor.new
        (times command_at count cursor.old) }
{
    let mut ahead = cursor.copy();
    let mut commands = Vec::new(alloc);
    for _ in 0..count {
        match take_command(alloc, &mut ahead) {
            Ok(command) => commands.push(command)?,
            Err(fault) => return Err(fault),
        }
    }
    *cursor = ahead;
    Ok(commands)
}

#[tactic(auto, unfolding(crate::specs::BatchReading::commands_at))]
fn take_commands(alloc: Global, cursor: &mut Cursor<'_>) -> Result<Vec<Command>, ReadFault>
    ensures { FoundOr (λ commands. commands.items) result cursor.old cursor.new
        (commands_at cursor.old) }
{
    let mut ahead = cursor.copy();
    let count = ahead.take_u16().ok_or(ReadFault::BadForm)?;
    if count as usize > MAX_COMMANDS {
        return Err(ReadFault::BadForm);
    }
    let commands = each_command(alloc, &mut ahead, count)?;
    *cursor = ahead;
    Ok(commands)
}

#[tactic(auto, unfolding(crate::specs::BatchReading::batch_of))]
fn batch_of(alloc: Global, bytes: &[u8]) -> Result<Batch, ReadFault>
    ensures { BatchRead result (batch_of bytes.now) }
{
    if bytes.len() > MAX_BATCH_BYTES {
        return Err(ReadFault::BadForm);
    }
    let mut cursor = Cursor::new(bytes);
    let commands = take_commands(alloc, &mut cursor)?;
    if !cursor.is_empty() {
        return Err(ReadFault::BadForm);
    }
    Ok(Batch {
        commands: List::from_vec(commands),
    })
}

/// The batch that all the bytes are.
pub fn read_batch(alloc: Global, bytes: &[u8]) -> Result<Batch, ReadFault>
    // What is read is spelled so, and keeps the limits.
    ensures found { IfOk result (λ batch. IsBatch bytes.now batch.commands) }

    // What is spelled so is read, unless memory runs out.
    ensures only { (commands : List Plain) → IsBatch bytes.now commands
        → BatchRead result (Some commands) }
{
    batch_of(alloc, bytes)
}
