//! Writing batches.
ghost use Rattle.std.specs.Prelude.{◌≡◌, ◌++◌, ◌≤◌, length, IfOk, OnOk, OnErr};
ghost use Rattle.std.specs.List.{AllByRecursion};
ghost use Rattle.vo_spec.specs.Values.{value_bytes, FitsValue};
ghost use Rattle.vo_spec.specs.Batches.{list_bytes, set_bytes, command_bytes, batch_bytes, FitCounted, FitsSet, FitsCommand, max_commands};
ghost use Rattle.batch_format.specs.Writing.{StaysInFront};

use crate::columns::{put_columns, put_name};
use row_bytes::put_value;
use std::alloc::{AllocError, Global};
use vo_spec::{Batch, Command, SetPart, Value, u16_bytes};

#[tactic(auto, using(crate::proofs::Fronts::stays_itself, crate::proofs::Fronts::stays_before, crate::proofs::Fronts::stays_behind))]
fn put_set(out: &mut Vec<u8>, part: &SetPart) -> Result<(), AllocError>
    requires { FitsSet part.now }
    ensures ok { OnOk result (out.new.items ≡ out.old.items ++ set_bytes part.now) }
    ensures err { OnErr result (StaysInFront out.old.items out.new.items) }
{
    put_name(out, &part.column)?;
    put_value(out, &part.value)
}

#[tactic(auto, using(crate::proofs::Fronts::stays_itself, crate::proofs::Fronts::stays_before, crate::proofs::Fronts::stays_behind))]
fn put_values(out: &mut Vec<u8>, values: &[Value]) -> Result<(), AllocError>
    requires { FitCounted FitsValue values.now }
    ensures ok { OnOk result (out.new.items ≡ out.old.items ++ list_bytes value_bytes values.now) }
    ensures err { OnErr result (StaysInFront out.old.items out.new.items) }
{
    out.push(values.len() as u8)?;
    for value in values {
        put_value(out, value)?;
    }
    Ok(())
}

#[tactic(auto, using(crate::proofs::Fronts::stays_itself, crate::proofs::Fronts::stays_before, crate::proofs::Fronts::stays_behind))]
fn put_sets(out: &mut Vec<u8>, sets: &[SetPart]) -> Result<(), AllocError>
    requires { FitCounted FitsSet sets.now }
    ensures ok { OnOk result (out.new.items ≡ out.old.items ++ list_bytes set_bytes sets.now) }
    ensures err { OnErr result (StaysInFront out.old.items out.new.items) }
{
    out.push(sets.len() as u8)?;
    for part in sets {
        put_set(out, part)?;
    }
    Ok(())
}

#[tactic(auto, unfolding(vo_spec::specs::Batches::command_bytes, vo_spec::specs::Batches::FitsCommand), using(crate::proofs::Fronts::stays_itself, crate::proofs::Fronts::stays_before, crate::proofs::Fronts::stays_behind))]
fn put_command(out: &mut Vec<u8>, command: &Command) -> Result<(), AllocError>
    requires { FitsCommand command.now }
    ensures ok { OnOk result (out.new.items ≡ out.old.items ++ command_bytes command.now) }
    ensures err { OnErr result (StaysInFront out.old.items out.new.items) }
{
    match command {
        Command::Create { name, columns, key } => {
            out.push(1)?;
            put_name(out, name)?;
            put_columns(out, columns.as_slice())?;
            put_name(out, key)
        }
        Command::Drop { name } => {
            out.push(2)?;
            put_name(out, name)
        }
        Command::Insert { name, values } => {
            out.push(3)?;
            put_name(out, name)?;
            put_values(out, values.as_slice())
        }
        Command::Update {
            name,
            sets,
            column,
            value,
        } => {
            out.push(4)?;
            put_name(out, name)?;
            put_sets(out, sets.as_slice())?;
            put_name(out, column)?;
            put_value(out, value)
        }
        Command::Delete {
            name,
            column,
            value,
        } => {
            out.push(5)?;
            put_name(out, name)?;
            put_name(out, column)?;
            put_value(out, value)
        }
    }
}

/// The batch's bytes, be they within the limit of a batch or not.
#[tactic(auto, unfolding(vo_spec::specs::Batches::batch_bytes))]
pub fn batch_bytes(alloc: Global, batch: &Batch) -> Result<Vec<u8>, AllocError>
    requires count { length batch.now.commands ≤ max_commands }
    requires each { AllByRecursion FitsCommand batch.now.commands }
    ensures { IfOk result (λ bytes. bytes.items ≡ batch_bytes batch.now.commands) }
{
    let mut out = Vec::new(alloc);
    out.extend_from_slice(&u16_bytes(batch.commands.len() as u16))?;
    for command in batch.commands.as_slice() {
        put_command(&mut out, command)?;
    }
    Ok(out)
}
