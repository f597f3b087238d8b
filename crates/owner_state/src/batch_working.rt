//! A batch and its proofs, in one pass.
ghost use Rattle.std.specs.Prelude.{◌≡◌, ◌+◌, ◌++◌, ◌≤◌, ◌<◌, ◌^◌, OnOk, flat_map, length};
ghost use Rattle.std.specs.List.{AllByRecursion};
ghost use Rattle.vo_spec.specs.Batches.{FitsBatch, FitsCommand, max_commands};
ghost use Rattle.vo_spec.specs.TreeBytes.{tree_bytes};
ghost use Rattle.vo_spec.specs.Honest.{command_proof, honest_proofs};
ghost use Rattle.vo_spec.specs.Replies.{proofs_bytes};
ghost use Rattle.table_list.specs.BatchResults.{BatchGives};
ghost use Rattle.stored_tables.specs.Working.{work_from};
ghost use Rattle.owner_state.specs.BatchProofs.{UnlessMemory, allowed_proof};

use std::alloc::{AllocError, Global};
use stored_tables::{ApplyFault, BatchFault, StoredTables};
use vo_format::{begin_proofs, put_tree};
use vo_spec::Command;

/// Trees as bytes, one behind the other, and how many they are.
#[derive(Drop)]
struct TreeList {
    bytes: Vec<u8>,
    count: u16,
}

/// The tables after a batch, whose proofs are put at the end of `proofs`. A refused batch has
/// proofs too: those up to the refused command, its own among them where it has one.
#[tactic(auto, unfolding(vo_spec::specs::Replies::proofs_bytes))]
pub fn apply_with_proofs(
    alloc: Global,
    tables: StoredTables,
    commands: &[Command],
    proofs: &mut Vec<u8>,
) -> Result<StoredTables, BatchFault>
    requires { FitsBatch commands.now }
    ensures answer { BatchGives (λ after. after) result (work_from 0 commands.now tables) }
    ensures proofs { UnlessMemory result (proofs.new.items ≡ proofs.old.items
        ++ proofs_bytes (honest_proofs commands.now tables)) }
{
    let mut trees = TreeList {
        bytes: Vec::new(alloc),
        count: 0,
    };
    let after = apply_in_turn(alloc, tables, commands, &mut trees);
    begin_proofs(proofs, trees.count)?;
    proofs.extend_from_slice(&trees.bytes)?;
    after
}

/// The tables after the commands, with the tree that each looks at, before it, put at the end of
/// the list.
fn apply_in_turn(
    alloc: Global,
    before: StoredTables,
    commands: &[Command],
    trees: &mut TreeList,
) -> Result<StoredTables, BatchFault>
    requires fits { AllByRecursion FitsCommand commands.now }
    requires count { length commands.now ≤ max_commands }
    requires first { trees.old.count ≡ 0 }
    ensures answer { BatchGives (λ after. after) result (work_from 0 commands.now before) }
    ensures bytes { UnlessMemory result (trees.new.bytes.items ≡ trees.old.bytes.items
        ++ flat_map tree_bytes (honest_proofs commands.now before)) }
    ensures counted { UnlessMemory result (trees.new.count
        ≡ length (honest_proofs commands.now before)) }
{
    let mut tables = before;
    for (index, command) in commands.iter().enumerate() {
        put_allowed_proof(alloc, trees, &tables, command)?;
        match tables.apply(alloc, command) {
            Ok(next) => tables = next,
            Err(ApplyFault::Refused(fault)) => {
                let index = index as u64;
                return Err(BatchFault::Command { index, fault });
            }
            Err(ApplyFault::Memory) => return Err(BatchFault::Memory),
        }
    }
    Ok(tables)
}

/// Puts the tree that a command looks at at the end, if the catalog allows the command and it looks
/// at one.
fn put_allowed_proof(
    alloc: Global,
    trees: &mut TreeList,
    tables: &StoredTables,
    command: &Command,
) -> Result<(), AllocError>
    requires { trees.old.count < max_commands }
    ensures bytes { OnOk result (trees.new.bytes.items ≡ trees.old.bytes.items
        ++ flat_map tree_bytes (allowed_proof command.now tables.now)) }
    ensures counted { OnOk result (trees.new.count
        ≡ trees.old.count + length (allowed_proof command.now tables.now)) }
    ensures few { OnOk result (trees.new.count ≤ trees.old.count + 1) }
{
    if tables.refusal(command).is_some() {
        return Ok(());
    }
    put_proof(alloc, trees, tables, command)
}

/// Puts the tree that a command looks at at the end, if it looks at one.
fn put_proof(
    alloc: Global,
    trees: &mut TreeList,
    tables: &StoredTables,
    command: &Command,
) -> Result<(), AllocError>
    requires { trees.old.count < max_commands }
    ensures bytes { OnOk result (trees.new.bytes.items ≡ trees.old.bytes.items
        ++ flat_map tree_bytes (command_proof command.now tables.now)) }
    ensures counted { OnOk result (trees.new.count
        ≡ trees.old.count + length (command_proof command.now tables.now)) }
    ensures few { OnOk result (trees.new.count ≤ trees.old.count + 1) }
{
    if let Some(tree) = tables.command_proof(alloc, command)? {
        put_tree(&mut trees.bytes, &tree)?;
        trees.count += 1;
    }
    Ok(())
}
