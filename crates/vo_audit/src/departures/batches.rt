//! The commands of a batch in turn, up to the one whose tree is no part of the honest one.
ghost use Rattle.std.specs.Prelude.{IfOk, map};
ghost use Rattle.std.specs.List.{AllByRecursion};
ghost use Rattle.vo_spec.specs.Batches.{FitsBatch, FitsCommand};
ghost use Rattle.vo_spec.specs.Collides.{Collides};
ghost use Rattle.vo_spec.specs.Fits.{FitsTree};
ghost use Rattle.mb_tree.specs.View.{part_of};
ghost use Rattle.stored_tables.specs.Representation.{IsStanding};
ghost use Rattle.vo_audit.specs.Departures.{DepartBy, IsDeparture};
ghost use Rattle.vo_audit.specs.Evidence.{AreHashedInBatch, AreHashedInTurn};

use crate::departures::commands::{compare_taken, tables_after_command, trees_after};
use mb_tree::PartTree;
use std::alloc::{AllocError, Global};
use stored_tables::StoredTables;
use vo_format::{ReadFault, read_proofs};
use vo_spec::{Batch, Collision, Command};

fn collision_of_commands(
    alloc: Global,
    tables: &StoredTables,
    commands: &[Command],
    trees: &[PartTree<'_>],
) -> Result<Collision, AllocError>
    requires standing { IsStanding tables.now }
    requires commands { AllByRecursion FitsCommand commands.now }
    requires trees { AllByRecursion FitsTree (map part_of trees.now) }
    requires depart { DepartBy (map part_of trees.now) tables.now commands.now }
    ensures { IfOk result (λ found.
        AreHashedInTurn commands.now (map part_of trees.now) tables.now found.0 found.1) }
{
    let mut current = tables.share(alloc)?;
    let mut left = trees;
    for command in commands {
        let found = compare_taken(alloc, &current, command, left)?;
        if let Some(found) = found {
            return Ok(found);
        }
        current = tables_after_command(alloc, &current, command, left)?;
        left = trees_after(command, left);
    }
    unreachable!()
}

/// The two byte strings of one digest that show how an owner with the roots of these tables was
/// fooled: it followed the batch by these proofs to other roots than those of the tables after the
/// batch.
pub fn collision_of_batch(
    alloc: Global,
    tables: &StoredTables,
    batch: &Batch,
    proofs: &[u8],
) -> Result<Collision, AllocError>
    requires standing { IsStanding tables.now }
    requires fits { FitsBatch batch.now.commands }
    requires departure { IsDeparture tables.now batch.now.commands proofs.now }
    ensures collides { IfOk result (λ found. Collides found.0 found.1) }
    ensures strings { IfOk result (λ found.
        AreHashedInBatch batch.now.commands proofs.now tables.now found.0 found.1) }
{
    match read_proofs(alloc, proofs) {
        Ok(trees) => collision_of_commands(
            alloc,
            tables,
            batch.commands.as_slice(),
            trees.as_slice(),
        ),
        Err(ReadFault::Memory) => Err(AllocError),
        Err(ReadFault::BadForm) => unreachable!(),
    }
}
