//! One command of a batch that an owner followed.
ghost use Rattle.std.specs.Prelude.{◌≡◌, IfOk, Ok, drop, map};
ghost use Rattle.std.specs.List.{AllByRecursion};
ghost use Rattle.vo_spec.specs.Batches.{FitsCommand};
ghost use Rattle.vo_spec.specs.Fits.{FitsTree};
ghost use Rattle.vo_spec.specs.Honest.{work};
ghost use Rattle.mb_tree.specs.View.{part_of};
ghost use Rattle.stored_tables.specs.Representation.{IsStanding};
ghost use Rattle.tree_collide.specs.Agreements.{HoldsOrCollides};
ghost use Rattle.owner_roots.specs.Next.{trees_taken};
ghost use Rattle.root_laws.specs.Following.{TakesPart};
ghost use Rattle.vo_audit.specs.Departures.{IsFollowed};
ghost use Rattle.vo_audit.specs.Evidence.{AreHashedBy};

use crate::departures::tables::compare_with_table;
use mb_tree::PartTree;
use std::alloc::{AllocError, Global};
use stored_tables::{ApplyFault, StoredTables};
use table_list::command_name;
use vo_spec::{Collision, Command};

/// Two byte strings of one digest, unless the tree that the command takes, if it takes one, prunes
/// that of its table.
pub(crate) fn compare_taken(
    alloc: Global,
    tables: &StoredTables,
    command: &Command,
    trees: &[PartTree<'_>],
) -> Result<Option<Collision>, AllocError>
    requires fits { AllByRecursion FitsTree (map part_of trees.now) }
    requires followed { IsFollowed (map part_of trees.now) tables.now command.now }
    ensures { IfOk result (λ found.
        HoldsOrCollides found (TakesPart command.now (map part_of trees.now) tables.now)
        (AreHashedBy command.now (map part_of trees.now) tables.now)) }
{
    match command {
        Command::Create { .. } | Command::Drop { .. } => Ok(None),
        Command::Insert { .. } | Command::Update { .. } | Command::Delete { .. } => {
            match trees.first() {
                Some(tree) => compare_with_table(alloc, tables, command_name(command), tree),
                None => unreachable!(),
            }
        },
    }
}

/// The trees that are left where the command has taken its own.
pub(crate) fn trees_after<'p, 'b>(
    command: &Command,
    trees: &'p [PartTree<'b>],
) -> &'p [PartTree<'b>]
    ensures { result.now ≡ drop (trees_taken command.now) trees.now }
{
    match command {
        Command::Create { .. } | Command::Drop { .. } => trees,
        Command::Insert { .. } | Command::Update { .. } | Command::Delete { .. } => {
            &trees[trees.len().min(1)..]
        },
    }
}

/// The tables after a command that is followed by a part of its table's tree.
pub(crate) fn tables_after_command(
    alloc: Global,
    tables: &StoredTables,
    command: &Command,
    trees: &[PartTree<'_>],
) -> Result<StoredTables, AllocError>
    requires fits { FitsCommand command.now }
    requires standing { IsStanding tables.now }
    requires followed { IsFollowed (map part_of trees.now) tables.now command.now }
    requires part { TakesPart command.now (map part_of trees.now) tables.now }
    ensures { IfOk result (λ new. work command.now tables.now ≡ Ok new) }
{
    match tables.apply(alloc, command) {
        Ok(new) => Ok(new),
        Err(ApplyFault::Memory) => Err(AllocError),
        Err(ApplyFault::Refused(_)) => unreachable!(),
    }
}
