//! Batches that the owner commits to the store, one after the other.
ghost use Rattle.std.specs.Prelude.{◌≡◌, ◌+◌, ◌<◌, ◌++◌, ◌∷◌, [], IsOk, OnOk, length};
ghost use Rattle.vo_spec.specs.Batches.{FitsBatch};
ghost use Rattle.vo_spec.specs.Secret.{secret_leaves};
ghost use Rattle.vo_spec.specs.Tables.{apply_batch, tables_after};
ghost use Rattle.vo_laws.specs.Sealing.{AreAcceptedAfter};
ghost use Rattle.owner_state.specs.Sealing.{FitEach, commands_of};
ghost use Rattle.workload_run.specs.Parties.{StandBehind, StandTogether, batches_behind};

use crate::parties::Parties;
use crate::requests::{install, propose, step};
use owner_state::copy_entry;
use std::alloc::{AllocError, Global};
use vo_spec::Batch;
use vo_store::laws::{owners_follow_stores, stores_stay_honest};

/// Commits a batch: the store proposes it, and installs what the owner signs by its proofs.
fn commit(alloc: Global, parties: &mut Parties, batch: &Batch) -> Result<(), AllocError>
    requires together { StandTogether parties.old }
    requires fits { FitsBatch batch.now.commands }
    requires accepted { IsOk (apply_batch batch.now.commands
        (tables_after (batches_behind parties.old))) }
    requires left { length (batches_behind parties.old) + 1
        < secret_leaves parties.old.owner.key }
    ensures { OnOk result (StandBehind parties.old.owner.key
        (batches_behind parties.old ++ batch.now.commands ∷ []) parties.new) }
{
    stores_stay_honest();
    owners_follow_stores();
    let proofs = propose(alloc, &mut parties.store, batch)?;
    let step = step(alloc, &parties.owner, batch, &proofs)?;
    install(alloc, &mut parties.store, &step.entry)?;
    parties.entries.push(copy_entry(alloc, &step.entry)?)?;
    parties.owner.advance(step);
    Ok(())
}

/// Commits batches that are accepted one after the other.
pub(crate) fn commit_each(
    alloc: Global,
    parties: &mut Parties,
    batches: &[Batch],
) -> Result<(), AllocError>
    requires together { StandBehind parties.old.owner.key [] parties.old }
    requires fits { FitEach batches.now }
    requires accepted { AreAcceptedAfter [] (commands_of batches.now) }
    requires left { length batches.now < secret_leaves parties.old.owner.key }
    ensures { OnOk result (StandBehind parties.old.owner.key (commands_of batches.now)
        parties.new) }
{
    for batch in batches {
        commit(alloc, parties, batch)?;
    }
    Ok(())
}
