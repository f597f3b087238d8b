//! An owner that comes back to its journal.
ghost use Rattle.std.specs.Prelude.{◌≡◌, ◌↔◌, ◌∷◌, ℕ, [], Err, IfOk, IsTrue, OnOk, take};
ghost use Rattle.std.specs.List.{AllByRecursion};
ghost use Rattle.vo_spec.specs.Batches.{FitsBatch};
ghost use Rattle.vo_spec.specs.Journals.{FitsEntry};
ghost use Rattle.owner_state.specs.Stepping.{AreStepsTo, IsNoStepAt};
ghost use Rattle.owner_state.specs.Replaying.{GivesStepAs};

use crate::owner::Owner;
use crate::owner_faults::is_want_of_memory;
use crate::steps::Step;
use lms_sign::SecretKey;
use std::alloc::{AllocError, Global};
use thiserror::Error;
use vo_spec::Entry;

/// Why entries are not those that the owner of a key wrote.
#[derive(Clone, Copy, Debug, PartialEq, Eq, Error)]
pub enum ReplayFault {
    /// The first that isn't what the owner writes there, or is wanted and isn't there, has this
    /// number.
    #[error("an entry of another owner")]
    Entry { index: u64 },
    #[error("out of memory")]
    Memory,
}

impl From<AllocError> for ReplayFault {
    ghost use Rattle.std.specs.Prelude.{◌≡◌};
    ghost use Rattle.owner_state.specs.declared.replaying.ReplayFault.TheVariants.{Memory};

    ghost from_gives = { λ _ fault. fault ≡ Memory };

    fn from(_error: AllocError) -> ReplayFault {
        ReplayFault::Memory
    }
}

/// The owner behind the last of these entries, if each of them is what this owner wrote.
pub fn replay(alloc: Global, key: &SecretKey, entries: &[Entry]) -> Result<Owner, ReplayFault>
    requires { AllByRecursion FitsEntry entries.now }
    ensures key { IfOk result (λ owner. owner.key ≡ key.now) }
    ensures roots { IfOk result (λ owner. AreStepsTo key.now entries.now owner.roots) }
    ensures bad { (index : ℕ) → result ≡ Err (ReplayFault.Entry index)
        → IsNoStepAt key.now entries.now index }
{
    let mut owner = replay_first(alloc, key, entries)?;
    match replay_behind(alloc, &mut owner, entries) {
        Ok(()) => Ok(owner),
        Err(fault) => Err(fault),
    }
}

/// The owner behind the first of these entries, if that is what this owner wrote.
fn replay_first(alloc: Global, key: &SecretKey, entries: &[Entry]) -> Result<Owner, ReplayFault>
    ensures key { IfOk result (λ owner. owner.key ≡ key.now) }
    ensures roots { IfOk result (λ owner. AreStepsTo key.now (take 1 entries.now) owner.roots) }
    ensures bad { (index : ℕ) → result ≡ Err (ReplayFault.Entry index)
        → IsNoStepAt key.now entries.now index }
{
    let (owner, first) = Owner::start(alloc, key)?;
    if !begin_with(entries, &first) {
        return Err(ReplayFault::Entry { index: 0 });
    }
    Ok(owner)
}

/// Takes the steps to the entries behind the first, if each is what the owner writes there.
fn replay_behind(alloc: Global, owner: &mut Owner, entries: &[Entry]) -> Result<(), ReplayFault>
    requires fits { AllByRecursion FitsEntry entries.now }
    requires first { AreStepsTo owner.old.key (take 1 entries.now) owner.old.roots }
    ensures key { OnOk result (owner.new.key ≡ owner.old.key) }
    ensures roots { OnOk result (AreStepsTo owner.old.key entries.now owner.new.roots) }
    ensures bad { (index : ℕ) → result ≡ Err (ReplayFault.Entry index)
        → IsNoStepAt owner.old.key entries.now index }
{
    for index in 1..entries.len() {
        owner.prepare(alloc)?;
        match step_as(alloc, owner, &entries[index])? {
            Some(step) => owner.advance(step),
            None => {
                let index = index as u64;
                return Err(ReplayFault::Entry { index });
            }
        }
    }
    Ok(())
}

/// Whether the entries begin with this one, which has no commands.
fn begin_with(entries: &[Entry], first: &Entry) -> bool
    requires { first.now.batch.commands ≡ [] }
    ensures { IsTrue result ↔ (take 1 entries.now ≡ first.now ∷ []) }
{
    match entries.first() {
        Some(entry) => {
            entry.batch.commands.is_empty()
                && entry.proofs.as_slice() == first.proofs.as_slice()
                && is_signed_alike(entry, first)
        }
        None => false,
    }
}

fn is_signed_alike(entry: &Entry, other: &Entry) -> bool
    ensures { IsTrue result ↔ ((entry.now.rec ≡ other.now.rec)
        × (entry.now.signature ≡ other.now.signature)) }
{
    entry.rec == other.rec && entry.signature.as_slice() == other.signature.as_slice()
}

/// The step of the owner to this entry, if the owner writes it there.
fn step_as(alloc: Global, owner: &Owner, entry: &Entry) -> Result<Option<Step>, AllocError>
    requires { FitsBatch entry.now.batch.commands }
    ensures { IfOk result (λ step. GivesStepAs owner.now.key owner.now.roots entry.now step) }
{
    match owner.step(alloc, &entry.batch, entry.proofs.as_slice()) {
        Ok(step) => {
            if is_signed_alike(&step.entry, entry) {
                Ok(Some(step))
            } else {
                Ok(None)
            }
        }
        Err(fault) => {
            if is_want_of_memory(&fault) {
                return Err(AllocError);
            }
            Ok(None)
        }
    }
}
