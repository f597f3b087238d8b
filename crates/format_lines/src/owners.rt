//! Calls of an owner that holds roots alone.
ghost use Rattle.std.specs.Prelude.{◌<◌, ◌^◌, ◌-◌, IfOk};
ghost use Rattle.vo_spec.specs.Batches.{FitsBatch};
ghost use Rattle.vo_spec.specs.Records.{FitsCatalog};

use crate::arguments::number_of;
use crate::journals::{batch_in, damage_text, entries_in, entry_text};
use crate::keys::read_key;
use crate::records::catalog_text;
use crate::state::State;
use line_pieces::{NoAnswer, form_of};
use lms_sign::SecretKey;
use owner_state::{
    EntriesFault, Owner, OwnerFault, ReplayFault, Roots, owned, read_entries, replay,
};
use std::alloc::Global;
use version_record::read_catalog;
use vo_spec::{Batch, Catalog, Digest};

/// The entry of version 0 by the key that was made last.
pub fn start(alloc: Global, state: &State) -> Result<String, NoAnswer> {
    let (owner, entry) = Owner::start(alloc, state.secret()?)?;
    let digits = entry_text(alloc, &entry);
    drop(entry);
    let text = with_roots(alloc, digits, owner.roots());
    drop(owner);
    text
}

/// An entry's digits and the roots behind it.
fn with_roots(
    alloc: Global,
    entry: Result<String, NoAnswer>,
    roots: &Roots,
) -> Result<String, NoAnswer>
    requires { FitsCatalog roots.now.catalog }
{
    let entry = entry?;
    let roots = roots_text(alloc, roots)?;
    Ok(format!(in alloc; "{entry} {roots}")?)
}

fn roots_text(alloc: Global, roots: &Roots) -> Result<String, NoAnswer>
    requires { FitsCatalog roots.now.catalog }
{
    let catalog = catalog_text(alloc, &roots.catalog)?;
    Ok(format!(in alloc; "{} {catalog}", roots.version)?)
}

/// The roots after a batch by its proofs, those before being a version and a catalog.
pub fn next(alloc: Global, strings: &[Vec<u8>]) -> Result<String, NoAnswer> {
    let [version, catalog, batch, proofs] = strings else {
        return Err(NoAnswer::NoSuchLine);
    };
    let version = number_of(version)?;
    if version == u64::MAX {
        return Err(NoAnswer::NoSuchLine);
    }
    let catalog = catalog_in(alloc, catalog)?;
    let roots = Roots { version, catalog };
    let text = next_text(alloc, &roots, batch, proofs);
    drop(roots);
    text
}

fn next_text(alloc: Global, roots: &Roots, batch: &[u8], proofs: &[u8]) -> Result<String, NoAnswer>
    requires version { roots.now.version < 2 ^ 64 - 1 }
    requires catalog { FitsCatalog roots.now.catalog }
{
    let batch = batch_in(alloc, batch)?;
    let next = roots.next(alloc, &batch, proofs);
    drop(batch);
    match next {
        Ok(next) => {
            let text = roots_text(alloc, &next);
            drop(next);
            text
        }
        Err(fault) => owner_fault_text(alloc, fault),
    }
}

fn catalog_in(alloc: Global, bytes: &[u8]) -> Result<Catalog, NoAnswer>
    ensures { IfOk result (λ catalog. FitsCatalog catalog) }
{
    match read_catalog(alloc, bytes) {
        Ok(catalog) => Ok(catalog),
        Err(_) => Err(NoAnswer::NoSuchLine),
    }
}

/// Why an owner refuses a batch and its proofs.
pub fn owner_fault_text(alloc: Global, fault: OwnerFault) -> Result<String, NoAnswer> {
    match fault {
        OwnerFault::Command { index, fault } => {
            let fault = form_of(alloc, &fault)?;
            Ok(format!(in alloc; "(Command {index} {fault})")?)
        }
        OwnerFault::ProofForm { index } => Ok(format!(in alloc; "(ProofForm {index})")?),
        OwnerFault::ProofRoot { index, want, got } => root_fault_text(alloc, index, want, got),
        OwnerFault::ProofMissing { index } => Ok(format!(in alloc; "(ProofMissing {index})")?),
        OwnerFault::ProofSurplus { index } => Ok(format!(in alloc; "(ProofSurplus {index})")?),
        OwnerFault::KeySpent => Ok("KeySpent".to_string(alloc)?),
        OwnerFault::Memory => Err(NoAnswer::Memory),
    }
}

fn root_fault_text(
    alloc: Global,
    index: u64,
    want: Digest,
    got: Digest,
) -> Result<String, NoAnswer> {
    let want = hex::encode(alloc, want.as_bytes())?;
    let got = hex::encode(alloc, got.as_bytes())?;
    Ok(format!(in alloc; "(ProofRoot {index} {want} {got})")?)
}

/// What the owner of the key that was made last makes of a batch and its proofs behind a journal,
/// and its roots once it has taken that step.
pub fn step(alloc: Global, state: &State, strings: &[Vec<u8>]) -> Result<String, NoAnswer> {
    let [journal, batch, proofs] = strings else {
        return Err(NoAnswer::NoSuchLine);
    };
    let key = state.secret()?;
    let batch = batch_in(alloc, batch)?;
    let text = step_behind(alloc, key, journal, &batch, proofs);
    drop(batch);
    text
}

fn step_behind(
    alloc: Global,
    key: &SecretKey,
    journal: &[u8],
    batch: &Batch,
    proofs: &[u8],
) -> Result<String, NoAnswer>
    requires { FitsBatch batch.now.commands }
{
    match owner_behind(alloc, key, journal) {
        Ok(mut owner) => {
            let text = step_text(alloc, &mut owner, batch, proofs);
            drop(owner);
            text
        }
        Err(fault) => no_owner_text(alloc, fault),
    }
}

/// Why there is no owner behind a journal.
#[derive(Clone, Copy)]
enum NoOwner {
    Journal(EntriesFault),
    Replay(ReplayFault),
}

/// The owner of the key behind a journal.
fn owner_behind(alloc: Global, key: &SecretKey, journal: &[u8]) -> Result<Owner, NoOwner> {
    match entries_in(alloc, journal) {
        Ok(entries) => {
            let owner = replay(alloc, key, &entries);
            drop(entries);
            owner.map_err(NoOwner::Replay)
        }
        Err(fault) => Err(NoOwner::Journal(fault)),
    }
}

fn no_owner_text(alloc: Global, fault: NoOwner) -> Result<String, NoAnswer> {
    match fault {
        NoOwner::Journal(fault) => damage_text(alloc, fault),
        NoOwner::Replay(ReplayFault::Entry { index }) => Ok(format!(in alloc; "(Entry {index})")?),
        NoOwner::Replay(ReplayFault::Memory) => Err(NoAnswer::Memory),
    }
}

fn step_text(
    alloc: Global,
    owner: &mut Owner,
    batch: &Batch,
    proofs: &[u8],
) -> Result<String, NoAnswer>
    requires { FitsBatch batch.now.commands }
{
    match owner.step(alloc, batch, proofs) {
        Ok(step) => {
            let entry = entry_text(alloc, &step.entry);
            owner.advance(step);
            with_roots(alloc, entry, owner.roots())
        }
        Err(fault) => owner_fault_text(alloc, fault),
    }
}

/// The roots of the owner of the key that was made last behind a journal.
pub fn replay_entries(
    alloc: Global,
    state: &State,
    strings: &[Vec<u8>],
) -> Result<String, NoAnswer> {
    let [journal] = strings else {
        return Err(NoAnswer::NoSuchLine);
    };
    match owner_behind(alloc, state.secret()?, journal) {
        Ok(owner) => {
            let text = roots_text(alloc, owner.roots());
            drop(owner);
            text
        }
        Err(fault) => no_owner_text(alloc, fault),
    }
}

/// How many first entries of a journal an owner has written.
pub fn owned_entries(alloc: Global, strings: &[Vec<u8>]) -> Result<String, NoAnswer> {
    let [key, journal] = strings else {
        return Err(NoAnswer::NoSuchLine);
    };
    let key = read_key(key)?;
    match read_entries(alloc, journal) {
        Ok(entries) => {
            let count = owned(alloc, &key, entries.as_slice());
            drop(entries);
            Ok(format!(in alloc; "{}", count?)?)
        }
        Err(fault) => damage_text(alloc, fault),
    }
}
