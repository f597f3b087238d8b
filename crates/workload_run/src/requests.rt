//! What is asked of a store and of an owner that can refuse nothing of it.
ghost use Rattle.std.specs.Prelude.{◌≡◌, ◌↔◌, ◌+◌, ◌<◌, IfOk, IsOk, IsTrue, Ok, OnOk};
ghost use Rattle.vo_spec.specs.Batches.{FitsBatch};
ghost use Rattle.vo_spec.specs.Conditions.{query_of};
ghost use Rattle.vo_spec.specs.Journals.{FitsEntry};
ghost use Rattle.vo_spec.specs.Records.{FitsCatalog};
ghost use Rattle.vo_spec.specs.Secret.{public_of_secret, secret_leaves};
ghost use Rattle.owner_roots.specs.declared.roots.Roots.{Roots as PlainRoots};
ghost use Rattle.owner_roots.specs.Next.{NextOf};
ghost use Rattle.owner_roots.specs.Owners.{IsNextEntry};
ghost use Rattle.owner_state.specs.Stepping.{StepOf};
ghost use Rattle.vo_store.specs.Calls.{answer_of, install_of, proposal_of};

use owner_state::{Owner, OwnerFault, Step};
use std::alloc::{AllocError, Global};
use vo_spec::{Batch, Entry, QueryText};
use vo_store::{Store, StoreFault};

/// Whether the fault is want of memory.
fn is_store_memory(fault: &StoreFault) -> bool
    ensures { IsTrue result ↔ (fault.now ≡ StoreFault.Memory) }
{
    match fault {
        StoreFault::Memory => true,
        _ => false,
    }
}

/// Whether the fault is want of memory.
fn is_owner_memory(fault: &OwnerFault) -> bool
    ensures { IsTrue result ↔ (fault.now ≡ OwnerFault.Memory) }
{
    match fault {
        OwnerFault::Memory => true,
        _ => false,
    }
}

/// Proposes the batch, and gives its proofs.
pub(crate) fn propose(
    alloc: Global,
    store: &mut Store,
    batch: &Batch,
) -> Result<Vec<u8>, AllocError>
    requires fits { FitsBatch batch.now.commands }
    requires taken { IsOk (proposal_of store.old batch.now.commands) }
    ensures { IfOk result (λ proofs.
        proposal_of store.old batch.now.commands ≡ Ok (store.new, proofs.items)) }
{
    match store.propose(alloc, batch) {
        Ok(proofs) => Ok(proofs),
        Err(fault) => {
            if is_store_memory(&fault) {
                return Err(AllocError);
            }
            unreachable!()
        }
    }
}

/// Installs the entry's version.
pub(crate) fn install(alloc: Global, store: &mut Store, entry: &Entry) -> Result<(), AllocError>
    requires { IsOk (install_of store.old entry.now.rec entry.now.signature) }
    ensures { OnOk result (install_of store.old entry.now.rec entry.now.signature
        ≡ Ok store.new) }
{
    match store.install(alloc, &entry.rec, entry.signature.as_slice()) {
        Ok(()) => Ok(()),
        Err(fault) => {
            if is_store_memory(&fault) {
                return Err(AllocError);
            }
            unreachable!()
        }
    }
}

/// The store's reply.
pub(crate) fn answer(alloc: Global, store: &Store, query: &QueryText) -> Result<Vec<u8>, AllocError>
    requires { IsOk (answer_of store.now (query_of query.now)) }
    ensures { IfOk result (λ reply. answer_of store.now (query_of query.now) ≡ Ok reply.items) }
{
    match store.answer(alloc, query) {
        Ok(reply) => Ok(reply),
        Err(fault) => {
            if is_store_memory(&fault) {
                return Err(AllocError);
            }
            unreachable!()
        }
    }
}

/// The owner's step by the batch, whose proofs these are.
pub(crate) fn step(
    alloc: Global,
    owner: &Owner,
    batch: &Batch,
    proofs: &[u8],
) -> Result<Step, AllocError>
    requires fits { FitsBatch batch.now.commands }
    requires left { owner.now.roots.version + 1 < secret_leaves owner.now.key }
    requires leads { (next : PlainRoots)
        × NextOf owner.now.roots batch.now.commands proofs.now (Ok next) }
    ensures step { IfOk result (λ step.
        StepOf owner.now.key owner.now.roots batch.now.commands proofs.now (Ok step)) }
    ensures next { IfOk result (λ step. IsNextEntry (public_of_secret owner.now.key)
        owner.now.roots step.entry step.roots) }
    ensures catalog { IfOk result (λ step. FitsCatalog step.roots.catalog) }
    ensures fits { IfOk result (λ step. FitsEntry step.entry) }
{
    match owner.step(alloc, batch, proofs) {
        Ok(step) => Ok(step),
        Err(fault) => {
            if is_owner_memory(&fault) {
                return Err(AllocError);
            }
            unreachable!()
        }
    }
}
