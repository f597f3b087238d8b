//! Answers to proposals and installs.
ghost use Rattle.std.specs.Prelude.{◌≡◌, None, Some, option_map, IfOk, IfSome, OnOk, OnErr};
ghost use Rattle.std.specs.Option.{option_map_or};
ghost use Rattle.vo_spec.specs.Batches.{FitsBatch};
ghost use Rattle.batch_format.specs.BatchReading.{batch_of};
ghost use Rattle.store_requests.specs.Bodies.{install_in};
ghost use Rattle.vo_wire.specs.Answering.{FitsFrame, frame_answer, proposal_answer, after_proposal, install_answer, after_install};

use crate::answers::refusal_by;
use link_frames::{Frame, FrameKind};
use std::alloc::{AllocError, Global};
use store_requests::{SignedBody, read_install, read_proposal};
use vo_spec::{Batch, u64_bytes};
use vo_store::{Store, StoreFault};

/// The answer to the proposal that a body is; none where it is no batch.
pub(crate) fn answer_proposal(
    alloc: Global,
    store: &mut Store,
    body: &[u8],
) -> Result<Option<Frame>, AllocError>
    ensures answer { IfOk result (λ answer. frame_answer answer
        ≡ option_map (proposal_answer store.old) (batch_of body.now)) }
    ensures fits { IfOk result FitsFrame }
    ensures next { IfOk result (λ answer. IfSome answer (λ _. store.new
        ≡ option_map_or (after_proposal store.old) (batch_of body.now) store.old)) }
    ensures none { IfOk result (λ answer. answer ≡ None → store.new ≡ store.old) }
    ensures err { OnErr result (store.new ≡ store.old) }
{
    match read_proposal(alloc, body) {
        Ok(Some(batch)) => propose(alloc, store, &batch),
        Ok(None) => Ok(None),
        Err(error) => Err(error),
    }
}

/// Proposes a batch: its proofs are the answer, also where a command is refused.
fn propose(alloc: Global, store: &mut Store, batch: &Batch) -> Result<Option<Frame>, AllocError>
    requires { FitsBatch batch.now.commands }
    ensures answer { IfOk result
        (λ answer. frame_answer answer ≡ Some (proposal_answer store.old batch.now.commands)) }
    ensures fits { IfOk result FitsFrame }
    ensures next { OnOk result (store.new ≡ after_proposal store.old batch.now.commands) }
    ensures err { OnErr result (store.new ≡ store.old) }
{
    match store.propose(alloc, batch) {
        Ok(body) => Ok(Some(Frame {
            kind: FrameKind::Proofs,
            body,
        })),
        Err(StoreFault::Command { proofs, .. }) => Ok(Some(Frame {
            kind: FrameKind::Proofs,
            body: proofs.into_vec(),
        })),
        Err(fault) => refusal_by(alloc, fault),
    }
}

/// The answer to the install that a body is; none where it is no record with a signature.
pub(crate) fn answer_install(
    alloc: Global,
    store: &mut Store,
    body: &[u8],
) -> Result<Option<Frame>, AllocError>
    ensures answer { IfOk result (λ answer. frame_answer answer
        ≡ option_map (install_answer store.old) (install_in body.now)) }
    ensures fits { IfOk result FitsFrame }
    ensures next { IfOk result (λ answer. IfSome answer (λ _. store.new
        ≡ option_map_or (after_install store.old) (install_in body.now) store.old)) }
    ensures none { IfOk result (λ answer. answer ≡ None → store.new ≡ store.old) }
    ensures err { OnErr result (store.new ≡ store.old) }
{
    match read_install(body) {
        Some(signed) => install(alloc, store, &signed),
        None => Ok(None),
    }
}

/// Installs a version. The answer's memory is taken before the store changes.
fn install(
    alloc: Global,
    store: &mut Store,
    signed: &SignedBody<'_>,
) -> Result<Option<Frame>, AllocError>
    ensures answer { IfOk result (λ answer. frame_answer answer
        ≡ Some (install_answer store.old (signed.now.rec, signed.now.signature.now))) }
    ensures fits { IfOk result FitsFrame }
    ensures next { OnOk result
        (store.new ≡ after_install store.old (signed.now.rec, signed.now.signature.now)) }
    ensures err { OnErr result (store.new ≡ store.old) }
{
    let body = Vec::from_slice(alloc, &u64_bytes(signed.rec.version))?;
    match store.install(alloc, &signed.rec, signed.signature) {
        Ok(()) => Ok(Some(Frame {
            kind: FrameKind::Installed,
            body,
        })),
        Err(fault) => refusal_by(alloc, fault),
    }
}
