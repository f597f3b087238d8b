//! Proposing a batch: the store answers with its proofs.
ghost use Rattle.std.specs.Prelude.{◌≡◌, ◌<◌, ◌≤◌, length, slice_get, Some, IfErr, IsErrOf};
ghost use Rattle.link_frames.specs.Reading.{KeepsLinkCounts};
ghost use Rattle.owner_session.specs.Endings.{IsOfLink};
ghost use Rattle.owner_session.specs.SessionWork.{proposal};
ghost use Rattle.owner_session.specs.Runs.{Snapshot, RunsOnWire, continuation_with};

use crate::exchange::exchange;
use crate::session_owner::SessionOwner;
use crate::stop::SessionStop;
use link_frames::{Awaits, FrameKind};
use outside::Link;
use std::alloc::Global;

/// Proposes a batch, and gives the bytes of its proofs.
pub fn propose_batch<O: SessionOwner, L: Link>(
    alloc: Global,
    owner: &O,
    batch: &O::Batch,
    link: &mut L,
) -> Result<Vec<u8>, SessionStop>
    requires { O.CanPropose batch.now }
    ensures known { (before : Snapshot O.State O.Entry) → L.wire link.old ≡ Some before.wire
        → RunsOnWire O.IsJudgement (proposal O.forms batch.now)
        (λ proofs. continuation_with proofs.items) result before (L.wire link.new) }

    ensures counts { KeepsLinkCounts L.wire L.faults L.misses link.old link.new
        (IsErrOf result SessionStop.LinkFault) }
    ensures inside { IfErr result IsOfLink }
{
    match owner.batch_proposal(alloc, batch) {
        Ok(body) => exchange(alloc, link, FrameKind::Propose, &body, Awaits::Proofs),
        Err(_) => Err(SessionStop::Memory),
    }
}

/// Proposes an entry's batch, and gives the bytes of its proofs.
pub fn propose_entry<O: SessionOwner, L: Link>(
    alloc: Global,
    owner: &O,
    index: usize,
    link: &mut L,
) -> Result<Vec<u8>, SessionStop>
    requires index { index < length (O.entries owner.now) }
    requires works { O.Works owner.now }
    ensures known { (entry : O.Entry) (before : Snapshot O.State O.Entry)
        → slice_get (O.entries owner.now) index ≡ Some entry → L.wire link.old ≡ Some before.wire
        → RunsOnWire O.IsJudgement (proposal O.forms (O.forms.batch entry))
        (λ proofs. continuation_with proofs.items) result before (L.wire link.new) }

    ensures counts { KeepsLinkCounts L.wire L.faults L.misses link.old link.new
        (IsErrOf result SessionStop.LinkFault) }
    ensures inside { IfErr result IsOfLink }
{
    match owner.entry_proposal(alloc, index) {
        Ok(body) => exchange(alloc, link, FrameKind::Propose, &body, Awaits::Proofs),
        Err(_) => Err(SessionStop::Memory),
    }
}
