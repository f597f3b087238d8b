//! Installing an entry.
ghost use Rattle.std.specs.Prelude.{◌≡◌, ◌<◌, ◌≤◌, length, slice_get, bytes_eq, Some, IfErr, IsErrOf};
ghost use Rattle.link_frames.specs.Reading.{KeepsLinkCounts};
ghost use Rattle.link_frames.specs.declared.awaits.Awaits.TheVariants.{Installed};
ghost use Rattle.link_frames.specs.declared.frame_kind.FrameKind.TheVariants.{Install};
ghost use Rattle.vo_spec.specs.Bytes.{u64_bytes};
ghost use Rattle.owner_session.specs.Endings.{IsOfLink};
ghost use Rattle.owner_session.specs.SessionWork.{exchange, installation};
ghost use Rattle.owner_session.specs.Runs.{Snapshot, RunsOnWire, ChecksVersion, continuation, continuation_with};

use crate::exchange::exchange;
use crate::lines::stands_elsewhere;
use crate::session_owner::SessionOwner;
use crate::stop::SessionStop;
use link_frames::{Awaits, FrameKind};
use outside::Link;
use std::alloc::Global;
use vo_spec::u64_bytes;

/// Installs the entry of this number. The store is to answer with its version.
pub fn install_entry<O: SessionOwner, L: Link>(
    alloc: Global,
    owner: &O,
    index: usize,
    link: &mut L,
) -> Result<(), SessionStop>
    requires index { index < length (O.entries owner.now) }
    requires works { O.Works owner.now }
    ensures known { (entry : O.Entry) (before : Snapshot O.State O.Entry)
        → slice_get (O.entries owner.now) index ≡ Some entry → L.wire link.old ≡ Some before.wire
        → RunsOnWire O.IsJudgement (installation O.forms entry) (λ _. continuation) result before
        (L.wire link.new) }

    ensures counts { KeepsLinkCounts L.wire L.faults L.misses link.old link.new
        (IsErrOf result SessionStop.LinkFault) }
    ensures inside { IfErr result IsOfLink }
{
    match put_install(alloc, owner, index, link) {
        Ok(answer) => check_version(alloc, owner.version(index), &answer),
        Err(stop) => Err(stop),
    }
}

/// Puts the frame that installs an entry, and gives the answer's body.
fn put_install<O: SessionOwner, L: Link>(
    alloc: Global,
    owner: &O,
    index: usize,
    link: &mut L,
) -> Result<Vec<u8>, SessionStop>
    requires index { index < length (O.entries owner.now) }
    requires works { O.Works owner.now }
    ensures known { (entry : O.Entry) (before : Snapshot O.State O.Entry)
        → slice_get (O.entries owner.now) index ≡ Some entry → L.wire link.old ≡ Some before.wire
        → RunsOnWire O.IsJudgement (exchange Install (O.forms.install entry) Installed)
        (λ body. continuation_with body.items) result before (L.wire link.new) }

    ensures counts { KeepsLinkCounts L.wire L.faults L.misses link.old link.new
        (IsErrOf result SessionStop.LinkFault) }
    ensures inside { IfErr result IsOfLink }
{
    match owner.install_body(alloc, index) {
        Ok(body) => exchange(alloc, link, FrameKind::Install, &body, Awaits::Installed),
        Err(_) => Err(SessionStop::Memory),
    }
}

/// Whether an answer is this version.
fn check_version(alloc: Global, version: u64, answer: &[u8]) -> Result<(), SessionStop>
    ensures version { ChecksVersion (bytes_eq answer.now (u64_bytes version)) result }
    ensures inside { IfErr result IsOfLink }
{
    if answer == u64_bytes(version).as_slice() {
        Ok(())
    } else {
        Err(stands_elsewhere(alloc))
    }
}
