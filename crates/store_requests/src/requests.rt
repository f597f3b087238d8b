//! Requests of clients and owners, each one frame and its answer.
ghost use Rattle.std.specs.Prelude.{◌≡◌, ◌+◌, ◌<◌, ◌≤◌, ◌^◌, [], length, Some, IsErrOf};
ghost use Rattle.outside.specs.ConnectionModel.{ConnectionModel};
ghost use Rattle.vo_spec.specs.Batches.{FitsBatch, batch_bytes};
ghost use Rattle.vo_spec.specs.Journals.{max_signature};
ghost use Rattle.link_frames.specs.declared.frame_kind.FrameKind.TheVariants.{Query, Status, Propose, Install};
ghost use Rattle.link_frames.specs.declared.awaits.Awaits.TheVariants as awaits;
ghost use Rattle.link_frames.specs.Frames.{frame_bytes, first_frame, max_query};
ghost use Rattle.link_frames.specs.Reading.{KeepsLinkCounts};
ghost use Rattle.connections.specs.Requesting.{Requests, answer_in};
ghost use Rattle.store_requests.specs.Bodies.{install_bytes, standing_in, version_in};
ghost use Rattle.store_requests.specs.Answers.{or_bad_frame, standing_answer, version_answer};

use crate::bodies::{install_body, read_standing, read_version};
use batch_format::batch_bytes;
use connections::{WireFault, answer_body};
use link_frames::{Awaits, FrameKind};
use outside::Link;
use std::alloc::Global;
use vo_spec::{Batch, Record};

/// Asks a query, given as text: the reply, as bytes, which are the client's to check.
pub fn ask_link<L: Link>(alloc: Global, link: &mut L, text: &[u8]) -> Result<Vec<u8>, WireFault>
    requires some { 1 ≤ length text.now }
    requires fits { length text.now ≤ max_query }
    ensures known { (before : ConnectionModel) → L.wire link.old ≡ Some before
        → Requests (λ bytes. bytes.items) (frame_bytes Query text.now)
        (first_frame awaits.Reply before.coming)
        (answer_in (first_frame awaits.Reply before.coming)) result before (L.wire link.new) }

    ensures counts { KeepsLinkCounts L.wire L.faults L.misses link.old link.new
        (IsErrOf result WireFault.LinkFault) }
{
    answer_body(alloc, link, FrameKind::Query, text, Awaits::Reply)
}

/// Asks which record the store stands at; none where it has installed no version.
pub fn status_link<L: Link>(alloc: Global, link: &mut L) -> Result<Option<Record>, WireFault>
    ensures known { (before : ConnectionModel) → L.wire link.old ≡ Some before
        → Requests (λ standing. standing) (frame_bytes Status [])
        (first_frame awaits.Standing before.coming)
        (standing_answer (first_frame awaits.Standing before.coming)) result before
        (L.wire link.new) }

    ensures counts { KeepsLinkCounts L.wire L.faults L.misses link.old link.new
        (IsErrOf result WireFault.LinkFault) }
{
    match answer_body(alloc, link, FrameKind::Status, &[], Awaits::Standing) {
        Ok(body) => standing_answer(&body),
        Err(fault) => Err(fault),
    }
}

/// Proposes a batch: its proofs, as bytes, which are the owner's to check.
pub fn propose_link<L: Link>(
    alloc: Global,
    link: &mut L,
    batch: &Batch,
) -> Result<Vec<u8>, WireFault>
    requires { FitsBatch batch.now.commands }
    ensures known { (before : ConnectionModel) → L.wire link.old ≡ Some before
        → Requests (λ bytes. bytes.items) (frame_bytes Propose (batch_bytes batch.now.commands))
        (first_frame awaits.Proofs before.coming)
        (answer_in (first_frame awaits.Proofs before.coming)) result before (L.wire link.new) }

    ensures counts { KeepsLinkCounts L.wire L.faults L.misses link.old link.new
        (IsErrOf result WireFault.LinkFault) }
{
    match batch_bytes(alloc, batch) {
        Ok(body) => answer_body(alloc, link, FrameKind::Propose, &body, Awaits::Proofs),
        Err(_) => Err(WireFault::Memory),
    }
}

/// Installs the version of a record that the owner has signed: the version that the store then says
/// it has installed.
pub fn install_link<L: Link>(
    alloc: Global,
    link: &mut L,
    rec: &Record,
    signature: &[u8],
) -> Result<u64, WireFault>
    requires { length signature.now ≤ max_signature }
    ensures known { (before : ConnectionModel) → L.wire link.old ≡ Some before
        → Requests (λ version. version) (frame_bytes Install (install_bytes rec.now signature.now))
        (first_frame awaits.Installed before.coming)
        (version_answer (first_frame awaits.Installed before.coming)) result before
        (L.wire link.new) }

    ensures counts { KeepsLinkCounts L.wire L.faults L.misses link.old link.new
        (IsErrOf result WireFault.LinkFault) }
{
    match install_body(alloc, rec, signature) {
        Ok(body) => request_install(alloc, link, &body),
        Err(_) => Err(WireFault::Memory),
    }
}

/// Puts the request to install that this body is.
fn request_install<L: Link>(alloc: Global, link: &mut L, body: &[u8]) -> Result<u64, WireFault>
    requires { length body.now + 1 < 2 ^ 32 }
    ensures known { (before : ConnectionModel) → L.wire link.old ≡ Some before
        → Requests (λ version. version) (frame_bytes Install body.now)
        (first_frame awaits.Installed before.coming)
        (version_answer (first_frame awaits.Installed before.coming)) result before
        (L.wire link.new) }

    ensures counts { KeepsLinkCounts L.wire L.faults L.misses link.old link.new
        (IsErrOf result WireFault.LinkFault) }
{
    match answer_body(alloc, link, FrameKind::Install, body, Awaits::Installed) {
        Ok(answer) => version_answer(&answer),
        Err(fault) => Err(fault),
    }
}

/// The record that an answer says, or that its body says none.
fn standing_answer(body: &[u8]) -> Result<Option<Record>, WireFault>
    requires { length body.now + 1 < 2 ^ 32 }
    ensures { result ≡ or_bad_frame body.now (standing_in body.now) }
{
    or_bad_frame(body, read_standing(body))
}

/// The version that an answer says, or that its body says none.
fn version_answer(body: &[u8]) -> Result<u64, WireFault>
    requires { length body.now + 1 < 2 ^ 32 }
    ensures { result ≡ or_bad_frame body.now (version_in body.now) }
{
    or_bad_frame(body, read_version(body))
}

/// What a body was read as; one that is none of its kind is a bad frame.
fn or_bad_frame<T: Drop>(body: &[u8], found: Option<T>) -> Result<T, WireFault>
    requires { length body.now + 1 < 2 ^ 32 }
    ensures { result ≡ or_bad_frame body.now found }
{
    match found {
        Some(found) => Ok(found),
        None => Err(WireFault::BadFrame {
            length: body.len() as u32 + 1,
        }),
    }
}
