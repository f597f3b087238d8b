//! Asking a store, with the reply checked as it comes.
ghost use Rattle.std.specs.Prelude.{◌≡◌, ◌+◌, ◌<◌, ◌≤◌, ◌^◌, length, Some, IsTrue, OnOk, IsErrOf};
ghost use Rattle.outside.specs.ConnectionModel.{ConnectionModel, has_next};
ghost use Rattle.link_frames.specs.declared.awaits.Awaits.TheVariants.{Reply};
ghost use Rattle.link_frames.specs.declared.frame_kind.FrameKind.TheVariants.{Query, QueryAt};
ghost use Rattle.link_frames.specs.Frames.{frame_bytes, first_frame, max_query};
ghost use Rattle.link_frames.specs.Reading.{KeepsLinkCounts, KeepsNetCounts};
ghost use Rattle.connections.specs.Requesting.{RequestsInto};
ghost use Rattle.connections.specs.Fetching.{Fetches};
ghost use Rattle.store_requests.specs.Bodies.{query_at_bytes};
ghost use Rattle.vo_check.specs.Checkings.{with_piece};

use crate::feeder::Feeder;
use connections::{WireFault, answer_into};
use link_frames::{Awaits, FrameKind};
use outside::{Link, Net};
use std::alloc::Global;
use store_requests::query_at_body;
use vo_check::Checking;

/// Asks a query, given as text, and feeds the check with each piece of the reply as it comes; a
/// piece that finds no memory ends it. How much was fed before an error is open.
pub fn ask_into<L: Link>(
    alloc: Global,
    link: &mut L,
    text: &[u8],
    checking: &mut Checking<'_>,
) -> Result<(), WireFault>
    requires some { 1 ≤ length text.now }
    requires fits { length text.now ≤ max_query }
    ensures known { (before : ConnectionModel) → L.wire link.old ≡ Some before
        → RequestsInto (λ reply. checking.new ≡ with_piece checking.old reply)
        (frame_bytes Query text.now) (first_frame Reply before.coming) result before
        (L.wire link.new) }
    ensures short { OnOk result
        (length checking.new.bytes + 1 < length checking.old.bytes + 2 ^ 32) }
    ensures query { checking.new.query ≡ checking.old.query }

    ensures counts { KeepsLinkCounts L.wire L.faults L.misses link.old link.new
        (IsErrOf result WireFault.LinkFault) }
{
    let mut feeder = Feeder { alloc, checking };
    answer_into(link, FrameKind::Query, text, Awaits::Reply, &mut feeder)
}

/// The same of this version, also where the store has installed later ones. Which version the reply
/// is of shows once it is checked.
pub fn ask_at_into<L: Link>(
    alloc: Global,
    link: &mut L,
    version: u64,
    text: &[u8],
    checking: &mut Checking<'_>,
) -> Result<(), WireFault>
    requires some { 1 ≤ length text.now }
    requires fits { length text.now ≤ max_query }
    ensures known { (before : ConnectionModel) → L.wire link.old ≡ Some before
        → RequestsInto (λ reply. checking.new ≡ with_piece checking.old reply)
        (frame_bytes QueryAt (query_at_bytes version text.now)) (first_frame Reply before.coming)
        result before (L.wire link.new) }
    ensures short { OnOk result
        (length checking.new.bytes + 1 < length checking.old.bytes + 2 ^ 32) }
    ensures query { checking.new.query ≡ checking.old.query }

    ensures counts { KeepsLinkCounts L.wire L.faults L.misses link.old link.new
        (IsErrOf result WireFault.LinkFault) }
{
    let mut feeder = Feeder { alloc, checking };
    match query_at_body(alloc, version, text) {
        Ok(body) => answer_into(link, FrameKind::QueryAt, &body, Awaits::Reply, &mut feeder),
        Err(_) => Err(WireFault::Memory),
    }
}

/// Asks a query over a connection that is made to this address, which stays as it is afterwards,
/// and feeds the check likewise.
pub fn fetch_into<N: Net>(
    alloc: Global,
    net: &mut N,
    address: &str,
    text: &[u8],
    checking: &mut Checking<'_>,
) -> Result<(), WireFault>
    requires some { 1 ≤ length text.now }
    requires fits { length text.now ≤ max_query }
    ensures known { (before : ConnectionModel) → N.wire net.old ≡ Some before
        → Fetches (λ reply. checking.new ≡ with_piece checking.old reply)
        (frame_bytes Query text.now) result before (N.wire net.new) }
    ensures short { OnOk result
        (length checking.new.bytes + 1 < length checking.old.bytes + 2 ^ 32) }
    ensures query { checking.new.query ≡ checking.old.query }

    ensures counts { KeepsNetCounts N.wire N.faults N.misses net.old net.new
        (IsErrOf result WireFault.LinkFault) }
{
    let mut feeder = Feeder { alloc, checking };
    connections::fetch_into(net, address, text, &mut feeder)
}

/// The same of this version.
pub fn fetch_at_into<N: Net>(
    alloc: Global,
    net: &mut N,
    address: &str,
    version: u64,
    text: &[u8],
    checking: &mut Checking<'_>,
) -> Result<(), WireFault>
    requires some { 1 ≤ length text.now }
    requires fits { length text.now ≤ max_query }
    ensures known { (before : ConnectionModel) → N.wire net.old ≡ Some before
        → Fetches (λ reply. checking.new ≡ with_piece checking.old reply)
        (frame_bytes QueryAt (query_at_bytes version text.now)) result before (N.wire net.new) }
    ensures short { OnOk result
        (length checking.new.bytes + 1 < length checking.old.bytes + 2 ^ 32) }
    ensures query { checking.new.query ≡ checking.old.query }

    ensures counts { KeepsNetCounts N.wire N.faults N.misses net.old net.new
        (IsErrOf result WireFault.LinkFault) }
{
    match net.connect(address) {
        Ok(()) => ask_at_into(alloc, net, version, text, checking),
        Err(_) => Err(WireFault::LinkFault),
    }
}
