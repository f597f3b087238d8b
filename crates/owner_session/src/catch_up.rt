//! Giving a store what it lacks of the journal.
ghost use Rattle.std.specs.Prelude.{◌≡◌, ◌<◌, ◌≤◌, [], ◌+◌, length, drop, slice_get, Some, IfErr, IsErrOf};
ghost use Rattle.link_frames.specs.declared.awaits.Awaits.TheVariants.{Standing};
ghost use Rattle.link_frames.specs.declared.frame_kind.FrameKind.TheVariants.{Status};
ghost use Rattle.link_frames.specs.Reading.{KeepsLinkCounts};
ghost use Rattle.owner_session.specs.Endings.{IsOfLink};
ghost use Rattle.owner_session.specs.SessionWork.{standing, delivery, deliveries, catch_up};
ghost use Rattle.owner_session.specs.Runs.{Snapshot, RunsOnWire, HoldsSome, continuation, continuation_with};

use crate::exchange::exchange;
use crate::install::install_entry;
use crate::lines::{bad_answer, stands_elsewhere};
use crate::place::Place;
use crate::propose::propose_entry;
use crate::session_owner::SessionOwner;
use crate::stop::SessionStop;
use link_frames::{Awaits, FrameKind};
use outside::Link;
use std::alloc::Global;

/// Asks where the store stands, and gives it what it lacks.
pub fn catch_up<O: SessionOwner, L: Link>(
    alloc: Global,
    owner: &O,
    link: &mut L,
) -> Result<(), SessionStop>
    requires { O.Works owner.now }
    ensures known { (before : Snapshot O.State O.Entry) → L.wire link.old ≡ Some before.wire
        → RunsOnWire O.IsJudgement (catch_up O.forms (O.entries owner.now))
        (λ _. continuation) result before (L.wire link.new) }

    ensures counts { KeepsLinkCounts L.wire L.faults L.misses link.old link.new
        (IsErrOf result SessionStop.LinkFault) }
    ensures inside { IfErr result IsOfLink }
{
    match ask_standing(alloc, owner, link) {
        Ok(held) => deliver(alloc, owner, held, link),
        Err(stop) => Err(stop),
    }
}

/// Asks how many entries the store holds.
fn ask_standing<O: SessionOwner, L: Link>(
    alloc: Global,
    owner: &O,
    link: &mut L,
) -> Result<usize, SessionStop>
    ensures known { (before : Snapshot O.State O.Entry) → L.wire link.old ≡ Some before.wire
        → RunsOnWire O.IsJudgement (standing O.forms (O.entries owner.now))
        continuation_with result before (L.wire link.new) }

    ensures counts { KeepsLinkCounts L.wire L.faults L.misses link.old link.new
        (IsErrOf result SessionStop.LinkFault) }
    ensures inside { IfErr result IsOfLink }
{
    match exchange(alloc, link, FrameKind::Status, &[], Awaits::Standing) {
        Ok(body) => count_held(alloc, owner.place(&body), &body),
        Err(stop) => Err(stop),
    }
}

/// How many entries are held by a standing that was answered.
fn count_held(alloc: Global, place: Place, standing: &[u8]) -> Result<usize, SessionStop>
    ensures held { HoldsSome place (length standing.now) result }
    ensures inside { IfErr result IsOfLink }
{
    match place {
        Place::Holds { count } => Ok(count),
        Place::Elsewhere => Err(stands_elsewhere(alloc)),
        Place::NoStanding => Err(bad_answer(alloc, standing.len() as u64 + 1)),
    }
}

/// Gives the store the entries from this one on.
fn deliver<O: SessionOwner, L: Link>(
    alloc: Global,
    owner: &O,
    held: usize,
    link: &mut L,
) -> Result<(), SessionStop>
    requires { O.Works owner.now }
    ensures known { (before : Snapshot O.State O.Entry) → L.wire link.old ≡ Some before.wire
        → RunsOnWire O.IsJudgement (deliveries O.forms held (drop held (O.entries owner.now)))
        (λ _. continuation) result before (L.wire link.new) }

    ensures counts { KeepsLinkCounts L.wire L.faults L.misses link.old link.new
        (IsErrOf result SessionStop.LinkFault) }
    ensures inside { IfErr result IsOfLink }
{
    for index in held..owner.entry_count() {
        match deliver_entry(alloc, owner, index, link) {
            Ok(()) => {}
            Err(stop) => return Err(stop),
        }
    }
    Ok(())
}

/// Gives the store an entry: its batch is proposed, but of the first, and it is installed.
fn deliver_entry<O: SessionOwner, L: Link>(
    alloc: Global,
    owner: &O,
    index: usize,
    link: &mut L,
) -> Result<(), SessionStop>
    requires index { index < length (O.entries owner.now) }
    requires works { O.Works owner.now }
    ensures known { (entry : O.Entry) (before : Snapshot O.State O.Entry)
        → slice_get (O.entries owner.now) index ≡ Some entry → L.wire link.old ≡ Some before.wire
        → RunsOnWire O.IsJudgement (delivery O.forms index entry) (λ _. continuation) result before
        (L.wire link.new) }

    ensures counts { KeepsLinkCounts L.wire L.faults L.misses link.old link.new
        (IsErrOf result SessionStop.LinkFault) }
    ensures inside { IfErr result IsOfLink }
{
    if index == 0 {
        return install_entry(alloc, owner, index, link);
    }
    match propose_entry(alloc, owner, index, link) {
        Ok(_) => install_entry(alloc, owner, index, link),
        Err(stop) => Err(stop),
    }
}
