//! Checking the reply of a store as it comes, over a network.
ghost use Rattle.std.specs.Prelude.{◌≡◌, ◌+◌, ◌<◌, ◌≤◌, ◌^◌, [], length, Some, IsTrue, IfOk, OnOk, IsErrOf, Ok};
ghost use Rattle.outside.specs.ConnectionModel.{ConnectionModel, has_next};
ghost use Rattle.link_frames.specs.Reading.{KeepsNetCounts};
ghost use Rattle.link_frames.specs.Frames.{max_query};
ghost use Rattle.connections.specs.Fetching.{Fetches};
ghost use Rattle.vo_check.specs.Checkings.{with_piece};
ghost use Rattle.vo_commands.specs.Expected.{AsksOnly, question_frame, with_reply};
ghost use Rattle.vo_commands.specs.Reports.{GoesOn, StopsWithout, FailsOutside};

use crate::piece::Word;
use crate::refusals::{line_report, refusal_report};
use crate::report::{Status, Stop};
use outside::Net;
use std::alloc::{AllocError, Global};
use vo_check::Checking;
use vo_wire::{WireFault, fetch_at_into, fetch_into};

/// Feeds a check that has no bytes yet with the reply to its query, given as text, of the store at
/// this address, which is asked for a version, or for none.
pub fn feed_reply<N: Net>(
    alloc: Global,
    net: &mut N,
    address: &str,
    at: Option<u64>,
    query: &str,
    checking: &mut Checking<'_>,
) -> Result<(), Stop>
    requires new { checking.old.bytes ≡ [] }
    requires some { 1 ≤ length query.now }
    requires fits { length query.now ≤ max_query }
    ensures known { (before : ConnectionModel) → N.wire net.old ≡ Some before
        → GoesOn (λ _. checking.new.bytes) (with_reply (Some before.queue)) result }
    ensures asks { (before : ConnectionModel) → N.wire net.old ≡ Some before
        → AsksOnly (question_frame at query.now) before (N.wire net.new) }
    ensures short { OnOk result (length checking.new.bytes < 2 ^ 32) }
    ensures query { checking.new.query ≡ checking.old.query }

    ensures counts { KeepsNetCounts N.wire N.faults N.misses net.old net.new
        (FailsOutside result) }
{
    match fetch_reply(alloc, net, address, at, query, checking) {
        Ok(()) => Ok(()),
        Err(fault) => Err(stop_without(alloc, fault)?),
    }
}

/// Feeds the check with the reply as it comes.
fn fetch_reply<N: Net>(
    alloc: Global,
    net: &mut N,
    address: &str,
    at: Option<u64>,
    query: &str,
    checking: &mut Checking<'_>,
) -> Result<(), WireFault>
    requires some { 1 ≤ length query.now }
    requires fits { length query.now ≤ max_query }
    ensures known { (before : ConnectionModel) → N.wire net.old ≡ Some before
        → Fetches (λ reply. checking.new ≡ with_piece checking.old reply)
        (question_frame at query.now) result before (N.wire net.new) }
    ensures short { OnOk result
        (length checking.new.bytes + 1 < length checking.old.bytes + 2 ^ 32) }
    ensures query { checking.new.query ≡ checking.old.query }

    ensures counts { KeepsNetCounts N.wire N.faults N.misses net.old net.new
        (IsErrOf result WireFault.LinkFault) }
{
    let text = query.as_bytes();
    match at {
        None => fetch_into(alloc, net, address, text, checking),
        Some(version) => fetch_at_into(alloc, net, address, version, text, checking),
    }
}

/// What the program ends with where there is no reply.
fn stop_without(alloc: Global, fault: WireFault) -> Result<Stop, AllocError>
    ensures stops { IfOk result (λ stop. StopsWithout fault stop) }
    ensures told { fault ≡ WireFault.LinkFault → result ≡ Ok Stop.Outside }
{
    let report = match fault {
        WireFault::BadFrame { length } => {
            let words = [Word::Number(length as u64)];
            line_report(alloc, Status::BadAnswer, "bad frame", &words)?
        }
        WireFault::Cut { got } => {
            let words = [Word::Number(got as u64)];
            line_report(alloc, Status::BadAnswer, "cut", &words)?
        }
        WireFault::Refused { code } => {
            let words = [Word::Phrase("store"), Word::Number(code as u64)];
            refusal_report(alloc, Status::RefusedReply, &words)?
        }
        WireFault::LinkFault => return Ok(Stop::Outside),
        WireFault::Memory => return Ok(Stop::Memory),
    };
    Ok(Stop::Refused(report))
}
