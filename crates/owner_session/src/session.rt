//! A whole session, with its exit status.
ghost use Rattle.std.specs.Prelude.{◌≡◌, ◌≢◌, ◌≤◌, ◌⊎◌, ◌++◌, map, All, Some};
ghost use Rattle.outside.specs.ConnectionModel.{ConnectionModel};
ghost use Rattle.outside.specs.FaultRose.{FaultRose};
ghost use Rattle.link_frames.specs.Reading.{StaysWhereItStands};
ghost use Rattle.owner_session.specs.Runs.{RunsTo, UnlessDisk, snapshot_of, continuation};
ghost use Rattle.owner_session.specs.Faults.{CountsFaults};
ghost use Rattle.owner_session.specs.SessionWork.{session_on};
ghost use Rattle.owner_session.specs.Requests.{PutsRequests};
ghost use Rattle.owner_session.specs.Sessions.{SessionRuns, SessionIsDone};

use crate::catch_up::catch_up;
use crate::commit::commit_batches;
use crate::session_owner::SessionOwner;
use crate::stop::SessionStop;
use outside::{Link, Sink, write_output};
use std::alloc::Global;

/// Gives the store at the other end what it lacks of the owner's journal, and commits the batches;
/// for each a line goes to `out`. Returns the exit status: 0 only where all is done.
pub fn run_session<O: SessionOwner, L: Link, S: Sink>(
    alloc: Global,
    owner: &mut O,
    batches: &[O::Batch],
    link: &mut L,
    out: &mut S,
) -> u8
    requires batches { All O.CanPropose batches.now }
    requires works { O.Works owner.old }
    ensures known { (before : ConnectionModel) → L.wire link.old ≡ Some before
        → (after : ConnectionModel) × (L.wire link.new ≡ Some after)
        × SessionRuns O.forms O.IsJudgement batches.now
        (FaultRose (L.faults link.old) (L.faults link.new))
        (FaultRose (O.faults owner.old) (O.faults owner.new))
        (FaultRose (S.faults out.old) (S.faults out.new))
        (O.Keeps owner.old → O.Keeps owner.new)
        (λ entry. O.Keeps owner.old → O.KeepsWith owner.new entry) result
        (snapshot_of before (S.written out.old) (O.state owner.old) (O.entries owner.old))
        (snapshot_of after (S.written out.new) (O.state owner.new) (O.entries owner.new)) }

    // What is put is requests: none proposes but these batches and the journal's, and none installs
    // but an entry that the journal has, also where the disk failed.
    ensures puts_requests { (before : ConnectionModel) → L.wire link.old ≡ Some before
        → (after : ConnectionModel) × (L.wire link.new ≡ Some after)
        × PutsRequests O.forms (map O.forms.batch (O.entries owner.old) ++ batches.now)
        (O.entries owner.new) before after }

    // A status of 0 comes only where all is done.
    ensures done { result ≡ 0 → (before : ConnectionModel) → L.wire link.old ≡ Some before
        → (after : ConnectionModel) × (L.wire link.new ≡ Some after)
        × SessionIsDone O.forms O.IsJudgement batches.now
        (snapshot_of before (S.written out.old) (O.state owner.old) (O.entries owner.old))
        (snapshot_of after (S.written out.new) (O.state owner.new) (O.entries owner.new)) }

    // A status of 3 comes only where the outside failed, whether or not its contents are known.
    ensures outside { result ≡ 3 → FaultRose (L.faults link.old) (L.faults link.new)
        ⊎ FaultRose (O.faults owner.old) (O.faults owner.new)
        ⊎ FaultRose (S.faults out.old) (S.faults out.new) }
    ensures misses { StaysWhereItStands (L.wire link.old) (L.misses link.old) (L.misses link.new) }

    // Where something failed, the status says so, or that memory ran out.
    ensures quiet { result ≢ 3 → result ≢ 4 → (L.faults link.new ≡ L.faults link.old)
        × (O.faults owner.new ≡ O.faults owner.old) × (S.faults out.new ≡ S.faults out.old) }
    ensures link_counts { L.faults link.old ≤ L.faults link.new }
    ensures disk_counts { O.faults owner.old ≤ O.faults owner.new }
    ensures out_counts { S.faults out.old ≤ S.faults out.new }
{
    match do_session(alloc, owner, batches, link, out) {
        Ok(()) => 0,
        Err(SessionStop::Refused(report)) => write_output(out, report.status.code(), &report.bytes),
        Err(SessionStop::LinkFault) => write_output(out, 3, b"fault: outside\n"),
        Err(SessionStop::DiskFault) => write_output(out, 3, b"fault: outside\n"),
        Err(SessionStop::OutputFault) => 3,
        Err(SessionStop::Memory) => 4,
    }
}

fn do_session<O: SessionOwner, L: Link, S: Sink>(
    alloc: Global,
    owner: &mut O,
    batches: &[O::Batch],
    link: &mut L,
    out: &mut S,
) -> Result<(), SessionStop>
    requires batches { All O.CanPropose batches.now }
    requires works { O.Works owner.old }
    ensures known { (before : ConnectionModel) → L.wire link.old ≡ Some before
        → RunsTo O.IsJudgement (λ entry. O.Keeps owner.old → O.KeepsWith owner.new entry)
        (session_on O.forms (O.state owner.old) (O.entries owner.old) batches.now)
        (λ _. continuation) result
        (snapshot_of before (S.written out.old) (O.state owner.old) (O.entries owner.old))
        (L.wire link.new) (S.written out.new) (O.state owner.new) (O.entries owner.new) }
    ensures keeps { O.Keeps owner.old → UnlessDisk result (O.Keeps owner.new) }

    ensures faults { CountsFaults result
        (record { link = L.faults link.old; disk = O.faults owner.old; out = S.faults out.old })
        (record { link = L.faults link.new; disk = O.faults owner.new; out = S.faults out.new }) }
    ensures misses { StaysWhereItStands (L.wire link.old) (L.misses link.old) (L.misses link.new) }
{
    match catch_up(alloc, owner, link) {
        Ok(()) => commit_batches(alloc, owner, batches, link, out),
        Err(stop) => Err(stop),
    }
}
