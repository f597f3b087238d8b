//! Committing batches: each is proposed, stepped on, appended, installed and told of.
ghost use Rattle.std.specs.Prelude.{◌≡◌, ◌<◌, ◌-◌, length, slice_get, All, Some, IfOk, OnOk, IsErrOf};
ghost use Rattle.outside.specs.ConnectionModel.{ConnectionModel};
ghost use Rattle.link_frames.specs.Reading.{StaysWhereItStands};
ghost use Rattle.owner_session.specs.Faults.{CountsFaults};
ghost use Rattle.owner_session.specs.SessionWork.{publication, commit, step, batch_commit, commits};
ghost use Rattle.owner_session.specs.Runs.{RunsTo, TakesStep, UnlessDisk, snapshot_of, continuation, continuation_with};

use crate::announce::announce;
use crate::install::install_entry;
use crate::lines::owner_refusal;
use crate::propose::propose_batch;
use crate::refusals::{NoAppend, NoStep};
use crate::session_owner::SessionOwner;
use crate::stop::SessionStop;
use outside::{Link, Sink};
use std::alloc::Global;

/// Commits the batches in order.
pub fn commit_batches<O: SessionOwner, L: Link, S: Sink>(
    alloc: Global,
    owner: &mut O,
    batches: &[O::Batch],
    link: &mut L,
    out: &mut S,
) -> Result<(), SessionStop>
    requires batches { All O.CanPropose batches.now }
    requires works { O.Works owner.old }
    ensures known { (before : ConnectionModel) → L.wire link.old ≡ Some before
        → RunsTo O.IsJudgement (λ entry. O.Keeps owner.old → O.KeepsWith owner.new entry)
        (commits O.forms (O.state owner.old) batches.now) (λ _. continuation) result
        (snapshot_of before (S.written out.old) (O.state owner.old) (O.entries owner.old))
        (L.wire link.new) (S.written out.new) (O.state owner.new) (O.entries owner.new) }
    ensures keeps { O.Keeps owner.old → UnlessDisk result (O.Keeps owner.new) }

    ensures faults { CountsFaults result
        (record { link = L.faults link.old; disk = O.faults owner.old; out = S.faults out.old })
        (record { link = L.faults link.new; disk = O.faults owner.new; out = S.faults out.new }) }
    ensures misses { StaysWhereItStands (L.wire link.old) (L.misses link.old) (L.misses link.new) }
{
    for batch in batches {
        match commit_batch(alloc, owner, batch, link, out) {
            Ok(()) => {}
            Err(stop) => return Err(stop),
        }
    }
    Ok(())
}

/// Proposes a batch, and commits it by the proofs that come.
fn commit_batch<O: SessionOwner, L: Link, S: Sink>(
    alloc: Global,
    owner: &mut O,
    batch: &O::Batch,
    link: &mut L,
    out: &mut S,
) -> Result<(), SessionStop>
    requires batch { O.CanPropose batch.now }
    requires works { O.Works owner.old }
    ensures known { (before : ConnectionModel) → L.wire link.old ≡ Some before
        → RunsTo O.IsJudgement (λ entry. O.Keeps owner.old → O.KeepsWith owner.new entry)
        (batch_commit O.forms (O.state owner.old) batch.now)
        (λ _. continuation_with (O.state owner.new)) result
        (snapshot_of before (S.written out.old) (O.state owner.old) (O.entries owner.old))
        (L.wire link.new) (S.written out.new) (O.state owner.new) (O.entries owner.new) }
    ensures works { OnOk result (O.Works owner.new) }
    ensures keeps { O.Keeps owner.old → UnlessDisk result (O.Keeps owner.new) }

    ensures faults { CountsFaults result
        (record { link = L.faults link.old; disk = O.faults owner.old; out = S.faults out.old })
        (record { link = L.faults link.new; disk = O.faults owner.new; out = S.faults out.new }) }
    ensures misses { StaysWhereItStands (L.wire link.old) (L.misses link.old) (L.misses link.new) }
{
    match propose_batch(alloc, owner, batch, link) {
        Ok(proofs) => commit_by_proofs(alloc, owner, batch, &proofs, link, out),
        Err(stop) => Err(stop),
    }
}

/// Steps on the proofs of a batch, and commits the step.
fn commit_by_proofs<O: SessionOwner, L: Link, S: Sink>(
    alloc: Global,
    owner: &mut O,
    batch: &O::Batch,
    proofs: &[u8],
    link: &mut L,
    out: &mut S,
) -> Result<(), SessionStop>
    requires batch { O.CanPropose batch.now }
    requires works { O.Works owner.old }
    ensures known { (before : ConnectionModel) → L.wire link.old ≡ Some before
        → RunsTo O.IsJudgement (λ entry. O.Keeps owner.old → O.KeepsWith owner.new entry)
        (step O.forms (O.state owner.old) batch.now proofs.now)
        (λ _. continuation_with (O.state owner.new)) result
        (snapshot_of before (S.written out.old) (O.state owner.old) (O.entries owner.old))
        (L.wire link.new) (S.written out.new) (O.state owner.new) (O.entries owner.new) }
    ensures works { OnOk result (O.Works owner.new) }
    ensures keeps { O.Keeps owner.old → UnlessDisk result (O.Keeps owner.new) }

    ensures faults { CountsFaults result
        (record { link = L.faults link.old; disk = O.faults owner.old; out = S.faults out.old })
        (record { link = L.faults link.new; disk = O.faults owner.new; out = S.faults out.new }) }
    ensures misses { StaysWhereItStands (L.wire link.old) (L.misses link.old) (L.misses link.new) }
{
    match take_step(alloc, owner, batch, proofs) {
        Ok(step) => commit_step(alloc, owner, step, link, out),
        Err(stop) => Err(stop),
    }
}

/// What the owner makes of a batch by the proofs that came.
fn take_step<O: SessionOwner>(
    alloc: Global,
    owner: &O,
    batch: &O::Batch,
    proofs: &[u8],
) -> Result<O::Step, SessionStop>
    requires { O.CanPropose batch.now }
    ensures answer { TakesStep (O.IsJudgement (O.state owner.now) batch.now proofs.now) O.entry_of
        (O.next_of (O.state owner.now)) result }
    ensures follows { IfOk result (O.Follows (O.state owner.now)) }
{
    match owner.step(alloc, batch, proofs) {
        Ok(step) => Ok(step),
        Err(NoStep::Refused(refusal)) => Err(owner_refusal(refusal)),
        Err(NoStep::Memory) => Err(SessionStop::Memory),
    }
}

/// Appends the entry of a step, and publishes it only then.
fn commit_step<O: SessionOwner, L: Link, S: Sink>(
    alloc: Global,
    owner: &mut O,
    step: O::Step,
    link: &mut L,
    out: &mut S,
) -> Result<(), SessionStop>
    requires follows { O.Follows (O.state owner.old) step }
    requires works { O.Works owner.old }
    ensures known { (before : ConnectionModel) → L.wire link.old ≡ Some before
        → RunsTo O.IsJudgement (λ entry. O.Keeps owner.old → O.KeepsWith owner.new entry)
        (commit O.forms (O.entry_of step) (O.next_of (O.state owner.old) step))
        (λ _. continuation_with (O.state owner.new)) result
        (snapshot_of before (S.written out.old) (O.state owner.old) (O.entries owner.old))
        (L.wire link.new) (S.written out.new) (O.state owner.new) (O.entries owner.new) }
    ensures works { OnOk result (O.Works owner.new) }
    ensures keeps { O.Keeps owner.old → UnlessDisk result (O.Keeps owner.new) }

    ensures faults { CountsFaults result
        (record { link = L.faults link.old; disk = O.faults owner.old; out = S.faults out.old })
        (record { link = L.faults link.new; disk = O.faults owner.new; out = S.faults out.new }) }
    ensures misses { StaysWhereItStands (L.wire link.old) (L.misses link.old) (L.misses link.new) }
{
    match owner.append(alloc, step) {
        Ok(()) => publish(alloc, owner, link, out),
        Err(NoAppend::Disk) => Err(SessionStop::DiskFault),
        Err(NoAppend::Memory) => Err(SessionStop::Memory),
    }
}

/// Installs the journal's last entry, and writes its version.
fn publish<O: SessionOwner, L: Link, S: Sink>(
    alloc: Global,
    owner: &O,
    link: &mut L,
    out: &mut S,
) -> Result<(), SessionStop>
    requires some { 0 < length (O.entries owner.now) }
    requires works { O.Works owner.now }
    ensures known { (entry : O.Entry) (before : ConnectionModel)
        → slice_get (O.entries owner.now) (length (O.entries owner.now) - 1) ≡ Some entry
        → L.wire link.old ≡ Some before
        → RunsTo O.IsJudgement (λ entry. ⊥) (publication O.forms entry) (λ _. continuation) result
        (snapshot_of before (S.written out.old) (O.state owner.now) (O.entries owner.now))
        (L.wire link.new) (S.written out.new) (O.state owner.now) (O.entries owner.now) }
    ensures inside { IsErrOf result SessionStop.DiskFault → ⊥ }

    ensures faults { CountsFaults result
        (record { link = L.faults link.old; disk = O.faults owner.now; out = S.faults out.old })
        (record { link = L.faults link.new; disk = O.faults owner.now; out = S.faults out.new }) }
    ensures misses { StaysWhereItStands (L.wire link.old) (L.misses link.old) (L.misses link.new) }
{
    let last = owner.entry_count() - 1;
    match install_entry(alloc, owner, last, link) {
        Ok(()) => announce(alloc, owner.version(last), out),
        Err(stop) => Err(stop),
    }
}
