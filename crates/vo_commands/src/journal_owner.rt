//! The owner of a key with its journal on a disk, as a session sees it.
ghost use Rattle.std.specs.Prelude.{◌≡◌, ◌+◌, ◌<◌, ◌≤◌, ◌^◌, ◌++◌, ◌∷◌, [], length, slice_get, IfOk, IfSome, IsErrOf, OnOk, OnErr};
ghost use Rattle.outside.specs.FaultRose.{FaultRose};
ghost use Rattle.outside.specs.Moments.{IfKnown, LeavesOnly};
ghost use Rattle.vo_spec.specs.Batches.{FitsBatch};
ghost use Rattle.vo_spec.specs.Journals.{FitsEntry};
ghost use Rattle.owner_journal.specs.Entries.{entries_of};
ghost use Rattle.owner_journal.specs.Resting.{HoldsWith, IsAtRest};
ghost use Rattle.owner_session.specs.Runs.{KeepsBy};
ghost use Rattle.vo_commands.specs.Committing.{AreOfVersions, CanGoOn, Follows, IsJudgement, LeavesWith, entry_forms, held_behind, place_beside, place_by};

use crate::owner_refusals::owner_refusal;
use batch_format::batch_bytes;
use outside::Disk;
use owner_journal::{Journal, JournalFault};
use owner_roots::OwnerFault;
use owner_session::{NoAppend, NoStep, Place, Refusal, RefusalCause, SessionOwner};
use owner_state::{Owner as KeyOwner, Step};
use std::alloc::{AllocError, Global};
use std::marker::PhantomData;
use store_requests::{install_body, read_standing};
use vo_spec::{Batch, Entry, Record};
use vo_wire::Loan;

/// A disk that is lent.
#[derive(Drop)]
pub struct LentDisk<'a, D: Disk> {
    pub disk: &'a mut D,
}

/// An owner behind the last entry of its journal, which stands on a disk of this loan.
#[derive(Drop)]
pub struct JournalOwner<'a, D: Disk, K: Loan> {
    pub owner: KeyOwner,
    pub journal: Journal,
    pub lent: LentDisk<'a, D>,
    pub loan: PhantomData<K>,
    ghost same: { lent.disk.ghost_name ≡ K.name },
    ghost count: { length (entries_of journal) ≡ owner.roots.version + 1 },
    ghost versions: { AreOfVersions (entries_of journal) },
}

impl<D: Disk, K: Loan> SessionOwner for JournalOwner<'_, D, K> {
    ghost use Rattle.vo_spec.specs.declared.records.Entry.{Entry};
    ghost use Rattle.owner_state.specs.Held.{Held};

    type Batch = Batch;

    type Step = Step;

    ghost State = { Held };

    ghost Entry = { Entry };

    ghost state = { λ owner. owner.owner };

    ghost entries = { λ owner. entries_of owner.journal };

    ghost forms = { entry_forms };

    ghost CanPropose = { λ batch. FitsBatch batch.commands };

    ghost IsJudgement = { IsJudgement };

    ghost entry_of = { λ step. step.entry };

    ghost next_of = { held_behind };

    ghost Follows = { Follows };

    ghost Works = { λ owner. CanGoOn owner.journal };

    ghost Keeps = { λ owner.
        IfSome (D.drive owner.lent.disk.now) (IsAtRest (entries_of owner.journal)) };

    ghost KeepsWith = { λ owner.
        LeavesWith (D.drive owner.lent.disk.now) (entries_of owner.journal) };

    ghost faults = { λ owner. D.faults owner.lent.disk.now };

    fn entry_count(&self) -> usize {
        self.journal.entries().len()
    }

    fn place(&self, standing: &[u8]) -> Place {
        place_by(self.journal.entries(), standing)
    }

    fn version(&self, index: usize) -> u64 {
        self.journal.entries()[index].rec.version
    }

    fn install_body(&self, alloc: Global, index: usize) -> Result<Vec<u8>, AllocError> {
        entry_install(alloc, &self.journal.entries()[index])
    }

    fn entry_proposal(&self, alloc: Global, index: usize) -> Result<Vec<u8>, AllocError> {
        proposal(alloc, &self.journal.entries()[index].batch)
    }

    fn batch_proposal(&self, alloc: Global, batch: &Batch) -> Result<Vec<u8>, AllocError> {
        proposal(alloc, batch)
    }

    fn step(&self, alloc: Global, batch: &Batch, proofs: &[u8]) -> Result<Step, NoStep> {
        match self.owner.step(alloc, batch, proofs) {
            Ok(step) => Ok(step),
            Err(fault) => Err(owner_refusal(alloc, fault)),
        }
    }

    fn append(&mut self, alloc: Global, step: Step) -> Result<(), NoAppend> {
        match self.lent.append(alloc, &mut self.journal, &step.entry) {
            Ok(()) => {
                self.owner.advance(step);
                // A tree for which there is no memory now is made as it is signed in.
                let _ = self.owner.prepare(alloc);
                Ok(())
            }
            Err(fault) => {
                drop(step);
                Err(fault)
            }
        }
    }
}

impl<D: Disk> LentDisk<'_, D> {
    /// Puts an entry at the end of the journal that stands on the disk.
    fn append(
        &mut self,
        alloc: Global,
        journal: &mut Journal,
        entry: &Entry,
    ) -> Result<(), NoAppend>
        requires fits { FitsEntry entry.now }
        requires count { length (entries_of journal.old) < 2 ^ 32 }
        requires works { CanGoOn journal.old }
        ensures same { self.new.disk.ghost_name ≡ self.old.disk.ghost_name }
        ensures ok { OnOk result (entries_of journal.new
            ≡ entries_of journal.old ++ entry.now ∷ []) }
        ensures err { OnErr result (entries_of journal.new ≡ entries_of journal.old) }
        ensures works { OnOk result (CanGoOn journal.new) }
        ensures keeps { IfSome (D.drive self.old.disk.now) (IsAtRest (entries_of journal.old))
            → KeepsBy result
            (IfSome (D.drive self.new.disk.now) (IsAtRest (entries_of journal.new)))
            (LeavesWith (D.drive self.new.disk.now) (entries_of journal.new) entry.now) }
        ensures counts { D.faults self.old.disk.now ≤ D.faults self.new.disk.now }
        ensures cause { IsErrOf result NoAppend.Disk
            → FaultRose (D.faults self.old.disk.now) (D.faults self.new.disk.now) }
        ensures quiet { (IsErrOf result NoAppend.Disk → ⊥)
            → D.faults self.new.disk.now ≡ D.faults self.old.disk.now }
    {
        append_entry(alloc, journal, self.disk, entry)
    }
}

/// The same on a disk that is at hand.
pub fn append_entry<D: Disk>(
    alloc: Global,
    journal: &mut Journal,
    disk: &mut D,
    entry: &Entry,
) -> Result<(), NoAppend>
    requires fits { FitsEntry entry.now }
    requires count { length (entries_of journal.old) < 2 ^ 32 }
    requires works { CanGoOn journal.old }
    ensures ok { OnOk result (entries_of journal.new
        ≡ entries_of journal.old ++ entry.now ∷ []) }
    ensures err { OnErr result (entries_of journal.new ≡ entries_of journal.old) }
    ensures works { OnOk result (CanGoOn journal.new) }
    ensures keeps { IfSome (D.drive disk.old) (IsAtRest (entries_of journal.old))
        → KeepsBy result (IfSome (D.drive disk.new) (IsAtRest (entries_of journal.new)))
        (LeavesWith (D.drive disk.new) (entries_of journal.new) entry.now) }
    ensures any_moment { IfKnown (D.drive disk.old) (D.drive disk.new)
        (λ before after. IsAtRest (entries_of journal.old) before
        → LeavesOnly before after (HoldsWith (entries_of journal.old) entry.now)) }
    ensures counts { D.faults disk.old ≤ D.faults disk.new }
    ensures cause { IsErrOf result NoAppend.Disk
        → FaultRose (D.faults disk.old) (D.faults disk.new) }
    ensures quiet { (IsErrOf result NoAppend.Disk → ⊥) → D.faults disk.new ≡ D.faults disk.old }
{
    match journal.append(alloc, disk, entry) {
        Ok(()) => Ok(()),
        Err(JournalFault::Disk) => Err(NoAppend::Disk),
        Err(JournalFault::Memory) => Err(NoAppend::Memory),
        Err(JournalFault::Damaged { .. }) => unreachable!(),
    }
}

/// Where a store stands that answers with this standing.
fn place_by(entries: &[Entry], standing: &[u8]) -> Place
    ensures { result ≡ place_by entries.now standing.now }
{
    match read_standing(standing) {
        None => Place::NoStanding,
        Some(None) => Place::Holds { count: 0 },
        Some(Some(rec)) => place_of_record(entries, &rec),
    }
}

fn place_of_record(entries: &[Entry], rec: &Record) -> Place
    ensures { result ≡ place_beside rec.now (slice_get entries.now rec.now.version) }
{
    match entries.get(rec.version as usize) {
        Some(entry) if entry.rec == *rec => Place::Holds {
            count: rec.version as usize + 1,
        },
        Some(_) => Place::Elsewhere,
        None => Place::Elsewhere,
    }
}

/// The body that installs an entry's record.
fn entry_install(alloc: Global, entry: &Entry) -> Result<Vec<u8>, AllocError>
    requires { FitsEntry entry.now }
    ensures body { IfOk result (λ body. body.items ≡ entry_forms.install entry.now) }
    ensures fits { IfOk result (λ body. length body.items + 1 < 2 ^ 32) }
{
    install_body(alloc, &entry.rec, entry.signature.as_slice())
}

/// The body that proposes a batch.
fn proposal(alloc: Global, batch: &Batch) -> Result<Vec<u8>, AllocError>
    requires { FitsBatch batch.now.commands }
    ensures body { IfOk result (λ body. body.items ≡ entry_forms.proposal batch.now) }
    ensures fits { IfOk result (λ body. length body.items + 1 < 2 ^ 32) }
{
    batch_bytes(alloc, batch)
}
