//! The owner of a key behind the last entry of its journal.
ghost use Rattle.std.specs.Prelude.{◌≡◌, ◌<◌, ◌≤◌, [], ◌∷◌, false, length, IfErr, IfOk, IfSome, OnErr, OnOk, Ok};
ghost use Rattle.std.specs.List.{AllByRecursion};
ghost use Rattle.outside.specs.FaultRose.{FaultRose};
ghost use Rattle.outside.specs.Moments.{IfKnown};
ghost use Rattle.vo_spec.specs.Journals.{FitsEntry};
ghost use Rattle.owner_state.specs.Stepping.{AreStepsTo, first_entry};
ghost use Rattle.owner_journal.specs.Entries.{entries_of, has_failed};
ghost use Rattle.owner_journal.specs.Resting.{IsAtRest};
ghost use Rattle.vo_commands.specs.Committing.{CanGoOn};
ghost use Rattle.vo_commands.specs.Owning.{LeavesAsBefore, LeavesAsFound, Opens, StopsAtFault, StopsOpening, StopsReplaying, or_first_entry};
ghost use Rattle.vo_commands.specs.Reports.{StaysInside, FailsOutside};

use crate::journal_owner::append_entry;
use crate::refusals::bad_entry;
use crate::report::Stop;
use lms_sign::SecretKey;
use outside::Disk;
use owner_journal::{Journal, JournalFault};
use owner_session::NoAppend;
use owner_state::{Owner, ReplayFault, replay};
use std::alloc::{AllocError, Global};
use vo_spec::Entry;

/// An owner behind the last entry of its journal.
#[derive(Drop)]
pub struct OpenedJournal {
    pub owner: Owner,
    pub journal: Journal,
}

/// The owner of a key, and its journal on the disk; an empty journal gets the entry of version 0.
pub fn open_owner<D: Disk>(
    alloc: Global,
    key: &SecretKey,
    disk: &mut D,
) -> Result<OpenedJournal, Stop>
    ensures opened { IfOk result (λ opened. Opens key.now (D.drive disk.old) (D.drive disk.new)
        opened.owner (entries_of opened.journal)) }
    ensures can_go_on { IfOk result (λ opened. CanGoOn opened.journal) }
    ensures stopped { IfErr result (StopsOpening key.now (D.drive disk.old)) }
    ensures kept { OnErr result (IfKnown (D.drive disk.old) (D.drive disk.new)
        (LeavesAsBefore key.now)) }
    ensures counts { D.faults disk.old ≤ D.faults disk.new }
    ensures cause { FailsOutside result
        → FaultRose (D.faults disk.old) (D.faults disk.new) }
    ensures quiet { (FailsOutside result → ⊥) → D.faults disk.new ≡ D.faults disk.old }
{
    match Journal::open(alloc, disk) {
        Ok(journal) => owner_behind(alloc, key, journal, disk),
        Err(fault) => Err(stop_after(alloc, fault)?),
    }
}

/// What the program ends with where the journal isn't opened.
fn stop_after(alloc: Global, fault: JournalFault) -> Result<Stop, AllocError>
    ensures stops { IfOk result (StopsAtFault fault) }
    ensures told { fault ≡ JournalFault.Disk → result ≡ Ok Stop.Outside }
{
    match fault {
        JournalFault::Disk => Ok(Stop::Outside),
        JournalFault::Damaged { index, .. } => Ok(Stop::Refused(bad_entry(alloc, index)?)),
        JournalFault::Memory => Ok(Stop::Memory),
    }
}

/// The owner behind the last entry of a journal that was opened.
fn owner_behind<D: Disk>(
    alloc: Global,
    key: &SecretKey,
    journal: Journal,
    disk: &mut D,
) -> Result<OpenedJournal, Stop>
    requires works { has_failed journal ≡ false }
    requires fits { AllByRecursion FitsEntry (entries_of journal) }
    requires at_rest { IfSome (D.drive disk.old) (IsAtRest (entries_of journal)) }
    ensures key { IfOk result (λ opened. opened.owner.key ≡ key.now) }
    ensures entries { IfOk result (λ opened. entries_of opened.journal
        ≡ or_first_entry key.now (entries_of journal)) }
    ensures steps { IfOk result (λ opened. AreStepsTo key.now (entries_of opened.journal)
        opened.owner.roots) }
    ensures at_rest { IfOk result (λ opened. IfSome (D.drive disk.new)
        (IsAtRest (entries_of opened.journal))) }
    ensures can_go_on { IfOk result (λ opened. CanGoOn opened.journal) }
    ensures stopped { IfErr result (StopsReplaying key.now (entries_of journal)) }
    ensures kept { OnErr result (IfKnown (D.drive disk.old) (D.drive disk.new)
        (λ _. LeavesAsFound key.now (entries_of journal))) }
    ensures counts { D.faults disk.old ≤ D.faults disk.new }
    ensures cause { FailsOutside result
        → FaultRose (D.faults disk.old) (D.faults disk.new) }
    ensures quiet { (FailsOutside result → ⊥) → D.faults disk.new ≡ D.faults disk.old }
{
    if journal.entries().is_empty() {
        begin_journal(alloc, key, journal, disk)
    } else {
        match replay_journal(alloc, key, journal.entries()) {
            Ok(owner) => Ok(OpenedJournal { owner, journal }),
            Err(stop) => {
                drop(journal);
                Err(stop)
            }
        }
    }
}

/// An owner of no tables, with the entry of version 0 in its journal.
fn begin_journal<D: Disk>(
    alloc: Global,
    key: &SecretKey,
    mut journal: Journal,
    disk: &mut D,
) -> Result<OpenedJournal, Stop>
    requires empty { entries_of journal ≡ [] }
    requires works { has_failed journal ≡ false }
    requires fits { AllByRecursion FitsEntry (entries_of journal) }
    requires at_rest { IfSome (D.drive disk.old) (IsAtRest (entries_of journal)) }
    ensures key { IfOk result (λ opened. opened.owner.key ≡ key.now) }
    ensures entries { IfOk result (λ opened. entries_of opened.journal ≡ first_entry key.now ∷ []) }
    ensures steps { IfOk result (λ opened. AreStepsTo key.now (entries_of opened.journal)
        opened.owner.roots) }
    ensures at_rest { IfOk result (λ opened. IfSome (D.drive disk.new)
        (IsAtRest (entries_of opened.journal))) }
    ensures can_go_on { IfOk result (λ opened. CanGoOn opened.journal) }
    ensures stopped { IfErr result (StopsReplaying key.now []) }
    ensures kept { OnErr result (IfKnown (D.drive disk.old) (D.drive disk.new)
        (λ _. LeavesAsFound key.now (entries_of journal))) }
    ensures counts { D.faults disk.old ≤ D.faults disk.new }
    ensures cause { FailsOutside result
        → FaultRose (D.faults disk.old) (D.faults disk.new) }
    ensures quiet { (FailsOutside result → ⊥) → D.faults disk.new ≡ D.faults disk.old }
{
    match start_owner(alloc, key, &mut journal, disk) {
        Ok(owner) => Ok(OpenedJournal { owner, journal }),
        Err(stop) => {
            drop(journal);
            Err(stop)
        }
    }
}

/// The same in a journal that is lent.
fn start_owner<D: Disk>(
    alloc: Global,
    key: &SecretKey,
    journal: &mut Journal,
    disk: &mut D,
) -> Result<Owner, Stop>
    requires empty { entries_of journal.old ≡ [] }
    requires works { has_failed journal.old ≡ false }
    requires fits { AllByRecursion FitsEntry (entries_of journal.old) }
    requires at_rest { IfSome (D.drive disk.old) (IsAtRest (entries_of journal.old)) }
    ensures key { IfOk result (λ owner. owner.key ≡ key.now) }
    ensures entries { OnOk result (entries_of journal.new ≡ first_entry key.now ∷ []) }
    ensures steps { IfOk result (λ owner. AreStepsTo key.now (entries_of journal.new)
        owner.roots) }
    ensures at_rest { OnOk result (IfSome (D.drive disk.new) (IsAtRest (entries_of journal.new))) }
    ensures can_go_on { OnOk result (CanGoOn journal.new) }
    ensures stopped { IfErr result (StopsReplaying key.now []) }
    ensures kept { OnErr result (IfKnown (D.drive disk.old) (D.drive disk.new)
        (λ _. LeavesAsFound key.now (entries_of journal.old))) }
    ensures counts { D.faults disk.old ≤ D.faults disk.new }
    ensures cause { FailsOutside result
        → FaultRose (D.faults disk.old) (D.faults disk.new) }
    ensures quiet { (FailsOutside result → ⊥) → D.faults disk.new ≡ D.faults disk.old }
{
    let (owner, first) = Owner::start(alloc, key)?;
    let appended = append_entry(alloc, journal, disk, &first);
    drop(first);
    match appended {
        Ok(()) => Ok(owner),
        Err(NoAppend::Disk) => {
            drop(owner);
            Err(Stop::Outside)
        }
        Err(NoAppend::Memory) => {
            drop(owner);
            Err(Stop::Memory)
        }
    }
}

/// The owner behind these entries, if it wrote them.
fn replay_journal(alloc: Global, key: &SecretKey, entries: &[Entry]) -> Result<Owner, Stop>
    requires fits { AllByRecursion FitsEntry entries.now }
    requires some { 0 < length entries.now }
    ensures key { IfOk result (λ owner. owner.key ≡ key.now) }
    ensures steps { IfOk result (λ owner. AreStepsTo key.now entries.now owner.roots) }
    ensures stopped { IfErr result (StopsReplaying key.now entries.now) }
    ensures inside { StaysInside result }
{
    match replay(alloc, key, entries) {
        Ok(mut owner) => {
            // A tree for which there is no memory now is made as it is signed in.
            let _ = owner.prepare(alloc);
            Ok(owner)
        }
        Err(ReplayFault::Entry { index }) => Err(Stop::Refused(bad_entry(alloc, index)?)),
        Err(ReplayFault::Memory) => Err(Stop::Memory),
    }
}
