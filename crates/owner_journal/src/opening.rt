//! Opening a journal, whatever a crash left on its disk.
ghost use Rattle.std.specs.Prelude.{◌≡◌, ◌⊎◌, ℕ, ◌+◌, ◌<◌, ◌≤◌, List, ◌∷◌, [], false, length, IfOk, IfErr, IfSome, OnOk, IsErrOf};
ghost use Rattle.std.specs.List.{AllByRecursion};
ghost use Rattle.outside.specs.Calls.{AsksAtMost};
ghost use Rattle.outside.specs.DiskModel.{HasRoom, MayLeave, sync_known};
ghost use Rattle.outside.specs.FaultRose.{FaultRose};
ghost use Rattle.outside.specs.Moments.{IfKnown, IsDown, LeavesOnly, IsTornImage, persist_known};
ghost use Rattle.vo_spec.specs.Journals.{FitsEntry, IsJournal};
ghost use Rattle.owner_journal.specs.Resting.{IsAtRest, HoldsAsBefore, IsFaultOf, IsNoDamage, UnlessDisk};
ghost use Rattle.owner_journal.specs.Entries.{entries_of, has_failed};

use crate::fault::JournalFault;
use crate::journal::Journal;
use crate::reading::read_journal;
use crate::slot_writing::write_down;
use outside::{Disk, Failed};
use std::alloc::Global;

impl Journal {
    /// The journal on a disk; an empty disk is made one of no entries. What it finds is put down
    /// first, so that no later crash leaves less.
    pub fn open<D: Disk>(alloc: Global, disk: &mut D) -> Result<Journal, JournalFault>
        ensures works { IfOk result (λ journal. has_failed journal ≡ false) }
        ensures fits { IfOk result (λ journal. AllByRecursion FitsEntry (entries_of journal)) }

        // The entries are those of what reads gave, and damage is told where that is no journal.
        ensures found { IfOk result (λ journal. IfSome (D.drive disk.old)
            (λ before. IsJournal before.seen (entries_of journal))) }
        ensures damaged { IfErr result (λ fault. IfSome (D.drive disk.old)
            (λ before. IsFaultOf before.seen fault)) }
        ensures counts { D.faults disk.old ≤ D.faults disk.new }
        ensures cause { IsErrOf result JournalFault.Disk
            → FaultRose (D.faults disk.old) (D.faults disk.new) }
        ensures quiet { UnlessDisk result (D.faults disk.new ≡ D.faults disk.old) }

        // It asks the device for four calls at most, and for three where a journal may stand. Where
        // it wants memory, the disk is as it was, or what reads gave was put down.
        ensures asks { AsksAtMost 4 (D.asked disk.old) (D.asked disk.new) }
        ensures asks_later { IfSome (D.drive disk.old) (λ before. 2 ≤ length before.seen
            → AsksAtMost 3 (D.asked disk.old) (D.asked disk.new)) }
        ensures memory { IsErrOf result JournalFault.Memory
            → (D.drive disk.new ≡ D.drive disk.old)
            ⊎ (D.drive disk.new ≡ sync_known (D.drive disk.old)) }

        // What it does to the disk, and what a crash leaves at any moment since it began.
        ensures first { OnOk result (IfSome (D.drive disk.old) (λ before. length before.seen < 2
            → D.drive disk.new ≡ persist_known 0 (0 ∷ []) (sync_known (D.drive disk.old)))) }
        ensures later { OnOk result (IfSome (D.drive disk.old) (λ before. 2 ≤ length before.seen
            → D.drive disk.new ≡ sync_known (D.drive disk.old))) }
        ensures at_rest { IfOk result (λ journal. IfSome (D.drive disk.new)
            (IsAtRest (entries_of journal))) }
        ensures holds { IfOk result (λ journal. IfSome (D.drive disk.new) (λ after.
            (image : List ℕ) → MayLeave after image → IsJournal image (entries_of journal))) }
        ensures any_moment { IfKnown (D.drive disk.old) (D.drive disk.new)
            (λ before after. LeavesOnly before after (HoldsAsBefore before)) }
    {
        let end = settle(disk)?;
        if end < 2 {
            close_first(alloc, disk)
        } else {
            read_journal(alloc, disk, end)
        }
    }
}

/// Puts down what reads give, and answers how many bytes that are.
fn settle<D: Disk>(disk: &mut D) -> Result<u64, JournalFault>
    ensures len { IfOk result (λ end. IfSome (D.drive disk.old)
        (λ before. end ≡ length before.seen)) }
    ensures ok { OnOk result (D.drive disk.new ≡ sync_known (D.drive disk.old)) }
    ensures room { OnOk result (IfSome (D.room disk.new) (HasRoom 1 1 2)) }
    ensures any_moment { IfKnown (D.drive disk.old) (D.drive disk.new)
        (λ before after. LeavesOnly before after (MayLeave before)) }
    ensures fault { IfErr result IsNoDamage }
    ensures counts { D.faults disk.old ≤ D.faults disk.new }
    ensures cause { IsErrOf result JournalFault.Disk
        → FaultRose (D.faults disk.old) (D.faults disk.new) }
    ensures quiet { UnlessDisk result (D.faults disk.new ≡ D.faults disk.old) }
    ensures asks { AsksAtMost 2 (D.asked disk.old) (D.asked disk.new) }
    ensures memory { IsErrOf result JournalFault.Memory → D.drive disk.new ≡ D.drive disk.old }
{
    disk.reserve(1, 1, 3)?;
    match disk.sync() {
        Ok(()) => match disk.len() {
            Ok(end) => Ok(end),
            Err(Failed) => Err(JournalFault::Disk),
        },
        Err(Failed) => Err(JournalFault::Disk),
    }
}

/// Makes an empty disk a journal of no entries.
fn close_first<D: Disk>(alloc: Global, disk: &mut D) -> Result<Journal, JournalFault>
    requires { IfSome (D.room disk.old) (HasRoom 1 1 2) }
    ensures empty { IfOk result (λ journal. entries_of journal ≡ []) }
    ensures works { IfOk result (λ journal. has_failed journal ≡ false) }
    ensures ok { OnOk result (D.drive disk.new
        ≡ persist_known 0 (0 ∷ []) (D.drive disk.old)) }
    ensures any_moment { IfKnown (D.drive disk.old) (D.drive disk.new)
        (λ before after. IsDown before → LeavesOnly before after (IsTornImage 0 1 before.seen)) }
    ensures fault { IfErr result IsNoDamage }
    ensures counts { D.faults disk.old ≤ D.faults disk.new }
    ensures cause { IsErrOf result JournalFault.Disk
        → FaultRose (D.faults disk.old) (D.faults disk.new) }
    ensures quiet { UnlessDisk result (D.faults disk.new ≡ D.faults disk.old) }
    ensures asks { AsksAtMost 2 (D.asked disk.old) (D.asked disk.new) }
    ensures memory { IsErrOf result JournalFault.Memory → ⊥ }
{
    match write_down(disk, 0, &[0]) {
        Ok(()) => Ok(Journal {
            entries: Vec::new(alloc),
            gate: 0,
            failed: false,
        }),
        Err(Failed) => Err(JournalFault::Disk),
    }
}
