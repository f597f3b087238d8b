//! Appending an entry, so that the disk holds it whole or not at all.
ghost use Rattle.std.specs.Prelude.{◌≡◌, ◌⊎◌, ℕ, ◌+◌, ◌<◌, ◌≤◌, ◌^◌, List, ◌++◌, ◌∷◌, [], true, false, length, vec_len, IsTrue, IfOk, IfErr, OnOk, OnErr, IsErrOf, Err};
ghost use Rattle.outside.specs.Calls.{AsksAtMost};
ghost use Rattle.outside.specs.DiskModel.{MayLeave};
ghost use Rattle.outside.specs.FaultRose.{FaultRose};
ghost use Rattle.outside.specs.Moments.{IfKnown, LeavesOnly};
ghost use Rattle.vo_spec.specs.Journals.{FitsEntry, IsJournal};
ghost use Rattle.owner_journal.specs.Slots.{slot_down};
ghost use Rattle.owner_journal.specs.Resting.{IsAtRest, HoldsWith, IsNoDamage, UnlessDisk, behind_gate, end_of};
ghost use Rattle.owner_journal.specs.Entries.{entries_of, has_failed};

use crate::fault::JournalFault;
use crate::journal::Journal;
use crate::slot_writing::write_slot;
use outside::{Disk, Failed};
use owner_state::{copy_entry, put_entry_block};
use std::alloc::{AllocError, Global};
use vo_spec::Entry;

impl Journal {
    /// Puts an entry behind the others. Once the disk failed here, each later call answers `Disk`.
    pub fn append<D: Disk>(
        &mut self,
        alloc: Global,
        disk: &mut D,
        entry: &Entry,
    ) -> Result<(), JournalFault>
        requires fits { FitsEntry entry.now }
        requires count { length (entries_of self.old) < 2 ^ 32 }
        ensures ok { OnOk result (entries_of self.new ≡ entries_of self.old ++ entry.now ∷ []) }
        ensures err { OnErr result (entries_of self.new ≡ entries_of self.old) }
        ensures fault { IfErr result IsNoDamage }

        // It fails once and for all where the disk does, and is otherwise as before.
        ensures works { OnOk result (has_failed self.new ≡ false) }
        ensures failed { IsErrOf result JournalFault.Disk → has_failed self.new ≡ true }
        ensures memory { IsErrOf result JournalFault.Memory
            → (has_failed self.new ≡ has_failed self.old) × (D.drive disk.new ≡ D.drive disk.old) }
        ensures after_fault { IsTrue (has_failed self.old)
            → (result ≡ Err JournalFault.Disk) × (D.drive disk.new ≡ D.drive disk.old)
            × (D.faults disk.new ≡ D.faults disk.old) }
        ensures counts { D.faults disk.old ≤ D.faults disk.new }
        ensures cause { IsErrOf result JournalFault.Disk → IsTrue (has_failed self.old)
            ⊎ FaultRose (D.faults disk.old) (D.faults disk.new) }
        ensures quiet { UnlessDisk result (D.faults disk.new ≡ D.faults disk.old) }

        // It asks the device for four calls at most, and for none where it wants memory or the disk
        // failed before.
        ensures asks { AsksAtMost 4 (D.asked disk.old) (D.asked disk.new) }
        ensures unasked { IsErrOf result JournalFault.Memory → D.asked disk.new ≡ D.asked disk.old }
        ensures unasked_after_fault { IsTrue (has_failed self.old)
            → D.asked disk.new ≡ D.asked disk.old }

        // What it does to the disk, and what a crash leaves at any moment since it began.
        ensures exact { OnOk result (D.drive disk.new
            ≡ slot_down (end_of (entries_of self.old)) (behind_gate entry.now)
            (D.drive disk.old)) }
        ensures at_rest { OnOk result (IfKnown (D.drive disk.old) (D.drive disk.new)
            (λ before after. IsAtRest (entries_of self.old) before
            → IsAtRest (entries_of self.old ++ entry.now ∷ []) after)) }
        ensures holds { OnOk result (IfKnown (D.drive disk.old) (D.drive disk.new)
            (λ before after. IsAtRest (entries_of self.old) before → (image : List ℕ)
            → MayLeave after image → IsJournal image (entries_of self.old ++ entry.now ∷ []))) }
        ensures any_moment { IfKnown (D.drive disk.old) (D.drive disk.new)
            (λ before after. IsAtRest (entries_of self.old) before
            → LeavesOnly before after (HoldsWith (entries_of self.old) entry.now)) }
    {
        if self.failed {
            return Err(JournalFault::Disk);
        }
        let behind = behind_gate_of(alloc, entry)?;
        let copy = copy_entry(alloc, entry)?;
        self.put(disk, &behind, copy)
    }

    /// Writes an entry, of which this stands behind its gate. No call of the disk fails for want of
    /// memory.
    #[tactic(auto, using(crate::proofs::Sizes::end_more, crate::proofs::Sizes::behind_short))]
    fn put<D: Disk>(
        &mut self,
        disk: &mut D,
        behind: &[u8],
        entry: Entry,
    ) -> Result<(), JournalFault>
        requires fits { FitsEntry entry }
        requires behind { behind.now ≡ behind_gate entry }
        requires count { length (entries_of self.old) < 2 ^ 32 }
        requires works { has_failed self.old ≡ false }
        ensures ok { OnOk result (entries_of self.new ≡ entries_of self.old ++ entry ∷ []) }
        ensures err { OnErr result (entries_of self.new ≡ entries_of self.old) }
        ensures fault { IfErr result IsNoDamage }
        ensures works { OnOk result (has_failed self.new ≡ false) }
        ensures failed { IsErrOf result JournalFault.Disk → has_failed self.new ≡ true }
        ensures memory { IsErrOf result JournalFault.Memory
            → (has_failed self.new ≡ false) × (D.drive disk.new ≡ D.drive disk.old) }
        ensures counts { D.faults disk.old ≤ D.faults disk.new }
        ensures cause { IsErrOf result JournalFault.Disk
            → FaultRose (D.faults disk.old) (D.faults disk.new) }
        ensures quiet { UnlessDisk result (D.faults disk.new ≡ D.faults disk.old) }
        ensures asks { AsksAtMost 4 (D.asked disk.old) (D.asked disk.new) }
        ensures unasked { IsErrOf result JournalFault.Memory → D.asked disk.new ≡ D.asked disk.old }
        ensures exact { OnOk result (D.drive disk.new
            ≡ slot_down (end_of (entries_of self.old)) (behind_gate entry) (D.drive disk.old)) }
        ensures any_moment { IfKnown (D.drive disk.old) (D.drive disk.new)
            (λ before after. IsAtRest (entries_of self.old) before
            → LeavesOnly before after (HoldsWith (entries_of self.old) entry)) }
    {
        self.entries.reserve(1)?;
        let length = behind.len() as u64;
        disk.reserve(self.gate + 1 + length, length + 1, 4)?;
        match write_slot(disk, self.gate, behind) {
            Ok(()) => {
                self.entries.push(entry).unwrap();
                self.gate += length;
                Ok(())
            }
            Err(Failed) => {
                self.failed = true;
                Err(JournalFault::Disk)
            }
        }
    }
}

/// What stands behind the gate of an entry's slot, with the closed gate after it.
fn behind_gate_of(alloc: Global, entry: &Entry) -> Result<Vec<u8>, AllocError>
    requires { FitsEntry entry.now }
    ensures { IfOk result (λ bytes. bytes.items ≡ behind_gate entry.now) }
{
    let mut bytes = Vec::new(alloc);
    put_entry_block(alloc, &mut bytes, entry)?;
    bytes.push(0)?;
    Ok(bytes)
}
