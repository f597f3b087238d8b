//! Reading the entries of a journal from its disk.
ghost use Rattle.std.specs.Prelude.{◌≡◌, ◌≤◌, ℕ, false, length, IfOk, IfErr, IfSome, OnOk, IsErrOf};
ghost use Rattle.std.specs.List.{AllByRecursion};
ghost use Rattle.outside.specs.Calls.{AsksAtMost};
ghost use Rattle.outside.specs.FaultRose.{FaultRose};
ghost use Rattle.vo_spec.specs.Journals.{FitsEntry, IsJournal};
ghost use Rattle.owner_journal.specs.Resting.{IsFaultOf, IsNoDamage, UnlessDisk};
ghost use Rattle.owner_journal.specs.Entries.{entries_of, has_failed};
ghost use Rattle.owner_journal.specs.Taking.{IsMeasured};

use crate::fault::JournalFault;
use crate::journal::Journal;
use crate::taking::{slot_counts, take_entries};
use outside::{Disk, Failed};
use owner_state::{Ending, read_slots};
use std::alloc::Global;

/// The journal that a disk of so many bytes holds.
pub(crate) fn read_journal<D: Disk>(
    alloc: Global,
    disk: &mut D,
    end: u64,
) -> Result<Journal, JournalFault>
    requires { IfSome (D.drive disk.old) (λ drive. end ≡ length drive.seen) }
    ensures found { IfOk result (λ journal. IfSome (D.drive disk.old)
        (λ drive. IsJournal drive.seen (entries_of journal))) }
    ensures works { IfOk result (λ journal. has_failed journal ≡ false) }
    ensures fits { IfOk result (λ journal. AllByRecursion FitsEntry (entries_of journal)) }
    ensures damaged { IfErr result (λ fault. IfSome (D.drive disk.old)
        (λ drive. IsFaultOf drive.seen fault)) }
    ensures kept { D.drive disk.new ≡ D.drive disk.old }
    ensures counts { D.faults disk.old ≤ D.faults disk.new }
    ensures cause { IsErrOf result JournalFault.Disk
        → FaultRose (D.faults disk.old) (D.faults disk.new) }
    ensures quiet { UnlessDisk result (D.faults disk.new ≡ D.faults disk.old) }
    ensures asks { AsksAtMost 1 (D.asked disk.old) (D.asked disk.new) }
{
    let bytes = read_whole(alloc, disk, end)?;
    journal_of(alloc, bytes)
}

fn read_whole<D: Disk>(alloc: Global, disk: &mut D, end: u64) -> Result<Vec<u8>, JournalFault>
    requires { IfSome (D.drive disk.old) (λ drive. end ≡ length drive.seen) }
    ensures read { IfOk result (λ bytes. IfSome (D.drive disk.old)
        (λ drive. bytes.items ≡ drive.seen)) }
    ensures kept { D.drive disk.new ≡ D.drive disk.old }
    ensures fault { IfErr result IsNoDamage }
    ensures counts { D.faults disk.old ≤ D.faults disk.new }
    ensures cause { IsErrOf result JournalFault.Disk
        → FaultRose (D.faults disk.old) (D.faults disk.new) }
    ensures quiet { UnlessDisk result (D.faults disk.new ≡ D.faults disk.old) }
    ensures asks { AsksAtMost 1 (D.asked disk.old) (D.asked disk.new) }
{
    let mut bytes = Vec::new(alloc);
    bytes.resize(end as usize, 0)?;
    match disk.read(0, &mut bytes) {
        Ok(()) => Ok(bytes),
        Err(Failed) => Err(JournalFault::Disk),
    }
}

/// The journal that the bytes are.
fn journal_of(alloc: Global, bytes: Vec<u8>) -> Result<Journal, JournalFault>
    ensures found { IfOk result (λ journal. IsJournal bytes.items (entries_of journal)) }
    ensures works { IfOk result (λ journal. has_failed journal ≡ false) }
    ensures fits { IfOk result (λ journal. AllByRecursion FitsEntry (entries_of journal)) }
    ensures damaged { IfErr result (IsFaultOf bytes.items) }
    ensures no_disk { IsErrOf result JournalFault.Disk → ⊥ }
{
    let mut bytes = bytes;
    let measured = measure(alloc, &bytes)?;
    bytes.truncate(measured.gate as usize);
    let entries = take_entries(alloc, &mut bytes, measured.counts)?;
    Ok(Journal {
        entries,
        gate: measured.gate,
        failed: false,
    })
}

/// The slots of a journal by their lengths, and the place of the closed gate behind them.
#[derive(Drop)]
struct Measured {
    counts: Vec<usize>,
    gate: u64,
}

fn measure(alloc: Global, bytes: &[u8]) -> Result<Measured, JournalFault>
    ensures found { IfOk result (λ measured. IsMeasured bytes.now measured.counts.items
        measured.gate) }
    ensures damaged { IfErr result (IsFaultOf bytes.now) }
    ensures no_disk { IsErrOf result JournalFault.Disk → ⊥ }
{
    let slots = read_slots(alloc, bytes)?;
    match slots.ending {
        Ending::Closed { at } => Ok(Measured {
            counts: slot_counts(alloc, slots.entries.as_slice())?,
            gate: at,
        }),
        Ending::Damaged { at } => Err(JournalFault::Damaged {
            index: slots.entries.len() as u64,
            at,
        }),
    }
}
