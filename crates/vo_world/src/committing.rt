//! The owner commits a batch.
ghost use Rattle.std.specs.Prelude.{◌≡◌, ◌<◌, ◌^◌, ◌∷◌, ◌++◌, [], false, length, IfOk, OnErr, OnOk};
ghost use Rattle.outside.specs.MemDisk.{drive_of};
ghost use Rattle.vo_spec.specs.Batches.{FitsBatch};
ghost use Rattle.vo_spec.specs.Journals.{FitsEntry};
ghost use Rattle.owner_journal.specs.Entries.{entries_of, has_failed};
ghost use Rattle.vo_world.specs.Steps.{Commits, with_entry};

use crate::events::Said;
use crate::releasing::gain;
use crate::world::World;
use outside::{MemDisk, Never};
use owner_journal::{Journal, JournalFault};
use owner_state::{Entry, OwnerFault};
use std::alloc::{AllocError, Global};
use vo_spec::Batch;

impl World {
    /// The owner takes the step of the batch by these proofs, and its entry comes into the journal.
    pub fn commit(
        &mut self,
        alloc: Global,
        batch: &Batch,
        proofs: &[u8],
    ) -> Result<Said, AllocError>
        requires { FitsBatch batch.now.commands }
        ensures ok { IfOk result (λ says. Commits self.old batch.now proofs.now says self.new) }
        ensures err { OnErr result (self.new ≡ self.old) }
    {
        let released = gain(alloc, &self.released, self.journal.entries())?;
        let moment = self.disk.moment();
        let step = match self.owner.step(alloc, batch, proofs) {
            Ok(step) => step,
            Err(OwnerFault::Memory) => return Err(AllocError),
            Err(fault) => {
                self.released = released;
                self.since = moment;
                return Ok(Said::Denied(fault));
            }
        };
        append_entry(alloc, &mut self.journal, &mut self.disk, &step.entry)?;
        self.released = released;
        self.since = moment;
        let version = step.roots.version;
        self.owner.advance(step);
        Ok(Said::Committed(version))
    }
}

/// Appends an entry on a disk that never fails.
pub(crate) fn append_entry(
    alloc: Global,
    journal: &mut Journal,
    disk: &mut MemDisk<Never>,
    entry: &Entry,
) -> Result<(), AllocError>
    requires fits { FitsEntry entry.now }
    requires count { length (entries_of journal.old) < 2 ^ 32 }
    requires works { has_failed journal.old ≡ false }
    ensures entries { OnOk result (entries_of journal.new
        ≡ entries_of journal.old ++ entry.now ∷ []) }
    ensures drive { OnOk result (drive_of disk.new
        ≡ with_entry (entries_of journal.old) entry.now (drive_of disk.old)) }
    ensures works { has_failed journal.new ≡ false }
    ensures kept { OnErr result (entries_of journal.new ≡ entries_of journal.old) }
    ensures still { OnErr result (drive_of disk.new ≡ drive_of disk.old) }
{
    match journal.append(alloc, disk, entry) {
        Ok(()) => Ok(()),
        Err(JournalFault::Memory) => Err(AllocError),
        Err(JournalFault::Disk) => unreachable!(),
        Err(JournalFault::Damaged { .. }) => unreachable!(),
    }
}
