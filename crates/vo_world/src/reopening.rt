//! The machine stops, and the owner comes back to its journal.
ghost use Rattle.std.specs.Prelude.{◌≡◌, ◌<◌, ◌≤◌, List as Items, [], ◌∷◌, false, length, IfOk, OnErr};
ghost use Rattle.std.specs.List.{AllByRecursion};
ghost use Rattle.outside.specs.DiskModel.{LeftSince, fresh, sync_now};
ghost use Rattle.outside.specs.MemDisk.{drive_of};
ghost use Rattle.vo_spec.specs.declared.records.Entry.{Entry as Plain};
ghost use Rattle.vo_spec.specs.Journals.{FitsEntry, IsJournal};
ghost use Rattle.owner_state.specs.Stepping.{AreStepsTo};
ghost use Rattle.owner_journal.specs.Entries.{entries_of, has_failed};
ghost use Rattle.vo_world.specs.Keeping.{AreReplayable, IsWritten};
ghost use Rattle.vo_world.specs.Steps.{Crashes, Reopens, persist};

use crate::events::Said;
use crate::world::World;
use lms_sign::SecretKey;
use outside::{MemDisk, Never};
use owner_journal::{Journal, JournalFault};
use owner_state::{Entry, Owner, ReplayFault, replay};
use std::alloc::{AllocError, Global};
use vo_spec::List;

impl World {
    /// The owner comes back to these bytes, if a stop may have left them.
    pub fn crash(&mut self, alloc: Global, image: List<u8>) -> Result<Said, AllocError>
        ensures ok { IfOk result (λ says. Crashes self.old image says self.new) }
        ensures err { OnErr result (self.new ≡ self.old) }
    {
        let is_left = self.disk.has_left(alloc, self.since, image.as_slice())?;
        if is_left {
            self.reopen(alloc, image.into_vec())
        } else {
            Ok(Said::NoImage)
        }
    }

    /// The owner comes back to these bytes, which a stop may have left.
    fn reopen(&mut self, alloc: Global, image: Vec<u8>) -> Result<Said, AllocError>
        requires { LeftSince self.old.drive self.old.since image.items }
        ensures ok { IfOk result (λ says. Reopens self.old image.items says self.new) }
        ensures err { OnErr result (self.new ≡ self.old) }
    {
        let (journal, disk) = open_image(alloc, &self.key, image)?;
        let owner = reopen_owner(alloc, &self.key, journal.entries())?;
        let count = journal.entries().len();
        self.owner = owner;
        self.journal = journal;
        self.disk = disk;
        self.since = 0;
        Ok(Said::Reopened(count))
    }
}

/// The journal on a disk that holds what the owner wrote, and the disk.
fn open_image(
    alloc: Global,
    key: &SecretKey,
    image: Vec<u8>,
) -> Result<(Journal, MemDisk<Never>), AllocError>
    requires { IsWritten key.now image.items }
    ensures found { IfOk result (λ opened. IsJournal image.items (entries_of opened.0)) }
    ensures works { IfOk result (λ opened. has_failed opened.0 ≡ false) }
    ensures fits { IfOk result (λ opened. AllByRecursion FitsEntry (entries_of opened.0)) }
    ensures drive { IfOk result (λ opened. drive_of opened.1 ≡ sync_now (fresh image.items)) }
    ensures steps { IfOk result (λ opened. AreReplayable key.now (entries_of opened.0)) }
{
    open_disk(alloc, image)
}

/// The journal on a disk that holds one, and the disk.
pub(crate) fn open_disk(
    alloc: Global,
    image: Vec<u8>,
) -> Result<(Journal, MemDisk<Never>), AllocError>
    requires { (es : Items Plain) × IsJournal image.items es }
    ensures found { IfOk result (λ opened. IsJournal image.items (entries_of opened.0)) }
    ensures works { IfOk result (λ opened. has_failed opened.0 ≡ false) }
    ensures fits { IfOk result (λ opened. AllByRecursion FitsEntry (entries_of opened.0)) }
    ensures first { IfOk result (λ opened. length image.items < 2
        → drive_of opened.1 ≡ persist 0 (0 ∷ []) (sync_now (fresh image.items))) }
    ensures later { IfOk result (λ opened. 2 ≤ length image.items
        → drive_of opened.1 ≡ sync_now (fresh image.items)) }
{
    let mut disk = MemDisk::new(alloc, image, Never)?;
    match Journal::open(alloc, &mut disk) {
        Ok(journal) => Ok((journal, disk)),
        Err(JournalFault::Memory) => Err(AllocError),
        Err(JournalFault::Disk) => unreachable!(),
        Err(JournalFault::Damaged { .. }) => unreachable!(),
    }
}

/// The owner behind entries that it wrote.
fn reopen_owner(alloc: Global, key: &SecretKey, entries: &[Entry]) -> Result<Owner, AllocError>
    requires fits { AllByRecursion FitsEntry entries.now }
    requires steps { AreReplayable key.now entries.now }
    ensures key { IfOk result (λ owner. owner.key ≡ key.now) }
    ensures roots { IfOk result (λ owner. AreStepsTo key.now entries.now owner.roots) }
{
    match replay(alloc, key, entries) {
        Ok(owner) => Ok(owner),
        Err(ReplayFault::Memory) => Err(AllocError),
        Err(ReplayFault::Entry { .. }) => unreachable!(),
    }
}
