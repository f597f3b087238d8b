//! Journals whose entries an owner has written, or a store takes.
ghost use Rattle.std.specs.Prelude.{◌≡◌, ◌↔◌, ◌<◌, ℕ, List, Err, IfOk, IfSome, IsSome, IsTrue, length};
ghost use Rattle.vo_spec.specs.Owners.{IsLoadable, IsUnloadableAt};
ghost use Rattle.owner_roots.specs.Owners.{IsBadAt, IsOwned};
ghost use Rattle.owner_state.specs.Departing.{Departs, trees_at};
ghost use Rattle.owner_state.specs.Walking.{IsWhole, version_in};

use crate::departures::Departure;
use crate::lent_entry::LentEntry;
use crate::slot_reading::{Ending, Slots, read_slots};
use crate::walks::{walk_loadable, walk_owned};
use lms_sign::PublicKey;
use std::alloc::{AllocError, Global};
use stored_tables::StoredTables;
use thiserror::Error;
use vo_spec::List;

/// Why bytes are no such journal.
#[derive(Clone, Copy, Debug, PartialEq, Eq, Error)]
pub enum JournalReadFault {
    /// The first entry that can't be read, isn't of the sort, or is wanted and isn't there, has
    /// this number.
    #[error("a bad journal")]
    BadAt { index: u64 },
    #[error("out of memory")]
    Memory,
}

impl From<AllocError> for JournalReadFault {
    ghost use Rattle.std.specs.Prelude.{◌≡◌};
    ghost use Rattle.owner_state.specs.declared.journals.JournalReadFault.TheVariants.{Memory};

    ghost from_gives = { λ _ fault. fault ≡ Memory };

    fn from(_error: AllocError) -> JournalReadFault {
        JournalReadFault::Memory
    }
}

/// An owner's journal, the honest tables at the version that was asked for, and where the owner's
/// roots depart from such tables.
#[derive(Drop)]
pub struct OwnedJournal<'b> {
    pub entries: List<LentEntry<'b>>,
    /// None where the journal has no such version.
    pub tables: Option<StoredTables>,
    pub departure: Option<Departure>,
}

/// A journal that a store takes, and the tables of the version that was asked for, or of the last.
#[derive(Drop)]
pub struct LoadableJournal<'b> {
    pub entries: List<LentEntry<'b>>,
    /// None where the journal has no such version.
    pub tables: Option<StoredTables>,
}

/// Reads the journal of an owner of the key.
pub fn read_owned<'b>(
    alloc: Global,
    key: &PublicKey,
    journal: &'b [u8],
    version: u64,
) -> Result<OwnedJournal<'b>, JournalReadFault>
    ensures owned { IfOk result (λ read. IsOwned key.now journal.now read.entries) }
    ensures tables { IfOk result (λ read.
        IfSome read.tables (λ tables. tables ≡ trees_at version read.entries)) }
    ensures there { IfOk result (λ read. version < length read.entries → IsSome read.tables) }
    ensures only { IfOk result (λ read. IsSome read.tables → version < length read.entries) }
    ensures departure { IfOk result (λ read. Departs key.now read.entries read.departure) }
    ensures bad { (index : ℕ) → result ≡ Err (JournalReadFault.BadAt index)
        → IsBadAt key.now journal.now index }
{
    let slots = read_slots(alloc, journal)?;
    let walked = walk_owned(alloc, key, slots.entries.as_slice(), version)?;
    if !is_whole(&slots) {
        return Err(end_fault(&slots));
    }
    Ok(OwnedJournal {
        entries: slots.entries,
        tables: walked.tables,
        departure: walked.departure,
    })
}

/// Reads a journal that a store of the key takes.
pub fn read_loadable<'b>(
    alloc: Global,
    key: &PublicKey,
    journal: &'b [u8],
    version: Option<u64>,
) -> Result<LoadableJournal<'b>, JournalReadFault>
    ensures taken { IfOk result (λ read. IsLoadable key.now journal.now read.entries) }
    ensures tables { IfOk result (λ read. IfSome read.tables (λ tables.
        tables ≡ trees_at (version_in version read.entries) read.entries)) }
    ensures there { IfOk result (λ read.
        version_in version read.entries < length read.entries → IsSome read.tables) }
    ensures only { IfOk result (λ read.
        IsSome read.tables → version_in version read.entries < length read.entries) }
    ensures bad { (index : ℕ) → result ≡ Err (JournalReadFault.BadAt index)
        → IsUnloadableAt key.now journal.now index }
{
    let slots = read_slots(alloc, journal)?;
    let version = version_in(version, slots.entries.as_slice());
    let tables = walk_loadable(alloc, key, slots.entries.as_slice(), version)?;
    if !is_whole(&slots) {
        return Err(end_fault(&slots));
    }
    let entries = slots.entries;
    Ok(LoadableJournal { entries, tables })
}

/// The version that is asked for, or that of the last entry.
fn version_in(version: Option<u64>, entries: &[LentEntry<'_>]) -> u64
    ensures { result ≡ version_in version entries.now }
{
    match version {
        Some(version) => version,
        None => (entries.len() as u64).saturating_sub(1),
    }
}

/// Whether a journal has entries, and a closed gate behind them.
fn is_whole(slots: &Slots<'_>) -> bool
    ensures { IsTrue result ↔ IsWhole slots.now.entries slots.now.ending }
{
    match slots.ending {
        Ending::Closed { .. } => !slots.entries.is_empty(),
        Ending::Damaged { .. } => false,
    }
}

/// The entry behind the last one is wanted, and isn't there.
fn end_fault(slots: &Slots<'_>) -> JournalReadFault
    ensures { result ≡ JournalReadFault.BadAt (length slots.now.entries) }
{
    JournalReadFault::BadAt {
        index: slots.entries.len() as u64,
    }
}
