//! Calls of journals.
ghost use Rattle.std.specs.Prelude.{IfOk, IfSome};
ghost use Rattle.std.specs.List.{AllByRecursion};
ghost use Rattle.vo_spec.specs.Batches.{FitsBatch};
ghost use Rattle.vo_spec.specs.Journals.{FitsEntry};
ghost use Rattle.vo_spec.specs.Records.{FitsCatalog};
ghost use Rattle.owner_state.specs.Sealing.{FitEach};

use crate::arguments::number_of;
use crate::keys::read_key;
use crate::records::last_catalog_text;
use crate::state::State;
use batch_format::read_batch;
use line_pieces::{NoAnswer, form_of};
use owner_state::{
    Ending, EntriesFault, Entry, JournalReadFault, LoadableJournal, OwnedJournal, SealFault,
    entry_bytes, into_entries, journal_bytes, put_slot, read_entries, read_loadable, read_owned,
    read_slots, seal as sealed,
};
use std::alloc::Global;
use vo_spec::{Batch, Catalog, List};

/// How a journal ends, and the slots of its entries again.
pub fn slots(alloc: Global, strings: &[Vec<u8>]) -> Result<String, NoAnswer> {
    let [bytes] = strings else {
        return Err(NoAnswer::NoSuchLine);
    };
    let slots = read_slots(alloc, bytes)?;
    let ending = slots.ending;
    let entries = into_entries(alloc, slots.entries)?;
    let text = slots_text(alloc, ending, &entries);
    drop(entries);
    text
}

fn slots_text(alloc: Global, ending: Ending, entries: &[Entry]) -> Result<String, NoAnswer>
    requires { AllByRecursion FitsEntry entries.now }
{
    let mut line = ending_text(alloc, ending)?;
    for entry in entries {
        line.push(' ')?;
        line.push_str(&slot_text(alloc, entry)?)?;
    }
    Ok(line)
}

fn ending_text(alloc: Global, ending: Ending) -> Result<String, NoAnswer> {
    match ending {
        Ending::Closed { .. } => Ok("Closed".to_string(alloc)?),
        Ending::Damaged { at } => Ok(format!(in alloc; "(Damaged {at})")?),
    }
}

fn slot_text(alloc: Global, entry: &Entry) -> Result<String, NoAnswer>
    requires { FitsEntry entry.now }
{
    let mut bytes = Vec::new(alloc);
    put_slot(alloc, &mut bytes, entry)?;
    Ok(hex::encode(alloc, bytes)?)
}

/// How many entries a journal has, and each again.
pub fn entries(alloc: Global, strings: &[Vec<u8>]) -> Result<String, NoAnswer> {
    let [bytes] = strings else {
        return Err(NoAnswer::NoSuchLine);
    };
    match entries_in(alloc, bytes) {
        Ok(entries) => {
            let text = entries_text(alloc, &entries);
            drop(entries);
            text
        }
        Err(fault) => damage_text(alloc, fault),
    }
}

/// The entries of a journal, out of its bytes.
pub(crate) fn entries_in(alloc: Global, journal: &[u8]) -> Result<Vec<Entry>, EntriesFault>
    ensures { IfOk result (λ entries. AllByRecursion FitsEntry entries.items) }
{
    Ok(into_entries(alloc, read_entries(alloc, journal)?)?)
}

pub(crate) fn damage_text(alloc: Global, fault: EntriesFault) -> Result<String, NoAnswer> {
    match fault {
        EntriesFault::Damaged { index, at } => Ok(format!(in alloc; "(Damaged {index} {at})")?),
        EntriesFault::Memory => Err(NoAnswer::Memory),
    }
}

fn entries_text(alloc: Global, entries: &[Entry]) -> Result<String, NoAnswer>
    requires { AllByRecursion FitsEntry entries.now }
{
    let mut line = format!(in alloc; "{}", entries.len())?;
    for entry in entries {
        line.push(' ')?;
        line.push_str(&entry_text(alloc, entry)?)?;
    }
    Ok(line)
}

pub(crate) fn entry_text(alloc: Global, entry: &Entry) -> Result<String, NoAnswer>
    requires { FitsEntry entry.now }
{
    Ok(hex::encode(alloc, entry_bytes(alloc, entry)?)?)
}

/// The journal of a journal's entries, with nothing behind its closed gate.
pub fn journal(alloc: Global, strings: &[Vec<u8>]) -> Result<String, NoAnswer> {
    let [bytes] = strings else {
        return Err(NoAnswer::NoSuchLine);
    };
    match entries_in(alloc, bytes) {
        Ok(entries) => {
            let journal = journal_bytes(alloc, &entries);
            drop(entries);
            Ok(hex::encode(alloc, journal?)?)
        }
        Err(fault) => damage_text(alloc, fault),
    }
}

/// The journal of batches, sealed by the key that was made last, which is kept.
pub fn seal(alloc: Global, state: &mut State, strings: &[Vec<u8>]) -> Result<String, NoAnswer> {
    match sealed(alloc, state.secret()?, read_batches(alloc, strings)?) {
        Ok(journal) => state.keep(alloc, journal),
        Err(fault) => seal_fault_text(alloc, fault),
    }
}

fn seal_fault_text(alloc: Global, fault: SealFault) -> Result<String, NoAnswer> {
    match fault {
        SealFault::KeySpent => Ok("KeySpent".to_string(alloc)?),
        SealFault::Command { index, fault } => {
            let fault = form_of(alloc, &fault)?;
            Ok(format!(in alloc; "(Command {index} {fault})")?)
        }
        SealFault::Memory => Err(NoAnswer::Memory),
    }
}

fn read_batches(alloc: Global, strings: &[Vec<u8>]) -> Result<List<Batch>, NoAnswer>
    ensures { IfOk result (λ batches. FitEach batches) }
{
    let mut batches = List::new(alloc);
    for string in strings {
        batches.push(batch_in(alloc, string)?)?;
    }
    Ok(batches)
}

/// The batch that the bytes are.
pub fn batch_in(alloc: Global, bytes: &[u8]) -> Result<Batch, NoAnswer>
    ensures { IfOk result (λ batch. FitsBatch batch.commands) }
{
    match read_batch(alloc, bytes) {
        Ok(batch) => Ok(batch),
        Err(_) => Err(NoAnswer::NoSuchLine),
    }
}

/// How many entries an owner's journal has, and the catalog of its tables at a version.
pub fn owned_journal(alloc: Global, strings: &[Vec<u8>]) -> Result<String, NoAnswer> {
    let [key, version, journal] = strings else {
        return Err(NoAnswer::NoSuchLine);
    };
    match read_owned(alloc, &read_key(key)?, journal, number_of(version)?) {
        Ok(owned) => {
            let text = owned_text(alloc, &owned);
            drop(owned);
            text
        }
        Err(fault) => bad_entry_text(alloc, fault),
    }
}

fn bad_entry_text(alloc: Global, fault: JournalReadFault) -> Result<String, NoAnswer> {
    match fault {
        JournalReadFault::BadAt { index } => Ok(format!(in alloc; "(BadAt {index})")?),
        JournalReadFault::Memory => Err(NoAnswer::Memory),
    }
}

fn owned_text(alloc: Global, owned: &OwnedJournal<'_>) -> Result<String, NoAnswer> {
    let catalog = match &owned.tables {
        Some(tables) => Some(tables.catalog(alloc)?),
        None => None,
    };
    version_text(alloc, owned.entries.len(), catalog)
}

/// How many entries there are, and the catalog of a version, if they have that.
fn version_text(alloc: Global, count: usize, catalog: Option<Catalog>) -> Result<String, NoAnswer>
    requires { IfSome catalog FitsCatalog }
{
    match catalog {
        Some(catalog) => {
            let catalog = last_catalog_text(alloc, catalog)?;
            Ok(format!(in alloc; "{count} {catalog}")?)
        }
        None => Ok(format!(in alloc; "{count} no such version")?),
    }
}

/// How many entries a journal has that a store takes, and the catalog of its tables behind them.
pub fn taken_journal(alloc: Global, strings: &[Vec<u8>]) -> Result<String, NoAnswer> {
    let [key, journal] = strings else {
        return Err(NoAnswer::NoSuchLine);
    };
    match read_loadable(alloc, &read_key(key)?, journal, None) {
        Ok(taken) => {
            let text = taken_text(alloc, &taken);
            drop(taken);
            text
        }
        Err(fault) => bad_entry_text(alloc, fault),
    }
}

fn taken_text(alloc: Global, taken: &LoadableJournal<'_>) -> Result<String, NoAnswer> {
    let catalog = match &taken.tables {
        Some(tables) => Some(tables.catalog(alloc)?),
        None => None,
    };
    version_text(alloc, taken.entries.len(), catalog)
}
